//! What a drill's deck has: what is drawn from its seed, and what is the same in each.

pub mod draws;
pub mod settings;
