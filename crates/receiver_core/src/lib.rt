//! A receiver: fed with bytes of any origin, it judges its own queries.
//!
//! `receivers` has the calls. A receiver knows what the deck tells all receivers (`airs`) and its own queries
//! (`readers`), holds the reads of the attempt at hand (`attempts`), by the check of the deck's policy (`checks`), and keeps
//! copies of what it opened (a `PixCache`). Its state is that of the session that `air_model` defines, and each call does to it
//! what one rule of the session says. All memory is taken by `new`.
#![tactic(auto)]

mod airs;
mod attempts;
mod checks;
pub mod laws;
mod readers;
mod reads;
pub mod receivers;

pub use airs::Air;
pub use receivers::{Fed, Receiver, Step};
