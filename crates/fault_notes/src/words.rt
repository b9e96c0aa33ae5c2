//! The parts of a note: sentences with places for values, texts as they are shown, and what the system said.

pub(crate) mod sentences;
pub(crate) mod systems;
pub(crate) mod texts;
