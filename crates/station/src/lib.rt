//! One history that many threads make: the core behind a turnstile.
//!
//! A station (`stations`) has a pass for each updater and one for the conductor (`passes`). Through its pass an updater makes its commits and the
//! conductor its starts (`calls`), each as one event of the one history. At the end all passes come back and the history comes out (`closing`). Each
//! contract says how the history continues what the pass has seen, so that each call is in it once, in its caller's order. `locked` is the value
//! behind the turnstile.
#![tactic(auto)]

mod calls;
mod closing;
mod locked;
mod passes;
mod stations;

pub use air_base::NoMemory;
pub use passes::{ConductorPass, UpdaterPass};
pub use stations::Station;
pub use update_commit::Receipt;
