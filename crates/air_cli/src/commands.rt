//! The commands, a file for each. A command makes what it prints and writes, or gives the status that refuses it.

pub(crate) mod audit;
pub(crate) mod beam;
pub(crate) mod cast;
pub(crate) mod drill;
pub(crate) mod hearings;
pub(crate) mod listen;
pub(crate) mod plan;
pub(crate) mod reports;
pub(crate) mod run;
pub(crate) mod run_on_air;
pub(crate) mod run_reports;
pub(crate) mod script;
pub(crate) mod seek;
pub(crate) mod split;
pub(crate) mod tune;
