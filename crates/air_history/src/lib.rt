//! Updates, events and histories, and what it means that reads of a history are consistent.
//!
//! `specs/` is the first half of what must be believed. It defines the cycle and the front of a history, the last writer,
//! descent, tables of values, consistent reads, control columns, write vectors and clashes. `laws` says how these are related,
//! for every history: each law is the contract of a function that does nothing. `scans` has slow calls, each proved to give
//! what its definition says; faster implementations are compared with them, and the audit uses them.
#![tactic(auto)]

pub mod histories;
pub mod laws;
pub mod scans;
pub mod tables;
pub mod updates;

pub use histories::{Event, History};
pub use scans::{column_scan, descends, writer_at};
pub use tables::{run_event, table_of};
pub use updates::{Update, UpdateFault, Write};
