//! Reports as texts, both ways, and the line of a refusal.
//!
//! `write_report` appends the text of a report (`writing`). `read_report` reads a text against a deck (`reading`): it reads the lines record by
//! record, and makes the report of them with the deck's updates in its commits, or answers the first faulty record with its least kind. `laws` says
//! that a text either spells one report or has one fault, and that what is written is read back. `status` has how a command ended, and the line that
//! it prints for a refusal.
#![tactic(auto)]

pub mod laws;
pub mod reading;
mod status;
mod writing;

pub use air_base::Rows;
pub use air_model::reports::{CountsLine, LookLine, VerdictLine};
pub use laws::read_back_law;
pub use laws::reading::{
    not_both_reports_law, one_report_fault_law, one_report_law, report_or_fault_law,
};
pub use laws::texts::one_history_law;
pub use reading::faults::ReportError;
pub use reading::lines::EventLine;
pub use reading::sections::ReadLines;
pub use reading::texts::read_lines;
pub use reading::{ReadReport, read_report};
pub use status::Status;
pub use status::refusal::refusal_line;
pub use writing::fields::{add_numbers, add_row, finish, put_numbers, row_writer};
pub use writing::report::{Report, write_report};
