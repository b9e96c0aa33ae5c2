//! The audit: each verdict, glance and look of a report is replayed by the report's own history.
//!
//! The history is run once (`running`). `replay` keeps what that gives, the writes of each item with their places (`writes`), and finds
//! origins and values there. `alone` tells whether reads are consistent, by one backward walk over the commits from which they descend;
//! `sought` has the items that it looks for. `policies` tells what clashes by a policy, `groups` and `group_clashes` what clashes by
//! groups, `passing` what clashes and passes, and `spans` whether reads lie as far apart as their verdict says. `lines` tells what is
//! found of a line, `audits` what is found of a report, from its text and as a text. No type of held reads and no control column is used.
#![tactic(auto)]

mod alone;
mod audits;
pub mod findings;
mod group_clashes;
mod groups;
mod laws;
pub mod limits;
mod lines;
mod passing;
mod policies;
mod replay;
mod running;
mod sought;
mod spans;
mod writes;

pub use audits::audit;
pub use audits::reports::{AuditText, audit_report};
pub use audits::texts::findings_text;
pub use findings::{AuditError, Cause, Finding};
pub use laws::{agrees_law, rows_law, session_law, true_report_law};
