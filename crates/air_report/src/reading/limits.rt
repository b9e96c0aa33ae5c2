//! How long the text of a report may be.

/// The greatest length of a report in bytes.
pub const MOST_REPORT_BYTES: usize = 134_217_728;
