//! A report and how its text is written: its rows, and the sections that they make.

pub(crate) mod fields;
pub(crate) mod report;
pub(crate) mod rows;
pub(crate) mod sections;
