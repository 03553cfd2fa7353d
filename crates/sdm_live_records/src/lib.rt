//! The records of a journey that come line by line, and the answer to each: a line divided into its fields, the event
//! that they write, what the supervisor makes of it, and what is told of that.
#![tactic(auto)]

mod line_fields;
mod records;

pub use line_fields::{LineFields, Within};
pub use records::LiveRecords;
