//! What the checker of a certificate text answers.

use crate::lines::BadLine;

/// The answer to a claim.
#[derive(Clone, Copy, Debug, PartialEq, Eq)]
pub struct Answer {
    /// The claim's time, in ds.
    pub time: u32,
    /// Whether the marks hold for the claim on the map of the text.
    pub yes: bool,
}

/// Why there is no checker of a text. (own)
#[derive(Clone, Copy, Debug, PartialEq, Eq)]
pub enum CheckFault {
    /// A line of the map isn't of the form due or is wanting.
    Line(BadLine),
    /// No memory.
    Memory,
}
