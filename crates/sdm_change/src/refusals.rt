//! What ends a journey over several data parts.

use sdm_rules::{EventCause, TakeOverFault};

/// The first thing in a journey over several data parts that is refused. (own)
#[derive(Clone, Copy, Debug, PartialEq, Eq)]
pub enum Refusal {
    /// A record, with its cause.
    Record(EventCause),
    /// A change of data, with its fault.
    Change(TakeOverFault),
}
