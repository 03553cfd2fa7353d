//! What is told of a reading.

use crate::commands::{Held, State};

/// The row of a reading. Each place is the least computed limit of its name over the targets whose speed is at most
/// the train's, in mm rounded down; none where there is no such target. (own)
#[derive(Clone, Copy, Debug, PartialEq, Eq)]
pub struct Row {
    /// Time of the reading in ds.
    pub time: u32,
    /// The commands after the reading, with the status.
    pub held: Held,
    /// The type of speed and distance monitoring.
    pub state: State,
    /// Whether the stop is promised, of every motion within the reading's bounds that brakes from T_traction + T_berem
    /// after it on.
    pub covered: bool,
    /// The ceiling in km/h.
    pub ceiling: u16,
    /// The EBI in mm.
    pub ebi: Option<i64>,
    /// The SBI in mm.
    pub sbi: Option<i64>,
    /// The warning limit in mm.
    pub warning: Option<i64>,
    /// The permitted limit in mm.
    pub permitted: Option<i64>,
    /// The indication limit in mm.
    pub indication: Option<i64>,
}
