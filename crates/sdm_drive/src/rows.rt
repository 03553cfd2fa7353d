//! What is told of a step.

use sdm_num::{Place, Speed};
use sdm_rules::Row;

/// The supervisor's row of a step, and the true train after it. (own)
#[derive(Clone, Copy, Debug, PartialEq, Eq)]
pub struct DriveRow {
    /// The supervisor's row of the reading with which the step begins.
    pub row: Row,
    /// The true front end after the step.
    pub front: Place,
    /// The true speed after the step.
    pub speed: Speed,
    /// How often the train stopped in the step.
    pub stops: u32,
}
