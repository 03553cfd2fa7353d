//! What `flat` tells of a line.

/// The row of a line of the flat supervisor. (own)
#[derive(Clone, Copy, Debug, PartialEq, Eq)]
pub struct FlatRow {
    /// Time in ds.
    pub time: u32,
    /// The exact place of the curve at the line's speed, in mm rounded down.
    pub ebi: i64,
    /// Whether the front end is at or before the computed place.
    pub covered: bool,
    /// The emergency brake command after the line.
    pub eb: bool,
}
