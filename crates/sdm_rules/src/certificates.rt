//! What a stop certificate claims, and the marks that show it. (own)

use sdm_num::{Place, Speed};

/// What a certificate claims: from at most this front end and speed, with at most these accelerations for these times
/// until its brakes work, the train stops at or before `svl`. (own)
#[derive(Clone, Copy, Debug, PartialEq, Eq)]
pub struct Claim {
    /// The time of its reading, in ds.
    pub time: u32,
    /// The greatest place of the front end.
    pub front: Place,
    /// The greatest speed.
    pub speed: Speed,
    /// The greatest acceleration until the traction is cut off, in cm/s².
    pub accel1: u16,
    /// The greatest acceleration while the brake builds up, in cm/s².
    pub accel2: u16,
    /// How long the traction may push, in ds.
    pub traction: u32,
    /// How long the brake builds up after that, in ds.
    pub berem: u32,
    /// The place that the front end never passes.
    pub svl: Place,
}

/// A place, and the energy that the train has there at most. (own)
#[derive(Clone, Copy, Debug, PartialEq, Eq)]
pub struct Mark {
    /// The place, in grains.
    pub place: i64,
    /// The energy: 5·10¹²·q times a square of speed in squared notches.
    pub energy: u128,
}
