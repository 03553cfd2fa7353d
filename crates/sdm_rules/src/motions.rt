//! Motions of a train, as lists of kinematic inequalities. For a scale `s`, times are in 1/s ds, speeds in 1/s notch,
//! places, lengths and squares of speeds in 1/s² of a grain and of a squared notch. (own)

use sdm_num::{Place, Speed};

/// What may still push the train before its brakes work: the traction, or nothing while the brake builds up.
/// (SUBSET-026-3 3.13.9.3.2)
#[derive(Clone, Copy, Debug, PartialEq, Eq)]
pub enum Phase {
    /// The traction still pushes.
    Traction,
    /// The emergency brake builds up.
    Build,
}

/// A stretch of time before the brakes work: how long, the speed at its end, and the distance. (own)
#[derive(Clone, Copy, Debug, PartialEq, Eq)]
pub struct Slice {
    /// What may push.
    pub phase: Phase,
    /// How long, in 1/s ds.
    pub time: u32,
    /// The speed at its end, in 1/s notch.
    pub to: u64,
    /// The distance, in 1/s² of a grain.
    pub length: u64,
}

/// A place with the square of the speed there. (own)
#[derive(Clone, Copy, Debug, PartialEq, Eq)]
pub struct Point {
    /// The place, in 1/s² of a grain.
    pub place: i128,
    /// The square of the speed, in 1/s² of a squared notch.
    pub square: u128,
}

/// Where and how fast motions begin at most, how they may gain speed (cm/s²) and for how long (ds). (own)
#[derive(Clone, Copy, Debug, PartialEq, Eq)]
pub struct Start {
    /// The greatest place of the front end.
    pub front: Place,
    /// The greatest speed.
    pub speed: Speed,
    /// A_est1, in cm/s².
    pub accel1: u16,
    /// A_est2, in cm/s².
    pub accel2: u16,
    /// T_traction, in ds.
    pub traction: u32,
    /// T_berem, in ds.
    pub berem: u32,
}
