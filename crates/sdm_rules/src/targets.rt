//! What the train is supervised to.

use sdm_num::Place;

/// A fall of the speed profile at the start of a cell, to a speed in km/h. (SUBSET-026-3 3.13.8.2)
#[derive(Clone, Copy, Debug, PartialEq, Eq)]
pub struct Fall {
    pub cell: i32,
    pub speed: u16,
}

/// What kind a target is of: a fall of the MRSP, the LOA, the EOA or the SvL. (SUBSET-026-3 3.13.8.2)
#[derive(Clone, Copy, Debug, PartialEq, Eq)]
pub enum TargetKind {
    Mrsp,
    Loa,
    Eoa,
    Svl,
}

/// A target: a place and a speed in km/h. (SUBSET-026-3 3.13.8.2)
#[derive(Clone, Copy, Debug, PartialEq, Eq)]
pub struct Target {
    pub kind: TargetKind,
    pub place: Place,
    pub speed: u16,
}
