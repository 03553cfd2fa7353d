//! What is shown to the driver of a reading.

use crate::targets::TargetKind;

/// A supervision limit that is told as a speed: the permitted limit, the service brake intervention (SBI) or the
/// emergency brake intervention (EBI). (SUBSET-026-3 3.13.9.3; the speeds own)
#[derive(Clone, Copy, Debug, PartialEq, Eq)]
pub enum LimitName {
    /// The permitted speed.
    Permitted,
    /// The speed of the SBI.
    Sbi,
    /// The speed of the EBI.
    Ebi,
}

/// The target that counts for the permitted speed. (own)
#[derive(Clone, Copy, Debug, PartialEq, Eq)]
pub struct Shown {
    /// What kind the target is of.
    pub kind: TargetKind,
    /// The target's speed in km/h, 0 to 500; 0 for an EOA and an SvL.
    pub speed: u16,
    /// From the front end that the target compares to the target's place, in mm rounded down; 0 once it is passed.
    pub distance: i64,
}

/// What is shown of a reading. (own)
#[derive(Clone, Copy, Debug, PartialEq, Eq)]
pub struct Display {
    /// Time of the reading in ds.
    pub time: u32,
    /// The permitted speed in km/h, 0 to 500.
    pub permitted: u16,
    /// The SBI speed in km/h, 0 to 500.
    pub sbi: u16,
    /// The EBI speed in km/h, 0 to 500.
    pub ebi: u16,
    /// The release speed of the authority in km/h, 0 to 500.
    pub release: u16,
    /// The target that counts; none where no target is slower than the train.
    pub shown: Option<Shown>,
}
