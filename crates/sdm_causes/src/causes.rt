//! The causes of a reading's triggers, and how each command stands after it.

use sdm_rules::TargetKind;

/// A target that is passed by a limit of its own. (SUBSET-026-3 3.13.10.4; own)
#[derive(Clone, Copy, Debug, PartialEq, Eq)]
pub struct PassedTarget {
    /// What kind the target is of.
    pub kind: TargetKind,
    /// Its place in mm.
    pub place: i64,
    /// Its speed in km/h, 0 to 500; 0 for an EOA and an SvL.
    pub speed: u16,
    /// The limit that is passed, in mm rounded down.
    pub limit: i64,
}

/// Why a trigger holds. (SUBSET-026-3 3.13.10; own)
#[derive(Clone, Copy, Debug, PartialEq, Eq)]
pub enum Cause {
    /// The speed is above the ceiling with the margin of the limit.
    Ceiling,
    /// A target is passed by its limit.
    Passed(PassedTarget),
    /// The min safe front end is past the end of the authority (EOA).
    EndOfAuthority,
    /// In release speed monitoring the speed is above the release speed.
    ReleaseSpeed,
    /// A service brake intervention limit (SBI) is passed, and the service brake isn't in use.
    NoServiceBrake,
}

/// What releases a command that is held. (SUBSET-026-3 3.13.10; own table)
#[derive(Clone, Copy, Debug, PartialEq, Eq)]
pub enum Until {
    /// The train is within the permitted speed.
    PermittedSpeed,
    /// The train stands.
    Standstill,
    /// The train stands, or is within the permitted speed.
    StandstillOrPermittedSpeed,
}

/// How a command stands after a reading. (SUBSET-026-3 3.13.10; own)
#[derive(Clone, Copy, Debug, PartialEq, Eq)]
pub enum Standing {
    /// It isn't commanded.
    Off,
    /// A cause of it stands at this reading.
    Set,
    /// No cause of it stands: it is held from an earlier reading until this.
    Held(Until),
}

/// The first cause of each trigger of a reading, none where it doesn't hold, and how each command stands after it.
/// (SUBSET-026-3 3.13.10; own)
#[derive(Clone, Copy, Debug, PartialEq, Eq)]
pub struct Causes {
    /// Time of the reading in ds.
    pub time: u32,
    /// Why the train is above the permitted speed.
    pub over: Option<Cause>,
    /// Why a warning limit is passed.
    pub warn: Option<Cause>,
    /// Why an SBI is passed.
    pub serv: Option<Cause>,
    /// Why there is an emergency.
    pub emer: Option<Cause>,
    /// Traction cut-off.
    pub tco: Standing,
    /// Service brake.
    pub sb: Standing,
    /// Emergency brake.
    pub eb: Standing,
}
