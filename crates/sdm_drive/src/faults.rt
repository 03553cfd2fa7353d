//! Why a train can't be driven.

ghost use Rattle.std.specs.Prelude.{◌≡◌};

use sdm_rules::OpenFault;
use thiserror::Error;

/// Why a drive is refused. (own)
#[derive(Clone, Copy, Debug, PartialEq, Eq, Error)]
pub enum DriveFault {
    /// The authority is a limit, and has no SvL.
    #[error("no stop")]
    NoStop,
    /// The authority has a release speed, in km/h.
    #[error("release speed {speed}")]
    HasRelease { speed: u16 },
    /// The emergency brake takes less than 5 ds to build up.
    #[error("emergency time {time}")]
    ShortBuild { time: u32 },
    /// The supervisor refuses the data or the authority; its own fault is never want of memory.
    #[error("{0}")]
    Open(OpenFault),
    #[error("no memory")]
    Memory,
}
