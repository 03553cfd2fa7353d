//! Why a data part is refused, and why data can't be driven: a variant a cause, with what a reader of the message
//! needs. (own)

use sdm_rules::{NationalFault, Section, TrackFault, TrainFault};
use thiserror::Error;

/// A key of a section: `index` counts from 1 in a list and is 0 elsewhere; `key` is the key's number in its section.
#[derive(Clone, Copy, Debug, PartialEq, Eq)]
pub struct At {
    pub section: Section,
    pub index: u32,
    pub key: u8,
}

/// The first rule that the data part breaks.
#[derive(Clone, Copy, Debug, PartialEq, Eq, Error)]
pub enum DataFault {
    /// A key is wanting.
    #[error("missing {0:?}")]
    Missing(At),
    /// A section has a key that isn't known.
    #[error("unknown key in {section:?} {index}")]
    UnknownKey { section: Section, index: u32 },
    /// A key's value is of another kind.
    #[error("wrong kind {0:?}")]
    WrongKind(At),
    /// A key's value is outside its range.
    #[error("value {0:?}")]
    Value(At),
    #[error("{0}")]
    Train(TrainFault),
    #[error("{0}")]
    National(NationalFault),
    #[error("{0}")]
    Track(TrackFault),
    #[error("no memory")]
    Memory,
}

/// Why data can't be driven.
#[derive(Clone, Copy, Debug, PartialEq, Eq, Error)]
pub enum DriveCause {
    /// The authority is a limit, and has no supervised location.
    #[error("no stop")]
    NoStop,
    /// The authority has a release speed.
    #[error("release speed")]
    HasRelease,
    /// The emergency brake takes less time to build up than there is from a reading to the next.
    #[error("emergency time")]
    ShortBuild,
}
