//! Why data, records and openings are refused: a variant a cause, with what a reader of the message needs. (own)

use crate::data::SlopeKind;
use thiserror::Error;

/// A section of the data part.
#[derive(Clone, Copy, Debug, PartialEq, Eq)]
pub enum Section {
    Root,
    Train,
    Band,
    National,
    Track,
    Gradient,
    Speed,
    Adhesion,
    NoSpecial,
    Authority,
}

/// Why train data are refused. `band` counts from 1 and is 0 for the train's own keys.
#[derive(Clone, Copy, Debug, PartialEq, Eq, Error)]
pub enum TrainFault {
    /// There are no bands, or too many.
    #[error("band count")]
    BandCount,
    /// A band but the last has no upper speed or one that isn't above that of the band before, or the last has one.
    #[error("order of band {band}")]
    BandOrder { band: u32 },
    /// A number is outside its range.
    #[error("value of key {key} in band {band}")]
    Value { band: u32, key: u8 },
}

/// Why national values are refused.
#[derive(Clone, Copy, Debug, PartialEq, Eq, Error)]
pub enum NationalFault {
    /// A number is outside its range.
    #[error("value of key {key}")]
    Value { key: u8 },
}

/// Why track data are refused. Indices count from 1.
#[derive(Clone, Copy, Debug, PartialEq, Eq, Error)]
pub enum TrackFault {
    /// A list has too few or too many entries.
    #[error("count of {list:?}")]
    Count { list: Section },
    /// An entry does not lie past the one before it.
    #[error("order of {list:?} {index}")]
    Order { list: Section, index: u32 },
    /// A number is outside its range.
    #[error("value of key {key} in {list:?} {index}")]
    Value { list: Section, index: u32, key: u8 },
    /// The first entry does not start at 0.
    #[error("gap before {list:?}")]
    Gap { list: Section },
}

/// Why a movement authority is refused.
#[derive(Clone, Copy, Debug, PartialEq, Eq, Error)]
pub enum AuthorityFault {
    /// The supervised location lies before the end of authority.
    #[error("supervised location before end")]
    SvlBeforeEoa,
    /// The supervised location or the limit of authority lies past the track's end.
    #[error("beyond track")]
    BeyondTrack,
    /// A limit's speed is 0 or too high, or the release speed is too high.
    #[error("bad speed")]
    BadSpeed,
}

/// Why a stop whose release speed is calculated is refused.
#[derive(Clone, Copy, Debug, PartialEq, Eq, Error)]
pub enum TripFault {
    /// A stop at these places is refused.
    #[error("{0}")]
    Authority(AuthorityFault),
    /// The place of the trip lies before the end of authority or past the supervised location.
    #[error("bad trip place")]
    BadTrip,
}

/// Why a temporary speed restriction is refused.
#[derive(Clone, Copy, Debug, PartialEq, Eq, Error)]
pub enum RestrictFault {
    /// As many as may be are held already.
    #[error("too many restrictions")]
    Full,
    /// One with this identity is held already.
    #[error("identity {id} in use")]
    IdInUse { id: u16 },
    /// It ends at or before its start, or past the track's end.
    #[error("restriction value")]
    Value,
}

/// Why a change of data is refused: the supervisor that was opened over the new data can't take over what is kept. (own)
#[derive(Clone, Copy, Debug, PartialEq, Eq, Error)]
pub enum TakeOverFault {
    /// A restriction in force ends past the end of the new track; of several the one with the least identity.
    #[error("restriction {id} ends past the end of the track")]
    BeyondTrack { id: u16 },
}

/// Why a revocation is refused.
#[derive(Clone, Copy, Debug, PartialEq, Eq, Error)]
pub enum RevokeFault {
    /// None with this identity is held.
    #[error("identity {id} unknown")]
    Unknown { id: u16 },
}

/// Why a reading is refused.
#[derive(Clone, Copy, Debug, PartialEq, Eq, Error)]
pub enum CycleFault {
    /// Its time, in ds, is before that of the last accepted one.
    #[error("time {time} before {last}")]
    TimeBack { last: u32, time: u32 },
}

/// Why an opening is refused. Bands count from 1; slopes are in 1/Q m/s².
#[derive(Clone, Copy, Debug, PartialEq, Eq, Error)]
pub enum OpenFault {
    /// A slope is below 0.05 m/s².
    #[error("{kind:?} slope {slope} too weak in band {band}, cell {cell}")]
    TooWeak {
        kind: SlopeKind,
        band: u32,
        cell: i32,
        slope: i64,
    },
    /// The slopes of a band differ too much.
    #[error("{kind:?} slopes from {least} to {greatest} too varied in band {band}")]
    TooVaried {
        kind: SlopeKind,
        band: u32,
        least: i64,
        greatest: i64,
    },
    /// The first authority is refused.
    #[error("{0}")]
    BadAuthority(AuthorityFault),
    #[error("no memory")]
    Memory,
}

/// Why a field of a record is refused.
#[derive(Clone, Copy, Debug, PartialEq, Eq, Error)]
pub enum FieldFault {
    #[error("not a number")]
    NotNumber,
    #[error("out of range")]
    OutOfRange,
}

/// Why the form of a record is refused.
#[derive(Clone, Copy, Debug, PartialEq, Eq, Error)]
pub enum EventFault {
    #[error("unknown kind")]
    UnknownKind,
    #[error("field count")]
    FieldCount,
    /// Columns count from 1, the kind being column 1.
    #[error("field {column}: {fault}")]
    Field { column: u32, fault: FieldFault },
    #[error("too many events")]
    TooMany,
}

/// Why a record is refused.
#[derive(Clone, Copy, Debug, PartialEq, Eq, Error)]
pub enum EventCause {
    #[error("{0}")]
    Form(EventFault),
    #[error("{0}")]
    Authority(AuthorityFault),
    /// The place of a trip lies before the end of authority or past the supervised location.
    #[error("bad trip place")]
    BadTrip,
    #[error("{0}")]
    Restrict(RestrictFault),
    #[error("{0}")]
    Revoke(RevokeFault),
    /// A reading's time, in ds, is before that of the last accepted one.
    #[error("time {time} before {last}")]
    TimeBack { last: u32, time: u32 },
    /// A line of `flat` is not of the form due, or its time is before that of the last accepted one.
    #[error("line")]
    Line,
}
