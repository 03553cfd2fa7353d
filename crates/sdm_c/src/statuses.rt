//! What a call answers: `enum sdm_status`. Each refusal of the supervisor has a status of its own.

ghost use Rattle.std.specs.Prelude.{◌≡◌, Some};
ghost use Rattle.sdm_c.specs.Statuses.{authority_status, change_status, restrict_status, trip_status};

use sdm_rules::{AuthorityFault, RestrictFault, TakeOverFault, TripFault};

/// The call did what it is for.
pub const DONE: u32 = 0;

/// The handle has no supervisor.
pub const CLOSED: u32 = 1;

/// The handle has a supervisor already.
pub const IN_USE: u32 = 2;

/// Memory is wanting.
pub const NO_MEMORY: u32 = 3;

/// The data break a rule.
pub const BAD_DATA: u32 = 4;

/// The slopes or the first authority are refused.
pub const REFUSED: u32 = 5;

/// A number is outside its range.
pub const OUT_OF_RANGE: u32 = 6;

/// The reading's time is before that of the last one.
pub const TIME_BACK: u32 = 7;

/// The supervised location lies before the end of authority.
pub const SVL_BEFORE_EOA: u32 = 8;

/// The supervised location or the limit of authority lies past the track's end.
pub const BEYOND_TRACK: u32 = 9;

/// The limit's speed is 0 or too high, or the release speed is too high.
pub const BAD_SPEED: u32 = 10;

/// The trip's place lies before the end of authority or past the supervised location.
pub const BAD_TRIP: u32 = 11;

/// As many restrictions as may be are held.
pub const FULL: u32 = 12;

/// A restriction with this identity is held.
pub const ID_IN_USE: u32 = 13;

/// The restriction ends at or before its start, or past the track's end; at a change of data, past the new track's end.
pub const BAD_PLACES: u32 = 14;

/// No restriction with this identity is held.
pub const UNKNOWN_ID: u32 = 15;

/// The supervisor that is to take over has had a reading or a restriction.
pub const NOT_FRESH: u32 = 16;

/// The status of an authority that is refused. (own)
pub fn of_authority(fault: AuthorityFault) -> u32
    ensures { result ≡ authority_status (Some fault) }
{
    match fault {
        AuthorityFault::SvlBeforeEoa => SVL_BEFORE_EOA,
        AuthorityFault::BeyondTrack => BEYOND_TRACK,
        AuthorityFault::BadSpeed => BAD_SPEED,
    }
}

/// The status of a stop with the place of a trip that is refused. (own)
pub fn of_trip(fault: TripFault) -> u32
    ensures { result ≡ trip_status (Some fault) }
{
    match fault {
        TripFault::Authority(fault) => of_authority(fault),
        TripFault::BadTrip => BAD_TRIP,
    }
}

/// The status of a restriction that is refused. (own)
pub fn of_restriction(fault: RestrictFault) -> u32
    ensures { result ≡ restrict_status (Some fault) }
{
    match fault {
        RestrictFault::Full => FULL,
        RestrictFault::IdInUse { .. } => ID_IN_USE,
        RestrictFault::Value => BAD_PLACES,
    }
}

/// The status of a change of data that is refused. (own)
pub fn of_take_over(fault: TakeOverFault) -> u32
    ensures { result ≡ change_status (Some fault) }
{
    match fault {
        TakeOverFault::BeyondTrack { .. } => BAD_PLACES,
    }
}
