//! The records of a journey.

use crate::authorities::Authority;
use crate::restrictions::Restriction;
use sdm_num::Reading;

/// A record: an odometer reading, a new movement authority, a stop whose release speed is calculated, a temporary
/// speed restriction, or its revocation. (own)
#[derive(Clone, Copy, Debug, PartialEq, Eq)]
pub enum Event {
    Read(Reading),
    Authority(Authority),
    /// A stop, with the place of the front end at which a train that ran past its EOA is tripped; places in cm.
    Calculated { eoa: u32, svl: u32, trip: u32 },
    Restrict(Restriction),
    Revoke { id: u16 },
}
