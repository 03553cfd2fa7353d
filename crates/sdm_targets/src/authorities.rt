//! Which movement authorities are accepted.

ghost use Rattle.std.specs.Prelude.{◌≡◌, pos, Some, None, IfErr, OnOk};
ghost use Rattle.sdm_rules.specs.Records.{authority_fault, trip_fault};

use sdm_rules::{Authority, AuthorityFault, TOP_KMH, TripFault};

/// Accepts a stop, or says the first fault of it.
fn check_stop(eoa: u32, svl: u32, release: u16, track_cm: u32) -> Result<(), AuthorityFault>
    ensures accepted { OnOk result (authority_fault (pos track_cm) (Authority.Stop eoa svl release) ≡ None) }
    ensures refused { IfErr result
        (λ fault. authority_fault (pos track_cm) (Authority.Stop eoa svl release) ≡ Some fault) }
{
    if svl < eoa {
        return Err(AuthorityFault::SvlBeforeEoa);
    }
    if track_cm < svl {
        return Err(AuthorityFault::BeyondTrack);
    }
    if TOP_KMH < u32::from(release) {
        return Err(AuthorityFault::BadSpeed);
    }
    Ok(())
}

/// Accepts a limit, or says the first fault of it.
fn check_limit(loa: u32, speed: u16, track_cm: u32) -> Result<(), AuthorityFault>
    ensures accepted { OnOk result (authority_fault (pos track_cm) (Authority.Limit loa speed) ≡ None) }
    ensures refused { IfErr result
        (λ fault. authority_fault (pos track_cm) (Authority.Limit loa speed) ≡ Some fault) }
{
    if track_cm < loa {
        return Err(AuthorityFault::BeyondTrack);
    }
    if speed == 0 || TOP_KMH < u32::from(speed) {
        return Err(AuthorityFault::BadSpeed);
    }
    Ok(())
}

/// Accepts an authority for a track of this length in cm. Refused, by the first of these: where the SvL lies before
/// the EOA; where the SvL or the LOA lies past the track's end; where a limit's speed is 0 or above 500 km/h, or a
/// release speed is above 500 km/h. (SUBSET-026-3 3.8; refusals own)
pub fn check_authority(a: &Authority, track_cm: u32) -> Result<(), AuthorityFault>
    ensures accepted { OnOk result (authority_fault (pos track_cm) a.now ≡ None) }
    ensures refused { IfErr result (λ fault. authority_fault (pos track_cm) a.now ≡ Some fault) }
{
    match *a {
        Authority::Stop { eoa, svl, release } => check_stop(eoa, svl, release, track_cm),
        Authority::Limit { loa, speed } => check_limit(loa, speed, track_cm),
    }
}

/// Accepts a stop whose release speed is calculated, for a track of this length in cm, with the place of the front end
/// at which a train that ran past its EOA is tripped. Refused, by the first of these: where `check_authority` refuses
/// a stop at these places; where the trip lies before the EOA or past the SvL. (SUBSET-026-3 3.13.9.4.8; refusals own)
pub fn check_trip(eoa: u32, svl: u32, trip: u32, track_cm: u32) -> Result<(), TripFault>
    ensures accepted { OnOk result (trip_fault (pos track_cm) eoa svl trip ≡ None) }
    ensures refused { IfErr result (λ fault. trip_fault (pos track_cm) eoa svl trip ≡ Some fault) }
{
    check_stop(eoa, svl, 0, track_cm).map_err(TripFault::Authority)?;
    if trip < eoa || svl < trip {
        return Err(TripFault::BadTrip);
    }
    Ok(())
}
