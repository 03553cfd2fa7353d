//! What only calls of a supervisor show: faults that no input leads to, what is as it was after a refusal, and what may
//! be asked for beside rows. The rows of journeys are runs of the built program, in worked/journeys.

ghost use Rattle.std.specs.Prelude.{◌≤◌};

mod asked;
mod curves;
mod flat;
mod stops;

use crate::tests::plain::{opened, parts_of, plain_parts, stop};
use sdm_braking::TrainAndTrack;
use sdm_formats::{BASE_NATIONAL, BASE_TRAIN};
use sdm_num::Reading;
use sdm_report::row_bytes;
use sdm_rules::{
    Authority, AuthorityFault, LimitName, NationalFields, RestrictFault, RevokeFault, Row, Shown,
    TrainFields, TripFault,
};
use sdm_speed::Restriction;
use sdm_supervisor::{CycleFault, OpenFault, Supervisor};
use sdm_targets::TargetKind;
use sdm_text::RowBuf;
use std::alloc::Global;

// ---- refusals

/// A restriction to 80 km/h until the train's end has left it.
pub fn restriction(id: u16, start: u32, end: u32) -> Restriction
    ensures slowest { 1 ≤ result.speed }
    ensures fastest { result.speed ≤ 500 }
{
    Restriction {
        id,
        start,
        end,
        speed: 80,
        delayed: true,
    }
}

/// The reading of a front end in mm and a speed in mm/s.
fn reading(time: u32, front: i32, speed: u32) -> Option<Reading> {
    Reading::new(time, front, front, front, speed, 0, 0)
}

/// Whether a row is this text, as the product prints it, but for the line feed.
fn is_row(row: &Row, text: &str) -> bool {
    let mut line = RowBuf::new();
    row_bytes(row, &mut line);
    line.bytes().strip_suffix(b"\n") == Some(text.as_bytes())
}

/// Whether a reading is answered by this row.
fn is_answered(supervisor: &mut Supervisor, reading: Option<Reading>, row: &str) -> bool {
    let Some(reading) = reading else {
        return false;
    };
    match supervisor.cycle(&reading) {
        Ok(found) => is_row(&found, row),
        Err(_) => false,
    }
}

fn refuses_restrictions(supervisor: &mut Supervisor) -> bool {
    supervisor.restrict(restriction(1, 40_000, 60_000)) == Err(RestrictFault::IdInUse { id: 1 })
        && supervisor.restrict(restriction(2, 40_000, 40_000)) == Err(RestrictFault::Value)
        && supervisor.restrict(restriction(2, 40_000, 200_001)) == Err(RestrictFault::Value)
        && supervisor.revoke(2) == Err(RevokeFault::Unknown { id: 2 })
}

/// To a limit of authority, with a speed there.
fn limit(loa: u32, speed: u16) -> Authority {
    Authority::Limit { loa, speed }
}

/// With the EOA at 400 m.
fn end(svl: u32, release: u16) -> Authority {
    Authority::Stop {
        eoa: 40_000,
        svl,
        release,
    }
}

fn refuses_authorities(supervisor: &mut Supervisor) -> bool {
    supervisor.authority(end(39_999, 0)) == Err(AuthorityFault::SvlBeforeEoa)
        && supervisor.authority(end(200_001, 0)) == Err(AuthorityFault::BeyondTrack)
        && supervisor.authority(end(40_000, 501)) == Err(AuthorityFault::BadSpeed)
        && supervisor.authority(limit(200_001, 10)) == Err(AuthorityFault::BeyondTrack)
        && supervisor.authority(limit(40_000, 0)) == Err(AuthorityFault::BadSpeed)
        && supervisor.authority(limit(40_000, 501)) == Err(AuthorityFault::BadSpeed)
}

/// Takes restrictions from 2 to 32, to 10 km/h and behind the train; no other one is taken then.
fn is_full(supervisor: &mut Supervisor) -> bool {
    for id in 2..=32u16 {
        let slow = Restriction {
            id,
            start: 10_000,
            end: 11_000,
            speed: 10,
            delayed: false,
        };
        if supervisor.restrict(slow).is_err() {
            return false;
        }
    }
    supervisor.restrict(restriction(33, 40_000, 60_000)) == Err(RestrictFault::Full)
        && supervisor.restrict(restriction(1, 40_000, 60_000)) == Err(RestrictFault::Full)
        && supervisor.revoke(33) == Err(RevokeFault::Unknown { id: 33 })
}

/// With a restriction from 500 m on; when it is revoked, and another begins at 400 m, the limits lie 100 m before.
fn keeps_its_restriction(supervisor: &mut Supervisor) -> bool {
    let row = "0,T,I,0,0,0,1,160,482880,482880,432880,382880,157880";
    let earlier = "0,T,O,0,0,0,1,160,382880,382880,332880,282880,57880";
    supervisor.restrict(restriction(1, 50_000, 60_000)).is_ok()
        && is_answered(supervisor, reading(0, 300_000, 25_000), row)
        && refuses_restrictions(supervisor)
        && is_answered(supervisor, reading(0, 300_000, 25_000), row)
        && refuses_authorities(supervisor)
        && is_answered(supervisor, reading(0, 300_000, 25_000), row)
        && is_full(supervisor)
        && is_answered(supervisor, reading(0, 300_000, 25_000), row)
        && supervisor.revoke(1).is_ok()
        && supervisor.restrict(restriction(33, 40_000, 60_000)).is_ok()
        && is_answered(supervisor, reading(0, 300_000, 25_000), earlier)
}

#[test]
fn what_is_refused_changes_nothing(rt: HostRuntime) {
    let kept = match opened(rt.alloc(), plain_parts(rt.alloc()), stop(200_000, 200_000)) {
        Some(mut supervisor) => keeps_its_restriction(&mut supervisor),
        None => false,
    };
    assert!(rt; kept);
}

fn refuses_time(supervisor: &mut Supervisor, reading: Option<Reading>, last: u32) -> bool {
    let Some(reading) = reading else {
        return false;
    };
    let time = reading.time();
    match supervisor.cycle(&reading) {
        Ok(_) => false,
        Err(fault) => fault == CycleFault::TimeBack { last, time },
    }
}

/// Times may be equal and never go back; a time that is refused isn't kept, nor what its reading says. None is told
/// before the first reading.
fn keeps_its_time(supervisor: &mut Supervisor) -> bool {
    let at_10 = "10,C,N,0,0,0,1,160,1000000,1000000,1000000,1000000,1000000";
    let at_11 = "11,C,N,0,0,0,1,160,1000000,1000000,1000000,1000000,1000000";
    supervisor.last_time().is_none()
        && is_answered(supervisor, reading(10, 0, 0), at_10)
        && refuses_time(supervisor, reading(9, 900_000, 40_000), 10)
        && refuses_time(supervisor, reading(9, 0, 0), 10)
        && supervisor.last_time() == Some(10)
        && is_answered(supervisor, reading(10, 0, 0), at_10)
        && is_answered(supervisor, reading(11, 0, 0), at_11)
        && refuses_time(supervisor, reading(10, 0, 0), 11)
}

/// What is refused of a trip: the SvL, then the track, then the trip.
fn refuses_trips(supervisor: &mut Supervisor) -> bool {
    let before = TripFault::Authority(AuthorityFault::SvlBeforeEoa);
    let beyond = TripFault::Authority(AuthorityFault::BeyondTrack);
    let row = "11,T,W,1,0,0,1,160,800000,800000,760000,720000,540000";
    supervisor.calculated_stop(100_000, 99_999, 100_001) == Err(before)
        && supervisor.calculated_stop(100_000, 200_001, 99_999) == Err(beyond)
        && supervisor.calculated_stop(100_000, 105_000, 99_999) == Err(TripFault::BadTrip)
        && supervisor.calculated_stop(100_000, 105_000, 105_001) == Err(TripFault::BadTrip)
        && is_answered(supervisor, reading(11, 799_990, 20_000), row)
}

#[test]
fn a_time_that_goes_back_and_a_bad_trip_change_nothing(rt: HostRuntime) {
    let kept = match opened(rt.alloc(), plain_parts(rt.alloc()), stop(100_000, 100_000)) {
        Some(mut supervisor) => keeps_its_time(&mut supervisor) && refuses_trips(&mut supervisor),
        None => false,
    };
    assert!(rt; kept);
}

/// The fault of an authority by which an opening over the plain data is refused.
fn opening_fault(alloc: Global, authority: Authority) -> Option<AuthorityFault> {
    let parts = plain_parts(alloc)?;
    match Supervisor::begin(alloc, parts.train, parts.national, parts.track, authority) {
        Err(OpenFault::BadAuthority(fault)) => Some(fault),
        _ => None,
    }
}

#[test]
fn an_opening_names_a_speed_after_the_track(rt: HostRuntime) {
    let alloc = rt.alloc();
    let bad = Some(AuthorityFault::BadSpeed);
    let beyond = Some(AuthorityFault::BeyondTrack);
    assert!(rt; opening_fault(alloc, end(200_001, 501)) == beyond);
    assert!(rt; opening_fault(alloc, end(40_000, 501)) == bad);
    assert!(rt; opening_fault(alloc, limit(200_001, 0)) == beyond);
    assert!(rt; opening_fault(alloc, limit(100_000, 0)) == bad);
    assert!(rt; opening_fault(alloc, limit(200_000, 501)) == bad);
}

// ---- what may be asked for

/// Front ends in mm (est, min, max), a speed in mm/s, and whether such a reading is within the SvL, which is at 1000 m.
/// From 20 m/s it takes 200 m to stop.
const AT_ONCE: [([i32; 3], u32, bool); 6] = [
    ([800_000, 800_000, 800_000], 20_000, true),
    ([800_000, 800_000, 800_001], 20_000, false),
    ([790_000, 780_000, 800_000], 20_000, true),
    ([790_000, 780_000, 800_001], 20_000, false),
    ([1_000_000, 1_000_000, 1_000_000], 0, true),
    ([1_000_000, 1_000_000, 1_000_001], 0, false),
];

/// 40 m more, where the brake takes 2 s.
const AFTER_2_S: [([i32; 3], u32, bool); 2] = [
    ([760_000, 760_000, 760_000], 20_000, true),
    ([760_000, 760_000, 760_001], 20_000, false),
];

/// An LOA has no SvL.
const OF_A_LIMIT: [([i32; 3], u32, bool); 1] = [([0, 0, 0], 0, false)];

/// With a release speed of 40 km/h, whose monitoring begins 61.728 m before the SvL.
const WITH_RELEASE: [([i32; 3], u32, bool); 3] = [
    ([900_000, 900_000, 900_000], 10_000, true),
    ([938_271, 938_271, 938_271], 0, true),
    ([938_272, 938_272, 938_272], 0, false),
];

fn are_within(supervisor: &Supervisor, readings: &[([i32; 3], u32, bool)]) -> bool {
    for &([est, min, max], speed, within) in readings {
        let Some(reading) = Reading::new(0, est, min, max, speed, 0, 0) else {
            return false;
        };
        if supervisor.within_svl(&reading) != within {
            return false;
        }
    }
    true
}

/// Whether readings are within the SvL under an authority as a table says.
fn is_within(
    alloc: Global,
    emergency_time: i64,
    authority: Authority,
    readings: &[([i32; 3], u32, bool)],
) -> bool {
    let train = TrainFields {
        emergency_time,
        ..BASE_TRAIN
    };
    match opened(alloc, parts_of(alloc, train, BASE_NATIONAL), authority) {
        Some(supervisor) => are_within(&supervisor, readings),
        None => false,
    }
}

#[test]
fn a_reading_is_within_the_svl_up_to_its_ebi(rt: HostRuntime) {
    let alloc = rt.alloc();
    let plain_end = stop(100_000, 100_000);
    let with_release = Authority::Stop {
        eoa: 100_000,
        svl: 100_000,
        release: 40,
    };
    assert!(rt; is_within(alloc, 0, plain_end, &AT_ONCE));
    assert!(rt; is_within(alloc, 20, plain_end, &AFTER_2_S));
    assert!(rt; is_within(alloc, 0, limit(100_000, 40), &OF_A_LIMIT));
    assert!(rt; is_within(alloc, 0, with_release, &WITH_RELEASE));
}

/// The traction is cut off after 0.5 s, and the emergency brake works 1.5 s after that.
fn tells_how_it_brakes(supervisor: &Supervisor) -> bool {
    supervisor.safe_map().greatest(0, 200_000) == 200_000_000_000
        && supervisor.times().traction == 5
        && supervisor.times().berem == 15
        && supervisor.inhibits_under_reading()
}

/// Cuts its traction off after 0.5 s, and brakes 2 s after a command.
fn slow_to_brake(alloc: Global) -> Option<TrainAndTrack> {
    let train = TrainFields {
        traction_cutoff_time: 5,
        emergency_time: 20,
        ..BASE_TRAIN
    };
    let national = NationalFields {
        inhibit_under_reading: true,
        ..BASE_NATIONAL
    };
    parts_of(alloc, train, national)
}

#[test]
fn a_supervisor_tells_how_its_emergency_brake_works(rt: HostRuntime) {
    let told = match opened(
        rt.alloc(),
        slow_to_brake(rt.alloc()),
        stop(100_000, 100_000),
    ) {
        Some(supervisor) => tells_how_it_brakes(&supervisor),
        None => false,
    };
    assert!(rt; told);
}

/// The release speed for a trip, where a stop at these places is taken and has it too.
fn release_of(supervisor: &mut Supervisor, eoa: u32, svl: u32, trip: u32) -> Option<u16> {
    match supervisor.calculated_stop(eoa, svl, trip) {
        Ok(()) => {
            let kmh = supervisor.release_for(svl, trip);
            if supervisor.release() == kmh {
                Some(kmh)
            } else {
                None
            }
        }
        Err(_) => None,
    }
}

/// With 2 s until the brake works; from 72 km/h it comes 40 m and 200 m.
fn releases_in_time(supervisor: &mut Supervisor) -> bool {
    release_of(supervisor, 100_000, 105_000, 101_000) == Some(25)
        && release_of(supervisor, 76_000, 100_000, 76_000) == Some(72)
        && release_of(supervisor, 76_000, 100_000, 76_001) == Some(71)
        && release_of(supervisor, 100_000, 105_000, 105_000) == Some(0)
}

#[test]
fn a_release_speed_is_told_for_a_trip(rt: HostRuntime) {
    let told = match opened(
        rt.alloc(),
        slow_to_brake(rt.alloc()),
        stop(100_000, 100_000),
    ) {
        Some(mut supervisor) => releases_in_time(&mut supervisor),
        None => false,
    };
    assert!(rt; told);
}

/// Whether each limit is passed at one more than its speed in km/h and not at it, and the target that counts is this.
fn is_shown(
    supervisor: &Supervisor,
    reading: Option<Reading>,
    speeds: [(LimitName, u16); 3],
    target: Option<Shown>,
) -> bool {
    let Some(reading) = reading else {
        return false;
    };
    for (name, kmh) in speeds {
        if kmh > 499 || supervisor.would_pass(&reading, name, kmh) {
            return false;
        }
        if !supervisor.would_pass(&reading, name, kmh + 1) {
            return false;
        }
    }
    supervisor.shown(&reading) == target
}

/// At 20 m/s and 200.01 m before the EOA 59.4 km/h are permitted, and the brakes come at 72 km/h and a bit; to a train
/// that stands 100 m before it no target is slower.
fn is_as_by_hand(supervisor: &Supervisor) -> bool {
    let end = Shown {
        kind: TargetKind::Eoa,
        speed: 0,
        distance: 200_010,
    };
    let at_20_m_s = [
        (LimitName::Permitted, 59),
        (LimitName::Sbi, 72),
        (LimitName::Ebi, 72),
    ];
    let at_standstill = [
        (LimitName::Permitted, 38),
        (LimitName::Sbi, 50),
        (LimitName::Ebi, 50),
    ];
    is_shown(
        supervisor,
        reading(0, 799_990, 20_000),
        at_20_m_s,
        Some(end),
    ) && is_shown(supervisor, reading(0, 900_000, 0), at_standstill, None)
}

#[test]
fn what_is_shown_is_as_it_was_worked_by_hand(rt: HostRuntime) {
    let shown = match opened(rt.alloc(), plain_parts(rt.alloc()), stop(100_000, 100_000)) {
        Some(supervisor) => is_as_by_hand(&supervisor),
        None => false,
    };
    assert!(rt; shown);
}
