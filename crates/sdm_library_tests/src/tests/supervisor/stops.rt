//! Where the service brake stops a train, and whether a release speed has a trip place: worked by hand in m and m/s.

use crate::tests::plain::{opened, parts_of, plain_parts, stop};
use sdm_braking::TrainAndTrack;
use sdm_formats::{BASE_NATIONAL, BASE_TRAIN};
use sdm_num::Reading;
use sdm_rules::{Authority, TrainFields};
use sdm_supervisor::{Allowance, Supervisor};
use std::alloc::Global;

/// The plain train, whose service brake works 1 s late.
fn late_service(alloc: Global) -> Option<TrainAndTrack> {
    let train = TrainFields {
        service_time: 10,
        ..BASE_TRAIN
    };
    parts_of(alloc, train, BASE_NATIONAL)
}

/// Whether a train that is estimated at 800 m with a speed in mm/s, whatever the rest of its reading, stops by a place
/// in mm, by an allowance of so many mm, mm/s and cm/s².
fn stops_by(
    supervisor: &Supervisor,
    speed: u32,
    allowance: Option<Allowance>,
    place: Option<u32>,
) -> bool {
    let reading = Reading::new(0, 800_000, 799_000, 801_000, speed, 300, 10_000);
    match (reading, allowance) {
        (Some(reading), Some(allowance)) => supervisor.clear_of(&reading, allowance) == place,
        _ => false,
    }
}

/// From 20 m/s it runs 20 m in 1 s and then 200 m; from 21 m/s 21 m and 220.5 m; where it gains 1 m/s² in that second
/// 20.5 m and 220.5 m. From 60 m/s the 2 km of the track are too short. Rounding puts no place off by a millimetre.
fn stops_as_by_hand(supervisor: &Supervisor) -> bool {
    stops_by(supervisor, 20_000, Allowance::new(0, 0, 0), Some(1_020_000))
        && stops_by(
            supervisor,
            20_000,
            Allowance::new(1_000, 0, 0),
            Some(1_021_000),
        )
        && stops_by(
            supervisor,
            20_000,
            Allowance::new(0, 1_000, 0),
            Some(1_041_500),
        )
        && stops_by(
            supervisor,
            20_000,
            Allowance::new(0, 0, 100),
            Some(1_041_000),
        )
        && stops_by(supervisor, 60_000, Allowance::new(0, 0, 0), None)
        && stops_by(supervisor, 0, Allowance::new(0, 0, 0), Some(800_000))
}

#[test]
fn the_first_clear_place_is_as_it_was_worked_by_hand(rt: HostRuntime) {
    let told = match opened(rt.alloc(), late_service(rt.alloc()), stop(100_000, 100_000)) {
        Some(supervisor) => stops_as_by_hand(&supervisor),
        None => false,
    };
    assert!(rt; told);
}

#[test]
fn an_allowance_has_its_ranges(rt: HostRuntime) {
    assert!(rt; Allowance::new(10_000_000, 10_000, 300).is_some());
    assert!(rt; Allowance::new(10_000_001, 0, 0).is_none());
    assert!(rt; Allowance::new(0, 10_001, 0).is_none());
    assert!(rt; Allowance::new(0, 0, 301).is_none());
}

/// Whether an end at 1000 m, with the SvL 2 m past it and a release speed in km/h, has a trip place for readings that are
/// so many cm wide, and a train that gets so many mm/s faster.
fn has_place(supervisor: &mut Supervisor, release: u16, width: u32, excess: u32) -> bool {
    let authority = Authority::Stop {
        eoa: 100_000,
        svl: 100_200,
        release,
    };
    supervisor.authority(authority).is_ok() && supervisor.has_trip_place(width, excess)
}

/// 2 m before the SvL a train stops from 2 m/s, which are 7.2 km/h, 1.90 m before it from 7.02 and 1.89 m before it from
/// 6.9994 km/h. Of 1 km/h 277 mm/s are left at 6 km/h, and 278 are too many.
fn has_places_as_by_hand(supervisor: &mut Supervisor) -> bool {
    has_place(supervisor, 7, 0, 0)
        && !has_place(supervisor, 8, 0, 0)
        && has_place(supervisor, 7, 10, 0)
        && !has_place(supervisor, 7, 11, 0)
        && has_place(supervisor, 6, 0, 277)
        && !has_place(supervisor, 6, 0, 278)
        && has_place(supervisor, 0, 200, 0)
        && !has_place(supervisor, 0, 201, 0)
        && !has_place(supervisor, 0, 0, 4_294_967_295)
        && !has_place(supervisor, 0, 4_294_967_295, 0)
}

/// A limit of authority has no trip place.
fn limit_has_none(supervisor: &mut Supervisor) -> bool {
    let limit = Authority::Limit {
        loa: 100_000,
        speed: 10,
    };
    supervisor.authority(limit).is_ok() && !supervisor.has_trip_place(0, 0)
}

#[test]
fn a_trip_place_is_there_where_it_was_worked_by_hand(rt: HostRuntime) {
    let told = match opened(rt.alloc(), plain_parts(rt.alloc()), stop(100_000, 100_000)) {
        Some(mut supervisor) => {
            has_places_as_by_hand(&mut supervisor) && limit_has_none(&mut supervisor)
        }
        None => false,
    };
    assert!(rt; told);
}

/// The plain train, whose traction is cut off later than its emergency brake works.
fn late_cut_off(alloc: Global) -> Option<TrainAndTrack> {
    let train = TrainFields {
        traction_cutoff_time: 1,
        ..BASE_TRAIN
    };
    parts_of(alloc, train, BASE_NATIONAL)
}

#[test]
fn no_trip_place_is_there_where_the_traction_is_cut_off_late(rt: HostRuntime) {
    let told = match opened(rt.alloc(), late_cut_off(rt.alloc()), stop(100_000, 100_000)) {
        Some(mut supervisor) => !has_place(&mut supervisor, 0, 0, 0),
        None => false,
    };
    assert!(rt; told);
}
