//! What a train keeps, and a rule of each kind that it may break. The ranges and the order of all rules are runs of the
//! built program, in worked/journeys/ranges.txt.

use sdm_formats::{BASE_BAND, BASE_TRAIN};
use sdm_train::{Band, Train, TrainFields};
use std::alloc::{AllocError, Global};

#[test]
fn each_reader_answers_its_own_field(rt: HostRuntime) {
    let low = Band {
        upper: Some(100),
        emergency: 120,
        ..BASE_BAND
    };
    let mut fields = TrainFields {
        length: 20_000,
        rotating_mass: None,
        traction_cutoff_time: 20,
        traction_cutoff_interface: true,
        emergency_time: 30,
        service_time: 40,
        service_brake: false,
        band_count: 2,
        ..BASE_TRAIN
    };
    fields.bands[0] = low;
    let (Ok(one), Ok(two)) = (Train::new(BASE_TRAIN), Train::new(fields)) else {
        assert!(rt; false);
        return;
    };
    assert!(rt; one.length() == 10_000 && two.length() == 20_000);
    assert!(rt; two.max_speed() == 160);
    assert!(rt; one.rotating_mass() == Some(0) && two.rotating_mass().is_none());
    assert!(rt; two.traction_cutoff_time() == 20);
    assert!(rt; !one.traction_cutoff_interface() && two.traction_cutoff_interface());
    assert!(rt; two.emergency_time() == 30 && two.service_time() == 40);
    assert!(rt; one.service_brake() && !two.service_brake());
    assert!(rt; one.band_count() == 1 && *one.band(0) == BASE_BAND);
    assert!(rt; two.band_count() == 2 && *two.band(0) == low && *two.band(1) == BASE_BAND);
}

/// What comes of the fields, as text.
fn outcome(alloc: Global, fields: TrainFields) -> Result<String, AllocError> {
    match Train::new(fields) {
        Ok(_) => String::from_str(alloc, "accepted"),
        Err(fault) => format!(in alloc; "{fault}"),
    }
}

#[test]
fn the_first_rule_that_is_broken_is_named(rt: HostRuntime) -> Result<(), &'static str> {
    let none = TrainFields {
        length: 0,
        max_speed: 0,
        ..BASE_TRAIN
    };
    let mut dry = BASE_TRAIN;
    dry.bands[0].kdry = 0;
    // what no input holds: a number in a band past the count of bands
    let mut no_band = dry;
    no_band.band_count = 0;
    let two = TrainFields {
        band_count: 2,
        ..BASE_TRAIN
    };
    for (fields, want) in [
        (BASE_TRAIN, "accepted"),
        (none, "value of key 1 in band 0"),
        (dry, "value of key 5 in band 1"),
        (no_band, "band count"),
        (two, "order of band 1"),
    ] {
        let Ok(found) = outcome(rt.alloc(), fields) else {
            return Err("no memory");
        };
        assert!(rt; found.as_str() == want, "{found}");
    }
    Ok(())
}
