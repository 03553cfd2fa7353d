//! The base of made data: worked rows, tests and the made journeys name what they change of it.

use sdm_rules::{Band, MOST_BANDS, NationalFields, TrainFields};

/// A band whose brakes all give 1 m/s² on any rail.
pub const BASE_BAND: Band = Band {
    upper: None,
    emergency: 100,
    service: 100,
    normal: 100,
    kdry: 1000,
    kwet: 1000,
    kn_up: 0,
    kn_down: 0,
    emergency_reduced: None,
};

/// A train of 100 m with one band, which brakes at once, for 160 km/h.
pub const BASE_TRAIN: TrainFields = TrainFields {
    length: 10_000,
    max_speed: 160,
    rotating_mass: Some(0),
    traction_cutoff_time: 0,
    traction_cutoff_interface: false,
    emergency_time: 0,
    service_time: 0,
    service_brake: true,
    bands: [BASE_BAND; MOST_BANDS],
    band_count: 1,
};

/// National values that permit the service brake alone.
pub const BASE_NATIONAL: NationalFields = NationalFields {
    avadh: 20,
    adhesion_max: 70,
    guidance: false,
    service_in_target: true,
    early_release: false,
    inhibit_under_reading: false,
};
