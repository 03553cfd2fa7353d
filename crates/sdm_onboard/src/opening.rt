//! The data of the journey, and the supervisor that is opened over them. A train that brakes with 1 m/s² on a level
//! track of 3 km; the times are those that docs/INTEGRATION.md derives for readings every 0.5 s.

ghost use Rattle.std.specs.Prelude.{◌≡◌, IfOk};
ghost use Rattle.std.specs.FinMap as finite;

use sdm_national::National;
use sdm_rules::{
    Authority, Band, MOST_BANDS, NationalFault, NationalFields, OpenFault, SpeedStep, TrackFault,
    TrainFault, TrainFields,
};
use sdm_supervisor::Supervisor;
use sdm_track::Track;
use sdm_train::Train;
use std::alloc::Global;
use thiserror::Error;

/// Why there is no supervisor.
#[derive(Clone, Copy, Debug, Error)]
pub enum OpeningFault {
    #[error("train data: {0}")]
    Train(TrainFault),
    #[error("national values: {0}")]
    National(NationalFault),
    #[error("track data: {0}")]
    Track(TrackFault),
    #[error("opening: {0}")]
    Open(OpenFault),
    #[error("no memory")]
    Memory,
}

/// The authority of the opening: to 2000 m, with the supervised location 50 m behind.
const FIRST_AUTHORITY: Authority = Authority::Stop {
    eoa: 200_000,
    svl: 205_000,
    release: 0,
};

const BAND: Band = Band {
    upper: None,
    emergency: 100,
    service: 100,
    normal: 100,
    kdry: 1000,
    kwet: 1000,
    kn_up: 0,
    kn_down: 0,
    emergency_reduced: None,
};

const TRAIN: TrainFields = TrainFields {
    length: 10_000,
    max_speed: 160,
    rotating_mass: Some(0),
    traction_cutoff_time: 17,
    traction_cutoff_interface: false,
    emergency_time: 32,
    service_time: 40,
    service_brake: true,
    bands: [BAND; MOST_BANDS],
    band_count: 1,
};

const NATIONAL: NationalFields = NationalFields {
    avadh: 20,
    adhesion_max: 70,
    guidance: false,
    service_in_target: true,
    early_release: false,
    inhibit_under_reading: false,
};

/// 3 km in cm.
const TRACK_CM: u32 = 300_000;

/// 160 km/h all along.
const SPEED: SpeedStep = SpeedStep {
    start: 0,
    speed: 160,
    delayed: true,
};

/// The supervisor over the data, or the first thing that is refused.
pub fn open(alloc: Global) -> Result<Supervisor, OpeningFault>
    ensures { IfOk result (λ supervisor. supervisor.restrictions ≡ finite.empty) }
{
    let train = Train::new(TRAIN).map_err(OpeningFault::Train)?;
    let national = National::new(NATIONAL).map_err(OpeningFault::National)?;
    let track = level_track(alloc)?;
    Supervisor::begin(alloc, train, national, track, FIRST_AUTHORITY).map_err(OpeningFault::Open)
}

/// Without gradients and without areas.
fn level_track(alloc: Global) -> Result<Track, OpeningFault> {
    let mut speeds = Vec::new(alloc);
    speeds.push(SPEED).map_err(|_| OpeningFault::Memory)?;
    let track = Track::new(
        TRACK_CM,
        Vec::new(alloc),
        speeds,
        Vec::new(alloc),
        Vec::new(alloc),
    );
    track.map_err(OpeningFault::Track)
}
