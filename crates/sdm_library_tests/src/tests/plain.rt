//! Plain data: a train of 100 m that brakes with 1 m/s² at once, on 2 km of level track at 160 km/h.

use sdm_braking::TrainAndTrack;
use sdm_formats::{BASE_NATIONAL, BASE_TRAIN};
use sdm_national::National;
use sdm_rules::{Authority, NationalFields, TrainFields};
use sdm_supervisor::Supervisor;
use sdm_track::{SpeedStep, Track};
use sdm_train::Train;
use std::alloc::Global;

/// The plain data with another train and other national values, where these are in their ranges.
pub fn parts_of(
    alloc: Global,
    train: TrainFields,
    national: NationalFields,
) -> Option<TrainAndTrack> {
    let speed = SpeedStep {
        start: 0,
        speed: 160,
        delayed: true,
    };
    let speeds = Vec::from_slice(alloc, &[speed]).ok()?;
    let empty = Vec::new(alloc);
    let track = Track::new(200_000, empty, speeds, Vec::new(alloc), Vec::new(alloc));
    match (Train::new(train), National::new(national), track) {
        (Ok(train), Ok(national), Ok(track)) => Some(TrainAndTrack {
            train,
            national,
            track,
        }),
        _ => None,
    }
}

/// The parts of the plain data.
pub fn plain_parts(alloc: Global) -> Option<TrainAndTrack> {
    parts_of(alloc, BASE_TRAIN, BASE_NATIONAL)
}

/// A stop without a release speed, with its EOA and its SvL in cm.
pub fn stop(eoa: u32, svl: u32) -> Authority {
    Authority::Stop {
        eoa,
        svl,
        release: 0,
    }
}

/// The supervisor of parts under an authority.
pub fn opened(
    alloc: Global,
    parts: Option<TrainAndTrack>,
    authority: Authority,
) -> Option<Supervisor> {
    let parts = parts?;
    Supervisor::begin(alloc, parts.train, parts.national, parts.track, authority).ok()
}
