//! The data of every trial: a train of two speed bands on a track of 6 km, which falls by 5 per mille in its middle,
//! with an EOA at 5 km and the SvL 50 m beyond it.

ghost use Rattle.std.specs.Prelude.{◌≡◌, ◌≤◌, ℕ, None, IfOk, length};
ghost use Rattle.sdm_rules.specs.Opening.{IsAccepted};
ghost use Rattle.sdm_rules.specs.Records.{most_records, rows_of};
ghost use Rattle.sdm_formats.specs.Trial.{trial_authority, trial_journey, trial_train_and_track, trial_national};
ghost use Rattle.sdm_formats.specs.Trial.{trial_track, trial_train};

use sdm_data::JourneyData;
use sdm_formats::{BASE_BAND, BASE_NATIONAL};
use sdm_national::National;
use sdm_num::NoMemory;
use sdm_rules::{Authority, Band, Gradient, MOST_BANDS, NationalFields, SpeedStep, TrainFields};
use sdm_track::Track;
use sdm_train::Train;
use std::alloc::Global;

/// Below 100 km/h.
const LOW_BAND: Band = Band {
    upper: Some(100),
    emergency: 120,
    service: 90,
    normal: 60,
    ..HIGH_BAND
};

/// From 100 km/h on.
const HIGH_BAND: Band = Band {
    service: 80,
    normal: 50,
    kdry: 850,
    kwet: 950,
    ..BASE_BAND
};

const NATIONAL: NationalFields = NationalFields {
    avadh: 0,
    ..BASE_NATIONAL
};

const AUTHORITY: Authority = Authority::Stop {
    eoa: 500_000,
    svl: 505_000,
    release: 0,
};

/// The train: its two bands are the first of the array.
#[tactic(auto, using(crate::proofs::FixedData::train_accepted))]
fn train() -> Train
    ensures { result ≡ trial_train }
{
    let mut bands = [HIGH_BAND; MOST_BANDS];
    bands[0] = LOW_BAND;
    let fields = TrainFields {
        length: 20_000,
        max_speed: 160,
        rotating_mass: None,
        traction_cutoff_time: 20,
        traction_cutoff_interface: true,
        emergency_time: 30,
        service_time: 40,
        service_brake: true,
        bands,
        band_count: 2,
    };
    match Train::new(fields) {
        Ok(train) => train,
        Err(_) => unreachable!(),
    }
}

#[tactic(auto, using(crate::proofs::FixedData::national_accepted))]
fn national() -> National
    ensures { result ≡ trial_national }
{
    match National::new(NATIONAL) {
        Ok(national) => national,
        Err(_) => unreachable!(),
    }
}

#[tactic(auto, using(crate::proofs::FixedData::track_accepted))]
fn track(alloc: Global) -> Result<Track, NoMemory>
    ensures { IfOk result (λ track. track ≡ trial_track) }
{
    let gradients = vec![in alloc;
        Gradient { start: 0, grad: 0 },
        Gradient {
            start: 200_000,
            grad: -50
        },
        Gradient {
            start: 400_000,
            grad: 0
        },
    ]
    .map_err(|_| NoMemory)?;
    let speeds = vec![in alloc;
        SpeedStep {
            start: 0,
            speed: 160,
            delayed: true
        },
    ]
    .map_err(|_| NoMemory)?;
    match Track::new(600_000, gradients, speeds, Vec::new(alloc), Vec::new(alloc)) {
        Ok(track) => Ok(track),
        Err(_) => unreachable!(),
    }
}

/// The data of every trial. (own)
pub fn trial_data(alloc: Global) -> Result<JourneyData, NoMemory>
    ensures data { IfOk result (λ journey. journey.0 ≡ trial_train_and_track) }
    ensures authority { IfOk result (λ journey. journey.1 ≡ trial_authority) }
{
    Ok(JourneyData {
        train: train(),
        national: national(),
        track: track(alloc)?,
        authority: AUTHORITY,
    })
}

/// A trial is never refused: its data open a supervision state, and each reading of at most 100,000 cycles gives a
/// row. (own)
#[tactic(auto, using(crate::proofs::Accepted::accepted, crate::proofs::Cycles::trial_taken))]
pub fn law_of_trial()
    ensures accepted { IsAccepted trial_train_and_track trial_authority }
    ensures taken { (seed cycles : ℕ) → cycles ≤ most_records → (trial_journey seed cycles).refused ≡ None }
    ensures rows { (seed cycles : ℕ) → cycles ≤ most_records
        → length (rows_of (trial_journey seed cycles).turns) ≡ cycles }
{}
