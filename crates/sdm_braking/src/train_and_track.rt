//! A train on its track: what is handed over when a journey is opened, and kept while it runs.

use sdm_national::National;
use sdm_track::Track;
use sdm_train::Train;
use std::marker::Model;

/// The train, the national values and the track of a journey. (SUBSET-026-3 3.13.2)
#[derive(Drop)]
pub struct TrainAndTrack {
    pub train: Train,
    pub national: National,
    pub track: Track,
}

impl Model for TrainAndTrack {
    ghost use Rattle.sdm_rules.specs.Data.{TrainAndTrack};

    ghost Value = { TrainAndTrack };

    ghost view = { λ t. record { train = t.train; national = t.national; track = t.track } };
}
