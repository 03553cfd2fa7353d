//! The train that supervision works with: no rule of its data is broken.

ghost use Rattle.std.specs.Prelude.{◌≡◌, ◌≤ℤ◌, ◌<◌, ◌%◌, All, IfOk, IfSome, length, pos, slice_get, unsigned_abs};
ghost use Rattle.std.specs.Result.{result_err};
ghost use Rattle.sdm_rules.specs.Data.{train_of};
ghost use Rattle.sdm_rules.specs.Ranges.{train_fault, longest_train, top_kmh};
ghost use Rattle.sdm_train.specs.Trains.{IsBand, IsTrain};

use crate::rules::check_train;
use sdm_rules::{Band, TrainFault, TrainFields};
use std::marker::Model;

/// A train, each number within its range and its bands in order. (SUBSET-026-3 3.13.2.2; ranges own)
#[derive(Debug, Drop)]
pub struct Train {
    fields: TrainFields,
}

impl Model for Train {
    ghost use Rattle.std.specs.Prelude.{◌≡◌, length};
    ghost use Rattle.sdm_rules.specs.Data.{TrainData, train_of};

    ghost Value = { TrainData };

    ghost use Rattle.sdm_train.specs.Trains.{IsTrain};

    ghost view = { λ t. train_of t.fields };

    ghost invariant = { λ t. IsTrain (train_of t.fields) × (length (train_of t.fields).bands ≡ t.fields.band_count) };
}

impl Train {
    /// The train of these fields, of whose bands the first `band_count` count. The first rule that is broken is named,
    /// in this order: Value of the train's own numbers, by key; BandCount exactly where there are no bands or more
    /// than MOST_BANDS; Value of the bands' numbers, band by band; BandOrder where a band but the last has no upper
    /// speed or one that isn't above that of the band before, or the last has one. (own)
    pub fn new(fields: TrainFields) -> Result<Train, TrainFault>
        ensures fault { result_err result ≡ train_fault fields.band_count (train_of fields) }
        ensures kept { IfOk result (λ train. train ≡ train_of fields) }
    {
        check_train(&fields)?;
        Ok(Train { fields })
    }

    /// The train length in cm, 1 to 150,000.
    pub fn length(&self) -> i64
        ensures value { result ≡ self.now.length_cm }
        ensures range { (pos 1 ≤ℤ result) × (result ≤ℤ pos longest_train) }
    {
        self.fields.length
    }

    /// The maximum train speed in km/h, 1 to 500.
    pub fn max_speed(&self) -> i64
        ensures value { result ≡ self.now.max_speed }
        ensures range { (pos 1 ≤ℤ result) × (result ≤ℤ pos top_kmh) }
    {
        self.fields.max_speed
    }

    /// The nominal rotating mass in percent, 0 to 50, where it is known.
    pub fn rotating_mass(&self) -> Option<i64>
        ensures value { result ≡ self.now.rotating_mass }
        ensures range { IfSome result (λ percent. (pos 0 ≤ℤ percent) × (percent ≤ℤ pos 50)) }
    {
        self.fields.rotating_mass
    }

    /// The time of the traction cut-off in ds, 0 to 300.
    pub fn traction_cutoff_time(&self) -> i64
        ensures value { result ≡ self.now.cut_off_time }
        ensures range { (pos 0 ≤ℤ result) × (result ≤ℤ pos 300) }
    {
        self.fields.traction_cutoff_time
    }

    /// Whether the onboard equipment can cut the traction off.
    pub fn traction_cutoff_interface(&self) -> bool
        ensures { result ≡ self.now.cut_off_interface }
    {
        self.fields.traction_cutoff_interface
    }

    /// How long the emergency brake takes until it works in full, in ds, 0 to 300.
    pub fn emergency_time(&self) -> i64
        ensures value { result ≡ self.now.emergency_time }
        ensures range { (pos 0 ≤ℤ result) × (result ≤ℤ pos 300) }
    {
        self.fields.emergency_time
    }

    /// The service brake build-up time in ds, 0 to 300 in steps of 5.
    pub fn service_time(&self) -> i64
        ensures value { result ≡ self.now.service_time }
        ensures range { (pos 0 ≤ℤ result) × (result ≤ℤ pos 300) }
        ensures half_seconds { unsigned_abs result % 5 ≡ 0 }
    {
        self.fields.service_time
    }

    /// Whether the onboard equipment can command the service brake.
    pub fn service_brake(&self) -> bool
        ensures { result ≡ self.now.service_brake }
    {
        self.fields.service_brake
    }

    /// How many speed bands there are, 1 to MOST_BANDS. The clause `accepted` says what holds of the whole train.
    pub fn band_count(&self) -> u32
        ensures value { result ≡ length self.now.bands }
        ensures accepted { IsTrain self.now }
    {
        self.fields.band_count
    }

    /// A speed band; they count from 0.
    pub fn band(&self, i: usize) -> &Band
        requires { i < length self.now.bands }
        ensures value { slice_get self.now.bands i ≡ Some result.now }
        ensures range { IsBand result.now }
    {
        &self.bands()[i]
    }

    /// The speed bands: 1 to MOST_BANDS.
    pub fn bands(&self) -> &[Band]
        ensures value { result.now ≡ self.now.bands }
        ensures ranges { All IsBand result.now }
    {
        &self.fields.bands[..self.fields.band_count as usize]
    }
}
