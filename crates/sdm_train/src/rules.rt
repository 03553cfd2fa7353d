//! The rules of a train, in their order: its own numbers, the count of its bands, and the rules of the bands.

ghost use Rattle.std.specs.Prelude.{◌≡◌, ◌==◌, ◌%◌, ◌&&◌, pos, unsigned_abs};
ghost use Rattle.std.specs.Result.{result_err};
ghost use Rattle.sdm_rules.specs.Data.{train_of};
ghost use Rattle.sdm_rules.specs.Ranges.{band_count_fault, is_within, train_fault, train_refused};

use crate::bands::{check_order, check_values};
use sdm_rules::keys::{
    TRAIN_EMERGENCY_TIME, TRAIN_LENGTH, TRAIN_MAX_SPEED, TRAIN_ROTATING_MASS, TRAIN_SERVICE_TIME,
    TRAIN_TRACTION_CUTOFF_TIME,
};
use sdm_rules::{
    LONGEST_TRAIN_CM, MOST_BANDS, TOP_KMH, TrainFault, TrainFields, first_refused, is_within,
    outside, outside_if_any, refused,
};

/// Refuses the first rule that the train breaks.
#[tactic(auto, unfolding(sdm_rules::specs::Ranges::train_fault))]
pub fn check_train(fields: &TrainFields) -> Result<(), TrainFault>
    ensures { result_err result ≡ train_fault fields.now.band_count (train_of fields.now) }
{
    if let Some(key) = train_refused(fields) {
        return Err(TrainFault::Value { band: 0, key });
    }
    check_count(fields.band_count)?;
    let bands = &fields.bands[..fields.band_count as usize];
    check_values(bands)?;
    check_order(bands)
}

/// The key of the first of the train's own numbers that is refused.
fn train_refused(fields: &TrainFields) -> Option<u8>
    ensures { result ≡ train_refused (train_of fields.now) }
{
    first_refused(&[
        outside(TRAIN_LENGTH, fields.length, 1, i64::from(LONGEST_TRAIN_CM)),
        outside(TRAIN_MAX_SPEED, fields.max_speed, 1, i64::from(TOP_KMH)),
        outside_if_any(TRAIN_ROTATING_MASS, fields.rotating_mass, 0, 50),
        outside(
            TRAIN_TRACTION_CUTOFF_TIME,
            fields.traction_cutoff_time,
            0,
            300,
        ),
        outside(TRAIN_EMERGENCY_TIME, fields.emergency_time, 0, 300),
        refused(TRAIN_SERVICE_TIME, is_service_time(fields.service_time)),
    ])
}

/// The service brake's build-up time is given in steps of half a second.
fn is_service_time(time: i64) -> bool
    ensures { result ≡ is_within (pos 0) (pos 300) time && ((unsigned_abs time % 5) == 0) }
{
    is_within(0, 300, time) && time.unsigned_abs() % 5 == 0
}

/// Refuses a count of no bands, and of too many.
fn check_count(count: u32) -> Result<(), TrainFault>
    ensures { result_err result ≡ band_count_fault count }
{
    if 0 < count && count as usize <= MOST_BANDS {
        Ok(())
    } else {
        Err(TrainFault::BandCount)
    }
}
