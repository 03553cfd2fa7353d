//! The rules of a train's speed bands: each number in its range, and upper speeds that rise from band to band, with
//! none for the last.

ghost use Rattle.std.specs.Prelude.{◌≡◌, ◌≤◌, length, pos};
ghost use Rattle.std.specs.Result.{result_err};
ghost use Rattle.sdm_rules.specs.Slopes.{most_bands};
ghost use Rattle.sdm_rules.specs.Ranges.{band_order_fault, band_refused, band_value_fault, order_of_last};

use sdm_rules::{Band, TOP_KMH, TrainFault, first_refused, keys, outside, outside_if_any};

/// Refuses the first number of the bands that is out of its range.
pub fn check_values(bands: &[Band]) -> Result<(), TrainFault>
    requires { length bands.now ≤ most_bands }
    ensures { result_err result ≡ band_value_fault 1 bands.now }
{
    let mut index = 1;
    for band in bands {
        if let Some(key) = band_refused(band) {
            return Err(TrainFault::Value { band: index, key });
        }
        index += 1;
    }
    Ok(())
}

/// The key of the first number of a band that is refused.
fn band_refused(band: &Band) -> Option<u8>
    ensures { result ≡ band_refused band.now }
{
    first_refused(&[
        outside_if_any(keys::BAND_UPPER, band.upper, 1, i64::from(TOP_KMH)),
        outside(keys::BAND_EMERGENCY, band.emergency, 1, 400),
        outside(keys::BAND_SERVICE, band.service, 1, 400),
        outside(keys::BAND_NORMAL, band.normal, 1, 400),
        outside(keys::BAND_KDRY, band.kdry, 1, 1000),
        outside(keys::BAND_KWET, band.kwet, 1, 1000),
        outside(keys::BAND_KN_UP, band.kn_up, 0, 1000),
        outside(keys::BAND_KN_DOWN, band.kn_down, 0, 1000),
        outside_if_any(
            keys::BAND_EMERGENCY_REDUCED,
            band.emergency_reduced,
            1,
            band.emergency,
        ),
    ])
}

/// Refuses the first band that is out of order.
pub fn check_order(bands: &[Band]) -> Result<(), TrainFault>
    requires { length bands.now ≤ most_bands }
    ensures { result_err result ≡ band_order_fault 1 (pos 0) bands.now }
{
    let mut above = 0;
    let mut index = 1;
    for band in bands {
        if index as usize == bands.len() {
            return check_last(index, band.upper);
        }
        let Some(upper) = band.upper else {
            return Err(TrainFault::BandOrder { band: index });
        };
        if upper <= above {
            return Err(TrainFault::BandOrder { band: index });
        }
        above = upper;
        index += 1;
    }
    Ok(())
}

/// Refuses an upper speed of the last band, which has this index.
fn check_last(index: u32, upper: Option<i64>) -> Result<(), TrainFault>
    ensures { result_err result ≡ order_of_last index upper }
{
    match upper {
        None => Ok(()),
        Some(_) => Err(TrainFault::BandOrder { band: index }),
    }
}
