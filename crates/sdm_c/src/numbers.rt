//! C's numbers, which may be out of every range, as what the supervisor takes.

ghost use Rattle.std.specs.Prelude.{◌≡◌, IsTrue};
ghost use Rattle.std.specs.Option.{SomeIff};
ghost use Rattle.sdm_num.specs.Readings.{IsReading};
ghost use Rattle.sdm_c.specs.Numbers.{allowance_from, is_acceleration, is_allowance, is_identity, is_reading};
ghost use Rattle.sdm_c.specs.Numbers.{is_restriction, kmh_taken, reading_from, restriction_from};

use crate::structs::{AllowanceC, ReadingC, RestrictionC};
use sdm_num::Reading;
use sdm_rules::{Restriction, TOP_KMH};
use sdm_supervisor::Allowance;

/// The acceleration of a reading in cm/s²; None exactly where it is out of its range.
fn accel_in(reading: ReadingC) -> Option<i16>
    ensures { SomeIff result (IsTrue (is_acceleration reading.accel_cm_s2)) reading.accel_cm_s2 }
{
    let accel = reading.accel_cm_s2;
    if accel < -300 || accel > 300 {
        return None;
    }
    Some(accel as i16)
}

/// The reading of these numbers with an acceleration in cm/s².
fn reading_with(reading: ReadingC, accel: i16) -> Option<Reading>
    ensures { let given = reading_from (record reading { accel_cm_s2 = accel }) in
        SomeIff result (IsReading given) given }
{
    Reading::new(
        reading.time_ds,
        reading.est_mm,
        reading.min_mm,
        reading.max_mm,
        reading.speed_mm_s,
        accel,
        reading.under_mm_s,
    )
}

/// The reading of these numbers; None exactly where one of them is out of its range. (own)
pub fn reading_from(reading: ReadingC) -> Option<Reading>
    ensures { SomeIff result (IsTrue (is_reading reading)) (reading_from reading) }
{
    let Some(accel) = accel_in(reading) else {
        return None;
    };
    reading_with(reading, accel)
}

/// The allowance of these numbers; None exactly where one of them is out of its range. (own)
pub fn allowance_from(allowance: AllowanceC) -> Option<Allowance>
    ensures { SomeIff result (IsTrue (is_allowance allowance)) (allowance_from allowance) }
{
    if allowance.accel_cm_s2 > 300 {
        return None;
    }
    Allowance::new(
        allowance.front_mm,
        allowance.speed_mm_s,
        allowance.accel_cm_s2 as u16,
    )
}

/// A speed in km/h of an authority. One that is too great for any is taken as the greatest number of 16 bits, which is
/// too great too. (own)
pub fn kmh_taken(speed_kmh: u32) -> u16
    ensures { result ≡ kmh_taken speed_kmh }
{
    if speed_kmh > 65_535 {
        65_535
    } else {
        speed_kmh as u16
    }
}

/// The identity of a restriction; None exactly where it is above 65,535. (own)
pub fn identity_from(id: u32) -> Option<u16>
    ensures { SomeIff result (IsTrue (is_identity id)) id }
{
    if id > 65_535 {
        return None;
    }
    Some(id as u16)
}

/// The restriction of these numbers; None exactly where its identity, its speed or its flag is out of its range. Its
/// places are tested by the supervisor. (own)
pub fn restriction_from(r: RestrictionC) -> Option<Restriction>
    ensures { SomeIff result (IsTrue (is_restriction r)) (restriction_from r) }
{
    let id = identity_from(r.id)?;
    if r.speed_kmh < 1 || r.speed_kmh > TOP_KMH {
        return None;
    }
    if r.is_delayed > 1 {
        return None;
    }
    Some(Restriction {
        id,
        start: r.start_cm,
        end: r.end_cm,
        speed: r.speed_kmh as u16,
        delayed: r.is_delayed == 1,
    })
}
