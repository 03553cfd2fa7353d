//! Which number of a struct is out of its range: `enum sdm_field`, in the order of the structs.

ghost use Rattle.std.specs.Prelude.{◌≡◌, pos, negsuc};
ghost use Rattle.sdm_rules.specs.Ranges.{is_within};
ghost use Rattle.sdm_c.specs.Fields.{allowance_field, front_end_field, motion_field, reading_field, restriction_field};

use crate::structs::{AllowanceC, ReadingC, RestrictionC};
use sdm_rules::{TOP_KMH, is_within};

/// No number is out of its range.
pub const NO_FIELD: u32 = 0;

/// The time.
pub const READING_TIME_DS: u32 = 1;

/// The estimated front end.
pub const READING_EST_MM: u32 = 2;

/// The min safe front end.
pub const READING_MIN_MM: u32 = 3;

/// The max safe front end.
pub const READING_MAX_MM: u32 = 4;

/// V_est.
pub const READING_SPEED_MM_S: u32 = 5;

/// A_est.
pub const READING_ACCEL_CM_S2: u32 = 6;

/// The under-reading amount.
pub const READING_UNDER_MM_S: u32 = 7;

/// The identity.
pub const RESTRICTION_ID: u32 = 8;

/// The speed.
pub const RESTRICTION_SPEED_KMH: u32 = 9;

/// The flag of a delayed end.
pub const RESTRICTION_IS_DELAYED: u32 = 10;

/// How far a train may be past its estimated front end.
pub const ALLOWANCE_FRONT_MM: u32 = 11;

/// How much faster it may be than V_est.
pub const ALLOWANCE_SPEED_MM_S: u32 = 12;

/// What it may gain.
pub const ALLOWANCE_ACCEL_CM_S2: u32 = 13;

/// The estimated front end is in its range, from 10 km before the track's start to 110 km past it. (own)
fn is_est(r: ReadingC) -> bool
    ensures { result ≡ is_within (negsuc 9_999_999) (pos 110_000_000) r.est_mm }
{
    is_within(-10_000_000, 110_000_000, i64::from(r.est_mm))
}

/// The min safe front end is in its range, up to the estimated one. (own)
fn is_min(r: ReadingC) -> bool
    ensures { result ≡ is_within (negsuc 9_999_999) r.est_mm r.min_mm }
{
    is_within(-10_000_000, i64::from(r.est_mm), i64::from(r.min_mm))
}

/// The max safe front end is in its range, from the estimated one on. (own)
fn is_max(r: ReadingC) -> bool
    ensures { result ≡ is_within r.est_mm (pos 110_000_000) r.max_mm }
{
    is_within(i64::from(r.est_mm), 110_000_000, i64::from(r.max_mm))
}

/// The first front end of a reading that is out of its range. (own)
fn of_front_ends(r: ReadingC) -> u32
    ensures { result ≡ front_end_field r }
{
    if !is_est(r) {
        return READING_EST_MM;
    }
    if !is_min(r) {
        return READING_MIN_MM;
    }
    if !is_max(r) {
        return READING_MAX_MM;
    }
    NO_FIELD
}

/// The first of its speed, its acceleration and its under-reading amount that is. (own)
fn of_motion(r: ReadingC) -> u32
    ensures { result ≡ motion_field r }
{
    if r.speed_mm_s > 138_888 {
        return READING_SPEED_MM_S;
    }
    if !is_within(-300, 300, i64::from(r.accel_cm_s2)) {
        return READING_ACCEL_CM_S2;
    }
    if r.under_mm_s > 10_000 {
        return READING_UNDER_MM_S;
    }
    NO_FIELD
}

/// The first number of a reading that is out of its range. (own)
pub fn of_reading(r: ReadingC) -> u32
    ensures { result ≡ reading_field r }
{
    if r.time_ds > 100_000_000 {
        return READING_TIME_DS;
    }
    let front_end = of_front_ends(r);
    if front_end != NO_FIELD {
        return front_end;
    }
    of_motion(r)
}

/// The first of a restriction's identity, speed and flag that is out of its range. (own)
pub fn of_restriction(r: RestrictionC) -> u32
    ensures { result ≡ restriction_field r }
{
    if r.id > 65_535 {
        return RESTRICTION_ID;
    }
    if r.speed_kmh < 1 || r.speed_kmh > TOP_KMH {
        return RESTRICTION_SPEED_KMH;
    }
    if r.is_delayed > 1 {
        return RESTRICTION_IS_DELAYED;
    }
    NO_FIELD
}

/// The first number of an allowance that is out of its range. (own)
pub fn of_allowance(a: AllowanceC) -> u32
    ensures { result ≡ allowance_field a }
{
    if a.front_mm > 10_000_000 {
        return ALLOWANCE_FRONT_MM;
    }
    if a.speed_mm_s > 10_000 {
        return ALLOWANCE_SPEED_MM_S;
    }
    if a.accel_cm_s2 > 300 {
        return ALLOWANCE_ACCEL_CM_S2;
    }
    NO_FIELD
}
