//! Whether slices and points are a motion. Ranges are tested first, so that no product overflows.

ghost use Rattle.std.specs.Prelude.{◌≡◌, ◌↔◌, ◌*◌, ◌^◌, ◌≤◌, ◌*ℤ◌, ◌≤ℤ◌, pos, neg_ℤ, IsTrue, All};
ghost use Rattle.sdm_num.specs.Units.{IsPlace};
ghost use Rattle.sdm_rules.specs.Slopes.{meaning_of};
ghost use Rattle.sdm_motion.specs.Motions.{first_of, IsPointInRange, IsKnownMotion};

use crate::slices::{is_reaction, length_of, speed_after};
use crate::steps::{are_braking, distance_to};
use sdm_curve::BandMap;
use sdm_rules::{Point, Slice, Start};

/// The greatest distance of a point from 0, in 1/s² grains. (own)
const FAR: i128 = 1_000_000_000_000_000_000_000;

/// The greatest square of a point, in 1/s² squared notches. (own)
const FAST: u128 = 100_000_000_000_000_000;

/// Whether a point is in its ranges.
fn is_in_range(point: &Point) -> bool
    ensures { IsTrue result ↔ IsPointInRange point.now }
{
    if point.place < -FAR {
        return false;
    }
    if FAR < point.place {
        return false;
    }
    point.square <= FAST
}

/// Whether all points are in their ranges.
fn are_in_range(points: &[Point]) -> bool
    ensures { IsTrue result ↔ All IsPointInRange points.now }
{
    for x in points {
        if !is_in_range(x) {
            return false;
        }
    }
    true
}

/// The place where a motion begins.
fn beginning(m: u32, start: &Start) -> i128
    ensures value { result ≡ pos m *ℤ start.now.front }
    ensures front { IsPlace start.now.front }
{
    i128::from(m) * i128::from(start.front.grains())
}

/// Whether the point is where slices from a place and a speed on end, with the square of their last speed.
fn is_first(point: &Point, slices: &[Slice], from: i128, speed: u64) -> bool
    requires low { neg_ℤ (pos (2 * 10 ^ 21)) ≤ℤ from }
    requires range { IsPointInRange point.now }
    ensures { IsTrue result ↔ (point.now ≡ first_of from speed slices.now) }
{
    if point.place < from {
        return false;
    }
    if distance_to(point, from) != length_of(slices) {
        return false;
    }
    let last = u128::from(speed_after(speed, slices));
    point.square == last * last
}

/// Whether the slices and points are a motion that begins at the front and with the speed of the start, on the slopes
/// of the map, with every place within ±10²¹ and every square at most 10¹⁷. For a scale `s` from 1 to 16, times are in
/// 1/s ds, speeds in 1/s notch, places, lengths and squares in 1/s² of a grain and of a squared notch. (own)
pub fn is_motion(
    scale: u32,
    slices: &[Slice],
    points: &[Point],
    start: &Start,
    map: &BandMap,
) -> bool
    requires some { 1 ≤ scale }
    requires few { scale ≤ 16 }
    ensures { IsTrue result ↔ IsKnownMotion (meaning_of map.now) start.now scale slices.now points.now }
{
    if !are_in_range(points) {
        return false;
    }
    let Some(first) = points.first() else {
        return false;
    };
    let speed = u64::from(scale) * u64::from(start.speed.notches());
    if !is_reaction(scale, slices, start, speed) {
        return false;
    }
    let m = scale * scale;
    if !is_first(first, slices, beginning(m, start), speed) {
        return false;
    }
    are_braking(m, map, points)
}
