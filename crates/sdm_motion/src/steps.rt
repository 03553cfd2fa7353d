//! Steps of a braking train, from point to point.

ghost use Rattle.std.specs.Prelude.{◌≡◌, ◌↔◌, ◌+◌, ◌*◌, ◌^◌, ◌<◌, ◌≤◌, ◌+ℤ◌, ◌≤ℤ◌, pos, neg_ℤ, length, IsTrue, All};
ghost use Rattle.sdm_rules.specs.Slopes.{bands_of, meaning_of};
ghost use Rattle.sdm_rules.specs.Curves.{upper_square};
ghost use Rattle.sdm_rules.specs.Motion.{lower_square, BrakesAtLeast, IsInBand, IsStep};
ghost use Rattle.sdm_curve.specs.Integrals.{slope_of};
ghost use Rattle.sdm_motion.specs.Motions.{IsPointInRange};
ghost use Rattle.sdm_motion.specs.Steps.{AreBraking, BrakesIn, IsStepIn};

use crate::slopes::{Stretch, first_met, have_slope};
use sdm_curve::BandMap;
use sdm_rules::Point;

/// Whether the square is at or above the lower border of a band; the first one has none.
fn is_above(m: u32, map: &BandMap, band: usize, square: u128) -> bool
    requires { band < bands_of map.now.uppers }
    ensures { IsTrue result ↔ (lower_square (meaning_of map.now) m band ≤ square) }
{
    if band == 0 {
        return true;
    }
    map.upper_square(m, band - 1) <= square
}

/// Whether the square is at or below the upper border of a band; the last one has none.
fn is_below(m: u32, map: &BandMap, band: usize, square: u128) -> bool
    requires { band < bands_of map.now.uppers }
    ensures { IsTrue result ↔ (band < length map.now.uppers → square ≤ upper_square (meaning_of map.now) m band) }
{
    if map.bands() <= band + 1 {
        return true;
    }
    square <= map.upper_square(m, band)
}

/// Whether the square lies in the band, its borders included.
fn is_in_band(m: u32, map: &BandMap, band: usize, square: u128) -> bool
    requires { band < bands_of map.now.uppers }
    ensures { IsTrue result ↔ IsInBand (meaning_of map.now) m band square }
{
    if !is_above(m, map, band, square) {
        return false;
    }
    is_below(m, map, band, square)
}

/// The distance from a place to a point that is not before it.
pub fn distance_to(point: &Point, from: i128) -> u128
    requires low { neg_ℤ (pos (2 * 10 ^ 21)) ≤ℤ from }
    requires forward { from ≤ℤ point.now.place }
    requires range { IsPointInRange point.now }
    ensures value { point.now.place ≡ from +ℤ pos result }
    ensures small { result ≤ 3 * 10 ^ 21 }
{
    (point.place - from) as u128
}

/// Whether the train brakes at least with the slope of a band in a segment.
fn brakes(map: &BandMap, band: usize, i: usize, from: &Point, to: &Point) -> bool
    requires known_band { band < bands_of map.now.uppers }
    requires known { i < length map.now.starts }
    requires from { IsPointInRange from.now }
    requires to { IsPointInRange to.now }
    requires forward { from.now.place ≤ℤ to.now.place }
    requires slower { to.now.square ≤ from.now.square }
    ensures { IsTrue result ↔ BrakesAtLeast (meaning_of map.now)
        (slope_of map.now band i) from.now.place from.now.square to.now.place to.now.square }
{
    let energy = map.energy_of_change((from.square - to.square) as u64);
    u128::from(map.rate(band, i)) * distance_to(to, from.place) <= energy
}

/// The stretch between two points.
fn stretch_of(from: &Point, to: &Point) -> Stretch
    requires from { IsPointInRange from.now }
    requires to { IsPointInRange to.now }
    ensures from { result.from ≡ from.now.place }
    ensures to { result.to ≡ to.now.place }
{
    Stretch {
        from: from.place,
        to: to.place,
    }
}

/// Whether all cells of the stretch have one slope in the band, and the train brakes at least with it. A point that
/// stays asks no slope.
fn brakes_in(m: u32, map: &BandMap, band: usize, from: &Point, to: &Point) -> bool
    requires some { 0 < m }
    requires known { band < bands_of map.now.uppers }
    requires from { IsPointInRange from.now }
    requires to { IsPointInRange to.now }
    requires forward { from.now.place ≤ℤ to.now.place }
    requires slower { to.now.square ≤ from.now.square }
    ensures { IsTrue result ↔ BrakesIn (meaning_of map.now) m band from.now to.now }
{
    let stretch = stretch_of(from, to);
    let Some(i) = first_met(m, map, stretch) else {
        return true;
    };
    let slope = map.natural_slope(band, i);
    if !have_slope(m, map, band, stretch, slope) {
        return false;
    }
    brakes(map, band, i, from, to)
}

/// Whether the step is possible in the band.
fn is_step_in(m: u32, map: &BandMap, band: usize, from: &Point, to: &Point) -> bool
    requires some { 0 < m }
    requires known { band < bands_of map.now.uppers }
    requires from { IsPointInRange from.now }
    requires to { IsPointInRange to.now }
    ensures { IsTrue result ↔ IsStepIn (meaning_of map.now) m band from.now to.now }
{
    if to.place < from.place {
        return false;
    }
    if from.square < to.square {
        return false;
    }
    if !is_in_band(m, map, band, from.square) {
        return false;
    }
    if !is_in_band(m, map, band, to.square) {
        return false;
    }
    brakes_in(m, map, band, from, to)
}

/// Whether the step is possible: in some band that holds both squares.
fn is_step(m: u32, map: &BandMap, from: &Point, to: &Point) -> bool
    requires some { 0 < m }
    requires from { IsPointInRange from.now }
    requires to { IsPointInRange to.now }
    ensures { IsTrue result ↔ IsStep (meaning_of map.now) m from.now to.now }
{
    for band in 0..map.bands() {
        if is_step_in(m, map, band, from, to) {
            return true;
        }
    }
    false
}

/// Whether there are points that brake step by step to a square of 0.
pub fn are_braking(m: u32, map: &BandMap, points: &[Point]) -> bool
    requires some { 0 < m }
    requires ranges { All IsPointInRange points.now }
    ensures { IsTrue result ↔ AreBraking (meaning_of map.now) m points.now }
{
    if points.is_empty() {
        return false;
    }
    let last = points.len() - 1;
    for i in 0..last {
        if !is_step(m, map, &points[i], &points[i + 1]) {
            return false;
        }
    }
    points[last].square == 0
}
