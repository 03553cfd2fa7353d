//! Steps from mark to mark. Ranges are known, so that no product overflows.

ghost use Rattle.std.specs.Prelude.{◌≡◌, ◌↔◌, ◌*◌, ◌^◌, ◌<◌, ◌≤◌, ◌+ℤ◌, ◌≤ℤ◌, pos, length, IsTrue, All};
ghost use Rattle.sdm_rules.specs.Certificates.{IsEnergyIn, IsMarkInRange, IsNext, TakesEnough};
ghost use Rattle.sdm_rules.specs.Curves.{grain_energy, upper_square};
ghost use Rattle.sdm_rules.specs.Motion.{lower_square};
ghost use Rattle.sdm_rules.specs.Slopes.{bands_of, meaning_of};
ghost use Rattle.sdm_curve.specs.Integrals.{slope_of};
ghost use Rattle.sdm_certify.specs.Steps.{AreLeading, IsNextIn, TakesEnoughIn};

use sdm_curve::BandMap;
use sdm_motion::slopes::{Stretch, first_met, have_slope};
use sdm_num::Place;
use sdm_rules::Mark;

/// The energy at the upper speed of a band.
fn border(map: &BandMap, band: usize) -> u128
    requires { band < length map.now.uppers }
    ensures { result ≡ grain_energy (meaning_of map.now) (upper_square (meaning_of map.now) 1 band) }
{
    map.energy_of(map.upper(band))
}

/// Whether the energy is at least that of the lower border of a band; the first one has none.
fn is_above(map: &BandMap, band: usize, energy: u128) -> bool
    requires { band < bands_of map.now.uppers }
    ensures { IsTrue result ↔ (grain_energy (meaning_of map.now) (lower_square (meaning_of map.now) 1 band) ≤ energy) }
{
    if band == 0 {
        return true;
    }
    border(map, band - 1) <= energy
}

/// Whether the energy is at most that of the upper border of a band; the last one has none.
fn is_below(map: &BandMap, band: usize, energy: u128) -> bool
    requires { band < bands_of map.now.uppers }
    ensures { IsTrue result ↔ (band < length map.now.uppers →
        energy ≤ grain_energy (meaning_of map.now) (upper_square (meaning_of map.now) 1 band)) }
{
    if map.bands() <= band + 1 {
        return true;
    }
    energy <= border(map, band)
}

/// Whether the energy is that of a square within the band, its borders included.
fn is_in_band(map: &BandMap, band: usize, energy: u128) -> bool
    requires { band < bands_of map.now.uppers }
    ensures { IsTrue result ↔ IsEnergyIn (meaning_of map.now) band energy }
{
    if !is_above(map, band, energy) {
        return false;
    }
    is_below(map, band, energy)
}

/// The stretch from one mark to another.
fn stretch_of(from: &Mark, to: &Mark) -> Stretch
    ensures from { result.from ≡ from.now.place }
    ensures to { result.to ≡ to.now.place }
{
    Stretch {
        from: i128::from(from.place),
        to: i128::from(to.place),
    }
}

/// The grains from one mark to a later one.
fn way(from: &Mark, to: &Mark) -> u128
    requires from { IsMarkInRange from.now }
    requires to { IsMarkInRange to.now }
    requires forward { from.now.place ≤ℤ to.now.place }
    ensures value { to.now.place ≡ from.now.place +ℤ pos result }
    ensures small { result ≤ 2 * 10 ^ 18 }
{
    (i128::from(to.place) - i128::from(from.place)) as u128
}

/// Whether the way takes enough, with the slope of a band in a segment.
fn takes_enough(map: &BandMap, band: usize, i: usize, from: &Mark, to: &Mark) -> bool
    requires known_band { band < bands_of map.now.uppers }
    requires known { i < length map.now.starts }
    requires from { IsMarkInRange from.now }
    requires to { IsMarkInRange to.now }
    requires forward { from.now.place ≤ℤ to.now.place }
    requires falls { to.now.energy ≤ from.now.energy }
    ensures { IsTrue result ↔ TakesEnough (slope_of map.now band i) from.now to.now }
{
    from.energy - to.energy <= u128::from(map.rate(band, i)) * way(from, to)
}

/// Whether all cells on the way have one slope in the band, and with it the way takes enough. With no way no energy
/// may be lost.
fn takes_enough_in(map: &BandMap, band: usize, from: &Mark, to: &Mark) -> bool
    requires known { band < bands_of map.now.uppers }
    requires from { IsMarkInRange from.now }
    requires to { IsMarkInRange to.now }
    requires forward { from.now.place ≤ℤ to.now.place }
    requires falls { to.now.energy ≤ from.now.energy }
    ensures { IsTrue result ↔ TakesEnoughIn (meaning_of map.now) band from.now to.now }
{
    let stretch = stretch_of(from, to);
    let Some(i) = first_met(1, map, stretch) else {
        return from.energy == to.energy;
    };
    let slope = map.natural_slope(band, i);
    if !have_slope(1, map, band, stretch, slope) {
        return false;
    }
    takes_enough(map, band, i, from, to)
}

/// Whether one mark may follow another in the band.
fn is_next_in(map: &BandMap, band: usize, from: &Mark, to: &Mark) -> bool
    requires known { band < bands_of map.now.uppers }
    requires from { IsMarkInRange from.now }
    requires to { IsMarkInRange to.now }
    ensures { IsTrue result ↔ IsNextIn (meaning_of map.now) band from.now to.now }
{
    if to.place < from.place {
        return false;
    }
    if from.energy < to.energy {
        return false;
    }
    if !is_in_band(map, band, from.energy) {
        return false;
    }
    if !is_in_band(map, band, to.energy) {
        return false;
    }
    takes_enough_in(map, band, from, to)
}

/// Whether one mark may follow another: in some band that holds both energies.
fn is_next(map: &BandMap, from: &Mark, to: &Mark) -> bool
    requires from { IsMarkInRange from.now }
    requires to { IsMarkInRange to.now }
    ensures { IsTrue result ↔ IsNext (meaning_of map.now) from.now to.now }
{
    for band in 0..map.bands() {
        if is_next_in(map, band, from, to) {
            return true;
        }
    }
    false
}

/// Whether the mark may be the last: with an energy of 0, at or before the place.
fn is_last(svl: Place, mark: &Mark) -> bool
    ensures { IsTrue result ↔ (mark.now.energy ≡ 0) × (mark.now.place ≤ℤ svl) }
{
    if mark.energy != 0 {
        return false;
    }
    mark.place <= svl.grains()
}

/// Whether there are marks that lead to the place, each one to the next.
pub fn are_leading(map: &BandMap, svl: Place, marks: &[Mark]) -> bool
    requires { All IsMarkInRange marks.now }
    ensures { IsTrue result ↔ AreLeading (meaning_of map.now) svl marks.now }
{
    if marks.is_empty() {
        return false;
    }
    let last = marks.len() - 1;
    for i in 0..last {
        if !is_next(map, &marks[i], &marks[i + 1]) {
            return false;
        }
    }
    is_last(svl, &marks[last])
}
