//! The marks of a claim: those of the brake curve that stops at its place, found going back from there.

ghost use Rattle.std.specs.Prelude.{◌≡◌, pos, neg_ℤ, List, ◌∷◌, ◌++◌, ◌+◌, ◌*◌, ◌^◌, ◌<◌, ◌≤◌, ◌+ℤ◌, ◌≤ℤ◌, ◌<ℤ◌};
ghost use Rattle.std.specs.Prelude.{length, reverse, IfOk};
ghost use Rattle.sdm_rules.specs.Certificates.{d_bec_of, v_bec_of, Hold, IsClaimInRange, IsMarkInRange};
ghost use Rattle.sdm_rules.specs.Curves.{stepped};
ghost use Rattle.sdm_rules.specs.Slopes.{bands_of, meaning_of, most_bands, IsUsable};
ghost use Rattle.sdm_curve.specs.Made.{IsFootPlace, IsMadeFrom};
ghost use Rattle.sdm_curve.specs.Maps.{AreStarts, AreUppers};
ghost use Rattle.sdm_certify.specs.Made.{between, knot, marks_from, marks_of, AreMarksInRange};
ghost use Rattle.sdm_certify.specs.Segments.{AreLater, IsLeft};

use crate::marks::Marks;
use crate::reach::v_bec;
use sdm_curve::{BandMap, Curve};
use sdm_num::{NoMemory, Place, Speed};
use sdm_rules::{Claim, Mark};
use std::alloc::Global;

/// The grains from a place to a later one.
fn gap(from: i128, to: i128) -> u128
    requires behind { neg_ℤ (pos (10 ^ 18)) <ℤ from }
    requires ahead { to <ℤ pos (10 ^ 18) }
    requires forward { from <ℤ to }
    ensures value { to ≡ from +ℤ pos result }
    ensures small { result ≤ 2 * 10 ^ 18 }
{
    (to - from) as u128
}

/// The energy at the beginning of a way, from that at its end and the energy of a grain.
#[tactic(auto, using(crate::proofs::Ways::fits_product))]
fn energy_before(energy: u128, rate: u64, way: u128) -> u128
    requires energy { energy ≤ 10 ^ 36 }
    requires rate { rate ≤ 27 * 10 ^ 15 }
    requires way { way ≤ 2 * 10 ^ 18 }
    ensures { result ≡ energy + rate * way }
{
    energy + u128::from(rate) * way
}

/// The mark of a place.
fn mark_at(place: i128, energy: u128) -> Mark
    requires behind { neg_ℤ (pos (10 ^ 18)) <ℤ place }
    requires ahead { place <ℤ pos (10 ^ 18) }
    ensures place { result.place ≡ place }
    ensures energy { result.energy ≡ energy }
{
    Mark {
        place: place as i64,
        energy,
    }
}

/// Puts the marks strictly between two knots of a band, and then the earlier knot, going back. The walk stands at the
/// segment `from`; the answer is where it stands after this band.
fn put_band(
    map: &BandMap,
    band: usize,
    here: Mark,
    next: Mark,
    from: usize,
    marks: &mut Vec<Mark>,
) -> Result<usize, NoMemory>
    requires known { band < bands_of map.now.uppers }
    requires here { IsMarkInRange here }
    requires next { IsMarkInRange next }
    requires forward { here.place <ℤ next.place }
    requires rising { AreStarts map.now.starts }
    requires from { from < length map.now.starts }
    requires later { AreLater map.now.starts from next.place }
    ensures value { IfOk result (λ _. marks.new.items
        ≡ marks.old.items ++ reverse (here ∷ between (meaning_of map.now) band here next)) }
    ensures left { IfOk result (λ i. IsLeft map.now here.place from i marks.old.items marks.new.items) }
{
    let mut i = from;
    let mut at = i128::from(next.place);
    let mut energy = next.energy;
    while i > 0 && i128::from(here.place) < map.scaled_segment_start(1, i) {
        let start = map.scaled_segment_start(1, i);
        if start < at {
            energy = energy_before(energy, map.rate(band, i), gap(start, at));
            at = start;
            if map.natural_slope(band, i - 1) != map.natural_slope(band, i) {
                marks.push(mark_at(at, energy))?;
            }
        }
        i -= 1;
    }
    marks.push(here)?;
    Ok(i)
}

/// The knot of a speed on the curve to a stop.
fn knot(map: &BandMap, curve: &Curve, speed: Speed) -> Mark
    requires made { IsMadeFrom (meaning_of map.now) curve.now }
    requires stop { curve.now.speed ≡ 0 }
    ensures value { result ≡ knot (meaning_of map.now) curve.now.place speed }
    ensures range { IsMarkInRange result }
    ensures usable { IsUsable (meaning_of map.now) }
{
    Mark {
        place: curve.place(map, speed).at().grains(),
        energy: map.energy_of(speed),
    }
}

/// The number of borders of bands, with what the map keeps of them.
fn borders(map: &BandMap) -> usize
    ensures value { result ≡ length map.now.uppers }
    ensures uppers { AreUppers map.now.uppers }
{
    prove!(100 <= map.q());
    map.bands() - 1
}

/// The marks from the stop back to the knot of a speed.
fn marks_back(alloc: Global, map: &BandMap, svl: Place, speed: Speed) -> Result<Vec<Mark>, NoMemory>
    requires { IsFootPlace svl }
    ensures value { IfOk result (λ marks. marks.items
        ≡ reverse (marks_from (meaning_of map.now) svl (length map.now.uppers) speed)) }
    ensures first { IfOk result (λ _. IsMarkInRange (knot (meaning_of map.now) svl speed)) }
    ensures few { IfOk result (λ marks. length marks.items ≤ length map.now.starts + bands_of map.now.uppers) }
    ensures bands { bands_of map.now.uppers ≤ most_bands }
    ensures usable { IsUsable (meaning_of map.now) }
{
    let curve = Curve::from_foot(map, svl, Speed::new(0));
    let mut next = knot(map, &curve, Speed::new(0));
    let last = borders(map);
    let mut marks = Vec::new(alloc);
    marks.push(next)?;
    if speed.notches() == 0 {
        return Ok(marks);
    }
    let mut from = map.segments() - 1;
    for band in 0..last {
        let upper = map.upper(band);
        if speed.notches() <= upper.notches() {
            put_band(map, band, knot(map, &curve, speed), next, from, &mut marks)?;
            return Ok(marks);
        }
        let here = knot(map, &curve, upper);
        from = put_band(map, band, here, next, from, &mut marks)?;
        next = here;
    }
    put_band(map, last, knot(map, &curve, speed), next, from, &mut marks)?;
    Ok(marks)
}

/// The marks of a claim, by rising place: those of the brake curve that stops at the claim's place, where the map has
/// at most 2,000 segments. Where the claim's front end with D_bec is at or before the computed place of V_bec, they
/// hold. They are 1 to 4,000, each in the ranges of its line. (own)
pub fn marks_of(alloc: Global, map: &BandMap, claim: &Claim) -> Result<Marks, NoMemory>
    requires claim { IsClaimInRange claim.now }
    requires segments { length map.now.starts ≤ 2_000 }
    ensures value { IfOk result (λ marks. marks ≡ marks_of (meaning_of map.now) claim.now) }
    ensures hold { (claim.now.front +ℤ pos (d_bec_of claim.now))
        ≤ℤ stepped (meaning_of map.now) claim.now.svl 0 (v_bec_of claim.now) →
        IfOk result (λ marks. Hold (meaning_of map.now) claim.now marks) }
    ensures range { IfOk result AreMarksInRange }
{
    let mut marks = marks_back(alloc, map, claim.svl, v_bec(claim))?;
    marks.reverse();
    Ok(Marks::new(marks))
}
