//! The slopes that a step meets on its stretch. Cells of one segment have one slope, so segments are asked in place of
//! cells.

ghost use Rattle.std.specs.Prelude.{◌≡◌, ◌↔◌, ◌+◌, ◌<◌, length, IsTrue, MatchOption};
ghost use Rattle.sdm_rules.specs.Slopes.{bands_of};
ghost use Rattle.sdm_curve.specs.Maps.{AreStarts};
ghost use Rattle.sdm_motion.specs.Steps.{BeginsBefore, EndsAfter, HaveSlope, Meets, IsMet, NoneIsMet};

use sdm_curve::BandMap;

/// A stretch of track: its places in 1/m² of a grain.
#[derive(Clone, Copy)]
pub struct Stretch {
    pub from: i128,
    pub to: i128,
}

/// Whether the segment begins before a place; the first one has no beginning.
fn begins_before(m: u32, map: &BandMap, i: usize, place: i128) -> bool
    requires { i < length map.now.starts }
    ensures { IsTrue result ↔ BeginsBefore m map.now.starts i place }
{
    if i == 0 {
        return true;
    }
    map.scaled_segment_start(m, i) < place
}

/// Whether the segment ends after a place; the last one has no end.
fn ends_after(m: u32, map: &BandMap, i: usize, place: i128) -> bool
    requires { i < length map.now.starts }
    ensures { IsTrue result ↔ EndsAfter m map.now.starts i place }
{
    if map.segments() <= i + 1 {
        return true;
    }
    place < map.scaled_segment_start(m, i + 1)
}

/// Whether some cell of the segment has a part strictly between the ends of a stretch.
fn meets(m: u32, map: &BandMap, i: usize, stretch: Stretch) -> bool
    requires { i < length map.now.starts }
    ensures { IsTrue result ↔ Meets m map.now.starts i stretch.from stretch.to }
{
    if stretch.to <= stretch.from {
        return false;
    }
    if !begins_before(m, map, i, stretch.to) {
        return false;
    }
    ends_after(m, map, i, stretch.from)
}

/// The first segment that a stretch meets, if there is one.
pub fn first_met(m: u32, map: &BandMap, stretch: Stretch) -> Option<usize>
    ensures met { MatchOption result (NoneIsMet m map.now.starts stretch.from stretch.to)
        (λ i. IsMet m map.now.starts i stretch.from stretch.to) }
    ensures rising { AreStarts map.now.starts }
{
    for i in 0..map.segments() {
        if meets(m, map, i, stretch) {
            return Some(i);
        }
    }
    None
}

/// Whether all segments that a stretch meets have the slope in the band.
pub fn have_slope(m: u32, map: &BandMap, band: usize, stretch: Stretch, slope: u64) -> bool
    requires { band < bands_of map.now.uppers }
    ensures { IsTrue result ↔ HaveSlope map.now m band stretch.from stretch.to slope }
{
    for i in 0..map.segments() {
        if meets(m, map, i, stretch) {
            if map.natural_slope(band, i) != slope {
                return false;
            }
        }
    }
    true
}
