//! A map as lines. A segment whose slopes are those of the one before is left out, since the cells of both have the
//! same slopes without it.

ghost use Rattle.std.specs.Prelude.{◌≡◌, pos, [], ◌+◌, ◌-◌, ◌<◌, ◌≤◌, ◌≤ℤ◌, length, slice_index_or, All};
ghost use Rattle.sdm_rules.specs.Slopes.{bands_of, meaning_of};
ghost use Rattle.sdm_curve.specs.Maps.{AreStarts, IsKeptMap, handed_in};
ghost use Rattle.sdm_certify.specs.ReadBack.{IsReadBack};
ghost use Rattle.sdm_certify.specs.WrittenLines.{are_same_slopes, first_cell, head_line, is_written, last_start};
ghost use Rattle.sdm_certify.specs.WrittenLines.{segment_line, text_of_lines, uppers_line, uppers_lines, written};
ghost use Rattle.sdm_certify.specs.WrittenLines.{written_lines};

use crate::written_fields::{add_count, add_slope};
use sdm_curve::BandMap;
use sdm_report::fields::put_count;
use sdm_text::RowBuf;

/// Whether a segment has the same slope in each band as the one before it.
fn are_same_slopes(map: &BandMap, i: usize) -> bool
    requires some { 0 < i }
    requires known { i < length map.now.starts }
    ensures { result ≡ are_same_slopes map.now (i - 1) (bands_of map.now.uppers) }
{
    let mut are_same = true;
    for band in 0..map.bands() {
        if map.natural_slope(band, i - 1) != map.natural_slope(band, i) {
            are_same = false;
        }
    }
    are_same
}

/// Whether a segment is written.
fn is_written(map: &BandMap, i: usize) -> bool
    requires known { i < length map.now.starts }
    ensures { result ≡ is_written map.now i }
{
    if i == 0 {
        return true;
    }
    !are_same_slopes(map, i)
}

/// How many segments are written.
fn written_count(map: &BandMap) -> u32
    requires segments { length map.now.starts ≤ 2_000 }
    ensures count { result ≡ length (written map.now) }
    ensures few { result ≤ 2_000 }
    ensures kept { IsKeptMap (handed_in map.now) }
{
    let mut count = 0;
    for i in 0..map.segments() {
        if is_written(map, i) {
            count += 1;
        }
    }
    count
}

/// A written segment, counted from 0, as one of all segments.
fn nth_written(map: &BandMap, n: u32) -> usize
    requires known { n < length (written map.now) }
    ensures value { result ≡ slice_index_or (written map.now) n 0 }
    ensures known { result < length map.now.starts }
    ensures starts { AreStarts map.now.starts }
{
    let mut left = n;
    for i in 0..map.segments() {
        if is_written(map, i) {
            if left == 0 {
                return i;
            }
            left -= 1;
        }
    }
    unreachable!()
}

/// How many lines there are before those of segments.
fn lines_before_segments(map: &BandMap) -> u32
    ensures { result ≡ 1 + length (uppers_lines (meaning_of map.now)) }
{
    if map.bands() <= 1 { 1 } else { 2 }
}

/// How many lines `map_line` writes of a map of at most 2,000 segments. A checker reads these as a map with the same
/// slopes, if none begins past cell 10,200,000. (own)
pub fn map_lines(map: &BandMap) -> u32
    requires segments { length map.now.starts ≤ 2_000 }
    ensures count { result ≡ length (written_lines map.now) }
    ensures read_back { All (λ s. s ≤ℤ pos last_start) map.now.starts
        → IsReadBack (meaning_of map.now) (text_of_lines (written_lines map.now)) }
{
    lines_before_segments(map) + written_count(map)
}

/// Puts the line `map`.
#[tactic(auto, unfolding(crate::specs::WrittenLines::head_line))]
fn head_line(map: &BandMap, into: &mut RowBuf)
    requires segments { length map.now.starts ≤ 2_000 }
    requires empty { into.old ≡ [] }
    ensures { into.new ≡ head_line (meaning_of map.now) (length (written map.now)) }
{
    into.text(b"map");
    add_count(map.q(), into);
    add_count(map.bands() as u32, into);
    add_count(written_count(map), into);
    into.byte(b'\n');
}

/// Puts the line `uppers`.
#[tactic(auto, unfolding(crate::specs::WrittenLines::uppers_line))]
fn uppers_line(map: &BandMap, into: &mut RowBuf)
    requires empty { into.old ≡ [] }
    ensures { into.new ≡ uppers_line (meaning_of map.now) }
{
    into.text(b"uppers");
    for i in 0..map.bands() - 1 {
        add_count(map.upper(i).notches(), into);
    }
    into.byte(b'\n');
}

/// Puts the line `seg` of a segment.
#[tactic(auto, unfolding(crate::specs::WrittenLines::segment_line))]
fn segment_line(map: &BandMap, i: usize, into: &mut RowBuf)
    requires known { i < length map.now.starts }
    requires starts { AreStarts map.now.starts }
    requires empty { into.old ≡ [] }
    ensures { into.new ≡ segment_line (meaning_of map.now) (first_cell map.now i) }
{
    into.text(b"seg");
    add_count(map.start(i) as u32, into);
    for band in 0..map.bands() {
        add_slope(map.natural_slope(band, i), into);
    }
    into.byte(b'\n');
}

/// Puts a line of a map of at most 2,000 segments; the lines count from 0. (own)
pub fn map_line(map: &BandMap, i: u32, into: &mut RowBuf)
    requires segments { length map.now.starts ≤ 2_000 }
    requires known { i < length (written_lines map.now) }
    requires empty { into.old ≡ [] }
    ensures { into.new ≡ slice_index_or (written_lines map.now) i [] }
{
    let before = lines_before_segments(map);
    if i == 0 {
        head_line(map, into);
    } else if i < before {
        uppers_line(map, into);
    } else {
        segment_line(map, nth_written(map, i - before), into);
    }
}
