//! The map of a certificate text, read from its first lines.

ghost use Rattle.std.specs.Prelude.{◌≡◌, [], ◌++◌, ◌+◌, ◌*◌, ◌<◌, ◌≤◌, length, pos, All, Ok, Err, IfOk, IfErr};
ghost use Rattle.sdm_curve.specs.Maps.{AreStarts, AreUppers, IsMapData, IsSlopeBounded};
ghost use Rattle.sdm_certify.specs.Lines.{head_of, map_in, next_line, segment_of, segments_in, slopes_by_band};
ghost use Rattle.sdm_certify.specs.Lines.{slopes_of_band, uppers_in};
ghost use Rattle.sdm_certify.specs.Written.{IsFaultOf, segments_view, map_view};
ghost use Rattle.sdm_certify.specs.SegmentLines.{segment_view};

use crate::answers::CheckFault;
use crate::forms::{Head, SegmentLine, head_of, segment_of, uppers_of};
use crate::lines::Lines;
use arrayvec::ArrayVec;
use sdm_num::Speed;
use sdm_rules::MOST_BANDS;
use std::alloc::{AllocError, Global};

/// The furthest start of a segment.
const LAST_START: u32 = 10_200_000;

/// The segments of a written map.
#[derive(Drop)]
pub struct SegmentLines {
    /// The first cell of each.
    pub starts: Vec<i32>,
    /// The slopes of each, band by band.
    pub slopes: Vec<i64>,
}

/// A written map, whose slopes may yet be refused.
#[derive(Drop)]
pub struct WrittenMap {
    pub q: u32,
    pub uppers: Vec<Speed>,
    pub starts: Vec<i32>,
    /// Those of all segments in the first band, and so on.
    pub slopes: Vec<i64>,
}

/// Reads the line `map`.
fn read_head(lines: &mut Lines) -> Result<Head, CheckFault>
    ensures head { IfOk result (λ head. next_line head_of lines.old ≡ Ok (head, lines.new)) }
    ensures fault { IfErr result (IsFaultOf (next_line head_of lines.old)) }
    ensures q { IfOk result (λ head. (100 ≤ head.q) × (head.q ≤ 11_730)) }
    ensures bands { IfOk result (λ head. (1 ≤ head.bands) × (head.bands ≤ 10)) }
    ensures segments { IfOk result (λ head. (1 ≤ head.segments) × (head.segments ≤ 2_000)) }
{
    let bad = CheckFault::Line(lines.bad());
    let Some(line) = lines.take() else {
        return Err(bad);
    };
    head_of(line).ok_or(bad)
}

/// Reads the line `uppers`, where there is one: upper speeds in notches.
fn read_uppers(bands: u32, lines: &mut Lines) -> Result<ArrayVec<u32, MOST_BANDS>, CheckFault>
    requires some { 1 ≤ bands }
    requires few { bands ≤ 10 }
    ensures read { IfOk result (λ us. uppers_in bands lines.old ≡ Ok (us.items, lines.new)) }
    ensures fault { IfErr result (IsFaultOf (uppers_in bands lines.old)) }
    ensures count { IfOk result (λ us. length us.items + 1 ≡ bands) }
    ensures uppers { IfOk result (λ us. AreUppers us.items) }
    ensures range { IfOk result (λ us. All (λ v. v ≤ 20_000_000) us.items) }
{
    if bands <= 1 {
        return Ok(ArrayVec::new());
    }
    let bad = CheckFault::Line(lines.bad());
    let Some(line) = lines.take() else {
        return Err(bad);
    };
    uppers_of(bands - 1, line).ok_or(bad)
}

/// Reads a line `seg`, whose start is from `least` to `greatest`.
fn read_segment(
    bands: u32,
    least: u32,
    greatest: u32,
    lines: &mut Lines,
) -> Result<SegmentLine, CheckFault>
    requires few { bands ≤ 10 }
    ensures segment { IfOk result (λ s.
        next_line (segment_of bands (pos least) (pos greatest)) lines.old ≡ Ok (segment_view s, lines.new)) }
    ensures fault { IfErr result (IsFaultOf (next_line (segment_of bands (pos least) (pos greatest)) lines.old)) }
    ensures start { IfOk result (λ s. (least ≤ s.start) × (s.start ≤ greatest)) }
    ensures count { IfOk result (λ s. length s.slopes.items ≡ bands) }
    ensures range { IfOk result (λ s. All IsSlopeBounded s.slopes.items) }
{
    let bad = CheckFault::Line(lines.bad());
    let Some(line) = lines.take() else {
        return Err(bad);
    };
    segment_of(bands, least, greatest, line).ok_or(bad)
}

/// Reads so many lines `seg`.
fn read_segments(
    alloc: Global,
    bands: u32,
    count: u32,
    lines: &mut Lines,
) -> Result<SegmentLines, CheckFault>
    requires few_bands { bands ≤ 10 }
    requires some { 1 ≤ count }
    requires few { count ≤ 2_000 }
    ensures segments { IfOk result (λ read. segments_in bands count lines.old ≡ Ok (segments_view read, lines.new)) }
    ensures fault { IfErr result (IsFaultOf (segments_in bands count lines.old)) }
    ensures starts { IfOk result (λ read. AreStarts read.starts.items) }
    ensures count { IfOk result (λ read. length read.starts.items ≡ count) }
    ensures slopes { IfOk result (λ read. length read.slopes.items ≡ count * bands) }
    ensures range { IfOk result (λ read. All IsSlopeBounded read.slopes.items) }
{
    let Ok(mut starts) = Vec::with_capacity(alloc, count as usize) else {
        return Err(CheckFault::Memory);
    };
    let Ok(mut slopes) = Vec::with_capacity(alloc, (count * bands) as usize) else {
        return Err(CheckFault::Memory);
    };
    let mut least = 0;
    let mut greatest = 0;
    for i in 0..count {
        let line = read_segment(bands, least, greatest, lines)?;
        let Ok(()) = starts.push(line.start as i32) else {
            return Err(CheckFault::Memory);
        };
        let Ok(()) = slopes.extend_from_slice(&line.slopes) else {
            return Err(CheckFault::Memory);
        };
        least = line.start + 1;
        greatest = LAST_START;
    }
    Ok(SegmentLines { starts, slopes })
}

/// Puts the slopes of a band in all segments.
fn put_band(
    bands: usize,
    segments: usize,
    slopes: &[i64],
    band: usize,
    into: &mut Vec<i64>,
) -> Result<(), AllocError>
    requires known { band < bands }
    requires all { length slopes.now ≡ segments * bands }
    requires few { segments * bands ≤ 20_000 }
    ensures { IfOk result (λ _. into.new.items ≡ into.old.items ++ slopes_of_band bands slopes.now band segments) }
{
    for i in 0..segments {
        into.push(slopes[i * bands + band])?;
    }
    Ok(())
}

/// The slopes of all segments in the first band, and so on.
fn by_band(
    alloc: Global,
    bands: usize,
    segments: usize,
    slopes: &[i64],
) -> Result<Vec<i64>, AllocError>
    requires all { length slopes.now ≡ segments * bands }
    requires few { segments * bands ≤ 20_000 }
    ensures { IfOk result (λ v. v.items ≡ slopes_by_band bands slopes.now segments bands) }
{
    let mut into = Vec::with_capacity(alloc, slopes.len())?;
    for band in 0..bands {
        put_band(bands, segments, slopes, band, &mut into)?;
    }
    Ok(into)
}

/// Speeds in notches as speeds.
fn speeds(alloc: Global, notches: &[u32]) -> Result<Vec<Speed>, AllocError>
    requires { All (λ v. v ≤ 20_000_000) notches.now }
    ensures { IfOk result (λ v. v.items ≡ notches.now) }
{
    let mut speeds = Vec::with_capacity(alloc, notches.len())?;
    for speed in notches {
        speeds.push(Speed::new(*speed))?;
    }
    Ok(speeds)
}

/// Reads the map.
#[tactic(auto, unfolding(crate::specs::Lines::map_in))]
pub fn read_map(alloc: Global, lines: &mut Lines) -> Result<WrittenMap, CheckFault>
    ensures map { IfOk result (λ m. map_in lines.old ≡ Ok (map_view m, lines.new)) }
    ensures range { IfOk result (λ m. IsMapData (map_view m)) }
    ensures fault { IfErr result (IsFaultOf (map_in lines.old)) }
{
    let head = read_head(lines)?;
    let uppers = read_uppers(head.bands, lines)?;
    let read = read_segments(alloc, head.bands, head.segments, lines)?;
    let (bands, segments) = (head.bands as usize, head.segments as usize);
    let Ok(slopes) = by_band(alloc, bands, segments, &read.slopes) else {
        return Err(CheckFault::Memory);
    };
    let Ok(uppers) = speeds(alloc, &uppers) else {
        return Err(CheckFault::Memory);
    };
    Ok(WrittenMap {
        q: head.q,
        uppers,
        starts: read.starts,
        slopes,
    })
}
