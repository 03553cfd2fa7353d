//! Where a segment is sought. The levels of a band are cut into equal parts, and for each part the segments are kept
//! between which that of a level lies. They are tested before they are taken, so nothing needs to be known of them: wrong
//! ones cost time, and never give a wrong answer.

ghost use Rattle.std.specs.Prelude.{◌<◌};

use std::alloc::{AllocError, Global};

/// The most segments among which one is sought by looking at each. (own)
pub const FEW: usize = 12;

/// The most segments that spans are made for: numbers of 16 bits, for a table that stays small. (own)
const MOST: usize = 65_535;

/// Of so many segments one is looked at when spans are made, and a band has a part for as many. (own)
const STRIDE: usize = 4;

/// For each band and part a segment at or before those of the part's levels, and one past them, all parts of the first
/// band first; none where segments are few or too many.
#[derive(Drop)]
pub struct Spans {
    /// The parts of a band.
    parts: usize,
    /// What the high word of a level is multiplied by to give its part, as 2⁶⁴ parts of 1.
    scale: u64,
    list: Vec<(u16, u16)>,
}

/// A segment in 16 bits; 0 for one past `MOST`, which no span has.
fn narrow(segment: usize) -> u16 {
    u16::try_from(segment).unwrap_or(0)
}

/// The part of a level, by its high word.
fn part_of(key: u64, scale: u64) -> u64 {
    (u128::from(key).wrapping_mul(u128::from(scale)) >> 64) as u64
}

/// The greatest high word of the sums, by the last one of each band: in a band the sums rise.
fn greatest_key(segments: usize, sums: &[u128]) -> u64
    requires { 0 < segments }
{
    let mut greatest = 0;
    for band in sums.chunks(segments) {
        if let Some(sum) = band.last() {
            greatest = greatest.max((*sum >> 64) as u64);
        }
    }
    greatest
}

/// The scale by which a high word gives the last of so many parts, and each lesser one a part.
fn scale_of(greatest: u64, parts: usize) -> u64 {
    let scale = ((parts as u128) << 64) / (u128::from(greatest) + 1);
    u64::try_from(scale).unwrap_or(0)
}

/// The first segment from one on, in strides, that begins past a part; where there is none, how many segments there are.
fn past_part(sums: &[u128], scale: u64, part: usize, from: usize) -> usize {
    for next in (from..sums.len()).step_by(STRIDE) {
        if (part as u64) < part_of((sums[next] >> 64) as u64, scale) {
            return next;
        }
    }
    sums.len()
}

/// Puts the spans of a band, whose sums before each segment are handed in.
fn put_spans(
    list: &mut Vec<(u16, u16)>,
    sums: &[u128],
    parts: usize,
    scale: u64,
) -> Result<(), AllocError> {
    let mut past = 0usize;
    for part in 0..parts {
        let low = past.saturating_sub(STRIDE);
        past = past_part(sums, scale, part, past);
        list.push((narrow(low), narrow(past)))?;
    }
    Ok(())
}

impl Spans {
    /// The spans of so many segments in each band, with the sums before each segment, all of the first band first.
    pub fn of(alloc: Global, segments: usize, sums: &[u128]) -> Result<Spans, AllocError> {
        if segments <= FEW || MOST < segments {
            return Ok(Spans {
                parts: 0,
                scale: 0,
                list: Vec::new(alloc),
            });
        }
        let parts = segments / STRIDE;
        let scale = scale_of(greatest_key(segments, sums), parts);
        let mut list = Vec::with_capacity(alloc, sums.len() / STRIDE)?;
        for band in sums.chunks(segments) {
            put_spans(&mut list, band, parts, scale)?;
        }
        Ok(Spans { parts, scale, list })
    }

    /// The span of the high word of a level in a band.
    pub fn span(&self, band: usize, key: u64) -> (usize, usize) {
        let part = part_of(key, self.scale).min((self.parts as u64).saturating_sub(1));
        let at = band.wrapping_mul(self.parts).wrapping_add(part as usize);
        match self.list.get(at) {
            Some((low, past)) => (usize::from(*low), usize::from(*past)),
            None => (0, 0),
        }
    }
}
