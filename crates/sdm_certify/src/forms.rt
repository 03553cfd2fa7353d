//! The forms of the lines of a certificate text: `map`, `uppers`, `seg`, `claim` and `mark`, each read field by field.

ghost use Rattle.std.specs.Prelude.{◌≡◌, ◌<◌, ◌≤◌, length, option_map, pos, All, IfSome};
ghost use Rattle.sdm_rules.specs.Certificates.{IsClaimInRange, IsMarkInRange};
ghost use Rattle.sdm_curve.specs.Maps.{AreUppers, IsSlopeBounded};
ghost use Rattle.sdm_certify.specs.Lines.{claim_of, head_of, mark_of, segment_of, uppers_of};
ghost use Rattle.sdm_certify.specs.SegmentLines.{segment_view};

use crate::fields::Fields;
use arrayvec::ArrayVec;
use sdm_num::{Place, Speed};
use sdm_rules::{Claim, MOST_BANDS, Mark};

/// What the line `map` says.
#[derive(Clone, Copy)]
pub struct Head {
    /// 100 plus the rotating mass in percent, by which the unit of slopes is scaled.
    pub q: u32,
    pub bands: u32,
    pub segments: u32,
}

/// What a line `seg` says.
#[derive(Drop)]
pub struct SegmentLine {
    /// The segment's first cell.
    pub start: u32,
    /// The slope of each band, in 1/Q m/s².
    pub slopes: ArrayVec<i64, MOST_BANDS>,
}

/// What a line `claim` says.
#[derive(Clone, Copy)]
pub struct ClaimLine {
    pub claim: Claim,
    /// How many lines `mark` follow it.
    pub marks: u32,
}

/// The furthest that the front end of a claim may be from 0, in grains.
const MOST_FRONT: i64 = 60_000_000_000_000_000;

/// The greatest place of a claim, in grains.
const MOST_SVL: i64 = 54_000_000_000_000_000;

/// The greatest place of 18 digits.
const MOST_PLACE: i64 = 999_999_999_999_999_999;

/// The greatest energy of a mark.
const MOST_ENERGY: u128 = 100_000_000_000_000_000_000_000_000_000_000;

/// Reads the line `map,q,b,s`.
#[tactic(auto, unfolding(crate::specs::Lines::head_of))]
pub fn head_of(line: &[u8]) -> Option<Head>
    ensures value { result ≡ head_of line.now }
    ensures q { IfSome result (λ head. (100 ≤ head.q) × (head.q ≤ 11_730)) }
    ensures bands { IfSome result (λ head. (1 ≤ head.bands) × (head.bands ≤ 10)) }
    ensures segments { IfSome result (λ head. (1 ≤ head.segments) × (head.segments ≤ 2_000)) }
{
    let mut fields = Fields::of(line);
    fields.word(b"map")?;
    let q = fields.natural(100, 11_730)?;
    let bands = fields.natural(1, MOST_BANDS as u32)?;
    let segments = fields.natural(1, 2_000)?;
    if !fields.is_end() {
        return None;
    }
    Some(Head { q, bands, segments })
}

/// Reads the line `uppers` of so many upper speeds, in notches.
#[tactic(auto, unfolding(crate::specs::Lines::uppers_of))]
pub fn uppers_of(count: u32, line: &[u8]) -> Option<ArrayVec<u32, MOST_BANDS>>
    requires few { count < 10 }
    ensures value { option_map (λ uppers. uppers.items) result ≡ uppers_of count line.now }
    ensures count { IfSome result (λ uppers. length uppers.items ≡ count) }
    ensures uppers { IfSome result (λ uppers. AreUppers uppers.items) }
    ensures range { IfSome result (λ uppers. All (λ v. v ≤ 20_000_000) uppers.items) }
{
    let mut fields = Fields::of(line);
    fields.word(b"uppers")?;
    let uppers = fields.speeds(count)?;
    if !fields.is_end() {
        return None;
    }
    Some(uppers)
}

/// Reads a line `seg` of so many bands, whose start is from `least` to `greatest`.
#[tactic(auto, unfolding(crate::specs::Lines::segment_of))]
pub fn segment_of(bands: u32, least: u32, greatest: u32, line: &[u8]) -> Option<SegmentLine>
    requires few { bands ≤ 10 }
    ensures value { option_map segment_view result ≡ segment_of bands (pos least) (pos greatest) line.now }
    ensures start { IfSome result (λ s. (least ≤ s.start) × (s.start ≤ greatest)) }
    ensures count { IfSome result (λ s. length s.slopes.items ≡ bands) }
    ensures range { IfSome result (λ s. All IsSlopeBounded s.slopes.items) }
{
    let mut fields = Fields::of(line);
    fields.word(b"seg")?;
    let start = fields.natural(least, greatest)?;
    let slopes = fields.slopes(bands)?;
    if !fields.is_end() {
        return None;
    }
    Some(SegmentLine { start, slopes })
}

/// Reads the line `claim,time,front,speed,a1,a2,tt,tb,svl,n`.
#[tactic(auto, unfolding(crate::specs::Lines::claim_of))]
pub fn claim_of(line: &[u8]) -> Option<ClaimLine>
    ensures value { result ≡ claim_of line.now }
    ensures range { IfSome result (λ c. IsClaimInRange c.claim) }
    ensures marks { IfSome result (λ c. (1 ≤ c.marks) × (c.marks ≤ 4_000)) }
{
    let mut fields = Fields::of(line);
    fields.word(b"claim")?;
    let time = fields.natural(0, 100_000_000)?;
    let front = fields.number(-MOST_FRONT, MOST_FRONT)?;
    let speed = fields.natural(0, 8_100_000)?;
    let accel1 = fields.natural(0, 300)?;
    let accel2 = fields.natural(0, 40)?;
    let traction = fields.natural(0, 300)?;
    let berem = fields.natural(0, 300)?;
    let svl = fields.number(0, MOST_SVL)?;
    let marks = fields.natural(1, 4_000)?;
    if !fields.is_end() {
        return None;
    }
    let claim = Claim {
        time,
        front: Place::new(front),
        speed: Speed::new(speed),
        accel1: accel1 as u16,
        accel2: accel2 as u16,
        traction,
        berem,
        svl: Place::new(svl),
    };
    Some(ClaimLine { claim, marks })
}

/// Reads a line `mark,place,energy`.
#[tactic(auto, unfolding(crate::specs::Lines::mark_of))]
pub fn mark_of(line: &[u8]) -> Option<Mark>
    ensures value { result ≡ mark_of line.now }
    ensures range { IfSome result IsMarkInRange }
{
    let mut fields = Fields::of(line);
    fields.word(b"mark")?;
    let place = fields.number(-MOST_PLACE, MOST_PLACE)?;
    let energy = fields.wide(MOST_ENERGY)?;
    if !fields.is_end() {
        return None;
    }
    Some(Mark { place, energy })
}
