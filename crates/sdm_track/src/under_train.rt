//! The gradients under a train. The cells of the front end in which the lowest gradient from the rear end to the front
//! end stays the same make a segment, so that a curve meets few changes.

ghost use Rattle.std.specs.Prelude.{◌≡◌, ℕ, ℤ, pos, neg_ℤ, ◌+◌, ◌-◌, ◌*◌, ◌<◌, ◌≤◌, ◌+ℤ◌, ◌-ℤ◌, ◌≤ℤ◌, ◌<ℤ◌, length};
ghost use Rattle.std.specs.Prelude.{slice_get, Some, All, IfOk, OnOk};
ghost use Rattle.std.specs.Int.{int_min};
ghost use Rattle.std.specs.Option.{option_map};
ghost use Rattle.sdm_rules.specs.Cells.{lowest};
ghost use Rattle.sdm_rules.specs.Decelerations.{track_gradient};
ghost use Rattle.sdm_rules.specs.Ranges.{steepest, longest_track, longest_train, most_gradients};
ghost use Rattle.sdm_track.specs.Steps.{LiesIn};
ghost use Rattle.sdm_track.specs.Ranges.{AreGradients};
ghost use Rattle.sdm_track.specs.Sweeps.{gradient_at};
ghost use Rattle.sdm_track.specs.Segments.{IsSegment, AreSegments, GoOnWith, segment_gradient};

use crate::sweep::Sweep;
use sdm_num::NoMemory;
use sdm_rules::Gradient;
use std::alloc::Global;
use std::marker::Model;

/// A segment, to the next segment's start.
#[derive(Clone, Copy, Debug, PartialEq, Eq)]
pub struct Segment {
    /// The first cell of the front end.
    pub start: i32,
    /// The gradient in tenths of a per mille, uphill positive.
    pub value: i16,
}

impl Segment {
    /// From the cell of a sweep on, the gradient there.
    fn of_sweep(sweep: &Sweep<'_>) -> Segment
        requires { sweep.now.length_cm ≤ longest_train }
        ensures value { result ≡ record {
          start = sweep.now.at;
          value = gradient_at sweep.now sweep.now.at;
        } }
        ensures in_range { IsSegment result }
    {
        Segment {
            start: sweep.cell() as i32,
            value: sweep.lowest() as i16,
        }
    }
}

/// The gradients under a train of one length, by the cell of its front end: 1 to 1,023 segments whose starts rise from
/// 0, each with another gradient than the one before. (own)
#[derive(Debug, Drop)]
pub struct Segments {
    list: Vec<Segment>,
}

impl Model for Segments {
    ghost use Rattle.std.specs.Prelude.{List};
    ghost use Rattle.sdm_track.specs.declared.under_train.Segment.{Segment};
    ghost use Rattle.sdm_track.specs.Segments.{AreSegments};

    ghost Value = { List Segment };

    ghost view = { λ s. s.list.items };

    ghost invariant = { λ s. AreSegments s.list.items };
}

impl Segments {
    /// How many segments there are.
    pub fn count(&self) -> usize
        ensures value { result ≡ length self.now }
        ensures in_range { AreSegments self.now }
    {
        self.list.len()
    }

    /// The first cell of the segment at an index of the list, counted from 0.
    pub fn start(&self, i: usize) -> i32
        requires { i < length self.now }
        ensures value { option_map (λ s. s.start) (slice_get self.now i) ≡ Some result }
        ensures not_before { pos 0 ≤ℤ result }
        ensures not_past { result <ℤ (pos longest_track +ℤ pos longest_train) }
    {
        self.list[i].start
    }

    /// The gradient of the segment at an index of the list, counted from 0: that of every cell which lies in it.
    pub fn value(&self, i: usize) -> i16
        requires { i < length self.now }
        ensures value { option_map (λ s. s.value) (slice_get self.now i) ≡ Some result }
        ensures downhill { neg_ℤ steepest ≤ℤ result }
        ensures uphill { result ≤ℤ steepest }
        ensures in_its_cells { (c : ℤ) → LiesIn (λ s. s.start) self.now i c → segment_gradient self.now c ≡ result }
    {
        self.list[i].value
    }

    /// The gradient for a front end in the cell; before cell 0 that of the first segment.
    pub fn at(&self, cell: i32) -> i16
        ensures value { result ≡ segment_gradient self.now cell }
        ensures downhill { neg_ℤ steepest ≤ℤ result }
        ensures uphill { result ≤ℤ steepest }
    {
        let begun = self.list.partition_point(|segment| segment.start <= cell);
        self.list[begun.saturating_sub(1)].value
    }
}

/// Adds a segment past the start of the last one, unless the last one has its gradient and so goes on.
#[tactic(auto, using(crate::proofs::SegmentLaws::goes_on_more))]
fn add(list: &mut Vec<Segment>, segment: Segment) -> Result<(), NoMemory>
    requires before { AreSegments list.old.items }
    requires segment { IsSegment segment }
    requires later { All (λ s. s.start <ℤ segment.start) list.old.items }
    requires room { length list.old.items + 1 < 2 * most_gradients }
    ensures value { OnOk result (GoOnWith segment list.old.items list.new.items) }
    ensures in_range { OnOk result (AreSegments list.new.items) }
{
    if list[list.len() - 1].value != segment.value {
        list.push(segment)?;
    }
    Ok(())
}

/// The lowest gradients of the cells from the rear end to the front end of a train of this length in cm.
#[tactic(auto, using(crate::proofs::SegmentLaws::so_far_first, crate::proofs::SegmentLaws::so_far_all))]
pub fn compensated(
    alloc: Global,
    entries: &[Gradient],
    length_cm: u32,
) -> Result<Segments, NoMemory>
    requires gradients { AreGradients (pos longest_track) entries.now }
    requires long { 1 ≤ length_cm }
    requires short { length_cm ≤ longest_train }
    ensures value { IfOk result (λ segments. (c : ℤ) →
        segment_gradient segments c ≡ lowest int_min (track_gradient entries.now) (c -ℤ pos length_cm) length_cm) }
    ensures in_range { IfOk result (λ segments. AreSegments segments) }
{
    let mut sweep = Sweep::begin(alloc, entries, length_cm)?;
    let mut list = Vec::new(alloc);
    list.push(Segment::of_sweep(&sweep))?;
    while sweep.next() {
        add(&mut list, Segment::of_sweep(&sweep))?;
    }
    Ok(Segments { list })
}
