//! The lowest gradient under a train, as its front end sweeps over the track from one change to the next. Of the
//! entries under the train only the lows are kept, each of which is below every later one. The first of them is the
//! lowest, and each entry comes and goes once, so that the time is about linear in the entries.

ghost use Rattle.std.specs.Prelude.{◌≡◌, ℕ, ℤ, pos, neg_ℤ, ◌+◌, ◌-◌, ◌*◌, ◌<◌, ◌≤◌, ◌+ℤ◌, ◌-ℤ◌, ◌≤ℤ◌, ◌<ℤ◌};
ghost use Rattle.std.specs.Prelude.{true, false, All, length, IfOk};
ghost use Rattle.std.specs.VecDeque.{deque_capacity};
ghost use Rattle.sdm_rules.specs.Ranges.{steepest, longest_track};
ghost use Rattle.sdm_track.specs.Steps.{LiesIn};
ghost use Rattle.sdm_track.specs.Ranges.{AreGradients};
ghost use Rattle.sdm_track.specs.Sweeps.{gradient_start, gradient_at, AreLows, ends_below, IsFirstChange, IsUpToNext};

use sdm_num::NoMemory;
use sdm_rules::Gradient;
use std::alloc::Global;
use std::collections::VecDeque;
use std::marker::Model;
use std::ops::Range;

/// The lowest gradient under a train of one length, whose front end moves on from cell 0 to each cell where an entry
/// comes under the train or leaves it. (own)
#[derive(Drop)]
pub struct Sweep<'a> {
    entries: &'a [Gradient],
    length_cm: u32,
    /// The index of the entry in which the rear end lies.
    rear: usize,
    /// The index of the entry in which the front end lies.
    front: usize,
    /// The cell of the front end.
    at: u64,
    /// The indices of the entries from the rear one to the front one that are below every later one.
    lows: VecDeque<usize>,
}

impl<'a> Model for Sweep<'a> {
    ghost use Rattle.std.specs.Prelude.{pos};
    ghost use Rattle.std.specs.VecDeque.{deque_capacity};
    ghost use Rattle.sdm_track.specs.Sweeps.{Swept, IsSweep, still_left};

    ghost Value = { Swept };

    ghost view = { λ s. record {
      entries = s.entries.now;
      length_cm = s.length_cm;
      at = pos s.at;
      left = still_left s.entries.now s.rear s.front;
    } };

    ghost invariant = { λ s.
        IsSweep s.entries.now s.length_cm s.rear s.front (pos s.at) s.lows.items (deque_capacity s.lows) };
}

/// The first cell where the entry after the one at `front` comes under the front end or the one at `rear` leaves.
fn first_change(entries: &[Gradient], length_cm: u32, rear: usize, front: usize) -> u64
    requires gradients { AreGradients (pos longest_track) entries.now }
    requires more { rear + 1 < length entries.now }
    requires known { front < length entries.now }
    ensures { IsFirstChange entries.now length_cm rear front (pos result) }
{
    let leaves = entries[rear + 1].start as u64 + u64::from(length_cm);
    if front + 1 < entries.len() {
        return leaves.min(entries[front + 1].start as u64);
    }
    leaves
}

/// The entry in which the cell `back` cm before a cell lies: the one at `index`, or the next where it starts there.
fn entry_at(entries: &[Gradient], index: usize, cell: u64, back: u32) -> usize
    requires gradients { AreGradients (pos longest_track) entries.now }
    requires near { IsUpToNext entries.now index (pos cell -ℤ pos back) }
    ensures lies { LiesIn gradient_start entries.now result (pos cell -ℤ pos back) }
    ensures not_back { index ≤ result }
    ensures by_one { result ≤ index + 1 }
{
    match entries.get(index + 1) {
        Some(next) if next.start as u64 + u64::from(back) <= cell => index + 1,
        _ => index,
    }
}

/// Whether the last low, if there is one, is below the entry at `index`.
fn end_below(lows: &VecDeque<usize>, entries: &[Gradient], index: usize) -> bool
    requires entry { index < length entries.now }
    requires earlier { All (λ low. low < index) lows.now.items }
    ensures { result ≡ ends_below entries.now lows.now.items index }
{
    match lows.back() {
        Some(&last) => entries[last].grad < entries[index].grad,
        None => true,
    }
}

/// Takes the entry after the old ones in among their lows, in place of those that are not below it.
#[tactic(auto, using(crate::proofs::LowLaws::comes_in_last))]
fn take_in(lows: &mut VecDeque<usize>, entries: &[Gradient], old: Range<usize>)
    requires entry { old.end < length entries.now }
    requires lows { AreLows entries.now old.start old.end lows.old.items }
    requires room { length entries.now ≤ deque_capacity lows.old }
    requires some { old.start < old.end }
    ensures lows { AreLows entries.now old.start (old.end + 1) lows.new.items }
    ensures room { deque_capacity lows.new ≡ deque_capacity lows.old }
{
    let index = old.end;
    while !end_below(lows, entries, index) {
        lows.pop_back();
    }
    lows.push_back_reserved(index);
}

/// The lows of the new entries in place of those of the old ones: at most one comes in, and at most one goes.
fn follow(lows: &mut VecDeque<usize>, entries: &[Gradient], old: Range<usize>, new: Range<usize>)
    requires known { new.end ≤ length entries.now }
    requires lows { AreLows entries.now old.start old.end lows.old.items }
    requires room { length entries.now ≤ deque_capacity lows.old }
    requires some { old.start < old.end }
    requires some_left { new.start < new.end }
    requires from { old.start ≤ new.start }
    requires one_goes { new.start ≤ old.start + 1 }
    requires to { old.end ≤ new.end }
    requires one_comes { new.end ≤ old.end + 1 }
    ensures lows { AreLows entries.now new.start new.end lows.new.items }
    ensures room { deque_capacity lows.new ≡ deque_capacity lows.old }
{
    if old.end < new.end {
        take_in(lows, entries, old);
    }
    if lows[0] < new.start {
        lows.pop_front();
    }
}

impl<'a> Sweep<'a> {
    /// The front end in cell 0. Takes room for the lows; want of memory is the only error.
    #[tactic(auto, using(crate::proofs::SweepLaws::sweep_first, crate::proofs::SweepLaws::same_before))]
    pub fn begin(
        alloc: Global,
        entries: &'a [Gradient],
        length_cm: u32,
    ) -> Result<Sweep<'a>, NoMemory>
        requires { AreGradients (pos longest_track) entries.now }
        ensures begun { IfOk result (λ sweep. sweep ≡ record {
          entries = entries.now;
          length_cm = length_cm;
          at = pos 0;
          left = 2 * (length entries.now - 1);
        }) }
        ensures before { IfOk result (λ sweep. (c : ℤ) → c ≤ℤ pos 0 → gradient_at sweep c ≡ gradient_at sweep (pos 0)) }
    {
        let mut lows = VecDeque::with_capacity(alloc, entries.len())?;
        lows.push_back(0)?;
        Ok(Sweep {
            entries,
            length_cm,
            rear: 0,
            front: 0,
            at: 0,
            lows,
        })
    }

    /// The cell of the front end, in cm.
    pub fn cell(&self) -> u64
        ensures value { pos result ≡ self.now.at }
        ensures not_past { pos result <ℤ (pos longest_track +ℤ pos self.now.length_cm) }
    {
        self.at
    }

    /// The lowest gradient under the train, in tenths of a per mille; 0 without entries.
    pub fn lowest(&self) -> i64
        ensures value { result ≡ gradient_at self.now self.now.at }
        ensures downhill { neg_ℤ steepest ≤ℤ result }
        ensures uphill { result ≤ℤ steepest }
    {
        match self.entries.get(self.lows[0]) {
            Some(entry) => entry.grad,
            None => 0,
        }
    }

    /// Moves the front end on to the next cell where an entry comes or goes; false where there is none any more.
    #[tactic(auto, using(crate::proofs::SweepLaws::moves_on))]
    pub fn next(&mut self) -> bool
        ensures entries { self.new.entries ≡ self.old.entries }
        ensures train { self.new.length_cm ≡ self.old.length_cm }
        ensures later { result ≡ true → self.old.at <ℤ self.new.at }
        ensures fewer { result ≡ true → self.new.left < self.old.left }
        ensures same { result ≡ true → (c : ℤ) → self.old.at ≤ℤ c → c <ℤ self.new.at →
            gradient_at self.old c ≡ gradient_at self.old self.old.at }
        ensures last { result ≡ false → (c : ℤ) → self.old.at ≤ℤ c →
            gradient_at self.old c ≡ gradient_at self.old self.old.at }
        ensures stays { result ≡ false → self.new ≡ self.old }
    {
        if self.entries.len() <= self.rear + 1 {
            return false;
        }
        let change = first_change(self.entries, self.length_cm, self.rear, self.front);
        let rear = entry_at(self.entries, self.rear, change, self.length_cm);
        let front = entry_at(self.entries, self.front, change, 0);
        follow(
            &mut self.lows,
            self.entries,
            self.rear..self.front + 1,
            rear..front + 1,
        );
        self.rear = rear;
        self.front = front;
        self.at = change;
        true
    }
}
