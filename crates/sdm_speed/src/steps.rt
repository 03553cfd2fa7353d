//! Speeds of all cells as steps. They change only where a step starts, so a look at the step in which a cell lies
//! answers for the cell, and the falls are among the starts. A zone lowers them in place: its ends become starts, and
//! each step that it covers takes its limit. A step can take another speed, and go again, where a restriction has
//! gone.

ghost use Rattle.std.specs.Prelude.{◌≡◌, ◌⊎◌, ◌+◌, ◌-◌, ◌+ℤ◌, ◌<◌, ◌≤◌, ℕ, ℤ, pos, [], Some, true, IfOk, length, map, min};
ghost use Rattle.std.specs.Prelude.{drop, IfSome, set, take, slice_index_or, vec_len, vec_capacity};
ghost use Rattle.std.specs.List.{insert};
ghost use Rattle.sdm_rules.specs.Profile.{capped};
ghost use Rattle.sdm_speed.specs.ZoneEnds.{AreSpeedsAt, HasStartsOf};
ghost use Rattle.sdm_speed.specs.Steps.{AreAfter, AreCovered, AreRising, AreRising-prop, ArePartedAt, IsFallAfter};
ghost use Rattle.sdm_speed.specs.Steps.{IsFallStepAfter, IsSplit, IsStart, KeepsStarts, capped_before, capped_step, speed_to};
ghost use Rattle.sdm_speed.specs.Steps.{speeds_of};

use crate::removals::remove_at;
use crate::zones::Zone;
use sdm_num::NoMemory;
use sdm_rules::Fall;
use sdm_search::parted;
use std::alloc::Global;

/// The speed in km/h from a cell on, up to where the next step starts.
#[derive(Clone, Copy, Debug)]
pub struct Step {
    pub start: i32,
    pub speed: u16,
}

/// A speed in km/h for every cell: one before the first step, and steps whose starts rise.
#[derive(Debug, Drop)]
pub struct Steps {
    pub before: u16,
    pub list: Vec<Step>,
    ghost rises: { AreRising list.items } by { AreRising-prop list.items },
}

/// The indices of steps in their list: from the first one up to, but not including, the second.
#[derive(Clone, Copy)]
pub struct Range {
    pub from: usize,
    pub to: usize,
}

/// A fall, and how many steps start at it or before it.
#[derive(Clone, Copy)]
struct FallStep {
    fall: Fall,
    begun: usize,
}

/// The step with at most this speed.
fn lowered(step: Step, limit: u16) -> Step
    ensures { result ≡ record { start = step.start; speed = min limit step.speed } }
{
    Step {
        start: step.start,
        speed: step.speed.min(limit),
    }
}

/// The speed before all steps: at most the zone's limit where the zone has no beginning.
fn capped_before(before: u16, zone: Zone) -> u16
    ensures { result ≡ capped_before zone before }
{
    match zone.first {
        None => before.min(zone.limit),
        Some(_) => before,
    }
}

/// Puts a step at an index of a list that has room for one more; the steps from there on move up.
fn insert_reserved(list: &mut Vec<Step>, i: usize, step: Step)
    requires index { i ≤ vec_len list.old }
    requires room { vec_len list.old < vec_capacity list.old }
    ensures items { list.new.items ≡ insert list.old.items i step }
    ensures len { vec_len list.new ≡ vec_len list.old + 1 }
    ensures room { vec_capacity list.new ≡ vec_capacity list.old }
{
    let len = list.len();
    list.push_reserved(step);
    if i < len {
        list.copy_within(i..len, i + 1);
        list[i] = step;
    }
}

/// The first fall among the steps from an index on, where `speed` holds before them. The steps from there up to it are
/// passed.
fn first_fall(steps: &[Step], from: usize, speed: u16) -> Option<FallStep>
    ensures value { (after : ℤ) → AreAfter after (drop from steps.now) →
        IsFallStepAfter (speeds_of speed (drop from steps.now)) after result }
    ensures further { IfSome result (λ found. from < found.begun) }
    ensures bound { IfSome result (λ found. found.begun ≤ length steps.now) }
    ensures cell { (d : Step) → IfSome result
        (λ found. found.fall.cell ≡ (slice_index_or steps.now (found.begun - 1) d).start) }
{
    let mut before = speed;
    for i in from..steps.len() {
        let step = steps[i];
        if step.speed < before {
            return Some(FallStep {
                fall: Fall {
                    cell: step.start,
                    speed: step.speed,
                },
                begun: i + 1,
            });
        }
        before = step.speed;
    }
    None
}

impl Steps {
    ghost use Rattle.sdm_speed.specs.Speeds.{speeds_in};

    /// One speed in every cell, with room for so many steps.
    pub fn begin(alloc: Global, speed: u16, room: usize) -> Result<Steps, NoMemory>
        ensures before { IfOk result (λ s. s.before ≡ speed) }
        ensures list { IfOk result (λ s. s.list.items ≡ []) }
        ensures room { IfOk result (λ s. vec_capacity s.list ≡ room) }
    {
        let list = Vec::with_capacity(alloc, room)?;
        Ok(Steps {
            before: speed,
            list,
        })
    }

    /// Takes the speeds of others, for whose steps there is room.
    pub fn reset(&mut self, other: &Steps)
        requires { length other.now.list.items ≤ vec_capacity self.old.list }
        ensures before { self.new.before ≡ other.now.before }
        ensures list { self.new.list.items ≡ other.now.list.items }
        ensures room { vec_capacity self.old.list ≤ vec_capacity self.new.list }
    {
        self.before = other.before;
        self.list.clear();
        let Ok(()) = self.list.extend_from_slice(&other.list) else {
            unreachable!()
        };
    }

    /// Whether a step starts at a cell.
    pub fn starts_at(&self, cell: i32) -> bool
        ensures yes { result ≡ true → IsStart cell self.now.list.items }
        ensures no { IsStart cell self.now.list.items → result ≡ true }
    {
        let i = self.started_before(i64::from(cell));
        i < self.list.len() && self.list[i].start == cell
    }

    /// The cell where the step at this index starts.
    pub fn start(&self, i: usize) -> i32
        requires { i < length self.now.list.items }
        ensures { (d : Step) → result ≡ (slice_index_or self.now.list.items i d).start }
    {
        self.list[i].start
    }

    /// Gives the step at this index a speed.
    pub fn set_speed(&mut self, i: usize, speed: u16)
        requires { i < length self.old.list.items }
        ensures before { self.new.before ≡ self.old.before }
        ensures list { (d : Step) → self.new.list.items ≡
            set self.old.list.items i
            (record { start = (slice_index_or self.old.list.items i d).start; speed = speed }) }
        ensures len { vec_len self.new.list ≡ vec_len self.old.list }
        ensures room { vec_capacity self.new.list ≡ vec_capacity self.old.list }
    {
        self.list[i].speed = speed;
    }

    /// How many steps start before a cell.
    fn started_before(&self, cell: i64) -> usize
        ensures { ArePartedAt cell self.now.list.items result }
    {
        parted(&self.list, |step| i64::from(step.start) < cell)
    }

    /// The speed up to where the step at this index starts.
    pub fn speed_to(&self, i: usize) -> u16
        requires { i ≤ length self.now.list.items }
        ensures { result ≡ speed_to self.now.before self.now.list.items i }
    {
        if i == 0 {
            self.before
        } else {
            self.list[i - 1].speed
        }
    }

    /// Takes out the step that starts at a cell, if one does.
    pub fn join(&mut self, cell: i32)
        ensures before { self.new.before ≡ self.old.before }
        ensures speeds { (speed : ℤ → ℕ) → AreSpeedsAt speed self.old.list.items →
            AreSpeedsAt speed self.new.list.items }
        ensures fewer { (c : ℤ) → IsStart c self.new.list.items → IsStart c self.old.list.items }
        ensures gone { IsStart cell self.new.list.items → ⊥ }
        ensures others { (c : ℤ) → IsStart c self.old.list.items → (c ≡ cell) ⊎ IsStart c self.new.list.items }
        ensures room { vec_capacity self.new.list ≡ vec_capacity self.old.list }
    {
        let i = self.started_before(i64::from(cell));
        if i < self.list.len() && self.list[i].start == cell {
            remove_at(&mut self.list, i);
        }
    }

    /// Lets a step start at a cell, for which there is room, and tells how many start before it. No speed changes.
    fn split(&mut self, cell: i32) -> usize
        requires { vec_len self.old.list < vec_capacity self.old.list }
        ensures speeds { (c : ℤ) → speeds_in self.new c ≡ speeds_in self.old c }
        ensures before { self.new.before ≡ self.old.before }
        ensures start { IsStart cell self.new.list.items }
        ensures starts { KeepsStarts self.old.list.items self.new.list.items }
        ensures only { (c : ℤ) → IsStart c self.new.list.items → (c ≡ cell) ⊎ IsStart c self.old.list.items }
        ensures parted { ArePartedAt cell self.new.list.items result }
        ensures parted_before { ArePartedAt cell self.old.list.items result }
        ensures same_before { take result self.new.list.items ≡ take result self.old.list.items }
        ensures few { vec_len self.new.list ≤ vec_len self.old.list + 1 }
        ensures room { vec_capacity self.new.list ≡ vec_capacity self.old.list }
    {
        let i = self.started_before(i64::from(cell));
        if i < self.list.len() && self.list[i].start == cell {
            return i;
        }
        let speed = self.speed_to(i);
        insert_reserved(&mut self.list, i, Step { start: cell, speed });
        i
    }

    /// Lets a step start at an end of a zone, if there is one, and tells how many start before it; else `otherwise`.
    fn split_at(&mut self, end: Option<i32>, otherwise: usize) -> usize
        requires { vec_len self.old.list < vec_capacity self.old.list }
        ensures speeds { (c : ℤ) → speeds_in self.new c ≡ speeds_in self.old c }
        ensures before { self.new.before ≡ self.old.before }
        ensures start { (b : ℤ) → end ≡ Some b → IsStart b self.new.list.items }
        ensures starts { KeepsStarts self.old.list.items self.new.list.items }
        ensures only { (c : ℤ) → IsStart c self.new.list.items → (end ≡ Some c) ⊎ IsStart c self.old.list.items }
        ensures split { IsSplit end otherwise self.old.list.items self.new.list.items result }
        ensures few { vec_len self.new.list ≤ vec_len self.old.list + 1 }
        ensures room { vec_capacity self.new.list ≡ vec_capacity self.old.list }
    {
        match end {
            None => otherwise,
            Some(cell) => self.split(cell),
        }
    }

    /// The indices of the steps whose starts the zone covers.
    pub fn covered(&self, zone: Zone) -> Range
        ensures { AreCovered zone self.now.list.items result.from result.to }
    {
        Range {
            from: match zone.first {
                None => 0,
                Some(first) => self.started_before(i64::from(first)),
            },
            to: match zone.past {
                None => self.list.len(),
                Some(past) => self.started_before(i64::from(past)),
            },
        }
    }

    /// Each step that the zone covers takes at most its limit, and so do the cells before the first step.
    fn cap(&mut self, zone: Zone, covered: Range)
        requires { AreCovered zone self.old.list.items covered.from covered.to }
        ensures before { self.new.before ≡ capped_before zone self.old.before }
        ensures list { self.new.list.items ≡ map (capped_step zone) self.old.list.items }
        ensures len { vec_len self.new.list ≡ vec_len self.old.list }
        ensures room { vec_capacity self.new.list ≡ vec_capacity self.old.list }
    {
        let limit = zone.limit;
        self.before = capped_before(self.before, zone);
        for i in covered.from..covered.to {
            self.list[i] = lowered(self.list[i], limit);
        }
    }

    /// Lowers the speeds to the limit of a zone in the cells that it covers; there is room for two steps more.
    pub fn lower(&mut self, zone: Zone)
        requires { vec_len self.old.list + 2 ≤ vec_capacity self.old.list }
        ensures speeds { (c : ℤ) → speeds_in self.new c ≡ capped c zone (speeds_in self.old c) }
        ensures before { self.new.before ≡ capped_before zone self.old.before }
        ensures starts { HasStartsOf zone self.old.list.items self.new.list.items }
        ensures few { vec_len self.new.list ≤ vec_len self.old.list + 2 }
        ensures room { vec_capacity self.new.list ≡ vec_capacity self.old.list }
    {
        let from = self.split_at(zone.first, 0);
        let all = self.list.len();
        let to = self.split_at(zone.past, all);
        self.cap(zone, Range { from, to });
    }

    /// How many steps start at the cell `after` or before it. They are `near` many as a rule.
    fn begun_near(&self, after: i32, near: usize) -> usize
        ensures { ArePartedAt (after +ℤ pos 1) self.now.list.items result }
    {
        let list = &self.list;
        if near <= list.len()
            && (near == 0 || list[near - 1].start <= after)
            && (near == list.len() || after < list[near].start)
        {
            return near;
        }
        self.started_before(i64::from(after) + 1)
    }

    /// The speed of a cell, for cells that are asked for one after another. `near` is how many steps start at the cell
    /// or before it, as a rule, or one fewer, and then how many do.
    pub fn speed_near(&self, cell: i32, near: &mut usize) -> u16
        ensures { result ≡ speeds_in self.now cell }
    {
        if *near < self.list.len() && self.list[*near].start <= cell {
            *near += 1;
        }
        let begun = self.begun_near(cell, *near);
        *near = begun;
        self.speed_to(begun)
    }

    /// The first fall past the start of the cell `after`. `near` is how many steps start there or before, as a rule,
    /// and then how many do where the fall is. The steps between are passed: a search that begins at the fall goes on
    /// behind them.
    pub fn next_fall(&self, after: i32, near: &mut usize) -> Option<Fall>
        ensures value { IsFallAfter (speeds_in self.now) after result }
        ensures further { IfSome result (λ _. (from : ℕ) →
            ArePartedAt (after +ℤ pos 1) self.now.list.items from → from < near.new) }
        ensures passed { IfSome result (λ fall. ArePartedAt (fall.cell +ℤ pos 1) self.now.list.items near.new) }
    {
        let begun = self.begun_near(after, *near);
        let Some(found) = first_fall(&self.list, begun, self.speed_to(begun)) else {
            return None;
        };
        *near = found.begun;
        Some(found.fall)
    }
}
