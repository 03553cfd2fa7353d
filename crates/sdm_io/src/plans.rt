//! The plan by which a source or a sink over memory behaves. Both fail in the same way, at calls that are chosen by
//! their numbers, so that a test can make any one call of a program fail.

ghost use Rattle.std.specs.Prelude.{◌≡◌, ◌↔◌, ◌+◌, ◌≤◌, Contains, IfOk, IsTrue};
ghost use Rattle.sdm_io.specs.Causes.{next_count};
ghost use Rattle.sdm_io.specs.Memory.{CallPlan, FailsNext, fresh_plan};

use sdm_num::NoMemory;
use std::alloc::Global;
use std::marker::Model;

/// How many bytes a call moves at most, which calls fail, and what was counted so far. (own)
#[derive(Drop)]
pub struct Plan {
    step: usize,
    failing: Vec<u32>,
    calls: u64,
    faults: u64,
}

impl Model for Plan {
    ghost Value = { CallPlan };

    ghost view = { λ p. record { step = p.step; failing = p.failing.items; calls = p.calls; faults = p.faults } };

    ghost invariant = { λ p. 1 ≤ p.step };
}

/// After so many calls, the next one's number is among those that fail.
fn is_next(failing: &[u32], calls: u64) -> bool
    ensures { IsTrue result ↔ Contains failing.now (calls + 1) }
{
    calls < u64::from(u32::MAX) && failing.contains(&(calls as u32 + 1))
}

impl Plan {
    /// No call was made yet.
    pub fn new(alloc: Global, step: usize, failing: &[u32]) -> Result<Plan, NoMemory>
        requires { 1 ≤ step }
        ensures { IfOk result (λ plan. plan ≡ fresh_plan step failing.now) }
    {
        Ok(Plan {
            step,
            failing: failing.to_vec(alloc)?,
            calls: 0,
            faults: 0,
        })
    }

    /// The most bytes that a call moves.
    pub fn step(&self) -> usize
        ensures value { result ≡ self.now.step }
        ensures range { 1 ≤ result }
    {
        self.step
    }

    /// Counts the next call. True exactly where the plan says that it fails.
    pub fn next_fails(&mut self) -> bool
        ensures fails { IsTrue result ↔ FailsNext self.old }
        ensures counted { self.new ≡ record self.old { calls = next_count self.old.calls } }
    {
        let fails = is_next(&self.failing, self.calls);
        self.calls = self.calls.saturating_add(1);
        fails
    }

    /// Counts a fault.
    pub fn count_fault(&mut self)
        ensures counted { self.new ≡ record self.old { faults = next_count self.old.faults } }
        ensures later { self.old.faults ≤ self.new.faults }
    {
        self.faults = self.faults.saturating_add(1);
    }
}
