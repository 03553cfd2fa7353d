//! A source and a sink over memory that fail at chosen calls. They are for tests of programs: the bytes are told, and
//! every fault, short read and short write can be brought about.

ghost use Rattle.std.specs.Prelude.{◌≡◌, ◌↔◌, ◌⊎◌, ◌<◌, ◌≤◌, ◌++◌, Some, [], take, drop, length, min, vec_len};
ghost use Rattle.std.specs.Prelude.{vec_capacity, is_err, IfOk, IsErr, IsTrue};
ghost use Rattle.std.specs.Io.{ReadsAtMost, WritesAtMost};
ghost use Rattle.std.specs.Io.KnownBytes.{Keeps, ReadConsumes, WriteAppends};
ghost use Rattle.sdm_io.specs.Causes.{HasCause};
ghost use Rattle.sdm_io.specs.Memory.{FailsNext, MeetsNoRoom, MemoryInput, MemoryOutput, after_call, fresh_plan};
ghost use Rattle.sdm_io.specs.Memory.{readable, writable};

use crate::faults::Failed;
use crate::plans::Plan;
use crate::sinks::Sink;
use crate::sources::Source;
use sdm_num::NoMemory;
use std::alloc::Global;
use std::marker::Model;

/// A source over memory. (own)
#[derive(Drop)]
pub struct MemSource {
    bytes: Vec<u8>,
    at: usize,
    plan: Plan,
}

impl Model for MemSource {
    ghost Value = { MemoryInput };

    ghost view = { λ s. record { left = drop s.at s.bytes.items; plan = s.plan } };

    ghost invariant = { λ s. s.at ≤ vec_len s.bytes };
}

impl MemSource {
    /// At most `step` bytes a call; a call fails exactly where its number, from 1, stands in `failing`.
    pub fn new(
        alloc: Global,
        bytes: &[u8],
        step: usize,
        failing: &[u32],
    ) -> Result<MemSource, NoMemory>
        requires { 1 ≤ step }
        ensures { IfOk result (λ s. s ≡ record { left = bytes.now; plan = fresh_plan step failing.now }) }
    {
        Ok(MemSource {
            bytes: bytes.to_vec(alloc)?,
            at: 0,
            plan: Plan::new(alloc, step, failing)?,
        })
    }
}

/// Copies as many of the next bytes as fit and are allowed, and says how many.
fn copy_front(rest: &[u8], buf: &mut [u8], most: usize) -> usize
    ensures count { result ≡ min most (min (length buf.old) (length rest.now)) }
    ensures bound { result ≤ length buf.new }
    ensures bytes { rest.now ≡ take result buf.new ++ drop result rest.now }
{
    let n = most.min(buf.len().min(rest.len()));
    buf[..n].copy_from_slice(&rest[..n]);
    n
}

impl Source for MemSource {
    ghost left = { λ s. Some s.left };

    ghost faults = { λ s. s.plan.faults };

    fn read(&mut self, buf: &mut [u8]) -> Result<usize, Failed>
        ensures bound { ReadsAtMost result buf.new }
        ensures bytes { ReadConsumes (Some self.old.left) (Some self.new.left) result buf.new }
        ensures cause { HasCause self.old.plan.faults self.new.plan.faults result }

        ensures fails { IsErr result ↔ FailsNext self.old.plan }
        ensures count { IfOk result (λ n. n ≡ readable self.old (length buf.old)) }
        ensures plan { self.new.plan ≡ after_call self.old.plan (is_err result) }
    {
        if self.plan.next_fails() {
            self.plan.count_fault();
            return Err(Failed);
        }
        let n = copy_front(&self.bytes[self.at..], buf, self.plan.step());
        self.at += n;
        Ok(n)
    }
}

/// A sink over memory, with room for so many bytes. (own)
#[derive(Drop)]
pub struct MemSink {
    bytes: Vec<u8>,
    room: usize,
    plan: Plan,
}

impl Model for MemSink {
    ghost Value = { MemoryOutput };

    ghost view = { λ s. record { taken = s.bytes.items; room = s.room; plan = s.plan } };

    ghost invariant = { λ s. (vec_len s.bytes ≤ s.room) × (s.room ≤ vec_capacity s.bytes) };
}

impl MemSink {
    /// Takes memory for `room` bytes. At most `step` bytes a call; a call fails exactly where its number, from 1,
    /// stands in `failing`, or a piece that is not empty meets no free room. A flush is a call too, and finds nothing
    /// to give on.
    pub fn new(
        alloc: Global,
        room: usize,
        step: usize,
        failing: &[u32],
    ) -> Result<MemSink, NoMemory>
        requires { 1 ≤ step }
        ensures { IfOk result (λ s. s ≡ record { taken = []; room = room; plan = fresh_plan step failing.now }) }
    {
        Ok(MemSink {
            bytes: Vec::with_capacity(alloc, room)?,
            room,
            plan: Plan::new(alloc, step, failing)?,
        })
    }

    /// The bytes taken so far.
    pub fn bytes(&self) -> &[u8]
        ensures { result.now ≡ self.now.taken }
    {
        &self.bytes
    }
}

fn meets_no_room(piece: &[u8], free: usize) -> bool
    ensures { IsTrue result ↔ ((0 < length piece.now) × (free ≡ 0)) }
{
    !piece.is_empty() && free == 0
}

impl Sink for MemSink {
    ghost taken = { λ s. Some s.taken };

    ghost held = { λ _. Some [] };

    ghost faults = { λ s. s.plan.faults };

    fn write(&mut self, piece: &[u8]) -> Result<usize, Failed>
        ensures bound { WritesAtMost result piece.now }
        ensures some { IfOk result (λ n. 0 < length piece.now → 0 < n) }
        ensures bytes { WriteAppends (Some self.old.taken) (Some self.new.taken) result piece.now }
        ensures cause { HasCause self.old.plan.faults self.new.plan.faults result }

        ensures fails { IsErr result ↔ (FailsNext self.old.plan ⊎ MeetsNoRoom self.old piece.now) }
        ensures count { IfOk result (λ n. n ≡ writable self.old piece.now) }
        ensures plan { self.new.plan ≡ after_call self.old.plan (is_err result) }
        ensures room { self.new.room ≡ self.old.room }
    {
        if self.plan.next_fails() {
            self.plan.count_fault();
            return Err(Failed);
        }
        let free = self.room - self.bytes.len();
        if meets_no_room(piece, free) {
            self.plan.count_fault();
            return Err(Failed);
        }
        let n = self.plan.step().min(piece.len().min(free));
        self.bytes.extend_from_slice(&piece[..n]).unwrap();
        Ok(n)
    }

    /// Nothing is held back. The call is one of those that the plan numbers.
    fn flush(&mut self) -> Result<(), Failed>
        ensures bytes { Keeps (Some self.old.taken) (Some self.new.taken) }
        ensures cause { HasCause self.old.plan.faults self.new.plan.faults result }

        ensures fails { IsErr result ↔ FailsNext self.old.plan }
        ensures plan { self.new.plan ≡ after_call self.old.plan (is_err result) }
        ensures room { self.new.room ≡ self.old.room }
    {
        if self.plan.next_fails() {
            self.plan.count_fault();
            return Err(Failed);
        }
        Ok(())
    }
}
