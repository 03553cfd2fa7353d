//! A peer over memory that tells what went to and fro: it gives the bytes of an input, a few at a time, takes all, and logs
//! each call. It wants all that was due before it is asked.

ghost use Rattle.std.specs.Prelude.{◌≡◌, ◌∷◌, [], Some, IfSome, IfOk, OnOk, OnErr, length, ◌<◌};
ghost use Rattle.std.specs.Io.{ReadsAtMost, WritesAtMost};
ghost use Rattle.sdm_io.specs.Causes.{HasCause};
ghost use Rattle.sdm_live.specs.Exchanges.{Along, Gave, Given_on, Told, Took};
ghost use Rattle.sdm_live_run.specs.Live.{IsAnsweredLive, IsPromptLive};
ghost use Rattle.sdm_live_run.specs.Memory.{exchange_of, history_of};
ghost use Rattle.sdm_live_run.specs.SameRun.{IsRunLive};

use crate::live_run::sdm_live_main;
use sdm_io::{Failed, NullSink};
use sdm_live::Peer;
use sdm_report::Outcome;
use std::alloc::Global;

/// A call that was made. (own)
#[derive(Drop)]
pub enum Call {
    /// These bytes were given.
    Gave(Vec<u8>),
    /// These were taken.
    Took(Vec<u8>),
    /// What was taken was given on.
    GivenOn,
}

/// The peer over memory. Where memory for its log is refused it tells nothing from then on. (own)
#[derive(Drop)]
pub struct MemoryPeer<'a> {
    alloc: Global,
    rest: &'a [u8],
    most: usize,
    /// The calls so far, the oldest first.
    pub log: Vec<Call>,
    /// Memory for a call was refused, so the log says nothing any more.
    pub lost: bool,
}

impl<'a> MemoryPeer<'a> {
    /// Gives these bytes, at most so many at once.
    pub fn new(alloc: Global, bytes: &'a [u8], most: usize) -> MemoryPeer<'a>
        ensures { history_of result.lost result.log.items ≡ Some [] }
    {
        MemoryPeer {
            alloc,
            rest: bytes,
            most,
            log: Vec::new(alloc),
            lost: false,
        }
    }
}

/// Logs a call. (own)
#[tactic(auto, using(crate::proofs::Logging::noted, crate::proofs::Logging::lost_now))]
fn note(log: &mut Vec<Call>, lost: &mut bool, call: Call)
    ensures { Along (history_of lost.old log.old.items) (history_of lost.new log.new.items)
        (λ h k. k ≡ exchange_of call ∷ h) }
{
    let Ok(()) = log.push(call) else {
        *lost = true;
        return;
    };
}

impl<'a> Peer for MemoryPeer<'a> {
    ghost history = { λ p. history_of p.lost p.log.items };

    ghost may_be_asked = { λ p. Told (history_of p.lost p.log.items) (IsAnsweredLive []) };

    ghost faults = { λ _. 0 };

    #[tactic(auto, using(crate::proofs::Logging::lost_now))]
    fn ask(&mut self, buffer: &mut [u8]) -> Result<usize, Failed> {
        let n = self.most.min(buffer.len().min(self.rest.len()));
        buffer[..n].copy_from_slice(&self.rest[..n]);
        self.rest = &self.rest[n..];
        match buffer[..n].to_vec(self.alloc) {
            Ok(copy) => note(&mut self.log, &mut self.lost, Call::Gave(copy)),
            Err(_) => self.lost = true,
        }
        Ok(n)
    }

    #[tactic(auto, using(crate::proofs::Logging::lost_now))]
    fn hand(&mut self, piece: &[u8]) -> Result<usize, Failed> {
        match piece.to_vec(self.alloc) {
            Ok(copy) => note(&mut self.log, &mut self.lost, Call::Took(copy)),
            Err(_) => self.lost = true,
        }
        Ok(piece.len())
    }

    fn flush(&mut self) -> Result<(), Failed> {
        note(&mut self.log, &mut self.lost, Call::GivenOn);
        Ok(())
    }
}

/// `live` over bytes in memory, with the log of its calls: an instance of the top call, whose clauses can be met together.
pub fn live_in_memory<'a>(alloc: Global, bytes: &'a [u8], most: usize) -> (Outcome, MemoryPeer<'a>)
    ensures prompt { Told (history_of result.1.lost result.1.log.items) (IsPromptLive []) }
    ensures run { result.0 ≡ Outcome.Done → Told (history_of result.1.lost result.1.log.items) (IsRunLive []) }
{
    let mut peer = MemoryPeer::new(alloc, bytes, most);
    let outcome = sdm_live_main(alloc, &mut peer, &mut NullSink::new());
    (outcome, peer)
}
