//! The peer at the other end of two streams. No contract can say what a stream gives or takes, so it tells no history;
//! its faults are those of the streams, and each of its calls is one of theirs. Where a source tells what is left, or a
//! sink what it took and holds back, so do its clauses.

ghost use Rattle.std.specs.Prelude.{◌≡◌, ◌∷◌, ◌+◌, ◌<◌, None, length, IfOk, OnOk};
ghost use Rattle.std.specs.Io.{ReadsAtMost, WritesAtMost};
ghost use Rattle.std.specs.Io.KnownBytes.{Keeps, ReadConsumes, WriteAppends};
ghost use Rattle.sdm_io.specs.Causes.{HasCause};
ghost use Rattle.sdm_io.specs.Told.{HoldsNothing};

use sdm_io::{Failed, Sink, Source};
use sdm_live::Peer;

/// The peer over a source and a sink. (own)
#[derive(Drop)]
pub struct StreamPeer<I, O> {
    pub input: I,
    pub out: O,
}

impl<I: Source, O: Sink> StreamPeer<I, O> {
    /// The peer that gives what the source gives and takes what the sink takes.
    pub fn new(input: I, out: O) -> StreamPeer<I, O>
        ensures { result ≡ record { input = input; out = out } }
    {
        StreamPeer { input, out }
    }
}

impl<I: Source, O: Sink> Peer for StreamPeer<I, O> {
    ghost history = { λ _. None };

    ghost may_be_asked = { λ _. Unit {0} };

    ghost faults = { λ p. I.faults p.input + O.faults p.out };

    /// Gives what the source gives.
    #[tactic(auto, using(crate::proofs::Composing::rose_beside))]
    fn ask(&mut self, buffer: &mut [u8]) -> Result<usize, Failed>
        ensures bound { ReadsAtMost result buffer.new }
        ensures given { ReadConsumes (I.left self.old.input) (I.left self.new.input) result buffer.new }
        ensures quiet { self.new.out ≡ self.old.out }
        ensures cause { HasCause (I.faults self.old.input + O.faults self.old.out)
            (I.faults self.new.input + O.faults self.new.out) result }
    {
        self.input.read(buffer)
    }

    /// Hands the piece to the sink, which takes a prefix of it after all that it took before.
    fn hand(&mut self, piece: &[u8]) -> Result<usize, Failed>
        ensures bound { WritesAtMost result piece.now }
        ensures some { IfOk result (λ n. 0 < length piece.now → 0 < n) }
        ensures taken { WriteAppends (O.taken self.old.out) (O.taken self.new.out) result piece.now }
        ensures unread { self.new.input ≡ self.old.input }
        ensures cause { HasCause (I.faults self.old.input + O.faults self.old.out)
            (I.faults self.new.input + O.faults self.new.out) result }
    {
        self.out.write(piece)
    }

    /// Has the sink give on what it took and holds back.
    fn flush(&mut self) -> Result<(), Failed>
        ensures given_on { OnOk result (HoldsNothing (O.held self.new.out)) }
        ensures taken { Keeps (O.taken self.old.out) (O.taken self.new.out) }
        ensures unread { self.new.input ≡ self.old.input }
        ensures cause { HasCause (I.faults self.old.input + O.faults self.old.out)
            (I.faults self.new.input + O.faults self.new.out) result }
    {
        self.out.flush()
    }
}
