//! A peer that takes answers byte by byte, and keeps them. It tells what it took, unless memory was refused or it was asked for
//! more than to take bytes.

ghost use Rattle.std.specs.Prelude.{◌≡◌, ◌∷◌, ◌<◌, [], false, length, IfOk};
ghost use Rattle.std.specs.Io.{ReadsAtMost, WritesAtMost};
ghost use Rattle.sdm_io.specs.Causes.{HasCause};
ghost use Rattle.sdm_live.specs.Exchanges.{Along, asked, flushed, handed};
ghost use Rattle.sdm_calls.specs.TakenBytes.{history_of};

use sdm_io::Failed;
use sdm_live::Peer;
use std::alloc::Global;

/// The answers. (own)
#[derive(Drop)]
pub struct Answers {
    /// What was taken.
    pub text: Vec<u8>,
    /// Something else was asked of it, or memory was refused.
    pub is_lost: bool,
}

impl Answers {
    /// Nothing was taken.
    pub fn new(alloc: Global) -> Answers
        ensures text { result.text.items ≡ [] }
        ensures kept { result.is_lost ≡ false }
    {
        Answers {
            text: Vec::new(alloc),
            is_lost: false,
        }
    }
}

impl Peer for Answers {
    ghost history = { λ p. history_of p.is_lost p.text.items };

    ghost may_be_asked = { λ _. Unit {0} };

    ghost faults = { λ _. 0 };

    /// It has nothing to give.
    #[tactic(auto, using(crate::proofs::TakenBytes::lost_now))]
    fn ask(&mut self, buffer: &mut [u8]) -> Result<usize, Failed> {
        self.is_lost = true;
        Ok(0)
    }

    /// Takes one byte.
    #[tactic(auto, using(crate::proofs::TakenBytes::lost_now, crate::proofs::TakenBytes::one_more))]
    fn hand(&mut self, piece: &[u8]) -> Result<usize, Failed> {
        let Some((byte, _)) = piece.split_first() else {
            self.is_lost = true;
            return Ok(0);
        };
        if self.text.push(*byte).is_err() {
            self.is_lost = true;
        }
        Ok(1)
    }

    /// It has nobody to give it on to.
    #[tactic(auto, using(crate::proofs::TakenBytes::lost_now))]
    fn flush(&mut self) -> Result<(), Failed> {
        self.is_lost = true;
        Ok(())
    }
}
