//! The loop: it asks only where all that was due is with the peer.

ghost use Rattle.std.specs.Prelude.{◌≡◌, ◌⊎◌, ◌≤◌, OnErr, OnOk};
ghost use Rattle.sdm_io.specs.Causes.{HasCause, Rose};
ghost use Rattle.sdm_live.specs.Answers.{IsLiveAnswer};
ghost use Rattle.sdm_live.specs.Exchanges.{Along, IsAnswered, IsPrompt};
ghost use Rattle.sdm_live.specs.Moments.{due_after, whole_after};
ghost use Rattle.sdm_live.specs.Taken.{IsEndedPart, IsPieceAnswered, IsRestAnswered, IsTakenPart};

use crate::coming::Line;
use crate::lines::{Step, end_line, feed};
use crate::peers::Peer;
use sdm_io::Failed;

/// How it ended. (own)
#[derive(Clone, Copy, Debug, PartialEq, Eq)]
pub enum Ended {
    /// The input came to its end.
    Done,
    /// The peer failed to give.
    ReadFault,
    /// The peer failed to take, or to give on.
    WriteFault,
    /// 2⁶⁴ − 1 reads were not enough.
    Endless,
}

/// The most bytes that are asked for at once. (own)
const BLOCK: usize = 65_536;

/// Takes the next piece of the stream, and has the peer give on all that it makes due.
fn answer_piece<S: Step, P: Peer>(
    step: &mut S,
    line: &mut Line,
    piece: &[u8],
    peer: &mut P,
) -> Result<(), Failed>
    ensures ok { OnOk result (Along (P.history peer.old) (P.history peer.new)
        (IsPieceAnswered S.rules step.old line.old piece.now step.new line.new)) }
    ensures err { OnErr result (Along (P.history peer.old) (P.history peer.new)
        (IsTakenPart S.rules step.old line.old piece.now)) }
    ensures cause { HasCause (P.faults peer.old) (P.faults peer.new) result }
{
    feed(step, line, piece, peer)?;
    peer.flush()
}

/// Takes the last line, and has the peer give on what is told of it.
fn answer_rest<S: Step, P: Peer>(step: &mut S, line: &mut Line, peer: &mut P) -> Result<(), Failed>
    ensures ok { OnOk result (Along (P.history peer.old) (P.history peer.new)
        (IsRestAnswered S.rules step.old line.old step.new line.new)) }
    ensures err { OnErr result (Along (P.history peer.old) (P.history peer.new)
        (IsEndedPart S.rules step.old line.old)) }
    ensures cause { HasCause (P.faults peer.old) (P.faults peer.new) result }
{
    end_line(step, line, peer)?;
    peer.flush()
}

/// Answers each line as soon as it has come, after the bytes that were given to begin with: whenever it asks for more,
/// all that was due is with the peer. (own)
pub fn serve<S: Step, P: Peer>(step: &mut S, given: &[u8], peer: &mut P) -> Ended
    // at each moment at which it asks, whether the peer ever answers or not
    requires may_ask { (p : P) → Along (P.history peer.old) (P.history p)
        (IsAnswered (due_after S.rules step.old given.now)) → P.may_be_asked p }

    // looked back on from the end
    ensures prompt { Along (P.history peer.old) (P.history peer.new)
        (IsPrompt (due_after S.rules step.old given.now)) }
    ensures answer { Along (P.history peer.old) (P.history peer.new)
        (λ h k. IsLiveAnswer (due_after S.rules step.old given.now) (whole_after S.rules step.old given.now) h result
        k) }

    // a fault is answered only where it was counted
    ensures later { P.faults peer.old ≤ P.faults peer.new }
    ensures fault { (result ≡ Ended.ReadFault) ⊎ (result ≡ Ended.WriteFault)
        → Rose (P.faults peer.old) (P.faults peer.new) }
{
    let mut line = Line::new();
    let Ok(()) = answer_piece(step, &mut line, given, peer) else {
        return Ended::WriteFault;
    };
    let mut block = [0u8; BLOCK];
    'reads: for asks in 0..u64::MAX {
        let Ok(n) = peer.ask(&mut block) else {
            return Ended::ReadFault;
        };
        if n == 0 {
            let Ok(()) = answer_rest(step, &mut line, peer) else {
                return Ended::WriteFault;
            };
            return Ended::Done;
        }
        let Ok(()) = answer_piece(step, &mut line, &block[..n], peer) else {
            return Ended::WriteFault;
        };
    }
    Ended::Endless
}
