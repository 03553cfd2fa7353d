//! Bytes become lines, and a step takes each line as soon as it is whole.

ghost use Rattle.std.specs.Prelude.{◌≡◌, ◌∷◌, ◌≤◌, [], length, OnOk, OnErr};
ghost use Rattle.sdm_io.specs.Causes.{HasCause};
ghost use Rattle.sdm_live.specs.Exchanges.{Along};
ghost use Rattle.sdm_live.specs.Progress.{Rules, ends_line, longest_line};
ghost use Rattle.sdm_live.specs.Taken.{IsEnded, IsEndedPart, IsTaken, IsTakenPart};

use crate::coming::{LONGEST_LINE, Line};
use crate::peers::{Peer, hand_over};
use sdm_io::Failed;

/// Takes lines, one after the other, and answers each. (own)
pub trait Step {
    /// What a line makes of the state, what is told of it, and what is told of a line that is too long.
    ghost rules: { Rules Self };

    /// Takes a line that is not empty, without its end.
    fn take(&mut self, line: &[u8])
        requires { length line.now ≤ longest_line }
        ensures { self.new ≡ rules.next self.old line.now };

    /// The text that is told of the line taken last.
    fn told(&self) -> &[u8]
        ensures { result.now ≡ rules.told self.now };

    /// The text that is told of a line that is too long.
    fn too_long(&self) -> &[u8]
        ensures { result.now ≡ rules.too_long };
}

/// Whether a byte ends a line.
fn ends_line(byte: u8) -> bool
    ensures { result ≡ ends_line byte }
{
    byte == b'\n' || byte == b'\r'
}

/// The line ends: the step takes it, if it has a byte, and what it tells of it is handed over. (own)
pub fn end_line<S: Step, P: Peer>(step: &mut S, line: &mut Line, peer: &mut P) -> Result<(), Failed>
    ensures ok { OnOk result (Along (P.history peer.old) (P.history peer.new)
        (IsEnded S.rules step.old line.old step.new line.new)) }
    ensures err { OnErr result (Along (P.history peer.old) (P.history peer.new)
        (IsEndedPart S.rules step.old line.old)) }
    ensures cause { HasCause (P.faults peer.old) (P.faults peer.new) result }
{
    if line.len() == 0 {
        line.clear();
        return Ok(());
    }
    step.take(line.bytes());
    line.clear();
    hand_over(peer, step.told())
}

/// Takes the next byte: one of a line, or the end of one.
fn take_byte<S: Step, P: Peer>(
    step: &mut S,
    line: &mut Line,
    byte: u8,
    peer: &mut P,
) -> Result<(), Failed>
    ensures ok { OnOk result (Along (P.history peer.old) (P.history peer.new)
        (IsTaken S.rules step.old line.old (byte ∷ []) step.new line.new)) }
    ensures err { OnErr result (Along (P.history peer.old) (P.history peer.new)
        (IsTakenPart S.rules step.old line.old (byte ∷ []))) }
    ensures cause { HasCause (P.faults peer.old) (P.faults peer.new) result }
{
    if ends_line(byte) {
        return end_line(step, line, peer);
    }
    if line.is_over() {
        return Ok(());
    }
    if line.len() < LONGEST_LINE {
        line.push(byte);
        return Ok(());
    }
    line.pass_over();
    hand_over(peer, step.too_long())
}

/// Takes the next piece of the stream, however it was cut: all that it makes due is handed over. (own)
pub fn feed<S: Step, P: Peer>(
    step: &mut S,
    line: &mut Line,
    piece: &[u8],
    peer: &mut P,
) -> Result<(), Failed>
    ensures ok { OnOk result (Along (P.history peer.old) (P.history peer.new)
        (IsTaken S.rules step.old line.old piece.now step.new line.new)) }
    ensures err { OnErr result (Along (P.history peer.old) (P.history peer.new)
        (IsTakenPart S.rules step.old line.old piece.now)) }
    ensures cause { HasCause (P.faults peer.old) (P.faults peer.new) result }
{
    for byte in piece {
        take_byte(step, line, *byte, peer)?;
    }
    Ok(())
}
