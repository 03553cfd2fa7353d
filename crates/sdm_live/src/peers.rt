//! The other end of the line: it gives bytes, and takes bytes.

ghost use Rattle.std.specs.Prelude.{◌≡◌, ◌∷◌, ◌<◌, ℕ, Option, length, IfOk, OnOk, OnErr};
ghost use Rattle.std.specs.Io.{ReadsAtMost, WritesAtMost};
ghost use Rattle.sdm_io.specs.Causes.{HasCause};
ghost use Rattle.sdm_live.specs.Exchanges.{Along, History, IsHanded, IsHandedPart, asked, flushed, handed};

use sdm_io::Failed;

/// The other end of the line. (own)
pub trait Peer {
    /// What went to and fro, where the peer tells it.
    ghost history: { Self → Option History };

    /// What its caller owes it before it asks for more.
    ghost may_be_asked: { Self → Type 0 };

    /// How often the peer has failed: a count from 0 to 2⁶⁴ − 1, where it stands.
    ghost faults: { Self → ℕ };

    /// Asks for more: puts the next bytes into a prefix of the buffer and says how many. 0 into a buffer that is not
    /// empty is the end. It may take as long as the peer likes.
    fn ask(&mut self, buffer: &mut [u8]) -> Result<usize, Failed>
        requires { may_be_asked self.old }
        ensures bound { ReadsAtMost result buffer.new }
        ensures told { Along (history self.old) (history self.new) (λ h k. k ≡ asked result buffer.new ∷ h) }
        ensures cause { HasCause (faults self.old) (faults self.new) result };

    /// Takes a prefix of a piece and says how many bytes that were.
    fn hand(&mut self, piece: &[u8]) -> Result<usize, Failed>
        ensures bound { WritesAtMost result piece.now }
        // a piece that is not empty gives at least one byte
        ensures some { IfOk result (λ n. 0 < length piece.now → 0 < n) }
        ensures told { Along (history self.old) (history self.new) (λ h k. k ≡ handed result piece.now ∷ h) }
        ensures cause { HasCause (faults self.old) (faults self.new) result };

    /// Gives on what it took and holds back.
    fn flush(&mut self) -> Result<(), Failed>
        ensures told { Along (history self.old) (history self.new) (λ h k. k ≡ flushed result ∷ h) }
        ensures cause { HasCause (faults self.old) (faults self.new) result };
}

/// Hands over a whole piece. Where the peer fails, it took a prefix of the piece. (own)
pub fn hand_over<P: Peer>(peer: &mut P, piece: &[u8]) -> Result<(), Failed>
    ensures ok { OnOk result (Along (P.history peer.old) (P.history peer.new) (λ h k. IsHanded h k piece.now)) }
    ensures err { OnErr result (Along (P.history peer.old) (P.history peer.new) (λ h k. IsHandedPart h k piece.now)) }
    ensures cause { HasCause (P.faults peer.old) (P.faults peer.new) result }
{
    let mut at = 0;
    while at < piece.len() {
        let n = peer.hand(&piece[at..])?;
        at += n;
    }
    Ok(())
}
