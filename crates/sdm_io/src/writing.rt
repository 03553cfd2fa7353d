//! The writing loop. It goes over `Sink::write` alone, so that what the sink took is known after a fault too.

ghost use Rattle.std.specs.Prelude.{OnOk, OnErr};
ghost use Rattle.std.specs.Io.KnownBytes.{Appends};
ghost use Rattle.sdm_io.specs.Causes.{HasCause};
ghost use Rattle.sdm_io.specs.Told.{AppendsPart};

use crate::faults::Failed;
use crate::sinks::Sink;

/// Writes a whole piece. Where the sink fails, it took a prefix of the piece.
// In line a short row costs no call of its own.
#[inline(always)]
pub fn write_piece<K: Sink>(sink: &mut K, piece: &[u8]) -> Result<(), Failed>
    ensures ok { OnOk result (Appends (K.taken sink.old) (K.taken sink.new) piece.now) }
    ensures err { OnErr result (AppendsPart (K.taken sink.old) (K.taken sink.new) piece.now) }
    ensures cause { HasCause (K.faults sink.old) (K.faults sink.new) result }
{
    let mut at = 0;
    while at < piece.len() {
        let n = sink.write(&piece[at..])?;
        at += n;
    }
    Ok(())
}
