//! Where bytes go to.

ghost use Rattle.std.specs.Prelude.{ℕ, ◌<◌, List, Option, length, IfOk, OnOk};
ghost use Rattle.std.specs.Io.{WritesAtMost};
ghost use Rattle.std.specs.Io.KnownBytes.{Keeps, WriteAppends};
ghost use Rattle.sdm_io.specs.Causes.{HasCause};
ghost use Rattle.sdm_io.specs.Told.{HoldsNothing};

use crate::faults::Failed;

/// Bytes that go out. (own)
pub trait Sink {
    /// The bytes that were taken, where the sink tells them.
    ghost taken: { Self → Option (List ℕ) };

    /// Those of the bytes taken that were not given on yet, where the sink tells them.
    ghost held: { Self → Option (List ℕ) };

    /// How often the sink has failed: a count from 0 to 2⁶⁴ − 1, where it stands.
    ghost faults: { Self → ℕ };

    /// Takes a prefix of a piece and says how many bytes that were. A call that failed took nothing.
    fn write(&mut self, piece: &[u8]) -> Result<usize, Failed>
        ensures bound { WritesAtMost result piece.now }
        // a piece that is not empty gives at least one byte
        ensures some { IfOk result (λ n. 0 < length piece.now → 0 < n) }
        ensures bytes { WriteAppends (taken self.old) (taken self.new) result piece.now }
        ensures cause { HasCause (faults self.old) (faults self.new) result };

    /// Gives on what was taken and is held back, and takes nothing further. A call that failed may have given on a
    /// prefix of it.
    fn flush(&mut self) -> Result<(), Failed>
        ensures bytes { Keeps (taken self.old) (taken self.new) }
        ensures given_on { OnOk result (HoldsNothing (held self.new)) }
        ensures cause { HasCause (faults self.old) (faults self.new) result };
}
