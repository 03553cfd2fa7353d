//! Where bytes come from.

ghost use Rattle.std.specs.Prelude.{ℕ, List, Option};
ghost use Rattle.std.specs.Io.{ReadsAtMost};
ghost use Rattle.std.specs.Io.KnownBytes.{ReadConsumes};
ghost use Rattle.sdm_io.specs.Causes.{HasCause};

use crate::faults::Failed;

/// Bytes that come in. (own)
pub trait Source {
    /// The bytes that are left, where the source tells them.
    ghost left: { Self → Option (List ℕ) };

    /// How often the source has failed: a count from 0 to 2⁶⁴ − 1, where it stands.
    ghost faults: { Self → ℕ };

    /// Puts the next bytes into a prefix of the buffer and says how many. 0 into a buffer that is not empty is the
    /// end. A call that failed gave nothing.
    fn read(&mut self, buf: &mut [u8]) -> Result<usize, Failed>
        ensures bound { ReadsAtMost result buf.new }
        // 0 into a buffer that is not empty comes only where nothing is left
        ensures bytes { ReadConsumes (left self.old) (left self.new) result buf.new }
        ensures cause { HasCause (faults self.old) (faults self.new) result };
}
