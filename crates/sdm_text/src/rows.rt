//! A buffer in which a row is put together, so that writing one takes no memory and a sink gets it whole.

ghost use Rattle.std.specs.Prelude.{◌≡◌, ◌+◌, ◌<◌, ◌≤◌, [], ◌∷◌, ◌++◌, length};

use std::marker::Model;

/// The most bytes of a row. (own)
pub const ROW_BYTES: usize = 192;

/// A row in the making, of at most `ROW_BYTES` bytes.
#[derive(Drop)]
pub struct RowBuf {
    /// The row, and after it bytes of no meaning.
    bytes: [u8; ROW_BYTES],
    len: usize,
}

impl Model for RowBuf {
    ghost use Rattle.std.specs.Prelude.{◌≤◌, List, ℕ, take};

    ghost Value = { List ℕ };

    ghost view = { λ b. take b.len b.bytes };

    ghost invariant = { λ b. b.len ≤ 192 };
}

impl RowBuf {
    /// An empty row.
    pub fn new() -> RowBuf
        ensures { result ≡ [] }
    {
        RowBuf {
            bytes: [0; ROW_BYTES],
            len: 0,
        }
    }

    /// The bytes put so far.
    pub fn bytes(&self) -> &[u8]
        ensures value { result.now ≡ self.now }
        ensures bound { length self.now ≤ ROW_BYTES }
    {
        &self.bytes[..self.len]
    }

    /// Takes all bytes out.
    pub fn clear(&mut self)
        ensures { self.new ≡ [] }
    {
        self.len = 0;
    }

    /// Puts one byte.
    pub fn byte(&mut self, b: u8)
        requires { length self.old < ROW_BYTES }
        ensures { self.new ≡ self.old ++ b ∷ [] }
    {
        let len = self.len;
        self.bytes[len] = b;
        self.len = len + 1;
    }

    /// Puts a piece of text as it stands.
    pub fn text(&mut self, piece: &[u8])
        requires { length self.old + length piece.now ≤ ROW_BYTES }
        ensures { self.new ≡ self.old ++ piece.now }
    {
        let end = self.len + piece.len();
        self.bytes[self.len..end].copy_from_slice(piece);
        self.len = end;
    }
}
