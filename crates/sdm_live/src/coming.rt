//! A line that comes byte by byte, in room of its own.

ghost use Rattle.std.specs.Prelude.{◌≡◌, ◌∷◌, ◌++◌, ◌<◌, ◌≤◌, [], false, length, take, true};
ghost use Rattle.sdm_live.specs.Lines.{Coming};

use std::marker::Model;

/// The most bytes of a line, without its end. (own)
pub const LONGEST_LINE: usize = 1_024;

/// What has come of a line. (own)
#[derive(Drop)]
pub struct Line {
    /// The line, and after it bytes of no meaning.
    bytes: [u8; LONGEST_LINE],
    len: usize,
    is_over: bool,
}

impl Model for Line {
    ghost Value = { Coming };

    ghost view = { λ l. record { bytes = take l.len l.bytes; is_over = l.is_over } };

    ghost invariant = { λ l. l.len ≤ 1_024 };
}

impl Line {
    /// Nothing has come.
    pub fn new() -> Line
        ensures { result ≡ record { bytes = []; is_over = false } }
    {
        Line {
            bytes: [0; LONGEST_LINE],
            len: 0,
            is_over: false,
        }
    }

    /// How many bytes have come.
    pub fn len(&self) -> usize
        ensures { result ≡ length self.now.bytes }
    {
        self.len
    }

    /// The bytes that have come.
    pub fn bytes(&self) -> &[u8]
        ensures value { result.now ≡ self.now.bytes }
        ensures short { length self.now.bytes ≤ LONGEST_LINE }
    {
        &self.bytes[..self.len]
    }

    /// Whether the line was too long, and what comes up to its end is passed over.
    pub fn is_over(&self) -> bool
        ensures { result ≡ self.now.is_over }
    {
        self.is_over
    }

    /// One more byte has come.
    pub fn push(&mut self, byte: u8)
        requires { length self.old.bytes < LONGEST_LINE }
        ensures { self.new ≡ record self.old { bytes = self.old.bytes ++ byte ∷ [] } }
    {
        let len = self.len;
        self.bytes[len] = byte;
        self.len = len + 1;
    }

    /// The line is too long: what came of it is let go.
    pub fn pass_over(&mut self)
        ensures { self.new ≡ record { bytes = []; is_over = true } }
    {
        self.len = 0;
        self.is_over = true;
    }

    /// The next line begins.
    pub fn clear(&mut self)
        ensures { self.new ≡ record { bytes = []; is_over = false } }
    {
        self.len = 0;
        self.is_over = false;
    }
}
