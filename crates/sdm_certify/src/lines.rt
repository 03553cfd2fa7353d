//! The lines of a certificate text, read one after the other.

ghost use Rattle.std.specs.Prelude.{◌≡◌, suc, [], ◌∷◌, ◌≤◌, length, IfSome, IfNone};
ghost use Rattle.sdm_formats.specs.Input.{most_bytes};
ghost use Rattle.sdm_certify.specs.Lines.{lines_in};

use sdm_text::{split_line, without_lf};
use std::marker::Model;

/// A line that isn't of the form due at its place, or is wanting, by its number from 1.
#[derive(Clone, Copy, Debug, PartialEq, Eq)]
pub struct BadLine {
    pub number: u32,
}

/// The lines that are left of a text.
#[derive(Drop)]
pub struct Lines<'a> {
    rest: &'a [u8],
    /// That of the first line that is left.
    number: u32,
}

impl<'a> Model for Lines<'a> {
    ghost use Rattle.std.specs.Prelude.{◌+◌, ◌≤◌, length};
    ghost use Rattle.sdm_formats.specs.Input.{most_bytes};
    ghost use Rattle.sdm_formats.specs.Lines.{lines_of};
    ghost use Rattle.sdm_certify.specs.Lines.{LinesLeft};

    ghost Value = { LinesLeft };

    ghost view = { λ l. record { number = l.number; lines = lines_of l.rest.now } };

    ghost invariant = { λ l. l.number + length l.rest.now ≤ most_bytes + 1 };
}

impl<'a> Lines<'a> {
    /// All lines of a text.
    pub fn of(text: &'a [u8]) -> Lines<'a>
        requires { length text.now ≤ most_bytes }
        ensures { result ≡ lines_in text.now }
    {
        Lines {
            rest: text,
            number: 1,
        }
    }

    /// The same lines once more.
    pub fn again(&self) -> Lines<'a>
        ensures { result ≡ self.now }
    {
        Lines {
            rest: self.rest,
            number: self.number,
        }
    }

    /// The next line, which is bad.
    pub fn bad(&self) -> BadLine
        ensures { result.number ≡ self.now.number }
    {
        BadLine {
            number: self.number,
        }
    }

    /// Takes the next line, if one is left.
    pub fn take(&mut self) -> Option<&'a [u8]>
        ensures line { IfSome result (λ line. self.old.lines ≡ line.now ∷ self.new.lines) }
        ensures number { IfSome result (λ line. self.new.number ≡ suc self.old.number) }
        ensures none { IfNone result (self.old.lines ≡ []) }
    {
        let (line, rest) = split_line(self.rest)?;
        self.rest = rest;
        self.number += 1;
        Some(without_lf(line))
    }
}
