//! A source of borrowed bytes and a sink that keeps nothing. Neither ever fails, so over them a program's own faults
//! are the only ones that are left.

ghost use Rattle.std.specs.Prelude.{◌≡◌, ℕ, List, Some, None, Ok, length, min};
ghost use Rattle.std.specs.Io.{ReadsAtMost};
ghost use Rattle.std.specs.Io.KnownBytes.{ReadConsumes};
ghost use Rattle.sdm_io.specs.Causes.{HasCause};

use crate::faults::Failed;
use crate::sinks::Sink;
use crate::sources::Source;
use std::marker::Model;

/// A source of borrowed bytes. (own)
#[derive(Drop)]
pub struct FixedSource<'a> {
    rest: &'a [u8],
}

impl<'a> Model for FixedSource<'a> {
    ghost Value = { List ℕ };

    ghost view = { λ s. s.rest.now };
}

impl<'a> FixedSource<'a> {
    /// All the bytes are left.
    pub fn new(bytes: &'a [u8]) -> FixedSource<'a>
        ensures { result ≡ bytes.now }
    {
        FixedSource { rest: bytes }
    }
}

impl<'a> Source for FixedSource<'a> {
    ghost left = { λ s. Some s };

    ghost faults = { λ _. 0 };

    fn read(&mut self, buf: &mut [u8]) -> Result<usize, Failed>
        ensures bound { ReadsAtMost result buf.new }
        ensures bytes { ReadConsumes (Some self.old) (Some self.new) result buf.new }
        ensures cause { HasCause 0 0 result }

        ensures never_fails { result ≡ Ok (min (length buf.old) (length self.old)) }
    {
        let rest = self.rest;
        let n = buf.len().min(rest.len());
        buf[..n].copy_from_slice(&rest[..n]);
        self.rest = &rest[n..];
        Ok(n)
    }
}

/// A sink that takes every piece whole and keeps nothing. (own)
#[derive(Drop)]
pub struct NullSink;

impl NullSink {
    /// The sink has no contents.
    pub fn new() -> NullSink {
        NullSink
    }
}

impl Sink for NullSink {
    ghost taken = { λ _. None };

    ghost held = { λ _. None };

    ghost faults = { λ _. 0 };

    fn write(&mut self, piece: &[u8]) -> Result<usize, Failed>
        ensures whole { result ≡ Ok (length piece.now) }
    {
        Ok(piece.len())
    }

    fn flush(&mut self) -> Result<(), Failed>
        ensures never_fails { result ≡ Ok tt }
    {
        Ok(())
    }
}
