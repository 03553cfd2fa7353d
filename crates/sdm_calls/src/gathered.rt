//! A sink that gathers what it takes, in memory that grows.

ghost use Rattle.std.specs.Prelude.{◌≡◌, ◌<◌, Some, [], length, is_err, if◌then◌else◌, IfOk};
ghost use Rattle.std.specs.Io.{WritesAtMost};
ghost use Rattle.std.specs.Io.KnownBytes.{Keeps, WriteAppends};
ghost use Rattle.sdm_io.specs.Causes.{HasCause, next_count};
ghost use Rattle.sdm_calls.specs.Gathered.{GatheredBytes};

use sdm_io::{Failed, Sink};
use std::alloc::Global;
use std::marker::Model;

/// What was taken. It fails where memory for a piece is refused. (own)
#[derive(Drop)]
pub struct Gathered {
    bytes: Vec<u8>,
    faults: u64,
}

impl Model for Gathered {
    ghost Value = { GatheredBytes };

    ghost view = { λ s. record { taken = s.bytes.items; faults = s.faults } };
}

impl Gathered {
    /// Nothing was taken.
    pub fn new(alloc: Global) -> Gathered
        ensures { result ≡ record { taken = []; faults = 0 } }
    {
        Gathered {
            bytes: Vec::new(alloc),
            faults: 0,
        }
    }

    /// The bytes taken so far.
    pub fn bytes(&self) -> &[u8]
        ensures { result.now ≡ self.now.taken }
    {
        &self.bytes
    }
}

impl Sink for Gathered {
    ghost taken = { λ s. Some s.taken };

    ghost held = { λ _. Some [] };

    ghost faults = { λ s. s.faults };

    fn write(&mut self, piece: &[u8]) -> Result<usize, Failed>
        ensures bound { WritesAtMost result piece.now }
        ensures some { IfOk result (λ n. 0 < length piece.now → 0 < n) }
        ensures bytes { WriteAppends (Some self.old.taken) (Some self.new.taken) result piece.now }
        ensures cause { HasCause self.old.faults self.new.faults result }

        ensures whole { IfOk result (λ n. n ≡ length piece.now) }
        ensures counted { self.new.faults ≡ (if is_err result then next_count self.old.faults else self.old.faults) }
    {
        let answer = self.bytes.extend_from_slice(piece);
        self.faults = self.faults.saturating_add(u64::from(answer.is_err()));
        match answer {
            Ok(()) => Ok(piece.len()),
            Err(_) => Err(Failed),
        }
    }

    /// Nothing is held back.
    fn flush(&mut self) -> Result<(), Failed>
        ensures bytes { Keeps (Some self.old.taken) (Some self.new.taken) }
        ensures cause { HasCause self.old.faults self.new.faults result }

        ensures unchanged { self.new ≡ self.old }
    {
        Ok(())
    }
}
