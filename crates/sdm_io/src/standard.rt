//! The adapters over the standard streams: the trusted edge. No contract can say what a stream holds, so they tell no
//! bytes; they are proved to count each fault, and the one with a block is proved to hold nothing back after a flush.
//! A call that the system interrupted is made again, as often as the library's own loops do that; then it is a fault.

ghost use Rattle.std.specs.Prelude.{◌≡◌, ◌<◌, ℕ, List, [], None, Some, length, is_err, if◌then◌else◌, IfOk, OnOk};
ghost use Rattle.std.specs.Io.{ReadsAtMost, WritesAtMost};
ghost use Rattle.std.specs.Io.Buffered.{writer_buffer};
ghost use Rattle.sdm_io.specs.Causes.{HasCause, next_count};
ghost use Rattle.sdm_io.specs.Told.{HoldsNothing};
ghost use Rattle.sdm_io.specs.Blocks.{BlockOutput};

use crate::faults::Failed;
use crate::sinks::Sink;
use crate::sources::Source;
use sdm_num::NoMemory;
use std::alloc::Global;
use std::io::{BufWriter, ErrorKind, Read, Write};
use std::marker::Model;

/// One read, made again where the system interrupted it.
fn read_once<R: Read>(inner: &mut R, buf: &mut [u8]) -> Result<usize, Failed>
    ensures { ReadsAtMost result buf.new }
{
    for _ in 0..u64::MAX {
        match inner.read(buf) {
            Ok(n) => return Ok(n),
            Err(error) if error.kind() == ErrorKind::Interrupted => {}
            Err(_) => return Err(Failed),
        }
    }
    Err(Failed)
}

/// One write, likewise. A writer that takes nothing of a piece that is not empty would never come to its end, so that
/// is a failure.
#[inline(always)]
fn write_once<W: Write>(inner: &mut W, piece: &[u8]) -> Result<usize, Failed>
    ensures bound { WritesAtMost result piece.now }
    ensures some { IfOk result (λ n. 0 < length piece.now → 0 < n) }
{
    for _ in 0..u64::MAX {
        match inner.write(piece) {
            Ok(n) if n > 0 || piece.is_empty() => return Ok(n),
            Err(error) if error.kind() == ErrorKind::Interrupted => {}
            _ => return Err(Failed),
        }
    }
    Err(Failed)
}

/// One flush, likewise.
fn flush_once<W: Write>(inner: &mut W) -> Result<(), Failed> {
    for _ in 0..u64::MAX {
        match inner.flush() {
            Ok(()) => return Ok(()),
            Err(error) if error.kind() == ErrorKind::Interrupted => {}
            Err(_) => return Err(Failed),
        }
    }
    Err(Failed)
}

/// One flush of a block, likewise.
fn flush_block<W: Write + Drop>(block: &mut BufWriter<W>) -> Result<(), Failed>
    ensures { OnOk result (writer_buffer block.new ≡ []) }
{
    for _ in 0..u64::MAX {
        match block.flush() {
            Ok(()) => return Ok(()),
            Err(error) if error.kind() == ErrorKind::Interrupted => {}
            Err(_) => return Err(Failed),
        }
    }
    Err(Failed)
}

/// A source over a reader, as standard input. Contracts see its count of faults. (own)
#[derive(Drop)]
pub struct StdSource<R> {
    inner: R,
    faults: u64,
}

impl<R> Model for StdSource<R> {
    ghost Value = { ℕ };

    ghost view = { λ s. s.faults };
}

impl<R: Read> StdSource<R> {
    /// No fault so far.
    pub fn new(inner: R) -> StdSource<R>
        ensures no_fault { result ≡ 0 }
    {
        StdSource { inner, faults: 0 }
    }
}

impl<R: Read> Source for StdSource<R> {
    ghost left = { λ _. None };

    ghost faults = { λ s. s };

    fn read(&mut self, buf: &mut [u8]) -> Result<usize, Failed>
        ensures bound { ReadsAtMost result buf.new }
        ensures cause { HasCause self.old self.new result }
        ensures counted { self.new ≡ (if is_err result then next_count self.old else self.old) }
    {
        let answer = read_once(&mut self.inner, buf);
        self.faults = self.faults.saturating_add(u64::from(answer.is_err()));
        answer
    }
}

/// A sink over a writer, as standard error. Contracts see its count of faults. (own)
#[derive(Drop)]
pub struct StdSink<W> {
    inner: W,
    faults: u64,
}

impl<W> Model for StdSink<W> {
    ghost Value = { ℕ };

    ghost view = { λ s. s.faults };
}

impl<W: Write> StdSink<W> {
    /// No fault so far.
    pub fn new(inner: W) -> StdSink<W>
        ensures no_fault { result ≡ 0 }
    {
        StdSink { inner, faults: 0 }
    }
}

impl<W: Write> Sink for StdSink<W> {
    ghost taken = { λ _. None };

    ghost held = { λ _. None };

    ghost faults = { λ s. s };

    fn write(&mut self, piece: &[u8]) -> Result<usize, Failed>
        ensures bound { WritesAtMost result piece.now }
        ensures some { IfOk result (λ n. 0 < length piece.now → 0 < n) }
        ensures cause { HasCause self.old self.new result }
        ensures counted { self.new ≡ (if is_err result then next_count self.old else self.old) }
    {
        let answer = write_once(&mut self.inner, piece);
        self.faults = self.faults.saturating_add(u64::from(answer.is_err()));
        answer
    }

    fn flush(&mut self) -> Result<(), Failed>
        ensures cause { HasCause self.old self.new result }
        ensures counted { self.new ≡ (if is_err result then next_count self.old else self.old) }
    {
        let answer = flush_once(&mut self.inner);
        self.faults = self.faults.saturating_add(u64::from(answer.is_err()));
        answer
    }
}

/// The bytes of a block: 64 KiB. (own)
const BLOCK: usize = 65_536;

/// A sink that gathers a block before it writes, over a writer as standard output. Contracts see what it holds back
/// and its count of faults. (own)
pub struct BlockSink<W: Write + Drop> {
    inner: BufWriter<W>,
    faults: u64,
}

impl<W: Write + Drop> Model for BlockSink<W> {
    ghost Value = { BlockOutput };

    ghost view = { λ s. record { held = writer_buffer s.inner; faults = s.faults } };
}

impl<W: Write + Drop> BlockSink<W> {
    /// Takes memory for the block. Nothing is held back, and no fault so far.
    pub fn new(alloc: Global, inner: W) -> Result<BlockSink<W>, NoMemory>
        ensures { IfOk result (λ s. s ≡ record { held = []; faults = 0 }) }
    {
        match BufWriter::with_capacity(alloc, BLOCK, inner) {
            Ok(inner) => Ok(BlockSink { inner, faults: 0 }),
            Err(_) => Err(NoMemory),
        }
    }
}

impl<W: Write + Drop> Sink for BlockSink<W> {
    ghost taken = { λ _. None };

    ghost held = { λ s. Some s.held };

    ghost faults = { λ s. s.faults };

    // In line in each loop over records: a call would cost a reading some 60 instructions.
    #[inline(always)]
    fn write(&mut self, piece: &[u8]) -> Result<usize, Failed>
        ensures bound { WritesAtMost result piece.now }
        ensures some { IfOk result (λ n. 0 < length piece.now → 0 < n) }
        ensures cause { HasCause self.old.faults self.new.faults result }
        ensures counted { self.new.faults ≡ (if is_err result then next_count self.old.faults else self.old.faults) }
    {
        let answer = write_once(&mut self.inner, piece);
        self.faults = self.faults.saturating_add(u64::from(answer.is_err()));
        answer
    }

    fn flush(&mut self) -> Result<(), Failed>
        ensures given_on { OnOk result (HoldsNothing (Some self.new.held)) }
        ensures cause { HasCause self.old.faults self.new.faults result }
        ensures counted { self.new.faults ≡ (if is_err result then next_count self.old.faults else self.old.faults) }
    {
        let answer = flush_block(&mut self.inner);
        self.faults = self.faults.saturating_add(u64::from(answer.is_err()));
        answer
    }
}

impl<W: Write + Drop> Drop for BlockSink<W> {
    /// What is held back after a failed flush is let go: the library's block would write it once more.
    fn drop(self) {
        let BlockSink { inner, faults: _ } = self;
        let (_writer, _held) = inner.into_parts();
    }
}
