//! What each call moves at short steps, at chosen failures and at want of room, as tables; and what no clause says:
//! how the adapters answer a stream that fails. `F` stands for a failure, `.` for the end of a source, `-` for
//! nothing, and `!` for a flush.

mod reading;

use crate::tests::inputs::{fields_of, natural};
use sdm_io::{
    BlockSink, Failed, FixedSource, MemSink, MemSource, NullSink, Sink, Source, StdSink, StdSource,
    Unread, write_piece,
};
use std::alloc::Global;
use std::io;

/// The numbers of a field, of which `-` has none; nothing where one is no number, or for want of memory.
fn numbers_of(alloc: Global, field: &str) -> Option<Vec<u32>> {
    let mut numbers = Vec::new(alloc);
    for word in field.split_whitespace() {
        if word != "-" {
            numbers.push(word.parse::<u32>().ok()?).ok()?;
        }
    }
    Some(numbers)
}

fn bytes_of(word: &str) -> &[u8] {
    if word == "-" { b"" } else { word.as_bytes() }
}

fn source_of(alloc: Global, bytes: &str, step: &str, failing: &str) -> Option<MemSource> {
    let step = step.parse::<usize>().ok()?.max(1);
    let failing = numbers_of(alloc, failing)?;
    MemSource::new(alloc, bytes_of(bytes), step, &failing).ok()
}

fn sink_of(alloc: Global, room: &str, step: &str, failing: &str) -> Option<MemSink> {
    let room = room.parse::<usize>().ok()?;
    let step = step.parse::<usize>().ok()?.max(1);
    let failing = numbers_of(alloc, failing)?;
    MemSink::new(alloc, room, step, &failing).ok()
}

/// What one read into a buffer of so many bytes answers.
fn read_answer<'a, S: Source>(source: &mut S, buf: &'a mut [u8]) -> &'a [u8] {
    match source.read(buf) {
        Ok(0) => b".",
        Ok(n) => &buf[..n],
        Err(Failed) => b"F",
    }
}

/// step | failing | buffer | answers
const READS: &str = "\
    8 | - | 8 | abcdefg . .
    3 | - | 8 | abc def g . .
    8 | - | 2 | ab cd ef g .
    1 | - | 8 | a b c d e f g .
    3 | 1 3 | 8 | F abc F def g . .
    3 | 3 1 3 | 8 | F abc F def g . .
    3 | 4 5 | 8 | abc def g F F .
    3 | 0 | 8 | abc def g .
    3 | 2 | 0 | . F . .";

/// Whether reads into a buffer of so many bytes, 8 at most, are answered so.
fn gives<S: Source>(source: &mut S, size: usize, answers: &str) -> bool {
    let mut buf = [0u8; 8];
    for answer in answers.split_whitespace() {
        if read_answer(source, &mut buf[..size.min(8)]) != answer.as_bytes() {
            return false;
        }
    }
    true
}

#[test]
fn a_source_over_memory_gives_its_bytes_by_its_plan(rt: HostRuntime) -> Result<(), &'static str> {
    for line in READS.lines() {
        let [step, failing, buffer, answers, ..] = fields_of(line, '|', 4);
        let size = natural(buffer)? as usize;
        let Some(mut source) = source_of(rt.alloc(), "abcdefg", step, failing) else {
            return Err("no source");
        };
        assert!(rt; gives(&mut source, size, answers), "{line}");
    }
    Ok(())
}

/// Whether a sink answers so to a piece, or to a flush.
fn takes(sink: &mut MemSink, piece: &str, answer: &str) -> bool {
    if piece == "!" {
        return match sink.flush() {
            Ok(()) => answer == "ok",
            Err(Failed) => answer == "F",
        };
    }
    match sink.write(bytes_of(piece)) {
        Ok(n) => answer.parse::<usize>().ok() == Some(n),
        Err(Failed) => answer == "F",
    }
}

/// room | step | failing | pieces | answers | taken
const WRITES: &str = "\
    9 | 9 | - | abc ! de ! | 3 ok 2 ok | abcde
    9 | 9 | 2 | abc ! ! de | 3 F ok 2 | abcde
    9 | 9 | 1 3 | ! abc de ! | F 3 F ok | abc
    0 | 9 | 2 | ! ! | ok F | -
    9 | 9 | - | abc de | 3 2 | abcde
    9 | 2 | - | abc c de | 2 1 2 | abcde
    4 | 9 | - | abc def ef | 3 1 F | abcd
    4 | 2 | - | abc cdef ef - | 2 2 F 0 | abcd
    9 | 9 | 1 3 | abc abc de de | F 3 F 2 | abcde
    9 | 9 | 2 | abc - de | 3 F 2 | abcde
    0 | 1 | - | a - | F 0 | -";

#[test]
fn a_sink_over_memory_takes_by_its_plan_and_its_room(rt: HostRuntime) -> Result<(), &'static str> {
    for line in WRITES.lines() {
        let [room, step, failing, pieces, answers, taken, _] = fields_of(line, '|', 6);
        let Some(mut sink) = sink_of(rt.alloc(), room, step, failing) else {
            return Err("no sink");
        };
        for (piece, answer) in pieces.split_whitespace().zip(answers.split_whitespace()) {
            assert!(rt; takes(&mut sink, piece, answer), "{piece} of {line}");
        }
        assert!(rt; sink.bytes() == bytes_of(taken), "{line}");
    }
    Ok(())
}

#[test]
fn a_fixed_source_and_a_null_sink_never_fail(rt: HostRuntime) {
    assert!(rt; gives(&mut FixedSource::new(b"abc"), 2, "ab c ."));
    assert!(rt; NullSink::new().write(b"abc") == Ok(3));
    assert!(rt; NullSink::new().flush() == Ok(()));
}

/// room | step | failing | piece | answer | taken
const PIECES: &str = "\
    9 | 9 | - | abcde | ok | abcde
    9 | 1 | - | abcde | ok | abcde
    5 | 2 | - | abcde | ok | abcde
    9 | 1 | 4 | abcde | F | abc
    9 | 2 | 3 | abcde | F | abcd
    9 | 2 | 1 | abcde | F | -
    3 | 2 | - | abcde | F | abc
    9 | 1 | 6 | abcde | ok | abcde
    0 | 1 | 1 | - | ok | -";

#[test]
fn a_piece_is_taken_whole_or_a_front_of_it(rt: HostRuntime) -> Result<(), &'static str> {
    for line in PIECES.lines() {
        let [room, step, failing, piece, answer, taken, _] = fields_of(line, '|', 6);
        let Some(mut sink) = sink_of(rt.alloc(), room, step, failing) else {
            return Err("no sink");
        };
        let is_whole = write_piece(&mut sink, bytes_of(piece)).is_ok();
        assert!(rt; is_whole == (answer == "ok"), "{line}");
        assert!(rt; sink.bytes() == bytes_of(taken), "{line}");
    }
    Ok(())
}

/// The calls of a stream that fails at each one of an odd number.
#[derive(Drop)]
struct Calls {
    made: u8,
    failure: io::ErrorKind,
}

impl Calls {
    /// None so far.
    fn new(failure: io::ErrorKind) -> Calls {
        Calls { made: 0, failure }
    }

    /// The number of the next call, which counts from 1.
    fn next(&mut self) -> io::Result<u8> {
        self.made = self.made.saturating_add(1);
        if self.made % 2 == 1 {
            return Err(io::Error::from(self.failure));
        }
        Ok(self.made)
    }
}

/// A reader that gives one byte at a call that does not fail.
#[derive(Drop)]
struct UnsteadyReader<'a> {
    bytes: &'a [u8],
    calls: Calls,
}

impl<'a> io::Read for UnsteadyReader<'a> {
    fn read(&mut self, buf: &mut [u8]) -> io::Result<usize> {
        self.calls.next()?;
        let n = buf.len().min(self.bytes.len()).min(1);
        buf[..n].copy_from_slice(&self.bytes[..n]);
        self.bytes = &self.bytes[n..];
        Ok(n)
    }
}

/// A writer that keeps one byte at a call that does not fail, but nothing at its fourth.
#[derive(Drop)]
struct UnsteadyWriter<'a> {
    kept: &'a mut Vec<u8>,
    calls: Calls,
}

impl<'a> io::Write for UnsteadyWriter<'a> {
    fn write(&mut self, piece: &[u8]) -> io::Result<usize> {
        let n = if self.calls.next()? == 4 {
            0
        } else {
            piece.len().min(1)
        };
        match self.kept.extend_from_slice(&piece[..n]) {
            Ok(()) => Ok(n),
            Err(_) => Err(io::Error::from(io::ErrorKind::OutOfMemory)),
        }
    }

    fn flush(&mut self) -> io::Result<()> {
        self.calls.next()?;
        Ok(())
    }
}

/// A source of two bytes that fails at each odd call.
fn unsteady_source(failure: io::ErrorKind) -> StdSource<UnsteadyReader<'static>> {
    StdSource::new(UnsteadyReader {
        bytes: b"ab",
        calls: Calls::new(failure),
    })
}

#[test]
fn a_reader_that_fails_is_a_fault_and_never_an_end(rt: HostRuntime) {
    let mut source = unsteady_source(io::ErrorKind::TimedOut);
    assert!(rt; gives(&mut source, 8, "F a F b F . F"));
}

#[test]
fn an_interrupted_read_is_made_again(rt: HostRuntime) {
    let mut source = unsteady_source(io::ErrorKind::Interrupted);
    assert!(rt; gives(&mut source, 8, "a b . ."));
}

/// Whether a sink over an unsteady writer answers so to pieces and then to flushes.
fn takes_unsteadily(
    kept: &mut Vec<u8>,
    failure: io::ErrorKind,
    pieces: &[(&[u8], Result<usize, Failed>)],
    flushes: &[Result<(), Failed>],
) -> bool {
    let calls = Calls::new(failure);
    let mut sink = StdSink::new(UnsteadyWriter { kept, calls });
    for (piece, answer) in pieces {
        if sink.write(piece) != *answer {
            return false;
        }
    }
    for answer in flushes {
        if sink.flush() != *answer {
            return false;
        }
    }
    true
}

#[test]
fn a_writer_that_fails_or_takes_nothing_is_a_fault(rt: HostRuntime) {
    let mut kept = Vec::new(rt.alloc());
    let pieces = [
        (b"ab".as_slice(), Err(Failed)),
        (b"cd".as_slice(), Ok(1)),
        (b"ef".as_slice(), Err(Failed)),
        (b"gh".as_slice(), Err(Failed)),
        (b"ij".as_slice(), Err(Failed)),
        (b"".as_slice(), Ok(0)),
    ];
    let flushes = [Err(Failed), Ok(())];
    assert!(rt; takes_unsteadily(&mut kept, io::ErrorKind::TimedOut, &pieces, &flushes));
    assert!(rt; kept.as_slice() == b"c".as_slice());
}

#[test]
fn an_interrupted_write_or_flush_is_made_again(rt: HostRuntime) {
    let mut kept = Vec::new(rt.alloc());
    let pieces = [
        (b"ab".as_slice(), Ok(1)),
        (b"cd".as_slice(), Err(Failed)),
        (b"ef".as_slice(), Ok(1)),
    ];
    assert!(rt; takes_unsteadily(&mut kept, io::ErrorKind::Interrupted, &pieces, &[Ok(())]));
    assert!(rt; kept.as_slice() == b"ae".as_slice());
}

/// What reaches a writer of pieces that go over a block: of a flush at the end, or of none.
fn blocked(alloc: Global, pieces: &[&[u8]], is_flushed: bool) -> Option<Vec<u8>> {
    let mut written = Vec::new(alloc);
    let mut sink = BlockSink::new(alloc, &mut written).ok()?;
    for piece in pieces {
        write_piece(&mut sink, piece).ok()?;
    }
    if is_flushed {
        sink.flush().ok()?;
    }
    drop(sink);
    Some(written)
}

/// Whether these bytes, and no others, reach the writer.
fn is_blocked(alloc: Global, pieces: &[&[u8]], is_flushed: bool, wanted: &[u8]) -> bool {
    match blocked(alloc, pieces, is_flushed) {
        Some(written) => written.as_slice() == wanted,
        None => false,
    }
}

#[test]
fn a_block_is_written_when_it_is_full_or_flushed(rt: HostRuntime) -> Result<(), &'static str> {
    let alloc = rt.alloc();
    let pieces = [b"abc".as_slice(), b"de".as_slice()];
    assert!(rt; is_blocked(alloc, &pieces, false, b""));
    assert!(rt; is_blocked(alloc, &pieces, true, b"abcde"));
    let large = [b'a'; 65_535];
    let pieces = [large.as_slice(), b"de".as_slice()];
    assert!(rt; is_blocked(alloc, &pieces, false, &large));
    let Some(written) = blocked(alloc, &pieces, true) else {
        return Err("nothing written");
    };
    assert!(rt; written.len() == 65_537);
    Ok(())
}

/// A writer that fails, and counts its calls.
#[derive(Drop)]
struct Full<'a> {
    calls: &'a mut u32,
}

impl<'a> io::Write for Full<'a> {
    fn write(&mut self, _piece: &[u8]) -> io::Result<usize> {
        *self.calls = self.calls.saturating_add(1);
        Err(io::Error::from(io::ErrorKind::StorageFull))
    }

    fn flush(&mut self) -> io::Result<()> {
        Ok(())
    }
}

#[test]
fn what_a_failed_flush_left_is_not_written_again(rt: HostRuntime) -> Result<(), &'static str> {
    let mut calls = 0;
    let Ok(mut sink) = BlockSink::new(rt.alloc(), Full { calls: &mut calls }) else {
        return Err("no memory");
    };
    assert!(rt; sink.write(b"abc") == Ok(3));
    assert!(rt; sink.flush() == Err(Failed));
    drop(sink);
    assert!(rt; calls == 1);
    Ok(())
}

#[test]
fn the_answers_have_texts(rt: HostRuntime) -> Result<(), &'static str> {
    let Ok(text) = format!(in rt.alloc();
        "{Failed}, {}, {}, {}",
        Unread::Fault,
        Unread::TooLong,
        Unread::Memory
    ) else {
        return Err("no memory");
    };
    assert!(rt; text.as_str() == "failed, read fault, too long, no memory");
    Ok(())
}
