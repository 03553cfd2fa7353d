//! What the reading loop reads, and over how many calls, as tables.

use crate::tests::inputs::{fields_of, natural};
use crate::tests::io::{bytes_of, gives, source_of};
use sdm_io::{FixedSource, MemSource, Unread, read_to_end};
use std::alloc::Global;

/// bytes | step | failing | limit | answer | what the next read gives
const INPUTS: &str = "\
    abc | 9 | - | 3 | ok | .
    abc | 1 | - | 3 | ok | .
    abc | 2 | - | 9 | ok | .
    - | 1 | - | 0 | ok | .
    abcd | 9 | - | 3 | too long | .
    abcdef | 9 | - | 3 | too long | ef
    abcdef | 1 | - | 3 | too long | e
    abcdef | 1 | 5 | 3 | too long | F
    a | 1 | - | 0 | too long | .
    abc | 1 | 1 | 3 | read fault | a
    abc | 1 | 2 | 3 | read fault | b
    abc | 1 | 4 | 3 | read fault | .
    abcd | 1 | 4 | 3 | read fault | d";

/// Whether a reading answers so: with these bytes, or with a cause.
fn is_answer(read: Result<Vec<u8>, Unread>, bytes: &[u8], answer: &str) -> bool {
    match read {
        Ok(read) => answer == "ok" && read.as_slice() == bytes,
        Err(Unread::Fault) => answer == "read fault",
        Err(Unread::TooLong) => answer == "too long",
        Err(Unread::Memory) => answer == "no memory",
    }
}

#[test]
fn an_input_is_read_to_its_end_or_to_one_byte_above_the_limit(
    rt: HostRuntime,
) -> Result<(), &'static str> {
    for line in INPUTS.lines() {
        let [bytes, step, failing, most, answer, next, _] = fields_of(line, '|', 6);
        let most = natural(most)? as usize;
        let Some(mut source) = source_of(rt.alloc(), bytes, step, failing) else {
            return Err("no source");
        };
        let read = read_to_end(rt.alloc(), &mut source, most);
        assert!(rt; is_answer(read, bytes_of(bytes), answer), "{line}");
        assert!(rt; gives(&mut source, 8, next), "{line}");
    }
    Ok(())
}

/// So many bytes, of which neighbours differ.
fn bytes_in_turn(alloc: Global, count: u32) -> Option<Vec<u8>> {
    let mut bytes = Vec::new(alloc);
    for i in 0..count {
        bytes.push((i % 251) as u8).ok()?;
    }
    Some(bytes)
}

#[test]
fn an_input_of_several_blocks_is_read_whole(rt: HostRuntime) -> Result<(), &'static str> {
    let Some(bytes) = bytes_in_turn(rt.alloc(), 150_000) else {
        return Err("no bytes");
    };
    for (most, answer) in [(150_000, "ok"), (usize::MAX, "ok"), (149_999, "too long")] {
        let read = read_to_end(rt.alloc(), &mut FixedSource::new(&bytes), most);
        assert!(rt; is_answer(read, &bytes, answer), "{answer}");
    }
    Ok(())
}

/// bytes | step | the call that tells the end. The first block has 8,192 bytes, and the next one 65,536.
const CALLS: &str = "\
    8191 | 99999 | 2
    8192 | 99999 | 2
    8193 | 99999 | 3
    73728 | 99999 | 3
    73729 | 99999 | 4
    139265 | 99999 | 5
    73729 | 8192 | 11
    73729 | 8191 | 11
    73729 | 4096 | 20";

/// Whether the reading of an input, one of whose calls fails, answers so.
fn answers_failing(
    alloc: Global,
    bytes: &[u8],
    step: usize,
    call: u32,
    most: usize,
    answer: &str,
) -> bool {
    match MemSource::new(alloc, bytes, step.max(1), &[call]) {
        Ok(mut source) => is_answer(read_to_end(alloc, &mut source, most), bytes, answer),
        Err(_) => false,
    }
}

/// Whether the call of this number tells the end of an input.
fn ends_at(alloc: Global, bytes: &[u8], step: usize, last: u32) -> bool {
    let (count, later) = (bytes.len(), last.saturating_add(1));
    answers_failing(alloc, bytes, step, last, count, "read fault")
        && answers_failing(alloc, bytes, step, later, count, "ok")
        && answers_failing(alloc, bytes, step, 0, count.saturating_sub(1), "too long")
}

#[test]
fn a_large_block_follows_a_small_one_that_was_filled(rt: HostRuntime) -> Result<(), &'static str> {
    for line in CALLS.lines() {
        let [count, step, last, ..] = fields_of(line, '|', 3);
        let (count, step, last) = (natural(count)?, natural(step)? as usize, natural(last)?);
        let Some(bytes) = bytes_in_turn(rt.alloc(), count) else {
            return Err("no bytes");
        };
        assert!(rt; ends_at(rt.alloc(), &bytes, step, last), "{line}");
    }
    Ok(())
}
