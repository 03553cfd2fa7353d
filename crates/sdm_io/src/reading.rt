//! The reading loop. It asks for one byte more than the limit allows and never for two, so an input that is too long
//! is known at the first byte above the limit, and nothing past that byte is taken. A block is cleared before it is
//! read into, so the first one is small, and a large one takes its place only where a read filled it.

ghost use Rattle.std.specs.Prelude.{◌≡◌, ◌≢◌, ◌+◌, ◌<◌, ◌≤◌, length, Ok, Err, IfOk, OnOk, OnErr, IsErrOf};
ghost use Rattle.std.specs.Io.KnownBytes.{IsAtEnd, Keeps};
ghost use Rattle.sdm_io.specs.Causes.{Rose};
ghost use Rattle.sdm_io.specs.Told.{KeepsMore, KeepsRead, ReadsExactly, ReadsWithin, Told};

use crate::sources::Source;
use std::alloc::Global;
use thiserror::Error;

/// Why an input was not read to its end. (own)
#[derive(Clone, Copy, Debug, PartialEq, Eq, Error)]
pub enum Unread {
    /// The source failed.
    #[error("read fault")]
    Fault,

    /// More bytes came than the limit allows.
    #[error("too long")]
    TooLong,

    /// Memory for the bytes was refused.
    #[error("no memory")]
    Memory,
}

/// The bytes of the first block: 8 KiB. Most inputs are shorter than that, and clearing more would be most of their
/// start.
const FIRST_BLOCK: usize = 8_192;

/// The bytes of the block for what is longer, and the most that are asked for at once: 64 KiB, so that it takes few
/// calls.
const BLOCK: usize = 65_536;

/// How far the reading over a block came.
#[derive(Clone, Copy, Debug, PartialEq, Eq)]
enum Reached {
    /// The end of the input.
    End,

    /// A read that filled the block, so that there may be more.
    FullBlock,
}

/// One turn of the reading loop, with so many bytes still free below the limit: the next bytes are kept after those
/// before. Says how many; none at the end of the input alone.
#[inline(always)]
fn read_chunk<I: Source>(
    input: &mut I,
    block: &mut [u8],
    free: usize,
    bytes: &mut Vec<u8>,
) -> Result<usize, Unread>
    requires some { 0 < length block.old }

    ensures more { IfOk result
        (λ n. 0 < n → KeepsMore (I.left input.old) (I.left input.new) bytes.old.items bytes.new.items) }
    ensures count { IfOk result (λ n. length bytes.new.items ≡ length bytes.old.items + n) }
    ensures free { IfOk result (λ n. n ≤ free) }
    ensures last { result ≡ Ok 0 → IsAtEnd (I.left input.new) }
    ensures kept { result ≡ Ok 0 → bytes.new ≡ bytes.old }

    ensures within { ReadsWithin (I.left input.old) (I.left input.new) (free + 1) }
    ensures not_above { result ≢ Err Unread.TooLong → ReadsWithin (I.left input.old) (I.left input.new) free }
    ensures one_above { result ≡ Err Unread.TooLong → ReadsExactly (I.left input.old) (I.left input.new) (free + 1) }
    ensures none { result ≡ Ok 0 → Keeps (I.left input.old) (I.left input.new) }

    ensures later { I.faults input.old ≤ I.faults input.new }
    ensures fault { result ≡ Err Unread.Fault → Rose (I.faults input.old) (I.faults input.new) }
{
    let asked = free.min(block.len() - 1) + 1;
    let Ok(n) = input.read(&mut block[..asked]) else {
        return Err(Unread::Fault);
    };
    if n == 0 {
        return Ok(0);
    }
    if n > free {
        return Err(Unread::TooLong);
    }
    if bytes.extend_from_slice(&block[..n]).is_err() {
        return Err(Unread::Memory);
    }
    Ok(n)
}

/// Reads over a block, with so many bytes still free below the limit: to the end of the input, or until a read filled
/// the block.
#[inline(always)]
fn read_blocks<I: Source>(
    input: &mut I,
    block: &mut [u8],
    mut free: usize,
    bytes: &mut Vec<u8>,
) -> Result<Reached, Unread>
    requires some { 0 < length block.old }

    ensures kept { OnOk result (KeepsRead (I.left input.old) (I.left input.new) bytes.old.items bytes.new.items) }
    ensures free { OnOk result (length bytes.new.items ≤ length bytes.old.items + free) }
    ensures end { result ≡ Ok Reached.End → IsAtEnd (I.left input.new) }
    ensures more { result ≡ Ok Reached.FullBlock → length bytes.old.items < length bytes.new.items }

    ensures within { OnErr result (ReadsWithin (I.left input.old) (I.left input.new) (free + 1)) }
    ensures not_above { OnErr result
        (result ≢ Err Unread.TooLong → ReadsWithin (I.left input.old) (I.left input.new) free) }
    ensures one_above { result ≡ Err Unread.TooLong → ReadsExactly (I.left input.old) (I.left input.new) (free + 1) }

    ensures later { I.faults input.old ≤ I.faults input.new }
    ensures fault { result ≡ Err Unread.Fault → Rose (I.faults input.old) (I.faults input.new) }
{
    'chunks: loop {
        match read_chunk(input, block, free, bytes) {
            Ok(0) => return Ok(Reached::End),
            Ok(n) if n == block.len() => return Ok(Reached::FullBlock),
            Ok(n) => free -= n,
            Err(unread) => return Err(unread),
        }
    }
}

/// Reads the input to its end, which comes after at most `most` bytes. Errors: Fault, only where the source failed;
/// TooLong, exactly where one byte more came; Memory. Each turn but the last takes at least one byte. (own)
pub fn read_to_end<I: Source>(alloc: Global, input: &mut I, most: usize) -> Result<Vec<u8>, Unread>
    ensures whole { IfOk result (λ v. Told (I.left input.old) (λ bytes. v.items ≡ bytes)) }
    ensures end { OnOk result (IsAtEnd (I.left input.new)) }
    ensures short { IfOk result (λ v. length v.items ≤ most) }

    ensures within { ReadsWithin (I.left input.old) (I.left input.new) (most + 1) }
    ensures not_above { result ≢ Err Unread.TooLong → ReadsWithin (I.left input.old) (I.left input.new) most }
    ensures one_above { IsErrOf result Unread.TooLong → ReadsExactly (I.left input.old) (I.left input.new) (most + 1) }
    ensures too_long { IsErrOf result Unread.TooLong → Told (I.left input.old) (λ bytes. most < length bytes) }

    ensures later { I.faults input.old ≤ I.faults input.new }
    ensures fault { IsErrOf result Unread.Fault → Rose (I.faults input.old) (I.faults input.new) }
{
    let mut bytes = Vec::new(alloc);
    let mut first = [0u8; FIRST_BLOCK];
    match read_blocks(input, &mut first, most, &mut bytes) {
        Ok(Reached::End) => return Ok(bytes),
        Ok(Reached::FullBlock) => {}
        Err(unread) => return Err(unread),
    }
    let mut block = [0u8; BLOCK];
    'large: loop {
        let free = most - bytes.len();
        match read_blocks(input, &mut block, free, &mut bytes) {
            Ok(Reached::End) => return Ok(bytes),
            Ok(Reached::FullBlock) => {}
            Err(unread) => return Err(unread),
        }
    }
}
