//! The data part of a live input, which is read up to the line that divides it from the records.

ghost use Rattle.std.specs.Prelude.{◌≡◌, ◌≢◌, ◌≤◌, [], Err, IfErr, IfNone, IfOk, IfSome, length, take, true};
ghost use Rattle.sdm_io.specs.Causes.{Rose};
ghost use Rattle.sdm_data.specs.Division.{divide};
ghost use Rattle.sdm_live.specs.Exchanges.{Along, Told, is_given_on};
ghost use Rattle.sdm_live_data.specs.Divisions.{IsDivision, IsLastLine};
ghost use Rattle.sdm_live_data.specs.Waiting.{IsGatherEnd, IsGathered, IsWaiting, IsWaitingPrompt};

use memchr::memrchr;
use sdm_data::split;
use sdm_live::Peer;
use sdm_report::{InputFault, Outcome};
use std::alloc::Global;

/// The most bytes of a data part, with its dividing line and what came with it: as many as an input of `run`. (own)
const MOST_BYTES: usize = 16_777_216;

/// The most bytes that are asked for at once. (own)
const BLOCK: usize = 65_536;

/// Where a data part ends, where the records begin, and whether the input has ended. (own)
#[derive(Clone, Copy, Debug, PartialEq, Eq)]
pub struct Division {
    pub data_end: usize,
    pub records_start: usize,
    pub is_end: bool,
}

/// The division about the first dividing line that a line feed ends, so that no byte that follows changes it; else the
/// last line so far begins where `line_start` then says. Of the bytes the first `seen` were looked at before, up to a
/// last line that began at `line_start`; so each byte is looked at twice at most, however often bytes come. (own)
fn whole_division(bytes: &[u8], line_start: &mut usize, seen: usize) -> Option<Division>
    requires seen { seen ≤ length bytes.now }
    requires last { IsLastLine (take seen bytes.now) line_start.old }
    ensures found { IfSome result (IsDivision bytes.now) }
    ensures wanting { IfNone result (IsLastLine bytes.now line_start.new) }
{
    let last = memrchr(b'\n', &bytes[seen..])?;
    let end = seen + last + 1;
    let Some((data_end, records_start)) = split(&bytes[*line_start..end]) else {
        *line_start = end;
        return None;
    };
    Some(Division {
        data_end: *line_start + data_end,
        records_start: *line_start + records_start,
        is_end: false,
    })
}

/// The division at the end of the input, whose last line may be a dividing line that nothing ends.
fn last_division(bytes: &[u8], line_start: usize) -> Result<Division, Outcome>
    requires { IsLastLine bytes.now line_start }
    ensures divided { IfOk result (IsDivision bytes.now) }
    ensures refused { IfErr result
        (λ outcome. (outcome ≡ Outcome.BadData InputFault.NoSplit) × (divide bytes.now ≡ None)) }
{
    match split(&bytes[line_start..]) {
        Some((data_end, records_start)) => Ok(Division {
            data_end: line_start + data_end,
            records_start: line_start + records_start,
            is_end: true,
        }),
        None => Err(Outcome::BadData(InputFault::NoSplit)),
    }
}

/// Reads the data part, with what comes together with its dividing line. Errors: ReadFault, only where the peer
/// failed; TooLong; NoSplit, where the input ends and has no dividing line; Memory. (own)
pub fn gather<P: Peer>(
    alloc: Global,
    bytes: &mut Vec<u8>,
    peer: &mut P,
) -> Result<Division, Outcome>
    requires nothing { bytes.old.items ≡ [] }
    requires held { Told (P.history peer.old) (λ h. is_given_on h ≡ true) }
    requires may_ask { (p : P) → Along (P.history peer.old) (P.history p) IsWaiting → P.may_be_asked p }
    ensures divided { IfOk result (IsDivision bytes.new.items) }
    ensures gathered { IfOk result
        (λ _. Along (P.history peer.old) (P.history peer.new) (IsGathered bytes.new.items)) }
    ensures prompt { Along (P.history peer.old) (P.history peer.new) IsWaitingPrompt }
    ensures end { IfErr result (λ outcome. Along (P.history peer.old) (P.history peer.new) (IsGatherEnd outcome)) }
    ensures no_write { result ≢ Err Outcome.WriteFault }
    ensures later { P.faults peer.old ≤ P.faults peer.new }
    ensures fault { result ≡ Err Outcome.ReadFault → Rose (P.faults peer.old) (P.faults peer.new) }
{
    let mut block = [0u8; BLOCK];
    let mut line_start = 0;
    'reads: loop {
        let Ok(n) = peer.ask(&mut block) else {
            return Err(Outcome::ReadFault);
        };
        if n == 0 {
            return last_division(bytes, line_start);
        }
        if n > MOST_BYTES - bytes.len() {
            return Err(Outcome::TooLong);
        }
        let seen = bytes.len();
        let Ok(()) = bytes.extend_from_slice(&block[..n]) else {
            return Err(Outcome::Memory);
        };
        if let Some(division) = whole_division(bytes, &mut line_start, seen) {
            return Ok(division);
        }
    }
}
