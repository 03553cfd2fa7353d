//! `live` over a peer in memory, which tells each call, and over streams that fail. The rows are those of `run` in the
//! tables of `faults`, with the answers to the records between them.

ghost use Rattle.std.specs.Prelude.{◌≤◌};

use crate::tests::inputs::{are_bytes_of, fields_of, put_bytes, put_part};
use crate::tests::runs::put_numbers;
use sdm_io::{MemSink, MemSource};
use sdm_live_run::{Call, MemoryPeer, StreamPeer, live_in_memory, sdm_live_main};
use sdm_num::NoMemory;
use std::alloc::Global;
use std::process::Abort;

/// Records, and the answer to each, which is due once its line has ended.
const RECORDS: &str = "\
    end,100000,100000,0
    read,0,799990,799990,799990,20000,0,0
    go
    read,5,800010,800010,800010,20000,0,0
    read,10,810000,810000,810000,15000,0,0
    read,50,900000,900000,900000,0,0,0";

const ANSWERS: &str = "\
    taken
    0,T,W,1,0,0,1,160,800000,800000,760000,720000,540000
    refused: unknown kind
    5,T,X,1,1,1,0,160,800000,800000,760000,720000,540000
    10,T,X,0,0,1,1,160,887500,887500,857500,827500,692500
    50,C,N,0,0,0,1,160,1000000,1000000,1000000,1000000,1000000";

/// Adds the lines of a table, each with a line feed; false where no memory is left.
fn put_lines(table: &str, into: &mut Vec<u8>) -> bool {
    for line in table.lines() {
        if !put_bytes(line.trim(), into) || into.push(b'\n').is_err() {
            return false;
        }
    }
    true
}

/// What a log shows up to a call: how many bytes came, how many lines of records ended, how many bytes were handed over,
/// whether some of them are held back, and whether all was as it is due so far.
#[derive(Clone, Copy)]
struct Seen {
    came: usize,
    lines: usize,
    sent: usize,
    is_held: bool,
    is_due: bool,
}

/// How many lines end among bytes that come after so many, of which the first `before` are no records.
fn lines_in(bytes: &[u8], came: usize, before: usize) -> usize {
    let mut lines = 0usize;
    let mut at = came;
    for byte in bytes {
        if at >= before && *byte == b'\n' {
            lines = lines.saturating_add(1);
        }
        at = at.saturating_add(1);
    }
    lines
}

/// Whether the first `sent` bytes are the first so many lines of a text.
fn are_lines(text: &[u8], lines: usize, sent: usize) -> bool {
    let sent = sent.min(text.len());
    lines_in(&text[..sent], 0, 0) == lines && (sent == 0 || text[..sent].ends_with(b"\n"))
}

impl Seen {
    /// The program asked, and got these bytes: all answers to the lines before were handed over and given on.
    fn gave(self, bytes: &[u8], before: usize, answers: &[u8]) -> Seen {
        Seen {
            came: self.came.saturating_add(bytes.len()),
            lines: self
                .lines
                .saturating_add(lines_in(bytes, self.came, before)),
            is_due: self.is_due && !self.is_held && are_lines(answers, self.lines, self.sent),
            ..self
        }
    }

    /// It handed these over: they are the next of the answers.
    fn took(self, bytes: &[u8], answers: &[u8]) -> Seen {
        let sent = self.sent.min(answers.len());
        Seen {
            sent: self.sent.saturating_add(bytes.len()),
            is_held: true,
            is_due: self.is_due && answers[sent..].starts_with(bytes),
            ..self
        }
    }
}

/// What the log of a run shows at its end.
fn seen_in(log: &[Call], before: usize, answers: &[u8]) -> Seen {
    let mut seen = Seen {
        came: 0,
        lines: 0,
        sent: 0,
        is_held: false,
        is_due: true,
    };
    for call in log {
        seen = match call {
            Call::Gave(bytes) => seen.gave(bytes, before, answers),
            Call::Took(bytes) => seen.took(bytes, answers),
            Call::GivenOn => Seen {
                is_held: false,
                ..seen
            },
        };
    }
    seen
}

/// Whether a run ended with all answers given on, and each was so before the next ask.
fn is_prompt(peer: &MemoryPeer, input: &[u8], before: usize, answers: &[u8]) -> bool {
    let seen = seen_in(&peer.log, before, answers);
    !peer.lost
        && seen.is_due
        && !seen.is_held
        && seen.came == input.len()
        && seen.sent == answers.len()
}

/// Whether the records get their answers, each before the next ask, where the bytes come so many at once.
fn is_answered_by(alloc: Global, most: usize) -> bool {
    let mut input = Vec::new(alloc);
    let mut answers = Vec::new(alloc);
    if !put_part("-", &mut input)
        || !put_bytes("%%/", &mut input)
        || !put_lines(ANSWERS, &mut answers)
    {
        return false;
    }
    let before = input.len();
    if !put_lines(RECORDS, &mut input) {
        return false;
    }
    let (outcome, peer) = live_in_memory(alloc, &input, most);
    outcome.code() == 0 && is_prompt(&peer, &input, before, &answers)
}

#[test]
fn each_answer_is_with_the_peer_before_the_next_ask(rt: HostRuntime) {
    for most in [1usize, 7, 1000, 100_000] {
        assert!(rt; is_answered_by(rt.alloc(), most), "{most}");
    }
}

/// How many bytes a read and how many a write moves at most, and the reads and the calls of out that fail, by their
/// numbers; what follows the base data, all of which one read of 1,000 bytes gives; what out takes, the code, and what the
/// fault stream takes. Out is called for each answer, and to give on what a read made due.
const FAULTS: &str = "\
    1000; 1000; -; - | %%/read,0,799990,799990,799990,20000,0,0/ | 0,T,W,1,0,0,1,160,800000,800000,760000,720000,540000/ | 0 | -
    3; 2; -; - | %%/read,0,799990,799990,799990,20000,0,0 | 0,T,W,1,0,0,1,160,800000,800000,760000,720000,540000/ | 0 | -
    1000; 1000; 1; - | %%/read,0,799990,799990,799990,20000,0,0/ | - | 2 | sdm: read fault/
    1; 1; 500; - | %%/read,0,799990,799990,799990,20000,0,0/ | - | 2 | sdm: read fault/
    1000; 1000; 2; - | %%/read,0,799990,799990,799990,20000,0,0/ | 0,T,W,1,0,0,1,160,800000,800000,760000,720000,540000/ | 2 | sdm: read fault/
    1000; 1000; 2; - | %%/go/read,0,799990,799990,799990,20000,0,0 | refused: unknown kind/ | 2 | sdm: read fault/
    1000; 1000; -; 1 | %%/read,0,799990,799990,799990,20000,0,0/ | - | 3 | sdm: write fault/
    1000; 1000; -; 2 | %%/read,0,799990,799990,799990,20000,0,0/ | 0,T,W,1,0,0,1,160,800000,800000,760000,720000,540000/ | 3 | sdm: write fault/
    1000; 1000; -; 2 | %%/go/read,0,799990,799990,799990,20000,0,0/ | refused: unknown kind/ | 3 | sdm: write fault/
    1000; 3; -; 3 | %%/go/ | refuse | 3 | sdm: write fault/
    1000; 1000; 1; 1 | - | - | 2 | sdm: read fault/
    1000; 1000; -; 1 | - | - | 5 | sdm: bad data: no %% line/";

/// `live` over a source and a sink that fail by a plan.
fn code_over(peer: &mut StreamPeer<MemSource, MemSink>, alloc: Global, err: &mut MemSink) -> u8 {
    sdm_live_main(alloc, peer, err).code()
}

/// Whether out and the fault stream took what a line of the table says, and the code is its.
fn is_told(code: u8, out: &MemSink, err: &MemSink, fields: [&str; 7]) -> bool {
    let [_, _, wanted, of, told, _, _] = fields;
    of.parse::<u8>() == Ok(code)
        && are_bytes_of(out.bytes(), wanted)
        && are_bytes_of(err.bytes(), told)
}

/// How many bytes a call moves at most.
fn step_of(field: &str) -> usize
    ensures { 1 ≤ result }
{
    field.parse::<usize>().unwrap_or(1).max(1)
}

fn is_ended_by(alloc: Global, input: &[u8], fields: [&str; 7]) -> Result<bool, NoMemory> {
    let [given, taken, reads, writes, _, _, _] = fields_of(fields[0], ';', 4);
    let mut failing_reads = Vec::new(alloc);
    let mut failing_writes = Vec::new(alloc);
    if !put_numbers(reads, &mut failing_reads) || !put_numbers(writes, &mut failing_writes) {
        return Ok(false);
    }
    let source = MemSource::new(alloc, input, step_of(given), &failing_reads)?;
    let sink = MemSink::new(alloc, 1000, step_of(taken), &failing_writes)?;
    let mut err = MemSink::new(alloc, 1000, 1000, &[])?;
    let mut peer = StreamPeer::new(source, sink);
    let code = code_over(&mut peer, alloc, &mut err);
    Ok(is_told(code, &peer.out, &err, fields))
}

/// A run ends as its line wants.
fn is_ended(alloc: Global, line: &str) -> bool {
    let fields = fields_of(line, '|', 5);
    let mut input = Vec::new(alloc);
    put_part("-", &mut input)
        && put_bytes(fields[1], &mut input)
        && is_ended_by(alloc, &input, fields) == Ok(true)
}

#[test]
fn a_fault_leaves_what_was_due_before_it(rt: HostRuntime) {
    for line in FAULTS.lines() {
        assert!(rt; is_ended(rt.alloc(), line), "{line}");
    }
}
