//! Runs of the program over memory, judged by the fields of a table.

use crate::tests::inputs::{are_bytes_of, fields_of};
use sdm_io::{MemSink, MemSource};
use sdm_num::NoMemory;
use sdm_run::{Outcome, outcome_of, sdm_main};
use std::alloc::Global;

/// A run as a line of a table writes it: its words, and what its streams do; and what it comes to: what out takes, the
/// code, and what the fault stream takes.
#[derive(Clone, Copy)]
pub struct Case<'a> {
    pub words: &'a str,
    pub calls: &'a str,
    pub out: &'a str,
    pub code: &'a str,
    pub told: &'a str,
}

/// The words of a run, the bytes that its streams move at once and their calls that fail, read from its fields.
#[derive(Drop)]
struct Plan {
    words: Vec<String>,
    step: usize,
    reads: Vec<u32>,
    writes: Vec<u32>,
    lines: Vec<u32>,
}

/// Adds the words that a field writes, with spaces between them; false where no memory is left.
fn put_words(alloc: Global, field: &str, words: &mut Vec<String>) -> bool {
    for word in field.split_whitespace() {
        if word != "-" && !put_word(alloc, word, words) {
            return false;
        }
    }
    true
}

fn put_word(alloc: Global, word: &str, words: &mut Vec<String>) -> bool {
    match String::from_str(alloc, word) {
        Ok(word) => words.push(word).is_ok(),
        Err(_) => false,
    }
}

/// Adds the numbers that a field writes; `-` is none. False where one is no number or no memory is left.
pub fn put_numbers(field: &str, numbers: &mut Vec<u32>) -> bool {
    for word in field.split_whitespace() {
        if word != "-" && !put_number(word, numbers) {
            return false;
        }
    }
    true
}

fn put_number(word: &str, numbers: &mut Vec<u32>) -> bool {
    match word.parse::<u32>() {
        Ok(number) => numbers.push(number).is_ok(),
        Err(_) => false,
    }
}

/// Adds what a case says of its words and its streams; false where a number isn't one, or no memory is left.
fn put_plan(alloc: Global, case: &Case, plan: &mut Plan) -> bool {
    let [step, reads, writes, lines, ..] = fields_of(case.calls, ';', 4);
    let Ok(step) = step.parse::<usize>() else {
        return false;
    };
    plan.step = step;
    put_words(alloc, case.words, &mut plan.words)
        && put_numbers(reads, &mut plan.reads)
        && put_numbers(writes, &mut plan.writes)
        && put_numbers(lines, &mut plan.lines)
}

/// A source and two sinks.
#[derive(Drop)]
struct Streams {
    input: MemSource,
    out: MemSink,
    err: MemSink,
}

fn streams_of(alloc: Global, bytes: &[u8], plan: &Plan) -> Result<Streams, NoMemory> {
    let step = plan.step.max(1);
    Ok(Streams {
        input: MemSource::new(alloc, bytes, step, &plan.reads)?,
        out: MemSink::new(alloc, 1_000_000, step, &plan.writes)?,
        err: MemSink::new(alloc, 1000, step, &plan.lines)?,
    })
}

/// Runs the program over these streams.
fn code_over(alloc: Global, words: &[String], streams: &mut Streams) -> u8 {
    sdm_main(
        alloc,
        words,
        &mut streams.input,
        &mut streams.out,
        &mut streams.err,
    )
    .code()
}

/// Whether the program answers over these streams as a case wants.
fn is_run(alloc: Global, words: &[String], streams: &mut Streams, case: &Case) -> bool {
    let code = code_over(alloc, words, streams);
    case.code.parse::<u8>() == Ok(code)
        && are_bytes_of(streams.out.bytes(), case.out)
        && are_bytes_of(streams.err.bytes(), case.told)
}

fn is_run_by(alloc: Global, plan: &Plan, case: &Case, bytes: &[u8]) -> bool {
    match streams_of(alloc, bytes, plan) {
        Ok(mut streams) => is_run(alloc, &plan.words, &mut streams, case),
        Err(_) => false,
    }
}

/// No words, a byte at once, and no call that fails.
fn empty(alloc: Global) -> Plan {
    Plan {
        words: Vec::new(alloc),
        step: 1,
        reads: Vec::new(alloc),
        writes: Vec::new(alloc),
        lines: Vec::new(alloc),
    }
}

/// Whether an input is answered as a case wants.
pub fn is_answered(alloc: Global, case: Case, bytes: &[u8]) -> bool {
    let mut plan = empty(alloc);
    put_plan(alloc, &case, &mut plan) && is_run_by(alloc, &plan, &case, bytes)
}

/// The outcome of words over bytes; none where no memory is left for the words.
pub fn outcome_of_words(alloc: Global, words: &str, bytes: &[u8]) -> Option<Outcome> {
    let mut all = Vec::new(alloc);
    if !put_words(alloc, words, &mut all) {
        return None;
    }
    Some(outcome_of(alloc, &all, bytes))
}
