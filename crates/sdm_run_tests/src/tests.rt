//! The commands over streams that fail: what out has taken is a prefix of what is due, and the outcome says why. What
//! they make of words and inputs where no stream fails is shown by runs of the built program, in worked/, examples/ and
//! vectors/. In the tables `/` stands for a line feed and `-` for nothing. A test owns its inputs and streams in one
//! function and judges them in another, which takes them by reference: the proof of a function counts what each of its
//! exits drops. Tests of the crates below `sdm_run` stand in files of their names.

mod data;
mod events;
mod faults;
mod inputs;
mod io;
mod live;
mod runs;
mod trial;

use faults::{CERTIFY, CHECK, DRIVE, FLAT, RUN, TRIAL, UNTOLD, UPGRADE};
use inputs::{fields_of, put_bytes, put_part};
use runs::{Case, is_answered, outcome_of_words};
use sdm_data::BASE_PART;
use sdm_run::Outcome;
use std::alloc::Global;
use std::process::Abort;

/// Adds the base data with changes, and what follows them; false where no memory is left.
fn put_input(changes: &str, after: &str, into: &mut Vec<u8>) -> bool {
    (changes == "none" || put_part(changes, into)) && put_bytes(after, into)
}

/// A run ends as its line wants.
fn is_ended(alloc: Global, line: &str) -> bool {
    let [words, changes, after, calls, out, code, told] = fields_of(line, '|', 7);
    let mut input = Vec::new(alloc);
    put_input(changes, after, &mut input)
        && is_answered(
            alloc,
            Case {
                words,
                calls,
                out,
                code,
                told,
            },
            &input,
        )
}

fn go_through(rt: &impl Abort, alloc: Global, table: &str) {
    for line in table.lines() {
        assert!(rt; is_ended(alloc, line), "{line}");
    }
}

#[test]
fn a_fault_ends_a_journey_where_it_comes(rt: HostRuntime) {
    go_through(&rt, rt.alloc(), RUN);
    go_through(&rt, rt.alloc(), FLAT);
}

#[test]
fn a_fault_leaves_a_prefix_of_map_and_certificate(rt: HostRuntime) {
    go_through(&rt, rt.alloc(), CERTIFY);
}

#[test]
fn a_fault_leaves_a_prefix_of_the_answers(rt: HostRuntime) {
    go_through(&rt, rt.alloc(), CHECK);
}

#[test]
fn a_fault_leaves_a_prefix_of_the_summary(rt: HostRuntime) {
    go_through(&rt, rt.alloc(), DRIVE);
    go_through(&rt, rt.alloc(), TRIAL);
}

#[test]
fn a_fault_leaves_a_prefix_of_the_text(rt: HostRuntime) {
    go_through(&rt, rt.alloc(), UPGRADE);
}

#[test]
fn a_fault_of_the_fault_stream_changes_no_outcome(rt: HostRuntime) {
    go_through(&rt, rt.alloc(), UNTOLD);
}

/// Whether three steps over the base data with a build-up time of 2 s are done.
fn is_done(alloc: Global) -> bool {
    let mut input = Vec::new(alloc);
    put_part("emergency_time = 0 > emergency_time = 20", &mut input)
        && outcome_of_words(alloc, "drive 7 3", &input) == Some(Outcome::Done)
}

#[test]
fn words_and_bytes_have_their_outcome_with_ample_memory(rt: HostRuntime) {
    let alloc = rt.alloc();
    assert!(rt; is_done(alloc));
    assert!(rt; outcome_of_words(alloc, "-", b"0,0,0\n") == Some(Outcome::Usage));
    assert!(rt; outcome_of_words(alloc, "flat 100 100000", b"0,0,0\n") == Some(Outcome::Done));
    let undrivable = outcome_of_words(alloc, "drive 7 3", BASE_PART.as_bytes());
    assert_eq!(rt; undrivable.map(|outcome| outcome.code()), Some(9));
}
