//! The program: the words and the standard streams, handed to the top call.
#![tactic(auto)]

use sdm_io::{BlockSink, StdSink, StdSource};
use sdm_live_run::{StreamPeer, sdm_live_main};
use sdm_run::{Outcome, sdm_main, told};
use sdm_words::{Asked, asked_of, tell_about};
use std::env;
use std::io::ErrorKind;
use std::process::ExitCode;

/// The words after the program's name; none where memory for them is wanting. Where one of them is not UTF-8, the
/// program goes on with no words, which is Usage.
fn words_of(rt: &HostRuntime) -> Option<Vec<String>> {
    let mut words = Vec::new(rt.alloc());
    match env::args(rt) {
        Ok(args) => {
            for word in args.skip(1) {
                if words.push(word).is_err() {
                    return None;
                }
            }
        }
        Err(error) if error.kind() == ErrorKind::OutOfMemory => return None,
        Err(_) => {}
    }
    Some(words)
}

fn main(rt: HostRuntime) -> ExitCode {
    let mut err = StdSink::new(rt.stderr());
    let outcome = match (words_of(&rt), BlockSink::new(rt.alloc(), rt.stdout())) {
        (Some(words), Ok(mut out)) => {
            let mut input = StdSource::new(rt.stdin());
            match asked_of(&words) {
                Asked::Live => {
                    sdm_live_main(rt.alloc(), &mut StreamPeer::new(input, out), &mut err)
                }
                Asked::About(about) => told(tell_about(about, &mut out), &mut err),
                Asked::Command => sdm_main(rt.alloc(), &words, &mut input, &mut out, &mut err),
            }
        }
        _ => told(Outcome::Memory, &mut err),
    };
    ExitCode::from(outcome.code())
}
