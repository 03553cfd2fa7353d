//! Each command of the program as a call, for what `sdm_calls.h` declares: words and the bytes of an input come in, a text, a
//! line and a code go out, and no call keeps anything for the next. A session of `live` is kept in a handle.
//!
//! No call has a condition, since none of C's would be checked; what C owes is told in docs/FROM-C.md.
#![tactic(auto)]

mod answer_peers;
mod answers;
mod endings;
mod gathered;
pub mod laws;
mod live_handles;
mod raw_boxes;
mod sessions;
mod words;

ghost use Rattle.std.specs.Prelude.{◌≡◌};
ghost use Rattle.sdm_calls.specs.Begun.{IsBegunBy};
ghost use Rattle.sdm_calls.specs.Endings.{IsTold};
ghost use Rattle.sdm_calls.specs.Feeding.{IsEndedBy, IsFed};
ghost use Rattle.sdm_calls.specs.Lending.{IsInit, IsOpenLive};

use answers::gathered_answer;
use endings::{EndedC, put, tell};
use live_handles::Live;
use raw_boxes::RawBox;
use sessions::{fed, last_answer, opened_session, refusal_code};
use std::alloc::Global;

/// The number of the layout of `sdm_calls.h`.
pub const LAYOUT: u32 = 1;

/// The number of the layout of `sdm_calls.h`, which a program compares with its own when it starts. (own)
#[unsafe(no_mangle)]
pub extern "C" fn sdm_calls_layout() -> u32
    ensures { result ≡ 1 }
{
    LAYOUT
}

/// Answers words over an input into lent memory: the text, of which as many bytes come in as there is room for, how many
/// bytes it has, and the line of the outcome; answers the outcome's code. (own)
#[unsafe(no_mangle)]
pub extern "C" fn sdm_calls_into(
    alloc: Global,
    words: &[u8],
    input: &[u8],
    room: &mut [u8],
    ended: &mut EndedC,
) -> u32
    ensures told { IsTold words.now input.now result room.old room.new ended.new }
{
    let (outcome, text) = gathered_answer(alloc, words, input);
    ended.text_bytes = put(text.bytes(), room) as u64;
    tell(outcome, ended);
    u32::from(outcome.code())
}

/// What a live call returns that has no session, or has one already.
const BAD_CALL: u32 = 64;

/// What a call returns where memory for its answers was refused.
const NO_MEMORY: u32 = 8;

/// Opens a session of `live` over a data part: its records come by the other calls. Data that are refused have the line and
/// the code of the program. (own)
#[unsafe(no_mangle)]
pub extern "C" fn sdm_calls_live_open(
    alloc: Global,
    h: &mut Live,
    given: &[u8],
    ended: &mut EndedC,
) -> u32
    ensures open { result ≡ 0 → IsOpenLive h.new }
    ensures begun { result ≡ 0 → IsBegunBy given.now h.new.state.records h.new.state.line }
    ensures unchanged { ¬ (result ≡ 0) → h.new ≡ h.old }
{
    if h.is_open() {
        return BAD_CALL;
    }
    match opened_session(alloc, given) {
        Ok(session) => {
            std::mem::replace(h, Live::of(RawBox::of(session))).discard();
            0
        }
        Err(outcome) => {
            tell(outcome, ended);
            refusal_code(outcome)
        }
    }
}

/// Takes bytes of the records, however they are cut, and writes the answers to the lines that they end into lent memory. (own)
#[unsafe(no_mangle)]
pub extern "C" fn sdm_calls_live_feed(
    alloc: Global,
    h: &mut Live,
    bytes: &[u8],
    room: &mut [u8],
    ended: &mut EndedC,
) -> u32
    ensures told { result ≡ 0 → IsFed h.old.state.records h.old.state.line bytes.now
        h.new.state.records h.new.state.line room.old room.new ended.new }
    ensures closed { ¬ IsOpenLive h.old → (result ≡ 64) × (h.new ≡ h.old) }
{
    if !h.is_open() {
        return BAD_CALL;
    }
    match fed(alloc, h.session(), bytes) {
        Some(answers) => {
            ended.text_bytes = put(&answers.text, room) as u64;
            0
        }
        None => NO_MEMORY,
    }
}

/// Ends the records: writes the answer to a last line that nothing ends. (own)
#[unsafe(no_mangle)]
pub extern "C" fn sdm_calls_live_end(
    alloc: Global,
    h: &mut Live,
    room: &mut [u8],
    ended: &mut EndedC,
) -> u32
    ensures told { result ≡ 0 → IsEndedBy h.old.state.records h.old.state.line
        h.new.state.records h.new.state.line room.old room.new ended.new }
    ensures closed { ¬ IsOpenLive h.old → (result ≡ 64) × (h.new ≡ h.old) }
{
    if !h.is_open() {
        return BAD_CALL;
    }
    match last_answer(alloc, h.session()) {
        Some(answers) => {
            ended.text_bytes = put(&answers.text, room) as u64;
            0
        }
        None => NO_MEMORY,
    }
}

/// Gives the memory back; a handle without a session stays as it is. (own)
#[unsafe(no_mangle)]
pub extern "C" fn sdm_calls_live_close(alloc: Global, h: &mut Live)
    ensures closed { ¬ IsOpenLive h.new }
    ensures init { IsOpenLive h.old → IsInit h.new }
    ensures unchanged { ¬ IsOpenLive h.old → h.new ≡ h.old }
{
    if h.is_open() {
        let _session = std::mem::replace(h, Live::closed())
            .into_raw()
            .into_box(alloc);
    }
}
