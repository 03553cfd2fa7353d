//! A live session: the supervisor with what has come of a line, and the answers to bytes that come.

ghost use Rattle.std.specs.Prelude.{◌≡◌, [], IfOk, IfSome};
ghost use Rattle.sdm_live.specs.Progress.{with_bytes, with_end};
ghost use Rattle.sdm_live.specs.Taken.{standing};
ghost use Rattle.sdm_live_records.specs.Live.{live_rules};
ghost use Rattle.sdm_calls.specs.Begun.{IsBegunBy};

use crate::answer_peers::Answers;
use sdm_live::{Line, end_line, feed};
use sdm_live_records::LiveRecords;
use sdm_report::Outcome;
use sdm_run::opened;
use std::alloc::Global;

/// The supervisor, and what has come of a line. (own)
#[derive(Drop)]
pub struct Session {
    pub records: LiveRecords,
    pub line: Line,
}

/// The session that a data part opens, before the first record; else the outcome of data that open nothing. (own)
pub fn opened_session(alloc: Global, given: &[u8]) -> Result<Box<Session>, Outcome>
    ensures opened { IfOk result (λ b. IsBegunBy given.now b.value.records b.value.line) }
{
    let supervisor = opened(alloc, given)?;
    let session = Session {
        records: LiveRecords::new(supervisor),
        line: Line::new(),
    };
    match Box::new(alloc, session) {
        Ok(session) => Ok(session),
        Err(_) => Err(Outcome::Memory),
    }
}

/// The code of data that open nothing.
pub fn refusal_code(outcome: Outcome) -> u32
    ensures { ¬ (result ≡ 0) }
{
    u32::from(outcome.code()).max(1)
}

/// The answers to the lines that bytes end; none where memory for them was refused. (own)
#[tactic(auto, using(crate::proofs::TakenBytes::fed_text))]
pub fn fed(alloc: Global, session: &mut Session, bytes: &[u8]) -> Option<Answers>
    ensures { IfSome result (λ answers.
        with_bytes live_rules (standing session.old.records session.old.line []) bytes.now
        ≡ standing session.new.records session.new.line answers.text.items) }
{
    let mut answers = Answers::new(alloc);
    let Ok(()) = feed(&mut session.records, &mut session.line, bytes, &mut answers) else {
        return None;
    };
    if answers.is_lost {
        return None;
    }
    Some(answers)
}

/// The answer to a last line that nothing ends; none where memory for it was refused. (own)
#[tactic(auto, using(crate::proofs::TakenBytes::ended_text))]
pub fn last_answer(alloc: Global, session: &mut Session) -> Option<Answers>
    ensures { IfSome result (λ answers.
        with_end live_rules (standing session.old.records session.old.line [])
        ≡ standing session.new.records session.new.line answers.text.items) }
{
    let mut answers = Answers::new(alloc);
    let Ok(()) = end_line(&mut session.records, &mut session.line, &mut answers) else {
        return None;
    };
    if answers.is_lost {
        return None;
    }
    Some(answers)
}
