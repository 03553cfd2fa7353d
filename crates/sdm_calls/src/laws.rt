//! What holds of sessions, whatever they are fed.

ghost use Rattle.sdm_calls.specs.Sessions.{LawOfSessions};

/// What a session answers, in whatever pieces its records come: what `live` owes for all bytes so far. (own)
#[tactic(auto, using(crate::proofs::LivePieces::sessions))]
pub fn law_of_sessions()
    ensures { LawOfSessions }
{}
