//! The records of a live input, from the state that the data open on.

ghost use Rattle.std.specs.Prelude.{◌≡◌, ◌⊎◌, ◌≤◌};
ghost use Rattle.sdm_io.specs.Causes.{Rose};
ghost use Rattle.sdm_live.specs.Answers.{IsLiveAnswer};
ghost use Rattle.sdm_live.specs.Exchanges.{Along, IsAnswered, IsPrompt};
ghost use Rattle.sdm_live_run.specs.Parts.{due_on, outcome_of, whole_on};

use sdm_live::{Ended, Peer, serve};
use sdm_live_records::LiveRecords;
use sdm_report::Outcome;
use sdm_supervisor::Supervisor;

/// Answers each record as soon as its line has come, after the bytes that came with the data part. (own)
#[tactic(auto, unfolding(crate::specs::Live::due_of, crate::specs::Live::whole_of))]
pub fn serve_records<P: Peer>(supervisor: Supervisor, given: &[u8], peer: &mut P) -> Ended
    requires may_ask { (p : P) → Along (P.history peer.old) (P.history p)
        (IsAnswered (due_on supervisor given.now)) → P.may_be_asked p }
    ensures prompt { Along (P.history peer.old) (P.history peer.new) (IsPrompt (due_on supervisor given.now)) }
    ensures answer { Along (P.history peer.old) (P.history peer.new)
        (λ h k. IsLiveAnswer (due_on supervisor given.now) (whole_on supervisor given.now) h result k) }
    ensures later { P.faults peer.old ≤ P.faults peer.new }
    ensures fault { (result ≡ Ended.ReadFault) ⊎ (result ≡ Ended.WriteFault)
        → Rose (P.faults peer.old) (P.faults peer.new) }
{
    let mut records = LiveRecords::new(supervisor);
    serve(&mut records, given, peer)
}

/// The outcome of the program, by how its records ended. (own)
pub fn outcome_of(ended: Ended) -> Outcome
    ensures { result ≡ outcome_of ended }
{
    match ended {
        Ended::Done => Outcome::Done,
        Ended::ReadFault => Outcome::ReadFault,
        Ended::WriteFault => Outcome::WriteFault,
        Ended::Endless => Outcome::TooLong,
    }
}
