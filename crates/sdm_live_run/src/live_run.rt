//! The top call of `live`.

ghost use Rattle.std.specs.Prelude.{◌≡◌, ◌⊎◌, ◌≤◌, true};
ghost use Rattle.std.specs.Io.KnownBytes.{Appends};
ghost use Rattle.sdm_io.specs.Causes.{Rose};
ghost use Rattle.sdm_io.specs.Told.{AppendsPart};
ghost use Rattle.sdm_live.specs.Exchanges.{Along, Told, is_given_on};
ghost use Rattle.sdm_report.specs.OutcomeLines.{outcome_line};
ghost use Rattle.sdm_live_run.specs.Live.{IsAnsweredLive, IsLiveEnd, IsPromptLive};
ghost use Rattle.sdm_live_run.specs.Rows.{AreLiveRowsSafe};
ghost use Rattle.sdm_live_run.specs.SameRun.{IsRunLive};

use crate::data_parts::read_data;
use crate::records::{outcome_of, serve_records};
use sdm_io::Sink;
use sdm_live::Peer;
use sdm_report::Outcome;
use sdm_run::told;
use std::alloc::Global;

/// The program `live`: the data part opens a supervisor or ends the program as that of `run`; then each record is
/// answered as soon as its line has come. Whenever it asks its peer for more, all that was due is with the peer. Then,
/// for each outcome but Done, its line goes to the fault stream, whose faults change no outcome. (own)
pub fn sdm_live_main<P: Peer, E: Sink>(alloc: Global, peer: &mut P, err: &mut E) -> Outcome
    requires held { Told (P.history peer.old) (λ h. is_given_on h ≡ true) }

    // at each moment at which it asks, whether the peer ever answers or not
    requires may_ask { (p : P) → Along (P.history peer.old) (P.history p) IsAnsweredLive → P.may_be_asked p }

    // looked back on from the end
    ensures prompt { Along (P.history peer.old) (P.history peer.new) IsPromptLive }
    ensures answer { Along (P.history peer.old) (P.history peer.new) (λ h k. IsLiveEnd h result k) }
    ensures rows { Along (P.history peer.old) (P.history peer.new) AreLiveRowsSafe }

    // where `run` accepts the bytes, the rows in what was handed over are its text
    ensures run { result ≡ Outcome.Done → Along (P.history peer.old) (P.history peer.new) IsRunLive }

    // a fault is answered only where it was counted
    ensures fault { (result ≡ Outcome.ReadFault) ⊎ (result ≡ Outcome.WriteFault)
        → Rose (P.faults peer.old) (P.faults peer.new) }

    // the line of the outcome
    ensures line { AppendsPart (E.taken err.old) (E.taken err.new) (outcome_line result) }
    ensures whole_line { Rose (E.faults err.old) (E.faults err.new)
        ⊎ Appends (E.taken err.old) (E.taken err.new) (outcome_line result) }
{
    told(answered(alloc, peer), err)
}

/// The outcome of an input.
fn answered<P: Peer>(alloc: Global, peer: &mut P) -> Outcome
    requires held { Told (P.history peer.old) (λ h. is_given_on h ≡ true) }
    requires may_ask { (p : P) → Along (P.history peer.old) (P.history p) IsAnsweredLive → P.may_be_asked p }
    ensures prompt { Along (P.history peer.old) (P.history peer.new) IsPromptLive }
    ensures answer { Along (P.history peer.old) (P.history peer.new) (λ h k. IsLiveEnd h result k) }
    ensures fault { (result ≡ Outcome.ReadFault) ⊎ (result ≡ Outcome.WriteFault)
        → Rose (P.faults peer.old) (P.faults peer.new) }
{
    let mut bytes = Vec::new(alloc);
    let (supervisor, division) = match read_data(alloc, &mut bytes, peer) {
        Ok(data) => data,
        Err(outcome) => return outcome,
    };
    if division.is_end {
        return Outcome::Done;
    }
    let ended = serve_records(supervisor, &bytes[division.records_start..], peer);
    outcome_of(ended)
}
