//! The data part of a live input: read from the peer, and opened.

ghost use Rattle.std.specs.Prelude.{◌≡◌, ◌⊎◌, ◌≤◌, [], Err, IfErr, IfOk, true};
ghost use Rattle.sdm_io.specs.Causes.{Rose};
ghost use Rattle.sdm_live.specs.Exchanges.{Along, Told, is_given_on};
ghost use Rattle.sdm_live_data.specs.Waiting.{IsGathered, IsWaiting, IsWaitingPrompt};
ghost use Rattle.sdm_live_run.specs.Live.{IsLiveEnd};
ghost use Rattle.sdm_live_run.specs.Parts.{IsDataRead};

use sdm_live::Peer;
use sdm_live_data::{Division, gather};
use sdm_report::Outcome;
use sdm_run::opened;
use sdm_supervisor::Supervisor;
use std::alloc::Global;

/// Reads the data part, with what comes together with its dividing line, and opens a supervisor with its data. Errors:
/// what `gather` answers, and what the data break, as for `run`. (own)
pub fn read_data<P: Peer>(
    alloc: Global,
    bytes: &mut Vec<u8>,
    peer: &mut P,
) -> Result<(Supervisor, Division), Outcome>
    requires nothing { bytes.old.items ≡ [] }
    requires held { Told (P.history peer.old) (λ h. is_given_on h ≡ true) }
    requires may_ask { (p : P) → Along (P.history peer.old) (P.history p) IsWaiting → P.may_be_asked p }
    ensures opened { IfOk result (λ x. IsDataRead bytes.new.items x.0 x.1) }
    ensures gathered { IfOk result
        (λ _. Along (P.history peer.old) (P.history peer.new) (IsGathered bytes.new.items)) }
    ensures prompt { Along (P.history peer.old) (P.history peer.new) IsWaitingPrompt }
    ensures end { IfErr result
        (λ outcome. Along (P.history peer.old) (P.history peer.new) (λ h k. IsLiveEnd h outcome k)) }
    ensures later { P.faults peer.old ≤ P.faults peer.new }
    ensures fault { (result ≡ Err Outcome.ReadFault) ⊎ (result ≡ Err Outcome.WriteFault)
        → Rose (P.faults peer.old) (P.faults peer.new) }
{
    let division = gather(alloc, bytes, peer)?;
    let supervisor = opened(alloc, &bytes[..division.data_end])?;
    Ok((supervisor, division))
}
