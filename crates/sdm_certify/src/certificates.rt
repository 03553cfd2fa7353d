//! The certificate of a reading: what it claims, with the marks that show it.

ghost use Rattle.std.specs.Prelude.{◌≡◌, pos, false, ◌≤◌, ◌≤ℤ◌, IfOk, MatchOption};
ghost use Rattle.sdm_rules.specs.Cells.{place_of_cell};
ghost use Rattle.sdm_rules.specs.Certificates.{IsClaimInRange};
ghost use Rattle.sdm_rules.specs.Ranges.{longest_track};
ghost use Rattle.sdm_rules.specs.Reaction.{a_est1, a_est2};
ghost use Rattle.sdm_rules.specs.Within.{is_within_svl};
ghost use Rattle.sdm_supervisor.specs.Supervised.{last_of};
ghost use Rattle.sdm_certify.specs.Certificates.{claim_of, IsCertificateOf};

use crate::made::marks_of;
use crate::marks::Marks;
use sdm_num::{NoMemory, Place, Reading};
use sdm_rules::Claim;
use sdm_supervisor::Supervisor;
use std::alloc::Global;

/// A claim, and marks that hold for it on the slopes with which the emergency brake works. (own)
#[derive(Drop)]
pub struct Certificate {
    pub claim: Claim,
    pub marks: Marks,
}

/// A_est1: the estimated acceleration in cm/s², 0 if it is negative. (SUBSET-026-3 3.13.9.3.2)
fn a_est1(accel: i16) -> u16
    requires { accel ≤ℤ pos 300 }
    ensures value { result ≡ a_est1 accel }
    ensures most { result ≤ 300 }
{
    accel.max(0) as u16
}

/// What a reading claims of the SvL at a place.
fn claim_of(supervisor: &Supervisor, reading: &Reading, svl: Place) -> Claim
    requires svl { svl ≡ (last_of supervisor.now.authority).place }
    requires not_below_0 { pos 0 ≤ℤ svl }
    requires on_track { svl ≤ℤ place_of_cell (pos longest_track) }
    ensures value { result ≡ claim_of supervisor.now reading.now }
    ensures range { IsClaimInRange result }
{
    // the time is told with it that the reading is in its ranges
    prove!(reading.time() <= 100_000_000);
    let times = supervisor.times();
    let accel = a_est1(reading.accel());
    Claim {
        time: reading.time(),
        front: reading.max_mm(),
        speed: reading.speed_mm_s().plus(supervisor.under(reading)),
        accel1: accel,
        accel2: accel.min(40),
        traction: times.traction,
        berem: times.berem,
        svl,
    }
}

/// The certificate of a reading, by which the train stops at or before the SvL wherever the marks hold; none exactly
/// where the reading isn't within the SvL. Its claim and its 1 to 4,000 marks are in the ranges of their lines, and the
/// marks hold on the map of A_safe. (own)
pub fn certificate_of(
    alloc: Global,
    supervisor: &Supervisor,
    reading: &Reading,
) -> Result<Option<Certificate>, NoMemory>
    ensures { IfOk result (λ found. MatchOption found
        (is_within_svl supervisor.now reading.now ≡ false)
        (λ certificate. IsCertificateOf supervisor.now reading.now certificate.claim certificate.marks)) }
{
    let Some((svl, _)) = supervisor.claim(reading) else {
        return Ok(None);
    };
    let claim = claim_of(supervisor, reading, svl);
    let marks = marks_of(alloc, supervisor.safe_map(), &claim)?;
    Ok(Some(Certificate { claim, marks }))
}
