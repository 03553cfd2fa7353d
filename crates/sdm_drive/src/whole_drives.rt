//! A whole drive: so many steps from its start, and their summary.

ghost use Rattle.std.specs.Prelude.{◌≡◌, ℕ, ◌≤◌, IfErr, IfOk, OnOk};
ghost use Rattle.sdm_rules.specs.declared.authorities.Authority.TheVariants.{Stop};
ghost use Rattle.sdm_drive.specs.Drive.{drive_rows, drive_start};
ghost use Rattle.sdm_drive.specs.DriveJourneys.{AreStepsPromised};
ghost use Rattle.sdm_drive.specs.DriveLaws.{most_steps};
ghost use Rattle.sdm_drive.specs.Faults.{IsDriveRefusal, MayBeDriven};
ghost use Rattle.sdm_drive.specs.Summaries.{counts_of};

use crate::drives::Drive;
use crate::faults::DriveFault;
use crate::summaries::Summary;
use sdm_braking::TrainAndTrack;
use sdm_targets::Authority;
use std::alloc::Global;

/// The summary of a drive of so many steps, at most 100,000, by a number; refused as `Drive::begin` says. The memory is
/// that of the supervisor. (own)
pub fn driven(
    alloc: Global,
    train_and_track: TrainAndTrack,
    authority: Authority,
    seed: u16,
    cycles: u32,
) -> Result<Summary, DriveFault>
    requires { cycles ≤ most_steps }
    ensures summary { IfOk result (λ summary. (eoa svl : ℕ) → authority ≡ Stop eoa svl 0 →
        summary ≡ counts_of svl (drive_rows cycles
        (drive_start train_and_track authority seed))) }
    ensures promised { OnOk result (AreStepsPromised cycles (drive_start train_and_track authority seed)) }
    ensures accepted { OnOk result (MayBeDriven train_and_track authority) }
    ensures refused { IfErr result (IsDriveRefusal train_and_track authority) }
{
    let mut drive = Drive::open(alloc, train_and_track, authority, seed)?;
    let Authority::Stop { svl, .. } = authority else {
        unreachable!()
    };
    let mut summary = Summary::new(svl);
    'steps: while drive.steps() < cycles {
        summary.add(&drive.step());
    }
    Ok(summary)
}
