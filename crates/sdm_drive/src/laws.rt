//! The laws of the drive: proofs about its definitions alone. Each function makes no call and only states its law.

ghost use Rattle.sdm_drive.specs.DriveJourneys.{LawOfDriveSteps};
ghost use Rattle.sdm_drive.specs.DriveLaws.{LawOfBrakedDs, LawOfDrive, LawOfDriveRanges, LawOfDriveRows};
ghost use Rattle.sdm_drive.specs.DriveLaws.{LawOfReactionDs};

/// A train within a brake curve is within it after a ds of braking.
#[tactic(auto, using(crate::proofs::Braked::braked))]
pub fn law_of_braked_ds()
    ensures { LawOfBrakedDs }
{}

/// A ds before the brakes work takes the train no farther than it could reach before.
pub fn law_of_reaction_ds()
    ensures { LawOfReactionDs }
{}

/// THE DRIVE: from every seed and after every number of steps the true front end is at or before the SvL.
pub fn law_of_drive()
    ensures { LawOfDrive }
{}

/// Before each step of a drive the train and its reading are in their ranges, and no time goes back.
pub fn law_of_drive_ranges()
    ensures { LawOfDriveRanges }
{}

/// No row of a drive has its front end past the SvL, and how far the SvL was at least ahead is not negative.
pub fn law_of_drive_rows()
    ensures { LawOfDriveRows }
{}

/// The rows of a drive are those of the journey of its readings, and what a command says of its rows holds of each; and
/// each reading is true of the train.
pub fn law_of_drive_steps()
    ensures { LawOfDriveSteps }
{}
