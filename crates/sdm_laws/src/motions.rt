//! The laws of motions, for any usable slopes, every curve and every scale. Each function makes no call and only
//! states its law.

ghost use Rattle.sdm_laws.specs.MotionLaws.{LawOfBraking, LawOfReaction, LawOfStretch};

/// Over one stretch, a train within a curve that brakes at least with the steepest slope of its stretch stays within
/// it.
pub fn law_of_stretch()
    ensures { LawOfStretch }
{}

/// A train that begins within a curve and brakes step by step, at least as the slopes of its stretch, stays within it:
/// at or past the foot it is at most as fast as the foot speed, and a foot of speed 0 it does not pass.
pub fn law_of_braking()
    ensures { LawOfBraking }
{}

/// Until its brakes work a train comes at most D_bec further and gets at most as fast as V_bec.
pub fn law_of_reaction()
    ensures { LawOfReaction }
{}
