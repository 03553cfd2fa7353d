//! The laws of motions in the words of slope maps: for every map that is accepted, every curve on it and every scale.
//! Each function makes no call and only states its law.

ghost use Rattle.sdm_motion.specs.MapLaws.{LawOfMapBraking, LawOfMapMotion, LawOfMapReaction, LawOfMapStretch};
ghost use Rattle.sdm_motion.specs.Motions.{LawOfKnownMotion};

/// Over one stretch, a train within a curve that brakes at least with the steepest slope of its stretch stays within
/// it.
pub fn law_of_stretch()
    ensures { LawOfMapStretch }
{}

/// A train that begins within a curve and brakes step by step, at least as the slopes of its stretch, stays within it:
/// at or past the foot it is at most as fast as the foot speed, and a foot of speed 0 it does not pass.
pub fn law_of_braking()
    ensures { LawOfMapBraking }
{}

/// Until its brakes work a train comes at most D_bec further and gets at most as fast as V_bec.
pub fn law_of_reaction()
    ensures { LawOfMapReaction }
{}

/// A motion whose first braking point is within a curve stays within it.
pub fn law_of_motion()
    ensures { LawOfMapMotion }
{}

/// What `is_motion` accepts is a motion that the promises of its start speak of: where every motion stops by a place
/// or slows to a speed, so does this one.
#[tactic(auto, using(crate::proofs::Known::known_motion))]
pub fn law_of_known_motion()
    ensures { LawOfKnownMotion }
{}
