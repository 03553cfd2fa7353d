//! The laws of brake curves, for any usable slopes, every foot, every foot speed and every scale. Each function makes
//! no call and only states its law.

ghost use Rattle.sdm_laws.specs.CurveLaws.{LawOfFoot, LawOfFractions, LawOfLevels, LawOfOrder, LawOfRounding};
ghost use Rattle.sdm_laws.specs.CurveLaws.{LawOfScale, LawOfSteppedOrder};

/// The stepped place of a speed is never past the exact one, and at most as far before it as the number of bands
/// allows: less than a millimetre.
pub fn law_of_rounding()
    ensures { LawOfRounding }
{}

/// Exact places are fractions: their denominators are above 0.
pub fn law_of_fractions()
    ensures { LawOfFractions }
{}

/// The greater the square of the speed, the earlier the exact place.
pub fn law_of_order()
    ensures { LawOfOrder }
{}

/// The greater the speed, the earlier the stepped place, or it is the same.
#[tactic(auto, using(crate::proofs::BrakeCurves::CurveOrder::stepped_falls))]
pub fn law_of_stepped_order()
    ensures { LawOfSteppedOrder }
{}

/// At another scale the exact places are the same.
pub fn law_of_scale()
    ensures { LawOfScale }
{}

/// At its foot speed a curve is at its foot.
pub fn law_of_foot()
    ensures { LawOfFoot }
{}

/// In each speed band a curve keeps one level, the sum of its place's energy integral and its square's energy; and its
/// stepped places are the only whole grains that do so from its foot.
pub fn law_of_levels()
    ensures { LawOfLevels }
{}
