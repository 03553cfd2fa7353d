//! How far before the exact place of a curve the computed one may lie. From the foot on each band multiplies what was
//! lost by at most the variation of its slopes, and rounding loses less than a grain more.

ghost use Rattle.std.specs.Prelude.{◌≡◌, ◌≤◌};
ghost use Rattle.sdm_rules.specs.Slopes.{bands_of};
ghost use Rattle.sdm_rules.specs.Curves.{most_slack};
ghost use Rattle.sdm_laws.specs.CurveLaws.{slack_of};

use crate::map::BandMap;

/// By the number of bands the most grains that a computed place lies before the exact one. With up to eight bands each
/// is sixteen times the one before and one more; with nine and ten bands slopes vary only eightfold. (own)
const SLACKS: [u32; 11] = [
    0,
    1,
    17,
    273,
    4_369,
    69_905,
    1_118_481,
    17_895_697,
    286_331_153,
    19_173_961,
    153_391_689,
];

impl BandMap {
    /// The most grains that a computed place of a curve on this map lies before the exact one: less than a millimetre.
    #[inline(always)]
    pub(crate) fn slack(&self) -> u32
        ensures value { result ≡ slack_of (bands_of self.now.uppers) }
        ensures fine { result ≤ most_slack }
    {
        SLACKS[self.bands()]
    }
}
