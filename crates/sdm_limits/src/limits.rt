//! The limits of a target, each so many grains before the place of its brake curve: EBI, SBI, W, P and I. They are
//! found from the computed place of the curve just as the exact limits from the exact one. Own: T_bs1 and T_bs2 are
//! the same, and each target has one SBI, on its EBD or, for an EOA, on its SBD.

ghost use Rattle.std.specs.Prelude.{◌≡◌, ℕ, ◌≤◌, ◌*◌, ◌^◌, Option};
ghost use Rattle.std.specs.Option.{ForSome};
ghost use Rattle.sdm_num.specs.Units.{notches};
ghost use Rattle.sdm_num.specs.Bounds.{IsEarlyFor};
ghost use Rattle.sdm_num.specs.Fractions.{Fraction};
ghost use Rattle.sdm_rules.specs.Curves.{most_slack};
ghost use Rattle.sdm_rules.specs.Limits.{computed, exact_places, limit_in};
ghost use Rattle.sdm_rules.specs.Slopes.{bands_of, meaning_of};
ghost use Rattle.sdm_rules.specs.Ranges.{top_kmh};
ghost use Rattle.sdm_laws.specs.CurveLaws.{slack_of};
ghost use Rattle.sdm_curve.specs.Made.{IsMadeFrom};
ghost use Rattle.sdm_limits.specs.Ranges.{AreTimes, IsGuide, IsNearZero, curve_reach};
ghost use Rattle.sdm_limits.specs.Sides.{AreFine, AreNear, IsEarlyWhere, IsFine, IsFineWhere, StandFor, ebd_limits_by};
ghost use Rattle.sdm_limits.specs.Sides.{limits_at, place_of, place_where, places_of, sbd_limits_by};

use crate::reaction::Reaction;
use crate::times::{T_DRIVER, T_WARNING};
use sdm_curve::{BandMap, Curve};
use sdm_num::{Early, Speed};
use sdm_rules::{LimitKind, Times};

/// The limits of a target: EBI, SBI, W, P and I, each on the safe side of the exact one. An EOA has no EBI.
/// (SUBSET-026-3 3.13.9.3)
#[derive(Clone, Copy, Debug, PartialEq, Eq)]
pub struct Limits {
    /// d_EBI, past which the emergency brake is commanded.
    pub ebi: Option<Early>,
    /// d_SBI, past which the service brake is commanded.
    pub sbi: Early,
    /// d_W, past which the driver is warned.
    pub warning: Early,
    /// d_P, past which the train is too fast.
    pub permitted: Early,
    /// d_I, from which on the driver sees the target.
    pub indication: Early,
}

impl Limits {
    /// The limit of this kind, where there is one.
    pub fn limit(&self, kind: LimitKind) -> Option<Early>
        ensures { place_where result ≡ limit_in kind (places_of self.now) }
    {
        match kind {
            LimitKind::Ebi => self.ebi,
            LimitKind::Sbi => Some(self.sbi),
            LimitKind::Warning => Some(self.warning),
            LimitKind::Permitted => Some(self.permitted),
            LimitKind::Indication => Some(self.indication),
        }
    }
}

/// The limits on an EBD at the estimated speed `v`, with the guidance curve's place at `v` where there is a guidance
/// curve. The curve was made from the map; `v` is at most 500 km/h, each time at most 300 ds, D_bec at most 10¹⁶
/// grains, and the guide lies within 10¹⁸ grains of the origin. (SUBSET-026-3 3.13.9.3; ranges own)
pub fn ebd_limits(
    safe: &BandMap,
    ebd: &Curve,
    guide: Option<Early>,
    times: &Times,
    v: Speed,
    reaction: &Reaction,
) -> Limits
    requires made { IsMadeFrom (meaning_of safe.now) ebd.now }
    requires guide { IsGuide guide }
    requires times { AreTimes times.now }
    requires speed { v ≤ notches top_kmh }
    requires distance { reaction.now.d_bec ≤ 10 ^ 16 }
    ensures at { places_of result ≡
        ebd_limits_by computed safe.now ebd.now (place_where guide) times.now v reaction.now }
    ensures stands { (g : Option Fraction) → IsEarlyWhere guide g →
        StandFor result (ebd_limits_by exact_places safe.now ebd.now g times.now v reaction.now) }
    ensures slack { (grains : ℕ) → slack_of (bands_of safe.now.uppers) ≤ grains → IsFineWhere grains guide →
        AreFine grains result }
    ensures fine { IsFineWhere most_slack guide → AreFine most_slack result }
    ensures near { AreNear result }
{
    let place = ebd.place(safe, reaction.v_bec);
    limits_at(place, Some(reaction.d_bec), guide, times, v)
}

/// The limits on an SBD, which have no EBI, at the estimated speed `v`, with the guidance curve's place at `v` where
/// there is a guidance curve. The conditions are those of `ebd_limits`. (SUBSET-026-3 3.13.9.3; ranges own)
pub fn sbd_limits(
    expected: &BandMap,
    sbd: &Curve,
    guide: Option<Early>,
    times: &Times,
    v: Speed,
) -> Limits
    requires made { IsMadeFrom (meaning_of expected.now) sbd.now }
    requires guide { IsGuide guide }
    requires times { AreTimes times.now }
    requires speed { v ≤ notches top_kmh }
    ensures at { places_of result ≡
        sbd_limits_by computed expected.now sbd.now (place_where guide) times.now v }
    ensures stands { (g : Option Fraction) → IsEarlyWhere guide g →
        StandFor result (sbd_limits_by exact_places expected.now sbd.now g times.now v) }
    ensures slack { (grains : ℕ) → slack_of (bands_of expected.now.uppers) ≤ grains → IsFineWhere grains guide →
        AreFine grains result }
    ensures fine { IsFineWhere most_slack guide → AreFine most_slack result }
    ensures near { AreNear result }
{
    limits_at(sbd.place(expected, v), None, guide, times, v)
}

/// The limits of a target by the place of its curve: of its EBD that at V_bec, with D_bec in grains; of an SBD, for
/// which no D_bec counts, that at the estimated speed `v`. The place lies within 9·10¹⁷ grains of the origin; the
/// other conditions are those of `ebd_limits`. (SUBSET-026-3 3.13.9.3; ranges own)
// In line, as the place that it goes by: a reading asks it of each target.
#[inline(always)]
pub fn limits_at(
    place: Early,
    d_bec: Option<u64>,
    guide: Option<Early>,
    times: &Times,
    v: Speed,
) -> Limits
    requires place { IsNearZero curve_reach place.at }
    requires distance { ForSome d_bec (λ d. d ≤ 10 ^ 16) }
    requires guide { IsGuide guide }
    requires times { AreTimes times.now }
    requires speed { v ≤ notches top_kmh }
    ensures at { places_of result ≡ limits_at d_bec times.now v (place_where guide) (place_of place) }
    ensures stands { (g : Option Fraction) (x : Fraction) → IsEarlyWhere guide g → IsEarlyFor place x →
        StandFor result (limits_at d_bec times.now v g x) }
    ensures slack { (grains : ℕ) → IsFineWhere grains guide → IsFine grains place → AreFine grains result }
    ensures near { AreNear result }
{
    // d_EBI = d_EBD(V_bec) - D_bec; an SBD gives none (SUBSET-026-3 3.13.9.3.2)
    let (ebi, braked) = match d_bec {
        Some(d_bec) => {
            let ebi = place.less(d_bec);
            (Some(ebi), ebi)
        }
        None => (None, place),
    };
    // d_SBI = d_EBI - V_est * T_bs, on an SBD d_SBD(V_est) - V_est * T_bs (SUBSET-026-3 3.13.9.3.3; form own)
    let sbi = braked.less(v.distance_at(times.bs));
    // d_P = d_SBI - V_est * T_driver, or the guidance curve's place where that is earlier (SUBSET-026-3 3.13.9.3.5)
    let driver = sbi.less(v.distance_at(T_DRIVER));
    let permitted = match guide {
        Some(guide) => guide.earlier(driver),
        None => driver,
    };
    Limits {
        ebi,
        sbi,
        // d_W = d_SBI - V_est * T_warning (SUBSET-026-3 3.13.9.3.4)
        warning: sbi.less(v.distance_at(T_WARNING)),
        permitted,
        // d_I = d_P - V_est * T_indication (SUBSET-026-3 3.13.9.3.6)
        indication: permitted.less(v.distance_at(times.indication)),
    }
}
