//! Where release speed monitoring starts: where a train at the release speed must begin to brake for the EOA by its
//! SBD or for the SvL by its EBD, whichever comes first. Like the limits it lies a whole number of grains before
//! computed places, so it is on the same side of the exact start.
ghost use Rattle.std.specs.Prelude.{◌≡◌, ℕ, ◌≤◌};
ghost use Rattle.sdm_num.specs.Bounds.{IsEarlyFor};
ghost use Rattle.sdm_num.specs.Units.{notches};
ghost use Rattle.sdm_rules.specs.Curves.{most_slack};
ghost use Rattle.sdm_rules.specs.Limits.{computed, exact_places, release_start_at};
ghost use Rattle.sdm_rules.specs.Slopes.{bands_of, meaning_of};
ghost use Rattle.sdm_rules.specs.Ranges.{top_kmh};
ghost use Rattle.sdm_laws.specs.CurveLaws.{slack_of};
ghost use Rattle.sdm_curve.specs.Made.{IsMadeFrom};
ghost use Rattle.sdm_limits.specs.Ranges.{AreTimes};
ghost use Rattle.sdm_limits.specs.Sides.{place_of};

use sdm_curve::{BandMap, Curve};
use sdm_num::{Early, Speed};
use sdm_rules::Times;

/// Where release speed monitoring starts: the earlier of the places where a train at the release speed V_rel must
/// begin to brake for the SvL by the EBD and for the EOA by the SBD, on the safe side of the exact one. Each curve was
/// made from the map before it, each time is at most 300 ds, and V_rel is at most 500 km/h. (SUBSET-026-3 3.13.9.4;
/// form and ranges own)
pub fn release_start(
    safe: &BandMap,
    ebd: &Curve,
    expected: &BandMap,
    sbd: &Curve,
    times: &Times,
    release: Speed,
) -> Early
    requires ebd { IsMadeFrom (meaning_of safe.now) ebd.now }
    requires sbd { IsMadeFrom (meaning_of expected.now) sbd.now }
    requires times { AreTimes times.now }
    requires speed { release ≤ notches top_kmh }
    ensures at { place_of result ≡ release_start_at times.now release
        (computed (meaning_of safe.now) ebd.now.place ebd.now.speed release)
        (computed (meaning_of expected.now) sbd.now.place sbd.now.speed release) }
    ensures stands { IsEarlyFor result (release_start_at times.now release
        (exact_places (meaning_of safe.now) ebd.now.place ebd.now.speed release)
        (exact_places (meaning_of expected.now) sbd.now.place sbd.now.speed release)) }
    ensures slack { (grains : ℕ) → slack_of (bands_of safe.now.uppers) ≤ grains →
        slack_of (bands_of expected.now.uppers) ≤ grains → result.slack ≤ grains }
    ensures fine { result.slack ≤ most_slack }
{
    // d_SBD(V_rel) - V_rel * T_bs (SUBSET-026-3 3.13.9.4; form own)
    let service = release.distance_at(times.bs);
    let before_eoa = sbd.place(expected, release).less(service);
    // d_EBD(V_rel) - V_rel * (T_traction + T_berem + T_bs) (SUBSET-026-3 3.13.9.4; form own)
    let emergency = release.distance_at(times.traction + times.berem + times.bs);
    let before_svl = ebd.place(safe, release).less(emergency);
    before_eoa.earlier(before_svl)
}
