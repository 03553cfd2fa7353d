//! Whether marks hold for a claim on a map.

ghost use Rattle.std.specs.Prelude.{◌↔◌, IsTrue, All};
ghost use Rattle.sdm_rules.specs.Certificates.{start_of, Hold, IsBeginning, IsClaimInRange, IsMarkInRange};
ghost use Rattle.sdm_rules.specs.Slopes.{meaning_of, IsUsable};
ghost use Rattle.sdm_rules.specs.Stop.{StopsBy};

use crate::reach::{d_bec, v_bec};
use crate::steps::are_leading;
use sdm_curve::BandMap;
use sdm_rules::{Claim, Mark};

/// Whether the mark is at or past the claim's front end with D_bec, with at least the energy of V_bec.
fn is_beginning(map: &BandMap, claim: &Claim, mark: &Mark) -> bool
    requires claim { IsClaimInRange claim.now }
    ensures exact { IsTrue result ↔ IsBeginning (meaning_of map.now) claim.now mark.now }
    ensures usable { IsUsable (meaning_of map.now) }
{
    // the number of bands is told with it that the slopes are usable
    prove!(0 < map.bands());
    if mark.place < claim.front.grains() + d_bec(claim) as i64 {
        return false;
    }
    map.energy_of(v_bec(claim)) <= mark.energy
}

/// Whether the marks hold for the claim on the slopes of the map. Where they do, every motion from the claim stops at
/// or before the claim's `svl`, whoever made the marks. The claim and the marks are in the ranges of their lines. No
/// memory is taken. (own)
pub fn holds(map: &BandMap, claim: &Claim, marks: &[Mark]) -> bool
    requires claim { IsClaimInRange claim.now }
    requires marks { All IsMarkInRange marks.now }
    ensures exact { IsTrue result ↔ Hold (meaning_of map.now) claim.now marks.now }
    ensures stops { IsTrue result → StopsBy (meaning_of map.now) (start_of claim.now) claim.now.svl }
{
    let Some(first) = marks.first() else {
        return false;
    };
    if !is_beginning(map, claim, first) {
        return false;
    }
    are_leading(map, claim.svl, marks)
}
