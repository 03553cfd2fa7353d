//! Falls as rows of feet of their curves, one of EBDs and one of guidance curves. In each row it is known which curves
//! others further on hide.

ghost use Rattle.std.specs.Prelude.{◌≡◌, ◌<◌, ◌&&◌, All, int_lt, length, nat_le, slice_index_or, true};
ghost use Rattle.sdm_rules.specs.declared.data.SlopeKind.TheVariants.{Normal, Safe};
ghost use Rattle.sdm_rules.specs.Curves.{stepped};
ghost use Rattle.sdm_rules.specs.Decelerations.{slopes_of};
ghost use Rattle.sdm_rules.specs.Slopes.{IsUsable, meaning_of};
ghost use Rattle.sdm_rules.specs.Targets.{target_speed};
ghost use Rattle.sdm_curve.specs.Made.{IsMadeFrom};
ghost use Rattle.sdm_braking.specs.KeptCurves.{IsCurveOn};
ghost use Rattle.sdm_braking.specs.KeptFalls.{IsKeptFall, KeptFallData, target_of};

use crate::braking::Braking;
use crate::falls_ahead::FallsAhead;
use sdm_curve::{BandMap, Curve};
use sdm_hiding::{Feet, Foot};
use sdm_num::Speed;
use std::marker::Model;

/// The EBDs of falls. (SUBSET-026-3 3.13.8.3; own)
#[derive(Drop)]
pub struct BrakeFeet<'a> {
    map: &'a BandMap,
    falls: FallsAhead<'a>,
}

impl<'a> Model for BrakeFeet<'a> {
    ghost use Rattle.std.specs.Prelude.{All};
    ghost use Rattle.sdm_rules.specs.Slopes.{meaning_of};
    ghost use Rattle.sdm_braking.specs.FallFeet.{IsBrakedOn};
    ghost use Rattle.sdm_braking.specs.FallRows.{RowData};

    ghost Value = { RowData };

    ghost view = { λ r. record { on = r.map.now; falls = r.falls } };

    ghost invariant = { λ r. All (λ k. IsBrakedOn (meaning_of r.map.now) k.kept) r.falls };
}

/// The guidance curves of falls. (SUBSET-026-3 3.13.8.5; own)
#[derive(Drop)]
pub struct GuideFeet<'a> {
    map: &'a BandMap,
    falls: FallsAhead<'a>,
}

impl<'a> Model for GuideFeet<'a> {
    ghost use Rattle.std.specs.Prelude.{All};
    ghost use Rattle.sdm_rules.specs.Slopes.{meaning_of};
    ghost use Rattle.sdm_braking.specs.FallFeet.{IsGuidedOn};
    ghost use Rattle.sdm_braking.specs.FallRows.{RowData};

    ghost Value = { RowData };

    ghost view = { λ r. record { on = r.map.now; falls = r.falls } };

    ghost invariant = { λ r. All (λ k. IsGuidedOn (meaning_of r.map.now) k.kept) r.falls };
}

impl<'a> FallsAhead<'a> {
    /// Their EBDs.
    pub fn brakes(&self, braking: &'a Braking) -> BrakeFeet<'a>
        requires { All (IsKeptFall braking.now) self.now }
        ensures falls { result.falls ≡ self.now }
        ensures slopes { meaning_of result.on ≡ slopes_of Safe braking.now }
        ensures usable { IsUsable (meaning_of result.on) }
    {
        let map = braking.safe();
        // with the number of its bands it is told that curves stand on the map
        prove!(1 <= map.bands());
        BrakeFeet {
            map,
            falls: FallsAhead {
                list: self.list,
                zones: self.zones,
            },
        }
    }

    /// Their guidance curves, where guidance is permitted.
    pub fn guides(&self, braking: &'a Braking) -> GuideFeet<'a>
        requires kept { All (IsKeptFall braking.now) self.now }
        requires guided { braking.now.national.guidance ≡ true }
        ensures falls { result.falls ≡ self.now }
        ensures slopes { meaning_of result.on ≡ slopes_of Normal braking.now }
        ensures usable { IsUsable (meaning_of result.on) }
    {
        let map = braking.normal();
        // with the number of its bands it is told that curves stand on the map
        prove!(1 <= map.bands());
        GuideFeet {
            map,
            falls: FallsAhead {
                list: self.list,
                zones: self.zones,
            },
        }
    }
}

/// Whether a curve hides another one, by their foot speeds. (own)
fn is_hidden(map: &BandMap, one: &Curve, speed: Speed, by: &Curve, by_speed: Speed) -> bool
    requires made { IsMadeFrom (meaning_of map.now) one.now }
    requires by_made { IsMadeFrom (meaning_of map.now) by.now }
    requires speed { one.now.speed ≡ speed }
    requires by_speed { by.now.speed ≡ by_speed }
    ensures { result ≡ (nat_le by_speed speed
        && int_lt (stepped (meaning_of map.now) by.now.place by_speed speed) one.now.place) }
{
    by_speed.notches() <= speed.notches() && one.is_hidden_by(map, by)
}

impl<'a> Feet for BrakeFeet<'a> {
    ghost use Rattle.std.specs.Prelude.{map};
    ghost use Rattle.sdm_rules.specs.Slopes.{meaning_of};
    ghost use Rattle.sdm_braking.specs.FallFeet.{brake_foot};
    ghost use Rattle.sdm_braking.specs.KeptFalls.{target_of};

    ghost on = { λ r. meaning_of r.on };

    ghost feet = { λ r. map brake_foot (map target_of r.falls) };

    fn len(&self) -> usize {
        self.falls.len()
    }

    fn foot(&self, i: usize) -> Foot {
        let kept = self.falls.target(i);
        Foot {
            place: kept.target.place,
            permitted: kept.speeds.permitted,
            speed: kept.speeds.ebi,
        }
    }

    fn hides(&self, k: usize, i: usize) -> bool {
        let further = self.falls.target(k);
        let one = self.falls.target(i);
        is_hidden(
            self.map,
            &one.brake,
            one.speeds.ebi,
            &further.brake,
            further.speeds.ebi,
        )
    }
}

impl GuideFeet<'_> {
    /// The guidance curve of a fall, counted from 0.
    fn guide(&self, i: usize) -> &Curve
        requires { i < length self.now.falls }
        ensures { (d : KeptFallData) → IsCurveOn (meaning_of self.now.on) (target_of (slice_index_or self.now.falls i d)).place
            (target_speed (target_of (slice_index_or self.now.falls i d))) result.now }
    {
        let Some(guide) = &self.falls.target(i).guide else {
            unreachable!()
        };
        guide
    }
}

impl<'a> Feet for GuideFeet<'a> {
    ghost use Rattle.std.specs.Prelude.{map};
    ghost use Rattle.sdm_rules.specs.Slopes.{meaning_of};
    ghost use Rattle.sdm_braking.specs.FallFeet.{guide_foot};
    ghost use Rattle.sdm_braking.specs.KeptFalls.{target_of};

    ghost on = { λ r. meaning_of r.on };

    ghost feet = { λ r. map guide_foot (map target_of r.falls) };

    fn len(&self) -> usize {
        self.falls.len()
    }

    fn foot(&self, i: usize) -> Foot {
        let kept = self.falls.target(i);
        Foot {
            place: kept.target.place,
            permitted: kept.speeds.permitted,
            speed: kept.speeds.permitted,
        }
    }

    fn hides(&self, k: usize, i: usize) -> bool {
        let further = self.falls.target(k).speeds.permitted;
        let one = self.falls.target(i).speeds.permitted;
        is_hidden(self.map, self.guide(i), one, self.guide(k), further)
    }
}
