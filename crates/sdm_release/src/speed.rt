//! The calculated release speed: the greatest whole speed from which a train that is tripped at a place stops by the
//! SvL. The faster the train, the earlier it must be tripped, so the speed is found by halving, in nine turns.

ghost use Rattle.std.specs.Prelude.{◌≡◌, ◌≤◌, ◌≤ℤ◌};
ghost use Rattle.sdm_num.specs.Units.{top_kmh};
ghost use Rattle.sdm_rules.specs.Limits.{computed};
ghost use Rattle.sdm_rules.specs.Release.{fits, release_speed};
ghost use Rattle.sdm_rules.specs.Slopes.{IsUsable, meaning_of};
ghost use Rattle.sdm_curve.specs.Made.{IsMadeFrom};

use sdm_curve::{BandMap, Curve};
use sdm_num::{Place, Speed};
use sdm_rules::TOP_KMH;

/// As often as the speeds from 0 to 500 km/h, and 501, are halved until one is left.
const HALVINGS: u32 = 9;

/// A train that is tripped at a place, at a whole speed of at most 500 km/h, stops by the foot of its EBD: it runs on
/// at this speed until the emergency brake works, T_be ds later. (SUBSET-026-3 3.13.9.4.8; form own)
fn fits(safe: &BandMap, ebd: &Curve, t_be: u32, trip: Place, kmh: u16) -> bool
    requires made { IsMadeFrom (meaning_of safe.now) ebd.now }
    requires standing { ebd.now.speed ≡ 0 }
    requires time { t_be ≤ 300 }
    requires speed { kmh ≤ top_kmh }
    ensures value { result ≡ fits computed (meaning_of safe.now) t_be ebd.now.place trip kmh }
    ensures usable { IsUsable (meaning_of safe.now) }
{
    let speed = Speed::of_kmh(kmh);
    // d_EBD(V) - V * T_be (SUBSET-026-3 3.13.9.4.8; form own)
    let latest = ebd.place(safe, speed).less(speed.distance_at(t_be));
    !latest.is_passed_by(trip)
}

/// The calculated release speed in km/h: the greatest whole speed from 0 to 500 from which a train that is tripped at
/// the place stops by the foot of its EBD, at which the speed is 0. The EBD was made from the map; the place is at or
/// before its foot, and T_be is at most 300 ds. No memory is taken. (SUBSET-026-3 3.13.9.4.8; form own)
pub fn release_speed(safe: &BandMap, ebd: &Curve, t_be: u32, trip: Place) -> u16
    requires made { IsMadeFrom (meaning_of safe.now) ebd.now }
    requires standing { ebd.now.speed ≡ 0 }
    requires trip { trip ≤ℤ ebd.now.place }
    requires time { t_be ≤ 300 }
    ensures value { result ≡ release_speed (meaning_of safe.now) t_be ebd.now.place trip }
    ensures range { result ≤ top_kmh }
{
    let mut slow = 0;
    let mut fast = TOP_KMH as u16 + 1;
    for _turn in (0..HALVINGS).rev() {
        if fast - slow > 1 {
            let middle = slow + (fast - slow) / 2;
            if fits(safe, ebd, t_be, trip, middle) {
                slow = middle;
            } else {
                fast = middle;
            }
        }
    }
    slow
}
