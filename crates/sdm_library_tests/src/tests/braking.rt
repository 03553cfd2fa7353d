//! A limit may be asked for any whole speed, whether or not a reading has it: 500 km/h is more than any reading.

ghost use Rattle.std.specs.Prelude.{◌≤◌};

use crate::tests::plain::plain_parts;
use sdm_braking::Braking;
use sdm_num::{Estimate, Place, Speed};
use sdm_targets::{Target, TargetKind};
use std::alloc::Global;

/// A train that brakes with 1 m/s² at once needs v² / 2 to stop. In mm, from v in km/h, that is v² * 25,000 / 648.
fn ebi_by_hand_mm(kmh: u16) -> i64 {
    let v = i64::from(kmh);
    (1_000_000 * 648 - v * v * 25_000).div_euclid(648)
}

fn base_braking(alloc: Global) -> Option<Braking> {
    Braking::open(alloc, plain_parts(alloc)?).ok()
}

/// The EBI in mm at a speed, before an SvL at 1000 m.
fn ebi_mm(braking: &Braking, kmh: u16) -> Option<i64>
    requires { kmh ≤ 500 }
{
    let svl = braking.keep(Target {
        kind: TargetKind::Svl,
        place: Place::of_cm(100_000),
        speed: 0,
    });
    let estimate = Estimate::new(Speed::of_kmh(kmh), 0, Speed::new(0))?;
    let limits = braking.limits(&braking.asked(estimate), &svl);
    Some(limits.ebi?.at().mm_below())
}

/// Whether the EBI at each whole speed is the one by hand.
fn is_as_by_hand(braking: &Braking) -> bool {
    for kmh in 0..=500u16 {
        if ebi_mm(braking, kmh) != Some(ebi_by_hand_mm(kmh)) {
            return false;
        }
    }
    true
}

#[test]
fn a_limit_is_asked_for_any_whole_speed(rt: HostRuntime) {
    let asked = match base_braking(rt.alloc()) {
        Some(braking) => is_as_by_hand(&braking),
        None => false,
    };
    assert!(rt; asked);
}
