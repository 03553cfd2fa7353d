//! The curves that a supervisor lends, asked for places that were worked by hand. A train that brakes at 1 m/s² needs
//! half the difference of the squares of two speeds in m/s, as metres, from one to the other.

ghost use Rattle.std.specs.Prelude.{◌≡◌, ◌≤ℤ◌, IfSome, pos};
ghost use Rattle.sdm_rules.specs.declared.data.SlopeKind.TheVariants.{Safe};
ghost use Rattle.sdm_rules.specs.Decelerations.{slopes_of};
ghost use Rattle.sdm_rules.specs.Slopes.{meaning_of};

use crate::tests::plain::{plain_parts, stop};
use crate::tests::supervisor::restriction;
use sdm_curve::BandMap;
use sdm_decel::safe;
use sdm_num::Speed;
use sdm_supervisor::Supervisor;
use sdm_targets::Authority;
use std::alloc::Global;

/// Where the fall at a place in cm has a speed on its EBD, in mm; none where there is no fall.
fn on_fall(supervisor: &Supervisor, map: &BandMap, cell: i32, v: Speed) -> Option<i64>
    requires cell { pos 0 ≤ℤ cell }
    requires map { meaning_of map.now ≡ slopes_of Safe supervisor.now.train_and_track }
{
    let curve = supervisor.fall_curve(cell)?;
    Some(curve.place(map, v).whole_mm())
}

/// Where the EBD of the end of the authority has a speed, in mm.
fn on_end(supervisor: &Supervisor, map: &BandMap, v: Speed) -> i64
    requires { meaning_of map.now ≡ slopes_of Safe supervisor.now.train_and_track }
{
    let curve = supervisor.authority_curve();
    curve.place(map, v).whole_mm()
}

/// With the EOA and the SvL at 2000 m, and no restriction.
fn is_at_2_km(supervisor: &Supervisor, map: &BandMap) -> bool
    requires { meaning_of map.now ≡ slopes_of Safe supervisor.now.train_and_track }
{
    on_fall(supervisor, map, 50_000, Speed::of_kmh(80)).is_none()
        && on_end(supervisor, map, Speed::of_mm_s(0)) == 2_000_000
        && on_end(supervisor, map, Speed::of_mm_s(20_000)) == 1_800_000
}

/// With the restriction in force: 80 km/h has 7.5 km/h of EBI margin, and from 30 m/s it is (900 − 24.3055…²) / 2 =
/// 154.62 m to there.
fn is_restricted(supervisor: &Supervisor, map: &BandMap) -> bool
    requires { meaning_of map.now ≡ slopes_of Safe supervisor.now.train_and_track }
{
    on_fall(supervisor, map, 50_000, Speed::new(1_312_500)) == Some(500_000)
        && on_fall(supervisor, map, 50_000, Speed::of_mm_s(30_000)) == Some(345_380)
}

/// Whether the profile falls in none of the cells about the restriction but the one where it begins.
fn falls_once(supervisor: &Supervisor) -> bool {
    supervisor.fall_curve(0).is_none()
        && supervisor.fall_curve(49_999).is_none()
        && supervisor.fall_curve(50_001).is_none()
        && supervisor.fall_curve(60_000).is_none()
        && supervisor.fall_curve(70_000).is_none()
        && supervisor.fall_curve(10_200_000).is_none()
}

/// With the LOA of 60 km/h at 1500 m, where the foot speed is 67.5 km/h.
fn is_limited(supervisor: &Supervisor, map: &BandMap) -> bool
    requires { meaning_of map.now ≡ slopes_of Safe supervisor.now.train_and_track }
{
    on_end(supervisor, map, Speed::new(1_012_500)) == 1_500_000
}

/// A supervisor, and the map of A_safe of its data.
#[derive(Drop)]
struct Lender {
    supervisor: Supervisor,
    map: BandMap,
}

/// With the EOA and the SvL at the end of the track, at 2 km.
fn begun(alloc: Global) -> Option<Lender>
    ensures { IfSome result (λ o. meaning_of o.map ≡ slopes_of Safe o.supervisor.train_and_track) }
{
    let parts = plain_parts(alloc)?;
    let map = safe(alloc, &parts.train, &parts.national, &parts.track).ok()?;
    let end = stop(200_000, 200_000);
    match Supervisor::begin(alloc, parts.train, parts.national, parts.track, end) {
        Ok(supervisor) => Some(Lender { supervisor, map }),
        Err(_) => None,
    }
}

/// Takes a restriction to 80 km/h from 500 m to 600 m, until the train's end has left it at 700 m; whether the curves
/// are then its own.
fn is_restricted_by(supervisor: &mut Supervisor, map: &BandMap) -> bool
    requires { meaning_of map.now ≡ slopes_of Safe supervisor.old.train_and_track }
    ensures { meaning_of map.now ≡ slopes_of Safe supervisor.new.train_and_track }
{
    supervisor.restrict(restriction(1, 50_000, 60_000)).is_ok()
        && is_restricted(supervisor, map)
        && falls_once(supervisor)
}

/// Takes an authority to the LOA; whether the curves are then those of the restriction and of the LOA.
fn is_limited_by(supervisor: &mut Supervisor, map: &BandMap) -> bool
    requires { meaning_of map.now ≡ slopes_of Safe supervisor.old.train_and_track }
    ensures { meaning_of map.now ≡ slopes_of Safe supervisor.new.train_and_track }
{
    let authority = Authority::Limit {
        loa: 150_000,
        speed: 60,
    };
    supervisor.authority(authority).is_ok()
        && is_restricted(supervisor, map)
        && is_limited(supervisor, map)
}

/// Takes the first authority again and revokes the restriction; whether the curves are those of the beginning.
fn is_as_it_began(supervisor: &mut Supervisor, map: &BandMap) -> bool
    requires { meaning_of map.now ≡ slopes_of Safe supervisor.old.train_and_track }
{
    supervisor.authority(stop(200_000, 200_000)).is_ok()
        && supervisor.revoke(1).is_ok()
        && is_at_2_km(supervisor, map)
}

/// Asks for the curves of the beginning, of the restriction, of the LOA with it, and of the beginning again.
fn are_present(supervisor: &mut Supervisor, map: &BandMap) -> bool
    requires { meaning_of map.now ≡ slopes_of Safe supervisor.old.train_and_track }
{
    is_at_2_km(supervisor, map)
        && is_restricted_by(supervisor, map)
        && is_limited_by(supervisor, map)
        && is_as_it_began(supervisor, map)
}

#[test]
fn lent_curves_are_those_of_the_present_falls_and_authority(rt: HostRuntime) {
    let present = match begun(rt.alloc()) {
        Some(mut lender) => are_present(&mut lender.supervisor, &lender.map),
        None => false,
    };
    assert!(rt; present);
}
