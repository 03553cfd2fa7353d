//! Starts worked by hand in m/s and m: the distance to brake from V_rel is V_rel² by twice the deceleration.

ghost use Rattle.std.specs.Prelude.{◌≤◌, IfOk};
ghost use Rattle.sdm_curve.specs.Made.{IsFootPlace};
ghost use Rattle.sdm_limits.specs.Ranges.{AreTimes};

use sdm_curve::{BandMap, Curve};
use sdm_num::{Early, Place, Speed};
use sdm_release::{release_speed, release_start};
use sdm_rules::Times;
use std::alloc::Global;
use std::process::Abort;
use std::test::Fail;

fn number(line: &str, i: usize) -> Result<i64, &'static str> {
    let word = line.split(' ').nth(i).ok_or("a word is wanting")?;
    word.parse::<i64>().map_err(|_| "not a number")
}

fn natural(rt: &impl Abort, line: &str, i: usize, most: u32) -> Result<u32, &'static str>
    ensures { IfOk result (λ n. n ≤ most) }
{
    let n = number(line, i)?;
    assert!(rt; 0 <= n);
    assert!(rt; n <= i64::from(most));
    Ok(n as u32)
}

/// One band and one slope, of a deceleration in cm/s².
fn level(alloc: Global, decel: u32) -> Result<BandMap, &'static str>
    requires { decel ≤ 400 }
{
    let slope = 2_000_000_000 * i64::from(decel);
    BandMap::new(alloc, 100, &[], &[0], &[slope]).map_err(|_| "no map")
}

/// T_traction, T_berem and T_bs of a row, in ds, with the least T_indication.
fn times_of_row(rt: &impl Abort, line: &str) -> Result<Times, &'static str>
    ensures { IfOk result AreTimes }
{
    Ok(Times {
        traction: natural(rt, line, 3, 300)?,
        berem: natural(rt, line, 4, 300)?,
        bs: natural(rt, line, 5, 300)?,
        indication: 90,
    })
}

/// The place of so many metres.
fn place_of(metres: u32) -> Place
    requires { metres ≤ 100_000 }
    ensures { IsFootPlace result }
{
    Place::of_cm(100 * metres as i32)
}

/// The start of a row, with the EOA at 1000 m.
fn start_of_row(rt: &impl Abort, alloc: Global, line: &str) -> Result<Early, &'static str> {
    let safe = level(alloc, natural(rt, line, 0, 400)?)?;
    let expected = level(alloc, natural(rt, line, 1, 400)?)?;
    let svl = place_of(natural(rt, line, 2, 100_000)?);
    let eoa = place_of(1000);
    let none = Speed::of_kmh(0);
    let ebd = Curve::from_foot(&safe, svl, none);
    let sbd = Curve::from_foot(&expected, eoa, none);
    let times = times_of_row(rt, line)?;
    let release = Speed::of_kmh(natural(rt, line, 6, 500)? as u16);
    Ok(release_start(&safe, &ebd, &expected, &sbd, &times, release))
}

/// Decelerations of the EBD and the SBD in cm/s², SvL in m; T_traction, T_berem and T_bs in ds; V_rel in km/h; then
/// the start in mm, rounded down. The EOA lies at 1000 m. From 5 m/s it takes 12.5 m to brake at 1 m/s², from 10 m/s
/// 50 m, and from 138.89 m/s 9645.0617.. m.
const STARTS: &str = "\
100 100 1000 0 0 0 18 987500
100 100 1050 0 20 0 36 950000
100 100 1020 10 20 30 36 910000
100 100 1030 10 20 30 36 920000
100 100 1031 10 20 30 36 920000
50 100 1050 10 20 0 36 920000
100 50 1050 20 30 0 36 900000
100 100 1000 300 300 300 0 1000000
100 100 1000 0 0 0 500 -8645062
100 100 1000 300 300 300 500 -21145062
100 100 21000 300 300 300 500 -12811729";

#[test]
fn the_earlier_of_both_curves_decides(rt: HostRuntime) -> Result<(), Fail> {
    for line in STARTS.lines() {
        let start = start_of_row(&rt, rt.alloc(), line)?;
        assert!(rt; start.whole_mm() == number(line, 7)?, "at {line}");
        // both maps have one band, so both places may lie a grain before the exact ones, and the earlier of them too
        assert!(rt; start.slack() == 1, "at {line}");
    }
    Ok(())
}

/// The calculated release speed on a map, with these places in cm.
fn speed_from(rt: &impl Abort, safe: &BandMap, svl: u32, t_be: u32, trip: u32) -> u16
    requires svl { svl ≤ 10_000_000 }
    requires time { t_be ≤ 300 }
{
    assert!(rt; trip <= svl);
    let ebd = Curve::from_foot(safe, Place::of_cm_from_0(svl), Speed::new(0));
    release_speed(safe, &ebd, t_be, Place::of_cm_from_0(trip))
}

/// The calculated release speed of a row, with the SvL at 10 km.
fn speed_of_row(rt: &impl Abort, alloc: Global, line: &str) -> Result<u16, &'static str> {
    let safe = level(alloc, natural(rt, line, 0, 400)?)?;
    let t_be = natural(rt, line, 1, 300)?;
    let trip = natural(rt, line, 2, 1_000_000)?;
    Ok(speed_from(rt, &safe, 1_000_000, t_be, trip))
}

/// Deceleration in cm/s², T_be in ds, the place of the trip in cm, and the greatest speed in km/h. The SvL lies at
/// 1,000,000 cm. At 20 m/s, which is 72 km/h, a train with 1 m/s² and 2 s comes 40 and 200 m. With 30 s and 240 m left
/// it is 30 v + v² / 2 = 240 at 7.148 m/s, which is 25.7 km/h. From 138.89 m/s, 500 km/h, it is 9645.0617.. m at once,
/// and at 4 m/s² 2411.2654.. m.
const SPEEDS: &str = "\
100 0 1000000 0
100 300 1000000 0
100 20 976000 72
100 20 976001 71
100 20 975999 72
200 20 986000 72
200 20 986001 71
100 300 976000 25
100 0 35493 500
100 0 35494 499
100 0 0 500
400 0 758873 500
400 0 758874 499
400 300 0 500";

#[test]
fn the_greatest_speed_that_stops_is_found(rt: HostRuntime) -> Result<(), Fail> {
    for line in SPEEDS.lines() {
        let found = speed_of_row(&rt, rt.alloc(), line)?;
        assert!(rt; i64::from(found) == number(line, 3)?, "at {line}");
    }
    Ok(())
}

/// With 1 m/s² up to 10 m/s and 2 m/s² above, a train comes 50 m from there and 75 m from 20 m/s to there.
#[test]
fn each_band_brakes_as_it_does(rt: HostRuntime) -> Result<(), Fail> {
    let slopes = [200_000_000_000, 400_000_000_000];
    let Ok(safe) = BandMap::new(rt.alloc(), 100, &[Speed::of_kmh(36)], &[0], &slopes) else {
        return Err("no map")?;
    };
    assert!(rt; speed_from(&rt, &safe, 100_000, 0, 87_500) == 72);
    assert!(rt; speed_from(&rt, &safe, 100_000, 0, 87_501) == 71);
    assert!(rt; speed_from(&rt, &safe, 100_000, 0, 95_000) == 36);
    assert!(rt; speed_from(&rt, &safe, 100_000, 0, 95_001) == 35);
    Ok(())
}
