//! Rows worked by hand in m/s and m, at each limit of the formulas.

ghost use Rattle.std.specs.Prelude.{IfOk};
ghost use Rattle.sdm_limits.specs.Ranges.{AreTimes, IsGuide};

use sdm_curve::{BandMap, Curve, CurveFault};
use sdm_limits::{OfTrain, Reaction, Times, ebd_limits, reaction_of, sbd_limits};
use sdm_num::{Early, Place, Speed};
use std::alloc::Global;
use std::process::Abort;
use std::test::Fail;

// ---- rows

fn word(line: &str, i: usize) -> Result<&str, &'static str> {
    line.split(' ').nth(i).ok_or("a word is wanting")
}

fn natural(line: &str, i: usize) -> Result<u32, &'static str> {
    word(line, i)?.parse::<u32>().map_err(|_| "not a number")
}

fn number(line: &str, i: usize) -> Result<i32, &'static str> {
    word(line, i)?.parse::<i32>().map_err(|_| "not a number")
}

/// T_traction, T_berem, T_bs and T_indication, which a row begins with.
fn times_of_row(rt: &impl Abort, line: &str) -> Result<Times, &'static str>
    ensures { IfOk result AreTimes }
{
    let traction = natural(line, 0)?;
    let berem = natural(line, 1)?;
    let bs = natural(line, 2)?;
    let indication = natural(line, 3)?;
    assert!(rt; traction <= 300);
    assert!(rt; berem <= 300);
    assert!(rt; bs <= 300);
    assert!(rt; indication <= 300);
    Ok(Times {
        traction,
        berem,
        bs,
        indication,
    })
}

// ---- times

/// Cut-off, interface, emergency, service, in use; then T_traction, T_berem, T_bs and T_indication. All times in ds.
const TIMES: &str = "\
10 no 30 0 yes 10 20 0 90
20 yes 30 40 yes 0 30 40 90
60 yes 30 40 yes 0 30 40 90
61 yes 30 40 yes 1 29 40 90
70 yes 30 40 yes 10 20 40 90
70 yes 30 40 no 50 0 0 90
70 no 30 40 yes 70 0 40 90
29 no 30 40 yes 29 1 40 90
30 no 30 40 yes 30 0 40 90
0 no 0 0 yes 0 0 0 90
0 no 0 50 yes 0 0 50 90
0 no 0 60 yes 0 0 60 90
0 no 0 65 yes 0 0 65 92
300 no 300 300 yes 300 0 300 280
300 yes 300 300 yes 0 300 300 280
300 yes 300 300 no 280 20 0 90";

#[test]
fn a_cut_off_with_an_interface_begins_at_the_warning(rt: HostRuntime) -> Result<(), Fail> {
    for line in TIMES.lines() {
        let cut_off = natural(line, 0)?;
        let emergency = natural(line, 2)?;
        let service = natural(line, 3)?;
        assert!(rt; cut_off <= 300);
        assert!(rt; emergency <= 300);
        assert!(rt; service <= 300);
        assert!(rt; service % 5 == 0);
        let interface = word(line, 1)? == "yes";
        let in_use = word(line, 4)? == "yes";
        let expected = Times {
            traction: natural(line, 5)?,
            berem: natural(line, 6)?,
            bs: natural(line, 7)?,
            indication: natural(line, 8)?,
        };
        assert!(rt;
            Times::of(cut_off, interface, emergency, service, in_use) == expected,
            "at {line}"
        );
    }
    Ok(())
}

// ---- reaction

/// Times in ds; V_est and V_delta0 in mm/s, acceleration in cm/s², target in km/h; then V_bec in mm/s and D_bec in mm.
const REACTIONS: &str = "\
10 20 0 90 20000 0 -300 0 20000 60000
10 20 0 90 20000 0 0 0 20000 60000
10 20 0 90 20000 0 39 0 21170 61755
10 20 0 90 20000 0 40 0 21200 61800
10 20 0 90 20000 0 41 0 21210 61825
10 20 0 90 20000 0 50 0 21300 62050
10 20 0 90 20000 0 300 0 23800 68300
10 20 0 90 20000 500 50 0 21800 63550
10 20 0 90 20000 0 50 90 25800 75800
10 20 0 90 20000 0 300 81 23800 69300
0 20 0 90 20000 0 50 0 20800 40800
10 0 0 90 20000 0 50 0 20500 20250
0 0 0 90 20000 0 300 0 20000 0
300 300 300 300 100000 10000 300 0 212000 10830000";

#[test]
fn the_train_gains_speed_until_its_brake_works(rt: HostRuntime) -> Result<(), Fail> {
    for line in REACTIONS.lines() {
        let times = times_of_row(&rt, line)?;
        let v = natural(line, 4)?;
        let under = natural(line, 5)?;
        let accel = number(line, 6)?;
        let target = natural(line, 7)?;
        assert!(rt; v <= 138_888);
        assert!(rt; under <= 10_000);
        assert!(rt; -300 <= accel);
        assert!(rt; accel <= 300);
        assert!(rt; target <= 500);
        let v_bec = natural(line, 8)?;
        assert!(rt; v_bec <= 370_000);
        let d_bec_mm = natural(line, 9)?;
        let expected = Reaction {
            v_bec: Speed::of_mm_s(v_bec),
            d_bec: 540_000_000 * u64::from(d_bec_mm),
        };
        let reaction = reaction_of(
            &times,
            Speed::of_mm_s(v),
            Speed::of_mm_s(under),
            accel as i16,
            Speed::of_kmh(target as u16),
        );
        assert!(rt; reaction == expected, "at {line}");
    }
    Ok(())
}

#[test]
fn times_of_a_train_are_times_of_its_reaction(rt: HostRuntime) {
    // a cut-off of 1 s, an emergency brake of 3 s, 20 m/s and 0.5 m/s²: 21.3 m/s after 62.05 m
    let times = Times::of(10, false, 30, 0, true);
    let none = Speed::of_mm_s(0);
    let reaction = reaction_of(&times, Speed::of_mm_s(20_000), none, 50, none);
    assert!(rt; reaction.v_bec.notches() == 1_150_200);
    assert!(rt; reaction.d_bec == 33_507_000_000_000);
}

// ---- limits

/// For a train at 20 m/s and curves at 1 m/s² with their feet at 1000 m: times in ds, acceleration in cm/s², target in
/// km/h, foot speed of the EBD in m/s, guidance curve's place; then EBI, SBI, W, P and I of the EBD, and SBI, W, P and
/// I of the SBD to a stop. Places in mm.
const LIMITS: &str = "\
0 20 30 90 0 0 0 - 760000 700000 660000 620000 440000 740000 700000 660000 480000
0 20 30 90 0 0 0 600000 760000 700000 660000 600000 420000 740000 700000 600000 420000
0 20 30 90 0 0 0 620000 760000 700000 660000 620000 440000 740000 700000 620000 440000
0 20 30 90 0 0 0 640000 760000 700000 660000 620000 440000 740000 700000 640000 460000
0 20 30 90 0 0 0 730000 760000 700000 660000 620000 440000 740000 700000 660000 480000
0 0 0 90 0 0 0 - 800000 800000 760000 720000 540000 800000 760000 720000 540000
10 20 0 90 50 0 0 - 711105 711105 671105 631105 451105 800000 760000 720000 540000
0 20 30 90 0 90 30 - 1087500 1027500 987500 947500 767500 740000 700000 660000 480000
300 300 300 300 0 0 0 - -400000 -1000000 -1040000 -1080000 -1680000 200000 160000 120000 -480000";

/// One band and one slope of 1 m/s².
fn level(alloc: Global) -> Result<BandMap, CurveFault> {
    BandMap::new(alloc, 100, &[], &[0], &[200_000_000_000])
}

/// The guide of a row, if it has one.
fn guide_of_row(rt: &impl Abort, line: &str, i: usize) -> Result<Option<Early>, &'static str>
    ensures { IfOk result IsGuide }
{
    if word(line, i)? == "-" {
        return Ok(None);
    }
    let mm = number(line, i)?;
    assert!(rt; 0 <= mm);
    assert!(rt; mm <= 1_000_000);
    Ok(Some(Early::exact(Place::of_mm(mm))))
}

#[test]
fn limits_lie_before_the_place_of_the_curve(rt: HostRuntime) -> Result<(), Fail> {
    let map = level(rt.alloc()).map_err(|_| "no map")?;
    let v = Speed::of_mm_s(20_000);
    let foot = Place::of_mm(1_000_000);
    let sbd = Curve::from_foot(&map, foot, Speed::of_mm_s(0));
    for line in LIMITS.lines() {
        let times = times_of_row(&rt, line)?;
        let accel = number(line, 4)?;
        let target = natural(line, 5)?;
        let foot_speed = natural(line, 6)?;
        assert!(rt; 0 <= accel);
        assert!(rt; accel <= 300);
        assert!(rt; target <= 500);
        assert!(rt; foot_speed <= 300);
        let guide = guide_of_row(&rt, line, 7)?;
        let target = Speed::of_kmh(target as u16);
        let reaction = reaction_of(&times, v, Speed::of_mm_s(0), accel as i16, target);
        let ebd = Curve::from_foot(&map, foot, Speed::of_mm_s(1_000 * foot_speed));
        let on_ebd = ebd_limits(&map, &ebd, guide, &times, v, &reaction);
        let on_sbd = sbd_limits(&map, &sbd, guide, &times, v);
        let ebi = on_ebd.ebi.map(|e| e.at());
        assert!(rt; ebi == Some(Place::of_mm(number(line, 8)?)), "at {line}");
        assert!(rt; on_sbd.ebi == None);
        let found = [
            on_ebd.sbi,
            on_ebd.warning,
            on_ebd.permitted,
            on_ebd.indication,
            on_sbd.sbi,
            on_sbd.warning,
            on_sbd.permitted,
            on_sbd.indication,
        ];
        for (i, limit) in found.iter().enumerate() {
            assert!(rt;
                limit.at() == Place::of_mm(number(line, 9 + i)?),
                "{i} at {line}"
            );
        }
    }
    Ok(())
}
