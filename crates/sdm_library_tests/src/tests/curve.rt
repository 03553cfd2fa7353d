//! Maps and places worked by hand: the distance between two speeds is the difference of their squares by twice the
//! deceleration, and at q = 100 a slope of 200,000,000,000 is 1 m/s².

ghost use Rattle.sdm_rules.specs.Slopes.{meaning_of};
ghost use Rattle.sdm_curve.specs.Made.{IsMadeFrom};

use sdm_curve::{BandMap, Curve, CurveFault, is_map_data};
use sdm_num::{Place, Speed};
use std::alloc::Global;
use std::process::Abort;

// ---- maps

fn map_of(
    rt: &impl Abort,
    alloc: Global,
    q: u32,
    uppers: &[Speed],
    starts: &[i32],
    slopes: &[i64],
) -> Result<BandMap, CurveFault> {
    assert!(rt; is_map_data(q, uppers, starts, slopes));
    BandMap::new(alloc, q, uppers, starts, slopes)
}

#[test]
fn a_slope_below_5_cm_s2_is_too_weak(rt: HostRuntime) {
    let made = map_of(&rt, rt.alloc(), 100, &[], &[0], &[9_999_999_999]);
    let fault = CurveFault::TooWeak {
        band: 1,
        cell: 0,
        slope: 9_999_999_999,
    };
    assert!(rt; made.err() == Some(fault));
    let made = map_of(&rt, rt.alloc(), 100, &[], &[0], &[10_000_000_000]);
    assert!(rt; made.is_ok());
}

/// Upper speeds of 1 m/s, 2 m/s and so on: the first of them are those of a map of one band more.
fn rising_uppers() -> [Speed; 10] {
    let mut uppers = [Speed::of_mm_s(1_000); 10];
    for i in 1..10 {
        uppers[i] = Speed::of_mm_s(1_000 * (i as u32 + 1));
    }
    uppers
}

/// The slopes of ten bands in two segments: 0.05 m/s² at q = 100, and in the second segment so many in the last band.
fn with_last(bands: usize, greatest: i64) -> [i64; 20] {
    let mut slopes = [10_000_000_000; 20];
    if 0 < bands && bands <= 10 {
        slopes[2 * bands - 1] = greatest;
    }
    slopes
}

/// A map of so many bands accepts the greatest slope in its last band, and no greater one.
fn assert_most(rt: &impl Abort, alloc: Global, bands: usize, greatest: i64) {
    assert!(rt; 0 < bands && bands <= 10);
    assert!(rt; greatest < 1_000_000_000_000);
    let rising = rising_uppers();
    let uppers = &rising[..bands - 1];
    let slopes = with_last(bands, greatest);
    let made = map_of(rt, alloc, 100, uppers, &[0, 10], &slopes[..2 * bands]);
    assert!(rt; made.is_ok());
    let slopes = with_last(bands, greatest + 1);
    let made = map_of(rt, alloc, 100, uppers, &[0, 10], &slopes[..2 * bands]);
    let fault = CurveFault::TooVaried {
        band: bands as u32,
        least: 10_000_000_000,
        greatest: greatest + 1,
    };
    assert!(rt; made.err() == Some(fault));
}

#[test]
fn up_to_eight_bands_differ_sixteenfold_nine_and_ten_eightfold(rt: HostRuntime) {
    assert_most(&rt, rt.alloc(), 1, 160_000_000_000);
    assert_most(&rt, rt.alloc(), 7, 160_000_000_000);
    assert_most(&rt, rt.alloc(), 8, 160_000_000_000);
    assert_most(&rt, rt.alloc(), 9, 80_000_000_000);
    assert_most(&rt, rt.alloc(), 10, 80_000_000_000);
}

#[test]
fn a_map_has_ten_bands_at_most(rt: HostRuntime) {
    let uppers = rising_uppers();
    let slopes = [10_000_000_000; 11];
    assert!(rt; is_map_data(100, &uppers[..9], &[0], &slopes[..10]));
    assert!(rt; !is_map_data(100, &uppers, &[0], &slopes));
}

#[test]
fn a_weak_slope_is_told_before_a_varied_band(rt: HostRuntime) {
    let slopes = [10_000_000_000, 170_000_000_000, 200_000_000_000, -7];
    let made = map_of(
        &rt,
        rt.alloc(),
        100,
        &[Speed::of_kmh(36)],
        &[0, 10],
        &slopes,
    );
    let fault = CurveFault::TooWeak {
        band: 2,
        cell: 10,
        slope: -7,
    };
    assert!(rt; made.err() == Some(fault));
}

#[test]
fn a_map_keeps_what_was_handed_in(rt: HostRuntime) -> Result<(), CurveFault> {
    let uppers = [Speed::of_kmh(36), Speed::of_kmh(72)];
    let slopes = [
        200_000_000_000,
        210_000_000_000,
        220_000_000_000,
        230_000_000_000,
        240_000_000_000,
        250_000_000_000,
    ];
    let map = map_of(&rt, rt.alloc(), 109, &uppers, &[0, 80_000], &slopes)?;
    assert!(rt; map.q() == 109);
    assert!(rt; map.bands() == 3);
    assert!(rt; map.segments() == 2);
    assert!(rt; map.upper(1) == Speed::of_kmh(72));
    assert!(rt; map.start(1) == 80_000);
    assert!(rt; map.slope(1, 0) == 220_000_000_000);
    assert!(rt; map.slope(2, 1) == 250_000_000_000);
    Ok(())
}

// ---- greatest slopes

/// Cells from one to another, and the greatest slope in them.
#[derive(Clone, Copy)]
struct Cells(i32, i32, i64);

fn assert_greatest(rt: &impl Abort, map: &BandMap, cases: &[Cells]) {
    for case in cases {
        assert!(rt; case.0 <= case.1);
        assert!(rt; map.greatest(case.0, case.1) == case.2);
    }
}

#[test]
fn the_greatest_slope_is_that_of_any_band_in_any_of_the_cells(
    rt: HostRuntime,
) -> Result<(), CurveFault> {
    let slopes = [
        200_000_000_000,
        100_000_000_000,
        400_000_000_000,
        140_000_000_000,
        160_000_000_000,
        180_000_000_000,
        120_000_000_000,
        220_000_000_000,
    ];
    let starts = [0, 100, 200, 300];
    let map = map_of(&rt, rt.alloc(), 100, &[Speed::of_kmh(36)], &starts, &slopes)?;
    let cases = [
        Cells(-50, -1, 200_000_000_000),
        Cells(0, 99, 200_000_000_000),
        Cells(99, 100, 200_000_000_000),
        Cells(100, 199, 180_000_000_000),
        Cells(100, 200, 400_000_000_000),
        Cells(150, 350, 400_000_000_000),
        Cells(299, 300, 400_000_000_000),
        Cells(300, 300, 220_000_000_000),
        Cells(301, i32::MAX, 220_000_000_000),
        Cells(i32::MIN, i32::MAX, 400_000_000_000),
    ];
    assert_greatest(&rt, &map, &cases);
    Ok(())
}

// ---- places

/// A metre in grains, and 1 m/s in notches.
const METRE: i64 = 540_000_000_000;

const M_S: u32 = 54_000;

/// A curve by its foot in metres and its foot speed in notches, a speed in notches, and the curve's place of that
/// speed in grains.
#[derive(Clone, Copy)]
struct Case(i32, u32, u32, i64);

fn curve_of(rt: &impl Abort, map: &BandMap, foot: i32, foot_speed: u32) -> Curve
    ensures { IsMadeFrom (meaning_of map.now) result }
{
    assert!(rt; -1_000 <= foot);
    assert!(rt; foot <= 110_000);
    assert!(rt; foot_speed <= 20_000_000);
    Curve::from_foot(map, Place::of_mm(1_000 * foot), Speed::new(foot_speed))
}

/// Each place is as the case says, asked by its speed and by the speed that was asked of the map. Its slack is that of
/// the map's bands: 1 grain for one band, and with up to eight bands sixteen times as much and 1 more for each further
/// one.
fn assert_places(rt: &impl Abort, map: &BandMap, slack: u32, cases: &[Case]) {
    for case in cases {
        let curve = curve_of(rt, map, case.0, case.1);
        assert!(rt; case.2 <= 20_000_000);
        let asked = map.asked(Speed::new(case.2));
        assert!(rt; asked.speed().notches() == case.2);
        let place = curve.place(map, Speed::new(case.2));
        assert!(rt; place.at().grains() == case.3);
        assert!(rt; place.slack() == slack);
        assert!(rt; curve.place_asked(map, &asked) == place);
    }
}

#[test]
fn places_between_bands_and_segments(rt: HostRuntime) -> Result<(), CurveFault> {
    // 50 m at 1 m/s² up to 36 km/h, then 300 m at 0.5 m/s²
    let slopes = [200_000_000_000, 100_000_000_000];
    let bands = map_of(&rt, rt.alloc(), 100, &[Speed::of_kmh(36)], &[0], &slopes)?;
    let cases = [
        Case(1_000, 0, 20 * M_S, 650 * METRE),
        Case(1_000, 0, 10 * M_S, 950 * METRE),
        Case(1_000, 10 * M_S, 20 * M_S, 700 * METRE),
        Case(1_000, 10 * M_S, 0, 1_050 * METRE),
        Case(1_000, 10 * M_S, 10 * M_S, 1_000 * METRE),
    ];
    assert_places(&rt, &bands, 17, &cases);
    // 200 m at 0.5 m/s² back to 800 m, then 100 m at 1 m/s²
    let segments = map_of(&rt, rt.alloc(), 100, &[], &[0, 80_000], &slopes)?;
    assert_places(&rt, &segments, 1, &[Case(1_000, 0, 20 * M_S, 700 * METRE)]);
    Ok(())
}

#[test]
fn places_at_the_border_of_a_segment(rt: HostRuntime) -> Result<(), CurveFault> {
    // 1 m/s² up to 900 m, and then 0.5 m/s². At 10 m/s a notch takes 100,000,000 grains at 1 m/s² and twice as many at
    // 0.5 m/s²; the square of a notch takes 92.6 grains at 1 m/s²
    let slopes = [200_000_000_000, 100_000_000_000];
    let map = map_of(&rt, rt.alloc(), 100, &[], &[0, 90_000], &slopes)?;
    let cases = [
        Case(1_000, 0, 10 * M_S - 1, 486_000_199_999_814),
        Case(1_000, 0, 10 * M_S, 900 * METRE),
        Case(1_000, 0, 10 * M_S + 1, 485_999_899_999_907),
        Case(850, 10 * M_S, 1, 485_999_999_999_907),
        Case(850, 10 * M_S, 0, 900 * METRE),
        Case(900, 10 * M_S, 0, 1_000 * METRE),
        Case(900, 0, 10 * M_S, 850 * METRE),
    ];
    assert_places(&rt, &map, 1, &cases);
    Ok(())
}

#[test]
fn below_the_foot_speed_a_curve_runs_on_past_its_foot(rt: HostRuntime) -> Result<(), CurveFault> {
    let flat = map_of(&rt, rt.alloc(), 100, &[], &[0], &[200_000_000_000])?;
    assert_places(
        &rt,
        &flat,
        1,
        &[Case(1_000, 20 * M_S, 10 * M_S, 1_150 * METRE)],
    );
    // 125 m at 2 m/s² to 20 m/s, 150 m at 1 m/s² to 10 m/s and 100 m at 0.5 m/s²
    let uppers = [Speed::of_kmh(36), Speed::of_kmh(72)];
    let slopes = [100_000_000_000, 200_000_000_000, 400_000_000_000];
    let bands = map_of(&rt, rt.alloc(), 100, &uppers, &[0], &slopes)?;
    let cases = [
        Case(0, 30 * M_S, 0, 375 * METRE),
        Case(0, 30 * M_S, 20 * M_S, 125 * METRE),
    ];
    assert_places(&rt, &bands, 273, &cases);
    // 100 m at 1 m/s² up to the last segment, then 600 m at 0.5 m/s²
    let slopes = [200_000_000_000, 100_000_000_000];
    let segments = map_of(&rt, rt.alloc(), 100, &[], &[0, 110_000], &slopes)?;
    let cases = [Case(1_000, 30 * M_S, 10 * M_S, 1_700 * METRE)];
    assert_places(&rt, &segments, 1, &cases);
    Ok(())
}

#[test]
fn the_first_and_the_last_slope_go_on_without_end(rt: HostRuntime) -> Result<(), CurveFault> {
    let slopes = [200_000_000_000, 100_000_000_000];
    let near = map_of(&rt, rt.alloc(), 100, &[], &[0, 10_000], &slopes)?;
    let cases = [
        Case(-500, 0, 20 * M_S, -700 * METRE),
        Case(-500, 20 * M_S, 0, -300 * METRE),
    ];
    assert_places(&rt, &near, 1, &cases);
    let far = map_of(&rt, rt.alloc(), 100, &[], &[0, i32::MAX], &slopes)?;
    let cases = [
        Case(1_000, 20 * M_S, 0, 1_200 * METRE),
        Case(110_000, 0, 20 * M_S, 109_800 * METRE),
    ];
    assert_places(&rt, &far, 1, &cases);
    Ok(())
}

#[test]
fn places_are_rounded_down_at_each_border_and_at_the_end(
    rt: HostRuntime,
) -> Result<(), CurveFault> {
    // 20² / (2 · 0.91) m before 1000 m
    let flat = map_of(&rt, rt.alloc(), 109, &[], &[0], &[198_380_000_000])?;
    let cases = [Case(1_000, 0, 20 * M_S, 421_318_681_318_681)];
    assert_places(&rt, &flat, 1, &cases);
    // the exact place is 860 m; the stepped one is a grain earlier, since the place of 5 m/s is rounded down first
    let slopes = [140_000_000_000, 140_000_000_000];
    let bands = map_of(&rt, rt.alloc(), 100, &[Speed::of_kmh(18)], &[0], &slopes)?;
    let cases = [Case(1_000, 0, 14 * M_S, 464_399_999_999_999)];
    assert_places(&rt, &bands, 17, &cases);
    Ok(())
}

// ---- many segments

/// Segments with their first cells and slopes.
#[derive(Drop)]
struct Segments {
    starts: Vec<i32>,
    slopes: Vec<i64>,
}

/// Segments of equal length, whose slopes go by turns.
fn by_turns(
    alloc: Global,
    count: i32,
    cells: i32,
    even: i64,
    odd: i64,
) -> Result<Segments, CurveFault> {
    let mut starts = Vec::new(alloc);
    let mut slopes = Vec::new(alloc);
    for i in 0..count {
        starts
            .push(cells.wrapping_mul(i))
            .map_err(|_| CurveFault::Memory)?;
        let slope = if i % 2 == 0 { even } else { odd };
        slopes.push(slope).map_err(|_| CurveFault::Memory)?;
    }
    Ok(Segments { starts, slopes })
}

/// 640 uneven segments over some 9.6 km: segment `i` begins at cell 1500 i + (37 i mod 500), and in band `b`, counted
/// from 0, has the slope of 5 · (1 + (7 i + 3 b) mod 15) cm/s².
fn uneven(alloc: Global) -> Result<Segments, CurveFault> {
    let mut starts = Vec::new(alloc);
    let mut slopes = Vec::new(alloc);
    for i in 0u32..640 {
        let start = 1_500 * i + 37 * i % 500;
        starts.push(start as i32).map_err(|_| CurveFault::Memory)?;
    }
    for band in 0u32..8 {
        for i in 0u32..640 {
            let slope = 10_000_000_000 * i64::from(1 + (7 * i + 3 * band) % 15);
            slopes.push(slope).map_err(|_| CurveFault::Memory)?;
        }
    }
    Ok(Segments { starts, slopes })
}

#[test]
fn a_place_among_a_thousand_segments(rt: HostRuntime) -> Result<(), CurveFault> {
    let turns = by_turns(rt.alloc(), 1_000, 100, 200_000_000_000, 100_000_000_000)?;
    let map = map_of(&rt, rt.alloc(), 100, &[], &turns.starts, &turns.slopes)?;
    assert_places(&rt, &map, 1, &[Case(1_000, 0, 20 * M_S, 733 * METRE)]);
    Ok(())
}

/// The places were worked out segment by segment and band by band in whole fractions, by a program apart from this
/// one.
#[test]
fn places_among_640_segments_in_eight_bands(rt: HostRuntime) -> Result<(), CurveFault> {
    let uppers = [
        Speed::of_kmh(36),
        Speed::of_kmh(72),
        Speed::of_kmh(108),
        Speed::of_kmh(144),
        Speed::of_kmh(180),
        Speed::of_kmh(216),
        Speed::of_kmh(252),
    ];
    let uneven = uneven(rt.alloc())?;
    let map = map_of(
        &rt,
        rt.alloc(),
        100,
        &uppers,
        &uneven.starts,
        &uneven.slopes,
    )?;
    let cases = [
        Case(8_000, 0, 100 * M_S, -2_720_213_106_733_825),
        Case(8_000, 0, 30 * M_S, 3_751_297_439_062_500),
        Case(9_500, 90 * M_S, 0, 15_143_682_685_054_943),
        Case(5_000, 50 * M_S, 20 * M_S, 4_115_970_180_000_000),
        Case(5_000, 50 * M_S, 75 * M_S, 602_159_670_000_000),
        Case(5_000, 50 * M_S, 50 * M_S, 2_700_000_000_000_000),
        Case(5_000, 45 * M_S, 50 * M_S - 1, 2_398_192_549_999_768),
        Case(5_000, 45 * M_S, 50 * M_S, 2_398_191_300_000_000),
        Case(5_000, 45 * M_S, 50 * M_S + 1, 2_398_190_390_908_922),
        Case(5_000, 55 * M_S, 50 * M_S - 1, 3_060_441_113_333_179),
        Case(5_000, 55 * M_S, 50 * M_S, 3_060_440_280_000_000),
        Case(5_000, 55 * M_S, 50 * M_S + 1, 3_060_439_613_333_209),
        Case(-500, 0, 60 * M_S, -8_292_560_439_560_440),
        Case(-500, 60 * M_S, 0, 2_366_831_472_167_831),
    ];
    assert_places(&rt, &map, 286_331_153, &cases);
    Ok(())
}

#[test]
fn a_million_places_among_a_million_segments(rt: HostRuntime) -> Result<(), CurveFault> {
    let turns = by_turns(rt.alloc(), 1_000_000, 10, 20_000_000_000, 10_000_000_000)?;
    let map = map_of(&rt, rt.alloc(), 100, &[], &turns.starts, &turns.slopes)?;
    let curve = Curve::from_foot(&map, Place::of_mm(100_000_000), Speed::new(0));
    let mut last = Place::of_mm(100_000_000).grains();
    for notches in 5_480_001..6_480_001 {
        let at = curve.place(&map, Speed::new(notches)).at().grains();
        assert!(rt; at < last);
        last = at;
    }
    assert!(rt; last == 4_000 * METRE);
    Ok(())
}
