//! Slope maps. At q = 100 a slope of 200,000,000,000 is 1 m/s².

use sdm_curve::{BandMap, is_map_data};
use sdm_num::Speed;
use std::alloc::Global;

/// The map of these numbers, if they are data of a map whose slopes are accepted: those of all segments in the first
/// band, and so on.
fn map_of(
    alloc: Global,
    q: u32,
    uppers: &[Speed],
    starts: &[i32],
    slopes: &[i64],
) -> Option<BandMap> {
    if !is_map_data(q, uppers, starts, slopes) {
        return None;
    }
    BandMap::new(alloc, q, uppers, starts, slopes).ok()
}

/// 1 m/s².
pub fn level(alloc: Global) -> Option<BandMap> {
    map_of(alloc, 100, &[], &[0], &[200_000_000_000])
}

/// The second segment is as the first.
pub fn alike(alloc: Global) -> Option<BandMap> {
    let slopes = [
        200_000_000_000,
        200_000_000_000,
        300_000_000_000,
        300_000_000_000,
        200_000_000_000,
        200_000_000_000,
        200_000_000_000,
        1_000_000_000_000,
    ];
    let starts = [0, 100, 200, 10_200_000];
    map_of(alloc, 100, &[Speed::new(270_000)], &starts, &slopes)
}

/// Two bands, of which some segments differ in one alone.
pub fn two(alloc: Global) -> Option<BandMap> {
    let starts = [0, 554, 747, 2546, 2596, 5978, 6911, 6968, 7536, 9487, 9727];
    let slopes = [
        556_910_200_000,
        556_910_200_000,
        556_910_200_000,
        556_910_200_000,
        377_440_800_000,
        556_910_200_000,
        377_440_800_000,
        377_440_800_000,
        377_440_800_000,
        556_910_200_000,
        556_910_200_000,
        786_812_400_000,
        616_000_000_000,
        786_812_400_000,
        616_000_000_000,
        616_000_000_000,
        616_000_000_000,
        616_000_000_000,
        786_812_400_000,
        616_000_000_000,
        616_000_000_000,
        786_812_400_000,
    ];
    map_of(alloc, 110, &[Speed::new(45_000)], &starts, &slopes)
}

/// The upper speeds of all bands but the tenth, in notches.
const UPPERS_OF_TEN: [u32; 9] = [
    195_000, 1_725_000, 2_565_000, 3_000_000, 3_090_000, 3_225_000, 3_705_000, 4_260_000, 4_440_000,
];

/// The slopes of the ten bands before 19,433.78 m, and past it, where they are greater by as much.
const SLOPES_OF_TEN: [[i64; 2]; 10] = [
    [529_380_000_000, 549_000_000_000],
    [579_780_000_000, 599_400_000_000],
    [726_380_000_000, 746_000_000_000],
    [679_680_000_000, 699_300_000_000],
    [574_392_000_000, 594_012_000_000],
    [527_580_000_000, 547_200_000_000],
    [582_380_000_000, 602_000_000_000],
    [549_880_000_000, 569_500_000_000],
    [559_420_000_000, 579_040_000_000],
    [545_980_000_000, 565_600_000_000],
];

/// Ten bands; the second of three segments is as the first.
pub fn ten(alloc: Global) -> Option<BandMap> {
    let mut uppers = [Speed::new(0); 9];
    for i in 0..9usize {
        uppers[i] = Speed::new(UPPERS_OF_TEN[i]);
    }
    let mut slopes = [0i64; 30];
    for i in 0..10usize {
        let [before, past] = SLOPES_OF_TEN[i];
        slopes[3 * i] = before;
        slopes[3 * i + 1] = before;
        slopes[3 * i + 2] = past;
    }
    map_of(alloc, 100, &uppers, &[0, 1_870_095, 1_943_378], &slopes)
}
