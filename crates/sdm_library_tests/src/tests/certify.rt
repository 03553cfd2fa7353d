//! Marks that are made for claims, and lines of certificates with numbers that no reading leads to. Which marks hold, the
//! checker's answers to texts, and the certificates of readings are runs of `check` and `certify`, in worked/.

mod maps;

ghost use Rattle.sdm_rules.specs.Certificates.{IsClaimInRange};

use crate::tests::plain::{opened, plain_parts, stop};
use maps::{alike, level, ten, two};
use sdm_certify::{
    Answer, CheckFault, Checker, answer_line, certificate_of, claim_line, holds, map_line,
    map_lines, mark_line, marks_of,
};
use sdm_curve::BandMap;
use sdm_num::{Place, Reading, Speed};
use sdm_rules::{Claim, Mark};
use sdm_supervisor::Supervisor;
use sdm_text::RowBuf;
use std::alloc::Global;

// ---- marks

/// A place in grains with its energy.
type Numbers = (i64, u128);

/// From 20 m/s to 1000 m on a level track: its two knots. A metre is 540,000,000,000 grains, 1 m/s is 54,000 notches,
/// and at q = 100 the square of 1 m/s has an energy of 1,458,000,000,000,000,000,000,000.
const ON_LEVEL: [Numbers; 2] = [
    (432_000_000_000_000, 583_200_000_000_000_000_000_000_000),
    (540_000_000_000_000, 0),
];

/// Over two bands, with marks where the slope of the present one changes: by a model in whole numbers apart from this
/// program.
const ON_TWO: [Numbers; 8] = [
    (-32_455_563_344_206, 1_450_839_064_930_200_000_000_000_000),
    (2_991_600_000_000, 697_801_838_000_954_544_000_000_000),
    (4_033_800_000_000, 680_467_967_600_954_544_000_000_000),
    (13_748_400_000_000, 474_091_638_592_874_544_000_000_000),
    (37_627_200_000_000, 76_939_436_992_874_544_000_000_000),
    (40_694_400_000_000, 11_780_040_174_314_544_000_000_000),
    (41_335_711_338_042, 1_113_750_000_000_000_000_000_000),
    (41_445_000_000_000, 0),
];

/// Over ten bands, by the same model.
const ON_TEN: [Numbers; 9] = [
    (
        10_725_214_614_884_790,
        8_938_609_298_658_000_000_000_000_000,
    ),
    (
        10_860_167_094_230_415,
        6_863_512_500_000_000_000_000_000_000,
    ),
    (
        10_962_492_675_625_764,
        5_200_312_500_000_000_000_000_000_000,
    ),
    (
        10_991_344_101_064_361,
        4_774_050_000_000_000_000_000_000_000,
    ),
    (
        11_008_431_297_956_007,
        4_500_000_000_000_000_000_000_000_000,
    ),
    (
        11_072_537_070_395_113,
        3_289_612_500_000_000_000_000_000_000,
    ),
    (
        11_161_991_940_815_131,
        1_487_812_500_000_000_000_000_000_000,
    ),
    (11_252_749_364_905_889, 19_012_500_000_000_000_000_000_000),
    (11_254_032_000_000_000, 0),
];

/// At 799.99 m, 20 m/s, with brakes that work at once, before 1000 m.
fn claim_on_level() -> Claim
    ensures { IsClaimInRange result }
{
    Claim {
        time: 0,
        front: Place::new(431_994_600_000_000),
        speed: Speed::new(1_080_000),
        accel1: 0,
        accel2: 0,
        traction: 0,
        berem: 0,
        svl: Place::new(540_000_000_000_000),
    }
}

fn claim_on_two() -> Claim
    ensures { IsClaimInRange result }
{
    Claim {
        time: 20,
        front: Place::new(-5_400_000_000_000_000),
        speed: Speed::new(824_958),
        accel1: 50,
        accel2: 40,
        traction: 296,
        berem: 0,
        svl: Place::new(41_445_000_000_000),
    }
}

fn claim_on_ten() -> Claim
    ensures { IsClaimInRange result }
{
    Claim {
        time: 637_714,
        front: Place::new(5_967_334_800_000_000),
        speed: Speed::new(4_228_146),
        accel1: 0,
        accel2: 0,
        traction: 105,
        berem: 0,
        svl: Place::new(11_254_032_000_000_000),
    }
}

/// Of a train that stands at its SvL.
fn claim_at_standstill() -> Claim
    ensures { IsClaimInRange result }
{
    Claim {
        front: Place::new(540_000_000_000_000),
        speed: Speed::new(0),
        ..claim_on_level()
    }
}

/// Whether marks have these numbers.
fn are(marks: &[Mark], numbers: &[Numbers]) -> bool {
    marks.len() == numbers.len()
        && marks.iter().zip(numbers).all(|(mark, (place, energy))| mark.place == *place
            && mark.energy == *energy)
}

/// Whether the marks that are made for a claim on a map have these numbers, and hold.
fn are_made(alloc: Global, map: &BandMap, claim: &Claim, numbers: &[Numbers]) -> bool
    requires { IsClaimInRange claim.now }
{
    if map.segments() > 2_000 {
        return false;
    }
    match marks_of(alloc, map, claim) {
        Ok(made) => are(made.get(), numbers) && holds(map, claim, made.get()),
        Err(_) => false,
    }
}

/// Whether the marks of a map that there is are made so.
fn are_made_on(alloc: Global, map: Option<BandMap>, claim: &Claim, numbers: &[Numbers]) -> bool
    requires { IsClaimInRange claim.now }
{
    match map {
        Some(map) => are_made(alloc, &map, claim, numbers),
        None => false,
    }
}

#[test]
fn made_marks_are_those_of_the_model(rt: HostRuntime) {
    let alloc = rt.alloc();
    let standing: [Numbers; 1] = [(540_000_000_000_000, 0)];
    assert!(rt; are_made_on(alloc, level(alloc), &claim_on_level(), &ON_LEVEL));
    assert!(rt; are_made_on(alloc, two(alloc), &claim_on_two(), &ON_TWO));
    assert!(rt; are_made_on(alloc, ten(alloc), &claim_on_ten(), &ON_TEN));
    assert!(rt; are_made_on(alloc, level(alloc), &claim_at_standstill(), &standing));
}

/// Whether no marks at all hold for no claim on a map that there is.
fn holds_for_none(map: Option<BandMap>) -> bool {
    match map {
        Some(map) => holds(&map, &claim_on_level(), &[]),
        None => true,
    }
}

#[test]
fn no_marks_hold_for_no_claim(rt: HostRuntime) {
    assert!(rt; !holds_for_none(level(rt.alloc())));
}

// ---- certificates of readings

/// Whether a supervisor certifies a reading by the claim and the marks on a level track, or doesn't.
fn certifies(alloc: Global, supervisor: &Supervisor, front: i32) -> Option<bool> {
    let reading = Reading::new(0, front, front, front, 20_000, 0, 0)?;
    match certificate_of(alloc, supervisor, &reading) {
        Ok(Some(found)) => Some(
            found.claim == claim_on_level() && are(found.marks.get(), &ON_LEVEL),
        ),
        Ok(None) => Some(false),
        Err(_) => None,
    }
}

/// 10 mm before the EBI of the SvL, and 1 mm past it.
fn certifies_up_to_the_ebi(alloc: Global, supervisor: &Supervisor) -> bool {
    certifies(alloc, supervisor, 799_990) == Some(true)
        && certifies(alloc, supervisor, 800_001) == Some(false)
}

#[test]
fn a_certificate_claims_what_its_reading_allows(rt: HostRuntime) {
    let certified = match opened(rt.alloc(), plain_parts(rt.alloc()), stop(100_000, 100_000)) {
        Some(supervisor) => certifies_up_to_the_ebi(rt.alloc(), &supervisor),
        None => false,
    };
    assert!(rt; certified);
}

// ---- lines

/// The lines of the map `alike`: of its second segment, which is as the first, there is none.
const ALIKE: &str = "\
map,100,2,3
uppers,270000
seg,0,200000000000,200000000000
seg,200,300000000000,200000000000
seg,10200000,300000000000,1000000000000
";

/// Adds the lines of a map; false where there are too many, or no memory is left.
fn put_map(map: &BandMap, text: &mut Vec<u8>) -> bool {
    if map.segments() > 2_000 {
        return false;
    }
    for i in 0..map_lines(map) {
        let mut row = RowBuf::new();
        map_line(map, i, &mut row);
        let Ok(()) = text.extend_from_slice(row.bytes()) else {
            return false;
        };
    }
    true
}

fn is_written(alloc: Global, map: &BandMap) -> bool {
    let mut text = Vec::new(alloc);
    put_map(map, &mut text) && text.as_slice() == ALIKE.as_bytes()
}

#[test]
fn a_stretch_as_the_one_before_is_not_written(rt: HostRuntime) {
    let written = match alike(rt.alloc()) {
        Some(map) => is_written(rt.alloc(), &map),
        None => false,
    };
    assert!(rt; written);
}

/// Whether a claim with so many marks has this line.
fn is_claim_line(claim: Claim, marks: u32, line: &str) -> bool {
    let mut row = RowBuf::new();
    claim_line(&claim, marks, &mut row);
    row.bytes() == line.as_bytes()
}

fn is_mark_line(mark: Mark, line: &str) -> bool {
    let mut row = RowBuf::new();
    mark_line(&mark, &mut row);
    row.bytes() == line.as_bytes()
}

fn is_answer_line(answer: Answer, line: &str) -> bool {
    let mut row = RowBuf::new();
    answer_line(&answer, &mut row);
    row.bytes() == line.as_bytes()
}

#[test]
fn claims_marks_and_answers_are_written(rt: HostRuntime) {
    let claim = Claim {
        time: 100_000_000,
        front: Place::new(-60_000_000_000_000_000),
        speed: Speed::new(8_100_000),
        accel1: 300,
        accel2: 40,
        traction: 0,
        berem: 300,
        svl: Place::new(54_000_000_000_000_000),
    };
    let line = "claim,100000000,-60000000000000000,8100000,300,40,0,300,54000000000000000,4000\n";
    assert!(rt; is_claim_line(claim, 4_000, line));
    let mark = Mark {
        place: -999_999_999_999_999_999,
        energy: 100_000_000_000_000_000_000_000_000_000_000,
    };
    let line = "mark,-999999999999999999,100000000000000000000000000000000\n";
    assert!(rt; is_mark_line(mark, line));
    assert!(rt; is_answer_line(Answer { time: 7, yes: true }, "7,yes\n"));
}

/// The certificate of the first claim, whose last line is cut off.
const CUT_OFF: &str = "\
map,100,1,1
seg,0,200000000000
claim,0,431994600000000,1080000,0,0,0,0,540000000000000,2
mark,432000000000000,583200000000000000000000000
mark,540000000000000
";

/// Whether a checker tells twice that the fifth line is bad.
fn is_told_twice(checker: &mut Checker) -> bool {
    for _ in 0..2 {
        match checker.claim() {
            Ok(_) => return false,
            Err(bad) => {
                if bad.number != 5 {
                    return false;
                }
            }
        }
    }
    true
}

/// The number of the bad line for which a text has no checker, or whether its checker tells its fifth line twice.
fn told_of(alloc: Global, text: &[u8]) -> Option<u32> {
    if text.len() > 16_777_216 {
        return None;
    }
    match Checker::begin(alloc, text) {
        Ok(mut checker) => {
            if is_told_twice(&mut checker) {
                Some(5)
            } else {
                None
            }
        }
        Err(CheckFault::Line(bad)) => Some(bad.number),
        Err(CheckFault::Memory) => None,
    }
}

#[test]
fn a_bad_line_is_told_again(rt: HostRuntime) {
    assert!(rt; told_of(rt.alloc(), CUT_OFF.as_bytes()) == Some(5));
    assert!(rt; told_of(rt.alloc(), b"map,99,1,1\n") == Some(1));
}
