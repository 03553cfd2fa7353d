//! Each public call once, at its ends where it has some; what the clauses say of all values is proved.

use sdm_num::{Early, Estimate, Late, NoMemory, Place, Reading, Speed};

#[test]
fn a_millimetre_is_540_million_grains_and_a_cell_ten_of_them(rt: HostRuntime) {
    assert!(rt; Place::of_mm(-2).grains() == -1_080_000_000);
    assert!(rt; Place::of_cm(3).grains() == 16_200_000_000);
    assert!(rt; Place::new(7).less(9).grains() == -2);
    assert!(rt; Place::new(7).more(9).grains() == 16);
    assert!(rt; Place::of_mm(19).cell() == 1);
    assert!(rt; Place::new(-1).cell() == -1);
}

#[test]
fn a_place_in_millimetres_is_rounded_towards_the_safe_side(rt: HostRuntime) {
    let below = Place::new(-1);
    assert!(rt; below.mm_below() == -1);
    assert!(rt; below.mm_above() == 0);
    let above = Place::new(540_000_001);
    assert!(rt; above.mm_below() == 1);
    assert!(rt; above.mm_above() == 2);
    assert!(rt; Place::of_mm(5).mm_below() == 5);
    assert!(rt; Place::of_mm(5).mm_above() == 5);
    assert!(rt; above.mm_past(below) == 1);
    assert!(rt; below.mm_past(above) == 0);
}

#[test]
fn a_kilometre_an_hour_is_15_000_notches(rt: HostRuntime) {
    assert!(rt; Speed::of_kmh(600).notches() == 9_000_000);
    assert!(rt; Speed::of_mm_s(370_000).notches() == 19_980_000);
    assert!(rt; Speed::new(20_000_000).notches() == 20_000_000);
}

#[test]
fn at_the_bound_is_not_past_it(rt: HostRuntime) {
    let bound = Early::new(Place::of_mm(5), 540_000_000);
    assert!(rt; !bound.is_passed_by(Place::of_mm(5)));
    assert!(rt; bound.is_passed_by(Place::new(2_700_000_001)));
    assert!(rt; bound.slack() == 540_000_000);
    assert!(rt; bound.whole_mm() == 5);
}

#[test]
fn the_earlier_of_two_keeps_the_slack_that_is_left(rt: HostRuntime) {
    let wide = Early::new(Place::new(10), 100);
    let narrow = Early::new(Place::new(40), 5);
    let both = wide.earlier(narrow);
    assert!(rt; both.at().grains() == 10);
    assert!(rt; both.slack() == 35);
    assert!(rt; narrow.earlier(wide).slack() == 35);
    let less = wide.less(4);
    assert!(rt; less.at().grains() == 6);
    assert!(rt; less.slack() == 100);
    assert!(rt; Early::exact(Place::new(3)).slack() == 0);
}

#[test]
fn the_later_of_two_is_its_mirror_image(rt: HostRuntime) {
    let wide = Late::new(Place::new(40), 100);
    let narrow = Late::new(Place::new(10), 5);
    let both = wide.later(narrow);
    assert!(rt; both.at().grains() == 40);
    assert!(rt; both.slack() == 35);
    let more = wide.more(4);
    assert!(rt; more.at().grains() == 44);
    assert!(rt; more.slack() == 100);
    assert!(rt; Late::exact(Place::new(1)).whole_mm() == 1);
}

#[test]
fn a_reading_keeps_its_numbers(rt: HostRuntime) {
    let Some(reading) = Reading::new(
        100_000_000,
        110_000_000,
        -10_000_000,
        110_000_000,
        138_888,
        -300,
        10_000,
    ) else {
        assert!(rt; false);
        return;
    };
    assert!(rt; reading.time() == 100_000_000);
    assert!(rt; reading.est_mm() == Place::of_mm(110_000_000));
    assert!(rt; reading.min_mm() == Place::of_mm(-10_000_000));
    assert!(rt; reading.max_mm() == Place::of_mm(110_000_000));
    assert!(rt; reading.speed_mm_s() == Speed::of_mm_s(138_888));
    assert!(rt; reading.accel() == -300);
    assert!(rt; reading.under_mm_s() == Speed::of_mm_s(10_000));
}

#[test]
fn one_past_a_range_is_no_reading(rt: HostRuntime) {
    assert!(rt; Reading::new(100_000_001, 0, 0, 0, 0, 0, 0).is_none());
    assert!(rt; Reading::new(0, -10_000_001, -10_000_001, 0, 0, 0, 0).is_none());
    assert!(rt; Reading::new(0, 0, 1, 1, 0, 0, 0).is_none());
    assert!(rt; Reading::new(0, 1, 0, 0, 0, 0, 0).is_none());
    assert!(rt; Reading::new(0, 0, 0, 110_000_001, 0, 0, 0).is_none());
    assert!(rt; Reading::new(0, 0, 0, 0, 138_889, 0, 0).is_none());
    assert!(rt; Reading::new(0, 0, 0, 0, 0, -301, 0).is_none());
    assert!(rt; Reading::new(0, 0, 0, 0, 0, 301, 0).is_none());
    assert!(rt; Reading::new(0, 0, 0, 0, 0, 0, 10_001).is_none());
}

#[test]
fn an_estimate_keeps_its_numbers(rt: HostRuntime) {
    let Some(estimate) = Estimate::new(Speed::of_kmh(500), 300, Speed::of_mm_s(10_000)) else {
        assert!(rt; false);
        return;
    };
    assert!(rt; estimate.speed() == Speed::of_kmh(500));
    assert!(rt; estimate.accel() == 300);
    assert!(rt; estimate.under() == Speed::of_mm_s(10_000));
    let slower = estimate.with_speed(Speed::of_kmh(7));
    assert!(rt; slower.speed() == Speed::of_kmh(7));
    assert!(rt; slower.accel() == 300);
    assert!(rt; slower.under() == Speed::of_mm_s(10_000));
}

#[test]
fn one_past_a_range_is_no_estimate(rt: HostRuntime) {
    let none = Speed::new(0);
    assert!(rt; Estimate::new(Speed::new(7_500_001), 0, none).is_none());
    assert!(rt; Estimate::new(none, -301, none).is_none());
    assert!(rt; Estimate::new(none, 301, none).is_none());
    assert!(rt; Estimate::new(none, 0, Speed::new(540_001)).is_none());
}

#[test]
fn want_of_memory_has_a_text(rt: HostRuntime) -> Result<(), &'static str> {
    let Ok(text) = format!(in rt.alloc(); "{}", NoMemory) else {
        return Err("no memory");
    };
    assert!(rt; text.as_str() == "no memory");
    Ok(())
}
