//! The three margins at both ends of each rise, worked by hand from dV_min + C · (V − V_min) in notches.

use sdm_ceiling::{dv_ebi, dv_sbi, dv_warning};

/// A limit in km/h, and its margins EBI, SBI and warning in notches.
const MARGINS: [(u16, u32, u32, u32); 12] = [
    (0, 112_500, 82_500, 60_000),
    (109, 112_500, 82_500, 60_000),
    (110, 112_500, 82_500, 60_000),
    (111, 113_625, 83_175, 60_500),
    (139, 145_125, 102_075, 74_500),
    (140, 146_250, 102_750, 75_000),
    (141, 147_375, 103_425, 75_000),
    (160, 168_750, 116_250, 75_000),
    (209, 223_875, 149_325, 75_000),
    (210, 225_000, 150_000, 75_000),
    (211, 225_000, 150_000, 75_000),
    (500, 225_000, 150_000, 75_000),
];

#[test]
fn margins_rise_from_110_up_to_their_greatest(rt: HostRuntime) {
    for (kmh, ebi, sbi, warning) in MARGINS {
        assert!(rt; kmh <= 500);
        assert!(rt; dv_ebi(kmh).notches() == ebi, "EBI at {kmh}");
        assert!(rt; dv_sbi(kmh).notches() == sbi, "SBI at {kmh}");
        assert!(rt; dv_warning(kmh).notches() == warning, "warning at {kmh}");
    }
}
