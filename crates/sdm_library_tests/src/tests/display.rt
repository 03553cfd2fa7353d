//! Speeds found over thresholds, and lines with numbers that no reading leads to, as tables worked by hand. What is shown
//! of readings are runs of `display`, in worked/.

ghost use Rattle.std.specs.Prelude.{nat_lt};
ghost use Rattle.sdm_rules.specs.declared.display.LimitName.TheVariants.{Permitted, Sbi, Ebi};

use crate::tests::plain::{opened, plain_parts, stop};
use sdm_display::{
    Display, LimitName, Passed, Shown, TargetKind, display_bytes, display_of, greatest,
};
use sdm_num::Reading;
use sdm_supervisor::Supervisor;
use sdm_text::RowBuf;

/// Where each limit is passed at every speed above its threshold, in km/h.
#[derive(Clone, Copy)]
struct Thresholds {
    permitted: u16,
    sbi: u16,
    ebi: u16,
}

impl Passed for Thresholds {
    ghost passed = { λ t limit kmh.
        elim limit [
          | Permitted ↦ nat_lt t.permitted kmh
          | Sbi ↦ nat_lt t.sbi kmh
          | Ebi ↦ nat_lt t.ebi kmh
        ] };

    fn passed(&self, limit: LimitName, kmh: u16) -> bool {
        match limit {
            LimitName::Permitted => self.permitted < kmh,
            LimitName::Sbi => self.sbi < kmh,
            LimitName::Ebi => self.ebi < kmh,
        }
    }
}

/// Thresholds of the permitted limit, the SBI and the EBI, and the speeds found, in km/h.
const SPEEDS: [([u16; 3], [u16; 3]); 6] = [
    ([0, 0, 0], [0, 0, 0]),
    ([1, 2, 3], [1, 2, 3]),
    ([59, 72, 72], [59, 72, 72]),
    ([249, 250, 251], [249, 250, 251]),
    ([498, 499, 500], [498, 499, 500]),
    ([501, 65_535, 0], [500, 500, 0]),
];

#[test]
fn the_greatest_speed_within_each_limit_is_found(rt: HostRuntime) {
    for ([permitted, sbi, ebi], speeds) in SPEEDS {
        let thresholds = Thresholds {
            permitted,
            sbi,
            ebi,
        };
        let found = [
            greatest(&thresholds, LimitName::Permitted),
            greatest(&thresholds, LimitName::Sbi),
            greatest(&thresholds, LimitName::Ebi),
        ];
        assert!(rt; found == speeds, "{found:?}");
    }
}

/// Whether what is shown of a reading is this text, as the product prints it, but for the line feed.
fn is_displayed(display: &Display, text: &str) -> bool {
    let mut line = RowBuf::new();
    display_bytes(display, &mut line);
    line.bytes().strip_suffix(b"\n") == Some(text.as_bytes())
}

/// Time; permitted, SBI, EBI and release speed; kind of the target, if there is one, and its distance; line.
const LINES: [(u32, [u16; 4], Option<TargetKind>, i64, &str); 6] = [
    (
        0,
        [59, 72, 72, 0],
        Some(TargetKind::Eoa),
        200_010,
        "0,59,72,72,0,E,200010",
    ),
    (0, [38, 50, 50, 0], None, 0, "0,38,50,50,0,-,-"),
    (
        105,
        [160, 167, 171, 40],
        Some(TargetKind::Svl),
        2_000_000,
        "105,160,167,171,40,S,2000000",
    ),
    (7, [1, 2, 3, 4], Some(TargetKind::Mrsp), 0, "7,1,2,3,4,M,0"),
    (7, [0, 0, 0, 0], Some(TargetKind::Loa), 1, "7,0,0,0,0,L,1"),
    (
        u32::MAX,
        [500, 500, 500, 500],
        Some(TargetKind::Eoa),
        i64::MIN,
        "4294967295,500,500,500,500,E,-9223372036854775808",
    ),
];

#[test]
fn each_line_has_its_fields_in_order(rt: HostRuntime) {
    for (time, [permitted, sbi, ebi, release], kind, distance, line) in LINES {
        let display = Display {
            time,
            permitted,
            sbi,
            ebi,
            release,
            shown: kind.map(|kind| Shown {
                kind,
                speed: 0,
                distance,
            }),
        };
        assert!(rt; is_displayed(&display, line), "{line}");
    }
}

/// With 200.01 m left a train stops at 1 m/s² from 20 m/s, 72 km/h; where its driver has 4 s more, from 59.0 km/h.
fn is_shown(supervisor: &Supervisor) -> bool {
    match Reading::new(0, 799_990, 799_990, 799_990, 20_000, 0, 0) {
        Some(reading) => is_displayed(&display_of(supervisor, &reading), "0,59,72,72,0,E,200010"),
        None => false,
    }
}

#[test]
fn a_reading_shows_its_speeds_and_the_target_that_counts(rt: HostRuntime) {
    let shown = match opened(rt.alloc(), plain_parts(rt.alloc()), stop(100_000, 100_000)) {
        Some(supervisor) => is_shown(&supervisor),
        None => false,
    };
    assert!(rt; shown);
}
