//! Rows and fault lines that only a call can hand in, worked by hand; with each outcome. The others are runs of the built
//! program, in worked/.

use sdm_formats::{At, DataFault, DriveCause};
use sdm_report::{EventCause, InputFault, Outcome, outcome_bytes, row_bytes};
use sdm_rules::{
    AuthorityFault, EventFault, FieldFault, Held, OpenFault, Row, Section, SlopeKind, State, Status,
};
use sdm_text::RowBuf;

/// The line of an outcome.
fn line_of(outcome: Outcome) -> RowBuf {
    let mut line = RowBuf::new();
    outcome_bytes(&outcome, &mut line);
    line
}

/// What a line says between its head and its end, if it has both.
fn text_of<'a>(line: &'a [u8], head: &[u8]) -> Option<&'a [u8]> {
    line.strip_prefix(head)?.strip_suffix(b"\n")
}

/// Whether the line of an outcome has this head, and then this text.
fn says(outcome: Outcome, head: &[u8], text: &str) -> bool {
    text_of(line_of(outcome).bytes(), head) == Some(text.as_bytes())
}

/// No command is held.
const NOTHING: Held = Held {
    tco: false,
    sb: false,
    eb: false,
    status: Status::I,
};

/// A row without a limit.
const EMPTY: Row = Row {
    time: 0,
    state: State::R,
    held: NOTHING,
    covered: false,
    ceiling: 160,
    ebi: None,
    sbi: None,
    warning: None,
    permitted: None,
    indication: None,
};

/// The service brake alone; some limits, before the origin and at it.
const SOME_LIMITS: Row = Row {
    time: 100_000_000,
    state: State::C,
    held: Held {
        sb: true,
        ..NOTHING
    },
    ceiling: 0,
    sbi: Some(-1),
    permitted: Some(0),
    ..EMPTY
};

/// The least places, the greatest time and ceiling; and the other flags and letters.
const LEAST: Row = Row {
    time: u32::MAX,
    state: State::T,
    held: Held {
        tco: true,
        sb: false,
        eb: true,
        status: Status::X,
    },
    covered: true,
    ceiling: u16::MAX,
    ebi: Some(i64::MIN),
    sbi: Some(i64::MIN),
    warning: Some(i64::MIN),
    permitted: Some(i64::MIN),
    indication: Some(i64::MIN),
};

const ROWS: [(Row, &str); 3] = [
    (EMPTY, "0,R,I,0,0,0,0,160,-,-,-,-,-"),
    (SOME_LIMITS, "100000000,C,I,0,1,0,0,0,-,-1,-,0,-"),
    (
        LEAST,
        "4294967295,T,X,1,0,1,1,65535,-9223372036854775808,-9223372036854775808,-9223372036854775808,-9223372036854775808,-9223372036854775808",
    ),
];

#[test]
fn each_row_has_its_fields_in_order(rt: HostRuntime) {
    for (row, text) in ROWS {
        let mut told = RowBuf::new();
        row_bytes(&row, &mut told);
        assert!(rt;
            text_of(told.bytes(), b"") == Some(text.as_bytes()),
            "{text}"
        );
    }
}

/// A key of a section, by its number and the number of the entry.
fn at(section: Section, index: u32, key: u8) -> At {
    At {
        section,
        index,
        key,
    }
}

/// Entries of the greatest number, and keys that a section doesn't have.
#[test]
fn each_fault_of_the_data_has_its_line(rt: HostRuntime) {
    let index = u32::MAX;
    let faults = [
        (
            DataFault::UnknownKey {
                section: Section::Adhesion,
                index,
            },
            "bad data: unknown key in track.adhesion[4294967295]",
        ),
        (
            DataFault::UnknownKey {
                section: Section::NoSpecial,
                index,
            },
            "bad data: unknown key in track.no_special[4294967295]",
        ),
        (
            DataFault::WrongKind(at(Section::Band, index, 9)),
            "bad data: wrong kind train.band[4294967295].emergency_reduced",
        ),
        (
            DataFault::Missing(at(Section::Train, 0, 77)),
            "bad data: missing train",
        ),
        (
            DataFault::Missing(at(Section::Root, 0, 77)),
            "bad data: missing root",
        ),
        (
            DataFault::WrongKind(at(Section::Band, 7, 77)),
            "bad data: wrong kind train.band[7]",
        ),
        (
            DataFault::Value(at(Section::Authority, 0, 0)),
            "bad data: value authority",
        ),
        (DataFault::Memory, "no memory"),
    ];
    for (fault, text) in faults {
        let outcome = Outcome::BadData(InputFault::Data(fault));
        assert!(rt; says(outcome, b"sdm: ", text), "{text}");
        assert!(rt; outcome.code() == 5, "{text}");
    }
}

/// Cells before the first, bands of the greatest number; what an input can't ask for; and memory.
const OPEN_FAULTS: [(OpenFault, &str); 5] = [
    (
        OpenFault::TooWeak {
            kind: SlopeKind::Normal,
            band: 2,
            cell: -1,
            slope: 7,
        },
        "refused: too weak: normal band 2 cell -1",
    ),
    (
        OpenFault::TooWeak {
            kind: SlopeKind::Expected,
            band: u32::MAX,
            cell: i32::MIN,
            slope: 7,
        },
        "refused: too weak: expected band 4294967295 cell -2147483648",
    ),
    (
        OpenFault::TooVaried {
            kind: SlopeKind::Normal,
            band: u32::MAX,
            least: 7,
            greatest: 8,
        },
        "refused: too varied: normal band 4294967295",
    ),
    (
        OpenFault::BadAuthority(AuthorityFault::BadSpeed),
        "refused: bad speed",
    ),
    (OpenFault::Memory, "no memory"),
];

#[test]
fn each_refusal_of_an_opening_has_its_line(rt: HostRuntime) {
    for (fault, text) in OPEN_FAULTS {
        let outcome = Outcome::Refused(fault);
        assert!(rt; says(outcome, b"sdm: ", text), "{text}");
        assert!(rt; outcome.code() == 6, "{text}");
    }
}

/// Of the record of the greatest number.
fn last_record(cause: EventCause) -> Outcome {
    Outcome::BadEvent {
        number: u32::MAX,
        cause,
    }
}

#[test]
fn each_cause_has_its_text(rt: HostRuntime) {
    let field = EventCause::Form(EventFault::Field {
        column: u32::MAX,
        fault: FieldFault::OutOfRange,
    });
    let text = "field 4294967295: out of range";
    assert!(rt; says(last_record(field), b"sdm: bad event 4294967295: ", text));
    let speed = EventCause::Authority(AuthorityFault::BadSpeed);
    assert!(rt;
        says(
            last_record(speed),
            b"sdm: bad event 4294967295: ",
            "bad speed"
        )
    );
}

#[test]
fn each_outcome_has_its_code_and_its_line(rt: HostRuntime) {
    let refused_line = Outcome::BadEvent {
        number: 2,
        cause: EventCause::Line,
    };
    let outcomes = [
        (Outcome::Done, 0, ""),
        (Outcome::Usage, 1, "sdm: bad words\n"),
        (Outcome::ReadFault, 2, "sdm: read fault\n"),
        (Outcome::WriteFault, 3, "sdm: write fault\n"),
        (Outcome::TooLong, 4, "sdm: input too long\n"),
        (
            Outcome::BadData(InputFault::NoSplit),
            5,
            "sdm: bad data: no %% line\n",
        ),
        (
            Outcome::BadData(InputFault::Toml),
            5,
            "sdm: bad data: not TOML\n",
        ),
        (refused_line, 7, "sdm: bad event 2: line\n"),
        (Outcome::Memory, 8, "sdm: no memory\n"),
        (
            Outcome::Undrivable(DriveCause::NoStop),
            9,
            "sdm: not drivable: no stop\n",
        ),
        (
            Outcome::Undrivable(DriveCause::HasRelease),
            9,
            "sdm: not drivable: release speed\n",
        ),
        (
            Outcome::Undrivable(DriveCause::ShortBuild),
            9,
            "sdm: not drivable: emergency time\n",
        ),
    ];
    for (outcome, code, line) in outcomes {
        assert!(rt; outcome.code() == code, "{line}");
        assert!(rt; line_of(outcome).bytes() == line.as_bytes(), "{line}");
    }
}
