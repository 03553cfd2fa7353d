//! Lines and fields, numbers at the ends of their forms and ranges, the keys of each section, and rows up to the last
//! byte that they hold.

use crate::tests::words::{columns, number};
use sdm_text::{
    FieldFault, ROW_BYTES, RowBuf, Section, key_name, key_names, natural_in, read_int, read_wide,
    split_field, split_line, split_number, without_lf,
};

/// A field, the least and the greatest number that it may hold, the answer, and what the case shows.
const FIELDS: &str = "\
007|0|10|7|leading zeros are accepted
0|0|0|0|zero alone
-0|0|0|0|a minus sign before zero
-12|-20|20|-12|a number below zero
12|12|14|12|the least
11|12|14|OutOfRange|one below the least
14|12|14|14|the greatest
15|12|14|OutOfRange|one above the greatest
-12|-12|-10|-12|the least below zero
-13|-12|-10|OutOfRange|one below the least below zero
-9|-12|-10|OutOfRange|one above the greatest below zero
13|14|12|OutOfRange|no number is in an empty range
999999999999999999|-9223372036854775808|9223372036854775807|999999999999999999|eighteen digits
-999999999999999999|-9223372036854775808|9223372036854775807|-999999999999999999|eighteen digits below zero
000000000000000001|0|1|1|eighteen digits with leading zeros
1000000000000000000|-9223372036854775808|9223372036854775807|NotNumber|nineteen digits
0000000000000000001|0|1|NotNumber|nineteen digits with leading zeros
-0000000000000000001|-1|1|NotNumber|nineteen digits below zero
|0|10|NotNumber|an empty field
-|-10|10|NotNumber|a minus sign alone
+1|0|10|NotNumber|a plus sign
--1|-10|10|NotNumber|two minus signs
1-|-10|10|NotNumber|a minus sign at the end
1 |0|10|NotNumber|a space after
 1|0|10|NotNumber|a space before
1.0|0|10|NotNumber|a point
/|0|10|NotNumber|the byte before the digits
:|0|10|NotNumber|the byte after the digits
x|14|12|NotNumber|a field that is no number in an empty range";

/// Whether what was read is what a word says: a number, or the name of a fault.
fn is_answer(read: Result<i64, FieldFault>, word: &str) -> bool {
    match read {
        Ok(number) => word.parse::<i64>().ok() == Some(number),
        Err(FieldFault::NotNumber) => word == "NotNumber",
        Err(FieldFault::OutOfRange) => word == "OutOfRange",
    }
}

#[test]
fn a_field_is_an_optional_minus_sign_and_digits(rt: HostRuntime) -> Result<(), &'static str> {
    for line in FIELDS.lines() {
        let [field, lo, hi, answer, ..] = columns(line);
        let read = read_int(field.as_bytes(), number(lo)?, number(hi)?);
        assert!(rt; is_answer(read, answer), "{line}");
    }
    Ok(())
}

#[test]
fn lf_or_the_end_of_the_text_ends_a_line(rt: HostRuntime) {
    for (text, line, rest) in [
        ("a,b\n\nc", "a,b\n", "\nc"),
        ("\nc", "\n", "c"),
        ("c", "c", ""),
    ] {
        let found = split_line(text.as_bytes());
        assert!(rt; found == Some((line.as_bytes(), rest.as_bytes())), "{text}");
    }
    assert!(rt; split_line(b"").is_none());
    for (line, bare) in [("ab\n", "ab"), ("\n", ""), ("ab\r", "ab\r"), ("", "")] {
        assert!(rt; without_lf(line.as_bytes()) == bare.as_bytes(), "{line}");
    }
}

#[test]
fn a_comma_or_the_end_of_the_line_ends_a_field(rt: HostRuntime) {
    for (line, field, rest) in [("1,,22", "1", ",22"), (",22", "", "22"), ("1,", "1", "")] {
        let found = split_field(line.as_bytes());
        assert!(rt;
            found == Some((field.as_bytes(), rest.as_bytes())),
            "{line}"
        );
    }
    assert!(rt; split_field(b"22").is_none() && split_field(b"").is_none());
}

/// A line, the number of its first field, the line after that field's comma, and what the case shows.
const FIRST_FIELDS: &str = "\
12,7|12|7|a comma ends it
-12,x|-12|x|below zero
-0,|0||a minus sign before zero
007,-|7|-|leading zeros
123456789012345678,|123456789012345678||eighteen digits
-123456789012345678,|-123456789012345678||eighteen digits below zero
1234567890123456789,|none||nineteen digits
000000000000000000001,|none||twenty-one digits
12|none||no comma
|none||no byte
,1|none||an empty field
-|none||a minus sign alone
-,1|none||a minus sign and a comma
--1,|none||two minus signs
+1,|none||a plus sign
 1,|none||a space before
1 ,|none||a space after";

#[test]
fn the_number_of_a_first_field_is_read(rt: HostRuntime) {
    for case in FIRST_FIELDS.lines() {
        let [line, number, rest, ..] = columns(case);
        match split_number(line.as_bytes(), i64::MIN, i64::MAX) {
            Some((read, after)) => {
                assert!(rt; number.parse::<i64>().ok() == Some(read), "{case}");
                assert!(rt; after == rest.as_bytes(), "{case}");
            }
            None => assert!(rt; number == "none", "{case}"),
        }
    }
}

#[test]
fn a_first_field_out_of_its_range_is_none(rt: HostRuntime) {
    assert!(rt; split_number(b"12,", 12, 12) == Some((12, b"".as_slice())));
    for (line, least, greatest) in [("12,", 13, 20), ("12,", 0, 11), ("-1,", 0, 11)] {
        assert!(rt;
            split_number(line.as_bytes(), least, greatest).is_none(),
            "{line}"
        );
    }
}

/// A section and the names of its keys, in the order of their numbers.
const KEYS: [(Section, &str); 10] = [
    (Section::Root, "version train national track authority"),
    (
        Section::Train,
        "length max_speed rotating_mass traction_cutoff_time traction_cutoff_interface emergency_time service_time service_brake band",
    ),
    (
        Section::Band,
        "upper emergency service normal kdry kwet kn_up kn_down emergency_reduced",
    ),
    (
        Section::National,
        "avadh adhesion_max guidance service_in_target early_release inhibit_under_reading",
    ),
    (Section::Track, "length gradient speed adhesion no_special"),
    (Section::Gradient, "start grad"),
    (Section::Speed, "start speed delayed"),
    (Section::Adhesion, "start end"),
    (Section::NoSpecial, "start end"),
    (Section::Authority, "kind eoa svl release loa speed"),
];

#[test]
fn each_key_has_its_number(rt: HostRuntime) {
    for (section, names) in KEYS {
        let mut key = 0u8;
        for name in names.split(' ') {
            key = key.saturating_add(1);
            assert!(rt; key_name(section, key) == Some(name), "{name}");
        }
        assert!(rt; key_names(section).len() == usize::from(key), "{names}");
        for other in [0, key.saturating_add(1), 77] {
            assert!(rt; key_name(section, other).is_none(), "{other} of {names}");
        }
    }
}

#[test]
fn a_number_of_32_bits_is_read_in_its_range(rt: HostRuntime) {
    assert!(rt; natural_in(b"4294967295", 0, u32::MAX) == Ok(u32::MAX));
    assert!(rt; natural_in(b"-1", 0, 500) == Err(FieldFault::OutOfRange));
    assert!(rt; natural_in(b"1 km", 0, 500) == Err(FieldFault::NotNumber));
}

/// A number, and the row that `at `, the number and a comma make.
const ROWS: &str = "\
-9223372036854775808|at -9223372036854775808,
9223372036854775807|at 9223372036854775807,
0|at 0,
-7|at -7,
9|at 9,
10|at 10,
99|at 99,
100|at 100,
1005|at 1005,
9999|at 9999,
10000|at 10000,
-4512345|at -4512345,
10203040|at 10203040,
99999999|at 99999999,
100000000|at 100000000,
-200000001|at -200000001,";

#[test]
#[tactic(auto, using(sdm_text::proofs::Lengths::signed_decimal_is_short))]
fn a_row_is_what_was_put_since_it_was_cleared(rt: HostRuntime) -> Result<(), &'static str> {
    let mut row = RowBuf::new();
    assert!(rt; row.bytes().is_empty());
    for line in ROWS.lines() {
        let [word, want, ..] = columns(line);
        let n = number(word)?;
        row.clear();
        row.text(b"at ");
        row.number(n);
        row.byte(b',');
        assert!(rt; row.bytes() == want.as_bytes(), "{line}");
    }
    Ok(())
}

#[test]
fn a_row_holds_192_bytes(rt: HostRuntime) {
    let mut row = RowBuf::new();
    row.text(&[b'x'; 191]);
    row.byte(b'y');
    assert!(rt; row.bytes().len() == 192);
    assert!(rt; row.bytes()[190] == b'x' && row.bytes()[191] == b'y');
    row.clear();
    row.text(&[b'z'; ROW_BYTES]);
    assert!(rt; row.bytes().len() == 192);
}

/// A wide field, the greatest number that it may hold, the answer, and what the case shows.
const WIDE_FIELDS: &str = "\
0|0|0|zero alone
007|7|7|leading zeros are accepted
8|7|OutOfRange|one above the greatest
100000000000000000000000000000000|100000000000000000000000000000000|100000000000000000000000000000000|10^32
100000000000000000000000000000001|100000000000000000000000000000000|OutOfRange|one above 10^32
99999999999999999999999999999999999999|340282366920938463463374607431768211455|99999999999999999999999999999999999999|thirty-eight digits
000000000000000000000000000000000000001|1|NotNumber|thirty-nine digits with leading zeros
|7|NotNumber|an empty field
-1|7|NotNumber|a minus sign
+1|7|NotNumber|a plus sign
1 |7|NotNumber|a space after
/|7|NotNumber|the byte before the digits
:|7|NotNumber|the byte after the digits";

/// Whether what was read of a wide field is what a word says.
fn is_wide_answer(read: Result<u128, FieldFault>, word: &str) -> bool {
    match read {
        Ok(number) => word.parse::<u128>().ok() == Some(number),
        Err(FieldFault::NotNumber) => word == "NotNumber",
        Err(FieldFault::OutOfRange) => word == "OutOfRange",
    }
}

#[test]
#[tactic(auto, using(sdm_text::proofs::Lengths::wide_decimal_is_short))]
fn a_wide_field_is_digits_and_is_put_as_it_was_read(rt: HostRuntime) -> Result<(), &'static str> {
    for line in WIDE_FIELDS.lines() {
        let [field, hi, answer, ..] = columns(line);
        let Ok(hi) = hi.parse::<u128>() else {
            return Err("no greatest");
        };
        let read = read_wide(field.as_bytes(), hi);
        assert!(rt; is_wide_answer(read, answer), "{line}");
        if let Ok(number) = read {
            let mut row = RowBuf::new();
            row.wide(number);
            assert!(rt; row.bytes() == answer.as_bytes(), "{line}");
        }
    }
    Ok(())
}
