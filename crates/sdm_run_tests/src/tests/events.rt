//! What a record is, and which event it writes, worked by hand. In a table's texts `/` stands for LF, `_` for CR, and
//! any other character for the byte of its number.

use crate::tests::data::bytes_of;
use sdm_events::{ByteRecord, Records, event_of};
use std::alloc::{AllocError, Global};
use std::test::Fail;

/// The event that the first record of a text writes, or its fault; of an empty text, which has no record, that of a
/// record without fields.
fn answer(alloc: Global, text: &[u8]) -> Result<String, Fail> {
    let mut records = Records::begin(alloc, text);
    let mut record = ByteRecord::new(alloc);
    if records.next(&mut record)? == text.is_empty() {
        return Err("a record is wanting, or one too many".into());
    }
    match event_of(&record) {
        Ok(event) => Ok(format!(in alloc; "{event:?}")?),
        Err(fault) => Ok(format!(in alloc; "{fault}")?),
    }
}

/// Records and their events, and some faults: of no field, and of bytes that are no UTF-8. The other faults are runs of the
/// built program, in worked/journeys/forms.txt. A millimetre has 540,000,000 grains, a millimetre a second 54 notches.
const EVENTS: &str = "\
read,0,0,0,0,0,0,0 = Read(Reading { time: 0, est: Place { grains: 0 }, min: Place { grains: 0 }, max: Place { grains: 0 }, speed: Speed { notches: 0 }, accel: 0, under: Speed { notches: 0 } })
read,5,20,10,30,1,-1,2 = Read(Reading { time: 5, est: Place { grains: 10800000000 }, min: Place { grains: 5400000000 }, max: Place { grains: 16200000000 }, speed: Speed { notches: 54 }, accel: -1, under: Speed { notches: 108 } })
read,100000000,110000000,110000000,110000000,138888,300,10000 = Read(Reading { time: 100000000, est: Place { grains: 59400000000000000 }, min: Place { grains: 59400000000000000 }, max: Place { grains: 59400000000000000 }, speed: Speed { notches: 7499952 }, accel: 300, under: Speed { notches: 540000 } })
read,0,-10000000,-10000000,-10000000,0,-300,0 = Read(Reading { time: 0, est: Place { grains: -5400000000000000 }, min: Place { grains: -5400000000000000 }, max: Place { grains: -5400000000000000 }, speed: Speed { notches: 0 }, accel: -300, under: Speed { notches: 0 } })
read = field count
end,0,0,0 = Authority(Stop { eoa: 0, svl: 0, release: 0 })
end,10000000,9999999,500 = Authority(Stop { eoa: 10000000, svl: 9999999, release: 500 })
endcalc,0,0,0 = Calculated { eoa: 0, svl: 0, trip: 0 }
endcalc,10000000,9999999,10000000 = Calculated { eoa: 10000000, svl: 9999999, trip: 10000000 }
limit,0,1 = Authority(Limit { loa: 0, speed: 1 })
limit,10000000,500 = Authority(Limit { loa: 10000000, speed: 500 })
restrict,0,0,1,1,0 = Restrict(Restriction { id: 0, start: 0, end: 1, speed: 1, delayed: false })
restrict,65535,10000000,9999999,500,1 = Restrict(Restriction { id: 65535, start: 10000000, end: 9999999, speed: 500, delayed: true })
revoke,0 = Revoke { id: 0 }
revoke,00065535 = Revoke { id: 65535 }
read,0,x,0,y,0,0,0 = field 3: not a number
\"revoke\",\"1\" = Revoke { id: 1 }
\u{ff},1 = unknown kind
limit,100000,\u{c3}( = field 3: not a number
 = unknown kind";

#[test]
fn a_record_is_its_event_or_names_its_first_fault(rt: HostRuntime) -> Result<(), Fail> {
    let alloc = rt.alloc();
    for line in EVENTS.lines() {
        let (text, expected) = line.split_once(" = ").ok_or("no answer")?;
        let found = answer(alloc, &bytes_of(alloc, text)?)?;
        assert!(rt; found.as_str() == expected, "{line} {found}");
    }
    Ok(())
}

/// Puts each field of a record before a '|', and a ';' behind the last.
fn put_fields(record: &ByteRecord, into: &mut Vec<u8>) -> Result<(), AllocError> {
    for field in record {
        into.extend_from_slice(field)?;
        into.push(b'|')?;
    }
    into.push(b';')?;
    Ok(())
}

/// The records of a text, one behind the other. After the end no record comes.
fn shown_records(alloc: Global, text: &[u8]) -> Result<Vec<u8>, Fail> {
    let mut records = Records::begin(alloc, text);
    let mut record = ByteRecord::new(alloc);
    let mut shown = Vec::new(alloc);
    'records: while records.next(&mut record)? {
        put_fields(&record, &mut shown)?;
    }
    if records.next(&mut record)? {
        return Err("a record after the end".into());
    }
    Ok(shown)
}

/// Texts, and their records: each field before a '|', and each record before a ';'.
const RECORDS: &str = "\
=
/_/__/=
a,b//c_/_/d=a|b|;c|;d|;
a_b__c=a|;b|;c|;
a,b,/,c/,/=a|b||;|c|;||;
 a , b /= a | b |;
\"a\",1/=a|1|;
\"a/,_/\"\"b\",1/=a/,_/\"b|1|;
a\"b,c\"/=a\"b|c\"|;
\"a\"b,1/=ab|1|;
\"a,1/b=a,1/b|;
\"\"/=|;
\"=|;
\u{ef}\u{bb}\u{bf}a,1/=a|1|;
a/\u{ef}\u{bb}\u{bf}b/=a|;\u{ef}\u{bb}\u{bf}b|;
\u{ff}\0,1/#a/=\u{ff}\0|1|;#a|;
a/1,2,3/b,c=a|;1|2|3|;b|c|;
revoke,1=revoke|1|;";

#[test]
fn records_are_those_of_csv_and_none_comes_after_the_end(rt: HostRuntime) -> Result<(), Fail> {
    let alloc = rt.alloc();
    for line in RECORDS.lines() {
        let (text, expected) = line.split_once('=').ok_or("no records")?;
        let found = shown_records(alloc, &bytes_of(alloc, text)?)?;
        assert!(rt; found == bytes_of(alloc, expected)?, "{line} {found:?}");
    }
    Ok(())
}
