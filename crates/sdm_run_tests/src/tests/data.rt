//! Where the data part ends, and each call that reads or writes data once, worked by hand. What data parts hold, and the
//! first rule that each breaks, are runs of the built program, in worked/.

use sdm_data::{
    BASE_PART, DataFault, DocumentFault, JourneyData, data_of, law_of_tables, read_document, split,
    table_of, text_of,
};
use sdm_formats::At;
use sdm_rules::Section;
use std::alloc::{AllocError, Global};
use std::test::Fail;

/// An input with `/` for LF and `_` for CR; the ends of its dividing line, `-` where it has none; what the case shows.
const INPUTS: &str = "\
a/%%/b|2 5|ended by LF
a/%%_/b|2 6|ended by CR and LF
a/%%|2 4|ended by the end of the input
%%|0 2|the only line
a/%%/b/%%/c|2 5|the first of two
/%%/|1 4|after an empty line
a%%/%%/|4 7|the end of a line is no line
|-|no input
a/b/|-|no such line
a/%%_|-|CR at the end of the input
a/%% /b|-|a space after
a/ %%/b|-|a space before
a/%%%/b|-|three signs
a/%/%/b|-|two lines of one sign
a/%%__/b|-|two CR";

/// The bytes of a text of a table: `/` stands for LF, `_` for CR, and any other character for the byte of its number.
pub fn bytes_of(alloc: Global, text: &str) -> Result<Vec<u8>, Fail> {
    let mut bytes = Vec::new(alloc);
    for c in text.chars() {
        bytes.push(match c {
            '/' => b'\n',
            '_' => b'\r',
            other => u8::try_from(other).map_err(|_| "no byte")?,
        })?;
    }
    Ok(bytes)
}

/// The ends of the dividing line, as the table tells them.
fn ends_of(alloc: Global, input: &[u8]) -> Result<String, AllocError> {
    match split(input) {
        Some((data_end, records_start)) => format!(in alloc; "{data_end} {records_start}"),
        None => String::from_str(alloc, "-"),
    }
}

#[test]
fn the_first_line_of_two_percent_signs_divides(rt: HostRuntime) -> Result<(), Fail> {
    for line in INPUTS.lines() {
        let mut words = line.split('|');
        let input = bytes_of(rt.alloc(), words.next().ok_or("no input")?)?;
        let ends = ends_of(rt.alloc(), &input)?;
        assert_eq!(rt; ends.as_str(), words.next().ok_or("no ends")?, "{line}");
    }
    Ok(())
}

/// The data of a document with its table, if it has both.
fn read(alloc: Global, document: &[u8]) -> Option<JourneyData> {
    let table = read_document(alloc, document).ok()?;
    data_of(alloc, &table).ok()
}

/// Whether the text of version 2 of these data is read to the same lengths.
fn is_written(alloc: Global, data: &JourneyData) -> bool {
    let Ok(text) = text_of(alloc, data) else {
        return false;
    };
    match read(alloc, text.as_bytes()) {
        Some(read) => read.train.length() == 10_000 && read.track.length_cm() == 200_000,
        None => false,
    }
}

fn are_read_and_written(alloc: Global) -> bool {
    match read(alloc, BASE_PART.as_bytes()) {
        Some(data) => is_written(alloc, &data) && table_of(alloc, &data).is_ok(),
        None => false,
    }
}

#[test]
fn base_data_are_read_and_written_with_ample_memory(rt: HostRuntime) {
    assert!(rt; are_read_and_written(rt.alloc()));
    law_of_tables();
}

/// `train`, the second key of a document.
const ROOT_TRAIN: At = At {
    section: Section::Root,
    index: 0,
    key: 2,
};

/// The fault of a document that is read to a table.
fn fault_of(alloc: Global, document: &[u8]) -> Option<DataFault> {
    let table = read_document(alloc, document).ok()?;
    data_of(alloc, &table).err()
}

#[test]
fn a_document_is_utf8_and_it_alone_may_begin_with_a_byte_order_mark(rt: HostRuntime) {
    let alloc = rt.alloc();
    assert!(rt; split(b"\xef\xbb\xbf%%\n").is_none());
    let marked = fault_of(alloc, b"\xef\xbb\xbfversion = 1\n");
    assert!(rt; marked == Some(DataFault::Missing(ROOT_TRAIN)));
    let comment = read_document(alloc, b"version = 1 # \xff\n");
    assert!(rt; matches!(comment, Err(DocumentFault::NotToml)));
}
