//! Fields of tables, and the inputs that they write.

use sdm_data::BASE_PART;

/// The fields of a line of a table, and empty ones after them; all are empty where they aren't so many.
pub fn fields_of<'a>(line: &'a str, between: char, count: usize) -> [&'a str; 7] {
    let mut fields = [""; 7];
    if line.split(between).count() != count {
        return fields;
    }
    let mut words = line.split(between);
    for i in 0..7usize {
        fields[i] = words.next().unwrap_or("").trim();
    }
    fields
}

/// The number of 32 bits that a field writes.
pub fn natural(field: &str) -> Result<u32, &'static str> {
    match field.parse::<u32>() {
        Ok(number) => Ok(number),
        Err(_) => Err("not a natural number"),
    }
}

/// The byte that a sign of a field writes.
fn byte_of(sign: u8) -> u8 {
    match sign {
        b'/' => b'\n',
        other => other,
    }
}

/// Whether bytes are those that a field writes.
pub fn are_bytes_of(bytes: &[u8], field: &str) -> bool {
    if field == "-" {
        return bytes.is_empty();
    }
    let signs = field.as_bytes();
    bytes.len() == signs.len()
        && bytes
            .iter()
            .zip(signs)
            .all(|(byte, sign)| *byte == byte_of(*sign))
}

/// Adds the bytes that a field writes; false where no memory is left.
pub fn put_bytes(field: &str, into: &mut Vec<u8>) -> bool {
    if field == "-" {
        return true;
    }
    for sign in field.as_bytes() {
        if into.push(byte_of(*sign)).is_err() {
            return false;
        }
    }
    true
}

/// A line of the base data, as some changes have it: each is a line, `>` and what stands in its place.
fn changed<'a>(line: &'a str, changes: &'a str) -> &'a str {
    for change in changes.split(';') {
        if let Some((old, new)) = change.split_once('>') {
            if old.trim() == line {
                return new.trim();
            }
        }
    }
    line
}

/// Adds the base data with changes.
pub fn put_part(changes: &str, into: &mut Vec<u8>) -> bool {
    for line in BASE_PART.lines() {
        if !put_bytes(changed(line, changes), into) || into.push(b'\n').is_err() {
            return false;
        }
    }
    true
}
