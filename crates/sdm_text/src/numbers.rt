//! Numbers as they stand in fields and words: an optional minus sign and 1 to 18 decimal digits. So many digits fit an
//! i64 whatever they are, so that a number too large for its field and a field that is no number are told apart.

ghost use Rattle.std.specs.Prelude.{◌≡◌, ◌^◌, ◌-◌, ◌<◌, ◌≤◌, ◌≤ℤ◌, pos, false, true, IfOk, IfErr, IfSome, IfNone};
ghost use Rattle.std.specs.Prelude.{Some, None, if◌then◌else◌};
ghost use Rattle.std.specs.Str.Parse.{digits_value};
ghost use Rattle.sdm_formats.specs.Numbers.{is_digits, most_digits, read_int};
ghost use Rattle.sdm_text.specs.FirstNumbers.{BeginsWithNoNumberIn, BeginsWithNumber, BeginsWithNumberIn};

use crate::lines::split_field;
use sdm_rules::FieldFault;

/// The most digits of a number. (own)
const MOST_DIGITS: usize = 18;

/// The byte `0`. A byte less it, which wraps where it is below it, is at most 9 exactly where it is a digit. (own)
pub(crate) const ZERO: u64 = b'0' as u64;

/// The number of a field, from `lo` to `hi`. Leading zeros are accepted, and `-0` is 0. The field is NotNumber where
/// it isn't an optional minus sign and 1 to 18 digits, and OutOfRange where its number is below `lo` or above `hi`.
/// (own)
// In line, with what it calls, the loop over records reads its seven numbers a reading with no call.
#[inline(always)]
#[tactic(auto, unfolding(sdm_formats::specs::Numbers::read_int))]
pub fn read_int(field: &[u8], lo: i64, hi: i64) -> Result<i64, FieldFault>
    ensures value { result ≡ read_int field.now lo hi }
    ensures range { IfOk result (λ n. (lo ≤ℤ n) × (n ≤ℤ hi)) }
{
    let number = match field {
        [b'-', digits @ ..] => -(magnitude(digits).ok_or(FieldFault::NotNumber)? as i64),
        digits => magnitude(digits).ok_or(FieldFault::NotNumber)? as i64,
    };
    if lo <= number && number <= hi {
        Ok(number)
    } else {
        Err(FieldFault::OutOfRange)
    }
}

/// The number of a field whose range has no number below 0, or the fault of `read_int`. (own)
#[inline(always)]
pub fn natural_in(field: &[u8], least: u32, greatest: u32) -> Result<u32, FieldFault>
    ensures value { IfOk result (λ n. read_int field.now (pos least) (pos greatest) ≡ Ok (pos n)) }
    ensures range { IfOk result (λ n. (least ≤ n) × (n ≤ greatest)) }
    ensures fault { IfErr result (λ fault. read_int field.now (pos least) (pos greatest) ≡ Err fault) }
{
    let number = read_int(field, i64::from(least), i64::from(greatest))?;
    Ok(number as u32)
}

/// The number that 1 to 18 digits write; none for other bytes. Digits are read in pairs, after the first of an odd
/// count.
#[inline(always)]
fn magnitude(digits: &[u8]) -> Option<u64>
    ensures value { result ≡ if is_digits digits.now then Some (digits_value 10 digits.now) else None }
    ensures fits { IfSome result (λ n. n < 10 ^ most_digits) }
{
    if digits.is_empty() || digits.len() > MOST_DIGITS {
        return None;
    }
    let mut at = digits.len() % 2;
    let mut number = if at == 1 {
        u64::from(digits[0]).wrapping_sub(ZERO)
    } else {
        0
    };
    if number > 9 {
        return None;
    }
    while at < digits.len() {
        let tens = u64::from(digits[at]).wrapping_sub(ZERO);
        let ones = u64::from(digits[at + 1]).wrapping_sub(ZERO);
        if tens > 9 || ones > 9 {
            return None;
        }
        number = 100 * number + 10 * tens + ones;
        at += 2;
    }
    Some(number)
}

/// The number of the first field of a line, from `least` to `greatest`, and the line after the comma that ends the
/// field; none where no comma does, or the field is refused. Digits are read as they are passed over. (own)
#[inline(always)]
#[tactic(auto, unfolding(sdm_formats::specs::Numbers::read_int))]
pub fn split_number(line: &[u8], least: i64, greatest: i64) -> Option<(i64, &[u8])>
    ensures some { IfSome result (λ cut. BeginsWithNumberIn line.now least greatest cut.0 cut.1.now) }
    ensures range { IfSome result (λ cut. (least ≤ℤ cut.0) × (cut.0 ≤ℤ greatest)) }
    ensures none { IfNone result (BeginsWithNoNumberIn line.now least greatest) }
{
    if let Some((number, after)) = split_digits(line) {
        let number = number as i64;
        return if least <= number && number <= greatest {
            Some((number, after))
        } else {
            None
        };
    }
    let Some((field, after)) = split_field(line) else {
        return None;
    };
    let Ok(number) = read_int(field, least, greatest) else {
        return None;
    };
    Some((number, after))
}

/// The number of a first field of 1 to 18 digits, and the line after its comma; where it answers none, the field may
/// yet be a number.
#[inline(always)]
fn split_digits(line: &[u8]) -> Option<(u64, &[u8])>
    ensures number { IfSome result (λ cut. BeginsWithNumber line.now (pos cut.0) cut.1.now) }
    ensures fits { IfSome result (λ cut. cut.0 < 10 ^ most_digits) }
{
    let prefix = &line[..line.len().min(MOST_DIGITS + 1)];
    let mut number = 0u64;
    for (count, byte) in prefix.iter().enumerate() {
        let digit = u64::from(*byte).wrapping_sub(ZERO);
        if digit > 9 {
            return if *byte == b',' && count > 0 {
                Some((number, &line[count + 1..]))
            } else {
                None
            };
        }
        number = 10 * number + digit;
    }
    None
}
