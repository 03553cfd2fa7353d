//! Wide numbers, which may exceed 18 digits: 1 to 38 decimal digits with no sign. So many digits fit a u128 whatever
//! they are.

ghost use Rattle.std.specs.Prelude.{◌≡◌, ◌+◌, ◌≤◌, ◌++◌, length, decimal, Some, None, IfOk, if◌then◌else◌};
ghost use Rattle.std.specs.Str.Parse.{digits_value};
ghost use Rattle.sdm_formats.specs.Numbers.{is_digits_of, most_wide_digits, read_wide};

use crate::numbers::ZERO;
use crate::rows::{ROW_BYTES, RowBuf};
use itoa::Buffer;
use sdm_rules::FieldFault;

/// The most digits of a wide number. (own)
const MOST_WIDE_DIGITS: usize = 38;

/// The wide number of a field, up to `hi`. Leading zeros are accepted. The field is NotNumber where it isn't 1 to 38
/// digits, and OutOfRange where its number is above `hi`. (own)
#[tactic(auto, unfolding(sdm_formats::specs::Numbers::read_wide))]
pub fn read_wide(field: &[u8], hi: u128) -> Result<u128, FieldFault>
    ensures value { result ≡ read_wide field.now hi }
    ensures range { IfOk result (λ n. n ≤ hi) }
{
    let number = wide_magnitude(field).ok_or(FieldFault::NotNumber)?;
    if number <= hi {
        Ok(number)
    } else {
        Err(FieldFault::OutOfRange)
    }
}

/// The number that 1 to 38 digits write; none for other bytes.
fn wide_magnitude(digits: &[u8]) -> Option<u128>
    ensures { result ≡ if is_digits_of most_wide_digits digits.now then Some (digits_value 10 digits.now) else None }
{
    if digits.is_empty() || digits.len() > MOST_WIDE_DIGITS {
        return None;
    }
    let mut number = 0u128;
    for (count, byte) in digits.iter().enumerate() {
        let digit = u64::from(*byte).wrapping_sub(ZERO);
        if digit > 9 {
            return None;
        }
        number = 10 * number + u128::from(digit);
    }
    Some(number)
}

impl RowBuf {
    /// Puts a wide number in decimal digits with no leading zeros: at most 39 bytes.
    // Out of line, `number` stays small where it puts nine digits or more by this: few numbers of a row have so many.
    #[inline(never)]
    pub fn wide(&mut self, n: u128)
        requires { length self.old + length (decimal n) ≤ ROW_BYTES }
        ensures { self.new ≡ self.old ++ decimal n }
    {
        let mut digits = Buffer::new();
        self.text(digits.format(n).as_bytes());
    }
}
