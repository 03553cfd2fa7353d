//! The digits of a number in a row, put from the first on and in pairs: so each goes to its place at once, and none is
//! moved.

ghost use Rattle.std.specs.Prelude.{◌≡◌, ◌+◌, ◌/◌, ◌%◌, ◌<◌, ◌≤◌, [], ◌∷◌, ◌++◌, length, decimal};
ghost use Rattle.std.specs.Fmt.{signed_decimal};

use crate::rows::{ROW_BYTES, RowBuf};

/// The digits of 0 to 99, two each. (own)
static PAIRS: [u8; 200] =
    *b"0001020304050607080910111213141516171819202122232425262728293031323334353637383940414243444546474849\
    5051525354555657585960616263646566676869707172737475767778798081828384858687888990919293949596979899";

/// Numbers below this have at most eight digits. (own)
const NINE_DIGITS: u64 = 100_000_000;

impl RowBuf {
    /// Puts a number in decimal digits with no leading zeros, a minus sign before a negative one: at most 20 bytes.
    // In line the numbers of a row have no calls between them.
    #[inline(always)]
    pub fn number(&mut self, n: i64)
        requires { length self.old + length (signed_decimal n) ≤ ROW_BYTES }
        ensures text { self.new ≡ self.old ++ signed_decimal n }
        ensures short { length self.new ≤ length self.old + 20 }
    {
        if n < 0 {
            self.byte(b'-');
        }
        let n = n.unsigned_abs();
        if n < 10_000 {
            self.up_to_four(n);
        } else if n < NINE_DIGITS {
            self.up_to_four(n / 10_000);
            let last = n % 10_000;
            self.two(last / 100);
            self.two(last % 100);
        } else {
            self.wide(u128::from(n));
        }
    }

    /// Puts a number of at most four digits.
    #[inline(always)]
    fn up_to_four(&mut self, n: u64)
        requires few { n < 10_000 }
        requires room { length self.old + length (decimal n) ≤ ROW_BYTES }
        ensures { self.new ≡ self.old ++ decimal n }
    {
        if n < 10 {
            self.byte(b'0' + n as u8);
        } else if n < 100 {
            self.two(n);
        } else if n < 1_000 {
            self.byte(b'0' + (n / 100) as u8);
            self.two(n % 100);
        } else {
            self.two(n / 100);
            self.two(n % 100);
        }
    }

    /// Puts two digits, the first of which may be a zero.
    #[inline(always)]
    fn two(&mut self, n: u64)
        requires few { n < 100 }
        requires room { length self.old + 2 ≤ ROW_BYTES }
        ensures { self.new ≡ self.old ++ (48 + n / 10) ∷ (48 + n % 10) ∷ [] }
    {
        let from = 2 * n as usize;
        self.byte(PAIRS[from]);
        self.byte(PAIRS[from + 1]);
    }
}
