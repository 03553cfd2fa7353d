//! Division by a number that is divided by often. With its reciprocal, which is found once, a product gives a guess of
//! the quotient, and the rest that the guess leaves tells whether it is right. So nothing needs to be known of a
//! reciprocal: a wrong one costs time, and never gives a wrong answer.

ghost use Rattle.std.specs.Prelude.{◌≡◌, ◌/◌, ◌^◌, ◌≤◌};

/// The bits of a word past its first two.
const PAST_TWO: u32 = 62;

/// The reciprocal of a divisor, as 2⁶⁴ parts of 1. The divisor is taken with its point behind its first two bits, so
/// from 2 up to 4.
pub fn reciprocal_of(divisor: u64) -> u64
    requires low { 2 ≤ divisor }
    requires high { divisor ≤ 2 ^ 62 }
{
    let shift = PAST_TWO - divisor.leading_zeros();
    (((1 << shift) << 64) / u128::from(divisor)) as u64
}

/// `n / divisor`. With the divisor's reciprocal the guess is the quotient, or one less, wherever the quotient is below
/// 2⁶¹, so for each place within 10¹⁸ grains; no clause says that, and nothing rests on it. Where the guess is neither,
/// the processor divides.
// In line: a place is asked for each target of a reading.
#[inline(always)]
pub fn quotient(n: u128, divisor: u64, reciprocal: u64) -> u128
    requires low { 2 ≤ divisor }
    requires high { divisor ≤ 2 ^ 62 }
    ensures { result ≡ n / divisor }
{
    let shift = PAST_TWO - divisor.leading_zeros();
    let top = (n >> shift) % (1 << 64);
    let guess = ((top * u128::from(reciprocal)) >> 64) as u64;
    let rest = n.wrapping_sub(u128::from(guess) * u128::from(divisor));
    if 2 * u128::from(divisor) <= rest {
        return divided(n, divisor);
    }
    let is_less = rest < u128::from(divisor);
    u128::from(if is_less { guess } else { guess + 1 })
}

/// The same by the processor.
#[cold]
#[inline(never)]
fn divided(n: u128, divisor: u64) -> u128
    requires { 2 ≤ divisor }
    ensures { result ≡ n / divisor }
{
    n / u128::from(divisor)
}
