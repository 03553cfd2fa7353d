//! Binary digits, by which a search that halves is seen to end in so many turns.

ghost use Rattle.std.specs.Prelude.{◌≡◌, ◌+◌, ◌*◌, ◌^◌, ◌<◌, ◌≤◌};

/// How many binary digits a number has.
pub fn digits(n: usize) -> u32
    ensures enough { n < 2 ^ result }
    ensures few { 2 ^ result ≤ 2 * n + 1 }
    ensures bound { result ≤ 64 }
{
    usize::BITS - n.leading_zeros()
}

/// A power of 2.
pub fn power_of_2(exponent: u32) -> usize
    requires { exponent < 64 }
    ensures value { result ≡ 2 ^ exponent }
    ensures some { 1 ≤ result }
{
    1 << exponent
}
