//! The numbers of made journeys, each of which follows from the one before.

ghost use Rattle.std.specs.Prelude.{◌≡◌};
ghost use Rattle.sdm_formats.specs.Trial.{next_number};

/// The number after this one. (own)
// In line: a trial makes one at each reading.
#[inline(always)]
pub fn next_number(number: u16) -> u16
    ensures { result ≡ next_number number }
{
    let next = (25_173 * u32::from(number) + 13_849) % 65_536;
    next as u16
}
