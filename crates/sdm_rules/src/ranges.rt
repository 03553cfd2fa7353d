//! The greatest numbers of the data, and numbers in their ranges, for code; `specs/Ranges.antt` has them as
//! definitions. (own)

ghost use Rattle.std.specs.Prelude.{◌≡◌};
ghost use Rattle.sdm_rules.specs.Ranges.{first_refused, is_within, is_within_if_any, refused};

pub use sdm_num::TOP_KMH;

/// The longest track, in cm.
pub const LONGEST_TRACK_CM: u32 = 10_000_000;

/// The longest train, in cm.
pub const LONGEST_TRAIN_CM: u32 = 150_000;

/// The steepest gradient, 80 per mille, in tenths of a per mille.
pub const STEEPEST: i64 = 800;

/// The most records of a journey.
pub const MOST_RECORDS: u32 = 100_000;

/// The number is from `least` to `greatest`, both included.
pub fn is_within(least: i64, greatest: i64, n: i64) -> bool
    ensures { result ≡ is_within least greatest n }
{
    least <= n && n <= greatest
}

/// The key of a number that is not accepted.
pub fn refused(key: u8, accepted: bool) -> Option<u8>
    ensures { result ≡ refused key accepted }
{
    if accepted { None } else { Some(key) }
}

/// The key of a number that is not from `least` to `greatest`.
pub fn outside(key: u8, number: i64, least: i64, greatest: i64) -> Option<u8>
    ensures { result ≡ refused key (is_within least greatest number) }
{
    refused(key, is_within(least, greatest, number))
}

/// So where there is a number.
pub fn outside_if_any(key: u8, number: Option<i64>, least: i64, greatest: i64) -> Option<u8>
    ensures { result ≡ refused key (is_within_if_any least greatest number) }
{
    match number {
        None => None,
        Some(number) => outside(key, number, least, greatest),
    }
}

/// The first key of those that were refused.
pub fn first_refused(keys: &[Option<u8>]) -> Option<u8>
    ensures { result ≡ first_refused keys.now }
{
    for key in keys {
        if key.is_some() {
            return *key;
        }
    }
    None
}
