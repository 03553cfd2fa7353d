//! The version of the data part, the keys that its sections may have by it, and its unit of gradients.

ghost use Rattle.std.specs.Prelude.{◌≡◌, map};
ghost use Rattle.sdm_formats.specs.FaultLines.{key_names};
ghost use Rattle.sdm_data.specs.Versions.{end_keys, in_tenths, known_keys, limit_keys, version_of};

use sdm_rules::{STEEPEST, Section, is_within};
use sdm_text::key_names;

/// A version of the data part. The second one writes gradients in tenths of a per mille, and adds keys. (own)
#[derive(Clone, Copy, Debug, PartialEq, Eq)]
pub enum Version {
    One,
    Two,
}

/// The version of a number, if there is such. (own)
pub fn version_of(number: i64) -> Option<Version>
    ensures { result ≡ version_of number }
{
    match number {
        1 => Some(Version::One),
        2 => Some(Version::Two),
        _ => None,
    }
}

/// The keys that a section may have in data of a version: version 1 lacks the last one of a band, `emergency_reduced`,
/// and the last one of the track, `no_special`. (own)
#[tactic(auto, using(crate::proofs::KeyLaws::sizes))]
pub fn known_keys(version: Version, section: Section) -> &'static [&'static str]
    ensures { map (λ name. name.now) result.now ≡ known_keys version section }
{
    match (version, section) {
        (Version::One, Section::Band) => &key_names(Section::Band)[..8],
        (Version::One, Section::Track) => &key_names(Section::Track)[..4],
        _ => key_names(section),
    }
}

/// A gradient, as data of a version write it, in tenths of a per mille. Version 1 writes it in per mille; where it is
/// not from -80 to 80 there, it becomes 801, so that the track refuses it in its place. (own)
pub fn in_tenths(version: Version, grad: i64) -> i64
    ensures { result ≡ in_tenths version grad }
{
    match version {
        Version::One => {
            if is_within(-80, 80, grad) {
                10 * grad
            } else {
                STEEPEST + 1
            }
        }
        Version::Two => grad,
    }
}

/// The keys of an authority to an end: its kind and those of this kind. (own)
#[tactic(auto, using(crate::proofs::KeyLaws::six_keys, crate::proofs::KeyLaws::end_keys_are))]
pub fn end_keys() -> &'static [&'static str]
    ensures { map (λ name. name.now) result.now ≡ end_keys }
{
    &key_names(Section::Authority)[..4]
}

/// The keys of an authority to a limit: its kind and those of this kind. (own)
#[tactic(auto, using(crate::proofs::KeyLaws::six_keys, crate::proofs::KeyLaws::limit_keys_are))]
pub fn limit_keys() -> [&'static str; 3]
    ensures { map (λ name. name.now) result ≡ limit_keys }
{
    let names = key_names(Section::Authority);
    [names[0], names[4], names[5]]
}
