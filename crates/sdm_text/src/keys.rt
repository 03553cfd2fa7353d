//! The names of the keys of the data part by section and number: the reader of the data looks them up, and a fault
//! line tells them.

ghost use Rattle.std.specs.Prelude.{◌≡◌, map, option_map};
ghost use Rattle.sdm_formats.specs.FaultLines.{key_name, key_names};

use sdm_rules::{Section, keys};

/// The names of a section's keys, in the order of their numbers, which count from 1. (own)
#[tactic(auto, unfolding(sdm_formats::specs::FaultLines::key_names))]
pub fn key_names(section: Section) -> &'static [&'static str]
    ensures { map (λ name. name.now) result.now ≡ key_names section }
{
    match section {
        Section::Root => &keys::ROOT,
        Section::Train => &keys::TRAIN,
        Section::Band => &keys::BAND,
        Section::National => &keys::NATIONAL,
        Section::Track => &keys::TRACK,
        Section::Gradient => &keys::GRADIENT,
        Section::Speed => &keys::SPEED,
        Section::Adhesion => &keys::AREA,
        Section::NoSpecial => &keys::AREA,
        Section::Authority => &keys::AUTHORITY,
    }
}

/// The name of a key of a section, by its number from 1; none where the number names no key. (own)
pub fn key_name(section: Section, key: u8) -> Option<&'static str>
    ensures { option_map (λ name. name.now) result ≡ key_name section key }
{
    if key == 0 {
        return None;
    }
    key_names(section).get(usize::from(key) - 1).copied()
}
