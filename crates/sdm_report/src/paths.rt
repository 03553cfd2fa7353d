//! Where a fault of the data part lies, as a path: `train.band[2].upper`.

ghost use Rattle.std.specs.Prelude.{◌≡◌, ◌+◌, ◌≤◌, ◌++◌, codes, length};
ghost use Rattle.sdm_formats.specs.FaultLines.{entry_path, key_path, list_path, section_path};

use crate::fields::put_count;
use sdm_rules::Section;
use sdm_text::{ROW_BYTES, RowBuf, key_name};

/// Puts the path of a list, or of a section that has no index: at most 16 bytes. (own)
#[tactic(auto, unfolding(sdm_formats::specs::FaultLines::list_path))]
pub fn put_list_path(list: Section, into: &mut RowBuf)
    requires room { length into.old + 16 ≤ ROW_BYTES }
    ensures text { into.new ≡ into.old ++ list_path list }
    ensures short { length into.new ≤ length into.old + 16 }
{
    into.text(match list {
        Section::Root => b"root".as_slice(),
        Section::Train => b"train",
        Section::Band => b"train.band",
        Section::National => b"national",
        Section::Track => b"track",
        Section::Gradient => b"track.gradient",
        Section::Speed => b"track.speed",
        Section::Adhesion => b"track.adhesion",
        Section::NoSpecial => b"track.no_special",
        Section::Authority => b"authority",
    });
}

/// Puts the path of an entry of a list, by its index from 1: at most 28 bytes. (own)
pub fn put_entry_path(list: Section, index: u32, into: &mut RowBuf)
    requires room { length into.old + 28 ≤ ROW_BYTES }
    ensures text { into.new ≡ into.old ++ entry_path list index }
    ensures short { length into.new ≤ length into.old + 28 }
{
    put_list_path(list, into);
    into.byte(b'[');
    put_count(index, into);
    into.byte(b']');
}

/// Puts the path of a section; in a list it has an index: at most 28 bytes. (own)
#[tactic(auto, unfolding(sdm_formats::specs::FaultLines::section_path))]
pub fn put_section_path(section: Section, index: u32, into: &mut RowBuf)
    requires room { length into.old + 28 ≤ ROW_BYTES }
    ensures text { into.new ≡ into.old ++ section_path section index }
    ensures short { length into.new ≤ length into.old + 28 }
{
    match section {
        Section::Band
        | Section::Gradient
        | Section::Speed
        | Section::Adhesion
        | Section::NoSpecial => put_entry_path(section, index, into),
        Section::Root | Section::Train | Section::National | Section::Track | Section::Authority =>
            put_list_path(section, into),
    }
}

/// Puts the path of a key: of one of root its name alone, and the section's path alone where the number names no key.
/// At most 54 bytes. (own)
#[tactic(auto, using(crate::proofs::KeyPaths::paths))]
pub fn put_key_path(section: Section, index: u32, key: u8, into: &mut RowBuf)
    requires room { length into.old + 54 ≤ ROW_BYTES }
    ensures text { into.new ≡ into.old ++ key_path section index key }
    ensures short { length into.new ≤ length into.old + 54 }
{
    match key_name(section, key) {
        None => put_section_path(section, index, into),
        Some(name) if section == Section::Root => put_name(name, into),
        Some(name) => put_below(section, index, name, into),
    }
}

/// Puts a name below the path of a section.
fn put_below(section: Section, index: u32, name: &str, into: &mut RowBuf)
    requires few { length name.now ≤ 25 }
    requires room { length into.old + 54 ≤ ROW_BYTES }
    ensures text { into.new ≡ into.old ++ (section_path section index ++ codes "." ++ name.now) }
    ensures short { length into.new ≤ length into.old + 54 }
{
    put_section_path(section, index, into);
    into.byte(b'.');
    put_name(name, into);
}

/// Puts the name of a key.
fn put_name(name: &str, into: &mut RowBuf)
    requires few { length name.now ≤ 25 }
    requires room { length into.old + 25 ≤ ROW_BYTES }
    ensures text { into.new ≡ into.old ++ name.now }
    ensures short { length into.new ≤ length into.old + 25 }
{
    into.text(name.as_bytes());
}
