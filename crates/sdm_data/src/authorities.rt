//! The section `authority`: the movement authority with which the journey begins. (SUBSET-026-3 3.8)

ghost use Rattle.std.specs.Prelude.{◌≡◌};
ghost use Rattle.toml.specs.View.{table_view};
ghost use Rattle.sdm_data.specs.Sections.{authority_in, end_in, limit_in};
ghost use Rattle.sdm_data.specs.Views.{members_of};

use crate::section_tables::SectionTable;
use crate::versions::{end_keys, limit_keys};
use sdm_formats::DataFault;
use sdm_rules::{Authority, LONGEST_TRACK_CM, Section, TOP_KMH, keys};
use toml::Table;

/// The authority that a table holds, or the first rule that it breaks. (own)
#[tactic(auto, unfolding(crate::specs::Sections::authority_in))]
pub fn authority_in(table: &Table) -> Result<Authority, DataFault>
    ensures { result ≡ authority_in (table_view table.now) }
{
    let authority = SectionTable::new(table, Section::Authority, 0);
    match authority.text(keys::AUTHORITY_KIND)? {
        "end" => end_in(&authority),
        "limit" => limit_in(&authority),
        _ => Err(DataFault::Value(authority.at(keys::AUTHORITY_KIND))),
    }
}

/// An authority to an end; with no release speed where none is given.
#[tactic(auto, unfolding(crate::specs::Sections::end_in))]
fn end_in(authority: &SectionTable) -> Result<Authority, DataFault>
    ensures { result ≡ end_in (members_of authority.now) }
{
    authority.known(end_keys())?;
    let eoa = authority.number(keys::AUTHORITY_EOA, 0, LONGEST_TRACK_CM)?;
    let svl = authority.number(keys::AUTHORITY_SVL, 0, LONGEST_TRACK_CM)?;
    let kmh = authority
        .integer_if_any(keys::AUTHORITY_RELEASE)?
        .unwrap_or(0);
    let release = authority.within(keys::AUTHORITY_RELEASE, 0, TOP_KMH, kmh)?;
    Ok(Authority::Stop {
        eoa,
        svl,
        release: release as u16,
    })
}

/// An authority to a limit.
#[tactic(auto, unfolding(crate::specs::Sections::limit_in))]
fn limit_in(authority: &SectionTable) -> Result<Authority, DataFault>
    ensures { result ≡ limit_in (members_of authority.now) }
{
    authority.known(&limit_keys())?;
    let loa = authority.number(keys::AUTHORITY_LOA, 0, LONGEST_TRACK_CM)?;
    let speed = authority.number(keys::AUTHORITY_SPEED, 1, TOP_KMH)?;
    Ok(Authority::Limit {
        loa,
        speed: speed as u16,
    })
}
