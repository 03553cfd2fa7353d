//! The root of the document: the version of the data, and a table for each section.

ghost use Rattle.std.specs.Prelude.{◌≡◌};
ghost use Rattle.toml.specs.View.{table_view};
ghost use Rattle.sdm_data.specs.Sections.{root_in};
ghost use Rattle.sdm_data.specs.Given.{root_of};
ghost use Rattle.sdm_data.specs.Views.{seen};

use crate::section_tables::SectionTable;
use crate::versions::{Version, version_of};
use sdm_formats::DataFault;
use sdm_rules::{Section, keys};
use sdm_text::key_names;
use toml::Table;

/// The version of the data, and the tables of their sections. (own)
#[derive(Drop)]
pub struct Root<'a> {
    pub version: Version,
    pub train: &'a Table,
    pub national: &'a Table,
    pub track: &'a Table,
    pub authority: &'a Table,
}

/// The root of the document, or the first rule that it breaks. (own)
#[tactic(auto, unfolding(crate::specs::Sections::root_in))]
pub fn root_in(document: &Table) -> Result<Root<'_>, DataFault>
    ensures { seen root_of result ≡ root_in (table_view document.now) }
{
    let root = SectionTable::new(document, Section::Root, 0);
    root.known(key_names(Section::Root))?;
    let number = root.integer(keys::ROOT_VERSION)?;
    Ok(Root {
        version: version_of(number).ok_or(DataFault::Value(root.at(keys::ROOT_VERSION)))?,
        train: root.table(keys::ROOT_TRAIN)?,
        national: root.table(keys::ROOT_NATIONAL)?,
        track: root.table(keys::ROOT_TRACK)?,
        authority: root.table(keys::ROOT_AUTHORITY)?,
    })
}
