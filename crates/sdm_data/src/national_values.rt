//! The section `national`: the national values. (SUBSET-026-3 3.13.2.3)

ghost use Rattle.std.specs.Prelude.{◌≡◌};
ghost use Rattle.toml.specs.View.{table_view};
ghost use Rattle.sdm_data.specs.Sections.{national_in};

use crate::section_tables::SectionTable;
use crate::versions::Version;
use sdm_formats::DataFault;
use sdm_rules::{NationalFields, Section, keys};
use toml::Table;

/// The national values that a table holds, or the first rule that it breaks. (own)
#[tactic(auto, unfolding(crate::specs::Sections::national_in))]
pub fn national_in(version: Version, table: &Table) -> Result<NationalFields, DataFault>
    ensures { result ≡ national_in version (table_view table.now) }
{
    let national = SectionTable::new(table, Section::National, 0);
    national.known_in(version)?;
    Ok(NationalFields {
        avadh: national.integer(keys::NATIONAL_AVADH)?,
        adhesion_max: national.integer(keys::NATIONAL_ADHESION_MAX)?,
        guidance: national.flag(keys::NATIONAL_GUIDANCE)?,
        service_in_target: national.flag(keys::NATIONAL_SERVICE_IN_TARGET)?,
        early_release: national.flag(keys::NATIONAL_EARLY_RELEASE)?,
        inhibit_under_reading: national.flag(keys::NATIONAL_INHIBIT_UNDER_READING)?,
    })
}
