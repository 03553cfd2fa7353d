//! Arrays of tables: their entries one after the other.

ghost use Rattle.std.specs.Prelude.{◌≡◌, ◌≢◌, ℕ, IfErr, IfOk, Ok, Err, Result};
ghost use Rattle.toml.specs.Data.{Members};
ghost use Rattle.toml.specs.View.{table_view};
ghost use Rattle.sdm_rules.specs.declared.faults.Section.{Section};
ghost use Rattle.sdm_formats.specs.declared.faults.DataFault.{DataFault};
ghost use Rattle.sdm_data.specs.declared.versions.Version.{Version};
ghost use Rattle.sdm_data.specs.Members.{entries_from};
ghost use Rattle.sdm_data.specs.Views.{tables_in};

use crate::versions::Version;
use sdm_formats::DataFault;
use sdm_rules::Section;
use std::alloc::Global;
use toml::{Table, Value};

/// An entry of an array of tables. (own)
pub trait ReadEntry: Drop {
    ghost entry_in: { Section → Version → ℕ → Members → Result Self DataFault };

    /// The entry that a table of a list holds; its index counts from 1. What can stand in one list alone does not look
    /// at `list`. (own)
    fn read(list: Section, version: Version, index: u32, table: &Table) -> Result<Self, DataFault>
        ensures { result ≡ entry_in list version index (table_view table.now) };
}

/// The entries of an array of tables, those of one of the lists, or the first rule that one of them breaks, unless
/// memory was refused first. Values that are no tables are passed over: no array with such a value is handed in. (own)
pub fn entries<T: ReadEntry>(
    alloc: Global,
    list: Section,
    version: Version,
    values: &[Value],
) -> Result<Vec<T>, DataFault>
    ensures entries { IfOk result
        (λ v. entries_from (T.entry_in list version) 1 (tables_in values.now) ≡ Ok v.items) }
    ensures refused { IfErr result (λ fault.
        fault ≢ DataFault.Memory → entries_from (T.entry_in list version) 1 (tables_in values.now) ≡ Err fault) }
{
    let mut entries = Vec::new(alloc);
    let mut index = 1u32;
    for value in values {
        let Some(table) = value.as_table() else {
            continue;
        };
        let entry = T::read(list, version, index, table)?;
        entries.push(entry).map_err(|_| DataFault::Memory)?;
        index = index.saturating_add(1);
    }
    Ok(entries)
}
