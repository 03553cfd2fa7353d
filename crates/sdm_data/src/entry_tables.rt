//! The entries of the lists of the data part as arrays of tables.

ghost use Rattle.std.specs.Prelude.{◌≡◌, IfOk, map, option_map};
ghost use Rattle.toml.specs.Data.{Members};
ghost use Rattle.toml.specs.View.{table_view, view};
ghost use Rattle.sdm_data.specs.Tables.{array_of, array_if_any};

use sdm_num::NoMemory;
use std::alloc::Global;
use toml::{Table, Value};

/// An entry of a list, which a table writes. (own)
pub trait WriteEntry {
    ghost written: { Self → Members };

    /// The table of the entry. (own)
    fn table(&self, alloc: Global) -> Result<Table, NoMemory>
        ensures { IfOk result (λ t. table_view t ≡ written self.now) };
}

/// The array of the tables of entries. (own)
#[tactic(auto, using(crate::proofs::EntryTables::one_more))]
pub fn array_of<T: WriteEntry>(alloc: Global, entries: &[T]) -> Result<Value, NoMemory>
    ensures { IfOk result (λ value. view value ≡ array_of (map T.written entries.now)) }
{
    let mut tables = Vec::new(alloc);
    for entry in entries {
        tables.push(Value::from(entry.table(alloc)?))?;
    }
    Ok(Value::from(tables))
}

/// The array of the tables of entries; none where it would be empty. (own)
pub fn array_if_any<T: WriteEntry>(alloc: Global, entries: &[T]) -> Result<Option<Value>, NoMemory>
    ensures { IfOk result (λ value. option_map view value ≡ array_if_any (map T.written entries.now)) }
{
    if entries.is_empty() {
        return Ok(None);
    }
    Ok(Some(array_of(alloc, entries)?))
}
