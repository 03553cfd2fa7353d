//! A section of the data part as a table that is made key by key. Keys go by their numbers in the section.

ghost use Rattle.std.specs.Prelude.{◌≡◌, OnOk, Some, Option, option_map};
ghost use Rattle.sdm_formats.specs.FaultLines.{key_name};
ghost use Rattle.toml.specs.Data.{boolean, integer, no_members, string, table};
ghost use Rattle.toml.specs.View.{table_view, view};
ghost use Rattle.sdm_data.specs.Tables.{put, put_if_any};

use sdm_num::NoMemory;
use sdm_rules::Section;
use sdm_text::key_name;
use std::alloc::Global;
use toml::{Table, Value};

/// A section with what its keys hold so far. (own)
#[derive(Drop)]
pub struct SectionWriter {
    alloc: Global,
    section: Section,
    table: Table,
}

impl SectionWriter {
    /// A section of which no key holds anything. (own)
    pub fn new(alloc: Global, section: Section) -> SectionWriter
        ensures section { result.section ≡ section }
        ensures empty { table_view result.table ≡ no_members }
    {
        SectionWriter {
            alloc,
            section,
            table: Table::new(alloc),
        }
    }

    /// The key holds the value. (own)
    pub fn put(&mut self, key: u8, value: Value) -> Result<(), NoMemory>
        ensures section { self.new.section ≡ self.old.section }
        ensures held { OnOk result (table_view self.new.table
            ≡ put_if_any (key_name self.old.section key) (Some (view value)) (table_view self.old.table)) }
    {
        if let Some(name) = key_name(self.section, key) {
            put(self.alloc, &mut self.table, name, value)?;
        }
        Ok(())
    }

    /// The key holds the value, if there is one. (own)
    pub fn put_if_any(&mut self, key: u8, value: Option<Value>) -> Result<(), NoMemory>
        ensures section { self.new.section ≡ self.old.section }
        ensures held { OnOk result (table_view self.new.table
            ≡ put_if_any (key_name self.old.section key) (option_map view value) (table_view self.old.table)) }
    {
        match value {
            Some(value) => self.put(key, value),
            None => Ok(()),
        }
    }

    /// The key holds the whole number. (own)
    pub fn integer(&mut self, key: u8, number: i64) -> Result<(), NoMemory>
        ensures section { self.new.section ≡ self.old.section }
        ensures held { OnOk result (table_view self.new.table
            ≡ put_if_any (key_name self.old.section key) (Some (integer number)) (table_view self.old.table)) }
    {
        self.put(key, Value::from(number))
    }

    /// The key holds the whole number, if there is one. (own)
    pub fn integer_if_any(&mut self, key: u8, number: Option<i64>) -> Result<(), NoMemory>
        ensures section { self.new.section ≡ self.old.section }
        ensures held { OnOk result (table_view self.new.table
            ≡ put_if_any (key_name self.old.section key) (option_map integer number) (table_view self.old.table)) }
    {
        match number {
            Some(number) => self.integer(key, number),
            None => Ok(()),
        }
    }

    /// The key holds the flag. (own)
    pub fn flag(&mut self, key: u8, flag: bool) -> Result<(), NoMemory>
        ensures section { self.new.section ≡ self.old.section }
        ensures held { OnOk result (table_view self.new.table
            ≡ put_if_any (key_name self.old.section key) (Some (boolean flag)) (table_view self.old.table)) }
    {
        self.put(key, Value::from(flag))
    }

    /// The key holds the text. (own)
    pub fn text(&mut self, key: u8, text: &str) -> Result<(), NoMemory>
        ensures section { self.new.section ≡ self.old.section }
        ensures held { OnOk result (table_view self.new.table
            ≡ put_if_any (key_name self.old.section key) (Some (string text.now)) (table_view self.old.table)) }
    {
        let text = String::from_str(self.alloc, text)?;
        self.put(key, Value::from(text))
    }

    /// The key holds the table. (own)
    pub fn table(&mut self, key: u8, held: Table) -> Result<(), NoMemory>
        ensures section { self.new.section ≡ self.old.section }
        ensures held { OnOk result (table_view self.new.table ≡ put_if_any (key_name self.old.section key)
            (Some (table (table_view held))) (table_view self.old.table)) }
    {
        self.put(key, Value::from(held))
    }

    /// The table of what the keys hold. (own)
    pub fn into_table(self) -> Table
        ensures { result ≡ self.table }
    {
        self.table
    }
}

/// Puts a value at a name.
fn put(alloc: Global, table: &mut Table, name: &str, value: Value) -> Result<(), NoMemory>
    ensures { OnOk result (table_view table.new ≡ put name.now (view value) (table_view table.old)) }
{
    let key = String::from_str(alloc, name)?;
    table.insert(key, value)?;
    Ok(())
}
