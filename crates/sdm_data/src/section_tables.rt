//! A table of the document as a section of the data part, read key by key. Keys go by their numbers in the section.

ghost use Rattle.std.specs.Prelude.{◌≡◌, ◌≤◌, IfOk, is_some, map, not, option_map, string_bytes};
ghost use Rattle.std.specs.BTreeMap.{keys};
ghost use Rattle.std.specs.List.{list_all, list_any};
ghost use Rattle.std.specs.Str.{bytes_eq};
ghost use Rattle.toml.specs.Data.{get_member, as_bool, as_integer, as_str, as_table};
ghost use Rattle.toml.specs.View.{view, table_view};
ghost use Rattle.sdm_data.specs.Versions.{known_keys};
ghost use Rattle.sdm_data.specs.Members.{as_tables, at, found, known, number, optional, or_fault, required};
ghost use Rattle.sdm_data.specs.Members.{section_of, within};
ghost use Rattle.sdm_data.specs.Views.{members_of, seen, tables_in};

use crate::versions::{Version, known_keys};
use sdm_formats::{At, DataFault};
use sdm_rules::Section;
use sdm_text::key_name;
use toml::{Table, Value};

/// A table as a section; its index counts from 1 in a list and is 0 elsewhere. (own)
#[derive(Drop)]
pub struct SectionTable<'a> {
    table: &'a Table,
    section: Section,
    index: u32,
}

impl<'a> SectionTable<'a> {
    /// A table as a section. (own)
    pub fn new(table: &'a Table, section: Section, index: u32) -> SectionTable<'a>
        ensures { members_of result ≡ section_of section index (table_view table.entry.now) }
    {
        SectionTable {
            table,
            section,
            index,
        }
    }

    /// Where a key stands. (own)
    pub fn at(&self, key: u8) -> At
        ensures { result ≡ at (members_of self.now) key }
    {
        At {
            section: self.section,
            index: self.index,
            key,
        }
    }

    /// UnknownKey where the section has another key than these. (own)
    pub fn known(&self, names: &[&str]) -> Result<(), DataFault>
        ensures { result ≡ known (members_of self.now) (map (λ name. name.now) names.now) }
    {
        if has_unknown(self.table, names) {
            return Err(DataFault::UnknownKey {
                section: self.section,
                index: self.index,
            });
        }
        Ok(())
    }

    /// UnknownKey where the section has another key than it may have in data of a version. (own)
    pub fn known_in(&self, version: Version) -> Result<(), DataFault>
        ensures { result ≡ known (members_of self.now) (known_keys version self.now.section) }
    {
        self.known(known_keys(version, self.section))
    }

    /// What a key holds, if it is there.
    fn found(&self, key: u8) -> Option<&'a Value>
        ensures { option_map (λ value. view value.now) result ≡ found (members_of self.now) key }
    {
        value_at(self.table, key_name(self.section, key)?)
    }

    /// What a key holds that must be there: else Missing.
    fn held(&self, key: u8) -> Result<&'a Value, DataFault>
        ensures { seen (λ value. view value.now) result
            ≡ or_fault (DataFault.Missing (at (members_of self.now) key)) (found (members_of self.now) key) }
    {
        self.found(key).ok_or(DataFault::Missing(self.at(key)))
    }

    /// WrongKind where a key's value is not of the kind that is read.
    fn of_kind<T: Drop>(&self, key: u8, read: Option<T>) -> Result<T, DataFault>
        ensures { result ≡ or_fault (DataFault.WrongKind (at (members_of self.now) key)) read }
    {
        read.ok_or(DataFault::WrongKind(self.at(key)))
    }

    /// The whole number that a key must hold. (own)
    #[tactic(auto, unfolding(crate::specs::Members::required))]
    pub fn integer(&self, key: u8) -> Result<i64, DataFault>
        ensures { result ≡ required as_integer (members_of self.now) key }
    {
        self.of_kind(key, self.held(key)?.as_integer())
    }

    /// The whole number that a key holds, if it is there. (own)
    #[tactic(auto, unfolding(crate::specs::Members::optional))]
    pub fn integer_if_any(&self, key: u8) -> Result<Option<i64>, DataFault>
        ensures { result ≡ optional as_integer (members_of self.now) key }
    {
        match self.found(key) {
            None => Ok(None),
            Some(value) => Ok(Some(self.of_kind(key, value.as_integer())?)),
        }
    }

    /// The flag that a key must hold. (own)
    #[tactic(auto, unfolding(crate::specs::Members::required))]
    pub fn flag(&self, key: u8) -> Result<bool, DataFault>
        ensures { result ≡ required as_bool (members_of self.now) key }
    {
        self.of_kind(key, self.held(key)?.as_bool())
    }

    /// The flag that a key holds, if it is there. (own)
    #[tactic(auto, unfolding(crate::specs::Members::optional))]
    pub fn flag_if_any(&self, key: u8) -> Result<Option<bool>, DataFault>
        ensures { result ≡ optional as_bool (members_of self.now) key }
    {
        match self.found(key) {
            None => Ok(None),
            Some(value) => Ok(Some(self.of_kind(key, value.as_bool())?)),
        }
    }

    /// The text that a key must hold. (own)
    #[tactic(auto, unfolding(crate::specs::Members::required))]
    pub fn text(&self, key: u8) -> Result<&'a str, DataFault>
        ensures { seen (λ text. text.now) result ≡ required as_str (members_of self.now) key }
    {
        self.of_kind(key, self.held(key)?.as_str())
    }

    /// The table that a key must hold. (own)
    #[tactic(auto, unfolding(crate::specs::Members::required))]
    pub fn table(&self, key: u8) -> Result<&'a Table, DataFault>
        ensures { seen (λ table. table_view table.now) result ≡ required as_table (members_of self.now) key }
    {
        self.of_kind(key, self.held(key)?.as_table())
    }

    /// The values of the array of tables that a key must hold. (own)
    #[tactic(auto, unfolding(crate::specs::Members::required))]
    pub fn tables(&self, key: u8) -> Result<&'a [Value], DataFault>
        ensures { seen (λ list. tables_in list.now) result ≡ required as_tables (members_of self.now) key }
    {
        self.of_kind(key, as_tables(self.held(key)?))
    }

    /// The values of the array of tables that a key holds, if it is there. (own)
    #[tactic(auto, unfolding(crate::specs::Members::optional))]
    pub fn tables_if_any(&self, key: u8) -> Result<Option<&'a [Value]>, DataFault>
        ensures { seen (λ list. option_map (λ list. tables_in list.now) list) result
            ≡ optional as_tables (members_of self.now) key }
    {
        match self.found(key) {
            None => Ok(None),
            Some(value) => Ok(Some(self.of_kind(key, as_tables(value))?)),
        }
    }

    /// The whole number, from `least` to `greatest`, that a key must hold. (own)
    #[tactic(auto, unfolding(crate::specs::Members::number))]
    pub fn number(&self, key: u8, least: u32, greatest: u32) -> Result<u32, DataFault>
        ensures value { result ≡ number (members_of self.now) key least greatest }
        ensures range { IfOk result (λ n. n ≤ greatest) }
    {
        self.within(key, least, greatest, self.integer(key)?)
    }

    /// A number of a key, where it is from `least` to `greatest`: else Value. (own)
    pub fn within(&self, key: u8, least: u32, greatest: u32, number: i64) -> Result<u32, DataFault>
        ensures value { result ≡ within (members_of self.now) key least greatest number }
        ensures range { IfOk result (λ n. n ≤ greatest) }
    {
        if i64::from(least) <= number && number <= i64::from(greatest) {
            Ok(number as u32)
        } else {
            Err(DataFault::Value(self.at(key)))
        }
    }
}

/// Some key of the table is none of these names.
fn has_unknown(table: &Table, names: &[&str]) -> bool
    ensures { result ≡ list_any
        (λ key. not (list_any (λ name. bytes_eq (string_bytes key) name.now) names.now)) (keys table.now) }
{
    table.keys().any(|key| !is_among(names, key.as_str()))
}

/// The key is one of these names.
fn is_among(names: &[&str], key: &str) -> bool
    ensures { result ≡ list_any (λ name. bytes_eq key.now name.now) names.now }
{
    names.iter().any(|name| key == *name)
}

/// The value at a key of a table.
fn value_at<'a>(table: &'a Table, name: &str) -> Option<&'a Value>
    ensures { option_map (λ value. view value.now) result ≡ get_member name.now (table_view table.now) }
{
    table.get(name)
}

/// The values of an array that holds nothing but tables.
#[tactic(auto, using(crate::proofs::TableLaws::all_are_tables, crate::proofs::TableLaws::some_is_no_table))]
fn as_tables(value: &Value) -> Option<&[Value]>
    ensures { option_map (λ list. tables_in list.now) result ≡ as_tables (view value.now) }
{
    let list = value.as_array()?.as_slice();
    are_tables(list).then_some(list)
}

/// Each value is a table.
fn are_tables(list: &[Value]) -> bool
    ensures { result ≡ list_all (λ value. is_some (as_table (view value))) list.now }
{
    list.iter().all(|value| value.as_table().is_some())
}
