//! A table of the document, and reading its fields.
ghost use Rattle.std.specs.Prelude.{◌≡◌, map, option_map, bytes_eq, false, IfOk};
ghost use Rattle.std.specs.List.{list_any};
ghost use Rattle.toml.specs.Data.{as_integer, as_bool, as_table};
ghost use Rattle.toml.specs.View.{view, array_view, table_view};
ghost use Rattle.cpg_reader.specs.Reading.{Gives};
ghost use Rattle.cpg_reader.specs.Rows.{row_view, place_in, value_at, as_name, as_tables, items_as, as_names, are_listed, optional, read_name, read_integer, integer_or, flag_or, read_array, only, text_of};

use crate::place::{Key, Place, ReadFault, Table};
use cpg_base::{Name, OutOfMemory};
use std::alloc::{AllocError, Global};
use toml::Value;
use toml::value::Array;

/// A table of the document: its top, or an element of one of its lists.
#[derive(Clone, Copy)]
pub struct DocumentRow<'a> {
    /// The top, or the list.
    pub table: Table,
    /// The index of the element in the list, from 0; for the top, 0.
    pub index: u64,
    /// The keys with their values.
    pub members: &'a toml::Table,
}

impl<'a> DocumentRow<'a> {
    /// Returns the fault that says that the field at a key is bad.
    fn bad(&self, key: Key) -> ReadFault
        ensures { result ≡ ReadFault.BadField (place_in (row_view self.now) key) }
    {
        ReadFault::BadField(Place {
            table: self.table,
            index: self.index,
            key,
        })
    }

    /// Returns the value at a key, or `None` if the table hasn't the key.
    fn value(&self, key: Key) -> Option<&'a Value>
        ensures { option_map (λ v. view v.now) result ≡ value_at (row_view self.now) key }
    {
        self.members.get(key.text())
    }

    /// Returns the integer at a key, or `None` if the table hasn't the key. A value of another type is refused.
    #[tactic(auto, unfolding(crate::specs::Rows::optional))]
    pub fn optional_integer(&self, key: Key) -> Result<Option<i64>, ReadFault>
        ensures { Gives (λ n. n) result (optional as_integer (row_view self.now) key) }
    {
        // the key may be left out
        let Some(value) = self.value(key) else {
            return Ok(None);
        };
        match value.as_integer() {
            Some(number) => Ok(Some(number)),
            None => Err(self.bad(key)),
        }
    }

    /// Returns the boolean at a key, or `None` if the table hasn't the key. A value of another type is refused.
    #[tactic(auto, unfolding(crate::specs::Rows::optional))]
    pub fn optional_flag(&self, key: Key) -> Result<Option<bool>, ReadFault>
        ensures { Gives (λ b. b) result (optional as_bool (row_view self.now) key) }
    {
        // the key may be left out
        let Some(value) = self.value(key) else {
            return Ok(None);
        };
        match value.as_bool() {
            Some(flag) => Ok(Some(flag)),
            None => Err(self.bad(key)),
        }
    }

    /// Returns the integer at a key. A missing value, or one of another type, is refused.
    #[tactic(auto, unfolding(crate::specs::Rows::read_integer))]
    pub fn integer(&self, key: Key) -> Result<i64, ReadFault>
        ensures { Gives (λ n. n) result (read_integer (row_view self.now) key) }
    {
        match self.optional_integer(key)? {
            Some(number) => Ok(number),
            None => Err(self.bad(key)),
        }
    }

    /// Returns the integer at a key, or `value` if the table hasn't the key. A value of another type is refused.
    #[tactic(auto, unfolding(crate::specs::Rows::integer_or))]
    pub fn integer_or(&self, key: Key, value: i64) -> Result<i64, ReadFault>
        ensures { Gives (λ n. n) result (integer_or value (row_view self.now) key) }
    {
        let found = self.optional_integer(key)?;
        Ok(found.unwrap_or(value))
    }

    /// Returns the boolean at a key, or false if the table hasn't the key. A value of another type is refused.
    #[tactic(auto, unfolding(crate::specs::Rows::flag_or))]
    pub fn flag(&self, key: Key) -> Result<bool, ReadFault>
        ensures { Gives (λ b. b) result (flag_or false (row_view self.now) key) }
    {
        let found = self.optional_flag(key)?;
        Ok(found.unwrap_or(false))
    }

    /// Returns the name at a key. A missing value, or one that is no name, is refused; the other error is that memory
    /// runs out.
    #[tactic(auto, unfolding(crate::specs::Rows::read_name, crate::specs::Rows::optional))]
    pub fn name(&self, alloc: Global, key: Key) -> Result<Name, ReadFault>
        ensures { Gives (λ n. n) result (read_name (row_view self.now) key) }
    {
        // a name is required
        let Some(value) = self.value(key) else {
            return Err(self.bad(key));
        };
        match as_name(alloc, value)? {
            Some(name) => Ok(name),
            None => Err(self.bad(key)),
        }
    }

    /// Returns the tables of the array at a key, or none if the table hasn't the key. A value that isn't an array of
    /// tables is refused; the other error is that memory runs out.
    #[tactic(auto, unfolding(crate::specs::Rows::read_array, crate::specs::Rows::optional))]
    pub fn tables(&self, alloc: Global, key: Key) -> Result<Vec<&'a toml::Table>, ReadFault>
        ensures { Gives (λ v. map (λ t. table_view t.now) v.items) result (read_array (row_view self.now) key) }
    {
        // the key may be left out
        let Some(value) = self.value(key) else {
            return Ok(Vec::new(alloc));
        };
        match as_tables(alloc, value)? {
            Some(tables) => Ok(tables),
            None => Err(self.bad(key)),
        }
    }

    /// Returns the names of the array at a key, or `None` if the table hasn't the key. A value that isn't an array of
    /// names is refused; the other error is that memory runs out.
    #[tactic(auto, unfolding(crate::specs::Rows::optional))]
    pub fn optional_names(&self, alloc: Global, key: Key) -> Result<Option<Vec<Name>>, ReadFault>
        ensures { Gives (λ names. option_map (λ v. v.items) names) result (optional as_names (row_view self.now) key) }
    {
        // the key may be left out
        let Some(value) = self.value(key) else {
            return Ok(None);
        };
        match as_names(alloc, value)? {
            Some(names) => Ok(Some(names)),
            None => Err(self.bad(key)),
        }
    }

    /// Refuses a table that has a key besides these.
    #[tactic(auto, unfolding(crate::specs::Rows::only))]
    pub fn only(&self, keys: &[Key]) -> Result<(), ReadFault>
        ensures { Gives (λ _. tt) result (only keys.now (row_view self.now)) }
    {
        if !are_listed(keys, self.members) {
            return Err(self.bad(Key::Unknown));
        }
        Ok(())
    }
}

/// Whether a text is one of these keys.
fn is_listed(keys: &[Key], text: &str) -> bool
    ensures { result ≡ list_any (λ key. bytes_eq (text_of key) text.now) keys.now }
{
    keys.iter().any(|key| key.text() == text)
}

/// Whether all keys of a table are among these.
fn are_listed(keys: &[Key], members: &toml::Table) -> bool
    ensures { result ≡ are_listed keys.now (table_view members.now) }
{
    for (text, _) in members.iter() {
        if !is_listed(keys, text.as_str()) {
            return false;
        }
    }
    true
}

/// Returns a value as a name, or `None` if it isn't a text that is one. The one error is that memory runs out.
fn as_name(alloc: Global, value: &Value) -> Result<Option<Name>, OutOfMemory>
    ensures { IfOk result (λ name. name ≡ as_name (view value.now)) }
{
    match value.as_str() {
        Some(text) => Name::new(alloc, text),
        None => Ok(None),
    }
}

/// Returns the tables of a value, or `None` if it isn't an array of tables. The one error is that memory runs out.
fn as_tables<'a>(
    alloc: Global,
    value: &'a Value,
) -> Result<Option<Vec<&'a toml::Table>>, AllocError>
    ensures { IfOk result (λ tables. option_map (λ v. map (λ t. table_view t.now) v.items) tables ≡ as_tables (view value.now)) }
{
    match value.as_array() {
        Some(array) => tables_in(alloc, array),
        None => Ok(None),
    }
}

/// Returns the tables of an array, or `None` if an element isn't a table. The one error is that memory runs out.
fn tables_in<'a>(
    alloc: Global,
    array: &'a Array,
) -> Result<Option<Vec<&'a toml::Table>>, AllocError>
    ensures { IfOk result (λ tables. option_map (λ v. map (λ t. table_view t.now) v.items) tables ≡ items_as as_table (array_view array.now)) }
{
    let mut tables = Vec::with_capacity(alloc, array.len())?;
    for element in array.iter() {
        let Some(table) = element.as_table() else {
            return Ok(None);
        };
        tables.push(table)?;
    }
    Ok(Some(tables))
}

/// Returns the names of a value, or `None` if it isn't an array of names. The one error is that memory runs out.
fn as_names(alloc: Global, value: &Value) -> Result<Option<Vec<Name>>, OutOfMemory>
    ensures { IfOk result (λ names. option_map (λ v. v.items) names ≡ as_names (view value.now)) }
{
    match value.as_array() {
        Some(array) => names_in(alloc, array),
        None => Ok(None),
    }
}

/// Returns the names of an array, or `None` if an element isn't a name. The one error is that memory runs out.
fn names_in(alloc: Global, array: &Array) -> Result<Option<Vec<Name>>, OutOfMemory>
    ensures { IfOk result (λ names. option_map (λ v. v.items) names ≡ items_as as_name (array_view array.now)) }
{
    let mut names = Vec::with_capacity(alloc, array.len())?;
    for element in array.iter() {
        let Some(name) = as_name(alloc, element)? else {
            return Ok(None);
        };
        names.push(name)?;
    }
    Ok(Some(names))
}
