//! Building the tables of a document that is written, key by key.
ghost use Rattle.std.specs.Prelude.{◌≡◌, ◌≤◌, ◌++◌, ◌∷◌, [], map, IfOk, OnOk};
ghost use Rattle.toml.specs.Data.{string, boolean, array, table};
ghost use Rattle.toml.specs.View.{view, table_view, items_view};
ghost use Rattle.cpg_base.specs.Name.{IsName};
ghost use Rattle.cpg_reader.specs.WrittenTree.{with_member, number};

use cpg_base::{LONGEST, Name, OutOfMemory};
use std::alloc::Global;
use toml::value::Array;
use toml::{Table, Value};

/// Returns the table with this value at a key, in place of any other. The one error here and below is that memory runs
/// out.
pub fn with(alloc: Global, table: Table, key: &str, value: Value) -> Result<Table, OutOfMemory>
    ensures { IfOk result (λ t. table_view t ≡ with_member key.now (view value) (table_view table)) }
{
    let mut table = table;
    let key = String::from_str(alloc, key)?;
    table.insert(key, value)?;
    Ok(table)
}

/// Returns the table with a number at a key.
pub fn with_number(alloc: Global, table: Table, key: &str, value: u64) -> Result<Table, OutOfMemory>
    requires { value ≤ LONGEST }
    ensures { IfOk result (λ t. table_view t ≡ with_member key.now (number value) (table_view table)) }
{
    // at most `LONGEST`, so the cast keeps it
    with(alloc, table, key, Value::from(value as i64))
}

/// Returns the table with a flag at a key.
pub fn with_flag(alloc: Global, table: Table, key: &str, value: bool) -> Result<Table, OutOfMemory>
    ensures { IfOk result (λ t. table_view t ≡ with_member key.now (boolean value) (table_view table)) }
{
    with(alloc, table, key, Value::from(value))
}

/// Returns the table with a name at a key.
pub fn with_name(alloc: Global, table: Table, key: &str, name: &Name) -> Result<Table, OutOfMemory>
    ensures table { IfOk result (λ t. table_view t ≡ with_member key.now (string name.now) (table_view table)) }
    ensures named { IfOk result (λ _. IsName name.now) }
{
    let value = Value::string(alloc, name.as_str())?;
    with(alloc, table, key, value)
}

/// Returns the table with an array at a key.
pub fn with_array(
    alloc: Global,
    table: Table,
    key: &str,
    elements: Array,
) -> Result<Table, OutOfMemory>
    ensures { IfOk result (λ t. table_view t ≡ with_member key.now (array (items_view elements.items)) (table_view table)) }
{
    with(alloc, table, key, Value::Array(elements))
}

/// Adds a table at the end of an array.
pub fn push(elements: &mut Array, element: Table) -> Result<(), OutOfMemory>
    ensures { OnOk result (map view elements.new.items ≡ map view elements.old.items ++ table (table_view element) ∷ []) }
{
    elements.push(Value::Table(element))?;
    Ok(())
}
