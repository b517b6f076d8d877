//! The tables of a scenario file, and their entries.
ghost use Rattle.std.specs.Prelude.{◌≡◌, map, option_map, option_and_then, bytes_eq, codes};
ghost use Rattle.std.specs.List.{list_any};
ghost use Rattle.toml.specs.Data.{as_integer, as_bool, as_table, get_member};
ghost use Rattle.toml.specs.View.{view, table_view};
ghost use Rattle.cpg_base.specs.Graph.{process_at};
ghost use Rattle.cpg_scenario.specs.File.{top_keys, are_among, is_typed, are_typed, is_table_of, has_fields, entry_at, process_names, names_at, has_names};

use cpg_base::Problem;
use toml::{Table, Value};

/// Whether a text is one of the keys that may stand at the top of a scenario file.
fn is_top_key(text: &str) -> bool
    ensures { result ≡ list_any (bytes_eq text.now) top_keys }
{
    if text == "faults" {
        return true;
    }
    if text == "values" {
        return true;
    }
    text == "lengths"
}

/// Whether each key of a document may stand at the top of a scenario file.
fn are_top_keys(document: &Table) -> bool
    ensures { result ≡ are_among top_keys (table_view document.now) }
{
    for (text, _) in document.iter() {
        if !is_top_key(text.as_str()) {
            return false;
        }
    }
    true
}

/// Whether an entry is a boolean, if `flags` is true, or an integer, if it is false.
fn is_typed(value: &Value, flags: bool) -> bool
    ensures { result ≡ is_typed flags (view value.now) }
{
    if flags {
        value.as_bool().is_some()
    } else {
        value.as_integer().is_some()
    }
}

/// Whether all entries of a table are booleans, if `flags` is true, or integers, if it is false.
fn are_typed(table: &Table, flags: bool) -> bool
    ensures { result ≡ are_typed flags (table_view table.now) }
{
    for (_, value) in table.iter() {
        if !is_typed(value, flags) {
            return false;
        }
    }
    true
}

/// Returns what a table has at a key, or `None` if it hasn't the key.
fn value_at<'a>(table: &'a Table, key: &str) -> Option<&'a Value>
    ensures { option_map (λ v. view v.now) result ≡ get_member key.now (table_view table.now) }
{
    table.get(key)
}

/// Returns the table at a key. `None` if the key is absent or has something else.
fn table_at<'a>(document: &'a Table, key: &str) -> Option<&'a Table>
    ensures { option_map (λ t. table_view t.now) result ≡ option_and_then as_table (get_member key.now (table_view document.now)) }
{
    match value_at(document, key) {
        Some(value) => value.as_table(),
        None => None,
    }
}

/// Whether a key is absent, or a table stands there whose entries are all booleans (if `flags` is true) or all
/// integers.
fn is_table_of(document: &Table, key: &str, flags: bool) -> bool
    ensures { result ≡ is_table_of flags (get_member key.now (table_view document.now)) }
{
    // each of the three keys may be left out
    let Some(value) = value_at(document, key) else {
        return true;
    };
    // a key that is there must have a table
    match value.as_table() {
        Some(table) => are_typed(table, flags),
        None => false,
    }
}

/// Whether a document has the tables of a scenario file, with entries of their types, and nothing else.
pub fn has_fields(document: &Table) -> bool
    ensures { result ≡ has_fields (table_view document.now) }
{
    if !are_top_keys(document) {
        return false;
    }
    if !is_table_of(document, "faults", false) {
        return false;
    }
    if !is_table_of(document, "values", true) {
        return false;
    }
    is_table_of(document, "lengths", false)
}

/// Returns the entry of a name in the table at a key. `None` if there is no such table or it has no such entry.
fn entry_at<'a>(document: &'a Table, key: &str, name: &str) -> Option<&'a Value>
    ensures { option_map (λ v. view v.now) result ≡ entry_at (table_view document.now) key.now name.now }
{
    match table_at(document, key) {
        Some(table) => value_at(table, name),
        None => None,
    }
}

/// Returns the integer of a name in the table at a key. `None` if there is no such entry or it is no integer.
pub fn integer_at(document: &Table, key: &str, name: &str) -> Option<i64>
    ensures { result ≡ option_and_then as_integer (entry_at (table_view document.now) key.now name.now) }
{
    match entry_at(document, key, name) {
        Some(value) => value.as_integer(),
        None => None,
    }
}

/// Returns the boolean of a name in the table at a key. `None` if there is no such entry or it is no boolean.
pub fn flag_at(document: &Table, key: &str, name: &str) -> Option<bool>
    ensures { result ≡ option_and_then as_bool (entry_at (table_view document.now) key.now name.now) }
{
    match entry_at(document, key, name) {
        Some(value) => value.as_bool(),
        None => None,
    }
}

/// Whether a text is the name of a process.
fn is_process(problem: &Problem, text: &str) -> bool
    ensures { result ≡ list_any (bytes_eq text.now) (process_names problem.now) }
{
    for process in problem.processes() {
        if text == process.name.as_str() {
            return true;
        }
    }
    false
}

/// Whether all keys of a table are names of processes.
fn are_processes(problem: &Problem, table: &Table) -> bool
    ensures { result ≡ are_among (process_names problem.now) (table_view table.now) }
{
    for (text, _) in table.iter() {
        if !is_process(problem, text.as_str()) {
            return false;
        }
    }
    true
}

/// Whether all keys of the table at a key are names of processes. True if there is no table.
fn names_at(problem: &Problem, document: &Table, key: &str) -> bool
    ensures { result ≡ names_at problem.now (table_view document.now) key.now }
{
    match table_at(document, key) {
        Some(table) => are_processes(problem, table),
        // without a table there are no keys
        None => true,
    }
}

/// Whether all keys of the three tables, so far as they are there, are names of processes.
pub fn has_names(problem: &Problem, document: &Table) -> bool
    ensures { result ≡ has_names problem.now (table_view document.now) }
{
    if !names_at(problem, document, "faults") {
        return false;
    }
    if !names_at(problem, document, "values") {
        return false;
    }
    names_at(problem, document, "lengths")
}
