//! Which rows a table may have under a head.
ghost use Rattle.std.specs.Prelude.{◌≡◌, ◌↔◌, ◌≤◌, ◌<◌, IsTrue, All};
ghost use Rattle.std.specs.Bool.{OnTrue};
ghost use Rattle.cpg_cube.specs.Cube.{IsRising};
ghost use Rattle.cpg_table.specs.Lawful.{space_of, IsCountLiteral, IsValueLiteral, IsLawfulLiteral, IsLawfulColumn, IsLawfulRow};

use crate::Row;
use cpg_base::{MOST_COLUMNS, Variable};
use cpg_cube::{Column, Literal};
use cpg_head::{Head, TIME_END, condition_count};

/// The variables that there are under a head: a fault count for each process, and a value for each condition.
#[derive(Clone, Copy, Debug)]
pub struct VariableSpace {
    /// The most faults, and so the greatest number of a fault count.
    pub faults: u8,
    /// How many processes there are.
    pub processes: u32,
    /// How many conditions there are.
    pub conditions: u32,
}

/// Returns the variables that there are under a head.
pub fn space_of(head: &Head) -> VariableSpace
    ensures { result ≡ space_of head.now }
{
    // a head has at most 128 processes, and no more conditions, so both numbers fit a `u32`
    VariableSpace {
        faults: head.faults(),
        processes: head.processes().len() as u32,
        conditions: condition_count(head.processes()) as u32,
    }
}

/// Returns whether a literal is on a fault count, with a range that has some of its numbers, but not all.
fn is_count(space: VariableSpace, literal: Literal) -> bool
    ensures { IsTrue result ↔ IsCountLiteral space literal }
{
    // `&` and `|`, unlike `&&` and `||`, don't branch
    let known = u32::from(literal.variable) < space.processes;
    let within = (literal.low <= literal.high) & (literal.high <= space.faults);
    let part = (literal.high < space.faults) | (literal.low > 0);
    known & within & part
}

/// Returns whether each literal is a lawful one on a fault count; `true` guarantees it. The loop never ends early, so that
/// the compiler can test several at once.
fn are_counts(space: VariableSpace, literals: &[Literal]) -> bool
    ensures { OnTrue result (All (IsCountLiteral space) literals.now) }
{
    let mut all_counts = true;
    for literal in literals {
        all_counts &= is_count(space, *literal);
    }
    all_counts
}

/// Returns whether a literal is on the value of a condition, with a range of one value.
fn is_value(space: VariableSpace, literal: Literal) -> bool
    ensures { IsTrue result ↔ IsValueLiteral space literal }
{
    let Variable::Value(condition) = Variable::of(literal.variable) else {
        return false;
    };
    if condition >= space.conditions {
        return false;
    }
    literal.low == literal.high && literal.high <= 1
}

/// Returns whether a literal is lawful.
fn is_literal(space: VariableSpace, literal: Literal) -> bool
    ensures { IsTrue result ↔ IsLawfulLiteral space literal }
{
    is_count(space, literal) || is_value(space, literal)
}

/// Returns whether all literals are lawful.
fn are_literals(space: VariableSpace, literals: &[Literal]) -> bool
    ensures { IsTrue result ↔ All (IsLawfulLiteral space) literals.now }
{
    // most cubes have literals on fault counts alone
    if are_counts(space, literals) {
        return true;
    }
    literals.iter().all(|literal| is_literal(space, *literal))
}

/// Returns whether a column is lawful: its time is below 2^60, and its literals are lawful. Its variables rise, as those of
/// every cube do.
fn is_column(space: VariableSpace, column: &Column) -> bool
    ensures { IsTrue result ↔ IsLawfulColumn space column.now }
{
    column.time < TIME_END && are_literals(space, column.cube.literals())
}

/// Returns whether all columns are lawful.
fn are_columns(space: VariableSpace, columns: &[Column]) -> bool
    ensures { IsTrue result ↔ All (IsLawfulColumn space) columns.now }
{
    columns.iter().all(|column| is_column(space, column))
}

/// Returns whether a row is lawful: it has at most `MOST_COLUMNS` columns, and each is lawful.
pub fn is_row(space: VariableSpace, row: &Row) -> bool
    ensures { IsTrue result ↔ IsLawfulRow space row.now }
{
    let columns = row.columns();
    columns.len() as u64 <= MOST_COLUMNS && are_columns(space, columns)
}

/// Returns whether all rows are lawful.
pub fn are_rows(space: VariableSpace, rows: &[Row]) -> bool
    ensures { IsTrue result ↔ All (IsLawfulRow space) rows.now }
{
    rows.iter().all(|row| is_row(space, row))
}
