//! Reading rows and their columns.
//!
//! Each function that takes `bytes` returns what it read, and the bytes after it. It fails with `Left` at the first byte
//! that no pack has there; with `alloc` it may also fail with `Memory`, if memory runs out. `columns_read` is how many
//! columns were read in the pack up to there.
ghost use Rattle.std.specs.Prelude.{◌≡◌, ◌≤◌, ◌<◌, ◌+◌, ◌-◌, ◌*◌, ◌^◌, IsTrue, true, ℕ, suc, List, length, Ok, Err, IfOk, if◌then◌else◌, nat_lt};
ghost use Rattle.cpg_cube.specs.declared.literal.Literal.{Literal};
ghost use Rattle.cpg_cube.specs.Cube.{IsRising};
ghost use Rattle.cpg_table.specs.Lawful.{space_of, column_count, rows_of};
ghost use Rattle.cpg_codec.specs.Reading.{read_number, within, read_repeated, byte_by, read_each, down};
ghost use Rattle.cpg_codec.specs.Grammar.{IsSpace, variable_count_from, variable_may, low_end, high_end, read_literal, read_literals, read_front, read_column, read_row, read_rows, items_of_node, read_node_table};
ghost use Rattle.cpg_codec.specs.Gives.{Gives};

use crate::fault::{ReadError, Untaken};
use crate::field_reading::{number_of, small_of, time_of};
use crate::fixed::{
    Fixed, column_literals, column_time, literal_high, literal_low, literal_variable,
};
use crate::row_taking::take_lawful;
use crate::space::{high_end, is_range, is_variable, low_end, variable_count_from};
use crate::unread::Unread;
use cpg_base::{MOST_COLUMNS, MOST_LOAD, OutOfMemory};
use cpg_cube::{Column, Cube, Literal};
use cpg_head::{Head, TIME_END};
use cpg_table::{NodeTable, Row, VariableSpace};
use std::alloc::Global;

/// Returns whether a literal may be on a variable: it is at least `least`, and `left` more literals find variables above
/// it.
fn variable_may(space: &VariableSpace, least: u32, left: u32, variable: u8) -> bool
    requires { IsSpace space.now }
    ensures { result ≡ variable_may space.now least left variable }
{
    let variable = variable as u32;
    (least <= variable && is_variable(space, variable))
        && left <= variable_count_from(space, variable + 1)
}

/// Reads the variable of a literal; it is at least `least`, and `left` more literals come after it.
fn variable_of<'a>(
    bytes: &'a [u8],
    space: &VariableSpace,
    least: u32,
    left: u32,
) -> Result<(u8, &'a [u8]), ReadError>
    requires { IsSpace space.now }
    ensures { Gives (λ x. (x.0, x.1.now)) result (byte_by (variable_may space.now least left) bytes.now) }
{
    match bytes {
        // the bytes end too early
        [] => Err(ReadError::Left(0)),
        [byte, rest @ ..] => {
            if !variable_may(space, least, left, *byte) {
                return Err(ReadError::Left(bytes.len()));
            }
            Ok((*byte, rest))
        }
    }
}

/// Reads a literal on a variable from `least` on, with `left` more after it, field by field.
#[tactic(auto, unfolding(crate::specs::Grammar::read_literal))]
fn literal_by_fields<'a>(
    bytes: &'a [u8],
    space: &VariableSpace,
    left: u32,
    least: u32,
) -> Result<(Literal, &'a [u8]), ReadError>
    requires { IsSpace space.now }
    ensures { Gives (λ x. (x.0, x.1.now)) result (read_literal space.now left least bytes.now) }
{
    let (variable, rest) = variable_of(bytes, space, least, left)?;
    let (low, rest) = small_of(rest, 0, low_end(space, variable))?;
    let (high, rest) = small_of(rest, low, high_end(space, variable, low))?;
    Ok((
        Literal {
            variable,
            low,
            high,
        },
        rest,
    ))
}

/// Returns whether a literal may come here: on a variable from `least` on, with `left` more after it. `true` guarantees
/// it.
fn is_next(space: &VariableSpace, left: u32, least: u32, literal: Literal) -> bool
    requires { IsSpace space.now }
    ensures { IsTrue result → (variable_may space.now least left literal.variable ≡ true) ×
        (literal.low ≤ low_end space.now literal.variable) × (literal.low ≤ literal.high) × (literal.high ≤ high_end space.now literal.variable literal.low) }
{
    if !variable_may(space, least, left, literal.variable) {
        return false;
    }
    is_range(space, literal)
}

/// Reads a literal on a variable from `least` on, with `left` more after it.
fn literal_of<'a>(
    bytes: &'a [u8],
    space: &VariableSpace,
    left: u32,
    least: u32,
) -> Result<(Literal, &'a [u8]), ReadError>
    requires { IsSpace space.now }
    ensures { Gives (λ x. (x.0, x.1.now)) result (read_literal space.now left least bytes.now) }
{
    // the three bytes at once; if there are fewer or they are no such literal, field by field up to the bad one
    if let [a, b, c, rest @ ..] = bytes {
        let fields = Fixed::new([*a, *b, *c]);
        let literal = Literal {
            variable: literal_variable(&fields),
            low: literal_low(&fields),
            high: literal_high(&fields),
        };
        if is_next(space, left, least, literal) {
            return Ok((literal, rest));
        }
    }
    literal_by_fields(bytes, space, left, least)
}

/// Reads `count` literals, by rising variable.
fn literals_of<'a>(
    alloc: Global,
    bytes: &'a [u8],
    space: &VariableSpace,
    count: u8,
) -> Result<(Vec<Literal>, &'a [u8]), ReadError>
    requires { IsSpace space.now }
    ensures { Gives (λ x. (x.0.items, x.1.now)) result (read_literals space.now count bytes.now) }
{
    let mut literals = Vec::with_capacity(alloc, count as usize)?;
    let mut rest = bytes;
    let mut least: u32 = 0;
    for done in 0..count {
        // how many literals come after this one
        let left = count - (done + 1);
        let (literal, after) = literal_of(rest, space, left as u32, least)?;
        least = literal.variable as u32 + 1;
        literals.push(literal)?;
        rest = after;
    }
    Ok((literals, rest))
}

/// Returns the cube of literals whose variables rise; `Err` only if memory runs out.
fn cube_of(alloc: Global, literals: &[Literal]) -> Result<Cube, OutOfMemory>
    requires { IsRising literals.now }
    ensures { IfOk result (λ cube. cube ≡ literals.now) }
{
    match Cube::new(alloc, literals)? {
        Some(cube) => Ok(cube),
        // a cube is refused only if its variables don't rise
        None => unreachable!(),
    }
}

/// Reads the time of a column, and how many literals it has, field by field.
#[tactic(auto, unfolding(crate::specs::Grammar::read_front))]
fn front_by_fields<'a>(
    bytes: &'a [u8],
    space: &VariableSpace,
) -> Result<(u64, u8, &'a [u8]), ReadError>
    requires { IsSpace space.now }
    ensures { Gives (λ x. ((x.0, x.1), x.2.now)) result (read_front space.now bytes.now) }
{
    let (time, rest) = time_of(bytes)?;
    // a literal for each variable at most, and there are at most 160, which fits a byte
    let (count, rest) = small_of(rest, 0, variable_count_from(space, 0) as u8)?;
    Ok((time, count, rest))
}

/// Returns whether a column's time and number of literals are in range; `true` guarantees it.
fn is_front(space: &VariableSpace, time: u64, count: u8) -> bool
    requires { IsSpace space.now }
    ensures { IsTrue result → (time < 2 ^ 60) × (count ≤ variable_count_from space.now 0) }
{
    time < TIME_END && u32::from(count) <= variable_count_from(space, 0)
}

/// Reads the time of a column, and how many literals it has.
fn front_of<'a>(bytes: &'a [u8], space: &VariableSpace) -> Result<(u64, u8, &'a [u8]), ReadError>
    requires { IsSpace space.now }
    ensures { Gives (λ x. ((x.0, x.1), x.2.now)) result (read_front space.now bytes.now) }
{
    // the nine bytes at once; if there are fewer or a number is out of range, field by field up to the bad one
    if let [a, b, c, d, e, f, g, h, i, rest @ ..] = bytes {
        let front = Fixed::new([*a, *b, *c, *d, *e, *f, *g, *h, *i]);
        let time = column_time(&front);
        let count = column_literals(&front);
        if is_front(space, time, count) {
            return Ok((time, count, rest));
        }
    }
    front_by_fields(bytes, space)
}

/// Reads a column.
#[tactic(auto, unfolding(crate::specs::Grammar::read_column))]
fn column_of<'a>(
    alloc: Global,
    bytes: &'a [u8],
    space: &VariableSpace,
) -> Result<(Column, &'a [u8]), ReadError>
    requires { IsSpace space.now }
    ensures { Gives (λ x. (x.0, x.1.now)) result (read_column space.now bytes.now) }
{
    let (time, count, rest) = front_of(bytes, space)?;
    let (literals, rest) = literals_of(alloc, rest, space, count)?;
    let cube = cube_of(alloc, literals.as_slice())?;
    Ok((Column { time, cube }, rest))
}

/// Reads `count` columns.
fn columns_of<'a>(
    alloc: Global,
    bytes: &'a [u8],
    space: &VariableSpace,
    count: u16,
) -> Result<(Vec<Column>, &'a [u8]), ReadError>
    requires { IsSpace space.now }
    ensures gives { Gives (λ x. (x.0.items, x.1.now)) result (read_repeated (read_column space.now) count bytes.now) }
    ensures count { IfOk result (λ x. length x.0.items ≡ count) }
{
    let mut columns = Vec::with_capacity(alloc, count as usize)?;
    let mut rest = bytes;
    for _ in 0..count {
        let (column, after) = column_of(alloc, rest, space)?;
        columns.push(column)?;
        rest = after;
    }
    Ok((columns, rest))
}

/// Reads the row of an item, field by field. The number returned is how many columns were read up to its end.
#[tactic(auto, unfolding(crate::specs::Grammar::read_row))]
fn row_by_fields<'a>(
    alloc: Global,
    bytes: &'a [u8],
    space: &VariableSpace,
    item: u32,
    columns_read: u64,
) -> Result<(Row, u64, &'a [u8]), ReadError>
    requires space { IsSpace space.now }
    requires few { columns_read ≤ MOST_LOAD }
    ensures gives { Gives (λ x. (x.0, x.2.now)) result (read_row space.now item columns_read bytes.now) }
    ensures total { IfOk result (λ x. (x.1 ≡ columns_read + length x.0.columns) × (x.1 ≤ MOST_LOAD)) }
{
    // `columns_read` is at most MOST_LOAD: the difference is how many columns the pack may still have
    let most = MOST_LOAD.saturating_sub(columns_read).min(MOST_COLUMNS);
    let (count, rest) = number_of(bytes, 2, 0, most)?;
    // it was read from two bytes
    let (columns, rest) = columns_of(alloc, rest, space, count as u16)?;
    Ok((Row::new(item, columns), columns_read + count, rest))
}

/// Reads the row of an item, and returns with it how many columns were read up to its end. `held` is memory for
/// literals, used again from row to row.
fn row_of<'a>(
    alloc: Global,
    held: &mut Vec<Literal>,
    bytes: &'a [u8],
    space: &VariableSpace,
    item: u32,
    columns_read: u64,
) -> Result<(Row, u64, &'a [u8]), ReadError>
    requires space { IsSpace space.now }
    requires few { columns_read ≤ MOST_LOAD }
    ensures gives { Gives (λ x. (x.0, x.2.now)) result (read_row space.now item columns_read bytes.now) }
    ensures total { IfOk result (λ x. (x.1 ≡ columns_read + length x.0.columns) × (x.1 ≤ MOST_LOAD)) }
{
    match take_lawful(alloc, held, bytes, space, item, columns_read) {
        Ok(taken) => Ok(taken),
        Err(Untaken::Memory) => Err(ReadError::Memory),
        // it may be no lawful row: reading it field by field finds the bad byte, if there is one
        Err(Untaken::Odd) => row_by_fields(alloc, bytes, space, item, columns_read),
    }
}

/// Reads the row of an item from the unread bytes, and returns with it how many columns were read up to its end.
fn next_row(
    alloc: Global,
    held: &mut Vec<Literal>,
    unread: &mut Unread,
    space: &VariableSpace,
    item: u32,
    columns_read: u64,
) -> Result<(Row, u64), ReadError>
    requires space { IsSpace space.now }
    requires few { columns_read ≤ MOST_LOAD }
    ensures gives { Gives (λ x. (x.0, unread.new)) result (read_row space.now item columns_read unread.old) }
    ensures total { IfOk result (λ x. (x.1 ≡ columns_read + length x.0.columns) × (x.1 ≤ MOST_LOAD)) }
{
    let (row, total, rest) = row_of(alloc, held, unread.rest(), space, item, columns_read)?;
    let left = rest.len();
    unread.read_to(left);
    Ok((row, total))
}

/// Reads a row for each of these items, and returns with them how many columns were read up to their end.
fn rows_of(
    alloc: Global,
    unread: &mut Unread,
    space: &VariableSpace,
    items: &[u32],
    columns_read: u64,
) -> Result<(Vec<Row>, u64), ReadError>
    requires space { IsSpace space.now }
    requires few { columns_read ≤ MOST_LOAD }
    ensures gives { Gives (λ x. (x.0.items, unread.new)) result (read_rows space.now items.now columns_read unread.old) }
    ensures total { IfOk result (λ x. (x.1 ≡ columns_read + column_count x.0.items) × (x.1 ≤ MOST_LOAD)) }
{
    let mut held = Vec::new(alloc);
    let mut rows = Vec::with_capacity(alloc, items.len())?;
    let mut total = columns_read;
    for item in items {
        let (row, with_row) = next_row(alloc, &mut held, unread, space, *item, total)?;
        total = with_row;
        rows.push(row)?;
    }
    Ok((rows, total))
}

/// Reads the table of a node, and returns with it how many columns were read up to its end. `items` are the items of its
/// rows, in their order.
#[tactic(auto, unfolding(crate::specs::Grammar::read_node_table))]
pub fn table_of(
    alloc: Global,
    unread: &mut Unread,
    head: &Head,
    space: &VariableSpace,
    node: u32,
    items: &[u32],
    columns_read: u64,
) -> Result<(NodeTable, u64), ReadError>
    requires space { space.now ≡ space_of head.now }
    requires within { IsSpace space.now }
    requires few { columns_read ≤ MOST_LOAD }
    requires items { items.now ≡ items_of_node head.now node }
    ensures gives { Gives (λ x. (x.0, unread.new)) result (read_node_table head.now node columns_read unread.old) }
    ensures total { IfOk result (λ x. (x.1 ≡ columns_read + column_count (rows_of x.0)) × (x.1 ≤ MOST_LOAD)) }
{
    let (rows, total) = rows_of(alloc, unread, space, items, columns_read)?;
    let table = NodeTable::of_rows(alloc, head, node, rows)?;
    Ok((table, total))
}
