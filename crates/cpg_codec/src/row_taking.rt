//! Rows taken from bytes at once: the literals of a column are checked together, from the first on that differs from
//! the column before.
//!
//! The functions fail with `Odd` if the bytes may be no lawful row, or end too early: reading them field by field then
//! finds the bad byte. Those that take `alloc` or `held` also fail with `Memory`, if memory runs out.
ghost use Rattle.std.specs.Prelude.{◌≡◌, ◌≤◌, ◌+◌, ◌*◌, ◌++◌, ◌∷◌, [], All, length, Ok, IfOk};
ghost use Rattle.std.specs.Bool.{OnTrue};
ghost use Rattle.std.specs.List.{flat_map};
ghost use Rattle.std.specs.Int.{w64, to_be_bytes};
ghost use Rattle.cpg_cube.specs.Cube.{IsRising};
ghost use Rattle.cpg_table.specs.Lawful.{IsLawfulColumn, IsLawfulLiteral};
ghost use Rattle.cpg_codec.specs.Spelling.{literal_bytes, column_bytes, row_bytes};
ghost use Rattle.cpg_codec.specs.Fronts.{HasFront};
ghost use Rattle.cpg_codec.specs.Grammar.{IsSpace, read_row};

use crate::fault::Untaken;
use crate::lawful_literals::are_lawful;
use cpg_base::{MOST_COLUMNS, MOST_LOAD};
use cpg_cube::{Column, Cube, Literal};
use cpg_head::TIME_END;
use cpg_table::{Row, VariableSpace};
use std::alloc::Global;

/// Returns the time of a column, in time units of the graph file, how many literals it has, and the bytes after these
/// nine; `Odd` if there are fewer.
fn take_front(bytes: &[u8]) -> Result<(u64, u8, &[u8]), Untaken>
    ensures { IfOk result (λ x. bytes.now ≡ to_be_bytes w64 x.0 ++ x.1 ∷ x.2.now) }
{
    let [a, b, c, d, e, f, g, h, count, rest @ ..] = bytes else {
        return Err(Untaken::Odd);
    };
    let time = u64::from_be_bytes([*a, *b, *c, *d, *e, *f, *g, *h]);
    Ok((time, *count, rest))
}

/// Returns the literal on this variable with this range.
fn literal_of(variable: u8, low: u8, high: u8) -> Literal
    ensures { result ≡ record { variable = variable; low = low; high = high } }
{
    Literal {
        variable,
        low,
        high,
    }
}

/// Returns the eight literals that these bytes spell, three bytes for each.
fn eight_of(bytes: [u8; 24]) -> [Literal; 8]
    ensures { flat_map literal_bytes result ≡ bytes }
{
    [
        literal_of(bytes[0], bytes[1], bytes[2]),
        literal_of(bytes[3], bytes[4], bytes[5]),
        literal_of(bytes[6], bytes[7], bytes[8]),
        literal_of(bytes[9], bytes[10], bytes[11]),
        literal_of(bytes[12], bytes[13], bytes[14]),
        literal_of(bytes[15], bytes[16], bytes[17]),
        literal_of(bytes[18], bytes[19], bytes[20]),
        literal_of(bytes[21], bytes[22], bytes[23]),
    ]
}

/// Returns the four literals that these bytes spell, three bytes for each.
fn four_of(bytes: [u8; 12]) -> [Literal; 4]
    ensures { flat_map literal_bytes result ≡ bytes }
{
    [
        literal_of(bytes[0], bytes[1], bytes[2]),
        literal_of(bytes[3], bytes[4], bytes[5]),
        literal_of(bytes[6], bytes[7], bytes[8]),
        literal_of(bytes[9], bytes[10], bytes[11]),
    ]
}

/// Appends the first `count` literals of `bytes` to `held`, and returns the bytes after them; `Odd` if the bytes end too
/// early.
fn take_each<'a>(held: &mut Vec<Literal>, bytes: &'a [u8], count: u8) -> Result<&'a [u8], Untaken>
    ensures taken { IfOk result (λ rest. flat_map literal_bytes held.old.items ++ bytes.now ≡ flat_map literal_bytes held.new.items ++ rest.now) }
    ensures count { IfOk result (λ rest. length held.new.items ≡ length held.old.items + count) }
{
    let mut rest = bytes;
    for _ in 0..count {
        let [variable, low, high, behind @ ..] = rest else {
            return Err(Untaken::Odd);
        };
        held.push(Literal {
            variable: *variable,
            low: *low,
            high: *high,
        })?;
        rest = behind;
    }
    Ok(rest)
}

/// Does what `take_each` does, but takes the first four at once if `count` is at least four.
fn take_by_four<'a>(
    held: &mut Vec<Literal>,
    bytes: &'a [u8],
    count: u8,
) -> Result<&'a [u8], Untaken>
    ensures taken { IfOk result (λ rest. flat_map literal_bytes held.old.items ++ bytes.now ≡ flat_map literal_bytes held.new.items ++ rest.now) }
    ensures count { IfOk result (λ rest. length held.new.items ≡ length held.old.items + count) }
{
    // fewer than four, too few for a block
    if count < 4 {
        return take_each(held, bytes, count);
    }
    let Some((block, behind)) = bytes.split_first_chunk::<12>() else {
        return Err(Untaken::Odd);
    };
    held.extend_from_slice(&four_of(*block))?;
    take_each(held, behind, count - 4)
}

/// Puts the first `count` literals of `bytes` in place of those that `held` had, and returns the bytes after them; `Odd`
/// if the bytes end too early. Eight are taken at a time, as most columns have many.
fn take_literals<'a>(
    held: &mut Vec<Literal>,
    bytes: &'a [u8],
    count: u8,
) -> Result<&'a [u8], Untaken>
    ensures taken { IfOk result (λ rest. bytes.now ≡ flat_map literal_bytes held.new.items ++ rest.now) }
    ensures count { IfOk result (λ rest. length held.new.items ≡ count) }
{
    held.clear();
    let mut rest = bytes;
    let mut left = count;
    while left >= 8 {
        let Some((block, behind)) = rest.split_first_chunk::<24>() else {
            return Err(Untaken::Odd);
        };
        held.extend_from_slice(&eight_of(*block))?;
        left -= 8;
        rest = behind;
    }
    // fewer than eight are left
    take_by_four(held, rest, left)
}

/// Returns whether three bytes spell a literal; `true` guarantees it.
fn is_spelled(literal: Literal, variable: u8, low: u8, high: u8) -> bool
    ensures { OnTrue result (literal_bytes literal ≡ variable ∷ low ∷ high ∷ []) }
{
    (literal.variable == variable) & (literal.low == low) & (literal.high == high)
}

/// Returns whether bytes spell these literals, three for each; `true` guarantees it. It never stops early, so that the
/// compiler can compare several at once.
fn are_spelled<const N: usize, const M: usize>(literals: &[Literal; N], bytes: &[u8; M]) -> bool
    requires { M ≡ 3 * N }
    ensures { OnTrue result (flat_map literal_bytes literals.now ≡ bytes.now) }
{
    let mut all_spelled = true;
    for at in 0..N {
        all_spelled &= is_spelled(
            literals[at],
            bytes[3 * at],
            bytes[3 * at + 1],
            bytes[3 * at + 2],
        );
    }
    all_spelled
}

/// Returns how many literals `bytes` and the list begin with in common, counted in blocks of eight and at most `most`, and
/// the bytes after these. The contract says only that so many are in common, not that no more are.
fn skip_eights<'a>(literals: &[Literal], bytes: &'a [u8], most: usize) -> (usize, &'a [u8])
    ensures { HasFront literals.now bytes.now most result.0 result.1.now }
{
    let mut left = literals;
    let mut rest = bytes;
    let mut count = 0;
    // it ends at the first block that one of the two doesn't have whole, or that differs
    while most - count >= 8 {
        let Some((block, behind)) = left.split_first_chunk::<8>() else {
            return (count, rest);
        };
        let Some((spelled, after)) = rest.split_first_chunk::<24>() else {
            return (count, rest);
        };
        if !are_spelled(block, spelled) {
            return (count, rest);
        }
        count += 8;
        left = behind;
        rest = after;
    }
    (count, rest)
}

/// Does what `skip_eights` does, but for one block of four: the number is 4 or 0.
fn skip_four<'a>(literals: &[Literal], bytes: &'a [u8], most: usize) -> (usize, &'a [u8])
    ensures { HasFront literals.now bytes.now most result.0 result.1.now }
{
    // fewer than four are asked for, or one of the two has fewer: no block
    if most < 4 {
        return (0, bytes);
    }
    let Some((block, _)) = literals.split_first_chunk::<4>() else {
        return (0, bytes);
    };
    let Some((spelled, rest)) = bytes.split_first_chunk::<12>() else {
        return (0, bytes);
    };
    if are_spelled(block, spelled) {
        return (4, rest);
    }
    (0, bytes)
}

/// Does what `skip_eights` does, but literal by literal.
fn skip_each<'a>(literals: &[Literal], bytes: &'a [u8], most: usize) -> (usize, &'a [u8])
    ensures { HasFront literals.now bytes.now most result.0 result.1.now }
{
    let mut rest = bytes;
    for count in 0..most.min(literals.len()) {
        let [variable, low, high, after @ ..] = rest else {
            return (count, rest);
        };
        if !is_spelled(literals[count], *variable, *low, *high) {
            return (count, rest);
        }
        rest = after;
    }
    (most.min(literals.len()), rest)
}

/// Returns how many literals `bytes` and the list begin with in common, at most `most`, and the bytes after these; the
/// contract says only that so many are. Columns that are neighbours mostly differ in the last literals alone, so it
/// compares many at once.
fn skip_same<'a>(literals: &[Literal], bytes: &'a [u8], most: usize) -> (usize, &'a [u8])
    ensures { HasFront literals.now bytes.now most result.0 result.1.now }
{
    let (eights, rest) = skip_eights(literals, bytes, most);
    let (four, rest) = skip_four(&literals[eights..], rest, most - eights);
    let same = eights + four;
    let (ones, rest) = skip_each(&literals[same..], rest, most - same);
    (same + ones, rest)
}

/// Returns the cube of the first `count` literals of `bytes`, all lawful, and the bytes after them. Those that it has in
/// common with the front of `previous`, the literals of the column before, aren't judged again; `held` takes the others.
fn take_cube<'a>(
    alloc: Global,
    held: &mut Vec<Literal>,
    previous: &[Literal],
    bytes: &'a [u8],
    space: &VariableSpace,
    count: u8,
) -> Result<(Cube, &'a [u8]), Untaken>
    requires space { IsSpace space.now }
    requires rising { IsRising previous.now }
    requires lawful { All (IsLawfulLiteral space.now) previous.now }
    ensures taken { IfOk result (λ x. bytes.now ≡ flat_map literal_bytes x.0 ++ x.1.now) }
    ensures count { IfOk result (λ x. length x.0 ≡ count) }
    ensures lawful { IfOk result (λ x. All (IsLawfulLiteral space.now) x.0) }
{
    let (same, rest) = skip_same(previous, bytes, count as usize);
    // at most `count` are the same, so their number fits a byte
    let rest = take_literals(held, rest, count - same as u8)?;
    // the variables don't rise
    let Some(cube) = Cube::joined(alloc, &previous[..same], held.as_slice())? else {
        return Err(Untaken::Odd);
    };
    // a literal may not be lawful
    if !are_lawful(space, held.as_slice()) {
        return Err(Untaken::Odd);
    }
    Ok((cube, rest))
}

/// Returns a lawful column, and the bytes after it. `previous` are the literals of the column before, and `held` takes
/// those from the first on that differs.
fn take_column<'a>(
    alloc: Global,
    held: &mut Vec<Literal>,
    previous: &[Literal],
    bytes: &'a [u8],
    space: &VariableSpace,
) -> Result<(Column, &'a [u8]), Untaken>
    requires space { IsSpace space.now }
    requires rising { IsRising previous.now }
    requires lawful { All (IsLawfulLiteral space.now) previous.now }
    ensures taken { IfOk result (λ x. bytes.now ≡ column_bytes x.0 ++ x.1.now) }
    ensures lawful { IfOk result (λ x. IsLawfulColumn space.now x.0) }
{
    let (time, count, rest) = take_front(bytes)?;
    // a time isn't below 2^60
    if time >= TIME_END {
        return Err(Untaken::Odd);
    }
    let (cube, rest) = take_cube(alloc, held, previous, rest, space, count)?;
    Ok((Column { time, cube }, rest))
}

/// Returns the literals of the last of lawful columns; none if there is no column. `space` is there for the contract alone.
fn last_literals<'a>(space: &VariableSpace, columns: &'a [Column]) -> &'a [Literal]
    requires { All (IsLawfulColumn space.now) columns.now }
    ensures rising { IsRising result.now }
    ensures lawful { All (IsLawfulLiteral space.now) result.now }
{
    match columns.last() {
        Some(column) => column.cube.literals(),
        None => &[],
    }
}

/// Returns the `count` columns that `bytes` begin with, all lawful, and the bytes after them.
fn take_columns<'a>(
    alloc: Global,
    held: &mut Vec<Literal>,
    bytes: &'a [u8],
    space: &VariableSpace,
    count: u16,
) -> Result<(Vec<Column>, &'a [u8]), Untaken>
    requires { IsSpace space.now }
    ensures taken { IfOk result (λ x. bytes.now ≡ flat_map column_bytes x.0.items ++ x.1.now) }
    ensures count { IfOk result (λ x. length x.0.items ≡ count) }
    ensures lawful { IfOk result (λ x. All (IsLawfulColumn space.now) x.0.items) }
{
    let mut columns = Vec::with_capacity(alloc, count as usize)?;
    let mut rest = bytes;
    // columns are compared with the one before; the first, with no literals
    for _ in 0..count {
        let previous = last_literals(space, columns.as_slice());
        let (column, after) = take_column(alloc, held, previous, rest, space)?;
        columns.push(column)?;
        rest = after;
    }
    Ok((columns, rest))
}

/// Returns the row of an item, of at most `most` columns, each lawful, and the bytes after it.
fn take_row<'a>(
    alloc: Global,
    held: &mut Vec<Literal>,
    bytes: &'a [u8],
    space: &VariableSpace,
    item: u32,
    most: u64,
) -> Result<(Row, &'a [u8]), Untaken>
    requires { IsSpace space.now }
    ensures taken { IfOk result (λ x. bytes.now ≡ row_bytes x.0 ++ x.1.now) }
    ensures item { IfOk result (λ x. x.0.item ≡ item) }
    ensures few { IfOk result (λ x. length x.0.columns ≤ most) }
    ensures lawful { IfOk result (λ x. All (IsLawfulColumn space.now) x.0.columns) }
{
    // two bytes say how many columns there are, the higher one first
    let [high, low, rest @ ..] = bytes else {
        return Err(Untaken::Odd);
    };
    let count = u16::from_be_bytes([*high, *low]);
    if u64::from(count) > most {
        return Err(Untaken::Odd);
    }
    let (columns, rest) = take_columns(alloc, held, rest, space, count)?;
    Ok((Row::new(item, columns), rest))
}

/// Returns the row of an item that `bytes` begin with, how many columns were read up to its end, and the bytes after it.
/// `columns_read` columns were read before it in the pack; `held` is memory for literals, used again from row to row.
pub fn take_lawful<'a>(
    alloc: Global,
    held: &mut Vec<Literal>,
    bytes: &'a [u8],
    space: &VariableSpace,
    item: u32,
    columns_read: u64,
) -> Result<(Row, u64, &'a [u8]), Untaken>
    requires space { IsSpace space.now }
    requires few { columns_read ≤ MOST_LOAD }
    ensures taken { IfOk result (λ x. read_row space.now item columns_read bytes.now ≡ Ok (x.0, x.2.now)) }
    ensures total { IfOk result (λ x. (x.1 ≡ columns_read + length x.0.columns) × (x.1 ≤ MOST_LOAD)) }
{
    let most = (MOST_LOAD - columns_read).min(MOST_COLUMNS);
    let (row, rest) = take_row(alloc, held, bytes, space, item, most)?;
    let total = columns_read + row.columns().len() as u64;
    Ok((row, total, rest))
}
