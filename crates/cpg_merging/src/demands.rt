//! The demands of columns: the time of each, with how much it asks. Columns that touch have one time and ask different
//! amounts, so demands usually show at once that none touch.
ghost use Rattle.std.specs.Prelude.{◌≡◌, ◌+◌, ◌*◌, ◌/◌, ◌^◌, ◌%◌, IfOk, length, map, sum_by};
ghost use Rattle.std.specs.Bool.{OnFalse};
ghost use Rattle.cpg_merging.specs.Demands.{AgreeByTime, demand_of, low_of};
ghost use Rattle.cpg_merging.specs.Totals.{DoNotFall};

use cpg_base::OutOfMemory;
use cpg_cube::{Column, Literal};
use std::alloc::Global;

/// How many amounts a byte can say. A demand is the time, times this, plus the amount.
const AMOUNTS: u64 = 256;

/// Returns how much these literals ask: the sum of their lows, as a byte.
fn asked_in(literals: &[Literal]) -> u8
    ensures { result ≡ sum_by low_of literals.now % 256 }
{
    let mut asked: u8 = 0;
    for literal in literals {
        asked = asked.wrapping_add(literal.low);
    }
    asked
}

/// Returns the demand of a column with this time that asks this much. Both are in one number, modulo 2^64.
pub fn demand(time: u64, asked: u8) -> u64
    ensures { result ≡ (time * 256 % 2 ^ 64 + asked) % 2 ^ 64 }
{
    time.wrapping_mul(AMOUNTS).wrapping_add(u64::from(asked))
}

/// Returns the demand of a column.
fn demand_of(column: &Column) -> u64
    ensures { result ≡ demand_of column.now }
{
    demand(column.time, asked_in(column.cube.literals()))
}

/// Returns the demands of the columns. The one error is `OutOfMemory`.
fn demands(alloc: Global, columns: &[Column]) -> Result<Vec<u64>, OutOfMemory>
    ensures { IfOk result (λ demands. demands.items ≡ map demand_of columns.now) }
{
    let mut demands = Vec::new(alloc);
    demands.reserve(columns.len())?;
    for column in columns {
        demands.push(demand_of(column))?;
    }
    Ok(demands)
}

/// Whether two demands have one time and differ.
fn do_differ(first: u64, second: u64) -> bool
    ensures { OnFalse result (first / 256 ≡ second / 256 → first ≡ second) }
{
    first != second && first / AMOUNTS == second / AMOUNTS
}

/// Whether any two of these demands, which are sorted, have one time and differ. Such two stand side by side
/// somewhere.
fn do_any_differ(sorted: &[u64]) -> bool
    requires { DoNotFall sorted.now }
    ensures { OnFalse result (AgreeByTime sorted.now) }
{
    for place in 1..sorted.len() {
        if do_differ(sorted[place - 1], sorted[place]) {
            return true;
        }
    }
    false
}

/// Whether any two of these demands have one time and differ. If it is false, no two columns with these demands touch;
/// true guarantees nothing.
pub fn do_demands_differ(demands: Vec<u64>) -> bool
    ensures { OnFalse result (AgreeByTime demands.items) }
{
    let mut demands = demands;
    // rows mostly have few columns, so the sort is cheap
    demands.sort_unstable();
    do_any_differ(demands.as_slice())
}

/// Whether any two of these columns have one time and ask different amounts, as those do that touch. True guarantees
/// nothing. The one error is `OutOfMemory`.
pub(crate) fn do_amounts_differ(alloc: Global, columns: &[Column]) -> Result<bool, OutOfMemory>
    ensures { IfOk result (λ r. OnFalse r (AgreeByTime (map demand_of columns.now))) }
{
    let demands = demands(alloc, columns)?;
    Ok(do_demands_differ(demands))
}
