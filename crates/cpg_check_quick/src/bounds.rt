//! What a node has to hear of literals: their lows and their highs, which it may hear from different items.
ghost use Rattle.std.specs.Prelude.{◌≡◌, ◌++◌, if◌then◌else◌, IfOk, [], flat_map};
ghost use Rattle.cpg_check_quick.specs.Bounds.{bounds_of, high_of, low_of, unknown_bounds};

use cpg_base::{OutOfMemory, top};
use cpg_cube::{Literal, VARIABLES};

/// Adds the low of a literal to `bounds`, unless it is 0: as the literal of the numbers from it up to the greatest that
/// the variable may have with at most `k` faults, or up to the literal's high if that is greater.
fn push_low(k: u8, literal: &Literal, bounds: &mut Vec<Literal>) -> Result<(), OutOfMemory>
    ensures { IfOk result (λ _. bounds.new.items ≡ bounds.old.items ++ low_of k literal.now) }
{
    // every number is at least 0
    if literal.low == 0 {
        return Ok(());
    }
    bounds.push(Literal {
        variable: literal.variable,
        low: literal.low,
        high: literal.high.max(top(k, literal.variable)),
    })?;
    Ok(())
}

/// Adds the high of a literal to `bounds`, as the literal of all numbers up to it, if the variable may be above it with
/// at most `k` faults.
fn push_high(k: u8, literal: &Literal, bounds: &mut Vec<Literal>) -> Result<(), OutOfMemory>
    ensures { IfOk result (λ _. bounds.new.items ≡ bounds.old.items ++ high_of k literal.now) }
{
    // no number is above it
    if top(k, literal.variable) <= literal.high {
        return Ok(());
    }
    bounds.push(Literal {
        variable: literal.variable,
        low: 0,
        high: literal.high,
    })?;
    Ok(())
}

/// Adds the low and the high of a literal to `bounds`, as far as they leave out a number that the variable may have
/// with at most `k` faults; nothing if the node knows the variable's number (`is_known`).
fn push_unknown(
    k: u8,
    is_known: bool,
    literal: &Literal,
    bounds: &mut Vec<Literal>,
) -> Result<(), OutOfMemory>
    ensures { IfOk result (λ _. bounds.new.items ≡ bounds.old.items ++ (if is_known then [] else bounds_of k literal.now)) }
{
    if is_known {
        return Ok(());
    }
    push_low(k, literal, bounds)?;
    push_high(k, literal, bounds)?;
    Ok(())
}

/// Writes to `bounds`, in place of what is there, the lows and highs of the literals on variables that aren't marked as
/// known, as far as they leave out a number that a variable may have with at most `k` faults.
pub(crate) fn list_unknown(
    k: u8,
    known: &[bool; VARIABLES],
    literals: &[Literal],
    bounds: &mut Vec<Literal>,
) -> Result<(), OutOfMemory>
    ensures { IfOk result (λ _. bounds.new.items ≡ flat_map (unknown_bounds k known.now) literals.now) }
{
    bounds.clear();
    for literal in literals {
        push_unknown(k, known[literal.variable as usize], literal, bounds)?;
    }
    Ok(())
}
