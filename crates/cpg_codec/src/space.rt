//! Which variables the literals of a pack may be on, and with which ranges.
ghost use Rattle.std.specs.Prelude.{◌≡◌, ◌≤◌, IsTrue};
ghost use Rattle.cpg_table.specs.Lawful.{space_of};
ghost use Rattle.cpg_codec.specs.Grammar.{fault_end, is_variable, variable_count_from, IsSpace, low_end, high_end};

use cpg_base::top;
use cpg_cube::Literal;
use cpg_head::Head;
use cpg_table::VariableSpace;

/// The variable of the first condition's value. Those of fault counts are below it.
const FIRST_VALUE: u32 = cpg_base::FIRST_VALUE as u32;

/// Returns the variables that there are under a head.
pub fn space_of(head: &Head) -> VariableSpace
    ensures space { result ≡ space_of head.now }
    ensures within { IsSpace result }
{
    // called for its contract: a head keeps its limits
    let _faults = head.faults();
    cpg_table::space_of(head)
}

/// Returns the number below which the fault counts are that a literal may be on. If the greatest count is 0 there are
/// none: a literal leaves out a number, and then there is only one.
fn fault_end(space: &VariableSpace) -> u32
    ensures { result ≡ fault_end space.now }
{
    if space.faults == 0 {
        0
    } else {
        space.processes
    }
}

/// Returns whether a literal may be on a variable.
pub fn is_variable(space: &VariableSpace, variable: u32) -> bool
    requires { IsSpace space.now }
    ensures { result ≡ is_variable space.now variable }
{
    variable < fault_end(space)
        || (FIRST_VALUE <= variable && variable < FIRST_VALUE + space.conditions)
}

/// Returns how many variables from this one on a literal may be on.
pub fn variable_count_from(space: &VariableSpace, variable: u32) -> u32
    requires { IsSpace space.now }
    ensures { result ≡ variable_count_from space.now variable }
{
    // fault counts, and then values of conditions
    fault_end(space).saturating_sub(variable)
        + (FIRST_VALUE + space.conditions).saturating_sub(variable.max(FIRST_VALUE))
}

/// Returns the greatest low of a literal on this variable.
pub fn low_end(space: &VariableSpace, variable: u8) -> u8
    ensures { result ≡ low_end space.now variable }
{
    top(space.faults, variable)
}

/// Returns the greatest high of a literal on this variable with this low.
pub fn high_end(space: &VariableSpace, variable: u8, low: u8) -> u8
    ensures { result ≡ high_end space.now variable low }
{
    if u32::from(variable) < FIRST_VALUE {
        // a count's range that begins at 0 has to end before the greatest count, so as to leave it out
        if low == 0 {
            space.faults.saturating_sub(1)
        } else {
            space.faults
        }
    } else {
        // a value's range has one number
        low
    }
}

/// Returns whether a literal has a range that one on its variable may have; `true` guarantees it.
pub fn is_range(space: &VariableSpace, literal: Literal) -> bool
    ensures { IsTrue result → (literal.low ≤ low_end space.now literal.variable) × (literal.low ≤ literal.high)
        × (literal.high ≤ high_end space.now literal.variable literal.low) }
{
    if literal.low > low_end(space, literal.variable) {
        return false;
    }
    literal.low <= literal.high && literal.high <= high_end(space, literal.variable, literal.low)
}
