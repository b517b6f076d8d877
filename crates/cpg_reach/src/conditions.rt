//! The conditions that decide each process in some scenario.
ghost use Rattle.std.specs.Prelude.{◌≡◌, ◌<◌, ◌≤◌, IfOk, length, get_or, []};
ghost use Rattle.cpg_rules.specs.Trees.{TestsBelow};
ghost use Rattle.cpg_reach.specs.Variables.{Adds};
ghost use Rattle.cpg_reach.specs.Tested.{tested_values, AreDecidingValues};

use crate::variables::{FIRST_VALUE, Variables};
use cpg_base::OutOfMemory;
use cpg_rules::{Admitted, GuardTop, GuardTree};
use std::alloc::Global;

/// Adds to `values` those of all conditions that a guard tests.
fn add_tested(tree: &GuardTree, values: &mut Variables)
    requires { TestsBelow 32 tree.now }
    ensures { Adds values.old (tested_values tree.now) values.new }
{
    match tree.top() {
        GuardTop::Leaf(_) => {}
        GuardTop::Test { condition, no, yes } => {
            values.insert(FIRST_VALUE + condition);
            add_tested(no, values);
            add_tested(yes, values);
        }
    }
}

/// Returns the values of all conditions that a guard tests.
fn tested(tree: &GuardTree) -> Variables
    requires { TestsBelow 32 tree.now }
    ensures { Adds [] (tested_values tree.now) result }
{
    let mut values = Variables::none();
    add_tested(tree, &mut values);
    values
}

/// Returns, for each process, the values of the conditions that decide it in some scenario. The one error is
/// `OutOfMemory`.
pub fn deciding_values(alloc: Global, admitted: &Admitted) -> Result<Vec<Variables>, OutOfMemory>
    ensures { IfOk result (λ values. AreDecidingValues admitted.now.graph values.items) }
{
    let count = admitted.problem().processes().len() as u32;
    let mut values = Vec::new(alloc);
    values.reserve(count as usize)?;
    for process in 0..count {
        values.push(tested(admitted.guards().guard_of(process)))?;
    }
    Ok(values)
}
