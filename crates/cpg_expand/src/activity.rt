//! Trees of where items are active.
ghost use Rattle.std.specs.Prelude.{◌≡◌, ◌≤◌, ◌<◌, IfOk, true};
ghost use Rattle.cpg_base.specs.Graph.{is_sent, item_count, process_count};
ghost use Rattle.cpg_expand.specs.Active.{IsActivityOf};
ghost use Rattle.cpg_tree.specs.GraphTrees.{IsTree};

use crate::guarded::active;
use crate::sending::goes;
use cpg_base::OutOfMemory;
use cpg_rules::Admitted;
use cpg_tree::Tree;
use std::alloc::Global;

/// Returns a tree that is true in the scenarios in which an item is active, and false in all others. The item is the
/// start of a process, or one that is sent.
pub fn active_item(alloc: Global, admitted: &Admitted, item: u32) -> Result<Tree<bool>, OutOfMemory>
    requires item { item < item_count admitted.now.graph }
    requires acts { process_count admitted.now.graph ≤ item → is_sent admitted.now.graph item ≡ true }
    ensures tree { IfOk result (IsTree admitted.now.graph) }
    ensures active { IfOk result (IsActivityOf admitted.now.graph item) }
{
    let problem = admitted.problem();
    let process = problem.producer(item);
    let guard = admitted.guards().guard_of(process);
    let producing = active(alloc, problem, guard)?;
    // a start is active where its process is
    if (item as usize) < problem.processes().len() {
        return Ok(producing);
    }
    let goes = goes(alloc, problem, &producing, item)?;
    Ok(goes)
}
