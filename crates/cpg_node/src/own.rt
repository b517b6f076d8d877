//! A node's own processes.
ghost use Rattle.std.specs.Prelude.{◌≡◌, [], IfNone, IfSome, None};
ghost use Rattle.cpg_node.specs.Dispatcher.{own_of};

use cpg_table::{NodeTable, Own};

/// Returns the node's own process with this number, or `None` if it isn't one of the node's.
pub fn own_of(table: &NodeTable, process: u32) -> Option<&Own>
    ensures some { IfSome result (λ own. own.now ≡ own_of table.now process) }
    ensures none { IfNone result (own_of table.now process ≡ record { process = 0; condition = None; times = [] }) }
{
    for own in table.own() {
        if own.process == process {
            return Some(own);
        }
    }
    None
}
