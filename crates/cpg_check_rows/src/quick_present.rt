//! The quick test of V3: an active item has a column that matches.
ghost use Rattle.std.specs.Prelude.{◌≡◌, ◌<◌, List, IfOk};
ghost use Rattle.std.specs.Bool.{OnTrue};
ghost use Rattle.cpg_base.specs.Graph.{item_count};
ghost use Rattle.cpg_table.specs.Table.{NodeTable};
ghost use Rattle.cpg_table.specs.declared.rule.Rule.{Rule};
ghost use Rattle.cpg_violation.specs.Sure.{AreSure, IsSure};
ghost use Rattle.cpg_row_trees.specs.Trees.{AreRowTrees};
ghost use Rattle.cpg_check_rows.specs.Absent.{IsInactiveIfNone};

use cpg_base::OutOfMemory;
use cpg_row_trees::{Places, Test};
use cpg_rules::Admitted;
use cpg_tree::Space;
use cpg_violation::{is_item_idle, tested_marks};
use std::alloc::Global;

/// Tests the place to which the tree of an item's row leads some scenarios: either there is one, and its column matches
/// in them, or the item is inactive in them.
#[derive(Drop)]
struct Presence<'a> {
    /// The graph of the item.
    admitted: &'a Admitted,
    /// The item's number.
    item: u32,
}

impl<'a> Test for Presence<'a> {
    ghost use Rattle.cpg_check_rows.specs.Absent.{IsInactiveIfNone};

    ghost guarantees = { λ test place s. IsInactiveIfNone test.admitted.now.graph test.item place s };

    /// Whether there is a place, or the item is inactive in all scenarios of a space. False guarantees nothing.
    fn passes(&self, place: Option<u32>, space: &Space) -> bool {
        if place.is_some() {
            return true;
        }
        // no clause says that the item is the graph's
        if self.item >= self.admitted.problem().item_count() {
            return false;
        }
        is_item_idle(self.admitted, self.item, space)
    }
}

/// Whether V3 is known to hold at an item, by the tree of its row. False guarantees nothing. `trees` are those of all
/// rows, by item.
fn is_sure(admitted: &Admitted, trees: &[Option<Places>], item: u32) -> bool
    requires { item < item_count admitted.now.graph }
    ensures { OnTrue result ((tables : List NodeTable) → AreRowTrees admitted.now.graph tables trees.now → IsSure admitted.now.graph tables Rule.Present item) }
{
    // without a tree it isn't known in which scenarios no column matches
    let Some(Some(tree)) = trees.get(item as usize) else {
        return false;
    };
    // mostly a column matches in every scenario
    if tree.are_everywhere() {
        return true;
    }
    let space = Space::whole(admitted.problem().faults());
    tree.do_pass(&space, &Presence { admitted, item })
}

/// A mark for each item, by number: whether V3 is known to hold there. It may hold at one that isn't marked, too.
/// `trees` are those of all rows.
pub(crate) fn present_marks(
    alloc: Global,
    admitted: &Admitted,
    trees: &[Option<Places>],
) -> Result<Vec<bool>, OutOfMemory>
    ensures { IfOk result (λ marks. (tables : List NodeTable) → AreRowTrees admitted.now.graph tables trees.now →
        AreSure admitted.now.graph tables Rule.Present marks.items) }
{
    let items = admitted.problem().item_count();
    let marks = tested_marks(alloc, items, |item| is_sure(admitted, trees, item))?;
    Ok(marks)
}
