//! The quick test of V2: no two columns of one row match.
ghost use Rattle.std.specs.Prelude.{List, IfOk};
ghost use Rattle.cpg_base.specs.Graph.{Graph};
ghost use Rattle.cpg_table.specs.Table.{NodeTable};
ghost use Rattle.cpg_table.specs.declared.rule.Rule.{Rule};
ghost use Rattle.cpg_violation.specs.Sure.{AreSure};
ghost use Rattle.cpg_row_trees.specs.Trees.{AreRowTrees};

use cpg_base::OutOfMemory;
use cpg_row_trees::Places;
use std::alloc::Global;

/// A mark for each item, by number: whether its row has a tree. Then V2 holds there, as a tree has one place at most
/// for each scenario. It may hold at one that isn't marked, too.
pub(crate) fn single_marks(
    alloc: Global,
    trees: &[Option<Places>],
) -> Result<Vec<bool>, OutOfMemory>
    ensures { IfOk result (λ marks. (g : Graph) (tables : List NodeTable) → AreRowTrees g tables trees.now → AreSure g tables Rule.Single marks.items) }
{
    let mut marks = Vec::new(alloc);
    marks.reserve(trees.len())?;
    for tree in trees {
        marks.push(tree.is_some())?;
    }
    Ok(marks)
}
