//! Putting the lines of a tree's columns as they are found; the twin for a pack is in cpg_packing.
ghost use Rattle.std.specs.Prelude.{◌≡◌, ℕ, Option, OnOk};
ghost use Rattle.cpg_codec.specs.Writing.{Puts};
ghost use Rattle.cpg_io.specs.Causes.{HasCause};
ghost use Rattle.cpg_label.specs.CubeText.{columns_text};
ghost use Rattle.cpg_label.specs.Lines.{IsLine};
ghost use Rattle.cpg_tree.specs.Decision.{HasCuts};
ghost use Rattle.cpg_tree.specs.Flat.{IsFlat, flat};
ghost use Rattle.cpg_tree.specs.Paths.{paths_from};
ghost use Rattle.cpg_tree.specs.TreeNode.{TreeNode};
ghost use Rattle.cpg_tree_columns.specs.Columns.{columns_of_paths};

use crate::putting::put_next;
use cpg_base::top;
use cpg_codec::Buffer;
use cpg_cube::Literal;
use cpg_io::{Failed, Sink};
use cpg_label::{Labels, Line};
use cpg_tree::{OptionalTime, Top, TreeItem, top_of};
use cpg_tree_columns::PathCube;

/// Puts the lines of the columns that the tree has below a path: the time of each is a leaf, and its cube is the path to
/// there. `items` are those of the tree below the path, `k` is the most faults, and `line` is that of any column before. The
/// path is narrowed on the way down and restored on the way up. `Err` only if the sink meets a fault; the path is then
/// anywhere.
pub(crate) fn put_paths<O: Sink>(
    buffer: &mut Buffer,
    sink: &mut O,
    labels: &Labels<'_>,
    line: &mut Line,
    items: &[TreeItem<OptionalTime>],
    k: u8,
    path: &mut PathCube,
) -> Result<(), Failed>
    requires line { IsLine labels.now line.old }
    requires flat { IsFlat items.now }
    requires cuts { (n : TreeNode (Option ℕ)) → items.now ≡ flat n → HasCuts k n }
    ensures line { OnOk result (IsLine labels.now line.new) }
    ensures put { (n : TreeNode (Option ℕ)) → items.now ≡ flat n →
        Puts (O.state sink.old).taken (O.state sink.new).taken buffer.old buffer.new result (columns_text labels.now (columns_of_paths (paths_from k path.old n))) }
    ensures path { OnOk result (path.new ≡ path.old) }
    ensures cause { HasCause (O.state sink.old).faults (O.state sink.new).faults result }
{
    match top_of(items) {
        Top::Value(time) => match time.get() {
            // no time: no column is for these scenarios
            None => Ok(()),
            Some(time) => put_next(buffer, sink, labels, line, time, path.literals()),
        },
        Top::Cut {
            variable,
            cut,
            below,
            above,
        } => {
            // the numbers above the cut, and below those up to it
            let upper = Literal {
                variable,
                low: cut + 1,
                high: top(k, variable),
            };
            let step = path.narrow(Literal {
                variable,
                low: 0,
                high: cut,
            });
            put_paths(buffer, sink, labels, line, below, k, path)?;
            // the upper range takes the place of the lower, which is less work than to restore and narrow again
            path.exchange(step, upper);
            put_paths(buffer, sink, labels, line, above, k, path)?;
            path.restore(step);
            Ok(())
        }
    }
}
