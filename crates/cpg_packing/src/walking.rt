//! Putting the columns of a tree as they are found; the twin for texts is in cpg_show.
ghost use Rattle.std.specs.Prelude.{◌≡◌, ◌^◌, ◌<◌, ℕ, All, Option, OnOk};
ghost use Rattle.cpg_codec.specs.Writing.{Puts};
ghost use Rattle.cpg_io.specs.Causes.{HasCause};
ghost use Rattle.cpg_packing.specs.Packable.{IsPackable};
ghost use Rattle.cpg_packing.specs.PackBytes.{later_bytes};
ghost use Rattle.cpg_tree.specs.Decision.{HasCuts};
ghost use Rattle.cpg_tree.specs.Flat.{IsFlat, flat};
ghost use Rattle.cpg_tree.specs.Paths.{paths_from};
ghost use Rattle.cpg_tree.specs.TreeNode.{TreeNode};
ghost use Rattle.cpg_tree_columns.specs.Columns.{columns_of_paths};

use cpg_base::top;
use cpg_codec::{Buffer, put_column};
use cpg_cube::Literal;
use cpg_io::{Failed, Sink};
use cpg_tree::{OptionalTime, Top, TreeItem, top_of};
use cpg_tree_columns::PathCube;

/// Puts the columns that the tree has below a path, each later by a delay: the time of each is a leaf, and its cube is the
/// path to there. `items` are those of the tree below the path, and `k` is the most faults. The path is narrowed on the way
/// down and restored on the way up. `Err` only if the sink meets a fault; the path is then anywhere.
pub(crate) fn put_paths<O: Sink>(
    buffer: &mut Buffer,
    sink: &mut O,
    items: &[TreeItem<OptionalTime>],
    k: u8,
    delay: u64,
    path: &mut PathCube,
) -> Result<(), Failed>
    requires flat { IsFlat items.now }
    requires cuts { (n : TreeNode (Option ℕ)) → items.now ≡ flat n → HasCuts k n }
    requires packable { (n : TreeNode (Option ℕ)) → items.now ≡ flat n → All IsPackable (columns_of_paths (paths_from k path.old n)) }
    requires delay { delay < 2 ^ 59 }
    ensures put { (n : TreeNode (Option ℕ)) → items.now ≡ flat n →
        Puts (O.state sink.old).taken (O.state sink.new).taken buffer.old buffer.new result (later_bytes delay (columns_of_paths (paths_from k path.old n))) }
    ensures path { OnOk result (path.new ≡ path.old) }
    ensures cause { HasCause (O.state sink.old).faults (O.state sink.new).faults result }
{
    match top_of(items) {
        Top::Value(time) => {
            // without a time no column is for these scenarios
            if let Some(time) = time.get() {
                put_column(buffer, sink, time + delay, path.literals())?;
            }
            Ok(())
        }
        Top::Cut {
            variable,
            cut,
            below,
            above,
        } => {
            // the numbers above the cut, and below those up to it
            let upper = Literal {
                variable,
                low: cut + 1,
                high: top(k, variable),
            };
            let step = path.narrow(Literal {
                variable,
                low: 0,
                high: cut,
            });
            put_paths(buffer, sink, below, k, delay, path)?;
            // the upper range takes the place of the lower, which is less work than to restore and narrow again
            path.exchange(step, upper);
            put_paths(buffer, sink, above, k, delay, path)?;
            path.restore(step);
            Ok(())
        }
    }
}
