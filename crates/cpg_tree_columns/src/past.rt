//! How far times are past their due.
ghost use Rattle.std.specs.Prelude.{ℕ, ◌≡◌, Bool, IfOk};
ghost use Rattle.cpg_tree.specs.Tree.{HasOnePathEach, DoPathsPass, IsMap};
ghost use Rattle.cpg_tree_columns.specs.Past.{time_past};

use cpg_base::OutOfMemory;
use cpg_tree::{OptionalTime, Tree};

/// Returns how far a time is past its due; `None` if there is no time or it isn't past the due.
pub(crate) fn time_past(time: Option<u64>, due: u64) -> Option<u64>
    ensures { result ≡ time_past due time }
{
    let time = time?;
    if due < time { Some(time - due) } else { None }
}

/// Returns a tree of how far the times of a tree are past their due; `None` where there is no time or none past it.
pub(crate) fn past(tree: &Tree<OptionalTime>, due: u64) -> Result<Tree<OptionalTime>, OutOfMemory>
    ensures is { IfOk result (IsMap (λ x z. z ≡ time_past due x) tree.now) }
    ensures each { IfOk result (λ t. HasOnePathEach t.faults t.paths) }
    ensures pass { IfOk result (λ t. (test : ℕ → Bool) → DoPathsPass test tree.now.paths → DoPathsPass test t.paths) }
{
    tree.map(&|time: OptionalTime| OptionalTime::of(time_past(time.get(), due)))
}
