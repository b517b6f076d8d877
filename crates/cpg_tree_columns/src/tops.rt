//! The greatest time of each tree, its top. A tree whose top is under that of another one has no peak, so it is passed
//! over.
ghost use Rattle.std.specs.Prelude.{◌≡◌, IfOk, length};
ghost use Rattle.cpg_base.specs.Graph.{process_count};
ghost use Rattle.cpg_tree_columns.specs.Tops.{AreTops, bar_of, past_tops, reaches};

use crate::past::time_past;
use crate::peaks::most;
use cpg_base::{OutOfMemory, Problem};
use cpg_tree::{OptionalTime, Tree};
use std::alloc::Global;

/// Returns the greatest number of each tree, if it has one.
pub fn tops_of(alloc: Global, trees: &[Tree<OptionalTime>]) -> Result<Vec<Option<u64>>, OutOfMemory>
    ensures { IfOk result (λ tops. AreTops trees.now (length trees.now) tops.items) }
{
    let mut tops = Vec::new(alloc);
    for tree in trees {
        tops.push(most(tree))?;
    }
    Ok(tops)
}

/// Returns, for each process, how far its top is past its due; `None` if it has none or isn't past it.
pub(crate) fn past_tops(
    alloc: Global,
    problem: &Problem,
    tops: &[Option<u64>],
) -> Result<Vec<Option<u64>>, OutOfMemory>
    requires { length tops.now ≡ process_count problem.now }
    ensures { IfOk result (λ past. past.items ≡ past_tops problem.now tops.now) }
{
    let mut past = Vec::new(alloc);
    // a graph has at most 128 processes, so their numbers fit a `u32`
    for process in 0..problem.processes().len() as u32 {
        past.push(time_past(tops[process as usize], problem.due(process)))?;
    }
    Ok(past)
}

/// Returns the greatest of the tops, or 0 if there is none.
pub(crate) fn bar_of(tops: &[Option<u64>]) -> u64
    ensures { result ≡ bar_of tops.now }
{
    let mut bar = 0;
    for top in tops {
        // a tree without times counts as 0, which raises nothing
        bar = top.unwrap_or(0).max(bar);
    }
    bar
}

/// Whether there is a top and it isn't under the bar.
pub(crate) fn reaches(bar: u64, top: Option<u64>) -> bool
    ensures { result ≡ reaches bar top }
{
    match top {
        Some(top) => bar <= top,
        None => false,
    }
}
