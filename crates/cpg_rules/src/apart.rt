//! Whether some outcome makes two inputs of a join live, by the shared parts of the inputs' trees.
ghost use Rattle.std.specs.Prelude.{◌≡◌, ◌<◌, IfOk, true, All};
ghost use Rattle.cpg_base.specs.Graph.{process_count};
ghost use Rattle.cpg_rules.specs.Alternatives.{IsSingleJoin};
ghost use Rattle.cpg_rules.specs.Apart.{union, are_apart};
ghost use Rattle.cpg_rules.specs.Sharing.{trees_of, AreRoots, AreTreesOf, Extends, MakesUnion};

use crate::composing::input_part;
use crate::shared::SharedParts;
use crate::steps::{Input, inputs_of};
use cpg_base::{Activation, OutOfMemory, Problem};
use std::alloc::Global;

/// Returns the part with the tree of a join that has these inputs; `None` exactly if two of them are live at once in some
/// outcome. The tree of process p is in the part `roots[p]`.
fn union(
    alloc: Global,
    problem: &Problem,
    parts: &mut SharedParts,
    roots: &[usize],
    inputs: &[Input],
) -> Result<Option<usize>, OutOfMemory>
    // each process has a root among the parts, and the inputs come from processes of the graph
    requires roots { AreRoots parts.old.parts (process_count problem.now) roots.now }
    requires inputs { All (λ input. input.source < process_count problem.now) inputs.now }
    // the part made has the union of the trees of these inputs; there is none if two are live at once
    ensures { IfOk result (MakesUnion parts.old parts.new (union problem.now parts.old.ranks (trees_of parts.old.parts roots.now) inputs.now)) }
{
    // without inputs a join is inactive
    let Some((input, rest)) = inputs.split_first() else {
        let leaf = parts.leaf(alloc, Activation::Inactive)?;
        return Ok(Some(leaf));
    };
    let first = input_part(alloc, problem, true, parts, roots, *input)?;
    // a last input has none to be live with
    if rest.is_empty() {
        return Ok(Some(first));
    }
    // two of the later ones are live at once
    let Some(later) = union(alloc, problem, parts, roots, rest)? else {
        return Ok(None);
    };
    // the later ones are apart from each other, but the first isn't from one of them
    if parts.are_both_live(first, later) {
        return Ok(None);
    }
    let made = parts.met(alloc, true, first, later)?;
    Ok(Some(made))
}

/// Whether no outcome makes two of these inputs of a join live. The tree of process p is in the part `roots[p]`.
fn are_apart(
    alloc: Global,
    problem: &Problem,
    parts: &mut SharedParts,
    roots: &[usize],
    inputs: &[Input],
) -> Result<bool, OutOfMemory>
    // each process has a root among the parts, and the inputs come from processes of the graph
    requires roots { AreRoots parts.old.parts (process_count problem.now) roots.now }
    requires inputs { All (λ input. input.source < process_count problem.now) inputs.now }
    // parts are only added
    ensures more { IfOk result (λ apart. Extends parts.old parts.new) }
    // the answer is whether no two of these inputs are live at once, by the trees of their sources
    ensures apart { IfOk result (λ apart. apart ≡ are_apart problem.now parts.old.ranks (trees_of parts.old.parts roots.now) inputs.now) }
{
    // without inputs no two are live
    let Some((input, rest)) = inputs.split_first() else {
        return Ok(true);
    };
    // two of the later ones are live at once
    let Some(later) = union(alloc, problem, parts, roots, rest)? else {
        return Ok(false);
    };
    let first = input_part(alloc, problem, true, parts, roots, *input)?;
    Ok(!parts.are_both_live(first, later))
}

/// Whether the parts show that no outcome makes two inputs of this process live, if it is a join. Of any other process it
/// is true, since nothing is asked of it. The contract says nothing of the answer false.
pub fn is_single_join(
    alloc: Global,
    problem: &Problem,
    parts: &mut SharedParts,
    roots: &[usize],
    process: u32,
) -> Result<bool, OutOfMemory>
    // the roots are parts, and have the trees of the guards of the graph
    requires roots { AreRoots parts.old.parts (process_count problem.now) roots.now }
    requires guards { AreTreesOf problem.now (trees_of parts.old.parts roots.now) }
    requires process { process < process_count problem.now }
    ensures more { IfOk result (λ single. Extends parts.old parts.new) }
    // the answer true means that no outcome makes two inputs of the process live, if it is a join
    ensures single { IfOk result (λ single. single ≡ true → IsSingleJoin problem.now process) }
{
    if !problem.processes()[process as usize].join {
        return Ok(true);
    }
    let inputs = inputs_of(alloc, problem, process)?;
    let apart = are_apart(alloc, problem, parts, roots, inputs.as_slice())?;
    Ok(apart)
}
