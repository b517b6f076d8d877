//! The trees of the processes, composed from those of their inputs.
ghost use Rattle.std.specs.Prelude.{◌≡◌, ◌<◌, ◌≤◌, IfOk, All, length, map, replicate, get_or};
ghost use Rattle.cpg_base.specs.Graph.{process_count, condition_count, process_of};
ghost use Rattle.cpg_base.specs.Numbers.{numbers_below};
ghost use Rattle.cpg_base.specs.Order.{place};
ghost use Rattle.cpg_order.specs.Guard.{Leaf};
ghost use Rattle.cpg_base.specs.declared.activation.Activation.TheVariants.{Inactive};
ghost use Rattle.cpg_rules.specs.Steps.{IsStepBelow};
ghost use Rattle.cpg_rules.specs.Composing.{rank, settles, by_input, input_tree, composed, composed_along};
ghost use Rattle.cpg_rules.specs.Sharing.{trees_of, AreRoots, Extends, Makes};

use crate::GuardTree;
use crate::edges::test_of;
use crate::shared::SharedParts;
use crate::steps::{ActivationStep, Input};
use cpg_base::{Activation, Order, OutOfMemory, Problem};
use std::alloc::Global;

/// Returns the rank of each condition, by number: the place of its process in the order.
pub fn ranks_of(alloc: Global, problem: &Problem, order: &Order) -> Result<Vec<u32>, OutOfMemory>
    requires { process_count problem.now ≤ length order.now }
    ensures { IfOk result (λ ranks. ranks.items ≡ map (λ c. place order.now (process_of problem.now c)) (numbers_below (condition_count problem.now))) }
{
    let mut ranks = Vec::new(alloc);
    ranks.reserve(problem.conditions() as usize)?;
    for condition in 0..problem.conditions() {
        ranks.push(order.place(problem.process_of(condition)))?;
    }
    Ok(ranks)
}

/// Returns the rank of a condition, and 0 if the list has none for it. Each condition of the graph has one.
pub fn rank(ranks: &[u32], condition: u32) -> u32
    ensures { result ≡ rank ranks.now condition }
{
    match ranks.get(condition as usize) {
        Some(rank) => *rank,
        None => 0,
    }
}

/// Whether an input that is active in this way settles how the process is active, so that the later inputs don't count.
/// A live input settles a join, and an input that isn't live settles any other process.
pub fn settles(join: bool, input: Activation) -> bool
    ensures { result ≡ settles join input }
{
    if join {
        input.is_active()
    } else {
        !input.is_active()
    }
}

/// Returns how a process is active by the live input with this edge: a join by that edge, any other process plainly.
fn by_input(join: bool, edge: u32) -> Activation
    ensures { result ≡ by_input join edge }
{
    if join {
        Activation::By(edge)
    } else {
        Activation::Plain
    }
}

/// Returns the part that is active in exactly the outcomes in which an input is live: by its edge for a join (`join`), and
/// plainly for any other process. The tree of process p is in the part `roots[p]`.
pub fn input_part(
    alloc: Global,
    problem: &Problem,
    join: bool,
    parts: &mut SharedParts,
    roots: &[usize],
    input: Input,
) -> Result<usize, OutOfMemory>
    requires process { input.source < process_count problem.now }
    requires roots { AreRoots parts.old.parts (process_count problem.now) roots.now }
    // the part that is made has the tree of the input, made of that of its source
    ensures { IfOk result (Makes parts.old parts.new (input_tree problem.now join (trees_of parts.old.parts roots.now) input)) }
{
    let test = test_of(problem.condition_of(input.source), input.when);
    let root = roots[input.source as usize];
    let made = parts.live(alloc, by_input(join, input.edge), test, root)?;
    Ok(made)
}

/// Returns the part with the tree of a process with these inputs, in the order in which they count; `join` says whether it
/// is a join. The tree of each source p is in the part `roots[p]`.
fn composed(
    alloc: Global,
    problem: &Problem,
    join: bool,
    parts: &mut SharedParts,
    roots: &[usize],
    inputs: &[Input],
) -> Result<usize, OutOfMemory>
    // each process has a root among the parts, and the inputs come from processes of the graph
    requires roots { AreRoots parts.old.parts (process_count problem.now) roots.now }
    requires inputs { All (λ input. input.source < process_count problem.now) inputs.now }
    // the part that is made has the tree of these inputs, composed of the trees of their sources
    ensures { IfOk result (Makes parts.old parts.new (composed problem.now join parts.old.ranks (trees_of parts.old.parts roots.now) inputs.now)) }
{
    // a process without inputs is always active
    let Some((input, rest)) = inputs.split_first() else {
        let leaf = parts.leaf(alloc, Activation::Plain)?;
        return Ok(leaf);
    };
    let first = input_part(alloc, problem, join, parts, roots, *input)?;
    // no later input is left: this one decides alone
    if rest.is_empty() {
        return Ok(first);
    }
    // the first input counts in the outcomes in which it settles the matter, and the later ones in all others
    let later = composed(alloc, problem, join, parts, roots, rest)?;
    let made = parts.met(alloc, join, first, later)?;
    Ok(made)
}

/// Returns a list of `count` roots, all of them the number of the part that is inactive in every outcome.
pub fn seeds(
    alloc: Global,
    parts: &mut SharedParts,
    count: usize,
) -> Result<Vec<usize>, OutOfMemory>
    ensures more { IfOk result (λ roots. Extends parts.old parts.new) }
    // the part is there, and its tree is a leaf that is inactive
    ensures roots { IfOk result (λ roots. AreRoots parts.new.parts count roots.items) }
    ensures trees { IfOk result (λ roots. trees_of parts.new.parts roots.items ≡ replicate count (Leaf Inactive)) }
{
    let leaf = parts.leaf(alloc, Activation::Inactive)?;
    let roots = vec![in alloc; leaf; count]?;
    Ok(roots)
}

/// Returns the numbers of the parts with the trees of the processes, by process, after these steps. `roots` are the numbers
/// before them.
pub fn composed_along(
    alloc: Global,
    problem: &Problem,
    parts: &mut SharedParts,
    steps: &[ActivationStep],
    roots: Vec<usize>,
) -> Result<Vec<usize>, OutOfMemory>
    // each process has a root among the parts, and the steps refer to processes of the graph
    requires roots { AreRoots parts.old.parts (process_count problem.now) roots.items }
    requires steps { All (IsStepBelow (process_count problem.now)) steps.now }
    ensures roots { IfOk result (λ found. AreRoots parts.new.parts (process_count problem.now) found.items) }
    ensures ranks { IfOk result (λ found. parts.new.ranks ≡ parts.old.ranks) }
    // the trees of the new roots are those that the steps make of the old ones
    ensures trees { IfOk result (λ found.
        trees_of parts.new.parts found.items ≡ composed_along problem.now parts.old.ranks steps.now (trees_of parts.old.parts roots.items)) }
{
    let mut roots = roots;
    for step in steps {
        let inputs = step.inputs();
        let part = composed(
            alloc,
            problem,
            step.is_join(),
            parts,
            roots.as_slice(),
            inputs,
        )?;
        // the sources of later steps are looked up here
        roots[step.process() as usize] = part;
    }
    Ok(roots)
}

/// Returns the trees of these parts, in the same order.
pub fn trees_of(
    alloc: Global,
    parts: &SharedParts,
    roots: &[usize],
) -> Result<Vec<GuardTree>, OutOfMemory>
    requires { All (λ n. n < length parts.now.parts) roots.now }
    ensures { IfOk result (λ trees. trees.items ≡ trees_of parts.now.parts roots.now) }
{
    let mut trees = Vec::new(alloc);
    trees.reserve(roots.len())?;
    for root in roots {
        trees.push(parts.tree(*root)?)?;
    }
    Ok(trees)
}
