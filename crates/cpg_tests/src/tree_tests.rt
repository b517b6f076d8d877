//! Trees of numbers and of truth values, and the ends of a chain of processes.
ghost use Rattle.std.specs.Prelude.{◌≡◌, ◌<◌, IfOk};

use cpg_base::OutOfMemory;
use cpg_tree::{Tree, fault, value};
use cpg_tree_times::max_of;
use std::alloc::Global;

/// Returns the end of an execution with so many faults: it lasts 15, and 17 more for each.
fn end(start: u64, faults: u8) -> u64 {
    start
        .saturating_add(15)
        .saturating_add(17 * u64::from(faults))
}

/// Returns the tree of the ends of a process, given that of its starts. The one error is that memory runs out.
fn ended(alloc: Global, process: u32, start: &Tree<u64>) -> Result<Tree<u64>, OutOfMemory>
    requires process { process < 128 }
    requires faults { start.now.faults ≡ 2 }
    ensures { IfOk result (λ end. end.faults ≡ 2) }
{
    let faults = fault(alloc, process, 2)?;
    let end = start.join_with(&faults, &|start: u64, count: u8| end(start, count))?;
    Ok(end)
}

/// Returns how many leaves the tree of the ends has, for the last process of a chain of 40 with at most two faults. The
/// one error is that memory runs out.
fn ends_of_last(alloc: Global) -> Result<u64, OutOfMemory> {
    let mut ready = Tree::constant(alloc, 0, 2)?;
    for process in 0..40 {
        ready = ended(alloc, process, &ready)?;
    }
    Ok(ready.leaves())
}

/// There is a leaf for each placing of at most two faults in 40 processes: (42 over 2).
#[test]
fn ends_of_a_chain(rt: HostRuntime) {
    assert!(rt; ends_of_last(rt.alloc()) == Ok(861));
}

/// Returns the tree that has this number in every scenario with at most two faults. The one error is that memory runs
/// out.
fn constant(alloc: Global, number: u64) -> Result<Tree<u64>, OutOfMemory>
    ensures { IfOk result (λ tree. tree.faults ≡ 2) }
{
    let tree = Tree::constant(alloc, number, 2)?;
    Ok(tree)
}

/// Returns how many leaves the tree has that is `on` if condition 0 is true, and `off` if it is false.
fn picked(alloc: Global, on: &Tree<u64>, off: &Tree<u64>) -> Result<u64, OutOfMemory>
    requires on { on.now.faults ≡ 2 }
    requires off { off.now.faults ≡ 2 }
{
    let chooser = value(alloc, 0, 2)?;
    let picked = Tree::pick(&chooser, on, off)?;
    Ok(picked.leaves())
}

/// Returns how many leaves the tree of the greater number of `on` and `off` has, with each number in a `Some`.
fn greater(on: &Tree<u64>, off: &Tree<u64>) -> Result<u64, OutOfMemory>
    requires on { on.now.faults ≡ 2 }
    requires off { off.now.faults ≡ 2 }
{
    let greater = max_of(on, off)?;
    let known = greater.map(&|time: u64| Some(time))?;
    Ok(known.leaves())
}

/// Returns both counts, first of the picked tree and then of the greater one, for the constants 5 and 7.
fn leaves_of_two(alloc: Global) -> Result<(u64, u64), OutOfMemory> {
    let on = constant(alloc, 5)?;
    let off = constant(alloc, 7)?;
    Ok((picked(alloc, &on, &off)?, greater(&on, &off)?))
}

#[test]
fn picks(rt: HostRuntime) {
    assert!(rt; leaves_of_two(rt.alloc()) == Ok((2, 1)));
}

/// Returns how many leaves the tree of half a process's fault count has, rounded down, with at most three faults.
fn leaves_of_half(alloc: Global) -> Result<u64, OutOfMemory> {
    let faults = fault(alloc, 3, 3)?;
    let halves = faults.map(&|count: u8| count / 2)?;
    Ok(halves.leaves())
}

/// The halves of 0 to 3 are 0, 0, 1 and 1: neighbours that are equal share a leaf.
#[test]
fn joins_neighbouring_arms(rt: HostRuntime) {
    assert!(rt; leaves_of_half(rt.alloc()) == Ok(2));
}
