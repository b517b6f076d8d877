//! The ends of processes, and when their nodes go on after them.
ghost use Rattle.std.specs.Prelude.{◌≡◌, ◌+◌, ◌<◌, IfErr, IfOk, map};
ghost use Rattle.cpg_base.specs.Duration.{duration};
ghost use Rattle.cpg_base.specs.Graph.{process_count};
ghost use Rattle.cpg_base.specs.Numbers.{numbers_below};
ghost use Rattle.cpg_tree.specs.GraphTrees.{IsTree};
ghost use Rattle.cpg_expand.specs.Ending.{IsEndTree, IsReadyAfter, IsReadyTree, goes_on};
ghost use Rattle.cpg_expand.specs.Forest.{HasTrees, IsWait, ready_by};
ghost use Rattle.cpg_expand.specs.Large.{IsLargeEnd, ShowsLarge};

use crate::bounding::few;
use crate::forest::{Forest, Ready};
use cpg_base::{OutOfMemory, Problem};
use cpg_run::BuildFault;
use cpg_tree::{OptionalTime, Tree, fault};
use cpg_tree_times::{ends, pick_later};
use std::alloc::Global;

/// Returns how long an execution of a process lasts with 0, 1, .. k faults, by their number; k is the most faults that
/// a scenario of the graph has.
fn durations(alloc: Global, problem: &Problem, process: u32) -> Result<Vec<u64>, OutOfMemory>
    requires { process < process_count problem.now }
    ensures { IfOk result (λ durations. durations.items ≡ map (duration problem.now process) (numbers_below (problem.now.faults + 1))) }
{
    let mut durations = Vec::new(alloc);
    let count = problem.faults() + 1;
    for faults in 0..count {
        durations.push(problem.duration(process, faults))?;
    }
    Ok(durations)
}

/// Returns the ends of a process, given its starts: in each scenario the start and the duration with its fault count
/// there, and none where it doesn't start.
pub fn end(
    alloc: Global,
    problem: &Problem,
    start: &Tree<OptionalTime>,
    process: u32,
) -> Result<Tree<OptionalTime>, OutOfMemory>
    requires process { process < process_count problem.now }
    requires start { IsTree problem.now start.now }
    ensures tree { IfOk result (IsTree problem.now) }
    ensures end { IfOk result (IsEndTree problem.now process start.now) }
{
    // called for its contract: the graph is within its limits
    let _processes = problem.processes();
    let durations = durations(alloc, problem, process)?;
    let faults = fault(alloc, process, problem.faults())?;
    let end = ends(start, &faults, durations.as_slice())?;
    Ok(end)
}

/// Returns a tree with the end of a process where it is active, and with the time of `wait` elsewhere. The contract
/// alone names `problem`.
fn end_or(
    problem: &Problem,
    active: &Tree<bool>,
    end: &Tree<OptionalTime>,
    wait: &Tree<u64>,
) -> Result<Tree<u64>, OutOfMemory>
    requires active { IsTree problem.now active.now }
    requires end { IsTree problem.now end.now }
    requires wait { IsTree problem.now wait.now }
    ensures tree { IfOk result (IsTree problem.now) }
    ensures ready { IfOk result (IsReadyTree problem.now.faults active.now end.now wait.now) }
{
    let ready = pick_later(active, end, 0, wait)?;
    Ok(ready)
}

/// Returns from when on the node of a process goes on after it: its end where `active` is true, and elsewhere when its
/// wait would be over. `end` has the ends of the process, and `wait` says what it waits for on its node.
fn ready_at(
    problem: &Problem,
    forest: &Forest,
    active: &Tree<bool>,
    end: &Tree<OptionalTime>,
    wait: &Ready,
) -> Result<Tree<u64>, OutOfMemory>
    requires forest { HasTrees problem.now forest.now }
    requires active { IsTree problem.now active.now }
    requires end { IsTree problem.now end.now }
    requires wait { IsWait problem.now wait.now }
    ensures tree { IfOk result (IsTree problem.now) }
    ensures ready { IfOk result (IsReadyTree problem.now.faults active.now end.now (ready_by problem.now forest.now wait.now)) }
{
    match wait {
        // the wait is until another process has ended
        Ready::After(process) => {
            let there = forest.end_there(problem, *process)?;
            let ready = end_or(problem, active, end, &there)?;
            Ok(ready)
        }
        // the wait has a tree of its own
        Ready::At(tree) => {
            let ready = end_or(problem, active, end, tree)?;
            Ok(ready)
        }
    }
}

/// Returns from when on the node of a process goes on after it: its end where `active` is true, and elsewhere when its
/// wait would be over. `end` has the ends of the process, and `wait` says what it waits for on its node. If it is
/// always active, the answer is `After` it, and no tree is made.
pub fn ready(
    problem: &Problem,
    forest: &Forest,
    active: &Tree<bool>,
    end: &Tree<OptionalTime>,
    wait: &Ready,
    process: u32,
) -> Result<Ready, OutOfMemory>
    requires forest { HasTrees problem.now forest.now }
    requires active { IsTree problem.now active.now }
    requires end { IsTree problem.now end.now }
    requires wait { IsWait problem.now wait.now }
    ensures of { IfOk result (IsReadyAfter problem.now process) }
    ensures ready { IfOk result (λ ready.
        IsReadyTree problem.now.faults active.now end.now (ready_by problem.now forest.now wait.now) (goes_on end.now ready)) }
{
    // the process is always active, so its end is what the node waits for
    if active.is_true() {
        return Ok(Ready::After(process));
    }
    let tree = ready_at(problem, forest, active, end, wait)?;
    Ok(Ready::At(tree))
}

/// What follows from the starts of a process: its ends, and from when on its node goes on after it.
#[derive(Drop)]
pub struct EndAndReady {
    /// When the process ends in each scenario; no time where it is inactive.
    pub end: Tree<OptionalTime>,
    /// From when on its node goes on after it.
    pub ready: Ready,
}

/// Returns the ends of a process, and from when on its node goes on after it. `active` says where it is active, `start`
/// has its starts, and `wait` says what it waits for on its node. `TooWide` names the forest's item if the tree of the
/// starts or that of the ends has too many leaves.
pub fn end_and_ready(
    alloc: Global,
    problem: &Problem,
    forest: &Forest,
    active: &Tree<bool>,
    start: &Tree<OptionalTime>,
    wait: &Ready,
    process: u32,
) -> Result<EndAndReady, BuildFault>
    requires process { process < process_count problem.now }
    requires forest { HasTrees problem.now forest.now }
    requires active { IsTree problem.now active.now }
    requires start { IsTree problem.now start.now }
    requires wait { IsWait problem.now wait.now }
    ensures tree { IfOk result (λ e. IsTree problem.now e.end) }
    ensures end { IfOk result (λ e. IsEndTree problem.now process start.now e.end) }
    ensures of { IfOk result (λ e. IsReadyAfter problem.now process e.ready) }
    ensures ready { IfOk result (λ e. IsReadyTree problem.now.faults active.now e.end (ready_by problem.now forest.now wait.now) (goes_on e.end e.ready)) }
    ensures fault { IfErr result (ShowsLarge forest.now.wide (IsLargeEnd problem.now process start.now)) }
{
    // a tree with too many leaves is refused before the next one is made of it
    few(start, forest.wide)?;
    let end = end(alloc, problem, start, process)?;
    few(&end, forest.wide)?;
    let ready = ready(problem, forest, active, &end, wait, process)?;
    Ok(EndAndReady { end, ready })
}
