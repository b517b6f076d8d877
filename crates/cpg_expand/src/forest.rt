//! The trees that are found process by process along an order, and times that are read from them.
ghost use Rattle.std.specs.Prelude.{[], ◌≡◌, ◌<◌, ◌≤◌, None, All, IfOk, length, slice_set, true};
ghost use Rattle.cpg_base.specs.Graph.{condition_count, edge_count, is_message, item_count, process_count, home};
ghost use Rattle.cpg_tree.specs.GraphTrees.{IsTree};
ghost use Rattle.cpg_expand.specs.Forest.{HasTrees, IsWait, ends_of, heard_delay, heard_tree, input_delay, input_tree, later_tree, ready_by, times_of};
ghost use Rattle.cpg_expand.specs.Grown.{IsBareForest, IsReadyFirst};
ghost use Rattle.cpg_expand.specs.Guarded.{IsStartAfter, IsStartWhere};
ghost use Rattle.cpg_expand.specs.Later.{IsLatest, IsNoMore, IsReleased, IsReleasedWhere};
ghost use Rattle.cpg_base.specs.Bus.{slot_length};
ghost use Rattle.cpg_tree.specs.Read.{later_by};
ghost use Rattle.cpg_tree.specs.Tree.{IsConstant};

use cpg_base::{OutOfMemory, Problem};
use cpg_tree::{OptionalTime, Tree};
use cpg_tree_times::{
    later, later_of, later_or, max_later, max_of, started, started_of, started_of_where,
    started_or, started_or_where,
};
use std::alloc::Global;
use std::marker::Model;

/// From when on a node is ready for its next process.
#[derive(Drop)]
pub enum Ready {
    /// From the ends of this process on; their tree, in the forest, isn't copied.
    After(u32),
    /// From the times of this tree on.
    At(Tree<u64>),
}

/// The trees so far: each tells a time in every scenario.
#[derive(Drop)]
pub struct Forest {
    /// For each item, when it starts or is sent; no time where it doesn't.
    pub(crate) times: Vec<Tree<OptionalTime>>,
    /// For each process, when it ends; no time where it isn't active.
    pub(crate) ends: Vec<Tree<OptionalTime>>,
    /// For each node, from when on it is ready for its next process.
    pub(crate) ready: Vec<Ready>,
    /// For each node, from when on its slots are free.
    pub(crate) free: Vec<Tree<u64>>,
    /// The item that `TooWide` names if a tree has too many leaves; `None` if leaves aren't counted.
    pub(crate) wide: Option<u32>,
}

impl Model for Forest {
    ghost use Rattle.cpg_expand.specs.Forest.{ForestState};

    ghost Value = { ForestState };

    ghost view = { λ f. record { times = f.times.items; ends = f.ends.items; ready = f.ready.items; free = f.free.items; wide = f.wide } };
}

/// Returns a tree that has no time in any scenario.
pub(crate) fn never(alloc: Global, problem: &Problem) -> Result<Tree<OptionalTime>, OutOfMemory>
    ensures tree { IfOk result (IsTree problem.now) }
    ensures none { IfOk result (IsConstant None problem.now.faults) }
{
    let never = Tree::constant(alloc, OptionalTime::of(None), problem.faults())?;
    Ok(never)
}

/// Returns `count` trees that have no time in any scenario.
fn without_times(
    alloc: Global,
    problem: &Problem,
    count: usize,
) -> Result<Vec<Tree<OptionalTime>>, OutOfMemory>
    ensures count { IfOk result (λ trees. length trees.items ≡ count) }
    ensures all { IfOk result (λ trees. All (IsTree problem.now) trees.items) }
    ensures none { IfOk result (λ trees. All (IsConstant None problem.now.faults) trees.items) }
{
    let mut trees = Vec::new(alloc);
    trees.reserve(count)?;
    for _ in 0..count {
        trees.push(never(alloc, problem)?)?;
    }
    Ok(trees)
}

/// Returns `count` trees that are 0 in every scenario.
fn zeros(alloc: Global, problem: &Problem, count: usize) -> Result<Vec<Tree<u64>>, OutOfMemory>
    ensures count { IfOk result (λ trees. length trees.items ≡ count) }
    ensures all { IfOk result (λ trees. All (IsTree problem.now) trees.items) }
    ensures zero { IfOk result (λ trees. All (IsConstant 0 problem.now.faults) trees.items) }
{
    let mut trees = Vec::new(alloc);
    trees.reserve(count)?;
    for _ in 0..count {
        trees.push(Tree::constant(alloc, 0, problem.faults())?)?;
    }
    Ok(trees)
}

/// Returns, for `count` nodes, that each is ready from time 0 on.
fn ready_first(alloc: Global, problem: &Problem, count: usize) -> Result<Vec<Ready>, OutOfMemory>
    ensures count { IfOk result (λ nodes. length nodes.items ≡ count) }
    ensures all { IfOk result (λ nodes. All (IsWait problem.now) nodes.items) }
    ensures first { IfOk result (λ nodes. All (IsReadyFirst problem.now.faults) nodes.items) }
{
    let mut nodes = Vec::new(alloc);
    nodes.reserve(count)?;
    for _ in 0..count {
        let zero = Tree::constant(alloc, 0, problem.faults())?;
        nodes.push(Ready::At(zero))?;
    }
    Ok(nodes)
}

/// Puts the trees of a process into the forest: `times` has its starts, `ends` its ends, and `ready` says from when on
/// its node is ready after it.
pub fn put_begun(
    forest: &mut Forest,
    process: u32,
    times: Tree<OptionalTime>,
    ends: Tree<OptionalTime>,
    node: u32,
    ready: Ready,
)
    requires times { process < length forest.old.times }
    requires ends { process < length forest.old.ends }
    requires node { node < length forest.old.ready }
    ensures { forest.new ≡ record {
      times = slice_set forest.old.times process times;
      ends = slice_set forest.old.ends process ends;
      ready = slice_set forest.old.ready node ready;
      free = forest.old.free;
      wide = forest.old.wide;
    } }
{
    forest.times[process as usize] = times;
    forest.ends[process as usize] = ends;
    forest.ready[node as usize] = ready;
}

impl Forest {
    /// Returns a forest in which no item has a time and no process an end; nodes are ready and slots free from time 0
    /// on. `wide` is the item that `TooWide` names if a tree has too many leaves; with `None` leaves aren't counted.
    pub fn none(alloc: Global, problem: &Problem, wide: Option<u32>) -> Result<Forest, OutOfMemory>
        ensures trees { IfOk result (HasTrees problem.now) }
        ensures bare { IfOk result (IsBareForest problem.now) }
        ensures wide { IfOk result (λ forest. forest.wide ≡ wide) }
    {
        let nodes = problem.nodes().len();
        Ok(Forest {
            times: without_times(alloc, problem, problem.item_count() as usize)?,
            ends: without_times(alloc, problem, problem.processes().len())?,
            ready: ready_first(alloc, problem, nodes)?,
            free: zeros(alloc, problem, nodes)?,
            wide,
        })
    }

    /// Returns the ends of the processes, by process.
    pub fn ends(&self) -> &[Tree<OptionalTime>]
        ensures { result.now ≡ self.now.ends }
    {
        self.ends.as_slice()
    }

    /// Returns the times of the items. The other trees are dropped.
    pub fn into_times(self) -> Vec<Tree<OptionalTime>>
        ensures { result.items ≡ self.times }
    {
        self.times
    }

    /// Returns the ends of a process, with 0 where it isn't active. The contract alone names `problem`.
    pub(crate) fn end_there(
        &self,
        problem: &Problem,
        process: u32,
    ) -> Result<Tree<u64>, OutOfMemory>
        requires forest { HasTrees problem.now self.now }
        requires process { process < process_count problem.now }
        ensures tree { IfOk result (IsTree problem.now) }
        ensures later { IfOk result (IsNoMore problem.now.faults (later_tree (ends_of problem.now self.now process))) }
    {
        let there = later(&self.ends[process as usize], 0)?;
        Ok(there)
    }

    /// Returns the later of two times in each scenario: from when on a node has heard a condition, and `further`. Where
    /// the condition isn't told, that is `further`.
    pub(crate) fn heard_and(
        &self,
        problem: &Problem,
        node: u32,
        condition: u32,
        further: &Tree<u64>,
    ) -> Result<Tree<u64>, OutOfMemory>
        requires forest { HasTrees problem.now self.now }
        requires condition { condition < condition_count problem.now }
        requires further { IsTree problem.now further.now }
        ensures tree { IfOk result (IsTree problem.now) }
        ensures both { IfOk result (IsLatest problem.now.faults
            (later_by (heard_delay problem.now node condition) (heard_tree problem.now self.now node condition)) further.now) }
    {
        let process = problem.process_of(condition);
        // a condition of the node itself is heard when its process ends, any other when its broadcast has arrived
        if problem.node_of(process) == node {
            let both = later_or(&self.ends[process as usize], 0, further)?;
            Ok(both)
        } else {
            let item = problem.broadcast_item(condition);
            let delay = problem.slot_length(problem.home(item));
            let both = later_or(&self.times[item as usize], delay, further)?;
            Ok(both)
        }
    }

    /// Returns the later of two times in each scenario: from when on a node is ready, which `ready` says, and `there`.
    pub(crate) fn ready_and(
        &self,
        problem: &Problem,
        ready: &Ready,
        there: &Tree<u64>,
    ) -> Result<Tree<u64>, OutOfMemory>
        requires forest { HasTrees problem.now self.now }
        requires ready { IsWait problem.now ready.now }
        requires there { IsTree problem.now there.now }
        ensures tree { IfOk result (IsTree problem.now) }
        ensures both { IfOk result (IsLatest problem.now.faults (ready_by problem.now self.now ready.now) there.now) }
    {
        match ready {
            // the node is ready once that process has ended, and from 0 on where that isn't active
            Ready::After(process) => {
                // called for its contract: the graph is within its limits
                let _processes = problem.processes();
                let both = max_later(there, &self.ends[*process as usize], 0)?;
                Ok(both)
            }
            // the node is ready at the times of a tree of its own
            Ready::At(tree) => {
                let both = max_of(tree, there)?;
                Ok(both)
            }
        }
    }

    /// Returns from when on a node is ready, which `ready` says, and the frame of an item has arrived. Where the item
    /// isn't sent, the node's being ready alone counts.
    fn ready_and_frame(
        &self,
        problem: &Problem,
        ready: &Ready,
        item: u32,
    ) -> Result<Tree<u64>, OutOfMemory>
        requires forest { HasTrees problem.now self.now }
        requires ready { IsWait problem.now ready.now }
        requires item { item < item_count problem.now }
        ensures tree { IfOk result (IsTree problem.now) }
        ensures both { IfOk result (IsLatest problem.now.faults (ready_by problem.now self.now ready.now)
            (later_by (slot_length problem.now (home problem.now item)) (times_of problem.now self.now item))) }
    {
        let delay = problem.slot_length(problem.home(item));
        let times = &self.times[item as usize];
        match ready {
            // the node is ready once that process has ended, and from 0 on where that isn't active
            Ready::After(process) => {
                let both = later_of(times, delay, &self.ends[*process as usize])?;
                Ok(both)
            }
            // the node is ready at the times of a tree of its own
            Ready::At(tree) => {
                let both = max_later(tree, times, delay)?;
                Ok(both)
            }
        }
    }

    /// Returns from when on a node is ready, which `ready` says, and an input from another node (`edge`) has arrived.
    /// Where its message isn't sent, the node's being ready alone counts.
    pub(crate) fn ready_and_input(
        &self,
        problem: &Problem,
        ready: &Ready,
        edge: u32,
    ) -> Result<Tree<u64>, OutOfMemory>
        requires forest { HasTrees problem.now self.now }
        requires ready { IsWait problem.now ready.now }
        requires edge { edge < edge_count problem.now }
        requires message { is_message problem.now edge ≡ true }
        ensures tree { IfOk result (IsTree problem.now) }
        ensures both { IfOk result (IsLatest problem.now.faults (ready_by problem.now self.now ready.now)
            (later_by (input_delay problem.now edge) (input_tree problem.now self.now edge))) }
    {
        let both = self.ready_and_frame(problem, ready, problem.message_item(edge))?;
        Ok(both)
    }

    /// Returns the starts of a process at `release` or later, once its node is ready, which `ready` says, and the frame
    /// of an item has arrived. Where the item isn't sent, its frame isn't waited for.
    fn started_by_frame(
        &self,
        problem: &Problem,
        ready: &Ready,
        item: u32,
        release: u64,
    ) -> Result<Tree<OptionalTime>, OutOfMemory>
        requires forest { HasTrees problem.now self.now }
        requires ready { IsWait problem.now ready.now }
        requires item { item < item_count problem.now }
        ensures tree { IfOk result (IsTree problem.now) }
        ensures start { IfOk result (IsReleased problem.now.faults (ready_by problem.now self.now ready.now)
            (later_by (slot_length problem.now (home problem.now item)) (times_of problem.now self.now item)) release) }
    {
        let delay = problem.slot_length(problem.home(item));
        let times = &self.times[item as usize];
        match ready {
            // the node is ready once that process has ended, and from 0 on where that isn't active
            Ready::After(process) => {
                let start = started_of(times, delay, &self.ends[*process as usize], release)?;
                Ok(start)
            }
            // the node is ready at the times of a tree of its own
            Ready::At(tree) => {
                let start = started_or(tree, times, delay, release)?;
                Ok(start)
            }
        }
    }

    /// Returns the starts of a process at `release` or later, once its node is ready, which `ready` says, and an input
    /// from another node (`edge`) has arrived. Where its message isn't sent, it isn't waited for.
    pub(crate) fn started_by_input(
        &self,
        problem: &Problem,
        ready: &Ready,
        edge: u32,
        release: u64,
    ) -> Result<Tree<OptionalTime>, OutOfMemory>
        requires forest { HasTrees problem.now self.now }
        requires ready { IsWait problem.now ready.now }
        requires edge { edge < edge_count problem.now }
        requires message { is_message problem.now edge ≡ true }
        ensures tree { IfOk result (IsTree problem.now) }
        ensures start { IfOk result (IsReleased problem.now.faults (ready_by problem.now self.now ready.now)
            (later_by (input_delay problem.now edge) (input_tree problem.now self.now edge)) release) }
    {
        let item = problem.message_item(edge);
        let start = self.started_by_frame(problem, ready, item, release)?;
        Ok(start)
    }

    /// Returns the starts of a process where `active` is true, and no time elsewhere. It starts at `release` or later,
    /// once its node is ready, which `ready` says, and the frame of an item has arrived. Where the item isn't sent, its
    /// frame isn't waited for.
    fn started_by_frame_where(
        &self,
        problem: &Problem,
        ready: &Ready,
        item: u32,
        release: u64,
        active: &Tree<bool>,
    ) -> Result<Tree<OptionalTime>, OutOfMemory>
        requires forest { HasTrees problem.now self.now }
        requires ready { IsWait problem.now ready.now }
        requires item { item < item_count problem.now }
        requires active { IsTree problem.now active.now }
        ensures tree { IfOk result (IsTree problem.now) }
        ensures start { IfOk result (IsReleasedWhere problem.now.faults active.now (ready_by problem.now self.now ready.now)
            (later_by (slot_length problem.now (home problem.now item)) (times_of problem.now self.now item)) release) }
    {
        let delay = problem.slot_length(problem.home(item));
        let times = &self.times[item as usize];
        match ready {
            // the node is ready once that process has ended, and from 0 on where that isn't active
            Ready::After(process) => {
                let end = &self.ends[*process as usize];
                let start = started_of_where(active, times, delay, end, release)?;
                Ok(start)
            }
            // the node is ready at the times of a tree of its own
            Ready::At(tree) => {
                let start = started_or_where(active, tree, times, delay, release)?;
                Ok(start)
            }
        }
    }

    /// Returns the starts of a process where `active` is true, and no time elsewhere. It starts at `release` or later,
    /// once its node is ready, which `ready` says, and an input from another node (`edge`) has arrived. Where its
    /// message isn't sent, it isn't waited for.
    pub(crate) fn started_by_input_where(
        &self,
        problem: &Problem,
        ready: &Ready,
        edge: u32,
        release: u64,
        active: &Tree<bool>,
    ) -> Result<Tree<OptionalTime>, OutOfMemory>
        requires forest { HasTrees problem.now self.now }
        requires ready { IsWait problem.now ready.now }
        requires edge { edge < edge_count problem.now }
        requires message { is_message problem.now edge ≡ true }
        requires active { IsTree problem.now active.now }
        ensures tree { IfOk result (IsTree problem.now) }
        ensures start { IfOk result (IsReleasedWhere problem.now.faults active.now (ready_by problem.now self.now ready.now)
            (later_by (input_delay problem.now edge) (input_tree problem.now self.now edge)) release) }
    {
        let item = problem.message_item(edge);
        let start = self.started_by_frame_where(problem, ready, item, release, active)?;
        Ok(start)
    }

    /// Returns the starts of a process at `release` or later, once its node is ready, which `ready` says.
    pub(crate) fn started(
        &self,
        problem: &Problem,
        ready: &Ready,
        release: u64,
    ) -> Result<Tree<OptionalTime>, OutOfMemory>
        requires forest { HasTrees problem.now self.now }
        requires ready { IsWait problem.now ready.now }
        ensures tree { IfOk result (IsTree problem.now) }
        ensures start { IfOk result (IsStartAfter problem.now self.now (ready_by problem.now self.now ready.now) release []) }
    {
        match ready {
            // the node is ready once that process has ended, and from 0 on where that isn't active
            Ready::After(process) => {
                // called for its contract: the graph is within its limits
                let _processes = problem.processes();
                let start = self.ends[*process as usize].no_earlier(release)?;
                Ok(start)
            }
            // the node is ready at the times of a tree of its own
            Ready::At(tree) => {
                let start = started(tree, release)?;
                Ok(start)
            }
        }
    }

    /// Returns the starts of a process where `active` is true, and no time elsewhere. It starts at `release` or later,
    /// once its node is ready, which `ready` says.
    pub(crate) fn started_where(
        &self,
        problem: &Problem,
        ready: &Ready,
        release: u64,
        active: &Tree<bool>,
    ) -> Result<Tree<OptionalTime>, OutOfMemory>
        requires forest { HasTrees problem.now self.now }
        requires ready { IsWait problem.now ready.now }
        requires active { IsTree problem.now active.now }
        ensures tree { IfOk result (IsTree problem.now) }
        ensures start { IfOk result (IsStartWhere problem.now self.now active.now (ready_by problem.now self.now ready.now) release []) }
    {
        // the starts as if the process were always active, then cut to where it is
        let start = self.started(problem, ready, release)?;
        let never = never(active.alloc(), problem)?;
        let there = Tree::pick(active, &start, &never)?;
        Ok(there)
    }
}
