//! Trees that are made down the guard of a process: where it is active, when its node has heard what the guard tests,
//! and its starts.
ghost use Rattle.std.specs.Prelude.{⊤, ◌≡◌, ◌<◌, ◌≤◌, All, IfErr, IfOk, None, false, true};
ghost use Rattle.std.specs.Bool.{OnTrue};
ghost use Rattle.cpg_base.specs.Graph.{condition_count, edge_count, is_message};
ghost use Rattle.cpg_tree.specs.GraphTrees.{IsTree};
ghost use Rattle.cpg_expand.specs.Descent.{AreLeaves};
ghost use Rattle.cpg_expand.specs.Forest.{HasTrees, IsWait, ready_by};
ghost use Rattle.cpg_expand.specs.Guarded.{IsActiveTree, IsByBelow, IsHeardTree, IsTestedOn, LeadsBelow, PicksByValue, WaitsForAll};
ghost use Rattle.cpg_expand.specs.Guarded.{IsStartAfter, IsStartBy, IsStartTree, IsStartWhere, awaited};
ghost use Rattle.cpg_expand.specs.Large.{IsLargeHeard, IsLargeStart, IsLargeWith, ShowsLarge};
ghost use Rattle.cpg_rules.specs.Trees.{TestsBelow};

use crate::bounding::few;
use crate::descent::{Descent, tree_down};
use crate::forest::{Forest, Ready, never};
use cpg_base::{Activation, OutOfMemory, Problem};
use cpg_rules::{GuardTop, GuardTree};
use cpg_run::BuildFault;
use cpg_tree::{OptionalTime, Tree, value};
use std::alloc::Global;

/// Returns the tree that has the values of `yes` where the condition is true and those of `no` where it is false.
fn by_value<T: Copy + Eq>(
    alloc: Global,
    problem: &Problem,
    condition: u32,
    yes: &Tree<T>,
    no: &Tree<T>,
) -> Result<Tree<T>, OutOfMemory>
    requires equal { (x y : T) → T.eq x y ≡ true → x ≡ y }
    requires few { condition_count problem.now ≤ 32 }
    requires condition { condition < condition_count problem.now }
    requires yes { IsTree problem.now yes.now }
    requires no { IsTree problem.now no.now }
    ensures tree { IfOk result (IsTree problem.now) }
    ensures picks { IfOk result (PicksByValue problem.now.faults condition yes.now no.now) }
{
    let value = value(alloc, condition, problem.faults())?;
    let picked = Tree::pick(&value, yes, no)?;
    Ok(picked)
}

/// Makes the tree of where a guard leads to an active leaf.
#[derive(Clone, Copy)]
struct Activity<'a> {
    /// Where the trees are allocated.
    alloc: Global,
    /// The graph that the guard is of.
    problem: &'a Problem,
}

impl Descent<bool> for Activity<'_> {
    ghost begun = { λ a. condition_count a.problem.now ≤ 32 };

    ghost conditions = { λ a. condition_count a.problem.now };

    // a leaf may have any activation
    ghost may = { λ a b. ⊤ };

    ghost made = { λ a t. IsTree a.problem.now t };

    ghost fits = { λ a guard t. IsActiveTree a.problem.now.faults guard t };

    ghost wide = { λ a. None };

    // no leaf is refused
    ghost large = { λ a b. ⊥ };

    // leaves aren't counted here: the tree forks on the conditions of the guard alone
    fn wide(&self) -> Option<u32> {
        None
    }

    // a leaf has no test, so it is active in all scenarios or in none
    fn leaf(&self, activation: Activation) -> Result<Tree<bool>, BuildFault> {
        let faults = self.problem.faults();
        let constant = Tree::constant(self.alloc, activation.is_active(), faults)?;
        Ok(constant)
    }

    // the value of the condition picks the side
    fn test(
        &self,
        condition: u32,
        no: &Tree<bool>,
        yes: &Tree<bool>,
    ) -> Result<Tree<bool>, OutOfMemory> {
        by_value(self.alloc, self.problem, condition, yes, no)
    }
}

/// Returns a tree that is true where a guard leads to an active leaf, so where its process is active, and false
/// elsewhere.
pub fn active(
    alloc: Global,
    problem: &Problem,
    guard: &GuardTree,
) -> Result<Tree<bool>, OutOfMemory>
    requires few { condition_count problem.now ≤ 32 }
    requires tests { TestsBelow (condition_count problem.now) guard.now }
    ensures tree { IfOk result (IsTree problem.now) }
    ensures active { IfOk result (IsActiveTree problem.now.faults guard.now) }
{
    let activity = Activity { alloc, problem };
    match tree_down(alloc, &activity, guard) {
        Ok(active) => Ok(active),
        // `wide` is `None`, so no tree is refused as too wide
        Err(BuildFault::TooWide(_)) => unreachable!(),
        Err(BuildFault::OutOfMemory) => Err(OutOfMemory),
    }
}

/// Returns a tree that is true where a guard tests the condition `wanted` on the scenario's way, and false elsewhere.
pub(crate) fn tested_on(
    alloc: Global,
    problem: &Problem,
    guard: &GuardTree,
    wanted: u32,
) -> Result<Tree<bool>, OutOfMemory>
    requires few { condition_count problem.now ≤ 32 }
    requires tests { TestsBelow (condition_count problem.now) guard.now }
    ensures tree { IfOk result (IsTree problem.now) }
    ensures tested { IfOk result (IsTestedOn problem.now.faults guard.now wanted) }
{
    match guard.top() {
        // no test is left on this way
        GuardTop::Leaf(_) => {
            let never = Tree::constant(alloc, false, problem.faults())?;
            Ok(never)
        }
        GuardTop::Test { condition, no, yes } => {
            // each way from here on has this test
            if condition == wanted {
                let always = Tree::constant(alloc, true, problem.faults())?;
                return Ok(always);
            }
            // the condition may be tested further on, on the side that the value picks
            let no = tested_on(alloc, problem, no, wanted)?;
            let yes = tested_on(alloc, problem, yes, wanted)?;
            let picked = by_value(alloc, problem, condition, &yes, &no)?;
            Ok(picked)
        }
    }
}

/// Makes the tree of when a node has heard what a guard tests.
#[derive(Clone, Copy)]
struct GuardHearing<'a> {
    /// Where the trees are allocated.
    alloc: Global,
    /// The graph that the guard is of.
    problem: &'a Problem,
    /// The trees so far, which say when a condition is heard.
    forest: &'a Forest,
    /// The node that hears.
    node: u32,
}

impl Descent<u64> for GuardHearing<'_> {
    ghost begun = { λ h. (condition_count h.problem.now ≤ 32) × HasTrees h.problem.now h.forest.now };

    ghost conditions = { λ h. condition_count h.problem.now };

    // a leaf may have any activation
    ghost may = { λ h a. ⊤ };

    ghost made = { λ h t. IsTree h.problem.now t };

    ghost fits = { λ h guard t. IsHeardTree h.problem.now h.forest.now h.node guard t };

    ghost wide = { λ h. h.forest.now.wide };

    // no leaf is refused: its tree is one number
    ghost large = { λ h a. ⊥ };

    // the forest's item, or `None` if leaves aren't counted
    fn wide(&self) -> Option<u32> {
        let forest = self.forest;
        forest.wide
    }

    // a leaf tests nothing, so there is nothing to wait for
    fn leaf(&self, _activation: Activation) -> Result<Tree<u64>, BuildFault> {
        let constant = Tree::constant(self.alloc, 0, self.problem.faults())?;
        Ok(constant)
    }

    fn test(
        &self,
        condition: u32,
        no: &Tree<u64>,
        yes: &Tree<u64>,
    ) -> Result<Tree<u64>, OutOfMemory> {
        // the value decides which further tests follow; this condition has to be heard before them
        let further = by_value(self.alloc, self.problem, condition, yes, no)?;
        let both = self
            .forest
            .heard_and(self.problem, self.node, condition, &further)?;
        Ok(both)
    }
}

/// Returns the tree of when a node has heard each condition that a guard tests on the scenario's way; 0 where it tests
/// none. `TooWide` names the forest's item if a tree on the way has too many leaves.
pub(crate) fn heard(
    alloc: Global,
    problem: &Problem,
    forest: &Forest,
    node: u32,
    guard: &GuardTree,
) -> Result<Tree<u64>, BuildFault>
    requires few { condition_count problem.now ≤ 32 }
    requires forest { HasTrees problem.now forest.now }
    requires tests { TestsBelow (condition_count problem.now) guard.now }
    ensures tree { IfOk result (IsTree problem.now) }
    ensures heard { IfOk result (IsHeardTree problem.now forest.now node guard.now) }
    ensures fault { IfErr result (ShowsLarge forest.now.wide (IsLargeHeard problem.now forest.now node guard.now)) }
{
    let hearing = GuardHearing {
        alloc,
        problem,
        forest,
        node,
    };
    let heard = tree_down(alloc, &hearing, guard)?;
    Ok(heard)
}

/// Whether all these inputs come from the process's own node; so it is if there are none. Callers rely only on the
/// answer yes.
fn are_own(problem: &Problem, edges: &[u32]) -> bool
    requires { All (λ e. e < edge_count problem.now) edges.now }
    ensures { OnTrue result (All (λ e. is_message problem.now e ≡ false) edges.now) }
{
    // no input is left
    let Some((edge, others)) = edges.split_first() else {
        return true;
    };
    if problem.is_message(*edge) {
        return false;
    }
    are_own(problem, others)
}

/// Returns the starts of a process that waits for its node, its release and the inputs `edges`. `wait` says from when
/// on the node is ready for it. `TooWide` names the forest's item if a tree of the wait with some of the inputs has too
/// many leaves.
fn start_after(
    problem: &Problem,
    forest: &Forest,
    wait: &Ready,
    release: u64,
    edges: &[u32],
) -> Result<Tree<OptionalTime>, BuildFault>
    requires forest { HasTrees problem.now forest.now }
    requires wait { IsWait problem.now wait.now }
    requires edges { All (λ e. e < edge_count problem.now) edges.now }
    ensures tree { IfOk result (IsTree problem.now) }
    ensures start { IfOk result (IsStartAfter problem.now forest.now (ready_by problem.now forest.now wait.now) release edges.now) }
    ensures fault { IfErr result (ShowsLarge forest.now.wide (IsLargeWith problem.now forest.now (ready_by problem.now forest.now wait.now) edges.now)) }
{
    // no input is left, so the node and the release alone are waited for
    let Some((edge, others)) = edges.split_first() else {
        let start = forest.started(problem, wait, release)?;
        return Ok(start);
    };
    // an input from the node itself is there once the node is ready
    if !problem.is_message(*edge) {
        return start_after(problem, forest, wait, release, others);
    }
    // no later input comes from another node, so the starts are made at once, without a tree of this wait
    if are_own(problem, others) {
        let start = forest.started_by_input(problem, wait, *edge, release)?;
        return Ok(start);
    }
    // further messages follow, so this one becomes a part of the wait
    let there = forest.ready_and_input(problem, wait, *edge)?;
    few(&there, forest.wide)?;
    let both = Ready::At(there);
    start_after(problem, forest, &both, release, others)
}

/// Returns the starts of a process where `active` is true, and no time elsewhere. It waits for its node, its release
/// and the inputs `edges`; `wait` says from when on the node is ready for it. `TooWide` names the forest's item if a
/// tree of the wait with some of the inputs has too many leaves.
fn start_where(
    problem: &Problem,
    forest: &Forest,
    wait: &Ready,
    release: u64,
    edges: &[u32],
    active: &Tree<bool>,
) -> Result<Tree<OptionalTime>, BuildFault>
    requires forest { HasTrees problem.now forest.now }
    requires wait { IsWait problem.now wait.now }
    requires edges { All (λ e. e < edge_count problem.now) edges.now }
    requires active { IsTree problem.now active.now }
    ensures tree { IfOk result (IsTree problem.now) }
    ensures start { IfOk result (IsStartWhere problem.now forest.now active.now (ready_by problem.now forest.now wait.now) release edges.now) }
    ensures fault { IfErr result (ShowsLarge forest.now.wide (IsLargeWith problem.now forest.now (ready_by problem.now forest.now wait.now) edges.now)) }
{
    // no input is left, so the node and the release alone are waited for
    let Some((edge, others)) = edges.split_first() else {
        let start = forest.started_where(problem, wait, release, active)?;
        return Ok(start);
    };
    // an input from the node itself is there once the node is ready
    if !problem.is_message(*edge) {
        return start_where(problem, forest, wait, release, others, active);
    }
    // this is the last input from another node, so the starts are made at once, with no tree of the wait before
    if are_own(problem, others) {
        let start = forest.started_by_input_where(problem, wait, *edge, release, active)?;
        return Ok(start);
    }
    // further messages follow, so this one becomes a part of the wait
    let there = forest.ready_and_input(problem, wait, *edge)?;
    few(&there, forest.wide)?;
    let both = Ready::At(there);
    start_where(problem, forest, &both, release, others, active)
}

/// Whether the activation waits for all inputs, or is inactive and so waits for none. Callers rely only on the answer
/// yes.
fn is_for_all(activation: Activation) -> bool
    ensures { OnTrue result (WaitsForAll activation) }
{
    match activation {
        // an inactive leaf has no start, so any inputs are right for it
        Activation::Inactive => true,
        Activation::Plain => true,
        // it waits for one input alone
        Activation::By(_) => false,
    }
}

/// Whether no leaf of a guard waits for one input alone. Callers rely only on the answer yes.
fn waits_for_all(guard: &GuardTree) -> bool
    ensures { OnTrue result (AreLeaves WaitsForAll guard.now) }
{
    match guard.top() {
        GuardTop::Leaf(activation) => is_for_all(activation),
        GuardTop::Test {
            condition: _,
            no,
            yes,
        } => {
            if !waits_for_all(no) {
                return false;
            }
            waits_for_all(yes)
        }
    }
}

/// Whether the starts are made once for all active leaves of a guard: it tests something, and each active leaf waits
/// for all inputs. If the answer is yes, callers rely only on what it says of the leaves.
fn is_by_activity(guard: &GuardTree) -> bool
    ensures { OnTrue result (AreLeaves WaitsForAll guard.now) }
{
    match guard.top() {
        // if nothing is tested, the starts need no tree of where the process is active, and can share nodes with the
        // ends before it
        GuardTop::Leaf(_) => false,
        GuardTop::Test {
            condition: _,
            no: _,
            yes: _,
        } => waits_for_all(guard),
    }
}

/// Returns the starts of a process with this activation: no time if it is inactive, and otherwise, at its release or
/// later, when its node is ready, which `wait` says, and all inputs, or the one that the activation names, are there.
/// `TooWide` names the forest's item if a tree of the wait with some of the inputs has too many leaves.
fn start_by(
    alloc: Global,
    problem: &Problem,
    forest: &Forest,
    wait: &Ready,
    release: u64,
    inputs: &[u32],
    activation: Activation,
) -> Result<Tree<OptionalTime>, BuildFault>
    requires forest { HasTrees problem.now forest.now }
    requires wait { IsWait problem.now wait.now }
    requires inputs { All (λ e. e < edge_count problem.now) inputs.now }
    requires by { IsByBelow (edge_count problem.now) activation }
    ensures tree { IfOk result (IsTree problem.now) }
    ensures start { IfOk result (IsStartBy problem.now forest.now (ready_by problem.now forest.now wait.now) release inputs.now activation) }
    ensures fault { IfErr result (ShowsLarge forest.now.wide (IsLargeWith problem.now forest.now (ready_by problem.now forest.now wait.now) (awaited inputs.now activation))) }
{
    match activation {
        Activation::Inactive => {
            // an inactive process never starts
            let never = never(alloc, problem)?;
            Ok(never)
        }
        Activation::Plain => {
            // all inputs are waited for
            let start = start_after(problem, forest, wait, release, inputs)?;
            Ok(start)
        }
        Activation::By(edge) => {
            // the one input that the activation names is waited for
            let start = start_after(problem, forest, wait, release, &[edge])?;
            Ok(start)
        }
    }
}

/// Makes the starts of a process down its guard.
#[derive(Clone, Copy)]
struct Starting<'a> {
    /// Where the trees are allocated.
    alloc: Global,
    /// The graph that the guard is of.
    problem: &'a Problem,
    /// The trees so far, which say when inputs are there.
    forest: &'a Forest,
    /// From when on the node is ready and has heard what the guard tests.
    wait: &'a Ready,
    /// The release of the process, before which it doesn't start.
    release: u64,
    /// The edges that lead to the process.
    inputs: &'a [u32],
}

impl Descent<OptionalTime> for Starting<'_> {
    ghost begun = { λ s. (condition_count s.problem.now ≤ 32) × HasTrees s.problem.now s.forest.now × IsWait s.problem.now s.wait.now ×
        All (λ e. e < edge_count s.problem.now) s.inputs.now };

    ghost conditions = { λ s. condition_count s.problem.now };

    // an activation by an input names an edge of the graph
    ghost may = { λ s a. IsByBelow (edge_count s.problem.now) a };

    ghost made = { λ s t. IsTree s.problem.now t };

    ghost fits = { λ s guard t. IsStartTree s.problem.now s.forest.now (ready_by s.problem.now s.forest.now s.wait.now) s.release s.inputs.now guard t };

    ghost wide = { λ s. s.forest.now.wide };

    // a leaf is refused if a tree that is made of its inputs one after another has too many leaves
    ghost large = { λ s a. IsLargeWith s.problem.now s.forest.now (ready_by s.problem.now s.forest.now s.wait.now) (awaited s.inputs.now a) };

    // the forest's item, or `None` if leaves aren't counted
    fn wide(&self) -> Option<u32> {
        let forest = self.forest;
        forest.wide
    }

    // the activation says which inputs are waited for
    fn leaf(&self, activation: Activation) -> Result<Tree<OptionalTime>, BuildFault> {
        start_by(
            self.alloc,
            self.problem,
            self.forest,
            self.wait,
            self.release,
            self.inputs,
            activation,
        )
    }

    // the value of the condition picks the side
    fn test(
        &self,
        condition: u32,
        no: &Tree<OptionalTime>,
        yes: &Tree<OptionalTime>,
    ) -> Result<Tree<OptionalTime>, OutOfMemory> {
        by_value(self.alloc, self.problem, condition, yes, no)
    }
}

/// Returns the starts of a process with a guard; no time where it is inactive. It waits for its node, its release and
/// those of its inputs that the guard's leaf asks for; `wait` says from when on the node is ready for it. `active` says
/// where the guard leads to an active leaf. `TooWide` names the forest's item if a tree on the way has too many leaves.
pub(crate) fn start(
    problem: &Problem,
    forest: &Forest,
    wait: &Ready,
    release: u64,
    inputs: &[u32],
    guard: &GuardTree,
    active: &Tree<bool>,
) -> Result<Tree<OptionalTime>, BuildFault>
    requires forest { HasTrees problem.now forest.now }
    requires wait { IsWait problem.now wait.now }
    requires few { condition_count problem.now ≤ 32 }
    requires tests { TestsBelow (condition_count problem.now) guard.now }
    requires inputs { All (λ e. e < edge_count problem.now) inputs.now }
    requires leaves { LeadsBelow (edge_count problem.now) guard.now }
    requires active { IsTree problem.now active.now }
    requires actives { IsActiveTree problem.now.faults guard.now active.now }
    ensures tree { IfOk result (IsTree problem.now) }
    ensures start { IfOk result (IsStartTree problem.now forest.now (ready_by problem.now forest.now wait.now) release inputs.now guard.now) }
    ensures fault { IfErr result (ShowsLarge forest.now.wide (IsLargeStart problem.now forest.now (ready_by problem.now forest.now wait.now) release inputs.now guard.now)) }
{
    if is_by_activity(guard) {
        // each active leaf waits for all inputs, so one tree of starts serves all of them
        let start = start_where(problem, forest, wait, release, inputs, active)?;
        return Ok(start);
    }
    let alloc = active.alloc();
    // otherwise the starts are made leaf by leaf, down the guard
    let starting = Starting {
        alloc,
        problem,
        forest,
        wait,
        release,
        inputs,
    };
    let start = tree_down(alloc, &starting, guard)?;
    Ok(start)
}
