//! Whether processes and items are active in all scenarios of a space, or in none, as quick tests ask it: true is sure,
//! and false says nothing.
ghost use Rattle.std.specs.Prelude.{◌≡◌, ◌≤◌, ◌<◌, ℕ, IfOk, false, true};
ghost use Rattle.std.specs.Bool.{OnTrue};
ghost use Rattle.cpg_base.specs.declared.limits.TheConstants.{MOST_CONDITIONS};
ghost use Rattle.cpg_base.specs.Activity.{active, item_active, live, takes, value_of};
ghost use Rattle.cpg_base.specs.Graph.{edge_at, edge_count, item_at, item_count, process_count, source};
ghost use Rattle.cpg_base.specs.Limits.{IsWithinLimits};
ghost use Rattle.cpg_base.specs.Scenario.{Scenario, IsScenario};
ghost use Rattle.cpg_rules.specs.Trees.{TestsBelow};
ghost use Rattle.cpg_tree.specs.Space.{IsInSpace};
ghost use Rattle.cpg_violation.specs.Activity.{comes_to};
ghost use Rattle.cpg_violation.specs.Always.{AreAlways, IsAlways};

use crate::marks::tested_marks;
use crate::sources::{ItemSource, item_source};
use crate::value_literal;
use cpg_base::{Edge, OutOfMemory, Problem};
use cpg_rules::{Admitted, GuardTop, GuardTree};
use cpg_tree::Space;
use std::alloc::Global;

/// Whether a guard's process is active in no scenario of a space, if `wanted` is true, or inactive in none, if it is
/// false. False guarantees nothing: conditions may be tested on the way that no scenario of the space decides so.
fn is_never(tree: &GuardTree, wanted: bool, space: &Space) -> bool
    requires { (n : ℕ) × (n ≤ MOST_CONDITIONS) × TestsBelow n tree.now }
    ensures { OnTrue result ((s : Scenario) → IsInSpace space.now s → comes_to tree.now wanted s ≡ false) }
{
    match tree.top() {
        GuardTop::Leaf(activation) => activation.is_active() != wanted,
        GuardTop::Test { condition, no, yes } => {
            let on = value_literal(condition, true);
            // the whole space goes to one side
            if space.implies(&on) {
                return is_never(yes, wanted, space);
            }
            // some of the space may go to the side of false, which isn't known to avoid what is wanted
            if !is_never(no, wanted, space) {
                return false;
            }
            let off = value_literal(condition, false);
            // the whole space goes to that side
            if space.implies(&off) {
                return true;
            }
            is_never(yes, wanted, space)
        }
    }
}

/// Whether a process is active in no scenario of a space. False guarantees nothing.
fn is_idle(admitted: &Admitted, process: u32, space: &Space) -> bool
    requires { process < process_count admitted.now.graph }
    ensures { OnTrue result ((s : Scenario) → IsScenario admitted.now.graph s → IsInSpace space.now s → active admitted.now.graph s.values process ≡ false) }
{
    is_never(admitted.guards().guard_of(process), true, space)
}

/// Whether a process is active in each scenario of a space. False guarantees nothing.
pub fn is_running(admitted: &Admitted, process: u32, space: &Space) -> bool
    requires { process < process_count admitted.now.graph }
    ensures { OnTrue result ((s : Scenario) → IsScenario admitted.now.graph s → IsInSpace space.now s → active admitted.now.graph s.values process ≡ true) }
{
    is_never(admitted.guards().guard_of(process), false, space)
}

/// Whether a process is active in every scenario. False guarantees nothing.
fn is_always_active(admitted: &Admitted, process: u32) -> bool
    requires { process < process_count admitted.now.graph }
    ensures { OnTrue result (IsAlways admitted.now.graph process) }
{
    let space = Space::whole(admitted.problem().faults());
    is_running(admitted, process, &space)
}

/// A mark for each process, by number: whether it is known to be active in every scenario. One that isn't marked may
/// be, too. The one error is `OutOfMemory`.
pub fn always_active(alloc: Global, admitted: &Admitted) -> Result<Vec<bool>, OutOfMemory>
    ensures { IfOk result (λ marks. AreAlways admitted.now.graph marks.items) }
{
    // there are at most 128 processes, so the cast keeps their number
    let processes = admitted.problem().processes().len() as u32;
    let marks = tested_marks(alloc, processes, |process| {
        is_always_active(admitted, process)
    })?;
    Ok(marks)
}

/// The edge with this number. The clauses say that its source is a process, and that the graph is within its limits, as
/// those who ask for its condition have to know.
fn edge_of(problem: &Problem, edge: u32) -> Edge
    requires { edge < edge_count problem.now }
    ensures edge { result ≡ edge_at problem.now edge }
    ensures from { result.from < process_count problem.now }
    ensures within { IsWithinLimits problem.now }
{
    problem.edges()[edge as usize]
}

/// Whether in no scenario of a space the source of an edge has the value that the edge asks for. False guarantees
/// nothing.
pub fn is_refused(problem: &Problem, edge: u32, space: &Space) -> bool
    requires { edge < edge_count problem.now }
    ensures { OnTrue result ((s : Scenario) → IsInSpace space.now s →
        takes (edge_at problem.now edge).when (value_of problem.now s.values (source problem.now edge)) ≡ false) }
{
    let edge = edge_of(problem, edge);
    // the edge takes any value
    let Some(value) = edge.when else {
        return false;
    };
    // the source has no condition of which a space could say something
    let Some(condition) = problem.condition_of(edge.from) else {
        return false;
    };
    space.implies(&value_literal(condition, !value))
}

/// Whether in each scenario of a space the source of an edge has the value that the edge asks for. False guarantees
/// nothing.
fn is_taken(problem: &Problem, edge: u32, space: &Space) -> bool
    requires { edge < edge_count problem.now }
    ensures { OnTrue result ((s : Scenario) → IsInSpace space.now s →
        takes (edge_at problem.now edge).when (value_of problem.now s.values (source problem.now edge)) ≡ true) }
{
    let edge = edge_of(problem, edge);
    // the edge takes any value
    let Some(value) = edge.when else {
        return true;
    };
    // the source has no condition of which a space could say something
    let Some(condition) = problem.condition_of(edge.from) else {
        return false;
    };
    space.implies(&value_literal(condition, value))
}

/// Whether an edge is live in no scenario of a space: its source never has the asked value, or is never active. False
/// guarantees nothing.
fn is_edge_idle(admitted: &Admitted, edge: u32, space: &Space) -> bool
    requires { edge < edge_count admitted.now.graph }
    ensures { OnTrue result ((s : Scenario) → IsScenario admitted.now.graph s → IsInSpace space.now s → live admitted.now.graph s.values edge ≡ false) }
{
    let problem = admitted.problem();
    if is_refused(problem, edge, space) {
        return true;
    }
    is_idle(admitted, problem.source(edge), space)
}

/// Whether an edge is live in each scenario of a space: its source always has the asked value, and is always active.
/// False guarantees nothing.
fn is_edge_running(admitted: &Admitted, edge: u32, space: &Space) -> bool
    requires { edge < edge_count admitted.now.graph }
    ensures { OnTrue result ((s : Scenario) → IsScenario admitted.now.graph s → IsInSpace space.now s → live admitted.now.graph s.values edge ≡ true) }
{
    let problem = admitted.problem();
    if !is_taken(problem, edge, space) {
        return false;
    }
    is_running(admitted, problem.source(edge), space)
}

/// Whether an item is active in no scenario of a space. False guarantees nothing.
pub fn is_item_idle(admitted: &Admitted, item: u32, space: &Space) -> bool
    requires { item < item_count admitted.now.graph }
    ensures { OnTrue result ((s : Scenario) → IsScenario admitted.now.graph s → IsInSpace space.now s →
        item_active admitted.now.graph s.values (item_at admitted.now.graph item) ≡ false) }
{
    match item_source(admitted.problem(), item) {
        ItemSource::Nothing => true,
        ItemSource::Process(process) => is_idle(admitted, process, space),
        ItemSource::Edge(edge) => is_edge_idle(admitted, edge, space),
    }
}

/// Whether an item is active in each scenario of a space. False guarantees nothing.
pub fn is_item_running(admitted: &Admitted, item: u32, space: &Space) -> bool
    requires { item < item_count admitted.now.graph }
    ensures { OnTrue result ((s : Scenario) → IsScenario admitted.now.graph s → IsInSpace space.now s →
        item_active admitted.now.graph s.values (item_at admitted.now.graph item) ≡ true) }
{
    match item_source(admitted.problem(), item) {
        ItemSource::Nothing => false,
        ItemSource::Process(process) => is_running(admitted, process, space),
        ItemSource::Edge(edge) => is_edge_running(admitted, edge, space),
    }
}
