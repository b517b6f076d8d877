//! Outcomes that make two inputs of a join live.
ghost use Rattle.std.specs.Prelude.{◌≡◌, ◌<◌, ◌≤◌, IfOk, IfSome, IfNone, IsTrue, All, None, true, length, get_or, map};
ghost use Rattle.cpg_base.specs.Graph.{process_count, process_at};
ghost use Rattle.cpg_base.specs.Scenario.{IsLeast};
ghost use Rattle.cpg_order.specs.Urgency.{IsTopological};
ghost use Rattle.cpg_base.specs.WellFormed.{HasSingleJoins};
ghost use Rattle.cpg_rules.specs.Sharing.{trees_of, AreRoots, AreTreesOf, Extends};
ghost use Rattle.cpg_rules.specs.Steps.{IsStepBelow, step_of};
ghost use Rattle.cpg_rules.specs.Alternatives.{AreAlternatives, IsSingleJoin, has_two_live, found_from, is_set, scenario_of};

use crate::apart::is_single_join;
use crate::growing::{choice, settled};
use crate::shared::SharedParts;
use crate::steps::{ActivationStep, Aim, Standings, rested, steps_of};
use cpg_base::{Order, OutOfMemory, Problem, Scenario};
use std::alloc::Global;

/// A join that some outcome gives two live inputs.
#[derive(Drop)]
pub struct Alternatives {
    /// The number of the least such join.
    pub process: u32,
    /// The least scenario in which two of its inputs are live, which has no faults.
    pub least: Scenario,
}

/// Returns the first standings at a process with which two of its inputs are live, and `None` exactly if no way along the
/// steps leads to such standings. Ways with a false condition come before those with a true one.
fn found_from(process: u32, steps: &[ActivationStep], standings: Standings) -> Option<Standings>
    requires { All (IsStepBelow 128) steps.now }
    ensures { result ≡ found_from process steps.now standings }
{
    // no step is left, so the process isn't among the steps
    let Some((step, rest)) = steps.split_first() else {
        return None;
    };
    // here is the process: no later step matters to its inputs
    if step.process() == process {
        return step.two_live(standings);
    }
    let activation = step.activation(&standings);
    let with_false = found_from(process, rest, settled(standings, step, activation, false));
    // false comes before true, so what is found with false is the least
    if with_false.is_some() {
        return with_false;
    }
    // the process is inactive or has no condition: there is no other way
    if choice(activation, step.condition()).is_none() {
        return None;
    }
    // nothing was found with false, so what is found with true is the least
    found_from(process, rest, settled(standings, step, activation, true))
}

/// Whether a process is active and its condition true, by its standing.
fn is_set(standing: Option<bool>) -> bool
    ensures { result ≡ is_set standing }
{
    match standing {
        None => false,
        Some(value) => value,
    }
}

/// Returns the scenario without faults in which a condition is true exactly if the standing of its process says so.
fn scenario_of(
    alloc: Global,
    problem: &Problem,
    standings: &Standings,
) -> Result<Scenario, OutOfMemory>
    requires { process_count problem.now ≤ 128 }
    ensures { IfOk result (λ scenario. scenario ≡ scenario_of problem.now standings.now) }
{
    let mut scenario = Scenario::zero(alloc, problem)?;
    for condition in 0..problem.conditions() {
        let process = problem.process_of(condition);
        scenario.set_value(condition, is_set(standings[process as usize]));
    }
    Ok(scenario)
}

/// Returns the least scenario in which two inputs of a process are live, and `None` exactly if the process isn't a join
/// or there is no such scenario. Only the contract uses `order`.
fn least_of(
    alloc: Global,
    problem: &Problem,
    order: &Order,
    steps: &[ActivationStep],
    process: u32,
) -> Result<Option<Scenario>, OutOfMemory>
    requires topological { IsTopological problem.now order.now }
    // the steps are those of all processes along the order
    requires steps { steps.now ≡ map (step_of problem.now) order.now }
    requires process { process < process_count problem.now }
    // if none is found, no outcome makes two inputs of the process live, or it isn't a join
    ensures none { IfOk result (λ found. IfNone found (IsSingleJoin problem.now process)) }
    ensures join { IfOk result (λ found. IfSome found (λ _. IsTrue (process_at problem.now process).join)) }
    // a scenario that is found is the least in which two inputs of the process are live
    ensures some { IfOk result (λ found. IfSome found (IsLeast problem.now order.now (λ s. has_two_live problem.now s.values process ≡ true))) }
{
    // any other process may have two live inputs
    if !problem.processes()[process as usize].join {
        return Ok(None);
    }
    // only the steps that the inputs of the process rest on matter to them
    let steps = rested(alloc, Aim::Process(process), steps)?;
    // before the first step no process has a standing
    match found_from(process, steps.as_slice(), [None; 128]) {
        None => Ok(None),
        Some(standings) => {
            let least = scenario_of(alloc, problem, &standings)?;
            Ok(Some(least))
        }
    }
}

/// Returns the least scenario in which two inputs of a process are live, and `None` exactly if the process isn't a join or
/// there is no such scenario. The parts of the guards are looked at first. Only if they don't show that no two inputs are
/// live at once does `least_of` search, which takes far longer.
fn least_by(
    alloc: Global,
    problem: &Problem,
    order: &Order,
    parts: &mut SharedParts,
    roots: &[usize],
    steps: &[ActivationStep],
    process: u32,
) -> Result<Option<Scenario>, OutOfMemory>
    requires topological { IsTopological problem.now order.now }
    // the roots are parts, and have the trees of the guards of the graph
    requires roots { AreRoots parts.old.parts (process_count problem.now) roots.now }
    requires guards { AreTreesOf problem.now (trees_of parts.old.parts roots.now) }
    requires steps { steps.now ≡ map (step_of problem.now) order.now }
    requires process { process < process_count problem.now }
    ensures more { IfOk result (λ found. Extends parts.old parts.new) }
    // if none is found, no outcome makes two inputs of the process live, or it isn't a join
    ensures none { IfOk result (λ found. IfNone found (IsSingleJoin problem.now process)) }
    ensures join { IfOk result (λ found. IfSome found (λ _. IsTrue (process_at problem.now process).join)) }
    // a scenario that is found is the least in which two inputs of the process are live
    ensures some { IfOk result (λ found. IfSome found (IsLeast problem.now order.now (λ s. has_two_live problem.now s.values process ≡ true))) }
{
    // the parts show that no two inputs are live at once: no search
    if is_single_join(alloc, problem, parts, roots, process)? {
        return Ok(None);
    }
    least_of(alloc, problem, order, steps, process)
}

/// Returns the least join that some outcome gives two live inputs, with the least scenario that does, and `None` exactly
/// if no outcome gives a join two. `parts` are the shared parts, and `roots` the numbers of those with the trees of the
/// processes.
pub fn least_alternatives(
    alloc: Global,
    problem: &Problem,
    order: &Order,
    parts: &mut SharedParts,
    roots: &[usize],
) -> Result<Option<Alternatives>, OutOfMemory>
    requires topological { IsTopological problem.now order.now }
    // the roots are parts, and have the trees of the guards of the graph
    requires roots { AreRoots parts.old.parts (process_count problem.now) roots.now }
    requires guards { AreTreesOf problem.now (trees_of parts.old.parts roots.now) }
    ensures none { IfOk result (λ found. IfNone found (HasSingleJoins problem.now)) }
    ensures some { IfOk result (λ found. IfSome found (λ a. AreAlternatives problem.now order.now a.process a.least)) }
{
    // a graph has at most 128 processes, so their numbers fit a `u32`
    let count = problem.processes().len() as u32;
    let steps = steps_of(alloc, problem, order)?;
    for process in 0..count {
        let found = least_by(
            alloc,
            problem,
            order,
            parts,
            roots,
            steps.as_slice(),
            process,
        )?;
        // processes are met by number, so this is the least
        if let Some(least) = found {
            return Ok(Some(Alternatives { process, least }));
        }
    }
    Ok(None)
}
