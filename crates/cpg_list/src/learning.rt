//! Narrows cubes by what a node learns in a scenario: of what decides its processes, and from the frames that it hears.
//! Throughout, `hints` says for each item where the search of its row begins, and notes where it ended.
ghost use Rattle.std.specs.Prelude.{◌≡◌, ◌<◌, ◌==◌, ◌&&◌, ◌∷◌, [], ℕ, Contains, IfOk, OnOk, map, position};
ghost use Rattle.std.specs.List.{flat_map};
ghost use Rattle.std.specs.Option.{option_to_list};
ghost use Rattle.cpg_base.specs.Graph.{process_count, condition_count, edge_count, value_variable, message_item, broadcast_item};
ghost use Rattle.cpg_base.specs.Scenario.{IsScenario};
ghost use Rattle.cpg_bus.specs.Plan.{plan_of};
ghost use Rattle.cpg_cube.specs.Cube.{matches};
ghost use Rattle.cpg_cube.specs.Column.{times_in};
ghost use Rattle.cpg_run.specs.Carried.{carried_by_row, number_known, decided};
ghost use Rattle.cpg_list.specs.Frames.{IsNarrowedIn, Tells, TellsDeciding, TellsInputs, heard_at, heard_in, received_at, received_in, rows_in};
ghost use Rattle.cpg_list.specs.Learning.{AreDeciding};
ghost use Rattle.cpg_list.specs.Narrowing.{IsNarrowed, met, carried_in_columns};

use crate::cubes::{narrow, narrow_to_number};
use crate::items::row_of;
use crate::timed::{Hints, TimedRow};
use cpg_base::{FIRST_VALUE, OutOfMemory, Problem, Scenario};
use cpg_bus::Plan;
use cpg_cube::Cube;
use cpg_rules::Admitted;
use cpg_run::RunTimes;
use std::alloc::Global;

/// A scenario with its run, and the rows made so far, which tell the literals that frames carry in it.
#[derive(Clone, Copy)]
pub(crate) struct Frames<'a> {
    /// The graph.
    pub(crate) problem: &'a Problem,
    /// The plan of the graph.
    pub(crate) plan: &'a Plan,
    /// The row of each item, by number; without columns if it isn't made yet.
    pub(crate) rows: &'a [TimedRow],
    /// The scenario that literals are learnt in.
    pub(crate) scenario: &'a Scenario,
    /// The run of the scenario.
    pub(crate) times: &'a RunTimes,
}

/// Returns the conditions that decide a process in a scenario.
pub(crate) fn deciding(
    alloc: Global,
    admitted: &Admitted,
    scenario: &Scenario,
    process: u32,
) -> Result<Vec<u32>, OutOfMemory>
    requires scenario { IsScenario admitted.now.graph scenario.now }
    requires process { process < process_count admitted.now.graph }
    ensures { IfOk result (λ conditions. AreDeciding admitted.now.graph scenario.now process conditions.items) }
{
    // called for its contract: the graph is admitted
    let _order = admitted.order();
    let guards = admitted.guards();
    let conditions = guards.deciding(alloc, process, scenario)?;
    Ok(conditions)
}

/// Narrows a cube by the value that a condition has in a scenario.
pub(crate) fn narrow_by_value(
    alloc: Global,
    problem: &Problem,
    scenario: &Scenario,
    condition: u32,
    cube: &mut Cube,
) -> Result<(), OutOfMemory>
    requires scenario { IsScenario problem.now scenario.now }
    requires condition { condition < condition_count problem.now }
    ensures { OnOk result (IsNarrowed problem.now.faults (number_known scenario.now (value_variable condition) ∷ []) cube.old cube.new) }
{
    // there are at most 32 conditions, so their numbers fit 8 bits, also after `FIRST_VALUE`, which is 128
    let conditions = problem.conditions();
    prove!(condition < conditions);
    narrow_to_number(
        alloc,
        problem,
        scenario,
        FIRST_VALUE + condition as u8,
        cube,
    )?;
    Ok(())
}

/// Narrows a cube by the values that these conditions have in a scenario.
fn narrow_by_values(
    alloc: Global,
    problem: &Problem,
    scenario: &Scenario,
    conditions: &[u32],
    cube: &mut Cube,
) -> Result<(), OutOfMemory>
    requires scenario { IsScenario problem.now scenario.now }
    requires conditions { (c : ℕ) → Contains conditions.now c → c < condition_count problem.now }
    ensures { OnOk result (IsNarrowed problem.now.faults (map (λ c. number_known scenario.now (value_variable c)) conditions.now) cube.old cube.new) }
{
    for condition in conditions {
        narrow_by_value(alloc, problem, scenario, *condition, cube)?;
    }
    Ok(())
}

/// Narrows a cube by the values of the conditions that decide a process, which are `conditions`. Only the contract names
/// `process`.
pub(crate) fn narrow_by_decided(
    alloc: Global,
    problem: &Problem,
    scenario: &Scenario,
    process: u32,
    conditions: &[u32],
    cube: &mut Cube,
) -> Result<(), OutOfMemory>
    requires scenario { IsScenario problem.now scenario.now }
    requires conditions { AreDeciding problem.now scenario.now process conditions.now }
    ensures { OnOk result (IsNarrowed problem.now.faults (decided problem.now scenario.now process) cube.old cube.new) }
{
    narrow_by_values(alloc, problem, scenario, conditions, cube)?;
    Ok(())
}

/// Narrows a cube by the column of an item that matches in a scenario, if one does. `row` is the row of the item, and
/// `time` is its time in the scenario's run, or `None` if it isn't sent. The search begins at the place that `hints` has
/// for the item, and the place that is found is noted there.
fn narrow_by_told(
    alloc: Global,
    row: &TimedRow,
    item: u32,
    time: Option<u64>,
    scenario: &Scenario,
    hints: &mut Hints,
    cube: &mut Cube,
) -> Result<(), OutOfMemory>
    requires { times_in row.now.columns scenario.now ≡ option_to_list time }
    ensures { OnOk result (cube.new ≡ met cube.old (carried_in_columns row.now.columns scenario.now)) }
{
    // an item that isn't sent tells nothing
    let Some(time) = time else {
        return Ok(());
    };
    // with a time some column matches, so this doesn't return
    let Some(place) = row.find(time, scenario, hints.last(item)) else {
        return Ok(());
    };
    hints.note(item, place);
    let columns = row.columns();
    narrow(alloc, cube, columns[place].cube.literals())?;
    Ok(())
}

/// Narrows a cube by the literals that the frame of an item carries, if the item is sent.
fn narrow_by_frame(
    alloc: Global,
    frames: &Frames<'_>,
    hints: &mut Hints,
    item: u32,
    cube: &mut Cube,
) -> Result<(), OutOfMemory>
    requires { Tells frames.now.problem.now frames.now item }
    ensures { OnOk result (IsNarrowedIn frames.now (carried_by_row (rows_in frames.now) frames.now.scenario.now item) cube.old cube.new) }
{
    let row = row_of(frames.rows, item);
    let time = frames.times.time(item);
    narrow_by_told(alloc, row, item, time, frames.scenario, hints, cube)?;
    Ok(())
}

/// Narrows a cube by the literals that a node hears with the broadcast of a condition; by none if the condition is its own.
fn narrow_by_condition(
    alloc: Global,
    frames: &Frames<'_>,
    hints: &mut Hints,
    node: u32,
    condition: u32,
    cube: &mut Cube,
) -> Result<(), OutOfMemory>
    requires condition { condition < condition_count frames.now.problem.now }
    requires told { Tells frames.now.problem.now frames.now (broadcast_item frames.now.problem.now condition) }
    ensures { OnOk result (IsNarrowedIn frames.now (heard_in frames.now node condition) cube.old cube.new) }
{
    let problem = frames.problem;
    // a node hears no frame of its own condition, so there is nothing to narrow by
    if problem.node_of(problem.process_of(condition)) == node {
        return Ok(());
    }
    let item = problem.broadcast_item(condition);
    narrow_by_frame(alloc, frames, hints, item, cube)?;
    Ok(())
}

/// Narrows a cube by the literals that a node hears with the broadcasts of these conditions, without its own.
fn narrow_by_conditions(
    alloc: Global,
    frames: &Frames<'_>,
    hints: &mut Hints,
    node: u32,
    conditions: &[u32],
    cube: &mut Cube,
) -> Result<(), OutOfMemory>
    requires conditions { (c : ℕ) → Contains conditions.now c → c < condition_count frames.now.problem.now }
    requires told { (c : ℕ) → Contains conditions.now c → Tells frames.now.problem.now frames.now (broadcast_item frames.now.problem.now c) }
    ensures { OnOk result (IsNarrowedIn frames.now (flat_map (heard_in frames.now node) conditions.now) cube.old cube.new) }
{
    for condition in conditions {
        narrow_by_condition(alloc, frames, hints, node, *condition, cube)?;
    }
    Ok(())
}

/// Narrows a cube by the literals that the node of a process hears with the broadcasts of the conditions that decide the
/// process, which are `conditions`.
pub(crate) fn narrow_by_heard(
    alloc: Global,
    frames: &Frames<'_>,
    hints: &mut Hints,
    process: u32,
    conditions: &[u32],
    cube: &mut Cube,
) -> Result<(), OutOfMemory>
    requires process { process < process_count frames.now.problem.now }
    requires conditions { AreDeciding frames.now.problem.now frames.now.scenario.now process conditions.now }
    requires told { TellsDeciding frames.now.problem.now frames.now process }
    ensures { OnOk result (IsNarrowedIn frames.now (heard_at frames.now process) cube.old cube.new) }
{
    let node = frames.problem.node_of(process);
    narrow_by_conditions(alloc, frames, hints, node, conditions, cube)?;
    Ok(())
}

/// Narrows a cube by the literals that come with an edge, if it is a message.
fn narrow_by_input(
    alloc: Global,
    frames: &Frames<'_>,
    hints: &mut Hints,
    edge: u32,
    cube: &mut Cube,
) -> Result<(), OutOfMemory>
    requires edge { edge < edge_count frames.now.problem.now }
    requires told { Tells frames.now.problem.now frames.now (message_item frames.now.problem.now edge) }
    ensures { OnOk result (IsNarrowedIn frames.now (received_in frames.now edge) cube.old cube.new) }
{
    let problem = frames.problem;
    // an edge within a node is carried by no frame
    if !problem.is_message(edge) {
        return Ok(());
    }
    let item = problem.message_item(edge);
    narrow_by_frame(alloc, frames, hints, item, cube)?;
    Ok(())
}

/// Narrows a cube by the literals that come with those of these edges that are messages.
fn narrow_by_inputs(
    alloc: Global,
    frames: &Frames<'_>,
    hints: &mut Hints,
    edges: &[u32],
    cube: &mut Cube,
) -> Result<(), OutOfMemory>
    requires edges { (e : ℕ) → Contains edges.now e → e < edge_count frames.now.problem.now }
    requires told { (e : ℕ) → Contains edges.now e → Tells frames.now.problem.now frames.now (message_item frames.now.problem.now e) }
    ensures { OnOk result (IsNarrowedIn frames.now (flat_map (received_in frames.now) edges.now) cube.old cube.new) }
{
    for edge in edges {
        narrow_by_input(alloc, frames, hints, *edge, cube)?;
    }
    Ok(())
}

/// Narrows a cube by the literals that come with the messages to a process.
pub(crate) fn narrow_by_received(
    alloc: Global,
    frames: &Frames<'_>,
    hints: &mut Hints,
    process: u32,
    cube: &mut Cube,
) -> Result<(), OutOfMemory>
    requires plan { frames.now.plan.now ≡ plan_of frames.now.problem.now }
    requires process { process < process_count frames.now.problem.now }
    requires told { TellsInputs frames.now.problem.now frames.now process }
    ensures { OnOk result (IsNarrowedIn frames.now (received_at frames.now process) cube.old cube.new) }
{
    let edges = frames.plan.inputs(frames.problem, process);
    narrow_by_inputs(alloc, frames, hints, edges, cube)?;
    Ok(())
}
