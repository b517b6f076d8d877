//! The entries of starts, which are the columns of their rows before they are merged, and what a node carries on from its
//! processes.
ghost use Rattle.std.specs.Prelude.{◌≡◌, ◌<◌, List, IfOk, OnOk};
ghost use Rattle.cpg_base.specs.Graph.{process_count};
ghost use Rattle.cpg_base.specs.Scenario.{IsScenario};
ghost use Rattle.cpg_bus.specs.Plan.{plan_of};
ghost use Rattle.cpg_cube.specs.declared.literal.Literal.{Literal};
ghost use Rattle.cpg_run.specs.Carried.{decided};
ghost use Rattle.cpg_run.specs.Rows.{IsCubeOf};
ghost use Rattle.cpg_list.specs.Frames.{HasDecided, IsNarrowedIn, IsPassedIn, IsStartIn, IsStartOf, TellsDeciding, TellsInputs, received_at_start};
ghost use Rattle.cpg_list.specs.Learning.{AreDeciding, IsTimedIfActive};
ghost use Rattle.cpg_list.specs.Listed.{HasEntries, HasPassed, HasPassedBy, IsListed, RowsTell, graph_of};
ghost use Rattle.cpg_list.specs.Narrowing.{IsEntryOf};

use crate::cubes::narrow_to_number;
use crate::learning::{Frames, deciding, narrow_by_decided, narrow_by_heard, narrow_by_received};
use crate::least::{kept, push_entry};
use crate::scenario_runs::Listed;
use crate::state::Cubes;
use crate::timed::{Hints, TimedRow};
use cpg_base::{OutOfMemory, Problem, Scenario};
use cpg_cube::{Column, Cube};
use cpg_rules::Admitted;
use std::alloc::Global;

/// Returns the entry of the start of a frozen process at `time`: only what decides the process is carried there. `None`
/// exactly if the scenario isn't the least of the entry's cube. `conditions` are those that decide the process.
fn frozen_start(
    alloc: Global,
    problem: &Problem,
    scenario: &Scenario,
    time: u64,
    process: u32,
    conditions: &[u32],
) -> Result<Option<Column>, OutOfMemory>
    requires scenario { IsScenario problem.now scenario.now }
    requires conditions { AreDeciding problem.now scenario.now process conditions.now }
    ensures { IfOk result (IsEntryOf problem.now scenario.now time (decided problem.now scenario.now process)) }
{
    let mut cube = Cube::whole(alloc);
    narrow_by_decided(alloc, problem, scenario, process, conditions, &mut cube)?;
    let entry = kept(problem, scenario, time, &cube)?;
    Ok(entry)
}

/// Returns the entry of the start of an active process at `time`, or `None` if the scenario isn't the least of the entry's
/// cube. `conditions` are those that decide the process. `cube` is that of what the node has carried on and learnt of what
/// decides the process. Unless the process is frozen, it is narrowed by what the messages to the process told. `hints` says
/// where the search of a row begins.
fn started(
    alloc: Global,
    frames: &Frames<'_>,
    hints: &mut Hints,
    time: u64,
    process: u32,
    conditions: &[u32],
    cube: &mut Cube,
) -> Result<Option<Column>, OutOfMemory>
    requires plan { frames.now.plan.now ≡ plan_of frames.now.problem.now }
    requires scenario { IsScenario frames.now.problem.now frames.now.scenario.now }
    requires process { process < process_count frames.now.problem.now }
    requires conditions { AreDeciding frames.now.problem.now frames.now.scenario.now process conditions.now }
    requires told { TellsInputs frames.now.problem.now frames.now process }
    ensures entry { IfOk result (λ r. (earlier : List Literal) → HasDecided frames.now process earlier cube.old → IsStartOf frames.now time process earlier r) }
    ensures carried { OnOk result (IsNarrowedIn frames.now (received_at_start frames.now process) cube.old cube.new) }
{
    let (problem, scenario) = (frames.problem, frames.scenario);
    // the time of a frozen process doesn't depend on its messages
    if problem.is_frozen(process) {
        let entry = frozen_start(alloc, problem, scenario, time, process, conditions)?;
        return Ok(entry);
    }
    narrow_by_received(alloc, frames, hints, process, cube)?;
    let entry = kept(problem, scenario, time, cube)?;
    Ok(entry)
}

/// Returns the entry of the start of a process in the scenario of `frames`, or `None` if the process is inactive or the
/// scenario isn't the least of the entry's cube. `cube` is that of what the node carries on from earlier processes, and is
/// narrowed by what it carries on from this one. `hints` says where the search of a row begins.
fn start_in(
    alloc: Global,
    admitted: &Admitted,
    frames: &Frames<'_>,
    hints: &mut Hints,
    process: u32,
    cube: &mut Cube,
) -> Result<Option<Column>, OutOfMemory>
    requires graph { frames.now.problem.now ≡ admitted.now.graph }
    requires plan { frames.now.plan.now ≡ plan_of admitted.now.graph }
    requires scenario { IsScenario admitted.now.graph frames.now.scenario.now }
    requires process { process < process_count admitted.now.graph }
    requires active { IsTimedIfActive admitted.now.graph frames.now.scenario.now frames.now.times.now process }
    requires heard { TellsDeciding admitted.now.graph frames.now process }
    requires received { TellsInputs admitted.now.graph frames.now process }
    ensures entry { IfOk result (λ r. (earlier : List Literal) → IsCubeOf admitted.now.graph.faults earlier cube.old
        → IsStartIn admitted.now.graph frames.now process earlier r) }
    ensures carried { OnOk result (IsPassedIn admitted.now.graph frames.now process cube.old cube.new) }
{
    // called for its contract: the graph is admitted
    let _problem = admitted.problem();
    let (problem, scenario) = (frames.problem, frames.scenario);
    let conditions = deciding(alloc, admitted, scenario, process)?;
    let conditions = conditions.as_slice();
    narrow_by_decided(alloc, problem, scenario, process, conditions, cube)?;
    narrow_by_heard(alloc, frames, hints, process, conditions, cube)?;
    // an inactive process has no time, and leaves only what decides it and what the broadcasts told of that
    let Some(time) = frames.times.time(process) else {
        return Ok(None);
    };
    let entry = started(alloc, frames, hints, time, process, conditions, cube)?;
    // the variable of a process's fault count is the process's number, which is below 128
    narrow_to_number(alloc, problem, scenario, process as u8, cube)?;
    Ok(entry)
}

/// Returns the columns of the start of a process before they are merged, its entries: each is found in the least scenario of
/// its cube. `rows` has the rows of the items from earlier processes. `known` has for each scenario the cube of what the node
/// carries on from earlier processes, and is narrowed by what it carries on from this one.
pub(crate) fn start_entries(
    alloc: Global,
    listed: &Listed<'_>,
    rows: &[TimedRow],
    process: u32,
    known: &mut Cubes,
) -> Result<Vec<Column>, OutOfMemory>
    requires listed { IsListed listed.now }
    requires process { process < process_count (graph_of listed.now) }
    requires told { RowsTell listed.now rows.now process }
    requires known { HasPassed listed.now rows.now process known.old }
    ensures entries { IfOk result (λ entries. HasEntries listed.now rows.now process entries.items) }
    ensures known { OnOk result (HasPassedBy listed.now rows.now process known.new) }
{
    let (admitted, scenarios, runs) = (listed.admitted, listed.scenarios, listed.runs);
    let (problem, plan) = (admitted.problem(), listed.plan);
    let mut entries = Vec::new(alloc);
    let mut hints = Hints::new(alloc, rows.len())?;
    // a cube of `known` belongs to the scenario at the same place
    for at in 0..scenarios.len() {
        let frames = Frames {
            problem,
            plan,
            rows,
            scenario: &scenarios[at],
            times: &runs[at],
        };
        let entry = start_in(
            alloc,
            admitted,
            &frames,
            &mut hints,
            process,
            &mut known.cubes[at],
        )?;
        push_entry(&mut entries, entry)?;
    }
    Ok(entries)
}
