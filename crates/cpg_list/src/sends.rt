//! The entries of sends, which are the columns of their rows before they are merged, and what items leave to those behind
//! them in a node's queue.
ghost use Rattle.std.specs.Prelude.{◌≡◌, ◌<◌, ◌++◌, ◌∷◌, [], List, Contains, IfOk, OnOk, None, true, false, get_or};
ghost use Rattle.cpg_base.specs.Activity.{item_active};
ghost use Rattle.cpg_base.specs.Graph.{process_count, item_at, is_frozen};
ghost use Rattle.cpg_base.specs.Scenario.{IsScenario};
ghost use Rattle.cpg_cube.specs.declared.literal.Literal.{Literal};
ghost use Rattle.cpg_all_runs.specs.Listing.{AreScenarios};
ghost use Rattle.cpg_bus.specs.Plan.{queue_of};
ghost use Rattle.cpg_run.specs.Carried.{decided, number_known, sent_by_value};
ghost use Rattle.cpg_list.specs.Learning.{IsEndOf, Within, send_after, queued_after, IsTimedIfActive, IsSentValue};
ghost use Rattle.cpg_list.specs.Listed.{HasEnds, HasEntries, HasQueuedBefore, HasQueuedBy, IsListed, graph_of};
ghost use Rattle.cpg_list.specs.Made.{AreCubesOf};
ghost use Rattle.cpg_list.specs.Narrowing.{IsNarrowed, IsEntryOf, IsEntryAt};
ghost use Rattle.cpg_run.specs.Rows.{IsCubeOf};

use crate::cubes::{narrow_by_cube, narrow_to_number};
use crate::learning::{deciding, narrow_by_decided, narrow_by_value};
use crate::least::{kept, push_entry};
use crate::scenario_runs::Listed;
use crate::state::Cubes;
use crate::timed::TimedRow;
use cpg_base::{Item, OutOfMemory, Problem, Scenario};
use cpg_cube::{Column, Cube};
use cpg_rules::Admitted;
use cpg_run::RunTimes;
use std::alloc::Global;

/// An item and the process that sends it.
#[derive(Clone, Copy)]
struct Sending {
    /// The process, which is the producer of the item.
    process: u32,
    /// The number of the item.
    item: u32,
}

/// Returns the condition whose value decides whether an item is sent once `process`, which sends it, has ended. `None` if it
/// always is.
fn deciding_value(problem: &Problem, process: u32, item: u32) -> Option<u32>
    requires process { process < process_count problem.now }
    requires item { Contains (queue_of problem.now process) item }
    ensures { IsSentValue problem.now item result }
{
    // a broadcast is sent at every end of its process
    let Item::Message(edge) = problem.item(item) else {
        return None;
    };
    // so is the message of an edge without a `when`
    if problem.edges()[edge as usize].when.is_none() {
        return None;
    }
    problem.condition_of(process)
}

/// Narrows a cube by the value that decides whether an item is sent once `process`, which sends it, has ended, if there is
/// such a value.
fn narrow_by_sent_value(
    alloc: Global,
    problem: &Problem,
    scenario: &Scenario,
    process: u32,
    item: u32,
    cube: &mut Cube,
) -> Result<(), OutOfMemory>
    requires scenario { IsScenario problem.now scenario.now }
    requires process { process < process_count problem.now }
    requires item { Contains (queue_of problem.now process) item }
    ensures { OnOk result (IsNarrowed problem.now.faults (sent_by_value problem.now scenario.now item) cube.old cube.new) }
{
    let Some(condition) = deciding_value(problem, process, item) else {
        return Ok(());
    };
    narrow_by_value(alloc, problem, scenario, condition, cube)?;
    Ok(())
}

/// Narrows a cube by what decides a process, and by the value that decides whether an item is sent once it has ended.
fn narrow_by_sending(
    alloc: Global,
    admitted: &Admitted,
    scenario: &Scenario,
    process: u32,
    item: u32,
    cube: &mut Cube,
) -> Result<(), OutOfMemory>
    requires scenario { IsScenario admitted.now.graph scenario.now }
    requires process { process < process_count admitted.now.graph }
    requires item { Contains (queue_of admitted.now.graph process) item }
    ensures { OnOk result (IsNarrowed admitted.now.graph.faults
        (decided admitted.now.graph scenario.now process ++ sent_by_value admitted.now.graph scenario.now item) cube.old cube.new) }
{
    let problem = admitted.problem();
    let conditions = deciding(alloc, admitted, scenario, process)?;
    narrow_by_decided(
        alloc,
        problem,
        scenario,
        process,
        conditions.as_slice(),
        cube,
    )?;
    narrow_by_sent_value(alloc, problem, scenario, process, item, cube)?;
    Ok(())
}

/// Narrows the cube of what the queue leaves by what an item of a process leaves that isn't sent in the scenario: only what
/// decides that it isn't. `times` has a time for the process exactly if it is active.
fn pass_over(
    alloc: Global,
    admitted: &Admitted,
    scenario: &Scenario,
    times: &RunTimes,
    process: u32,
    item: u32,
    queue: &mut Cube,
) -> Result<(), OutOfMemory>
    requires scenario { IsScenario admitted.now.graph scenario.now }
    requires process { process < process_count admitted.now.graph }
    requires item { Contains (queue_of admitted.now.graph process) item }
    requires active { IsTimedIfActive admitted.now.graph scenario.now times.now process }
    requires idle { item_active admitted.now.graph scenario.now.values (item_at admitted.now.graph item) ≡ false }
    ensures { OnOk result ((ends : List Literal) → IsNarrowed admitted.now.graph.faults
        (queued_after admitted.now.graph scenario.now item ends) queue.old queue.new) }
{
    // the process itself is inactive, so its value doesn't matter
    let Some(_) = times.time(process) else {
        let conditions = deciding(alloc, admitted, scenario, process)?;
        narrow_by_decided(
            alloc,
            admitted.problem(),
            scenario,
            process,
            conditions.as_slice(),
            queue,
        )?;
        return Ok(());
    };
    // the process is active, but its condition doesn't have the value of the edge's `when`
    narrow_by_sending(alloc, admitted, scenario, process, item, queue)?;
    Ok(())
}

/// Returns the entry of a frozen message of a process that is sent at `time` in the scenario, or `None` if the scenario
/// isn't the least of the entry's cube. Narrows the cube of what the queue leaves by what the message leaves.
fn send_frozen(
    alloc: Global,
    admitted: &Admitted,
    scenario: &Scenario,
    time: u64,
    process: u32,
    item: u32,
    queue: &mut Cube,
) -> Result<Option<Column>, OutOfMemory>
    requires scenario { IsScenario admitted.now.graph scenario.now }
    requires process { process < process_count admitted.now.graph }
    requires item { Contains (queue_of admitted.now.graph process) item }
    requires frozen { is_frozen admitted.now.graph item ≡ true }
    requires active { item_active admitted.now.graph scenario.now.values (item_at admitted.now.graph item) ≡ true }
    ensures entry { IfOk result (λ r. (queued ends : List Literal)
        → IsEntryOf admitted.now.graph scenario.now time (send_after admitted.now.graph scenario.now item queued ends) r) }
    ensures queue { OnOk result ((ends : List Literal) → IsNarrowed admitted.now.graph.faults
        (queued_after admitted.now.graph scenario.now item ends) queue.old queue.new) }
{
    // beside a frozen message only what decides its sending is carried
    let mut cube = Cube::whole(alloc);
    narrow_by_sending(alloc, admitted, scenario, process, item, &mut cube)?;
    narrow_by_cube(alloc, &cube, queue)?;
    let entry = kept(admitted.problem(), scenario, time, &cube)?;
    Ok(entry)
}

/// Returns the entry of an item that isn't frozen and is sent at `time` in the scenario, or `None` if the scenario isn't
/// the least of the entry's cube. `end` is the cube of what is carried at the end of the process. Narrows the cube of what
/// the queue leaves by what the item leaves.
fn send_plain(
    alloc: Global,
    problem: &Problem,
    scenario: &Scenario,
    time: u64,
    sending: Sending,
    end: &Cube,
    queue: &mut Cube,
) -> Result<Option<Column>, OutOfMemory>
    requires scenario { IsScenario problem.now scenario.now }
    requires process { sending.process < process_count problem.now }
    requires item { Contains (queue_of problem.now sending.process) sending.item }
    requires plain { is_frozen problem.now sending.item ≡ false }
    requires active { item_active problem.now scenario.now.values (item_at problem.now sending.item) ≡ true }
    ensures entry { IfOk result (λ r. (queued ends : List Literal) → IsCubeOf problem.now.faults queued queue.old
        → IsCubeOf problem.now.faults ends end.now
        → IsEntryOf problem.now scenario.now time (send_after problem.now scenario.now sending.item queued ends) r) }
    ensures queue { OnOk result ((ends : List Literal) → IsCubeOf problem.now.faults ends end.now
        → Within (decided problem.now scenario.now sending.process) ends
        → IsNarrowed problem.now.faults (queued_after problem.now scenario.now sending.item ends) queue.old queue.new) }
{
    let Sending { process, item } = sending;
    // beside the item is carried what the queue left so far and what the item leaves itself, so one cube serves as both
    narrow_by_cube(alloc, end, queue)?;
    narrow_by_sent_value(alloc, problem, scenario, process, item, queue)?;
    let entry = kept(problem, scenario, time, queue)?;
    Ok(entry)
}

/// Returns the entry of an item in a scenario, or `None` if it isn't sent there or the scenario isn't the least of the
/// entry's cube. `times` has the times of the scenario's run. `end` is the cube of what is carried at the end of the
/// process, if it is active. Narrows the cube of what the queue leaves by what the item leaves.
fn send_in(
    alloc: Global,
    admitted: &Admitted,
    scenario: &Scenario,
    times: &RunTimes,
    sending: Sending,
    end: &Cube,
    queue: &mut Cube,
) -> Result<Option<Column>, OutOfMemory>
    requires scenario { IsScenario admitted.now.graph scenario.now }
    requires process { sending.process < process_count admitted.now.graph }
    requires item { Contains (queue_of admitted.now.graph sending.process) sending.item }
    requires process_active { IsTimedIfActive admitted.now.graph scenario.now times.now sending.process }
    requires item_active { IsTimedIfActive admitted.now.graph scenario.now times.now sending.item }
    ensures entry { IfOk result (λ r. (queued ends : List Literal) → IsCubeOf admitted.now.graph.faults queued queue.old
        → IsEndOf admitted.now.graph scenario.now sending.process ends end.now
        → IsEntryAt admitted.now.graph scenario.now (get_or times.now.times sending.item None)
        (send_after admitted.now.graph scenario.now sending.item queued ends) r) }
    ensures queue { OnOk result ((ends : List Literal) → IsEndOf admitted.now.graph scenario.now sending.process ends end.now
        → IsNarrowed admitted.now.graph.faults
        (queued_after admitted.now.graph scenario.now sending.item ends) queue.old queue.new) }
{
    let Sending { process, item } = sending;
    let problem = admitted.problem();
    // an item that isn't sent has no time
    let Some(time) = times.time(item) else {
        pass_over(alloc, admitted, scenario, times, process, item, queue)?;
        return Ok(None);
    };
    if problem.is_frozen(item) {
        let entry = send_frozen(alloc, admitted, scenario, time, process, item, queue)?;
        return Ok(entry);
    }
    let entry = send_plain(alloc, problem, scenario, time, sending, end, queue)?;
    Ok(entry)
}

/// Returns the columns of an item that a process sends before they are merged, its entries: each is found in the least
/// scenario of its cube. `ends` has for each scenario the cube of what is carried at the end of the process. `queue` has for
/// each the cube of what the items before this one leave, which is narrowed by what this one leaves. Only the contract
/// names `rows`.
pub(crate) fn send_entries(
    alloc: Global,
    listed: &Listed<'_>,
    rows: &[TimedRow],
    process: u32,
    item: u32,
    ends: &Cubes,
    queue: &mut Cubes,
) -> Result<Vec<Column>, OutOfMemory>
    requires listed { IsListed listed.now }
    requires process { process < process_count (graph_of listed.now) }
    requires item { Contains (queue_of (graph_of listed.now) process) item }
    requires ends { HasEnds listed.now rows.now process ends.now }
    requires queue { HasQueuedBefore listed.now rows.now item queue.old }
    ensures entries { IfOk result (λ entries. HasEntries listed.now rows.now item entries.items) }
    ensures queue { OnOk result (HasQueuedBy listed.now rows.now item queue.new) }
{
    let (admitted, scenarios, runs) = (listed.admitted, listed.scenarios, listed.runs);
    let sending = Sending { process, item };
    let mut entries = Vec::new(alloc);
    for at in 0..scenarios.len() {
        let entry = send_in(
            alloc,
            admitted,
            &scenarios[at],
            &runs[at],
            sending,
            &ends.cubes[at],
            &mut queue.cubes[at],
        )?;
        push_entry(&mut entries, entry)?;
    }
    Ok(entries)
}

/// Returns the cube of what is carried at the end of a frozen process in a scenario: what decides the process, and its
/// fault count.
fn frozen_end(
    alloc: Global,
    admitted: &Admitted,
    scenario: &Scenario,
    process: u32,
) -> Result<Cube, OutOfMemory>
    requires scenario { IsScenario admitted.now.graph scenario.now }
    requires process { process < process_count admitted.now.graph }
    ensures { IfOk result (IsCubeOf admitted.now.graph.faults (decided admitted.now.graph scenario.now process ++ number_known scenario.now process ∷ [])) }
{
    let problem = admitted.problem();
    let conditions = deciding(alloc, admitted, scenario, process)?;
    let mut cube = Cube::whole(alloc);
    narrow_by_decided(
        alloc,
        problem,
        scenario,
        process,
        conditions.as_slice(),
        &mut cube,
    )?;
    // the variable of a process's fault count is the process's number, which is below 128
    narrow_to_number(alloc, problem, scenario, process as u8, &mut cube)?;
    Ok(cube)
}

/// Returns for each scenario the cube of what is carried at the end of a frozen process: what decides the process, and its
/// fault count.
pub(crate) fn frozen_ends(
    alloc: Global,
    admitted: &Admitted,
    scenarios: &[Scenario],
    process: u32,
) -> Result<Cubes, OutOfMemory>
    requires scenarios { AreScenarios admitted.now.graph scenarios.now }
    requires process { process < process_count admitted.now.graph }
    ensures { IfOk result (AreCubesOf admitted.now.graph.faults scenarios.now (λ s. decided admitted.now.graph s process ++ number_known s process ∷ [])) }
{
    let mut cubes = Vec::new(alloc);
    cubes.reserve(scenarios.len())?;
    for at in 0..scenarios.len() {
        let cube = frozen_end(alloc, admitted, &scenarios[at], process)?;
        cubes.push(cube)?;
    }
    Ok(Cubes { cubes })
}
