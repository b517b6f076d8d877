//! Makes the rows of all items, process by process along an order.
ghost use Rattle.std.specs.Prelude.{◌≡◌, ◌<◌, ◌+◌, IfOk, OnOk, length, map};
ghost use Rattle.cpg_base.specs.Graph.{process_count, item_count};
ghost use Rattle.cpg_base.specs.Numbers.{numbers_below};
ghost use Rattle.cpg_bus.specs.Plan.{plan_of};
ghost use Rattle.cpg_all_runs.specs.Listing.{AreScenarios};
ghost use Rattle.cpg_order.specs.Urgency.{IsTopological};
ghost use Rattle.cpg_base.specs.Order.{place};
ghost use Rattle.cpg_run.specs.Frozen.{AreFrozenTimes};
ghost use Rattle.cpg_merging.specs.Merged.{AreMergeable};
ghost use Rattle.cpg_table.specs.Shape.{items_of};
ghost use Rattle.cpg_list.specs.Listed.{Carries, HasEnds, HasMadeBefore, HasMadeStart, HasPassed, HasPassedBy, HasQueued, IsListed, KeepsEarlier, graph_of};
ghost use Rattle.cpg_list.specs.Made.{IsRowSet};
ghost use Rattle.cpg_run.specs.Rows.{AreRows};
ghost use Rattle.cpg_all_runs.specs.Runs.{AreRuns};

use crate::items::empty_rows;
use crate::scenario_runs::Listed;
use crate::sends::{frozen_ends, send_entries};
use crate::starts::start_entries;
use crate::state::{Cubes, whole_by_node};
use crate::timed::{TimedRow, to_rows};
use cpg_base::{Order, OutOfMemory, Scenario};
use cpg_bus::Plan;
use cpg_cube::Column;
use cpg_merging::merged;
use cpg_rules::Admitted;
use cpg_run::{FrozenTimes, RunTimes};
use cpg_table::Row;
use std::alloc::Global;

/// Sets the row of an item in `rows` to its entries, merged.
fn set_row(
    alloc: Global,
    admitted: &Admitted,
    item: u32,
    entries: Vec<Column>,
    rows: &mut Vec<TimedRow>,
) -> Result<(), OutOfMemory>
    requires item { item < length rows.old.items }
    requires entries { AreMergeable admitted.now.graph entries.items }
    ensures { OnOk result (IsRowSet admitted.now.graph admitted.now.order item entries.items rows.old.items rows.new.items) }
{
    let columns = merged(alloc, admitted.problem(), admitted.order(), entries)?;
    rows[item as usize] = TimedRow::new(alloc, item, columns)?;
    Ok(())
}

/// Makes in `rows` the rows of what a process sends. `ends` has for each scenario the cube of what is carried at the end of
/// the process, and `queue` that of what earlier items leave in the queue of its node, which is narrowed by what these
/// leave.
fn make_sends(
    alloc: Global,
    listed: &Listed<'_>,
    process: u32,
    ends: &Cubes,
    queue: &mut Cubes,
    rows: &mut Vec<TimedRow>,
) -> Result<(), OutOfMemory>
    requires listed { IsListed listed.now }
    requires process { process < process_count (graph_of listed.now) }
    requires ends { HasEnds listed.now rows.old.items process ends.now }
    requires queue { HasQueued listed.now rows.old.items process (place listed.now.order.now process) queue.old }
    requires made { HasMadeStart listed.now process rows.old.items }
    ensures queue { OnOk result (HasQueued listed.now rows.new.items process (place listed.now.order.now process + 1) queue.new) }
    ensures made { OnOk result (HasMadeBefore listed.now (place listed.now.order.now process + 1) rows.new.items) }
    ensures same { OnOk result (KeepsEarlier listed.now process rows.old.items rows.new.items) }
{
    let admitted = listed.admitted;
    for item in listed.plan.queue(admitted.problem(), process) {
        let entries = send_entries(alloc, listed, rows.as_slice(), process, *item, ends, queue)?;
        set_row(alloc, admitted, *item, entries, rows)?;
    }
    Ok(())
}

/// Makes in `rows` the rows of what a process sends. `known` has for each scenario the cube of what its node carries on up to
/// the process, and `queue` that of what earlier items leave in the node's queue, which is narrowed by what these leave.
fn make_sends_after(
    alloc: Global,
    listed: &Listed<'_>,
    process: u32,
    known: &Cubes,
    queue: &mut Cubes,
    rows: &mut Vec<TimedRow>,
) -> Result<(), OutOfMemory>
    requires listed { IsListed listed.now }
    requires process { process < process_count (graph_of listed.now) }
    requires known { HasPassedBy listed.now rows.old.items process known.now }
    requires queue { HasQueued listed.now rows.old.items process (place listed.now.order.now process) queue.old }
    requires made { HasMadeStart listed.now process rows.old.items }
    ensures queue { OnOk result (HasQueued listed.now rows.new.items process (place listed.now.order.now process + 1) queue.new) }
    ensures made { OnOk result (HasMadeBefore listed.now (place listed.now.order.now process + 1) rows.new.items) }
    ensures same { OnOk result (KeepsEarlier listed.now process rows.old.items rows.new.items) }
{
    // at the end of a frozen process just what decides it and its count are carried, and else all that its node carries on
    if listed.admitted.problem().is_frozen(process) {
        let ends = frozen_ends(alloc, listed.admitted, listed.scenarios, process)?;
        make_sends(alloc, listed, process, &ends, queue, rows)?;
        return Ok(());
    }
    make_sends(alloc, listed, process, known, queue, rows)?;
    Ok(())
}

/// Makes in `rows` the row of the start of a process. `known` has for each scenario the cube of what its node carries on
/// from earlier processes, and is narrowed by what it carries on from this one.
fn make_start(
    alloc: Global,
    listed: &Listed<'_>,
    process: u32,
    known: &mut Cubes,
    rows: &mut Vec<TimedRow>,
) -> Result<(), OutOfMemory>
    requires listed { IsListed listed.now }
    requires process { process < process_count (graph_of listed.now) }
    requires known { HasPassed listed.now rows.old.items process known.old }
    requires made { HasMadeBefore listed.now (place listed.now.order.now process) rows.old.items }
    ensures known { OnOk result (HasPassedBy listed.now rows.new.items process known.new) }
    ensures made { OnOk result (HasMadeStart listed.now process rows.new.items) }
    ensures same { OnOk result (KeepsEarlier listed.now process rows.old.items rows.new.items) }
{
    // called for its contract: the graph is admitted
    let _problem = listed.admitted.problem();
    let entries = start_entries(alloc, listed, rows.as_slice(), process, known)?;
    set_row(alloc, listed.admitted, process, entries, rows)?;
    Ok(())
}

/// Makes in `rows` the rows of the start of the process at a place and of what it sends. `known` has by node and scenario the
/// cube of what the node carries on, and `queues` that of what earlier items leave in its queue. Both are narrowed by what
/// this process leaves.
fn make(
    alloc: Global,
    listed: &Listed<'_>,
    place: u32,
    known: &mut Vec<Cubes>,
    queues: &mut Vec<Cubes>,
    rows: &mut Vec<TimedRow>,
) -> Result<(), OutOfMemory>
    requires listed { IsListed listed.now }
    requires place { place < process_count (graph_of listed.now) }
    requires carried { Carries listed.now rows.old.items place known.old.items queues.old.items }
    requires made { HasMadeBefore listed.now place rows.old.items }
    ensures carried { OnOk result (Carries listed.now rows.new.items (place + 1) known.new.items queues.new.items) }
    ensures made { OnOk result (HasMadeBefore listed.now (place + 1) rows.new.items) }
{
    let process = listed.order.at(place);
    let node = listed.admitted.problem().node_of(process) as usize;
    make_start(alloc, listed, process, &mut known[node], rows)?;
    make_sends_after(
        alloc,
        listed,
        process,
        &known[node],
        &mut queues[node],
        rows,
    )?;
    Ok(())
}

/// Returns the rows of all items of a graph, by number, given all scenarios, each once, and their runs. A row has one entry
/// for each group of scenarios in which the same literals are carried beside the item's time, merged. An item that is
/// no start and doesn't go over the bus has no column.
pub fn rows(
    alloc: Global,
    admitted: &Admitted,
    order: &Order,
    plan: &Plan,
    frozen: &FrozenTimes,
    scenarios: &[Scenario],
    runs: &[RunTimes],
) -> Result<Vec<Row>, OutOfMemory>
    requires topological { IsTopological admitted.now.graph order.now }
    requires plan { plan.now ≡ plan_of admitted.now.graph }
    requires frozen { AreFrozenTimes admitted.now.graph order.now frozen.now }
    requires scenarios { AreScenarios admitted.now.graph scenarios.now }
    requires runs { AreRuns admitted.now.graph order.now frozen.now scenarios.now runs.now }
    ensures items { IfOk result (λ rows. items_of rows.items ≡ numbers_below (item_count admitted.now.graph)) }
    ensures rows { IfOk result (λ rows. AreRows admitted.now.graph admitted.now.order order.now frozen.now (map (λ r. r.columns) rows.items)) }
{
    let problem = admitted.problem();
    // before the first process no node carries anything on, and no queue leaves anything
    let mut known = whole_by_node(alloc, problem, scenarios.len())?;
    let mut queues = whole_by_node(alloc, problem, scenarios.len())?;
    let mut rows = empty_rows(alloc, problem)?;
    let listed = Listed {
        admitted,
        order,
        plan,
        frozen,
        scenarios,
        runs,
    };
    for place in 0..problem.processes().len() as u32 {
        make(alloc, &listed, place, &mut known, &mut queues, &mut rows)?;
    }
    let rows = to_rows(alloc, rows.as_slice())?;
    Ok(rows)
}
