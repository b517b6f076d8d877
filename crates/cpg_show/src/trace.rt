//! The text of a trace. Here every error says that memory ran out.
ghost use Rattle.std.specs.Prelude.{◌≡◌, ◌<◌, ◌++◌, All, IfOk, OnOk, flat_map, fold, length, map, max, string_bytes};
ghost use Rattle.cpg_base.specs.Graph.{process_count};
ghost use Rattle.cpg_show.specs.TraceEvents.{IsKindWithin};
ghost use Rattle.cpg_show.specs.TraceText.{IsTraceText, kind_text, event_line, finish_of, outcome_text, ran_text};

use crate::event::{EventKind, TraceEvent};
use crate::events::events_in_order;
use cpg_base::{Lengths, OutOfMemory, Problem};
use cpg_cluster::Cluster;
use cpg_label::{name_of, node_name, write_item, write_value};
use cpg_node::Ended;
use cpg_rules::Admitted;
use std::alloc::{AllocError, Global};

/// Writes the value of a process's condition, `value`; nothing if the process has no condition.
fn write_outcome(
    out: &mut String,
    problem: &Problem,
    process: u32,
    value: bool,
) -> Result<(), AllocError>
    requires { process < process_count problem.now }
    ensures { OnOk result (string_bytes out.new ≡ string_bytes out.old ++ outcome_text problem.now process value) }
{
    // a process without a condition has no value to show
    if problem.condition_of(process).is_none() {
        return Ok(());
    }
    out.push_str(" value ")?;
    write_value(out, u8::from(value))
}

/// Writes how long an execution ran, `length`, if that is less than its full duration, `full`; otherwise nothing.
fn write_ran(out: &mut String, length: u64, full: u64) -> Result<(), AllocError>
    ensures { OnOk result (string_bytes out.new ≡ string_bytes out.old ++ ran_text length full) }
{
    // no more is said of an execution that didn't end early
    if length < full {
        write!(out, " ran {length}")?;
    }
    Ok(())
}

/// Writes what a node did, without the time and the node. `lengths` has how long the execution of each process ran.
fn write_kind(
    out: &mut String,
    problem: &Problem,
    lengths: &Lengths,
    kind: EventKind,
) -> Result<(), AllocError>
    requires lengths { length lengths.now ≡ process_count problem.now }
    requires within { IsKindWithin problem.now kind }
    ensures { OnOk result (string_bytes out.new ≡ string_bytes out.old ++ kind_text problem.now lengths.now kind) }
{
    match kind {
        // the item of a start has the number of its process
        EventKind::Start { process } => write_item(out, problem, process),
        EventKind::Send { item } => write_item(out, problem, item),
        EventKind::End {
            process,
            faults,
            value,
        } => {
            let name = name_of(problem, process);
            write!(out, "end {name} faults {faults}")?;
            write_outcome(out, problem, process, value)?;
            // how long the execution lasts, with these faults, if it doesn't end early
            let full = problem.duration(process, faults);
            write_ran(out, lengths.length_of(process), full)
        }
    }
}

/// Writes the line of an event: its time, its node, and what it was. `lengths` has how long the execution of each process
/// ran.
fn write_event(
    out: &mut String,
    problem: &Problem,
    lengths: &Lengths,
    event: &TraceEvent,
) -> Result<(), AllocError>
    requires lengths { length lengths.now ≡ process_count problem.now }
    requires within { IsKindWithin problem.now event.now.kind }
    ensures { OnOk result (string_bytes out.new ≡ string_bytes out.old ++ event_line problem.now lengths.now event.now) }
{
    let time = event.time;
    let name = node_name(problem, event.node);
    write!(out, "{time} {name} ")?;
    write_kind(out, problem, lengths, event.kind)?;
    out.push_str("\n")
}

/// Writes the lines of events, one after another. `lengths` has how long the execution of each process ran.
fn write_events(
    out: &mut String,
    problem: &Problem,
    lengths: &Lengths,
    events: &[TraceEvent],
) -> Result<(), AllocError>
    requires lengths { length lengths.now ≡ process_count problem.now }
    requires within { All (λ e. IsKindWithin problem.now e.kind) events.now }
    ensures { OnOk result (string_bytes out.new ≡ string_bytes out.old ++ flat_map (event_line problem.now lengths.now) events.now) }
{
    for event in events {
        write_event(out, problem, lengths, event)?;
    }
    Ok(())
}

/// Returns the greatest of a time and of the times of a node's ends.
fn last_of(time: u64, ends: &[(u64, Ended)]) -> u64
    ensures { result ≡ fold max time (map (λ e. e.0) ends.now) }
{
    let mut last = time;
    for end in ends {
        last = last.max(end.0);
    }
    last
}

/// Returns the greatest planned end that any node has come to, in time units; 0 if there is none.
pub fn finish(problem: &Problem, cluster: &Cluster) -> u64
    requires { cluster.now.graph ≡ problem.now }
    ensures { result ≡ finish_of problem.now cluster.now.cluster.ends }
{
    let mut last = 0;
    // there are at most 16 nodes, so the cast keeps their number
    for node in 0..problem.nodes().len() as u32 {
        last = last_of(last, cluster.ends(node));
    }
    last
}

/// Returns the text of a trace: a line for each start, each message or broadcast and each end that the nodes have come to,
/// then the greatest end in time units, 0 if there is none. Lines go by time, then by number of the node; then ends come
/// first, sends next and starts last, each by number of the process or item. The time of an end is the planned one; if the
/// execution took less, its line tells the length. The one error is `OutOfMemory`.
pub fn trace_text(
    alloc: Global,
    admitted: &Admitted,
    cluster: &Cluster,
) -> Result<String, OutOfMemory>
    requires { cluster.now.graph ≡ admitted.now.graph }
    ensures { IfOk result (λ text.
        IsTraceText cluster.now.graph cluster.now.world.lengths cluster.now.cluster.acts cluster.now.cluster.ends (string_bytes text)) }
{
    let problem = admitted.problem();
    let lengths = cluster.lengths();
    let events = events_in_order(alloc, problem, cluster)?;
    let mut out = String::new(alloc);
    write_events(&mut out, problem, lengths, events.as_slice())?;
    let finish = finish(problem, cluster);
    write!(out, "finish {finish}\n")?;
    Ok(out)
}
