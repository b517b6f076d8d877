//! All events of a trace, in order. Here every error is `OutOfMemory`.
ghost use Rattle.std.specs.Prelude.{◌≡◌, ◌++◌, All, IfOk, OnOk, map};
ghost use Rattle.cpg_cluster.specs.Playing.{IsPlaying};
ghost use Rattle.cpg_show.specs.TraceEvents.{AreToldInOrder, IsActWithin, all_events, event_of_act, event_of_end};

use crate::event::{TraceEvent, event_of_act, event_of_end};
use cpg_base::{OutOfMemory, Problem};
use cpg_cluster::Cluster;
use cpg_node::{Act, Ended};
use std::alloc::Global;

/// Adds the starts and sends of a node as events.
fn add_acts(
    events: &mut Vec<TraceEvent>,
    problem: &Problem,
    node: u32,
    acts: &[Act],
) -> Result<(), OutOfMemory>
    requires { All (IsActWithin problem.now) acts.now }
    ensures { OnOk result (events.new.items ≡ events.old.items ++ map (event_of_act problem.now node) acts.now) }
{
    for act in acts {
        events.push(event_of_act(problem, node, act))?;
    }
    Ok(())
}

/// Adds the ends of a node's executions as events.
fn add_ends(
    events: &mut Vec<TraceEvent>,
    node: u32,
    ends: &[(u64, Ended)],
) -> Result<(), OutOfMemory>
    ensures { OnOk result (events.new.items ≡ events.old.items ++ map (event_of_end node) ends.now) }
{
    for end in ends {
        events.push(event_of_end(node, end))?;
    }
    Ok(())
}

/// Returns the events of all nodes, node by node: its starts and sends, and then its ends.
fn gathered(
    alloc: Global,
    problem: &Problem,
    cluster: &Cluster,
) -> Result<Vec<TraceEvent>, OutOfMemory>
    requires same { cluster.now.graph ≡ problem.now }
    requires playing { IsPlaying cluster.now }
    ensures { IfOk result (λ events. events.items ≡ all_events problem.now cluster.now.cluster.acts cluster.now.cluster.ends) }
{
    let mut events = Vec::new(alloc);
    // there are at most 16 nodes, so the cast keeps their number
    for node in 0..problem.nodes().len() as u32 {
        add_acts(&mut events, problem, node, cluster.acts(node))?;
        add_ends(&mut events, node, cluster.ends(node))?;
    }
    Ok(events)
}

/// Returns the events of all nodes in the order of a trace: by time, then by node, then by kind and number.
pub(crate) fn events_in_order(
    alloc: Global,
    problem: &Problem,
    cluster: &Cluster,
) -> Result<Vec<TraceEvent>, OutOfMemory>
    requires same { cluster.now.graph ≡ problem.now }
    requires playing { IsPlaying cluster.now }
    ensures { IfOk result (λ events. AreToldInOrder problem.now cluster.now.cluster.acts cluster.now.cluster.ends events.items) }
{
    let mut events = gathered(alloc, problem, cluster)?;
    // events of equal order are equal, so which of them comes first doesn't matter
    events.sort_unstable();
    Ok(events)
}
