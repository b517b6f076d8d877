//! A node of a cluster, with what it has done.
ghost use Rattle.std.specs.Prelude.{ℕ, ◌≡◌, ◌≤◌, ◌<◌, ◌+◌, ◌++◌, [], All, IfOk, Some, fold, length, map};
ghost use Rattle.std.specs.Vec.{vec_capacity};
ghost use Rattle.cpg_base.specs.Bus.{slot_length};
ghost use Rattle.cpg_base.specs.Graph.{home, item_count, process_count};
ghost use Rattle.cpg_base.specs.Scenario.{IsScenario};
ghost use Rattle.cpg_node.specs.Dispatcher.{initial_dispatcher, next, turn, acts_of_turn};
ghost use Rattle.cpg_node.specs.State.{MayTurn};
ghost use Rattle.cpg_table.specs.Lawful.{AreTablesOf};
ghost use Rattle.cpg_table.specs.Table.{table_at};
ghost use Rattle.cpg_cluster.specs.Keeping.{IsOpen, AreOpen, HearsItems, note};
ghost use Rattle.cpg_cluster.specs.Taking.{IsOwnOf, AllFinish, reports_of, ends_of, ready};

use crate::arrivals::arrivals_of;
use crate::senders::senders_of;
use crate::told::{finish_all, gather_ends, gather_reports, note_acts};
use cpg_base::{Lengths, OutOfMemory, Problem, Scenario};
use cpg_node::{Act, Ended, Frame, Node, append_acts};
use cpg_table::{NodeTable, Tables};
use std::alloc::Global;

/// A node of a cluster, what it keeps of the graph, and what it has done.
#[derive(Drop)]
pub struct Member {
    /// The dispatcher with the node's table.
    pub node: Node,
    /// The sender of each hear row.
    pub senders: Vec<u32>,
    /// For each node, when the frames arrive that this one hears of it, by time.
    pub arrivals: Vec<Vec<u64>>,
    /// How long its slot lasts, in time units. For a node without a slot it is the length of the first slot, and 0 if
    /// there are no slots.
    pub slot: u64,
    /// The acts that it has done, in order.
    pub acts: Vec<Act>,
    /// For each item of the graph, the act by which it started or sent the item, if it did.
    pub noted: Vec<Option<Act>>,
    /// The reports whose planned ends it has reached, each with the planned end.
    pub ends: Vec<(u64, Ended)>,
    /// The reports that it has taken, each with the actual end of the execution.
    pub reports: Vec<(u64, Ended)>,
}

/// Returns node `number` before its first turn, with all the room that it needs for a play. The one error is that
/// memory runs out.
pub fn open_member(
    alloc: Global,
    problem: &Problem,
    number: u32,
    table: NodeTable,
) -> Result<Member, OutOfMemory>
    requires { HearsItems problem.now table }
    ensures { IfOk result (λ m. IsOpen problem.now number table m) }
{
    let slot = problem.slot_length(number);
    let senders = senders_of(alloc, problem, table.hears())?;
    // there are at most 16 nodes, so the cast keeps their number
    let count = problem.nodes().len() as u32;
    let arrivals = arrivals_of(alloc, table.hears(), senders.as_slice(), count)?;
    let mut acts = Vec::new(alloc);
    // in a play of valid tables a node does each item at most once, and each of its processes ends and reports at most once
    acts.reserve(table.sends().len() + table.starts().len())?;
    let noted = vec![in alloc; None; problem.item_count() as usize]?;
    let mut ends = Vec::new(alloc);
    ends.reserve(table.own().len())?;
    let mut reports = Vec::new(alloc);
    reports.reserve(table.own().len())?;
    let node = Node::new(alloc, table)?;
    Ok(Member {
        node,
        senders,
        arrivals,
        slot,
        acts,
        noted,
        ends,
        reports,
    })
}

/// A member takes the reports of the executions that are over by its next instant `time`, and then its turn with these
/// frames. It keeps what it did, and the reports whose planned end this is.
pub fn take_turn(
    problem: &Problem,
    scenario: &Scenario,
    lengths: &Lengths,
    time: u64,
    frames: &[Frame],
    member: &mut Member,
)
    requires own { All (IsOwnOf problem.now) member.old.node.dispatcher.table.own }
    requires scenario { IsScenario problem.now scenario.now }
    requires lengths { length lengths.now ≡ process_count problem.now }
    requires finish { AllFinish member.old.node.dispatcher (reports_of problem.now scenario.now lengths.now time member.old.node.dispatcher) }
    requires turn { MayTurn (ready problem.now scenario.now lengths.now time member.old.node.dispatcher) [] frames.now }
    requires next { next (ready problem.now scenario.now lengths.now time member.old.node.dispatcher) ≡ Some time }
    requires reports_fit { length
        (member.old.reports.items ++ reports_of problem.now scenario.now lengths.now time member.old.node.dispatcher) ≤ vec_capacity member.old.reports }
    requires ends_fit { length (member.old.ends.items ++ ends_of time
        (ready problem.now scenario.now lengths.now time member.old.node.dispatcher)) ≤ vec_capacity member.old.ends }
    requires acts_fit { length (member.old.acts.items ++ acts_of_turn
        (ready problem.now scenario.now lengths.now time member.old.node.dispatcher) time [] frames.now) ≤ vec_capacity member.old.acts }
    ensures node { member.new.node.dispatcher ≡ turn (ready problem.now scenario.now lengths.now time member.old.node.dispatcher) time [] frames.now }
    ensures acts { member.new.acts.items ≡ member.old.acts.items ++ acts_of_turn
        (ready problem.now scenario.now lengths.now time member.old.node.dispatcher) time [] frames.now }
    ensures noted { member.new.noted.items ≡ fold note member.old.noted.items
        (acts_of_turn (ready problem.now scenario.now lengths.now time member.old.node.dispatcher) time [] frames.now) }
    ensures ends { member.new.ends.items ≡ member.old.ends.items ++ ends_of time (ready problem.now scenario.now lengths.now time member.old.node.dispatcher) }
    ensures reports { member.new.reports.items ≡ member.old.reports.items ++ reports_of problem.now scenario.now lengths.now time member.old.node.dispatcher }
    ensures same { (member.new.senders ≡ member.old.senders) × (member.new.slot ≡ member.old.slot) × (member.new.arrivals ≡ member.old.arrivals) }
    ensures room { (vec_capacity member.new.acts ≡ vec_capacity member.old.acts) ×
        (vec_capacity member.new.ends ≡ vec_capacity member.old.ends) × (vec_capacity member.new.reports ≡ vec_capacity member.old.reports) }
{
    // the reports from here on are those of this turn
    let first = member.reports.len();
    let own = member.node.table().own();
    let running = member.node.executions();
    gather_reports(
        problem,
        scenario,
        lengths,
        own,
        running,
        time,
        &mut member.reports,
    );
    finish_all(&mut member.node, &member.reports[first..]);
    let own = member.node.table().own();
    // before the turn, which forgets the executions that end now
    let running = member.node.executions();
    gather_ends(own, running, time, &mut member.ends);
    member.node.turn(&[], frames);
    append_acts(&mut member.acts, member.node.acts());
    note_acts(&mut member.noted, member.node.acts());
}

/// Returns the nodes of the tables, by number, before their first turns. The one error is that memory runs out.
pub fn open_members(
    alloc: Global,
    problem: &Problem,
    tables: Tables,
) -> Result<Vec<Member>, OutOfMemory>
    requires { (i : ℕ) → i < length tables.nodes → HearsItems problem.now (table_at tables.nodes i) }
    ensures members { IfOk result (λ members. AreOpen problem.now tables.nodes (length tables.nodes) members.items) }
    ensures lawful { AreTablesOf tables.head tables.nodes }
{
    // there are at most 16 nodes, so the cast keeps their number
    let count = tables.head().nodes().len() as u32;
    let mut members = Vec::new(alloc);
    for (number, table) in (0..count).zip(tables.into_nodes()) {
        members.push(open_member(alloc, problem, number, table)?)?;
    }
    Ok(members)
}

/// Returns the greatest number of hear rows that a node has, or 0 if there are no nodes. A node hears at most one frame
/// of each row in a turn.
pub fn most_heard(members: &[Member]) -> usize
    ensures { All (λ m. length m.node.dispatcher.table.hears ≤ result) members.now }
{
    let mut most = 0;
    for member in members {
        most = most.max(member.node.table().hears().len());
    }
    most
}
