//! All nodes of a graph in one scenario: they are asked one after another, and take their turns.
ghost use Rattle.std.specs.Prelude.{ℕ, ◌≡◌, ◌<◌, ◌≤◌, ◌++◌, [], IfOk, IsTrue, All, is_some, length, get_or};
ghost use Rattle.std.specs.List.{flat_map, list_any};
ghost use Rattle.std.specs.Bool.{OnTrue};
ghost use Rattle.std.specs.Vec.{vec_capacity};
ghost use Rattle.cpg_base.specs.Graph.{item_count};
ghost use Rattle.cpg_base.specs.Draws.{next_number};
ghost use Rattle.cpg_base.specs.Scenario.{IsScenario, full_lengths};
ghost use Rattle.cpg_head.specs.GraphHead.{head_of};
ghost use Rattle.cpg_table.specs.Lawful.{AreTablesOf};
ghost use Rattle.cpg_table.specs.Valid.{IsValid};
ghost use Rattle.cpg_node.specs.Dispatcher.{next, zip_with};
ghost use Rattle.cpg_cluster.specs.Cluster.{Took, Done, answer, dispatcher_at};
ghost use Rattle.cpg_cluster.specs.Driving.{IsDriven, choose, circle, remaining};
ghost use Rattle.cpg_cluster.specs.Correct.{IsWorld, IsCorrect};
ghost use Rattle.cpg_cluster.specs.Keeping.{HasNoted, frames_of_member, frames_by};
ghost use Rattle.cpg_cluster.specs.Whole.{IsWholePlay};
ghost use Rattle.cpg_cluster.specs.Playing.{IsPlaying, HasLeastInstant, HasDoneAll, opened, stepped, answer_of};

use crate::AskStep;
use crate::member::{Member, most_heard, open_members, take_turn};
use crate::senders::value_of_item;
use crate::told::add_noted_frame;
use crate::waiting::waited_on;
use cpg_base::{Lengths, OutOfMemory, Problem, Scenario, next_number};
use cpg_node::{Act, Ended, Frame};
use cpg_rules::Admitted;
use cpg_table::{Row, Tables};
use std::alloc::Global;
use std::marker::Model;

/// All nodes of a graph in one scenario, seen as the graph, its tables, the scenario with the lengths of the
/// executions, and the state of the nodes with what they have done.
#[derive(Drop)]
pub struct Cluster {
    /// The graph.
    problem: Problem,
    /// The scenario that is played.
    scenario: Scenario,
    /// How long each execution really takes.
    lengths: Lengths,
    /// The nodes, by number.
    members: Vec<Member>,
    /// The frames of the last turn, with room for those of any turn.
    frames: Vec<Frame>,
}

impl Model for Cluster {
    ghost use Rattle.cpg_cluster.specs.Playing.{Playing};

    ghost Value = { Playing };

    ghost use Rattle.cpg_cluster.specs.Kept.{playing_of, IsKept};

    ghost view = { playing_of };

    ghost invariant = { IsKept };
}

/// Adds to `frames` that of `item`, with `value`, if there is a member with the number `sender`, it has sent the item, and
/// the frame arrives at `time`. The sender has noted its only act of the item, so no other act has to be looked at.
fn add_sender_frames(
    members: &[Member],
    sender: u32,
    value: bool,
    item: u32,
    time: u64,
    frames: &mut Vec<Frame>,
)
    requires noted { (d : Member) → sender < length members.now → HasNoted (get_or members.now sender d) item }
    requires room { length (frames.old.items ++ frames_of_member members.now value item time sender) ≤ vec_capacity frames.old }
    ensures frames { frames.new.items ≡ frames.old.items ++ frames_of_member members.now value item time sender }
    ensures room { vec_capacity frames.new ≡ vec_capacity frames.old }
{
    // a greater number is that of no member, so nothing is sent
    if (sender as usize) < members.len() {
        let member = &members[sender as usize];
        let noted = member.noted.as_slice();
        add_noted_frame(value, item, member.slot, time, noted, frames);
    }
}

/// Replaces `frames` with those that arrive at the time, hear row by hear row; `rows` are the hear rows of a node, and
/// `senders` has the sender of each.
fn gather_frames(
    problem: &Problem,
    scenario: &Scenario,
    members: &[Member],
    rows: &[Row],
    senders: &[u32],
    time: u64,
    frames: &mut Vec<Frame>,
)
    requires scenario { IsScenario problem.now scenario.now }
    requires same { length rows.now ≡ length senders.now }
    requires items { All (λ row. row.item < item_count problem.now) rows.now }
    requires noted { (i x : ℕ) (d : Member) → i < length members.now → x < item_count problem.now → HasNoted (get_or members.now i d) x }
    requires room { length (frames_by problem.now scenario.now.values members.now time rows.now senders.now) ≤ vec_capacity frames.old }
    ensures frames { frames.new.items ≡ frames_by problem.now scenario.now.values members.now time rows.now senders.now }
    ensures room { vec_capacity frames.new ≡ vec_capacity frames.old }
{
    frames.clear();
    for (place, row) in rows.iter().enumerate() {
        let item = row.item();
        let value = value_of_item(problem, scenario, item);
        add_sender_frames(members, senders[place], value, item, time, frames);
    }
}

impl Cluster {
    /// Returns all nodes before their first turns, with each execution as long as planned, and with all the room that a
    /// play needs. The one error is that memory runs out.
    pub fn new(
        alloc: Global,
        admitted: &Admitted,
        tables: Tables,
        scenario: &Scenario,
    ) -> Result<Cluster, OutOfMemory>
        requires tables { AreTablesOf (head_of admitted.now.graph) tables.nodes }
        requires valid { IsValid admitted.now.graph tables.nodes }
        requires scenario { IsScenario admitted.now.graph scenario.now }
        ensures opened { IfOk result (λ c. c ≡ opened admitted.now.graph tables.nodes (record {
          scenario = scenario.now;
          lengths = full_lengths admitted.now.graph scenario.now;
        })) }
        ensures correct { IfOk result (λ _. IsCorrect admitted.now.graph tables.nodes) }
    {
        let lengths = Lengths::full(alloc, admitted.problem(), scenario)?;
        let cluster = Cluster::with_lengths(alloc, admitted, tables, scenario, &lengths)?;
        Ok(cluster)
    }

    /// Returns all nodes before their first turns, with all the room that a play needs. Each execution has its given
    /// length, which is at most the planned one. The one error is that memory runs out.
    pub fn with_lengths(
        alloc: Global,
        admitted: &Admitted,
        tables: Tables,
        scenario: &Scenario,
        lengths: &Lengths,
    ) -> Result<Cluster, OutOfMemory>
        requires tables { AreTablesOf (head_of admitted.now.graph) tables.nodes }
        requires valid { IsValid admitted.now.graph tables.nodes }
        requires world { IsWorld admitted.now.graph (record { scenario = scenario.now; lengths = lengths.now }) }
        ensures opened { IfOk result (λ c. c ≡ opened admitted.now.graph tables.nodes (record { scenario = scenario.now; lengths = lengths.now })) }
        ensures correct { IfOk result (λ _. IsCorrect admitted.now.graph tables.nodes) }
    {
        let members = open_members(alloc, admitted.problem(), tables)?;
        let mut frames = Vec::new(alloc);
        frames.reserve(most_heard(members.as_slice()))?;
        let problem = admitted.problem().copy()?;
        let scenario = scenario.copy()?;
        let lengths = lengths.copy()?;
        Ok(Cluster {
            problem,
            scenario,
            lengths,
            members,
            frames,
        })
    }

    /// Returns the next instant of a node, in time units, or `None` if the node is done.
    pub fn next(&self, node: u32) -> Option<u64>
        requires { node < length self.now.graph.nodes }
        ensures { result ≡ next (dispatcher_at self.now.cluster node) }
    {
        self.members[node as usize].node.next()
    }

    /// Returns the acts of a node so far, in the order in which it did them.
    pub fn acts(&self, node: u32) -> &[Act]
        requires { node < length self.now.graph.nodes }
        ensures { result.now ≡ get_or self.now.cluster.acts node [] }
    {
        self.members[node as usize].acts.as_slice()
    }

    /// Returns the reports whose planned ends a node has reached so far, each with the planned end, in that order.
    pub fn ends(&self, node: u32) -> &[(u64, Ended)]
        requires { node < length self.now.graph.nodes }
        ensures { result.now ≡ get_or self.now.cluster.ends node [] }
    {
        self.members[node as usize].ends.as_slice()
    }

    /// Returns the reports that a node has taken so far, each with the actual end of its execution, in the order in
    /// which it took them.
    pub fn reports(&self, node: u32) -> &[(u64, Ended)]
        requires { node < length self.now.graph.nodes }
        ensures { result.now ≡ get_or self.now.cluster.reports node [] }
    {
        self.members[node as usize].reports.as_slice()
    }

    /// Returns how long each execution really takes, by process.
    pub fn lengths(&self) -> &Lengths
        ensures lengths { result.now ≡ self.now.world.lengths }
        ensures playing { IsPlaying self.now }
    {
        &self.lengths
    }

    /// Asks a node. It takes the turn of its next instant, unless it has none, or another node may still send a frame
    /// that arrives by then. In these two cases nothing changes.
    pub fn step(&mut self, node: u32) -> AskStep
        requires { node < length self.old.graph.nodes }
        ensures answer { answer_of result ≡ answer self.old.graph self.old.cluster node }
        ensures step { self.new ≡ stepped self.old node }
        ensures least { HasLeastInstant self.old node → answer_of result ≡ Took }
        ensures whole { answer_of result ≡ Done → HasDoneAll self.old node }
        ensures nearer { answer self.old.graph self.old.cluster node ≡ Took → remaining self.new.cluster < remaining self.old.cluster }
    {
        let member = &self.members[node as usize];
        // the node has no next instant
        let Some(time) = member.node.next() else {
            return AskStep::Done;
        };
        // another node may still send a frame that arrives by then
        if let Some(on) = waited_on(self.members.as_slice(), member, time) {
            return AskStep::Waits { on };
        }
        // all frames that arrive now have been sent
        gather_frames(
            &self.problem,
            &self.scenario,
            self.members.as_slice(),
            member.node.table().hears(),
            member.senders.as_slice(),
            time,
            &mut self.frames,
        );
        let member = &mut self.members[node as usize];
        take_turn(
            &self.problem,
            &self.scenario,
            &self.lengths,
            time,
            self.frames.as_slice(),
            member,
        );
        AskStep::Took
    }

    /// Asks the nodes from node `first` on, round the circle, until one takes its turn or all have been asked. Returns how
    /// many answered that they wait.
    fn choose(&mut self, first: u32) -> u64
        requires { first < length self.old.graph.nodes }
        ensures state { self.new ≡ record self.old {
          cluster = (choose self.old.graph self.old.world self.old.cluster
              (circle (length self.old.graph.nodes) first)).cluster;
        } }
        ensures waits { result ≡ (choose self.old.graph self.old.world self.old.cluster (circle (length self.old.graph.nodes) first)).waits }
        ensures nearer { IsTrue (choose self.old.graph self.old.world self.old.cluster (circle (length self.old.graph.nodes) first)).took →
            remaining self.new.cluster < remaining self.old.cluster }
    {
        // there is a member for each of at most 16 nodes
        let nodes = self.members.len() as u32;
        let mut waits: u64 = 0;
        let mut asked: u32 = 0;
        // each node is asked at most once
        while asked < nodes {
            let node = (first + asked) % nodes;
            match self.step(node) {
                AskStep::Took => return waits,
                AskStep::Waits { .. } => waits += 1,
                AskStep::Done => {}
            }
            asked += 1;
        }
        waits
    }

    /// Asks nodes until every node is done. For each turn a number is drawn, the first of them after `number`. It gives
    /// the node that is asked first; the others follow round the circle until one takes its turn. Returns how often a
    /// node waited.
    pub fn drive(&mut self, number: u64) -> u64
        ensures driven { IsDriven self.old.graph self.old.world number self.old.cluster self.new.cluster result }
        ensures same { self.new ≡ record self.old { cluster = self.new.cluster } }
        ensures whole { IsWholePlay self.old.graph self.old.tables self.old.world self.new.cluster }
    {
        let nodes = self.members.len() as u64;
        let mut drawn = number;
        let mut waits: u64 = 0;
        while is_any_left(self.members.as_slice()) {
            drawn = next_number(drawn);
            // a draw is the upper 31 of the 64 bits
            let first = (drawn >> 33) % nodes;
            // it is below the number of nodes, so the cast keeps it
            waits += self.choose(first as u32);
        }
        waits
    }
}

/// Whether some node has a next instant, and so isn't done.
fn is_any_left(members: &[Member]) -> bool
    ensures left { result ≡ list_any (λ m. is_some (next m.node.dispatcher)) members.now }
    ensures some { OnTrue result (0 < length members.now) }
{
    members.iter().any(|member| member.node.next().is_some())
}
