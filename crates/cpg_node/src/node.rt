//! The dispatcher of one node.
ghost use Rattle.std.specs.Prelude.{◌<◌, ◌^◌, ◌≡◌, ◌↔◌, IsTrue, IsErr, IfOk, OnOk, OnErr, IfSome, true, [], map, length};
ghost use Rattle.cpg_base.specs.Numbers.{numbers_below};
ghost use Rattle.cpg_node.specs.Dispatcher.{initial_dispatcher, next, turn, acts_of_turn, hear, is_strange, finished, whole_range, variable_count};
ghost use Rattle.cpg_node.specs.State.{start_of, report_of, has_reported, MayTurn, MayFinish};

use crate::executions::{
    earlier, earliest_end, gather_due, note_report, running_in, turn_executions,
};
use crate::heard::{arrives, hear_all, hears, whole_ranges};
use crate::plan::{Planned, gather_acts, past_entries, past_times, plan_of, time_at, times_of};
use crate::range::Range;
use crate::{Act, Ended, Frame, Running, StrangeFrame};
use cpg_base::OutOfMemory;
use cpg_table::NodeTable;
use std::alloc::Global;
use std::marker::Model;

/// A node, which acts by its own table and by what it has heard. It is seen as its dispatcher and the acts of its last
/// turn.
#[derive(Drop)]
pub struct Node {
    /// When it starts, sends and hears its items.
    table: NodeTable,
    /// The range of each variable.
    heard: Vec<Range>,
    /// What each of the table's own processes runs.
    running: Vec<Option<Running>>,
    /// The instant of the last turn.
    last: Option<u64>,
    /// The acts of the last turn.
    acts: Vec<Act>,
    /// The next instant, if there is one.
    next: Option<u64>,
    /// The columns of what the node sends and starts, in order of time, and the place of the first after the last turn.
    plan: Vec<Planned>,
    plan_place: usize,
    /// All times of the table, in order, and the place of the first after the last turn.
    times: Vec<u64>,
    times_place: usize,
    /// Room for the reports that a turn takes.
    due: Vec<Ended>,
    /// As many ranges as `heard` has. `hear` copies `heard` into them, so that a frame that contradicts it can be taken
    /// back.
    saved: Vec<Range>,
}

impl Model for Node {
    ghost use Rattle.cpg_node.specs.State.{NodeState};

    ghost Value = { NodeState };

    ghost use Rattle.cpg_node.specs.Sound.{state_of, IsSound};

    ghost view = { state_of };

    ghost invariant = { IsSound };
}

impl Node {
    /// Returns the node of a table before its first turn. It reserves all the memory that the node will need; `Err` only if
    /// there isn't so much.
    pub fn new(alloc: Global, table: NodeTable) -> Result<Node, OutOfMemory>
        ensures { IfOk result (λ node. node ≡ record { dispatcher = initial_dispatcher table; acts = [] }) }
    {
        let heard = whole_ranges(alloc, table.faults())?;
        let saved = heard.clone()?;
        let running = vec![in alloc; None; table.own().len()]?;
        let plan = plan_of(alloc, &table)?;
        let times = times_of(alloc, &table)?;
        let mut acts = Vec::new(alloc);
        // an act for each entry of the plan, and a report for each process: no turn needs more room
        acts.reserve(plan.len())?;
        let mut due = Vec::new(alloc);
        due.reserve(running.len())?;
        Ok(Node {
            table,
            heard,
            running,
            last: None,
            acts,
            // the first turn is at 0
            next: Some(0),
            plan,
            plan_place: 0,
            times,
            times_place: 0,
            due,
            saved,
        })
    }

    /// Returns the table that the node acts by.
    pub fn table(&self) -> &NodeTable
        ensures { result.now ≡ self.now.dispatcher.table }
    {
        &self.table
    }

    /// Returns when the execution of a process started, in time units of the graph file, or `None` if the process
    /// doesn't run on this node.
    pub fn running(&self, process: u32) -> Option<u64>
        ensures { result ≡ start_of self.now.dispatcher process }
    {
        let running = running_in(self.table.own(), self.running.as_slice(), process)?;
        Some(running.start)
    }

    /// Returns whether a process runs on this node and has reported its end; the report is kept until the planned end.
    pub fn reported(&self, process: u32) -> bool
        ensures { result ≡ has_reported self.now.dispatcher process }
    {
        self.report(process).is_some()
    }

    /// Returns the kept report of a process, or `None` if it doesn't run on this node or hasn't reported its end.
    pub fn report(&self, process: u32) -> Option<Ended>
        ensures { result ≡ report_of self.now.dispatcher process }
    {
        let running = running_in(self.table.own(), self.running.as_slice(), process)?;
        running.report
    }

    /// Returns what runs: an execution or `None` for each of the table's own processes, in their order.
    pub fn executions(&self) -> &[Option<Running>]
        ensures executions { result.now ≡ self.now.dispatcher.running }
        ensures count { length self.now.dispatcher.running ≡ length self.now.dispatcher.table.own }
    {
        self.running.as_slice()
    }

    /// Returns the next instant at which something may happen, in time units of the graph file, or `None` if there is
    /// none.
    pub fn next(&self) -> Option<u64>
        ensures next { result ≡ next self.now.dispatcher }
        ensures early { IfSome result (λ time. time < 2 ^ 61) }
    {
        self.next
    }

    /// Returns the acts of the last turn: sends by item, then starts by process; none before the first turn.
    pub fn acts(&self) -> &[Act]
        ensures { result.now ≡ self.now.acts }
    {
        self.acts.as_slice()
    }

    /// Hears a frame that arrives at a time. `Err` exactly if it is strange: the node doesn't hear its item, its column isn't
    /// there or arrives at another time, or what it says contradicts what has been heard. A strange frame changes nothing.
    pub fn hear(&mut self, arrival: u64, frame: Frame) -> Result<(), StrangeFrame>
        ensures strange { IsErr result ↔ (is_strange self.old.dispatcher arrival frame ≡ true) }
        ensures heard { OnOk result (self.new ≡ record self.old { dispatcher = hear self.old.dispatcher frame }) }
        ensures same { OnErr result (self.new ≡ self.old) }
    {
        // the table has no such column of the item, or has it at another time
        if !arrives(&self.table, arrival, &frame) {
            return Err(StrangeFrame);
        }
        if hears(
            &self.table,
            self.heard.as_mut_slice(),
            self.saved.as_mut_slice(),
            &frame,
        ) {
            Ok(())
        } else {
            Err(StrangeFrame)
        }
    }

    /// Notes that an execution ended at a time, perhaps early. Its report is kept until its planned end, and taken by the
    /// turn of that. `time` is there for the contract alone.
    pub fn finished(&mut self, time: u64, ended: Ended)
        requires { MayFinish self.old.dispatcher time ended }
        ensures { self.new ≡ record self.old { dispatcher = finished self.old.dispatcher ended } }
    {
        note_report(self.table.own(), self.running.as_mut_slice(), ended);
    }

    /// Takes the turn of the next instant. It first takes the ends of executions, those given here and the kept reports of
    /// this instant, and then the frames, those that weren't given to `hear`. Then it does each entry of this instant whose
    /// literals all follow from what has been heard.
    pub fn turn(&mut self, ended: &[Ended], frames: &[Frame])
        requires { MayTurn self.old.dispatcher ended.now frames.now }
        // if there is a next turn, the dispatcher is as after it
        ensures turn { IfSome (next self.old.dispatcher) (λ time. self.new.dispatcher ≡ turn self.old.dispatcher time ended.now frames.now) }
        // if there is a next turn, the acts are those of this turn
        ensures acts { IfSome (next self.old.dispatcher) (λ time. self.new.acts ≡ acts_of_turn self.old.dispatcher time ended.now frames.now) }
    {
        // no next instant: nothing can happen any more, and nothing changes
        let Some(time) = self.next else {
            return;
        };
        gather_due(
            self.table.own(),
            self.running.as_slice(),
            time,
            &mut self.due,
        );
        hear_all(
            &self.table,
            self.heard.as_mut_slice(),
            ended,
            self.due.as_slice(),
            frames,
        );
        // the entries of this instant are those from the place on up to the first later one
        let plan_end = past_entries(self.plan.as_slice(), self.plan_place, time);
        let plan = &self.plan[self.plan_place..plan_end];
        gather_acts(&self.table, self.heard.as_slice(), plan, &mut self.acts);
        turn_executions(
            ended,
            self.due.as_slice(),
            self.acts.as_slice(),
            time,
            self.table.own(),
            self.running.as_mut_slice(),
        );
        // both places go on to what is after this instant
        self.plan_place = plan_end;
        self.times_place = past_times(self.times.as_slice(), self.times_place, time);
        self.last = Some(time);
        // the next instant is the next time in the table or, if that is earlier, the next possible end
        let end = earliest_end(self.table.own(), self.running.as_slice(), time);
        let time = time_at(self.times.as_slice(), self.times_place);
        self.next = earlier(time, end);
    }
}
