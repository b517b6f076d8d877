//! A node, and the acts of all its turns.
ghost use Rattle.std.specs.Prelude.{◌≡◌, ◌<◌, ◌≤◌, ◌+◌, ◌^◌, Some, true, IfOk, IfSome, IfNone};
ghost use Rattle.cpg_table.specs.Lawful.{column_count, IsTable};
ghost use Rattle.cpg_node.specs.Dispatcher.{next, is_after};
ghost use Rattle.cpg_node.specs.Instants.{instants_left};
ghost use Rattle.cpg_live.specs.Feeding.{IsTurned, AreFewTurns};
ghost use Rattle.cpg_live.specs.Stream.{start, take_turn, instant_below, turned, step, arrived, ended};

use crate::Defect;
use crate::ending::{count_within, may_end};
use crate::event::Event;
use cpg_base::OutOfMemory;
use cpg_node::{Act, Ended, Frame, Node, append_acts};
use cpg_table::{NodeTable, count_columns};
use std::alloc::Global;
use std::marker::Model;

/// A node with the acts of all its turns so far, in order, and room for those that may still come.
#[derive(Drop)]
pub struct NodeProgress {
    node: Node,
    /// The acts of all its turns so far, in order.
    acts: Vec<Act>,
}

impl Model for NodeProgress {
    ghost use Rattle.cpg_live.specs.Stream.{NodeProgress};
    ghost use Rattle.cpg_live.specs.Kept.{progress_of, HasRoom};

    ghost Value = { NodeProgress };

    ghost view = { progress_of };

    ghost invariant = { HasRoom };
}

/// Returns the most acts that the node of a table can do: one for each column of what it sends and starts. `None` exactly
/// if this number doesn't fit a machine word.
pub fn count_entries(table: &NodeTable) -> Option<usize>
    ensures count { IfSome result (λ count. count ≡ column_count table.now.sends + column_count table.now.starts) }
    ensures many { IfNone result (2 ^ 64 ≤ column_count table.now.sends + column_count table.now.starts) }
    ensures made { IsTable table.now }
{
    let sends = count_columns(table.sends(), 0)?;
    count_columns(table.starts(), sends)
}

impl NodeProgress {
    /// Returns the node of a table before its first turn. It reserves all the memory that it will need; `Err` only if there
    /// isn't so much.
    pub fn new(alloc: Global, table: NodeTable) -> Result<NodeProgress, OutOfMemory>
        ensures { IfOk result (λ progress. progress ≡ start table) }
    {
        // more acts than a machine word counts, and so than memory has room for
        let Some(entries) = count_entries(&table) else {
            return Err(OutOfMemory);
        };
        let mut acts = Vec::new(alloc);
        acts.reserve(entries)?;
        let node = Node::new(alloc, table)?;
        Ok(NodeProgress { node, acts })
    }

    /// Returns the table of the node.
    pub fn table(&self) -> &NodeTable
        ensures { result.now ≡ self.now.dispatcher.table }
    {
        self.node.table()
    }

    /// Returns the acts of all turns so far, in order.
    pub fn acts(&self) -> &[Act]
        ensures { result.now ≡ self.now.acts }
    {
        self.acts.as_slice()
    }

    /// Returns the next instant, or `None` if there is none or it is later than `last`.
    fn instant_to(&self, last: u64) -> Option<u64>
        ensures { result ≡ instant_below (last + 1) (next self.now.dispatcher) }
    {
        let time = self.node.next()?;
        if time > last { None } else { Some(time) }
    }

    /// Takes the turn of the next instant, which is `time`; the code takes that from the node, so `time` is there for the
    /// contract alone.
    fn take_turn(&mut self, time: u64)
        requires { next self.old.dispatcher ≡ Some time }
        ensures turn { self.new ≡ take_turn time self.old }
        ensures fewer { instants_left self.new.dispatcher < instants_left self.old.dispatcher }
    {
        // ends and frames are taken when their records come, so there are none to take now
        self.node.turn(&[], &[]);
        append_acts(&mut self.acts, self.node.acts());
    }

    /// Takes all turns at instants that aren't later than `last`. The entries of the node's table bound how many these are,
    /// however late that is.
    fn turn_to(&mut self, last: u64)
        ensures turns { self.new ≡ turned (last + 1) self.old }
        ensures few { AreFewTurns (last + 1) self.old self.new }
    {
        while let Some(time) = self.instant_to(last) {
            self.take_turn(time);
        }
    }

    /// Takes all turns at instants before a time.
    fn turn_before(&mut self, time: u64)
        ensures { self.new ≡ turned time self.old }
    {
        // no instant is before 0
        if time > 0 {
            self.turn_to(time - 1);
        }
    }

    /// Takes a frame that arrives at a time; `Some` exactly if it is strange, and then it isn't heard.
    fn arrive(&mut self, time: u64, frame: Frame) -> Option<Defect>
        ensures progress { self.new ≡ (arrived time frame self.old).progress }
        ensures fault { result ≡ (arrived time frame self.old).fault }
    {
        match self.node.hear(time, frame) {
            Ok(()) => None,
            Err(_) => Some(Defect::Frame),
        }
    }

    /// Takes the end of an execution of a process with this many faults, reported at a time; `Some` exactly if the process
    /// can't report it then, and then it isn't taken.
    fn end(&mut self, time: u64, process: u32, number: u16, value: bool) -> Option<Defect>
        requires before { IsTurned self.old.dispatcher time }
        requires after { is_after self.old.dispatcher.last time ≡ true }
        ensures progress { self.new ≡ (ended time (record { process = process; faults = number; value = value }) self.old).progress }
        ensures fault { result ≡ (ended time (record { process = process; faults = number; value = value }) self.old).fault }
    {
        // more faults than a cycle may have
        let Some(faults) = count_within(number, self.node.table().faults()) else {
            return Some(Defect::End);
        };
        let report = Ended {
            process,
            faults,
            value,
        };
        if !may_end(&self.node, time, &report) {
            return Some(Defect::End);
        }
        self.node.finished(time, report);
        None
    }

    /// Takes the turns that come before an event at a time, and then the event; `Some` says why it is lawless, and then
    /// only the turns are taken.
    pub fn step(&mut self, time: u64, event: Event) -> Option<Defect>
        requires { is_after self.old.dispatcher.last time ≡ true }
        ensures progress { self.new ≡ (step time event self.old).progress }
        ensures fault { result ≡ (step time event self.old).fault }
    {
        match event {
            Event::Frame(frame) => {
                self.turn_before(time);
                self.arrive(time, frame)
            }
            Event::End(process, number, value) => {
                self.turn_before(time);
                self.end(time, process, number, value)
            }
            Event::Close => {
                // a close also takes the turn at its own time
                self.turn_to(time);
                None
            }
        }
    }
}
