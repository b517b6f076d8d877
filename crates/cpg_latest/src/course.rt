//! What is known so far of the latest times of a track with a number of faults.
ghost use Rattle.std.specs.Prelude.{◌≡◌, ◌<◌, IfOk, Some, get_or, length, replicate, slice_set};
ghost use Rattle.cpg_run.specs.Known.{no_times};
ghost use Rattle.cpg_run.specs.Run.{time_in, end_in};

use cpg_base::{OutOfMemory, Problem};
use std::alloc::Global;
use std::marker::Model;

/// The latest times and ends that are known so far, and what they leave to the next processes, in time units.
#[derive(Drop)]
pub(crate) struct LatestCourse {
    /// For each item when it starts or is sent; `None` if it is inactive or not known yet.
    times: Vec<Option<u64>>,
    /// For each process when it ends; `None` if it is inactive or not known yet.
    ends: Vec<Option<u64>>,
    /// For each node by when all active processes so far have ended, and it has heard what decides any process so far.
    ready: Vec<u64>,
    /// For each node from when its slots are free after all that it has sent so far.
    free: Vec<u64>,
}

impl Model for LatestCourse {
    ghost use Rattle.cpg_run.specs.Progress.{ProgressState};

    ghost Value = { ProgressState };

    ghost view = { λ c. record { known = record { times = c.times.items; ends = c.ends.items; finish = 0 }; ready = c.ready.items; free = c.free.items } };
}

impl LatestCourse {
    /// Returns a course in which nothing is known, and all nodes are ready and their slots free at 0.
    pub(crate) fn none(alloc: Global, problem: &Problem) -> Result<LatestCourse, OutOfMemory>
        ensures { IfOk result (λ course. course ≡
            record { known = no_times problem.now; ready = replicate (length problem.now.nodes) 0; free = replicate (length problem.now.nodes) 0 }) }
    {
        let processes = problem.processes().len();
        // an item is a start for each process, a message for each edge or a broadcast for each condition
        let items = processes + problem.edges().len() + problem.conditions() as usize;
        let nodes = problem.nodes().len();
        Ok(LatestCourse {
            times: vec![in alloc; None; items]?,
            ends: vec![in alloc; None; processes]?,
            ready: vec![in alloc; 0u64; nodes]?,
            free: vec![in alloc; 0u64; nodes]?,
        })
    }

    /// Returns the time of an item, or 0 if it is inactive or not known yet.
    pub(crate) fn time(&self, item: u32) -> u64
        ensures { result ≡ time_in self.now.known item }
    {
        match self.times.get(item as usize) {
            Some(time) => time.unwrap_or(0),
            None => 0,
        }
    }

    /// Returns the end of a process, or 0 if it is inactive or not known yet.
    pub(crate) fn end(&self, process: u32) -> u64
        ensures { result ≡ end_in self.now.known process }
    {
        match self.ends.get(process as usize) {
            Some(end) => end.unwrap_or(0),
            None => 0,
        }
    }

    /// Returns by when a node's active processes so far have ended, and it has heard what decides any process so far.
    pub(crate) fn ready(&self, node: u32) -> u64
        requires { node < length self.now.ready }
        ensures { result ≡ get_or self.now.ready node 0 }
    {
        self.ready[node as usize]
    }

    /// Returns from when the slots of a node are free after all that it has sent so far.
    pub(crate) fn free(&self, node: u32) -> u64
        requires { node < length self.now.free }
        ensures { result ≡ get_or self.now.free node 0 }
    {
        self.free[node as usize]
    }

    /// Sets the start and the end of a process. `node` is its node, which is ready for the next process at that end.
    pub(crate) fn begin(&mut self, process: u32, node: u32, start: u64, end: u64)
        requires start { process < length self.old.known.times }
        requires end { process < length self.old.known.ends }
        requires node { node < length self.old.ready }
        ensures { self.new ≡ record {
          known = record self.old.known {
            times = slice_set self.old.known.times process (Some start);
            ends = slice_set self.old.known.ends process (Some end);
          };
          ready = slice_set self.old.ready node end;
          free = self.old.free;
        } }
    {
        self.times[process as usize] = Some(start);
        self.ends[process as usize] = Some(end);
        self.ready[node as usize] = end;
    }

    /// Sets when a node is ready, as an inactive process leaves it.
    pub(crate) fn wait(&mut self, node: u32, ready: u64)
        requires { node < length self.old.ready }
        ensures { self.new ≡ record self.old { ready = slice_set self.old.ready node ready } }
    {
        self.ready[node as usize] = ready;
    }

    /// Sets the time of an item that a node sends, and from when the node's slots are free after it.
    pub(crate) fn send(&mut self, item: u32, node: u32, time: u64, free: u64)
        requires item { item < length self.old.known.times }
        requires node { node < length self.old.free }
        ensures { self.new ≡ record {
          known = record self.old.known { times = slice_set self.old.known.times item (Some time) };
          ready = self.old.ready;
          free = slice_set self.old.free node free;
        } }
    {
        self.times[item as usize] = Some(time);
        self.free[node as usize] = free;
    }
}
