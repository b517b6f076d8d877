//! The times of a run that are known so far.
ghost use Rattle.std.specs.Prelude.{◌≡◌, ◌<◌, IfOk, Some, None, get_or, length, slice_set};
ghost use Rattle.std.specs.List.{flat_map};
ghost use Rattle.std.specs.Option.{option_to_list};
ghost use Rattle.cpg_base.specs.Numbers.{greatest};
ghost use Rattle.cpg_run.specs.Run.{time_in, end_in};
ghost use Rattle.cpg_run.specs.Known.{no_times};

use crate::RunTimes;
use cpg_base::{OutOfMemory, Problem};
use std::alloc::Global;
use std::marker::Model;

/// The times and ends of a run that are known so far, in time units. Contracts see a run's times whose finish is 0.
#[derive(Drop)]
pub(crate) struct Known {
    // for each item when it starts or is sent; `None` if it is inactive or not known yet
    times: Vec<Option<u64>>,
    // for each process when it ends; `None` if it is inactive or not known yet
    ends: Vec<Option<u64>>,
}

impl Model for Known {
    ghost use Rattle.cpg_run.specs.Run.{Times};

    ghost Value = { Times };

    ghost view = { λ k. record { times = k.times.items; ends = k.ends.items; finish = 0 } };
}

/// Returns the greatest of these ends, or 0 if there is none.
fn greatest_end(ends: &[Option<u64>]) -> u64
    ensures { result ≡ greatest (flat_map option_to_list ends.now) }
{
    let mut latest = 0;
    for end in ends {
        if let Some(end) = end {
            latest = latest.max(*end);
        }
    }
    latest
}

impl Known {
    /// Returns what is known at first: nothing, with a place for the time of each item and the end of each process of a graph.
    pub(crate) fn none(alloc: Global, problem: &Problem) -> Result<Known, OutOfMemory>
        ensures { IfOk result (λ known. known ≡ no_times problem.now) }
    {
        let processes = problem.processes().len();
        // an item is a start for each process, a message for each edge or a broadcast for each condition
        let items = processes + problem.edges().len() + problem.conditions() as usize;
        Ok(Known {
            times: vec![in alloc; None; items]?,
            ends: vec![in alloc; None; processes]?,
        })
    }

    /// Returns a copy of the times and ends.
    pub(crate) fn copy(&self) -> Result<Known, OutOfMemory>
        ensures { IfOk result (λ known. known ≡ self.now) }
    {
        Ok(Known {
            times: self.times.clone()?,
            ends: self.ends.clone()?,
        })
    }

    /// Returns the time of an item, and `None` exactly if none is known or the graph has no such item.
    pub(crate) fn time_if(&self, item: u32) -> Option<u64>
        ensures { result ≡ get_or self.now.times item None }
    {
        match self.times.get(item as usize) {
            Some(time) => *time,
            None => None,
        }
    }

    /// Returns the time of an item, or 0 if none is known.
    pub(crate) fn time(&self, item: u32) -> u64
        ensures { result ≡ time_in self.now item }
    {
        self.time_if(item).unwrap_or(0)
    }

    /// Returns the end of a process, or 0 if none is known.
    pub(crate) fn end(&self, process: u32) -> u64
        ensures { result ≡ end_in self.now process }
    {
        match self.ends.get(process as usize) {
            Some(end) => end.unwrap_or(0),
            None => 0,
        }
    }

    /// Sets the time of an item.
    pub(crate) fn set_time(&mut self, item: u32, time: u64)
        requires { item < length self.old.times }
        ensures { self.new ≡ record self.old { times = slice_set self.old.times item (Some time) } }
    {
        self.times[item as usize] = Some(time);
    }

    /// Sets the end of a process.
    pub(crate) fn set_end(&mut self, process: u32, end: u64)
        requires { process < length self.old.ends }
        ensures { self.new ≡ record self.old { ends = slice_set self.old.ends process (Some end) } }
    {
        self.ends[process as usize] = Some(end);
    }

    /// Returns a run with these times and ends, whose finish is the greatest end.
    pub(crate) fn finished(self) -> RunTimes
        ensures { result ≡ record self { finish = greatest (flat_map option_to_list self.ends) } }
    {
        let finish = greatest_end(self.ends.as_slice());
        RunTimes::new(self.times, self.ends, finish)
    }
}
