//! The times of a run.
ghost use Rattle.std.specs.Prelude.{◌≡◌, IfOk, None, get_or};
ghost use Rattle.cpg_run.specs.Latest.{later};

use cpg_base::OutOfMemory;
use std::marker::Model;

/// The times of a run, in time units: when each item starts or is sent, when each process ends, and when all have ended.
#[derive(Drop)]
pub struct RunTimes {
    // for each item when it starts or is sent; `None` if it is inactive
    times: Vec<Option<u64>>,
    // for each process when it ends; `None` if it is inactive
    ends: Vec<Option<u64>>,
    // the greatest end, or 0 if there is none
    finish: u64,
}

impl Model for RunTimes {
    ghost use Rattle.cpg_run.specs.Run.{Times};

    ghost Value = { Times };

    ghost view = { λ t. record { times = t.times.items; ends = t.ends.items; finish = t.finish } };
}

impl RunTimes {
    /// Returns the times of a run: for each item its time, for each process its end, and the finish, each as given.
    pub fn new(times: Vec<Option<u64>>, ends: Vec<Option<u64>>, finish: u64) -> RunTimes
        ensures { result ≡ record { times = times.items; ends = ends.items; finish = finish } }
    {
        RunTimes {
            times,
            ends,
            finish,
        }
    }

    /// Returns the time of an item, and `None` exactly if it is inactive or the graph has no such item.
    pub fn time(&self, item: u32) -> Option<u64>
        ensures { result ≡ get_or self.now.times item None }
    {
        match self.times.get(item as usize) {
            Some(time) => *time,
            None => None,
        }
    }

    /// Returns the end of a process, and `None` exactly if it is inactive or the graph has no such process.
    pub fn end(&self, process: u32) -> Option<u64>
        ensures { result ≡ get_or self.now.ends process None }
    {
        match self.ends.get(process as usize) {
            Some(end) => *end,
            None => None,
        }
    }

    /// Returns the greatest end, or 0 if there is none.
    pub fn finish(&self) -> u64
        ensures { result ≡ self.now.finish }
    {
        self.finish
    }

    /// Returns a copy of the times.
    pub fn copy(&self) -> Result<RunTimes, OutOfMemory>
        ensures { IfOk result (λ copy. copy ≡ self.now) }
    {
        Ok(RunTimes {
            times: self.times.clone()?,
            ends: self.ends.clone()?,
            finish: self.finish,
        })
    }
}

/// Returns the later of two times, the one that there is if there is only one, and `None` if there is none.
pub fn later(one: Option<u64>, other: Option<u64>) -> Option<u64>
    ensures { result ≡ later one other }
{
    let Some(time) = one else {
        return other;
    };
    match other {
        Some(other_time) => Some(time.max(other_time)),
        None => Some(time),
    }
}
