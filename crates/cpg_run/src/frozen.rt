//! Frozen times.
ghost use Rattle.std.specs.Prelude.{◌≡◌, ◌<◌, IfOk, None, Some, length, slice_set, get_or};
ghost use Rattle.cpg_run.specs.Frozen.{nothing_frozen};

use cpg_base::{OutOfMemory, Problem};
use std::alloc::Global;
use std::marker::Model;

/// The times of frozen items, in time units: for each item its frozen time, or `None` if it has none.
#[derive(Drop)]
pub struct FrozenTimes {
    times: Vec<Option<u64>>,
}

impl Model for FrozenTimes {
    ghost use Rattle.std.specs.Prelude.{List, Option, ℕ};

    ghost Value = { List (Option ℕ) };

    ghost view = { λ f. f.times.items };
}

impl FrozenTimes {
    /// Returns frozen times in which none is set yet, with a place for each item of a graph.
    pub fn none(alloc: Global, problem: &Problem) -> Result<FrozenTimes, OutOfMemory>
        ensures { IfOk result (λ frozen. frozen ≡ nothing_frozen problem.now) }
    {
        // an item is a start for each process, a message for each edge or a broadcast for each condition
        let items = problem.processes().len()
            + problem.edges().len()
            + problem.conditions() as usize;
        Ok(FrozenTimes {
            times: vec![in alloc; None; items]?,
        })
    }

    /// Returns the frozen time of an item, and `None` exactly if none was set.
    pub fn time_of(&self, item: u32) -> Option<u64>
        requires { item < length self.now }
        ensures { result ≡ get_or self.now item None }
    {
        self.times[item as usize]
    }

    /// Sets the frozen time of an item.
    pub fn set(&mut self, item: u32, time: u64)
        requires { item < length self.old }
        ensures { self.new ≡ slice_set self.old item (Some time) }
    {
        self.times[item as usize] = Some(time);
    }

    /// Returns a copy of the frozen times.
    pub fn copy(&self) -> Result<FrozenTimes, OutOfMemory>
        ensures { IfOk result (λ frozen. frozen ≡ self.now) }
    {
        Ok(FrozenTimes {
            times: self.times.clone()?,
        })
    }
}
