//! How long items last at most: executions, frames and sends.
ghost use Rattle.std.specs.Prelude.{◌<◌};
ghost use Rattle.std.specs.Bool.{OnTrue};
ghost use Rattle.cpg_base.specs.Graph.{Graph, process_count};
ghost use Rattle.cpg_base.specs.Scenario.{Scenario};
ghost use Rattle.cpg_tree.specs.Space.{IsInSpace};
ghost use Rattle.cpg_check_quick.specs.Order.{execution};
ghost use Rattle.cpg_check_quick.specs.SpannedRows.{IsPast, IsSpan};

use cpg_base::{MOST_FAULTS, Problem};
use cpg_tree::Space;

/// How many fault counts a process can have: one for each number from 0 to the most faults.
const COUNTS: usize = MOST_FAULTS as usize + 1;

/// How long an item lasts at most, in time units, by the number of a variable: the fault count of its process, if it is
/// a start.
#[derive(Clone, Copy)]
pub(crate) struct ItemSpan {
    /// The variable; any one, if all lengths are the same.
    pub(crate) variable: u8,
    /// At each number how long the item lasts at most if the variable is at most that number.
    pub(crate) lengths: [u64; COUNTS],
    /// How long the item lasts at most, whatever number the variable has.
    pub(crate) longest: u64,
}

impl ItemSpan {
    /// How long an execution of a process lasts at most, by its faults.
    pub(crate) fn of_execution(problem: &Problem, process: u32) -> ItemSpan
        requires { process < process_count problem.now }
        ensures { IsSpan problem.now (execution problem.now process) result }
    {
        let faults = problem.faults();
        let mut lengths = [0; COUNTS];
        for count in 0..COUNTS {
            // the graph may allow fewer faults than `MOST_FAULTS`, to which the counts go here
            lengths[count] = problem.duration(process, faults.min(count as u8));
        }
        ItemSpan {
            // the variable of a fault count has the number of its process
            variable: process as u8,
            lengths,
            longest: problem.duration(process, faults),
        }
    }

    /// One time unit, for sends: two are apart exactly if they are at different times.
    pub(crate) fn one() -> ItemSpan
        ensures { (g : Graph) → IsSpan g (λ _. 1) result }
    {
        ItemSpan {
            variable: 0,
            lengths: [1; COUNTS],
            longest: 1,
        }
    }

    /// The same length in every scenario, for frames.
    pub(crate) fn fixed(length: u64) -> ItemSpan
        ensures { (g : Graph) → IsSpan g (λ _. length) result }
    {
        ItemSpan {
            variable: 0,
            lengths: [length; COUNTS],
            longest: length,
        }
    }

    /// Whether an item that begins at `start` is over by `time` in all scenarios of a space. False guarantees nothing.
    pub(crate) fn is_past(&self, start: u64, time: u64, space: &Space) -> bool
        ensures { OnTrue result ((s : Scenario) → IsInSpace space.now s → IsPast self.now start time s) }
    {
        let most = space.most(self.variable);
        // no length is known for so many; a graph's spaces have no such number
        if most > MOST_FAULTS {
            return false;
        }
        // it begins later
        if time < start {
            return false;
        }
        self.lengths[most as usize] <= time - start
    }
}
