//! The greatest finish and the greatest excess, found from the trees of the ends.
ghost use Rattle.std.specs.Prelude.{◌≡◌, ◌<◌, All, IfOk, IsPermutation, None, length};
ghost use Rattle.cpg_base.specs.Graph.{process_count};
ghost use Rattle.cpg_base.specs.Numbers.{numbers_below};
ghost use Rattle.cpg_base.specs.Scenario.{zero_scenario, IsScenario};
ghost use Rattle.cpg_tree.specs.GraphTrees.{IsTree};
ghost use Rattle.cpg_tree_columns.specs.Peaks.{EndsAt, EndsPast, IsNextExcess, IsNextPeak, IsPeak, goes_before, or_time};
ghost use Rattle.cpg_tree_columns.specs.Tops.{AreTops};

use crate::past::past;
use crate::peaks::greatest;
use crate::tops::{bar_of, past_tops, reaches};
use cpg_base::{Order, OutOfMemory, Problem, Scenario, is_before};
use cpg_tree::{OptionalTime, Tree};
use std::alloc::Global;

/// The greatest time that a process has in any scenario, in time units: an end, or how far one is past its due.
#[derive(Drop)]
pub struct Peak {
    /// The time; 0 if no process has one.
    pub time: u64,
    /// The least scenario that has it by the urgency order; the one without faults, all values false, if no process
    /// has one.
    pub scenario: Scenario,
    /// The least process that has it there; `None` if no process has one.
    pub process: Option<u32>,
}

impl Peak {
    /// Returns the peak of no process: 0, in the scenario without faults whose values are all false.
    fn none(alloc: Global, problem: &Problem) -> Result<Peak, OutOfMemory>
        ensures { IfOk result (λ peak. peak ≡ record { time = 0; scenario = zero_scenario problem.now; process = None }) }
    {
        let scenario = Scenario::zero(alloc, problem)?;
        Ok(Peak {
            time: 0,
            scenario,
            process: None,
        })
    }

    /// Whether a time that a later process first has in `scenario` takes the place of this peak: the peak has no
    /// process, the time is greater, or it is the same and its scenario is earlier.
    fn is_under(&self, problem: &Problem, urgency: &Order, time: u64, scenario: &Scenario) -> bool
        requires order { length urgency.now ≡ process_count problem.now }
        requires own { IsScenario problem.now self.now.scenario }
        requires scenario { IsScenario problem.now scenario.now }
        ensures { result ≡ goes_before problem.now urgency.now self.now time scenario.now }
    {
        match self.process {
            // no process has a time yet
            None => true,
            Some(_) => {
                if self.time == time {
                    is_before(problem, urgency, scenario, &self.scenario)
                } else {
                    self.time < time
                }
            }
        }
    }

    /// Returns the peak with a later process, which first has `time` in `scenario`: that time if it goes before this
    /// peak, and this peak otherwise.
    fn or_time(
        self,
        problem: &Problem,
        urgency: &Order,
        time: u64,
        scenario: Scenario,
        process: u32,
    ) -> Peak
        requires order { length urgency.now ≡ process_count problem.now }
        requires own { IsScenario problem.now self.scenario }
        requires scenario { IsScenario problem.now scenario }
        ensures { result ≡ or_time problem.now urgency.now self time scenario process }
    {
        if self.is_under(problem, urgency, time, &scenario) {
            Peak {
                time,
                scenario,
                process: Some(process),
            }
        } else {
            self
        }
    }

    /// Returns the peak with a later process, whose times `tree` has; if it has none, the peak stays.
    fn or(
        self,
        problem: &Problem,
        urgency: &Order,
        tree: &Tree<OptionalTime>,
        process: u32,
    ) -> Result<Peak, OutOfMemory>
        requires order { IsPermutation (numbers_below (process_count problem.now)) urgency.now }
        requires own { IsScenario problem.now self.scenario }
        requires tree { IsTree problem.now tree.now }
        ensures { IfOk result (IsNextPeak problem.now urgency.now tree.now.paths process self) }
    {
        match greatest(tree, problem, urgency)? {
            Some(greatest) => Ok(self.or_time(problem, urgency, greatest.0, greatest.1, process)),
            None => Ok(self),
        }
    }

    /// Returns the peak with a later process that ends as `end` says, of how far ends are past their dues.
    fn or_past(
        self,
        problem: &Problem,
        urgency: &Order,
        end: &Tree<OptionalTime>,
        process: u32,
    ) -> Result<Peak, OutOfMemory>
        requires order { IsPermutation (numbers_below (process_count problem.now)) urgency.now }
        requires process { process < process_count problem.now }
        requires own { IsScenario problem.now self.scenario }
        requires tree { IsTree problem.now end.now }
        ensures { IfOk result (IsNextExcess problem.now urgency.now end.now process self) }
    {
        let past = past(end, problem.due(process))?;
        let peak = self.or(problem, urgency, &past, process)?;
        Ok(peak)
    }
}

/// Returns the greatest finish, by the ends of the processes and the greatest of each.
pub fn worst(
    alloc: Global,
    problem: &Problem,
    urgency: &Order,
    ends: &[Tree<OptionalTime>],
    tops: &[Option<u64>],
) -> Result<Peak, OutOfMemory>
    requires order { IsPermutation (numbers_below (process_count problem.now)) urgency.now }
    requires count { length ends.now ≡ process_count problem.now }
    requires trees { All (IsTree problem.now) ends.now }
    requires tops { AreTops ends.now (length ends.now) tops.now }
    ensures { IfOk result (IsPeak problem.now urgency.now (process_count problem.now) (EndsAt problem.now ends.now)) }
{
    let bar = bar_of(tops);
    let mut peak = Peak::none(alloc, problem)?;
    // a graph has at most 128 processes, so their numbers fit a `u32`
    for process in 0..problem.processes().len() as u32 {
        // a tree whose greatest end is under the bar can't have the greatest finish
        if reaches(bar, tops[process as usize]) {
            peak = peak.or(problem, urgency, &ends[process as usize], process)?;
        }
    }
    Ok(peak)
}

/// Returns how far an end is past its due at most, by the ends of the processes and the greatest of each.
pub fn excess(
    alloc: Global,
    problem: &Problem,
    urgency: &Order,
    ends: &[Tree<OptionalTime>],
    tops: &[Option<u64>],
) -> Result<Peak, OutOfMemory>
    requires order { IsPermutation (numbers_below (process_count problem.now)) urgency.now }
    requires count { length ends.now ≡ process_count problem.now }
    requires trees { All (IsTree problem.now) ends.now }
    requires tops { AreTops ends.now (length ends.now) tops.now }
    ensures { IfOk result (IsPeak problem.now urgency.now (process_count problem.now) (EndsPast problem.now ends.now)) }
{
    let past = past_tops(alloc, problem, tops)?;
    let bar = bar_of(past.as_slice());
    let mut peak = Peak::none(alloc, problem)?;
    // a graph has at most 128 processes, so their numbers fit a `u32`
    for process in 0..problem.processes().len() as u32 {
        // an end that is less late than the bar, or not late, can't be the greatest excess
        if reaches(bar, past[process as usize]) {
            peak = peak.or_past(problem, urgency, &ends[process as usize], process)?;
        }
    }
    Ok(peak)
}
