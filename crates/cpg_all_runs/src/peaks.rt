//! Finds the greatest finish over all scenarios, with the first scenario and process that have it.
ghost use Rattle.std.specs.Prelude.{◌≡◌, ◌≢◌, ◌<◌, ◌↔◌, ℕ, IfOk, IfSome, IfNone, IsTrue, Some, None, get_or, length, map};
ghost use Rattle.cpg_all_runs.specs.Listing.{AreScenarios};
ghost use Rattle.cpg_all_runs.specs.Peaks.{IsFirstEnding, IsWorstOfRuns};

use crate::search::first_greatest;
use cpg_base::{OutOfMemory, Scenario};
use cpg_rules::Admitted;
use cpg_run::RunTimes;
use std::alloc::Global;

/// The greatest finish or the greatest excess over all scenarios, with the first scenario and process that have it.
#[derive(Drop)]
pub struct Peak {
    /// The finish or the excess, in time units.
    pub time: u64,
    /// The first scenario by the urgency order that has this finish or excess.
    pub scenario: Scenario,
    /// The first process by number that ends at this finish, or has this excess, in that scenario. `None` for the finish of
    /// a graph without processes, and for an excess of 0.
    pub process: Option<u32>,
}

/// Returns the finish of each run, in their order.
fn finishes(alloc: Global, runs: &[RunTimes]) -> Result<Vec<u64>, OutOfMemory>
    ensures { IfOk result (λ numbers. numbers.items ≡ map (λ t. t.finish) runs.now) }
{
    let mut numbers = Vec::new(alloc);
    numbers.reserve(runs.len())?;
    for run in runs {
        numbers.push(run.finish())?;
    }
    Ok(numbers)
}

/// Whether a process is active in a run and ends at this time.
fn ends_at(times: &RunTimes, process: u32, time: u64) -> bool
    ensures { IsTrue result ↔ (get_or times.now.ends process None ≡ Some time) }
{
    match times.end(process) {
        Some(end) => end == time,
        None => false,
    }
}

/// Returns the least process with a number below `processes` that ends at a time, and `None` exactly if none does.
fn first_ending(times: &RunTimes, processes: u32, time: u64) -> Option<u32>
    ensures found { IfSome result (λ p. IsFirstEnding times.now time p) }
    ensures none { IfNone result ((q : ℕ) → q < processes → get_or times.now.ends q None ≢ Some time) }
{
    for process in 0..processes {
        if ends_at(times, process, time) {
            return Some(process);
        }
    }
    None
}

/// Returns the greatest finish over all scenarios of a graph, given all of them and the run of each. The scenario of the
/// peak is the first by the urgency order that has it, and its process the first by number that ends then in that scenario,
/// or `None` if the graph has no process.
pub fn worst(
    alloc: Global,
    admitted: &Admitted,
    scenarios: &[Scenario],
    runs: &[RunTimes],
) -> Result<Peak, OutOfMemory>
    requires scenarios { AreScenarios admitted.now.graph scenarios.now }
    requires count { length runs.now ≡ length scenarios.now }
    ensures { IfOk result (λ peak. IsWorstOfRuns admitted.now.graph admitted.now.order scenarios.now runs.now peak.time peak.scenario peak.process) }
{
    let numbers = finishes(alloc, runs)?;
    // the place of the least scenario with the greatest finish
    let at = first_greatest(
        admitted.problem(),
        admitted.order(),
        scenarios,
        numbers.as_slice(),
    );
    let times = &runs[at];
    let processes = admitted.problem().processes().len() as u32;
    let process = first_ending(times, processes, times.finish());
    let scenario = scenarios[at].copy()?;
    Ok(Peak {
        time: numbers[at],
        scenario,
        process,
    })
}
