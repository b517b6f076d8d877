//! Finds the greatest excess over all scenarios: how far an end is past its due at most.
ghost use Rattle.std.specs.Prelude.{◌≡◌, ◌≢◌, ◌<◌, ℕ, IfOk, IfSome, IfNone, length, map};
ghost use Rattle.cpg_base.specs.Graph.{process_count};
ghost use Rattle.cpg_run.specs.Finish.{excess_of, excess_in_run, IsLeastExceeding};
ghost use Rattle.cpg_all_runs.specs.Listing.{AreScenarios};
ghost use Rattle.cpg_all_runs.specs.Peaks.{IsFirstExceeding, IsExcessOfRuns};

use crate::peaks::Peak;
use crate::search::first_greatest;
use cpg_base::{OutOfMemory, Problem, Scenario};
use cpg_rules::Admitted;
use cpg_run::RunTimes;
use std::alloc::Global;

/// Returns how far the end of a process in a run is past its due: 0 if it ends in time or is inactive.
fn excess_of(problem: &Problem, times: &RunTimes, process: u32) -> u64
    requires { process < process_count problem.now }
    ensures { result ≡ excess_of problem.now times.now process }
{
    // an inactive process has no end, and 0 is past no due
    let end = times.end(process).unwrap_or(0);
    end.saturating_sub(problem.due(process))
}

/// Returns how far an end of a run is past its due at most: 0 if none is.
fn excess_in_run(problem: &Problem, times: &RunTimes) -> u64
    ensures { result ≡ excess_in_run problem.now times.now }
{
    let mut most = 0;
    for process in 0..problem.processes().len() as u32 {
        most = most.max(excess_of(problem, times, process));
    }
    most
}

/// Returns the first process by number whose end in a run is past its due by `excess`, and `None` exactly if there is none. An
/// end in time is past its due by 0.
fn first_exceeding(problem: &Problem, times: &RunTimes, excess: u64) -> Option<u32>
    ensures found { IfSome result (IsFirstExceeding problem.now times.now excess) }
    ensures none { IfNone result ((q : ℕ) → q < process_count problem.now → excess_of problem.now times.now q ≢ excess) }
{
    for process in 0..problem.processes().len() as u32 {
        if excess_of(problem, times, process) == excess {
            return Some(process);
        }
    }
    None
}

/// Returns the first process by number with the greatest excess of a run, and `None` exactly if no end is past its due.
fn most_exceeding(problem: &Problem, times: &RunTimes) -> Option<u32>
    ensures { IsLeastExceeding problem.now times.now (excess_in_run problem.now times.now) result }
{
    let excess = excess_in_run(problem, times);
    // an excess of 0 belongs to no process, though processes that end in time have it
    if excess == 0 {
        return None;
    }
    first_exceeding(problem, times, excess)
}

/// Returns the greatest excess of each run, in their order.
fn excesses(alloc: Global, problem: &Problem, runs: &[RunTimes]) -> Result<Vec<u64>, OutOfMemory>
    ensures { IfOk result (λ numbers. numbers.items ≡ map (excess_in_run problem.now) runs.now) }
{
    let mut numbers = Vec::new(alloc);
    numbers.reserve(runs.len())?;
    for run in runs {
        numbers.push(excess_in_run(problem, run))?;
    }
    Ok(numbers)
}

/// Returns how far an end is past its due at most over all scenarios of a graph, given all of them and the run of each. The
/// scenario of the peak is the first by the urgency order that has this excess, and its process the first by number that
/// has it there, or `None` if the excess is 0.
pub fn excess(
    alloc: Global,
    admitted: &Admitted,
    scenarios: &[Scenario],
    runs: &[RunTimes],
) -> Result<Peak, OutOfMemory>
    requires scenarios { AreScenarios admitted.now.graph scenarios.now }
    requires count { length runs.now ≡ length scenarios.now }
    ensures { IfOk result (λ peak. IsExcessOfRuns admitted.now.graph admitted.now.order scenarios.now runs.now peak.time peak.scenario peak.process) }
{
    let numbers = excesses(alloc, admitted.problem(), runs)?;
    // the place of the least scenario with the greatest excess
    let at = first_greatest(
        admitted.problem(),
        admitted.order(),
        scenarios,
        numbers.as_slice(),
    );
    let process = most_exceeding(admitted.problem(), &runs[at]);
    let scenario = scenarios[at].copy()?;
    Ok(Peak {
        time: numbers[at],
        scenario,
        process,
    })
}
