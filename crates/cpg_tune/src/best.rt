//! The best number of parts of a process.
ghost use Rattle.std.specs.Prelude.{◌≡◌, ◌<◌, ◌≤◌, ◌^◌, ℕ};
ghost use Rattle.cpg_base.specs.Graph.{process_count, process_at};
ghost use Rattle.cpg_base.specs.Limits.{IsProcessWithin};
ghost use Rattle.cpg_tune.specs.Best.{duration_in, best_of, IsBest};

use cpg_base::{MOST_PARTS, Problem, Process};

/// Returns how long an execution in `parts` parts lasts at most with `faults` faults, in time units.
fn duration_in(process: &Process, parts: u32, faults: u8) -> u64
    requires within { (nodes : ℕ) × IsProcessWithin nodes process.now }
    requires some { 1 ≤ parts }
    requires few { parts ≤ MOST_PARTS }
    requires faults { faults ≤ 8 }
    ensures { result ≡ duration_in process.now faults parts }
{
    // the detections and checkpoints of all parts
    let checked = u64::from(parts) * (process.alpha + process.chi);
    // what one fault costs: a recovery, and one part, rounded up, with its detection once more
    let again = process.mu + process.wcet.div_ceil(u64::from(parts)) + process.alpha;
    process.wcet + checked + u64::from(faults) * again
}

/// Returns the least number of parts from 1 to 255 with which an execution with `faults` faults is shortest.
fn best_of(process: &Process, faults: u8) -> u32
    requires within { (nodes : ℕ) × IsProcessWithin nodes process.now }
    requires faults { faults ≤ 8 }
    ensures { result ≡ best_of process.now faults }
{
    // a part lasts at least one unit: more parts than units of work only add detections and checkpoints; the lesser of
    // the two is at most 255, so the cast fits
    let most_parts = process.wcet.min(u64::from(MOST_PARTS)) as u32;
    let mut best = 1;
    let mut least = duration_in(process, best, faults);
    for parts in 1..most_parts + 1 {
        let duration = duration_in(process, parts, faults);
        // an equal one doesn't count, so the least number stays
        if duration < least {
            best = parts;
            least = duration;
        }
    }
    best
}

/// Returns the best number of parts of a process: the least from 1 to 255 with which an execution with all k faults is
/// shortest. It takes no memory.
pub fn best_parts_at(problem: &Problem, process: u32) -> u32
    requires { process < process_count problem.now }
    ensures parts { result ≡ best_of (process_at problem.now process) problem.now.faults }
    ensures best { IsBest (process_at problem.now process) problem.now.faults result }
{
    best_of(&problem.processes()[process as usize], problem.faults())
}
