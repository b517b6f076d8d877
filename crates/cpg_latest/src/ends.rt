//! Finds the latest end of a process with a number of faults.
ghost use Rattle.std.specs.Prelude.{◌≡◌, ◌<◌, ◌≤◌, ◌^◌};
ghost use Rattle.cpg_base.specs.Graph.{process_count};
ghost use Rattle.cpg_latest.specs.Course.{end_after};

use cpg_base::Problem;

/// Returns the latest end of a process with a number of faults, in time units. Given are its latest start with as many
/// faults and, in `last`, its latest end with one fault less. Either all faults delay the start and the execution has
/// none, or it has one more than the execution that ended at `last`. Without faults `last` isn't used.
pub(crate) fn latest_end(
    problem: &Problem,
    process: u32,
    faults: usize,
    start: u64,
    last: u64,
) -> u64
    requires process { process < process_count problem.now }
    requires faults { faults ≤ problem.now.faults }
    requires start { start < 2 ^ 60 }
    requires last { last < 2 ^ 60 }
    ensures { result ≡ end_after problem.now process faults start last }
{
    let faultless = problem.duration(process, 0);
    // there is no end with one fault less than none
    if faults == 0 {
        return start + faultless;
    }
    // how much longer an execution is for each fault
    let per_fault = problem.duration(process, 1) - faultless;
    (start + faultless).max(last + per_fault)
}
