//! How long an execution takes at most.
ghost use Rattle.std.specs.Prelude.{◌≤◌, ◌<◌, ◌^◌};
ghost use Rattle.cpg_base.specs.Duration.{duration};
ghost use Rattle.cpg_base.specs.Graph.{process_count};
ghost use Rattle.cpg_base.specs.Scenario.{Scenario, IsScenario, fault_of};
ghost use Rattle.cpg_tree.specs.Space.{IsInSpace};

use cpg_base::Problem;
use cpg_tree::Space;

/// How long an execution of a process takes at most in the scenarios of a space: with the most faults that the space
/// leaves it.
pub(crate) fn longest(problem: &Problem, process: u32, space: &Space) -> u64
    requires { process < process_count problem.now }
    ensures most { (s : Scenario) → IsScenario problem.now s → IsInSpace space.now s → duration problem.now process (fault_of s process) ≤ result }
    ensures short { result < 2 ^ 40 }
{
    let faults = problem.faults();
    // the variable of a fault count has the number of its process
    let most = space.most(process as u8);
    problem.duration(process, most.min(faults))
}
