//! Scenarios that show all runs of a graph.
ghost use Rattle.std.specs.Prelude.{◌≡◌, IfOk, length};
ghost use Rattle.cpg_base.specs.Graph.{Graph};
ghost use Rattle.cpg_all_runs.specs.Active.{AreExamples};
ghost use Rattle.cpg_all_runs.specs.FirstAlike.{AreFirstAlike};
ghost use Rattle.cpg_all_runs.specs.Listing.{AreScenarios};

use cpg_base::{OutOfMemory, Scenario};
use std::alloc::Global;

/// Returns the first scenario with each list of active numbers, given all scenarios and the result of `first_alike` for
/// them. Each scenario of the graph has the same runs as one of these.
pub(crate) fn examples(
    alloc: Global,
    scenarios: &[Scenario],
    firsts: &[usize],
) -> Result<Vec<Scenario>, OutOfMemory>
    requires { length firsts.now ≡ length scenarios.now }
    ensures { IfOk result (λ list. (g : Graph) → AreScenarios g scenarios.now → AreFirstAlike g scenarios.now firsts.now → AreExamples g list.items) }
{
    let mut list = Vec::new(alloc);
    for at in 0..scenarios.len() {
        // it is itself the first scenario with its active numbers
        if firsts[at] == at {
            list.push(scenarios[at].copy()?)?;
        }
    }
    Ok(list)
}
