//! Finds the first scenario that has the greatest of given numbers.
ghost use Rattle.std.specs.Prelude.{◌≡◌, ◌<◌, All, true, false, length};
ghost use Rattle.cpg_base.specs.Graph.{process_count};
ghost use Rattle.cpg_base.specs.Scenario.{IsScenario, is_before};
ghost use Rattle.cpg_all_runs.specs.Peaks.{IsFirstGreatest};

use cpg_base::{Order, Problem, Scenario, is_before};

/// Whether a scenario's number is greater than the other's, or equal and the scenario comes before the other in the
/// urgency order.
fn goes_first(
    problem: &Problem,
    urgency: &Order,
    number: u64,
    scenario: &Scenario,
    other_number: u64,
    other: &Scenario,
) -> bool
    requires urgency { length urgency.now ≡ process_count problem.now }
    requires scenario { IsScenario problem.now scenario.now }
    requires other { IsScenario problem.now other.now }
    ensures above { other_number < number → result ≡ true }
    ensures below { number < other_number → result ≡ false }
    ensures level { number ≡ other_number → result ≡ is_before problem.now urgency.now scenario.now other.now }
{
    if number != other_number {
        return number > other_number;
    }
    is_before(problem, urgency, scenario, other)
}

/// Returns the place of the greatest of the numbers of scenarios, of which there is at least one. If several are as great, it
/// is the place of the one whose scenario comes first in the urgency order. `numbers` has the number of each scenario.
pub(crate) fn first_greatest(
    problem: &Problem,
    urgency: &Order,
    scenarios: &[Scenario],
    numbers: &[u64],
) -> usize
    requires urgency { length urgency.now ≡ process_count problem.now }
    requires scenarios { All (IsScenario problem.now) scenarios.now }
    requires long { length numbers.now ≡ length scenarios.now }
    requires some { 0 < length scenarios.now }
    ensures { IsFirstGreatest problem.now urgency.now (length scenarios.now) scenarios.now numbers.now result }
{
    // there is at least one scenario, and each later one is compared with the first greatest so far
    let mut at = 0;
    for next in 1..scenarios.len() {
        if goes_first(
            problem,
            urgency,
            numbers[next],
            &scenarios[next],
            numbers[at],
            &scenarios[at],
        ) {
            at = next;
        }
    }
    at
}
