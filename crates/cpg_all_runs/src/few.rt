//! Whether a graph has so few scenarios that they can be listed.
ghost use Rattle.std.specs.Prelude.{◌≡◌, ◌≤◌, ◌↔◌, IsTrue, length};
ghost use Rattle.cpg_order.specs.Counting.{ways};
ghost use Rattle.cpg_order.specs.Scenario.{scenarios};

use cpg_base::{MOST_FAULTS, MOST_PROCESSES, Problem};

/// The most scenarios that a graph may have if they are to be listed one by one.
pub const MOST_SCENARIOS: u64 = 16_384;

/// The most conditions of a graph with few scenarios. Each condition doubles their number, and 2^14 is 16,384.
const MOST_DOUBLINGS: u32 = 14;

/// Returns in how many ways the fault counts of `counts` processes add up to at most `faults`: the binomial coefficient of
/// `counts + faults` over `faults`.
fn ways(counts: u64, faults: u8) -> u64
    requires counts { counts ≤ MOST_PROCESSES }
    requires faults { faults ≤ MOST_FAULTS }
    ensures { result ≡ ways counts faults }
{
    let mut ways = 1u64;
    // after n steps `ways` is the coefficient of `counts + n` over n, so the division is exact; with at most 128 processes
    // and 8 faults no product overflows
    for placed in 0..u64::from(faults) {
        ways = ways * (counts + placed + 1) / (placed + 1);
    }
    ways
}

/// Whether a graph has at most 16,384 scenarios.
pub fn has_few_scenarios(problem: &Problem) -> bool
    ensures { IsTrue result ↔ (length (scenarios problem.now) ≤ MOST_SCENARIOS) }
{
    let conditions = problem.conditions();
    // more conditions make too many scenarios, and the power below might overflow
    if conditions > MOST_DOUBLINGS {
        return false;
    }
    // each way of placing the faults goes with each outcome, of which there are 2^conditions
    let ways = ways(problem.processes().len() as u64, problem.faults());
    2u64.pow(conditions) * ways <= MOST_SCENARIOS
}
