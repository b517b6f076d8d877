//! Which of two scenarios comes before the other.
ghost use Rattle.std.specs.Prelude.{◌≡◌, ◌<◌, ◌∷◌, ℕ, List, IfNone, IfSome, length};
ghost use Rattle.cpg_base.specs.Graph.{process_count};
ghost use Rattle.cpg_base.specs.Scenario.{IsScenario, is_before};

use crate::{Order, Problem, Scenario};

/// Compares two scenarios at one process. Returns whether the first has fewer faults there, or as many and a false
/// condition where the second has a true one; `None` exactly if both have as many faults there and the same value of
/// the process's condition, if it has one.
fn at_process(problem: &Problem, process: u32, first: &Scenario, second: &Scenario) -> Option<bool>
    requires process { process < process_count problem.now }
    requires first { IsScenario problem.now first.now }
    requires second { IsScenario problem.now second.now }
    // whatever processes follow in the order, the answer is that of the whole comparison
    ensures differ { IfSome result (λ before. (rest : List ℕ) → is_before problem.now (process ∷ rest) first.now second.now ≡ before) }
    // without an answer here, the processes that follow decide
    ensures same { IfNone result ((rest : List ℕ) →
        is_before problem.now (process ∷ rest) first.now second.now ≡ is_before problem.now rest first.now second.now) }
{
    let faults = first.fault(process);
    let others = second.fault(process);
    // fewer faults come first
    if faults != others {
        return Some(faults < others);
    }
    // without a condition there is nothing else to compare
    let Some(condition) = problem.condition_of(process) else {
        return None;
    };
    let value = first.value(condition);
    // of two values, false comes first
    if value != second.value(condition) {
        return Some(!value);
    }
    None
}

/// Returns whether the first scenario comes before the second: at the first process in the order at which they differ,
/// the first has fewer faults, or as many and a false value of the process's condition. If they don't differ, it
/// doesn't come before the second.
pub fn is_before(problem: &Problem, order: &Order, first: &Scenario, second: &Scenario) -> bool
    requires order { length order.now ≡ process_count problem.now }
    requires first { IsScenario problem.now first.now }
    requires second { IsScenario problem.now second.now }
    ensures { result ≡ is_before problem.now order.now first.now second.now }
{
    for process in order.processes() {
        // the first process at which they differ decides
        if let Some(before) = at_process(problem, *process, first, second) {
            return before;
        }
    }
    // they are alike at all processes, so neither comes before the other
    false
}
