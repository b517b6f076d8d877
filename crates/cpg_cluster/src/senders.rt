//! Which node sends an item, and with which value.
ghost use Rattle.std.specs.Prelude.{◌≡◌, ◌<◌, ◌&&◌, IfOk, All, false, get_or, is_some, map, unwrap_or};
ghost use Rattle.cpg_base.specs.Graph.{home, item_at, item_count};
ghost use Rattle.cpg_base.specs.Scenario.{IsScenario};
ghost use Rattle.cpg_cluster.specs.Taking.{value_of_item};

use cpg_base::{Item, OutOfMemory, Problem, Scenario};
use cpg_table::Row;
use std::alloc::Global;

/// Returns the node that sends the item of each row. The one error is that memory runs out.
pub fn senders_of(alloc: Global, problem: &Problem, rows: &[Row]) -> Result<Vec<u32>, OutOfMemory>
    requires { All (λ row. row.item < item_count problem.now) rows.now }
    ensures { IfOk result (λ senders. senders.items ≡ map (λ row. home problem.now row.item) rows.now) }
{
    let mut senders = Vec::new(alloc);
    for row in rows {
        senders.push(problem.home(row.item()))?;
    }
    Ok(senders)
}

/// Returns the value of a condition in a scenario, or false if the graph has no such condition.
fn value_of(problem: &Problem, scenario: &Scenario, condition: u32) -> bool
    requires { IsScenario problem.now scenario.now }
    ensures { result ≡ get_or scenario.now.values condition false }
{
    if condition < problem.conditions() {
        scenario.value(condition)
    } else {
        false
    }
}

/// Returns the value that a frame of an item carries: for a broadcast, that of its condition; otherwise false.
pub fn value_of_item(problem: &Problem, scenario: &Scenario, item: u32) -> bool
    requires scenario { IsScenario problem.now scenario.now }
    requires item { item < item_count problem.now }
    ensures { result ≡ value_of_item scenario.now.values (item_at problem.now item) }
{
    match problem.item(item) {
        Item::Broadcast(condition) => scenario.value(condition),
        Item::Start(_) | Item::Message(_) => false,
    }
}

/// Returns the value, in a scenario, of a process with this condition, or false if it has none, or one that the graph
/// hasn't.
pub fn value_of_process(problem: &Problem, scenario: &Scenario, condition: Option<u32>) -> bool
    requires { IsScenario problem.now scenario.now }
    ensures { result ≡ (is_some condition && get_or scenario.now.values (unwrap_or condition 0) false) }
{
    match condition {
        Some(condition) => value_of(problem, scenario, condition),
        None => false,
    }
}
