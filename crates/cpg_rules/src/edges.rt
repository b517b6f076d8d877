//! When edges are live.
ghost use Rattle.std.specs.Prelude.{◌≡◌, ◌<◌, IfOk, map};
ghost use Rattle.cpg_base.specs.Graph.{edge_count};
ghost use Rattle.cpg_base.specs.Numbers.{numbers_below};
ghost use Rattle.cpg_rules.specs.Guards.{edge_guard_of, test_of};

use cpg_base::{OutOfMemory, Problem};
use std::alloc::Global;

/// A test, which passes if a condition has a value.
#[derive(Clone, Copy, Debug, PartialEq, Eq)]
pub struct ValueTest {
    /// The number of the condition.
    pub condition: u32,
    /// The value that it has to have.
    pub value: bool,
}

/// When an edge is live: its source is active and the test passes, if there is one.
#[derive(Clone, Copy, Debug, PartialEq, Eq)]
pub struct EdgeGuard {
    /// The number of the process that the edge leads away from.
    pub source: u32,
    /// The test that the source's condition has to pass; `None` if the edge has no `when`.
    pub test: Option<ValueTest>,
}

/// Returns the test of an edge with this `when`, by the condition of its source, and `None` if it has no `when` or the
/// source no condition.
pub fn test_of(condition: Option<u32>, when: Option<bool>) -> Option<ValueTest>
    ensures { result ≡ test_of condition when }
{
    let condition = condition?;
    let value = when?;
    Some(ValueTest { condition, value })
}

/// Returns the guard of each edge of the graph, by number.
pub fn edge_guards(alloc: Global, problem: &Problem) -> Result<Vec<EdgeGuard>, OutOfMemory>
    ensures { IfOk result (λ guards. guards.items ≡ map (edge_guard_of problem.now) (numbers_below (edge_count problem.now))) }
{
    let edges = problem.edges();
    let mut guards = Vec::new(alloc);
    guards.reserve(edges.len())?;
    for edge in edges {
        guards.push(EdgeGuard {
            source: edge.from,
            test: test_of(problem.condition_of(edge.from), edge.when),
        })?;
    }
    Ok(guards)
}
