//! The scenarios in which the source of an edge has the value that the edge asks for.
ghost use Rattle.std.specs.Prelude.{◌≡◌, ◌<◌, IfOk};
ghost use Rattle.cpg_base.specs.Graph.{condition_of, edge_at, edge_count, process_count, source};
ghost use Rattle.cpg_rules.specs.Guards.{is_passed, test_of};
ghost use Rattle.cpg_base.specs.Scenario.{Scenario};
ghost use Rattle.cpg_cube.specs.Cube.{matches};
ghost use Rattle.cpg_cube.specs.Fit.{IsKnown};

use crate::activity::value_literal;
use cpg_base::{OutOfMemory, Problem};
use cpg_cube::Cube;
use std::alloc::Global;

/// The cube of the scenarios in which the source of an edge has the value that the edge asks for: all of them if it
/// asks for none.
pub fn edge_cube(alloc: Global, problem: &Problem, edge: u32) -> Result<Cube, OutOfMemory>
    requires edge { edge < edge_count problem.now }
    requires source { source problem.now edge < process_count problem.now }
    ensures known { IfOk result (IsKnown problem.now) }
    ensures passed { IfOk result (λ cube. (s : Scenario) →
        matches cube s ≡ is_passed (test_of (condition_of problem.now (source problem.now edge)) (edge_at problem.now edge).when) s.values) }
{
    let edge = problem.edges()[edge as usize];
    let mut cube = Cube::whole(alloc);
    // a source without a condition has no value that could be asked for
    let Some(condition) = problem.condition_of(edge.from) else {
        return Ok(cube);
    };
    // the edge asks for no value
    let Some(value) = edge.when else {
        return Ok(cube);
    };
    cube.push(value_literal(condition, value))?;
    Ok(cube)
}
