//! A cube for each scenario, such as that of what a node carries on, or of what the items in its queue leave.
ghost use Rattle.std.specs.Prelude.{◌≡◌, [], IfOk, replicate, length};

use cpg_base::{OutOfMemory, Problem};
use cpg_cube::Cube;
use std::alloc::Global;
use std::marker::Model;

/// A cube for each scenario, in the order of the scenarios.
#[derive(Drop)]
pub(crate) struct Cubes {
    /// The cube of each scenario, in their order.
    pub(crate) cubes: Vec<Cube>,
}

impl Model for Cubes {
    ghost use Rattle.std.specs.Prelude.{List};
    ghost use Rattle.cpg_cube.specs.declared.literal.Literal.{Literal};

    ghost Value = { List (List Literal) };

    ghost view = { λ c. c.cubes.items };
}

impl Cubes {
    /// Returns `count` cubes that match every scenario.
    fn whole(alloc: Global, count: usize) -> Result<Cubes, OutOfMemory>
        ensures { IfOk result (λ cubes. cubes ≡ replicate count []) }
    {
        let mut cubes = Vec::new(alloc);
        cubes.reserve(count)?;
        for _ in 0..count {
            cubes.push(Cube::whole(alloc))?;
        }
        Ok(Cubes { cubes })
    }
}

/// Returns for each node of a graph `count` cubes that match every scenario, one for each scenario: at first a node carries
/// nothing on, and its queue leaves nothing.
pub(crate) fn whole_by_node(
    alloc: Global,
    problem: &Problem,
    count: usize,
) -> Result<Vec<Cubes>, OutOfMemory>
    ensures { IfOk result (λ nodes. nodes.items ≡ replicate (length problem.now.nodes) (replicate count [])) }
{
    let mut nodes = Vec::new(alloc);
    for _ in 0..problem.nodes().len() {
        nodes.push(Cubes::whole(alloc, count)?)?;
    }
    Ok(nodes)
}
