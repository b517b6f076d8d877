//! The least scenario that two cubes match.
ghost use Rattle.std.specs.Prelude.{◌≡◌, ◌≢◌, ◌&&◌, ℕ, IfOk, IsTrue, List};
ghost use Rattle.cpg_base.specs.First.{IsFirst};
ghost use Rattle.cpg_base.specs.Scenario.{IsLeast};
ghost use Rattle.cpg_cube.specs.Cube.{matches};
ghost use Rattle.cpg_cube.specs.Fit.{IsKnown};
ghost use Rattle.cpg_violation.specs.Room.{HasRoom};

use cpg_base::{OutOfMemory, Problem, Scenario};
use cpg_cube::Cube;

/// The least scenario that two cubes match, and `None` exactly if no scenario matches both. Any scenario of the graph
/// may be passed as `room`: it becomes the least one, even if no memory is left for its copy, and stays as it was if
/// there is none.
pub fn met(
    problem: &Problem,
    cube: &Cube,
    other: &Cube,
    room: &mut Scenario,
) -> Result<Option<Scenario>, OutOfMemory>
    requires first { IsKnown problem.now cube.now }
    requires second { IsKnown problem.now other.now }
    requires room { HasRoom problem.now room.old }
    ensures room { HasRoom problem.now room.new }
    ensures first { IfOk result (λ r. (order : List ℕ) → IsFirst problem.now order (λ s. matches cube.now s && matches other.now s) r) }
    ensures apart { result ≡ Ok None → room.new ≡ room.old }
    ensures least { result ≢ Ok None → (order : List ℕ) → IsLeast problem.now order (λ s. IsTrue (matches cube.now s && matches other.now s)) room.new }
{
    if !cube.meets(other, problem, room) {
        return Ok(None);
    }
    let least = room.copy()?;
    Ok(Some(least))
}
