//! Finds which scenarios have the same active numbers, and so the same runs.
ghost use Rattle.std.specs.Prelude.{All, IfOk};
ghost use Rattle.cpg_base.specs.Scenario.{IsScenario};
ghost use Rattle.cpg_all_runs.specs.FirstAlike.{AreFirstAlike};
ghost use Rattle.cpg_all_runs.specs.Placed.{GetsPlace};

use crate::active::active_numbers;
use cpg_base::{OutOfMemory, Scenario};
use cpg_rules::Admitted;
use std::alloc::Global;
use std::collections::BTreeMap;

/// Returns the place that a list of numbers has in the map. If the list has none yet, it gets the place `at`, which is
/// returned.
fn kept_place(
    places: &mut BTreeMap<Vec<u16>, usize>,
    numbers: Vec<u16>,
    at: usize,
) -> Result<usize, OutOfMemory>
    ensures { IfOk result (λ place. GetsPlace numbers at places.old.entries places.new.entries place) }
{
    if let Some(place) = places.get(numbers.as_slice()) {
        return Ok(*place);
    }
    places.insert(numbers, at)?;
    Ok(at)
}

/// Returns for each scenario of a list the place of the first one with the same active numbers, its own place if no
/// earlier one has them. The scenarios at both places have the same runs.
pub fn first_alike(
    alloc: Global,
    admitted: &Admitted,
    scenarios: &[Scenario],
) -> Result<Vec<usize>, OutOfMemory>
    requires { All (IsScenario admitted.now.graph) scenarios.now }
    ensures { IfOk result (λ firsts. AreFirstAlike admitted.now.graph scenarios.now firsts.items) }
{
    let problem = admitted.problem();
    let guards = admitted.guards();
    // for each list of active numbers met so far the place of the first scenario that has it
    let mut places = BTreeMap::new(alloc);
    let mut firsts = Vec::new(alloc);
    firsts.reserve(scenarios.len())?;
    for at in 0..scenarios.len() {
        let numbers = active_numbers(alloc, problem, guards, &scenarios[at])?;
        firsts.push(kept_place(&mut places, numbers, at)?)?;
    }
    Ok(firsts)
}
