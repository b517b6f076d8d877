//! Finds the greatest excess and finish under an order by the latest times of all tracks.
ghost use Rattle.std.specs.Prelude.{◌≡◌, ◌<◌, ℕ, IfOk, length, replicate};
ghost use Rattle.cpg_base.specs.Graph.{process_count};
ghost use Rattle.cpg_order.specs.Track.{AreTracks};
ghost use Rattle.cpg_order.specs.Urgency.{IsTopological};
ghost use Rattle.cpg_latest.specs.Course.{outcomes_of};
ghost use Rattle.cpg_latest.specs.Lanes.{no_lane};
ghost use Rattle.cpg_latest.specs.Laws.{HasFigures};

use crate::Figures;
use crate::along::step;
use crate::figures::greatest_figures;
use crate::lanes::Lane;
use cpg_base::{Order, OutOfMemory, Problem, Scenario};
use cpg_bus::Plan;
use cpg_rules::Admitted;
use cpg_run::{FrozenTimes, Setting};
use std::alloc::Global;

/// Returns a lane for each of `count` tracks. In its courses nothing is known, and all nodes are ready and their slots free
/// at 0.
fn beginnings(alloc: Global, problem: &Problem, count: usize) -> Result<Vec<Lane>, OutOfMemory>
    ensures { IfOk result (λ lanes. lanes.items ≡ replicate count (no_lane problem.now)) }
{
    let mut lanes = Vec::new(alloc);
    lanes.reserve(count)?;
    for _ in 0..count {
        lanes.push(Lane::none(alloc, problem)?)?;
    }
    Ok(lanes)
}

/// Returns the greatest excess and the greatest finish of all scenarios under a topological order, in time units. The
/// outcomes of `tracks` are those of all tracks of the graph. No scenario is run: for each track and number of faults, the
/// latest times of a process and of what it sends follow from those of earlier processes.
pub fn figures_under(
    alloc: Global,
    admitted: &Admitted,
    order: &Order,
    tracks: &[Scenario],
) -> Result<Figures, OutOfMemory>
    requires topological { IsTopological admitted.now.graph order.now }
    requires tracks { AreTracks admitted.now.graph (outcomes_of tracks.now) }
    ensures { IfOk result (λ f. HasFigures admitted.now.graph order.now f.excess f.worst) }
{
    let problem = admitted.problem();
    let plan = Plan::of(alloc, problem)?;
    let setting = Setting::of(admitted, order, &plan);
    let mut frozen = FrozenTimes::none(alloc, problem)?;
    let mut lanes = beginnings(alloc, problem, tracks.len())?;
    // along the order, since latest times and frozen times of a process rest on those of earlier ones
    for place in 0..problem.processes().len() as u32 {
        step(
            alloc,
            &setting,
            tracks,
            &mut frozen,
            &mut lanes,
            order.at(place),
        )?;
    }
    Ok(greatest_figures(problem, lanes.as_slice()))
}
