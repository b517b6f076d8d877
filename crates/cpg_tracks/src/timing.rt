//! What is looked up while the processes of a track are placed.
ghost use Rattle.std.specs.Prelude.{◌≡◌, ◌<◌, ◌≤◌, IfOk, map};
ghost use Rattle.cpg_base.specs.Numbers.{numbers_below};
ghost use Rattle.cpg_base.specs.Graph.{process_count, edge_count};
ghost use Rattle.cpg_base.specs.Activity.{active, live};
ghost use Rattle.cpg_base.specs.Duration.{duration};
ghost use Rattle.cpg_order.specs.Links.{links_of};
ghost use Rattle.cpg_rules.specs.Admitted.{AreAdmitted};
ghost use Rattle.cpg_tracks.specs.Track.{HasValues, IsTrackOf};
ghost use Rattle.cpg_tracks.specs.Timing.{IsTiming};

use crate::Track;
use cpg_base::{OutOfMemory, Problem, Scenario};
use cpg_order::Links;
use cpg_rules::GuardTrees;
use std::alloc::Global;

/// What is looked up while the processes of a track are placed, found once for the track.
#[derive(Drop)]
pub(crate) struct Timing<'a> {
    /// The track.
    pub(crate) track: &'a Track,
    /// The edges of each process.
    pub(crate) links: &'a Links,
    /// By process, whether it is active in the track.
    pub(crate) active: Vec<bool>,
    /// By edge, whether it is live in the track.
    pub(crate) live: Vec<bool>,
    /// By process, how long an execution with all faults lasts, in time units.
    pub(crate) durations: Vec<u64>,
    /// How long a message takes here: one round of the bus, in time units.
    pub(crate) round: u64,
}

/// Returns for each process, by number, whether it is active in the track.
fn active_marks(alloc: Global, problem: &Problem, track: &Track) -> Result<Vec<bool>, OutOfMemory>
    requires { IsTrackOf problem.now track.now }
    ensures { IfOk result (λ marks. marks.items ≡ map (active problem.now track.now.outcome) (numbers_below (process_count problem.now))) }
{
    let mut marks = vec![in alloc; false; problem.processes().len()]?;
    for process in track.active() {
        marks[*process as usize] = true;
    }
    Ok(marks)
}

/// Returns for each edge, by number, whether it is live in the scenario.
fn live_edges(
    alloc: Global,
    problem: &Problem,
    guards: &GuardTrees,
    scenario: &Scenario,
) -> Result<Vec<bool>, OutOfMemory>
    requires admitted { AreAdmitted problem.now guards.now }
    requires values { HasValues problem.now scenario.now }
    ensures { IfOk result (λ found. found.items ≡ map (live problem.now scenario.now.values) (numbers_below (edge_count problem.now))) }
{
    let count = problem.edges().len();
    let mut marks = Vec::new(alloc);
    marks.reserve(count)?;
    for edge in 0..count as u32 {
        marks.push(guards.live(edge, scenario))?;
    }
    Ok(marks)
}

/// Returns for each process, by number, how long an execution with all k faults lasts, in time units.
fn durations(alloc: Global, problem: &Problem) -> Result<Vec<u64>, OutOfMemory>
    ensures { IfOk result (λ found. found.items ≡ map (λ p. duration problem.now p problem.now.faults) (numbers_below (process_count problem.now))) }
{
    let faults = problem.faults();
    let count = problem.processes().len();
    let mut durations = Vec::new(alloc);
    durations.reserve(count)?;
    for process in 0..count as u32 {
        durations.push(problem.duration(process, faults))?;
    }
    Ok(durations)
}

impl<'a> Timing<'a> {
    /// Returns what is looked up while the processes of this track are placed.
    pub(crate) fn of(
        alloc: Global,
        problem: &Problem,
        guards: &GuardTrees,
        links: &'a Links,
        track: &'a Track,
    ) -> Result<Timing<'a>, OutOfMemory>
        requires admitted { AreAdmitted problem.now guards.now }
        requires links { links.now ≡ links_of problem.now }
        requires track { IsTrackOf problem.now track.now }
        ensures timing { IfOk result (IsTiming problem.now) }
        ensures track { IfOk result (λ timing. timing.track.now ≡ track.now) }
    {
        let scenario = track.scenario();
        Ok(Timing {
            track,
            links,
            active: active_marks(alloc, problem, track)?,
            live: live_edges(alloc, problem, guards, scenario)?,
            durations: durations(alloc, problem)?,
            round: problem.round(),
        })
    }
}
