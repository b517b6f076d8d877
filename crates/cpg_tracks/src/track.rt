//! The tracks of a graph.
ghost use Rattle.std.specs.Prelude.{◌≡◌, ◌<◌, ◌≤◌, ◌++◌, IfOk, IfSome, IfNone, OnOk, All, length, filter};
ghost use Rattle.std.specs.List.{flat_map};
ghost use Rattle.cpg_base.specs.Numbers.{numbers_below};
ghost use Rattle.cpg_base.specs.Graph.{process_count, condition_count};
ghost use Rattle.cpg_base.specs.Activity.{active};
ghost use Rattle.cpg_rules.specs.Admission.{IsAdmitted};
ghost use Rattle.cpg_tracks.specs.Tracks.{HasManyTracks, most_scheduled_tracks};
ghost use Rattle.cpg_order.specs.Track.{AreTracks};
ghost use Rattle.cpg_tracks.specs.Walks.{both_ways_at};
ghost use Rattle.cpg_rules.specs.Admitted.{AreAdmitted};
ghost use Rattle.cpg_tracks.specs.Track.{IsTrackOf, AreAllTracks, outcomes_of, HasValues};

use cpg_base::{Order, OutOfMemory, Problem, Scenario};
use cpg_rules::{Admitted, GuardTrees};
use std::alloc::Global;
use std::marker::Model;

/// The most tracks that are scheduled. An admitted graph may have more: up to 16,384.
const MOST_SCHEDULED_TRACKS: usize = 256;

/// A track: an outcome in which the conditions of inactive processes are false, seen as its values and the list of the
/// active processes.
#[derive(Drop)]
pub struct Track {
    /// The outcome, as the scenario without faults that has these values.
    scenario: Scenario,
    /// The numbers of the active processes, rising.
    active: Vec<u32>,
}

impl Model for Track {
    ghost use Rattle.cpg_tracks.specs.Track.{Track};

    ghost Value = { Track };

    ghost view = { λ t. record { outcome = t.scenario.values; active = t.active.items } };
}

impl Track {
    /// Returns the outcome, as a scenario without faults.
    pub(crate) fn scenario(&self) -> &Scenario
        ensures { result.now.values ≡ self.now.outcome }
    {
        &self.scenario
    }

    /// Returns the numbers of the active processes, rising.
    pub(crate) fn active(&self) -> &[u32]
        ensures { result.now ≡ self.now.active }
    {
        self.active.as_slice()
    }
}

/// Adds an outcome, in which the condition is false, and, if the condition's process is active, also the outcome with the
/// condition true.
fn push_ways(
    problem: &Problem,
    guards: &GuardTrees,
    condition: u32,
    scenario: &Scenario,
    ways: &mut Vec<Scenario>,
) -> Result<(), OutOfMemory>
    requires admitted { AreAdmitted problem.now guards.now }
    requires condition { condition < condition_count problem.now }
    requires values { HasValues problem.now scenario.now }
    // what is added is the outcome, and maybe the one with the condition true
    ensures ways { OnOk result (outcomes_of ways.new.items ≡ outcomes_of ways.old.items ++ both_ways_at problem.now condition scenario.now.values) }
    ensures values { OnOk result (All (HasValues problem.now) ways.old.items → All (HasValues problem.now) ways.new.items) }
{
    ways.push(scenario.copy()?)?;
    // the condition of an inactive process stays false
    if !guards.active(problem.process_of(condition), scenario) {
        return Ok(());
    }
    let mut with_true = scenario.copy()?;
    with_true.set_value(condition, true);
    ways.push(with_true)?;
    Ok(())
}

/// Returns the outcomes that come of these if the condition is chosen too: one or two of each, false before true.
fn both_ways(
    alloc: Global,
    problem: &Problem,
    guards: &GuardTrees,
    condition: u32,
    scenarios: &[Scenario],
) -> Result<Vec<Scenario>, OutOfMemory>
    requires admitted { AreAdmitted problem.now guards.now }
    requires condition { condition < condition_count problem.now }
    requires values { All (HasValues problem.now) scenarios.now }
    ensures ways { IfOk result (λ found. outcomes_of found.items ≡ flat_map (both_ways_at problem.now condition) (outcomes_of scenarios.now)) }
    ensures values { IfOk result (λ found. All (HasValues problem.now) found.items) }
{
    let mut ways = Vec::new(alloc);
    for scenario in scenarios {
        push_ways(problem, guards, condition, scenario, &mut ways)?;
    }
    Ok(ways)
}

/// Returns the outcomes of the tracks, in order, and `None` exactly if there are more than 256. The conditions are chosen
/// one after another, in urgency order, each in the outcomes in which its process is active.
fn outcomes(
    alloc: Global,
    problem: &Problem,
    guards: &GuardTrees,
    order: &Order,
) -> Result<Option<Vec<Scenario>>, OutOfMemory>
    requires { IsAdmitted problem.now order.now guards.now }
    // the outcomes are those of the tracks, few enough, each with a value for each condition
    ensures tracks { IfOk result (λ found. IfSome found (λ scenarios. AreTracks problem.now (outcomes_of scenarios.items))) }
    ensures few { IfOk result (λ found. IfSome found (λ scenarios. length scenarios.items ≤ most_scheduled_tracks)) }
    ensures values { IfOk result (λ found. IfSome found (λ scenarios. All (HasValues problem.now) scenarios.items)) }
    ensures many { IfOk result (λ found. IfNone found (HasManyTracks problem.now)) }
{
    let mut scenarios = Vec::new(alloc);
    // before the first choice all conditions are false
    scenarios.push(Scenario::zero(alloc, problem)?)?;
    for process in order.processes() {
        // a process without a condition leaves nothing to choose
        if let Some(condition) = problem.condition_of(*process) {
            scenarios = both_ways(alloc, problem, guards, condition, scenarios.as_slice())?;
            // a choice never makes fewer of them, so there are too many tracks
            if scenarios.len() > MOST_SCHEDULED_TRACKS {
                return Ok(None);
            }
        }
    }
    Ok(Some(scenarios))
}

/// Returns the processes that are active in a scenario, the lowest first.
fn active_processes(
    alloc: Global,
    problem: &Problem,
    guards: &GuardTrees,
    scenario: &Scenario,
) -> Result<Vec<u32>, OutOfMemory>
    requires admitted { AreAdmitted problem.now guards.now }
    requires values { HasValues problem.now scenario.now }
    ensures { IfOk result (λ found. found.items ≡ filter (active problem.now scenario.now.values) (numbers_below (process_count problem.now))) }
{
    let mut processes = Vec::new(alloc);
    for process in 0..problem.processes().len() as u32 {
        if guards.active(process, scenario) {
            processes.push(process)?;
        }
    }
    Ok(processes)
}

/// Returns the track of an outcome.
fn track_of(
    alloc: Global,
    problem: &Problem,
    guards: &GuardTrees,
    scenario: &Scenario,
) -> Result<Track, OutOfMemory>
    requires admitted { AreAdmitted problem.now guards.now }
    requires values { HasValues problem.now scenario.now }
    ensures outcome { IfOk result (λ track. track.outcome ≡ scenario.now.values) }
    ensures track { IfOk result (IsTrackOf problem.now) }
{
    Ok(Track {
        scenario: scenario.copy()?,
        active: active_processes(alloc, problem, guards, scenario)?,
    })
}

/// Returns the tracks of these outcomes, in the same order.
fn tracks_of(
    alloc: Global,
    problem: &Problem,
    guards: &GuardTrees,
    scenarios: &[Scenario],
) -> Result<Vec<Track>, OutOfMemory>
    requires admitted { AreAdmitted problem.now guards.now }
    requires values { All (HasValues problem.now) scenarios.now }
    requires tracks { AreTracks problem.now (outcomes_of scenarios.now) }
    requires few { length scenarios.now ≤ most_scheduled_tracks }
    ensures { IfOk result (λ tracks. AreAllTracks problem.now tracks.items) }
{
    let mut tracks = Vec::new(alloc);
    tracks.reserve(scenarios.len())?;
    for scenario in scenarios {
        tracks.push(track_of(alloc, problem, guards, scenario)?)?;
    }
    Ok(tracks)
}

/// Returns the outcomes of the tracks of a graph, in order, as scenarios without faults, and `None` exactly if there are
/// more than 256.
pub fn track_outcomes(
    alloc: Global,
    admitted: &Admitted,
) -> Result<Option<Vec<Scenario>>, OutOfMemory>
    ensures tracks { IfOk result (λ found. IfSome found (λ scenarios. AreTracks admitted.now.graph (outcomes_of scenarios.items))) }
    ensures many { IfOk result (λ found. IfNone found (HasManyTracks admitted.now.graph)) }
{
    let (problem, guards) = (admitted.problem(), admitted.guards());
    let found = outcomes(alloc, problem, guards, admitted.order())?;
    Ok(found)
}

/// Returns the tracks of a graph, in the order of outcomes: at the first condition in urgency order at which two differ,
/// the earlier one is false. Returns `None` exactly if there are more than 256 tracks.
pub fn tracks(alloc: Global, admitted: &Admitted) -> Result<Option<Vec<Track>>, OutOfMemory>
    ensures tracks { IfOk result (λ found. IfSome found (λ tracks. AreAllTracks admitted.now.graph tracks.items)) }
    ensures many { IfOk result (λ found. IfNone found (HasManyTracks admitted.now.graph)) }
{
    let (problem, guards) = (admitted.problem(), admitted.guards());
    let Some(scenarios) = outcomes(alloc, problem, guards, admitted.order())? else {
        return Ok(None);
    };
    let tracks = tracks_of(alloc, problem, guards, scenarios.as_slice())?;
    Ok(Some(tracks))
}
