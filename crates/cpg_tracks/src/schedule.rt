//! The greedy schedule of a track.
ghost use Rattle.std.specs.Prelude.{◌≡◌, ◌<◌, ◌≤◌, ◌==◌, ◌^◌, ◌⊎◌, ℕ, All, Bool, IfOk, IfSome, IfNone, List, None, OnOk, Option, true, filter, length, not};
ghost use Rattle.std.specs.Prelude.{get_or, map, max, option_map};
ghost use Rattle.cpg_base.specs.Graph.{process_count, edge_count, node_of, source};
ghost use Rattle.cpg_base.specs.Activity.{active};
ghost use Rattle.cpg_order.specs.Links.{links_of};
ghost use Rattle.cpg_order.specs.Urgency.{IsUrgencyOrder};
ghost use Rattle.cpg_rules.specs.Admission.{IsAdmitted};
ghost use Rattle.cpg_tracks.specs.Tracks.{AreSchedules, IsGreedy, input_ready, ready_at};
ghost use Rattle.cpg_tracks.specs.Placing.{IsFed};
ghost use Rattle.cpg_tracks.specs.Track.{IsTrackOf, AreBy};
ghost use Rattle.cpg_tracks.specs.Timing.{IsTiming, IsOnTheWay, AreFree, AreFed, AreFedBut, Feeds, IsChosen, ComesFirst, IsBetterOf, outcome_of};

use crate::Track;
use crate::timing::Timing;
use cpg_base::{Order, OutOfMemory, Problem};
use cpg_order::Links;
use cpg_rules::{Admitted, GuardTrees};
use std::alloc::Global;
use std::marker::Model;

/// When the processes of a track start, in time units, seen as a start or `None` for each process, by number.
#[derive(Drop)]
pub struct Starts {
    /// By process number, the start, or `None` if the process has none.
    starts: Vec<Option<u64>>,
}

impl Model for Starts {
    ghost use Rattle.std.specs.Prelude.{List, Option, ℕ};

    ghost Value = { List (Option ℕ) };

    ghost view = { λ s. s.starts.items };
}

impl Starts {
    /// Returns the start of a process, in time units; `None` exactly if it is inactive in the track, or there is no such
    /// process.
    pub fn start_of(&self, process: u32) -> Option<u64>
        ensures { result ≡ get_or self.now process None }
    {
        match self.starts.get(process as usize) {
            Some(start) => *start,
            None => None,
        }
    }
}

/// A process that can be placed next: it is active and unplaced, and the sources of its live inputs are placed.
#[derive(Clone, Copy, Debug, PartialEq, Eq)]
pub(crate) struct FedProcess {
    /// The number of the process.
    pub(crate) process: u32,
    /// When it is ready, in time units: after its release, and when its live inputs are there.
    pub(crate) ready: u64,
}

/// A process that can be placed next, and when it would start.
#[derive(Clone, Copy, Debug, PartialEq, Eq)]
pub(crate) struct Candidate {
    /// The number of the process.
    pub(crate) process: u32,
    /// When it would start, in time units: once it is ready and its node is free.
    pub(crate) start: u64,
}

/// Returns when an input is there if all k faults strike its source, and `None` exactly if its source isn't placed.
fn input_time(
    problem: &Problem,
    timing: &Timing<'_>,
    starts: &[Option<u64>],
    edge: u32,
) -> Option<u64>
    requires timing { IsTiming problem.now timing.now }
    requires starts { IsOnTheWay problem.now starts.now }
    requires edge { edge < edge_count problem.now }
    ensures { result ≡ option_map (λ _. input_ready problem.now starts.now edge) (get_or starts.now (source problem.now edge) None) }
{
    let source = problem.source(edge);
    // the source isn't placed yet
    let Some(start) = starts[source as usize] else {
        return None;
    };
    let end = start + timing.durations[source as usize];
    // a message is there a round after its source has ended
    if problem.is_message(edge) {
        return Some(end + timing.round);
    }
    Some(end)
}

/// Returns when an active process is ready; `None` exactly if it is placed already, or the source of a live input isn't.
fn ready_time(
    problem: &Problem,
    timing: &Timing<'_>,
    starts: &[Option<u64>],
    process: u32,
) -> Option<u64>
    requires timing { IsTiming problem.now timing.now }
    requires starts { IsOnTheWay problem.now starts.now }
    requires process { process < process_count problem.now }
    requires active { active problem.now (outcome_of timing.now) process ≡ true }
    // a process without a time can't be placed, and one with a time can
    ensures none { IfNone result (IsFed problem.now (outcome_of timing.now) starts.now process → ⊥) }
    ensures fed { IfSome result (λ _. IsFed problem.now (outcome_of timing.now) starts.now process) }
    ensures ready { IfSome result (λ time. time ≡ ready_at problem.now (outcome_of timing.now) starts.now process) }
{
    // the process is placed already
    if starts[process as usize].is_some() {
        return None;
    }
    // ready at the latest of the release and of the times of the live inputs
    let mut ready = problem.release(process);
    for edge in timing.links.inputs(process) {
        // an input that isn't live isn't waited for
        if timing.live[*edge as usize] {
            let Some(time) = input_time(problem, timing, starts, *edge) else {
                // its source isn't placed yet
                return None;
            };
            ready = ready.max(time);
        }
    }
    Some(ready)
}

/// Adds a process to those that can be placed, if it can be. It is then in the list twice if it was there already.
fn feed(
    problem: &Problem,
    timing: &Timing<'_>,
    starts: &[Option<u64>],
    process: u32,
    fed: &mut Vec<FedProcess>,
) -> Result<(), OutOfMemory>
    requires timing { IsTiming problem.now timing.now }
    requires starts { IsOnTheWay problem.now starts.now }
    requires process { process < process_count problem.now }
    ensures { OnOk result (Feeds problem.now (outcome_of timing.now) starts.now process fed.old.items fed.new.items) }
{
    // an inactive process is never placed
    if !timing.active[process as usize] {
        return Ok(());
    }
    // `None`: it is placed already, or waits for another source
    if let Some(ready) = ready_time(problem, timing, starts, process) {
        fed.push(FedProcess { process, ready })?;
    }
    Ok(())
}

/// Returns the processes that can be placed, the lowest first.
fn all_fed(
    alloc: Global,
    problem: &Problem,
    timing: &Timing<'_>,
    starts: &[Option<u64>],
) -> Result<Vec<FedProcess>, OutOfMemory>
    requires timing { IsTiming problem.now timing.now }
    requires starts { IsOnTheWay problem.now starts.now }
    ensures { IfOk result (λ fed. AreFed problem.now (outcome_of timing.now) starts.now fed.items) }
{
    let count = problem.processes().len();
    let mut fed = Vec::new(alloc);
    fed.reserve(count)?;
    for process in 0..count as u32 {
        feed(problem, timing, starts, process, &mut fed)?;
    }
    Ok(fed)
}

/// Adds the processes that waited for this placed process and can be placed now.
fn feed_targets(
    problem: &Problem,
    timing: &Timing<'_>,
    starts: &[Option<u64>],
    process: u32,
    fed: &mut Vec<FedProcess>,
) -> Result<(), OutOfMemory>
    requires timing { IsTiming problem.now timing.now }
    requires starts { IsOnTheWay problem.now starts.now }
    requires process { process < process_count problem.now }
    // the list has what can be placed but, maybe, targets of this process
    requires fed { AreFedBut problem.now (outcome_of timing.now) starts.now process fed.old.items }
    // then it has all that can be placed
    ensures { OnOk result (AreFed problem.now (outcome_of timing.now) starts.now fed.new.items) }
{
    for edge in timing.links.outputs(process) {
        // only over live outputs did a process wait for this one
        if timing.live[*edge as usize] {
            feed(problem, timing, starts, problem.target(*edge), fed)?;
        }
    }
    Ok(())
}

/// Takes every entry of a process out of the list of those that can be placed.
fn drop_placed(fed: &mut Vec<FedProcess>, process: u32)
    ensures { fed.new.items ≡ filter (λ f. not (f.process == process)) fed.old.items }
{
    fed.retain(|it| it.process != process);
}

/// Returns the candidate of a process that can be placed. `free` says for each node when it has ended all that is placed on
/// it.
fn candidate_of(problem: &Problem, free: &[u64], fed: FedProcess) -> Candidate
    requires free { length free.now ≡ length problem.now.nodes }
    requires process { fed.process < process_count problem.now }
    ensures process { result.process ≡ fed.process }
    ensures start { result.start ≡ max fed.ready (get_or free.now (node_of problem.now fed.process) 0) }
    ensures node { node_of problem.now fed.process < length problem.now.nodes }
{
    // it starts once it is ready and its node is free
    let start = fed.ready.max(free[problem.node_of(fed.process) as usize]);
    Candidate {
        process: fed.process,
        start,
    }
}

/// Returns the one of two candidates that starts sooner or, if they start together, is more urgent.
fn sooner(order: &Order, best: Candidate, other: Candidate) -> Candidate
    requires best { best.process < length order.now }
    requires other { other.process < length order.now }
    ensures { ((result ≡ best) × ComesFirst order.now best other) ⊎ ((result ≡ other) × ComesFirst order.now other best) }
{
    // the earlier start comes first
    if best.start < other.start {
        return best;
    }
    if other.start < best.start {
        return other;
    }
    // both start together, so the more urgent one is first
    if order.place(best.process) < order.place(other.process) {
        return best;
    }
    other
}

/// Returns the sooner of the best candidate so far, if there is one, and another.
fn better(order: &Order, best: Option<Candidate>, other: Candidate) -> Candidate
    requires best { IfSome best (λ c. c.process < length order.now) }
    requires other { other.process < length order.now }
    ensures { IsBetterOf order.now best other result }
{
    let Some(best) = best else {
        return other;
    };
    sooner(order, best, other)
}

/// Returns the process to place next: of those that can be placed, the one that would start first, and of several the most
/// urgent. It is `None` exactly if `fed` is empty.
fn next(problem: &Problem, order: &Order, free: &[u64], fed: &[FedProcess]) -> Option<Candidate>
    requires order { IsUrgencyOrder problem.now order.now }
    requires free { length free.now ≡ length problem.now.nodes }
    requires within { All (λ f. f.process < process_count problem.now) fed.now }
    // for each schedule with these free times and these processes to place, this is the process to place next
    ensures { (o : List Bool) (starts : List (Option ℕ)) → AreFree problem.now starts free.now → AreFed problem.now o starts fed.now →
        IsChosen problem.now o starts result }
{
    let mut best = None;
    for fed_process in fed {
        let other = candidate_of(problem, free, *fed_process);
        best = Some(better(order, best, other));
    }
    best
}

/// Returns the start of each process of a track, by number, and `None` for each inactive one. They are placed one after
/// another.
fn place_all(
    alloc: Global,
    problem: &Problem,
    guards: &GuardTrees,
    order: &Order,
    links: &Links,
    track: &Track,
) -> Result<Vec<Option<u64>>, OutOfMemory>
    requires admitted { IsAdmitted problem.now order.now guards.now }
    requires links { links.now ≡ links_of problem.now }
    requires track { IsTrackOf problem.now track.now }
    ensures greedy { IfOk result (λ starts. IsGreedy problem.now track.now.outcome starts.items) }
    // no start is so late that what is added to it would overflow
    ensures early { IfOk result (λ starts. AreBy (2 ^ 60) starts.items) }
{
    let timing = Timing::of(alloc, problem, guards, links, track)?;
    let count = problem.processes().len();
    let mut starts: Vec<Option<u64>> = vec![in alloc; None; count]?;
    // by node, when it has ended all that is placed on it
    let mut free = vec![in alloc; 0u64; problem.nodes().len()]?;
    let mut fed = all_fed(alloc, problem, &timing, starts.as_slice())?;
    // each turn places one process, so there are no more turns than processes
    for _placed in 0..count {
        // none can be placed any more: all active processes are
        let Some(chosen) = next(problem, order, free.as_slice(), fed.as_slice()) else {
            return Ok(starts);
        };
        // the node is taken up to the end with all k faults
        let end = chosen.start + timing.durations[chosen.process as usize];
        starts[chosen.process as usize] = Some(chosen.start);
        free[problem.node_of(chosen.process) as usize] = end;
        // it is placed, so it leaves the list, and what waited for it may join
        drop_placed(&mut fed, chosen.process);
        feed_targets(
            problem,
            &timing,
            starts.as_slice(),
            chosen.process,
            &mut fed,
        )?;
    }
    Ok(starts)
}

/// Returns the greedy schedule of a track. `links` are the links of the graph.
fn greedy_by(
    alloc: Global,
    admitted: &Admitted,
    links: &Links,
    track: &Track,
) -> Result<Starts, OutOfMemory>
    requires links { links.now ≡ links_of admitted.now.graph }
    requires track { IsTrackOf admitted.now.graph track.now }
    ensures greedy { IfOk result (λ starts. IsGreedy admitted.now.graph track.now.outcome starts) }
    // no start is so late that what is added to it would overflow
    ensures early { IfOk result (AreBy (2 ^ 60)) }
{
    let starts = place_all(
        alloc,
        admitted.problem(),
        admitted.guards(),
        admitted.order(),
        links,
        track,
    )?;
    Ok(Starts { starts })
}

/// Returns the greedy schedule of a track: each execution lasts as long as with all faults and a message takes a round. No
/// node idles while a process on it is ready, and no ready process is passed over by one that is less urgent.
pub fn greedy(alloc: Global, admitted: &Admitted, track: &Track) -> Result<Starts, OutOfMemory>
    requires { IsTrackOf admitted.now.graph track.now }
    ensures greedy { IfOk result (λ starts. IsGreedy admitted.now.graph track.now.outcome starts) }
    // no start is so late that what is added to it would overflow
    ensures early { IfOk result (AreBy (2 ^ 60)) }
{
    let links = Links::of(alloc, admitted.problem())?;
    let starts = greedy_by(alloc, admitted, &links, track)?;
    Ok(starts)
}

/// Returns the greedy schedule of each of these tracks, in the same order. `links` are the links of the graph.
pub(crate) fn schedules(
    alloc: Global,
    admitted: &Admitted,
    links: &Links,
    tracks: &[Track],
) -> Result<Vec<Starts>, OutOfMemory>
    requires links { links.now ≡ links_of admitted.now.graph }
    requires tracks { All (IsTrackOf admitted.now.graph) tracks.now }
    // there is a greedy schedule for each of these tracks
    ensures greedy { IfOk result (λ schedules. AreSchedules admitted.now.graph (map (λ t. t.outcome) tracks.now) schedules.items) }
    ensures early { IfOk result (λ schedules. All (AreBy (2 ^ 60)) schedules.items) }
{
    let mut schedules = Vec::new(alloc);
    schedules.reserve(tracks.len())?;
    for track in tracks {
        schedules.push(greedy_by(alloc, admitted, links, track)?)?;
    }
    Ok(schedules)
}
