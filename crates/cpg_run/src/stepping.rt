//! Finds a run along an order, one process after another.
ghost use Rattle.std.specs.List.{flat_map};
ghost use Rattle.std.specs.Option.{option_to_list};
ghost use Rattle.std.specs.Prelude.{◌≡◌, ◌+◌, ◌<◌, ℕ, List, Option, None, IfOk, OnErr, OnOk, get_or, length};
ghost use Rattle.cpg_base.specs.Graph.{process_count, item_count};
ghost use Rattle.cpg_base.specs.Numbers.{greatest};
ghost use Rattle.cpg_base.specs.Scenario.{Scenario, IsScenario};
ghost use Rattle.cpg_run.specs.Known.{AreEarly};
ghost use Rattle.cpg_run.specs.Progress.{IsAlong};
ghost use Rattle.cpg_run.specs.Setting.{AreAt, HavePlaces, IsSetting};

use crate::activity::is_active;
use crate::known::Known;
use crate::sending::send;
use crate::waiting::{decided_there, start};
use crate::{FrozenTimes, RunTimes, Setting};
use cpg_base::{OutOfMemory, Problem, Scenario};
use std::alloc::Global;
use std::marker::Model;

/// What the processes so far leave to the next ones, for each node, in time units.
#[derive(Drop)]
struct Nodes {
    // by when all active processes so far have ended, and the node has heard what decides any process so far
    ready: Vec<u64>,
    // from when its slots are free after all that it has sent so far
    free: Vec<u64>,
}

/// Sets the start and the end of the process at a place of the order, and the times of what it sends, if it is active.
/// If memory runs out, nothing is changed.
fn step(
    alloc: Global,
    setting: &Setting<'_>,
    frozen: &FrozenTimes,
    scenario: &Scenario,
    known: &mut Known,
    nodes: &mut Nodes,
    place: u32,
) -> Result<(), OutOfMemory>
    requires setting { IsSetting setting.now }
    requires frozen { length frozen.now ≡ item_count setting.now.problem.now }
    requires early { AreEarly frozen.now }
    requires scenario { IsScenario setting.now.problem.now scenario.now }
    requires place { place < process_count setting.now.problem.now }
    requires places { HavePlaces setting.now known.old nodes.old }
    requires at { AreAt setting.now frozen.now scenario.now place known.old nodes.old }
    ensures places { OnOk result (HavePlaces setting.now known.new nodes.new) }
    ensures at { OnOk result (AreAt setting.now frozen.now scenario.now (place + 1) known.new nodes.new) }
    ensures stays { OnErr result ((known.new ≡ known.old) × (nodes.new ≡ nodes.old)) }
{
    let problem = setting.problem;
    let process = setting.order.at(place);
    let node = problem.node_of(process) as usize;
    // when the node has heard each condition that decides the process
    let heard = decided_there(
        alloc,
        problem,
        setting.guards,
        setting.plan,
        known,
        scenario,
        process,
    )?;
    let ready = nodes.ready[node].max(heard);
    // an inactive process takes no time, but a later one on its node starts only when the node knows of that
    if !is_active(problem, setting.guards, scenario, process) {
        nodes.ready[node] = ready;
        return Ok(());
    }
    // the start and the end are set before anything is sent, since what a process sends waits for its end
    let start = start(setting, frozen, known, scenario, process, ready);
    let end = start + problem.duration(process, scenario.fault(process));
    known.set_time(process, start);
    known.set_end(process, end);
    // the start waited for `ready`, so the end is no earlier than that
    nodes.ready[node] = end;
    nodes.free[node] = send(setting, frozen, scenario, known, process, nodes.free[node]);
    Ok(())
}

/// What is found of a scenario's run before a place of the order.
#[derive(Drop)]
pub struct RunProgress {
    // the times and the ends that are known so far
    known: Known,
    // what is left to the next processes of each node
    nodes: Nodes,
}

impl Model for RunProgress {
    ghost use Rattle.cpg_run.specs.Progress.{ProgressState};

    ghost Value = { ProgressState };

    ghost view = { λ p. record { known = p.known; ready = p.nodes.ready.items; free = p.nodes.free.items } };
}

impl RunProgress {
    /// Returns the progress before the first place: nothing is known, and every node is ready and its slots free at 0.
    pub fn none(alloc: Global, problem: &Problem) -> Result<RunProgress, OutOfMemory>
        // the progress is that of the run of any scenario, before the first place
        ensures { IfOk result (λ progress. (order : List ℕ) (frozen : List (Option ℕ)) (s : Scenario) → IsAlong problem.now order frozen s 0 progress) }
    {
        let nodes = problem.nodes().len();
        Ok(RunProgress {
            known: Known::none(alloc, problem)?,
            nodes: Nodes {
                ready: vec![in alloc; 0u64; nodes]?,
                free: vec![in alloc; 0u64; nodes]?,
            },
        })
    }

    /// Returns a copy of the progress.
    pub fn copy(&self) -> Result<RunProgress, OutOfMemory>
        ensures { IfOk result (λ progress. progress ≡ self.now) }
    {
        Ok(RunProgress {
            known: self.known.copy()?,
            nodes: Nodes {
                ready: self.nodes.ready.clone()?,
                free: self.nodes.free.clone()?,
            },
        })
    }

    /// Returns the time of an item, in time units, and `None` exactly if none is known or the graph has no such item.
    pub fn time(&self, item: u32) -> Option<u64>
        ensures { result ≡ get_or self.now.known.times item None }
    {
        self.known.time_if(item)
    }

    /// Goes on from a place of the order to the next: finds the times of the process there and of all that it sends. If
    /// memory runs out, nothing is changed.
    pub fn step(
        &mut self,
        alloc: Global,
        setting: &Setting<'_>,
        frozen: &FrozenTimes,
        scenario: &Scenario,
        place: u32,
    ) -> Result<(), OutOfMemory>
        requires setting { IsSetting setting.now }
        requires frozen { length frozen.now ≡ item_count setting.now.problem.now }
        requires early { AreEarly frozen.now }
        requires scenario { IsScenario setting.now.problem.now scenario.now }
        requires place { place < process_count setting.now.problem.now }
        requires along { IsAlong setting.now.problem.now setting.now.order.now frozen.now scenario.now place self.old }
        // if it succeeds, the progress is that of the run before the next place
        ensures along { OnOk result (IsAlong setting.now.problem.now setting.now.order.now frozen.now scenario.now (place + 1) self.new) }
        ensures stays { OnErr result (self.new ≡ self.old) }
    {
        let (known, nodes) = (&mut self.known, &mut self.nodes);
        step(alloc, setting, frozen, scenario, known, nodes, place)?;
        Ok(())
    }

    /// Returns the run, if all places of the order are done, so that all of it is known.
    pub(crate) fn finished(self) -> RunTimes
        ensures { result ≡ record self.known { finish = greatest (flat_map option_to_list self.known.ends) } }
    {
        self.known.finished()
    }
}
