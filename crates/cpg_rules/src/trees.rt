//! The guards of a graph.
ghost use Rattle.std.specs.Prelude.{◌≡◌, ◌<◌, ◌≤◌, List, ℕ, IfOk, IfErr, length};
ghost use Rattle.cpg_base.specs.Graph.{Graph, process_count, condition_count};
ghost use Rattle.cpg_base.specs.Activity.{active, live};
ghost use Rattle.cpg_order.specs.Track.{track_count, most_tracks};
ghost use Rattle.cpg_order.specs.Urgency.{IsUrgencyOrder, IsTopological};
ghost use Rattle.cpg_order.specs.Guard.{way, deciding_along};
ghost use Rattle.cpg_rules.specs.Trees.{TestsBelow};
ghost use Rattle.cpg_rules.specs.Guards.{AreGuardsOf, tree_of, active_by, live_by};
ghost use Rattle.cpg_rules.specs.Sharing.{trees_of, AreRoots};

use crate::GuardTree;
use crate::composing::{composed_along, ranks_of, seeds, trees_of};
use crate::edges::{EdgeGuard, edge_guards};
use crate::growing::tracks;
use crate::shared::SharedParts;
use crate::steps::{Aim, rested, steps_of};
use cpg_base::{Order, OutOfMemory, Problem, Scenario};
use std::alloc::{AllocError, AllocFailed, Global};
use std::marker::Model;

/// The most tracks that an admitted graph may have, in the type in which they are counted.
const MOST_TRACKS: u32 = cpg_base::MOST_TRACKS as u32;

/// In which outcomes each process is active and each edge live: seen as the number of conditions, a tree for each process,
/// and a guard for each edge.
#[derive(Drop)]
pub struct GuardTrees {
    /// How many conditions the trees and edges may test.
    conditions: u32,
    /// By process, in which outcomes it is active, and how.
    trees: Vec<GuardTree>,
    /// By edge, when it is live.
    edges: Vec<EdgeGuard>,
}

impl Model for GuardTrees {
    ghost use Rattle.std.specs.Coded.{codes};
    ghost use Rattle.cpg_rules.specs.TreeCode.{tree_code};
    ghost use Rattle.cpg_rules.specs.Guards.{Guards, AreBelow};

    ghost Value = { Guards };

    ghost coded = { Prim.hlevel (codes, tree_code) };

    ghost view = { λ g. record { conditions = g.conditions; trees = g.trees.items; edges = g.edges.items } };

    // no tree or edge refers to a process or condition that isn't there
    ghost invariant = { λ g. AreBelow (record { conditions = g.conditions; trees = g.trees.items; edges = g.edges.items }) };
}

/// Why no guards are returned for a graph.
#[derive(Clone, Copy, Debug, PartialEq, Eq)]
pub enum GuardFault {
    /// It has more than 16,384 tracks.
    TooManyTracks,
    /// Out of memory.
    OutOfMemory,
}

impl From<OutOfMemory> for GuardFault {
    ghost use Rattle.std.specs.Prelude.{◌≡◌};
    ghost use Rattle.cpg_rules.specs.declared.trees.GuardFault.{GuardFault};

    ghost from_gives = { λ _ fault. fault ≡ GuardFault.OutOfMemory };

    fn from(_: OutOfMemory) -> Self {
        GuardFault::OutOfMemory
    }
}

/// The guards of a graph, with the parts of their trees.
#[derive(Drop)]
pub struct SharedGuards {
    /// The guards.
    pub guards: GuardTrees,
    /// The shared parts, among which are the trees of the guards.
    pub parts: SharedParts,
    /// The number of the part with the tree of each process, by process.
    pub roots: Vec<usize>,
}

/// Returns the guards of a graph along an order, with the shared parts of their trees. `TooManyTracks` comes only if the
/// graph has more than 16,384 tracks, and `Ok` only if it doesn't.
pub fn shared_guards(
    alloc: Global,
    problem: &Problem,
    order: &Order,
) -> Result<SharedGuards, GuardFault>
    requires { IsTopological problem.now order.now }
    ensures guards { IfOk result (λ shared. AreGuardsOf problem.now order.now shared.guards) }
    // each process has the part with its tree as its root
    ensures roots { IfOk result (λ shared. AreRoots shared.parts.parts (process_count problem.now) shared.roots.items) }
    ensures trees { IfOk result (λ shared. shared.guards.trees ≡ trees_of shared.parts.parts shared.roots.items) }
    ensures few { IfOk result (λ _. track_count problem.now ≤ most_tracks) }
    ensures many { result ≡ Err GuardFault.TooManyTracks → most_tracks < track_count problem.now }
{
    let count = problem.processes().len();
    let steps = steps_of(alloc, problem, order)?;
    // only the steps that conditions rest on make tracks; at first no process has a standing, and the count stops at the
    // first track too many
    let choosing = rested(alloc, Aim::Conditions, steps.as_slice())?;
    if tracks(choosing.as_slice(), [None; 128], MOST_TRACKS + 1) > MOST_TRACKS {
        return Err(GuardFault::TooManyTracks);
    }
    // the trees test conditions by their ranks, the places of their processes in the order
    let ranks = ranks_of(alloc, problem, order)?;
    let mut parts = SharedParts::new(alloc, ranks)?;
    // each process begins with a leaf; then its tree is composed, step by step
    let seeds = seeds(alloc, &mut parts, count)?;
    let roots = composed_along(alloc, problem, &mut parts, steps.as_slice(), seeds)?;
    let trees = trees_of(alloc, &parts, roots.as_slice())?;
    let edges = edge_guards(alloc, problem)?;
    let guards = GuardTrees {
        conditions: problem.conditions(),
        trees,
        edges,
    };
    Ok(SharedGuards {
        guards,
        parts,
        roots,
    })
}

/// Returns the guards of a graph along an order.
///
/// `TooManyTracks` comes only if the graph has more than 16,384 tracks, and `Ok` only if it doesn't.
pub fn guards(alloc: Global, problem: &Problem, order: &Order) -> Result<GuardTrees, GuardFault>
    requires { IsTopological problem.now order.now }
    ensures guards { IfOk result (AreGuardsOf problem.now order.now) }
    ensures few { IfOk result (λ _. track_count problem.now ≤ most_tracks) }
    ensures many { result ≡ Err GuardFault.TooManyTracks → most_tracks < track_count problem.now }
{
    // the parts aren't needed here, so they are dropped
    let shared = shared_guards(alloc, problem, order)?;
    Ok(shared.guards)
}

impl GuardTrees {
    /// Returns the tree of a process.
    pub fn guard_of(&self, process: u32) -> &GuardTree
        requires { process < length self.now.trees }
        ensures tree { result.now ≡ tree_of self.now process }
        ensures below { TestsBelow self.now.conditions result.now }
    {
        &self.trees[process as usize]
    }

    /// Whether a process is active in a scenario.
    pub fn active(&self, process: u32, scenario: &Scenario) -> bool
        requires process { process < length self.now.trees }
        requires scenario { length scenario.now.values ≡ self.now.conditions }
        ensures tree { result ≡ active_by self.now scenario.now.values process }
        // if these are the guards of a graph, the answer is whether the process is active in it
        ensures active { (g : Graph) (order : List ℕ) → AreGuardsOf g order self.now → result ≡ active g scenario.now.values process }
    {
        self.guard_of(process).at(scenario).is_active()
    }

    /// Whether an edge is live in a scenario.
    pub fn live(&self, edge: u32, scenario: &Scenario) -> bool
        requires edge { edge < length self.now.edges }
        requires scenario { length scenario.now.values ≡ self.now.conditions }
        ensures edge { result ≡ live_by self.now scenario.now.values edge }
        // if these are the guards of a graph, the answer is whether the edge is live in it
        ensures live { (g : Graph) (order : List ℕ) → IsTopological g order → AreGuardsOf g order self.now → result ≡ live g scenario.now.values edge }
    {
        // bound to a name, by which the proof of the second clause refers to it
        let live = self.is_live(edge, scenario);
        live
    }

    /// Whether an edge is live in a scenario: its source is active, and the source's condition passes the test, if any.
    fn is_live(&self, edge: u32, scenario: &Scenario) -> bool
        requires edge { edge < length self.now.edges }
        requires scenario { length scenario.now.values ≡ self.now.conditions }
        ensures { result ≡ live_by self.now scenario.now.values edge }
    {
        let guard = self.edges[edge as usize];
        // an edge of an inactive source is never live
        if !self.active(guard.source, scenario) {
            return false;
        }
        match guard.test {
            None => true,
            Some(test) => scenario.value(test.condition) == test.value,
        }
    }

    /// Returns the conditions that decide a process in a scenario, in urgency order.
    pub fn deciding(
        &self,
        alloc: Global,
        process: u32,
        scenario: &Scenario,
    ) -> Result<Vec<u32>, OutOfMemory>
        requires process { process < length self.now.trees }
        requires scenario { length scenario.now.values ≡ self.now.conditions }
        ensures way { IfOk result (λ conditions. conditions.items ≡ way (tree_of self.now process) scenario.now.values) }
        // if these are the guards of a graph under its urgency order, these are the conditions that decide the process in it
        ensures deciding { IfOk result (λ conditions. (g : Graph) (order : List ℕ) → IsUrgencyOrder g order → IsTopological g order →
            AreGuardsOf g order self.now → conditions.items ≡ deciding_along g order scenario.now.values process) }
    {
        // bound to a name: so the prover closes the second clause from the first
        let conditions = self.way(alloc, process, scenario)?;
        Ok(conditions)
    }

    /// Returns the conditions that are tested on a scenario's way through the tree of a process, the first first.
    fn way(&self, alloc: Global, process: u32, scenario: &Scenario) -> Result<Vec<u32>, OutOfMemory>
        requires process { process < length self.now.trees }
        requires scenario { length scenario.now.values ≡ self.now.conditions }
        ensures { IfOk result (λ conditions. conditions.items ≡ way (tree_of self.now process) scenario.now.values) }
    {
        let mut conditions = Vec::new(alloc);
        self.guard_of(process).push_way(scenario, &mut conditions)?;
        Ok(conditions)
    }
}
