//! A graph within its limits.
ghost use Rattle.std.specs.Prelude.{◌≡◌, ◌<◌, ◌≤◌, ◌↔◌, IsTrue, IfOk, IfSome, IfNone, Some, None, sum_by, ◌^◌};
ghost use Rattle.std.specs.Option.{option_map};
ghost use Rattle.cpg_base.specs.Graph.{process_count, condition_count, condition_of, process_of, process_at};
ghost use Rattle.cpg_base.specs.Bus.{round};
ghost use Rattle.cpg_base.specs.Duration.{duration, due};
ghost use Rattle.cpg_base.specs.Limits.{IsWithinLimits, IsOrderWithin};
ghost use Rattle.cpg_base.specs.Parts.{HasPartsWithin};

use crate::conditions::Conditions;
use crate::limits::{
    LONGEST, MOST_EDGES, MOST_FAULTS, MOST_NODES, MOST_PROCESSES, are_edges_within,
    are_names_apart, are_processes_apart, are_processes_within, are_slots_apart, are_slots_within,
};
use crate::{Edge, Name, OutOfMemory, Process, Slot};
use std::marker::Model;

/// A conditional process graph within the limits of a graph file (docs/FORMATS.md), seen as what the file says: all
/// fields but `conditions`.
#[derive(Drop)]
pub struct Problem {
    /// The most faults in one cycle, called k.
    faults: u8,
    /// The time by which all executions have to have ended.
    deadline: u64,
    /// The names of the nodes, by number.
    nodes: Vec<Name>,
    /// The slots of the bus, in the order of the round.
    slots: Vec<Slot>,
    /// The processes, by number.
    processes: Vec<Process>,
    /// The edges, by number.
    edges: Vec<Edge>,
    /// The numbers of the processes in the order to compile under, if the file gives one.
    order: Option<Vec<u32>>,
    /// The conditions that the edges give to processes, kept so that they are found once.
    conditions: Conditions,
}

impl Model for Problem {
    ghost use Rattle.std.specs.Prelude.{◌≡◌};
    ghost use Rattle.std.specs.Option.{option_map};
    ghost use Rattle.cpg_base.specs.Graph.{Graph, disjunctions};
    ghost use Rattle.cpg_base.specs.Limits.{IsWithinLimits};

    ghost Value = { Graph };

    ghost view = { λ p. record {
      faults = p.faults;
      deadline = p.deadline;
      nodes = p.nodes.items;
      slots = p.slots.items;
      processes = p.processes.items;
      edges = p.edges.items;
      order = option_map (λ v. v.items) p.order;
    } };

    // the graph is within the limits, and the conditions are its own
    ghost invariant = { λ p. let g : Graph = record {
      faults = p.faults;
      deadline = p.deadline;
      nodes = p.nodes.items;
      slots = p.slots.items;
      processes = p.processes.items;
      edges = p.edges.items;
      order = option_map (λ v. v.items) p.order;
    } in IsWithinLimits g × (p.conditions ≡ disjunctions g) };
}

/// Whether there are few enough nodes, slots, processes and edges, and the most faults and the deadline are in range.
fn are_counts_within(
    faults: u8,
    deadline: u64,
    nodes: usize,
    slots: usize,
    processes: usize,
    edges: usize,
) -> bool
    ensures { IsTrue result ↔ ((faults ≤ MOST_FAULTS) × (deadline ≤ LONGEST) × (nodes ≤ MOST_NODES) × (slots ≤ MOST_NODES) ×
        (processes ≤ MOST_PROCESSES) × (edges ≤ MOST_EDGES)) }
{
    if faults > MOST_FAULTS || deadline > LONGEST || nodes > MOST_NODES || slots > MOST_NODES {
        return false;
    }
    processes <= MOST_PROCESSES && edges <= MOST_EDGES
}

/// Whether the parts of a graph that gives no order are within the limits, but for the number of its conditions.
fn are_parts_within(
    faults: u8,
    deadline: u64,
    nodes: &[Name],
    slots: &[Slot],
    processes: &[Process],
    edges: &[Edge],
) -> bool
    ensures { IsTrue result ↔ HasPartsWithin (record {
      faults = faults;
      deadline = deadline;
      nodes = nodes.now;
      slots = slots.now;
      processes = processes.now;
      edges = edges.now;
      order = None;
    }) }
{
    if !are_counts_within(
        faults,
        deadline,
        nodes.len(),
        slots.len(),
        processes.len(),
        edges.len(),
    ) {
        return false;
    }
    if !are_processes_within(processes, nodes.len()) {
        return false;
    }
    if !are_slots_within(slots, nodes.len()) {
        return false;
    }
    if !are_edges_within(edges, processes.len()) {
        return false;
    }
    if !are_names_apart(nodes) {
        return false;
    }
    if !are_processes_apart(processes) {
        return false;
    }
    are_slots_apart(slots)
}

/// Returns how long these slots last together, in time units: the length of a round.
fn round_of(slots: &[Slot]) -> u64
    requires { sum_by (λ s. s.length) slots.now < 2 ^ 64 }
    ensures { result ≡ sum_by (λ s. s.length) slots.now }
{
    slots.iter().map(|slot| slot.length).sum()
}

impl Problem {
    /// Returns the graph of these parts, without an order to compile under, and `None` exactly if it breaks a limit.
    pub fn new(
        faults: u8,
        deadline: u64,
        nodes: Vec<Name>,
        slots: Vec<Slot>,
        processes: Vec<Process>,
        edges: Vec<Edge>,
    ) -> Option<Problem>
        ensures problem { IfSome result (λ g. g ≡ record {
          faults = faults;
          deadline = deadline;
          nodes = nodes.items;
          slots = slots.items;
          processes = processes.items;
          edges = edges.items;
          order = None;
        }) }
        ensures within { IfSome result IsWithinLimits }
        ensures refused { IfNone result (¬ IsWithinLimits (record {
          faults = faults;
          deadline = deadline;
          nodes = nodes.items;
          slots = slots.items;
          processes = processes.items;
          edges = edges.items;
          order = None;
        })) }
    {
        if !are_parts_within(
            faults,
            deadline,
            nodes.as_slice(),
            slots.as_slice(),
            processes.as_slice(),
            edges.as_slice(),
        ) {
            return None;
        }
        let Some(conditions) = Conditions::of(processes.len(), edges.as_slice()) else {
            return None;
        };
        Some(Problem {
            faults,
            deadline,
            nodes,
            slots,
            processes,
            edges,
            order: None,
            conditions,
        })
    }

    /// Returns the graph of these parts, without an order to compile under. They have to be within the limits.
    pub fn of(
        faults: u8,
        deadline: u64,
        nodes: Vec<Name>,
        slots: Vec<Slot>,
        processes: Vec<Process>,
        edges: Vec<Edge>,
    ) -> Problem
        requires { IsWithinLimits (record {
          faults = faults;
          deadline = deadline;
          nodes = nodes.items;
          slots = slots.items;
          processes = processes.items;
          edges = edges.items;
          order = None;
        }) }
        ensures { result ≡ record {
          faults = faults;
          deadline = deadline;
          nodes = nodes.items;
          slots = slots.items;
          processes = processes.items;
          edges = edges.items;
          order = None;
        } }
    {
        // within the limits the conditions are few enough
        let Some(conditions) = Conditions::of(processes.len(), edges.as_slice()) else {
            unreachable!()
        };
        Problem {
            faults,
            deadline,
            nodes,
            slots,
            processes,
            edges,
            order: None,
            conditions,
        }
    }

    /// Returns the same graph with this order to compile under in place of its own; with `None` it has no order.
    pub fn with_order(self, order: Option<Vec<u32>>) -> Problem
        requires { IfSome order (λ list. IsOrderWithin (process_count self) list.items) }
        ensures { result ≡ record self { order = option_map (λ list. list.items) order } }
    {
        Problem { order, ..self }
    }

    /// Returns the most faults in one cycle.
    pub fn faults(&self) -> u8
        ensures faults { result ≡ self.now.faults }
        ensures within { IsWithinLimits self.now }
    {
        self.faults
    }

    /// Returns the deadline of the whole graph, in time units.
    pub fn deadline(&self) -> u64
        ensures deadline { result ≡ self.now.deadline }
        ensures within { IsWithinLimits self.now }
    {
        self.deadline
    }

    /// Returns the names of the nodes, by number.
    pub fn nodes(&self) -> &[Name]
        ensures nodes { result.now ≡ self.now.nodes }
        ensures within { IsWithinLimits self.now }
    {
        self.nodes.as_slice()
    }

    /// Returns the slots, in their order in the round.
    pub fn slots(&self) -> &[Slot]
        ensures slots { result.now ≡ self.now.slots }
        ensures within { IsWithinLimits self.now }
    {
        self.slots.as_slice()
    }

    /// Returns the processes, by number.
    pub fn processes(&self) -> &[Process]
        ensures processes { result.now ≡ self.now.processes }
        ensures within { IsWithinLimits self.now }
    {
        self.processes.as_slice()
    }

    /// Returns the edges, by number.
    pub fn edges(&self) -> &[Edge]
        ensures edges { result.now ≡ self.now.edges }
        ensures within { IsWithinLimits self.now }
    {
        self.edges.as_slice()
    }

    /// Returns the numbers of the processes in the order to compile under, and `None` exactly if the graph gives no order.
    pub fn given_order(&self) -> Option<&[u32]>
        ensures order { option_map (λ list. list.now) result ≡ self.now.order }
        ensures within { IsWithinLimits self.now }
    {
        self.order.as_ref().map(|order| order.as_slice())
    }

    /// Returns the length of a round of the bus, in time units: of all slots together.
    pub fn round(&self) -> u64
        ensures { result ≡ round self.now }
    {
        round_of(self.slots.as_slice())
    }

    /// Returns how many conditions there are.
    pub fn conditions(&self) -> u32
        ensures count { result ≡ condition_count self.now }
        ensures few { result ≤ 32 }
    {
        // at most 32, so the cast keeps it
        self.conditions.count() as u32
    }

    /// Returns the number of a process's condition, and `None` exactly if it has none.
    pub fn condition_of(&self, process: u32) -> Option<u32>
        requires { process < process_count self.now }
        ensures { result ≡ condition_of self.now process }
    {
        self.conditions.of_process(process)
    }

    /// Returns the process of a condition.
    pub fn process_of(&self, condition: u32) -> u32
        requires { condition < condition_count self.now }
        ensures process { result ≡ process_of self.now condition }
        ensures within { result < process_count self.now }
        ensures back { condition_of self.now result ≡ Some condition }
    {
        self.conditions.processes()[condition as usize]
    }

    /// Returns how long an execution of a process with `faults` faults lasts at most: the work, for each part a detection
    /// and a checkpoint, and for each fault a recovery and one part, rounded up, with its detection once more.
    pub fn duration(&self, process: u32, faults: u8) -> u64
        requires process { process < process_count self.now }
        requires faults { faults ≤ self.now.faults }
        ensures duration { result ≡ duration self.now process faults }
        ensures short { result < 2 ^ 40 }
    {
        self.processes[process as usize].duration(faults)
    }

    /// Returns the time before which a process doesn't start.
    pub fn release(&self, process: u32) -> u64
        requires { process < process_count self.now }
        ensures { result ≡ (process_at self.now process).release }
    {
        self.processes[process as usize].release
    }

    /// Returns when a process has to have ended: the lesser of the graph's deadline and its own, if it has one.
    pub fn due(&self, process: u32) -> u64
        requires { process < process_count self.now }
        ensures { result ≡ due self.now process }
    {
        match self.processes[process as usize].deadline {
            Some(own) => own.min(self.deadline),
            None => self.deadline,
        }
    }

    /// Returns a copy of the order to compile under; `None` if the graph gives none.
    pub fn order_copy(&self) -> Result<Option<Vec<u32>>, OutOfMemory>
        ensures { IfOk result (λ copy. option_map (λ list. list.items) copy ≡ self.now.order) }
    {
        match &self.order {
            Some(order) => Ok(Some(order.clone()?)),
            None => Ok(None),
        }
    }

    /// Returns a copy of the graph.
    pub fn copy(&self) -> Result<Problem, OutOfMemory>
        ensures { IfOk result (λ problem. problem ≡ self.now) }
    {
        Ok(Problem {
            faults: self.faults,
            deadline: self.deadline,
            nodes: self.nodes.clone()?,
            slots: self.slots.clone()?,
            processes: self.processes.clone()?,
            edges: self.edges.clone()?,
            order: self.order_copy()?,
            conditions: self.conditions.copy(),
        })
    }
}
