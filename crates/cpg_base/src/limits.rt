//! The limits of a graph file, and tests of them.
ghost use Rattle.std.specs.Prelude.{◌≡◌, ◌≢◌, ◌↔◌, ◌≤◌, ◌==◌, IsTrue, IfSome, All, AllPairs};
ghost use Rattle.std.specs.List.{list_any};
ghost use Rattle.std.specs.Str.{bytes_eq};
ghost use Rattle.cpg_base.specs.Numbers.{are_apart};
ghost use Rattle.cpg_base.specs.Limits.{IsProcessWithin, IsSlotWithin, IsEdgeWithin};

use crate::{Edge, Name, Process, Slot};

/// The most faults that a cycle may have.
pub const MOST_FAULTS: u8 = 8;
/// The most nodes, and the most slots, that a graph may have.
pub const MOST_NODES: usize = 16;
/// The most processes that a graph may have.
pub const MOST_PROCESSES: usize = 128;
/// The most edges that a graph may have.
pub const MOST_EDGES: usize = 256;
/// The most conditions that a graph may have.
pub const MOST_CONDITIONS: usize = 32;
/// The most parts that an execution may be cut into.
pub const MOST_PARTS: u32 = 255;
/// The most tracks that a graph may have. A track is an outcome without the conditions of inactive processes.
pub const MOST_TRACKS: u64 = 16_384;
/// The most columns that a row may have.
pub const MOST_COLUMNS: u64 = 16_384;
/// The most columns that the rows of all nodes together may have.
pub const MOST_LOAD: u64 = 524_288;
/// The greatest time in a graph file, in its time units: a deadline, a release, a cost or the length of a slot.
pub const LONGEST: u64 = 1_000_000_000;
/// The greatest size of a message or a slot, in bytes.
pub const LARGEST: u32 = 65_535;

/// Whether the costs of a detection, a checkpoint and a recovery are in range.
fn are_costs_within(process: &Process) -> bool
    ensures { IsTrue result ↔ ((process.now.alpha ≤ LONGEST) × (process.now.chi ≤ LONGEST) × (process.now.mu ≤ LONGEST)) }
{
    process.alpha <= LONGEST && process.chi <= LONGEST && process.mu <= LONGEST
}

/// Whether the release of a process is in range, and its own deadline too, if it has one.
fn is_window_within(process: &Process) -> bool
    ensures { IsTrue result ↔ ((process.now.release ≤ LONGEST) × IfSome process.now.deadline (λ d. d ≤ LONGEST)) }
{
    // without a deadline of its own there is nothing to test
    let due = match process.deadline {
        Some(deadline) => deadline <= LONGEST,
        None => true,
    };
    process.release <= LONGEST && due
}

/// Whether a process is on one of `nodes` nodes, and each of its numbers is in range.
fn is_process_within(process: &Process, nodes: usize) -> bool
    ensures { IsTrue result ↔ IsProcessWithin nodes process.now }
{
    // the node has to be there, and the work to take some time
    if process.node as usize >= nodes || process.wcet == 0 || process.wcet > LONGEST {
        return false;
    }
    // the work is cut into at least one part
    if process.parts == 0 || process.parts > MOST_PARTS {
        return false;
    }
    are_costs_within(process) && is_window_within(process)
}

/// Whether a slot belongs to one of `nodes` nodes, and its numbers are in range.
fn is_slot_within(slot: &Slot, nodes: usize) -> bool
    ensures { IsTrue result ↔ IsSlotWithin nodes slot.now }
{
    // the node has to be there, and the slot to take some time
    if slot.node as usize >= nodes || slot.length == 0 || slot.length > LONGEST {
        return false;
    }
    1 <= slot.bytes && slot.bytes <= LARGEST
}

/// Whether an edge leads from one of `processes` processes to one of them, and its size is in range.
fn is_edge_within(edge: &Edge, processes: usize) -> bool
    ensures { IsTrue result ↔ IsEdgeWithin processes edge.now }
{
    // both ends have to be there
    if edge.from as usize >= processes || edge.to as usize >= processes {
        return false;
    }
    1 <= edge.size && edge.size <= LARGEST
}

/// Whether all these processes are within the limits, in a graph of `nodes` nodes.
pub fn are_processes_within(processes: &[Process], nodes: usize) -> bool
    ensures { IsTrue result ↔ All (IsProcessWithin nodes) processes.now }
{
    processes
        .iter()
        .all(|process| is_process_within(process, nodes))
}

/// Whether all these slots are within the limits, in a graph of `nodes` nodes.
pub fn are_slots_within(slots: &[Slot], nodes: usize) -> bool
    ensures { IsTrue result ↔ All (IsSlotWithin nodes) slots.now }
{
    slots.iter().all(|slot| is_slot_within(slot, nodes))
}

/// Whether all these edges are within the limits, in a graph of `processes` processes.
pub fn are_edges_within(edges: &[Edge], processes: usize) -> bool
    ensures { IsTrue result ↔ All (IsEdgeWithin processes) edges.now }
{
    edges.iter().all(|edge| is_edge_within(edge, processes))
}

/// Whether a name is one of these.
fn has_name(names: &[Name], name: &Name) -> bool
    ensures { result ≡ list_any (bytes_eq name.now) names.now }
{
    names.iter().any(|other| name.as_str() == other.as_str())
}

/// Whether no two of these names are equal.
fn names_differ(names: &[Name]) -> bool
    ensures { result ≡ are_apart bytes_eq names.now }
{
    // no name is left to compare
    let Some((first, rest)) = names.split_first() else {
        return true;
    };
    // a later name is the same as the first
    if has_name(rest, first) {
        return false;
    }
    names_differ(rest)
}

/// Whether one of these processes has the name.
fn has_process(processes: &[Process], name: &Name) -> bool
    ensures { result ≡ list_any (λ q. bytes_eq name.now q.name) processes.now }
{
    processes
        .iter()
        .any(|other| name.as_str() == other.name.as_str())
}

/// Whether no two of these processes have the same name.
fn processes_differ(processes: &[Process]) -> bool
    ensures { result ≡ are_apart (λ p q. bytes_eq p.name q.name) processes.now }
{
    // no process is left to compare
    let Some((first, rest)) = processes.split_first() else {
        return true;
    };
    // a later process has the name of the first
    if has_process(rest, &first.name) {
        return false;
    }
    processes_differ(rest)
}

/// Whether one of these slots belongs to the node.
fn has_slot(slots: &[Slot], node: u32) -> bool
    ensures { result ≡ list_any (λ t. node == t.node) slots.now }
{
    slots.iter().any(|other| node == other.node)
}

/// Whether no two of these slots belong to the same node.
fn slots_differ(slots: &[Slot]) -> bool
    ensures { result ≡ are_apart (λ s t. s.node == t.node) slots.now }
{
    // no slot is left to compare
    let Some((first, rest)) = slots.split_first() else {
        return true;
    };
    // a later slot belongs to the node of the first
    if has_slot(rest, first.node) {
        return false;
    }
    slots_differ(rest)
}

/// Whether no two names are equal.
pub fn are_names_apart(names: &[Name]) -> bool
    ensures { IsTrue result ↔ AllPairs (λ a b. a ≢ b) names.now }
{
    names_differ(names)
}

/// Whether no two processes have one name.
pub fn are_processes_apart(processes: &[Process]) -> bool
    ensures { IsTrue result ↔ AllPairs (λ p q. p.name ≢ q.name) processes.now }
{
    processes_differ(processes)
}

/// Whether no two slots belong to one node.
pub fn are_slots_apart(slots: &[Slot]) -> bool
    ensures { IsTrue result ↔ AllPairs (λ s t. s.node ≢ t.node) slots.now }
{
    slots_differ(slots)
}
