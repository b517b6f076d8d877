//! The head of a pack, which says what its tables are made for.
ghost use Rattle.std.specs.Prelude.{◌≡◌, ◌↔◌, ◌≤◌, ◌<◌, ◌^◌, IsTrue, IfOk, IfSome, IfNone, All, None, Some, count_by, length, option_map};
ghost use Rattle.cpg_head.specs.GraphHead.{head_of};
ghost use Rattle.cpg_head.specs.Head.{IsHead, IsHeadProcess, IsHeadEdge, IsExtra, AreExtras, version_of, extra_at};

use crate::graph_head::{head_edges, head_extras, head_nodes, head_processes};
use crate::{Extra, HeadProcess};
use cpg_base::{
    LONGEST, MOST_CONDITIONS, MOST_EDGES, MOST_FAULTS, MOST_NODES, MOST_PROCESSES, Name,
    OutOfMemory, Problem,
};
use std::alloc::Global;
use std::marker::Model;

/// All durations in a head are below this, in time units of the graph file.
pub const TIME_END: u64 = 1 << 60;

/// The head of a pack: what its tables are made for (docs/FORMATS.md). It is seen as the most faults, the nodes' names, the
/// processes, the edges by the processes that they lead from and to and, in version 2 only, an `Extra` for each process.
#[derive(Drop)]
pub struct Head {
    /// The most faults in a cycle that the tables tolerate.
    faults: u8,
    /// The names of the nodes.
    nodes: Vec<Name>,
    /// The processes, by number.
    processes: Vec<HeadProcess>,
    /// The processes that each edge leads from and to.
    edges: Vec<(u32, u32)>,
    /// What version 2 adds for each process; `None` in version 1.
    extras: Option<Vec<Extra>>,
}

impl Model for Head {
    ghost use Rattle.std.specs.Prelude.{option_map};
    ghost use Rattle.cpg_head.specs.Head.{Head, IsHead};

    ghost Value = { Head };

    ghost view = { λ h. record {
      faults = h.faults;
      nodes = h.nodes.items;
      processes = h.processes.items;
      edges = h.edges.items;
      extras = option_map (λ v. v.items) h.extras;
    } };

    ghost invariant = { λ h. IsHead (record {
      faults = h.faults;
      nodes = h.nodes.items;
      processes = h.processes.items;
      edges = h.edges.items;
      extras = option_map (λ v. v.items) h.extras;
    }) };
}

/// Whether there are no more faults, nodes, processes and edges than a head may have.
fn are_counts_within(faults: u8, nodes: usize, processes: usize, edges: usize) -> bool
    ensures { IsTrue result ↔ ((faults ≤ MOST_FAULTS) × (nodes ≤ MOST_NODES) × (processes ≤ MOST_PROCESSES) × (edges ≤ MOST_EDGES)) }
{
    if faults > MOST_FAULTS || nodes > MOST_NODES {
        return false;
    }
    processes <= MOST_PROCESSES && edges <= MOST_EDGES
}

/// Returns how many processes have a condition.
pub fn condition_count(processes: &[HeadProcess]) -> usize
    ensures { result ≡ count_by (λ p. p.condition) processes.now }
{
    processes.iter().filter(|process| process.condition).count()
}

/// Whether all durations of a process are below 2^60.
fn are_times_within(times: &[u64]) -> bool
    ensures { IsTrue result ↔ All (λ t. t < 2 ^ 60) times.now }
{
    times.iter().all(|time| *time < TIME_END)
}

/// Whether a process is on one of the nodes, and has a duration in range for each number of faults.
fn is_process_within(process: &HeadProcess, faults: u8, nodes: usize) -> bool
    ensures { IsTrue result ↔ IsHeadProcess faults nodes process.now }
{
    if process.node as usize >= nodes {
        return false;
    }
    let times = process.times.times();
    if times.len() != faults as usize + 1 {
        return false;
    }
    are_times_within(times)
}

/// Whether each process is on one of the nodes, and has a duration in range for each number of faults.
fn are_processes_within(processes: &[HeadProcess], faults: u8, nodes: usize) -> bool
    ensures { IsTrue result ↔ All (IsHeadProcess faults nodes) processes.now }
{
    processes
        .iter()
        .all(|process| is_process_within(process, faults, nodes))
}

/// Whether an edge leads from one of the processes to one of them.
fn is_edge_within(edge: (u32, u32), processes: usize) -> bool
    ensures { IsTrue result ↔ IsHeadEdge processes edge }
{
    (edge.0 as usize) < processes && (edge.1 as usize) < processes
}

/// Whether each edge leads from one of the processes to one of them.
fn are_edges_within(edges: &[(u32, u32)], processes: usize) -> bool
    ensures { IsTrue result ↔ All (IsHeadEdge processes) edges.now }
{
    edges.iter().all(|edge| is_edge_within(*edge, processes))
}

/// Whether a release, and a deadline if there is one, are at most the longest time.
fn is_extra_within(extra: Extra) -> bool
    ensures { IsTrue result ↔ IsExtra extra }
{
    // `None` is no deadline of the process's own, which is in range
    let due = match extra.deadline {
        Some(deadline) => deadline <= LONGEST,
        None => true,
    };
    extra.release <= LONGEST && due
}

/// Whether the release of each extra, and its deadline if it has one, are at most the longest time.
fn are_extras_within(extras: &[Extra]) -> bool
    ensures { IsTrue result ↔ All IsExtra extras.now }
{
    extras.iter().all(|extra| is_extra_within(*extra))
}

/// Returns a copy of the extras, or `None` if there are none. The one error is `OutOfMemory`.
fn copy_extras(extras: &Option<Vec<Extra>>) -> Result<Option<Vec<Extra>>, OutOfMemory>
    ensures { IfOk result (λ copy. option_map (λ v. v.items) copy ≡ option_map (λ v. v.items) extras.now) }
{
    match extras {
        Some(list) => Ok(Some(list.clone()?)),
        None => Ok(None),
    }
}

impl Head {
    /// Returns a head of version 1; `None` exactly if there are too many of a kind, or some number is out of range.
    pub fn new(
        faults: u8,
        nodes: Vec<Name>,
        processes: Vec<HeadProcess>,
        edges: Vec<(u32, u32)>,
    ) -> Option<Head>
        ensures head { IfSome result (λ h. h ≡ record {
          faults = faults;
          nodes = nodes.items;
          processes = processes.items;
          edges = edges.items;
          extras = None;
        }) }
        ensures within { IfSome result IsHead }
        ensures refused { IfNone result (¬ IsHead (record {
          faults = faults;
          nodes = nodes.items;
          processes = processes.items;
          edges = edges.items;
          extras = None;
        })) }
    {
        if !are_counts_within(faults, nodes.len(), processes.len(), edges.len()) {
            return None;
        }
        if condition_count(processes.as_slice()) > MOST_CONDITIONS {
            return None;
        }
        if !are_processes_within(processes.as_slice(), faults, nodes.len()) {
            return None;
        }
        if !are_edges_within(edges.as_slice(), processes.len()) {
            return None;
        }
        Some(Head {
            faults,
            nodes,
            processes,
            edges,
            extras: None,
        })
    }

    /// Returns the head in version 2, with these extras; `None` exactly if there isn't one `Extra` for each process, or some time
    /// in them is above 10^9.
    pub fn with_extras(self, extras: Vec<Extra>) -> Option<Head>
        ensures head { IfSome result (λ h. h ≡ record self { extras = Some extras.items }) }
        ensures within { IfSome result IsHead }
        ensures refused { IfNone result (¬ AreExtras (length self.processes) extras.items) }
    {
        if extras.len() != self.processes.len() {
            return None;
        }
        if !are_extras_within(extras.as_slice()) {
            return None;
        }
        Some(Head {
            faults: self.faults,
            nodes: self.nodes,
            processes: self.processes,
            edges: self.edges,
            extras: Some(extras),
        })
    }

    /// Returns the most faults in a cycle that the tables tolerate.
    pub fn faults(&self) -> u8
        ensures faults { result ≡ self.now.faults }
        ensures within { IsHead self.now }
    {
        self.faults
    }

    /// Returns the names of the nodes, by number.
    pub fn nodes(&self) -> &[Name]
        ensures nodes { result.now ≡ self.now.nodes }
        ensures within { IsHead self.now }
    {
        self.nodes.as_slice()
    }

    /// Returns the processes, by number.
    pub fn processes(&self) -> &[HeadProcess]
        ensures processes { result.now ≡ self.now.processes }
        ensures within { IsHead self.now }
    {
        self.processes.as_slice()
    }

    /// Returns for each edge the processes that it leads from and to.
    pub fn edges(&self) -> &[(u32, u32)]
        ensures edges { result.now ≡ self.now.edges }
        ensures within { IsHead self.now }
    {
        self.edges.as_slice()
    }

    /// Returns the version of a pack with this head, 1 or 2.
    pub fn version(&self) -> u8
        ensures { result ≡ version_of self.now }
    {
        if self.extras.is_some() { 2 } else { 1 }
    }

    /// Returns what version 2 adds for a process; `None` exactly in version 1.
    pub fn extra(&self, process: u32) -> Option<&Extra>
        requires { process < length self.now.processes }
        ensures extra { option_map (λ e. e.now) result ≡ extra_at self.now process }
        ensures none { IfNone result (self.now.extras ≡ None) }
    {
        match &self.extras {
            Some(extras) => Some(&extras[process as usize]),
            None => None,
        }
    }

    /// Returns an equal head. The one error is `OutOfMemory`.
    pub fn copy(&self) -> Result<Head, OutOfMemory>
        ensures { IfOk result (λ head. head ≡ self.now) }
    {
        Ok(Head {
            faults: self.faults,
            nodes: self.nodes.clone()?,
            processes: self.processes.clone()?,
            edges: self.edges.clone()?,
            extras: copy_extras(&self.extras)?,
        })
    }
}

/// Returns the head of tables for a graph. It is of version 1 exactly if no process has a release above 0 or a deadline of its
/// own. The one error is `OutOfMemory`.
pub fn head_of(alloc: Global, problem: &Problem) -> Result<Head, OutOfMemory>
    ensures { IfOk result (λ head. head ≡ head_of problem.now) }
{
    Ok(Head {
        faults: problem.faults(),
        nodes: head_nodes(alloc, problem.nodes())?,
        processes: head_processes(alloc, problem)?,
        edges: head_edges(alloc, problem.edges())?,
        extras: head_extras(alloc, problem)?,
    })
}
