//! The names of processes, conditions and edges in texts. Here every error is `OutOfMemory`.
ghost use Rattle.std.specs.Prelude.{◌≡◌, ◌≤◌, IfOk, filter, length, map};
ghost use Rattle.cpg_base.specs.Graph.{disjunctions, process_at};
ghost use Rattle.cpg_label.specs.ItemText.{item_of};
ghost use Rattle.cpg_label.specs.Labels.{condition_name, edge_ends, head_labels, labels_of, process_name};

use crate::items::item_among;
use cpg_base::{Edge, Item, Name, OutOfMemory, Problem, Process};
use cpg_head::{Head, HeadProcess};
use std::alloc::Global;
use std::marker::Model;

/// The names of the processes, the names of the processes that compute the conditions, and the ends of the edges; all by
/// number.
#[derive(Drop)]
pub struct Labels<'a> {
    /// The names of the processes.
    processes: Vec<&'a Name>,
    /// The names of the processes that compute the conditions.
    conditions: Vec<&'a Name>,
    /// The processes that each edge leads from and to.
    edges: Vec<(u32, u32)>,
}

impl<'a> Model for Labels<'a> {
    ghost use Rattle.std.specs.Prelude.{map};
    ghost use Rattle.cpg_label.specs.Labels.{Labels};

    ghost Value = { Labels };

    ghost view = { λ l. record { processes = map (λ n. n.now) l.processes.items; conditions = map (λ n. n.now) l.conditions.items; edges = l.edges.items } };
}

/// Returns the names of processes.
fn process_names<'a>(alloc: Global, processes: &'a [Process]) -> Result<Vec<&'a Name>, OutOfMemory>
    ensures { IfOk result (λ names. map (λ n. n.now) names.items ≡ map (λ p. p.name) processes.entry.now) }
{
    let mut names = Vec::new(alloc);
    names.reserve(processes.len())?;
    for process in processes {
        names.push(&process.name)?;
    }
    Ok(names)
}

/// Returns the name of the process of each condition.
fn condition_names<'a>(alloc: Global, problem: &'a Problem) -> Result<Vec<&'a Name>, OutOfMemory>
    ensures { IfOk result (λ names. map (λ n. n.now) names.items ≡ map (λ p. (process_at problem.entry.now p).name) (disjunctions problem.entry.now)) }
{
    let mut names = Vec::new(alloc);
    names.reserve(problem.conditions() as usize)?;
    for condition in 0..problem.conditions() {
        let process = problem.process_of(condition);
        names.push(&problem.processes()[process as usize].name)?;
    }
    Ok(names)
}

/// Returns the source and target of each edge.
fn edge_ends(alloc: Global, edges: &[Edge]) -> Result<Vec<(u32, u32)>, OutOfMemory>
    ensures { IfOk result (λ ends. ends.items ≡ map (λ e. (e.from, e.to)) edges.now) }
{
    let mut ends = Vec::new(alloc);
    ends.reserve(edges.len())?;
    for edge in edges {
        ends.push((edge.from, edge.to))?;
    }
    Ok(ends)
}

/// Returns the names of the processes of a head.
fn head_process_names<'a>(
    alloc: Global,
    processes: &'a [HeadProcess],
) -> Result<Vec<&'a Name>, OutOfMemory>
    ensures { IfOk result (λ names. map (λ n. n.now) names.items ≡ map (λ p. p.name) processes.entry.now) }
{
    let mut names = Vec::new(alloc);
    names.reserve(processes.len())?;
    for process in processes {
        names.push(&process.name)?;
    }
    Ok(names)
}

/// Returns the names of those processes of a head that have conditions.
fn head_condition_names<'a>(
    alloc: Global,
    processes: &'a [HeadProcess],
) -> Result<Vec<&'a Name>, OutOfMemory>
    ensures { IfOk result (λ names. map (λ n. n.now) names.items ≡ map (λ p. p.name) (filter (λ p. p.condition) processes.entry.now)) }
{
    let mut names = Vec::new(alloc);
    for process in processes {
        if process.condition {
            names.push(&process.name)?;
        }
    }
    Ok(names)
}

/// Returns a copy of the ends of a head's edges.
fn head_edges(alloc: Global, edges: &[(u32, u32)]) -> Result<Vec<(u32, u32)>, OutOfMemory>
    ensures { IfOk result (λ ends. ends.items ≡ edges.now) }
{
    let mut ends = Vec::new(alloc);
    ends.extend_from_slice(edges)?;
    Ok(ends)
}

impl<'a> Labels<'a> {
    /// Returns the labels of the head of a pack.
    pub fn of_head(alloc: Global, head: &'a Head) -> Result<Labels<'a>, OutOfMemory>
        ensures { IfOk result (λ labels. labels ≡ head_labels head.entry.now) }
    {
        Ok(Labels {
            processes: head_process_names(alloc, head.processes())?,
            conditions: head_condition_names(alloc, head.processes())?,
            edges: head_edges(alloc, head.edges())?,
        })
    }

    /// Returns the labels of a graph.
    pub fn of(alloc: Global, problem: &'a Problem) -> Result<Labels<'a>, OutOfMemory>
        ensures { IfOk result (λ labels. labels ≡ labels_of problem.entry.now) }
    {
        Ok(Labels {
            processes: process_names(alloc, problem.processes())?,
            conditions: condition_names(alloc, problem)?,
            edges: edge_ends(alloc, problem.edges())?,
        })
    }

    /// Returns the name of a process; empty if there is no such process.
    pub fn process(&self, process: u32) -> &str
        ensures name { result.now ≡ process_name self.now process }
        ensures few { length result.now ≤ 32 }
    {
        match self.processes.get(process as usize) {
            Some(name) => name.as_str(),
            None => "",
        }
    }

    /// Returns the name of the process of a condition; empty if there is no such condition.
    pub fn condition(&self, condition: u32) -> &str
        ensures name { result.now ≡ condition_name self.now condition }
        ensures few { length result.now ≤ 32 }
    {
        match self.conditions.get(condition as usize) {
            Some(name) => name.as_str(),
            None => "",
        }
    }

    /// Returns the processes that an edge leads from and to; 0 and 0 if there is no such edge.
    pub fn ends(&self, edge: u32) -> (u32, u32)
        ensures { result ≡ edge_ends self.now edge }
    {
        self.edges.get(edge as usize).copied().unwrap_or((0, 0))
    }

    /// Returns the item with this number. It serves the texts of a pack, which comes without its graph.
    pub fn item(&self, number: u32) -> Item
        ensures { result ≡ item_of self.now number }
    {
        item_among(self.processes.len(), self.edges.len(), number)
    }
}
