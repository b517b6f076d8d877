//! The edges of each process, found once.
ghost use Rattle.std.specs.Prelude.{◌≡◌, ◌<◌, ◌++◌, ◌∷◌, [], IfOk, OnOk, List, length, get_or, map};
ghost use Rattle.cpg_base.specs.Numbers.{numbers_below};
ghost use Rattle.cpg_base.specs.Graph.{Graph, process_count, inputs, outputs};
ghost use Rattle.cpg_order.specs.Links.{links_of};

use cpg_base::{OutOfMemory, Problem};
use std::alloc::Global;
use std::marker::Model;

/// A list of edge numbers.
#[derive(Drop)]
struct EdgeList {
    /// The numbers, the lowest first.
    edges: Vec<u32>,
}

impl Model for EdgeList {
    ghost use Rattle.std.specs.Prelude.{List, ℕ};

    ghost Value = { List ℕ };

    ghost view = { λ l. l.edges.items };
}

impl EdgeList {
    /// Returns an empty list.
    fn empty(alloc: Global) -> EdgeList
        ensures { result ≡ [] }
    {
        EdgeList {
            edges: Vec::new(alloc),
        }
    }

    /// Adds an edge at the end.
    fn push(&mut self, edge: u32) -> Result<(), OutOfMemory>
        ensures { OnOk result (self.new ≡ self.old ++ edge ∷ []) }
    {
        self.edges.push(edge)?;
        Ok(())
    }

    /// Returns the edges, as a slice.
    fn as_slice(&self) -> &[u32]
        ensures { result.now ≡ self.now }
    {
        self.edges.as_slice()
    }
}

/// Returns an empty list for each of `count` processes.
fn empty_lists(alloc: Global, count: usize) -> Result<Vec<EdgeList>, OutOfMemory>
    ensures { IfOk result (λ lists. lists.items ≡ map (λ _. []) (numbers_below count)) }
{
    let mut lists = Vec::new(alloc);
    lists.reserve(count)?;
    for _ in 0..count {
        lists.push(EdgeList::empty(alloc))?;
    }
    Ok(lists)
}

/// The inputs and outputs of each process, seen as the number of processes and two lists of lists of edge numbers.
#[derive(Drop)]
pub struct Links {
    /// By process, the edges that lead to it, the lowest first.
    inputs: Vec<EdgeList>,
    /// By process, the edges that lead away from it, the lowest first.
    outputs: Vec<EdgeList>,
}

impl Model for Links {
    ghost use Rattle.std.specs.Prelude.{◌≡◌, length};
    ghost use Rattle.cpg_order.specs.Links.{EdgeLists};

    ghost Value = { EdgeLists };

    ghost view = { λ l. record { count = length l.inputs.items; inputs = l.inputs.items; outputs = l.outputs.items } };

    // both have a list for each process
    ghost invariant = { λ l. length l.outputs.items ≡ length l.inputs.items };
}

impl Links {
    /// Returns the links of a graph.
    pub fn of(alloc: Global, problem: &Problem) -> Result<Links, OutOfMemory>
        ensures { IfOk result (λ links. links ≡ links_of problem.now) }
    {
        let count = problem.processes().len();
        let mut inputs = empty_lists(alloc, count)?;
        let mut outputs = empty_lists(alloc, count)?;
        // edges are met by number, so each list rises
        for (number, edge) in problem.edges().iter().enumerate() {
            // there are at most 256 edges, so the cast keeps the number
            inputs[edge.to as usize].push(number as u32)?;
            outputs[edge.from as usize].push(number as u32)?;
        }
        Ok(Links { inputs, outputs })
    }

    /// Returns the numbers of the edges that lead to a process, the lowest first.
    pub fn inputs(&self, process: u32) -> &[u32]
        requires { process < self.now.count }
        ensures inputs { result.now ≡ get_or self.now.inputs process [] }
        // of the links of a graph these are the inputs of its process
        ensures of_graph { (g : Graph) → self.now ≡ links_of g → result.now ≡ inputs g process }
    {
        self.inputs[process as usize].as_slice()
    }

    /// Returns the numbers of the edges that lead away from a process, the lowest first.
    pub fn outputs(&self, process: u32) -> &[u32]
        requires { process < self.now.count }
        ensures outputs { result.now ≡ get_or self.now.outputs process [] }
        // of the links of a graph these are the outputs of its process
        ensures of_graph { (g : Graph) → self.now ≡ links_of g → result.now ≡ outputs g process }
    {
        self.outputs[process as usize].as_slice()
    }
}
