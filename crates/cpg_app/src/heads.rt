//! Facts about the head of a graph's tables, for callers' contracts. The functions change and return nothing.
ghost use Rattle.std.specs.Prelude.{All};
ghost use Rattle.cpg_base.specs.Name.{IsName};
ghost use Rattle.cpg_codec.specs.Packs.{IsPackHead};
ghost use Rattle.cpg_head.specs.GraphHead.{head_of};

use cpg_base::{Name, Problem, Process};

/// Says in its contract that these names are lawful.
fn nodes_are_named(names: &[Name])
    ensures { All IsName names.now }
{
    for name in names {
        // called for its contract: a name is lawful
        let _text = name.as_str();
    }
}

/// Says in its contract that the names of these processes are lawful.
fn processes_are_named(processes: &[Process])
    ensures { All (λ p. IsName p.name) processes.now }
{
    for process in processes {
        // called for its contract: a name is lawful
        let _text = process.name.as_str();
    }
}

/// Says in its contract that the head of a graph's tables is one that a pack may have: it is within the limits of a
/// pack, and all its names are lawful.
pub fn head_is_lawful(graph: &Problem)
    ensures { IsPackHead (head_of graph.now) }
{
    nodes_are_named(graph.nodes());
    processes_are_named(graph.processes());
}
