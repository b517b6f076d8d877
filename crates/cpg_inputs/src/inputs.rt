//! A command together with what its files say.

use crate::parts::Parts;
use cpg_log::Log;
use cpg_rules::Admitted;
use cpg_scenario::Played;
use cpg_table::Tables;
use cpg_words::Word;

/// What a command makes of a graph, if it reads a graph alone.
#[derive(Clone, Copy, Debug, PartialEq, Eq)]
pub enum Purpose {
    /// The text of its tables.
    Show,
    /// The pack of its tables.
    Compile,
    /// Its tuning.
    Tune,
}

/// What a command asks for, with what its files say in place of their names.
#[derive(Drop)]
pub enum Inputs {
    /// For `show`, `compile` and `tune`: a graph alone.
    Graph {
        /// The graph.
        graph: Admitted,
        /// What is made of it.
        purpose: Purpose,
    },
    /// For `check`: tables to be judged for a graph.
    Check {
        /// The graph.
        graph: Admitted,
        /// Tables, of this graph or another.
        tables: Tables,
    },
    /// For `play`: tables to be judged for a graph and played.
    Play {
        /// The graph.
        graph: Admitted,
        /// Tables, of this graph or another.
        tables: Tables,
        /// The scenario and the lengths of the play's executions.
        played: Played,
        /// The number that fixes the order of the nodes' turns.
        turns: u64,
    },
    /// For `audit`: tables to be judged for a graph, and a log to be audited by them.
    Audit {
        /// The graph.
        graph: Admitted,
        /// Tables, of this graph or another.
        tables: Tables,
        /// What the nodes of the graph did.
        log: Log,
    },
    /// For `node`: the table of a node.
    Node {
        /// The tables of all nodes.
        tables: Tables,
        /// A node's name.
        name: Word,
    },
    /// For `live`: a node that is to follow a stream.
    Live {
        /// The tables of all nodes.
        tables: Tables,
        /// A node's name.
        name: Word,
        /// The name of the file with the node's records.
        stream: Word,
    },
    /// For `hyper`: the parts of a graph of several periods.
    Hyper(Parts),
    /// For `trial`: its number.
    Trial(u64),
}
