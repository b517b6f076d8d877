//! Commands: what a command line may ask for.
ghost use Rattle.std.specs.Prelude.{◌≡◌, ◌<◌, ◌≤◌, length};
ghost use Rattle.cpg_words.specs.Forms.{one_to_four};

use crate::word::Word;
use std::marker::Model;

/// A command, with the words that it works on.
#[derive(Debug, Drop)]
pub enum Command {
    /// `show GRAPH`.
    Show {
        /// The graph file.
        graph: Word,
    },
    /// `compile GRAPH`.
    Compile {
        /// The graph file.
        graph: Word,
    },
    /// `check GRAPH PACK`.
    Check {
        /// The graph file.
        graph: Word,
        /// The file of its tables.
        pack: Word,
    },
    /// `play GRAPH PACK SCENARIO --turns N`.
    Play {
        /// The graph file.
        graph: Word,
        /// The file of its tables.
        pack: Word,
        /// The scenario file.
        scenario: Word,
        /// The number that the order of the nodes' turns comes from.
        turns: u64,
    },
    /// `node PACK NAME`.
    Node {
        /// The file of the tables.
        pack: Word,
        /// A node's name.
        name: Word,
    },
    /// `trial N`.
    Trial {
        /// The number that the graph is generated from.
        number: u64,
    },
    /// `live PACK NAME STREAM`.
    Live {
        /// The file of the tables.
        pack: Word,
        /// A node's name.
        name: Word,
        /// The file of the node's records.
        stream: Word,
    },
    /// `hyper N GRAPH`, with one to four such pairs.
    Hyper {
        /// The periods and their graphs.
        parts: Pairs,
    },
    /// `tune GRAPH`.
    Tune {
        /// The graph file.
        graph: Word,
    },
    /// `audit GRAPH PACK LOG`.
    Audit {
        /// The graph file.
        graph: Word,
        /// The file of its tables.
        pack: Word,
        /// The file of the logged acts.
        log: Word,
    },
}

/// A period, in the time units of the graph file, and the graph that has it. The period may be any `u64`, also 0.
#[derive(Debug, Drop)]
pub struct Pair {
    /// The period.
    pub period: u64,
    /// The graph file.
    pub graph: Word,
}

/// One to four pairs, seen as their list in the order of the words.
#[derive(Debug, Drop)]
pub struct Pairs {
    /// The pairs, in the order of the words.
    pairs: Vec<Pair>,
}

impl Model for Pairs {
    ghost use Rattle.std.specs.Prelude.{List, length, ◌<◌, ◌≤◌};
    ghost use Rattle.cpg_words.specs.declared.command.Pair.{Pair};

    ghost Value = { List Pair };

    ghost view = { λ p. p.pairs.items };

    ghost invariant = { λ p. (0 < length p.pairs.items) × (length p.pairs.items ≤ 4) };
}

impl Pairs {
    /// Returns these pairs if there are one to four; `None` exactly if there are fewer or more.
    pub(crate) fn new(pairs: Vec<Pair>) -> Option<Pairs>
        ensures { result ≡ one_to_four pairs.items }
    {
        if pairs.is_empty() {
            return None;
        }
        if pairs.len() > 4 {
            return None;
        }
        Some(Pairs { pairs })
    }

    /// Returns the pairs, in the order of the words.
    pub fn as_slice(&self) -> &[Pair]
        ensures pairs { result.now ≡ self.now }
        ensures some { 0 < length self.now }
        ensures few { length self.now ≤ 4 }
    {
        self.pairs.as_slice()
    }
}
