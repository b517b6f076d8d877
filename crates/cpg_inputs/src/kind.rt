//! The kinds of files that a command reads, and their limits.
ghost use Rattle.std.specs.Prelude.{◌≡◌};
ghost use Rattle.cpg_inputs.specs.Files.{limit_of, long_of};

use cpg_refusal::Refusal;

/// The most bytes of a graph file: 2^24.
const GRAPH_LIMIT: usize = 16_777_216;

/// The most bytes of a scenario file: 2^24.
const SCENARIO_LIMIT: usize = 16_777_216;

/// The most bytes of a log: 2^24.
const LOG_LIMIT: usize = 16_777_216;

/// The most bytes of a pack: 2^28.
const PACK_LIMIT: usize = 268_435_456;

/// What a file is read as.
#[derive(Clone, Copy, Debug, PartialEq, Eq)]
pub enum FileKind {
    /// A graph, which is admitted.
    GraphFile,
    /// A graph that is a part of one of several periods. It isn't admitted.
    PartFile,
    /// A pack: the tables of all nodes.
    PackFile,
    /// What happens in a play of the graph that was read before.
    ScenarioFile,
    /// What the nodes of the graph that was read before did.
    LogFile,
}

impl FileKind {
    /// Returns the most bytes that a file of this kind may have.
    pub(crate) fn limit(self) -> usize
        ensures { result ≡ limit_of self }
    {
        match self {
            FileKind::GraphFile => GRAPH_LIMIT,
            FileKind::PartFile => GRAPH_LIMIT,
            FileKind::PackFile => PACK_LIMIT,
            FileKind::ScenarioFile => SCENARIO_LIMIT,
            FileKind::LogFile => LOG_LIMIT,
        }
    }

    /// Returns the refusal of a file of this kind that has more bytes than its limit.
    pub fn long(self) -> Refusal
        ensures { result ≡ long_of self }
    {
        match self {
            FileKind::GraphFile => Refusal::LongGraph,
            FileKind::PartFile => Refusal::LongGraph,
            FileKind::PackFile => Refusal::LongPack,
            FileKind::ScenarioFile => Refusal::LongScenario,
            FileKind::LogFile => Refusal::LongLog,
        }
    }
}

/// States the limits of files, in bytes, in its contract.
pub fn limits_are_these()
    ensures graph { GRAPH_LIMIT ≡ 16777216 }
    ensures scenario { SCENARIO_LIMIT ≡ 16777216 }
    ensures log { LOG_LIMIT ≡ 16777216 }
    ensures pack { PACK_LIMIT ≡ 268435456 }
{}
