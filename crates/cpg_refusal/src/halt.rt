//! Why a run stops without an output.
ghost use Rattle.std.specs.Prelude.{◌≡◌, IfErr};
ghost use Rattle.cpg_refusal.specs.Lines.{status_of};
ghost use Rattle.cpg_refusal.specs.Halts.{halt_of_reading, halt_of_pack, halt_of_rules, halt_of_scenario, halt_of_parts};

use cpg_base::{Problem, Scenario};
use cpg_codec::PackFault;
use cpg_hyper::HyperFault;
use cpg_order::Walk;
use cpg_reader::{Place, ReadFault, What};
use cpg_rules::{Admitted, Refused, RuleFault};
use cpg_scenario::{Cause, ScenarioFault};
use cpg_table::Fault;
use cpg_violation::HeadPart;

/// Why a file or a command is refused. If there are several such places, it is the first one.
#[derive(Drop)]
pub enum Refusal {
    /// The graph file isn't UTF-8, or it is no TOML document.
    NotToml,
    /// A field of the graph file is missing, has another type, or isn't one of its table.
    BadField(Place),
    /// A name of the graph file, or the node of a slot, is given twice: the second place.
    DoubleName(Place),
    /// A name of the graph file names nothing.
    UnknownName(Place),
    /// The graph file has more of something than its limit, or a number outside its range.
    OverLimit(What),
    /// The edges of the graph lead around in a cycle.
    Cycle {
        /// The graph.
        graph: Problem,
        /// The processes of the cycle, the least first.
        walk: Walk,
    },
    /// Some outcome gives a join of the graph two live inputs.
    TwoAlternatives {
        /// The graph.
        graph: Problem,
        /// The least such join.
        process: u32,
        /// The least scenario in which it has two live inputs.
        scenario: Scenario,
    },
    /// A node of the graph sends and has no slot.
    NoSlot {
        /// The graph.
        graph: Problem,
        /// The least such node.
        node: u32,
    },
    /// A message has more bytes than its sender's slot takes: the least such edge.
    TooBig(u32),
    /// The order that the graph gives isn't topological.
    BadOrder {
        /// The graph.
        graph: Problem,
        /// The least process that is lacking in it, or if none is lacking, the first in it that comes before the source of
        /// one of its inputs.
        process: u32,
    },
    /// The bytes are no pack. The number is the length of the longest prefix of them that is a prefix of some pack.
    BadPack(u64),
    /// The bytes are no scenario file of the graph.
    BadScenario(Cause),
    /// The bytes are no log of the graph: the first line that can't be of one, counted from 0.
    BadLog(u64),
    /// The graph file gave more than 16,777,216 bytes.
    LongGraph,
    /// The pack gave more than 268,435,456 bytes.
    LongPack,
    /// The scenario file gave more than 16,777,216 bytes.
    LongScenario,
    /// The log gave more than 16,777,216 bytes.
    LongLog,
    /// The pack is another graph's: the first part of its head that differs.
    OtherGraph(HeadPart),
    /// The graph has more than 16,384 tracks.
    TooManyTracks,
    /// No node of the pack has the name.
    UnknownNode,
    /// The parts of a graph of several periods have no graph together.
    NoHypergraph(HyperFault),
}

/// Why a run stops without an output.
#[derive(Drop)]
pub enum Halt {
    /// The words of the command have none of its forms.
    Words,
    /// The shelf met a fault, so a file couldn't be read.
    Read,
    /// A file or the command is refused.
    Refused(Refusal),
    /// A process ends past its due.
    Late {
        /// The graph.
        graph: Admitted,
        /// The least scenario that has the greatest excess.
        scenario: Scenario,
        /// The least process that has this excess in that scenario.
        process: u32,
        /// When it ends in that scenario, in time units.
        finish: u64,
    },
    /// An item is too wide.
    TooWide {
        /// The graph.
        graph: Admitted,
        /// The least such item.
        item: u32,
    },
    /// The tables of a pack break a rule.
    Unsafe {
        /// The graph.
        graph: Admitted,
        /// The first violation.
        fault: Fault,
    },
    /// Memory ran out.
    Memory,
}

impl Halt {
    /// Returns the exit status of a run that halts so. It is neither 0, which is success, nor 3, a fault of a sink.
    pub fn status(&self) -> u8
        ensures { result ≡ status_of self.now }
    {
        match self {
            Halt::Words => 1,
            Halt::Read => 2,
            Halt::Refused(_) => 4,
            Halt::Late { .. } => 5,
            Halt::TooWide { .. } => 6,
            Halt::Unsafe { .. } => 7,
            Halt::Memory => 8,
        }
    }

    /// Returns why a run halts whose graph file can't be read: memory ran out, or the file is refused.
    pub fn of_reading(fault: ReadFault) -> Halt
        ensures { result ≡ halt_of_reading fault }
    {
        match fault {
            ReadFault::NotToml => Halt::Refused(Refusal::NotToml),
            ReadFault::BadField(place) => Halt::Refused(Refusal::BadField(place)),
            ReadFault::DoubleName(place) => Halt::Refused(Refusal::DoubleName(place)),
            ReadFault::UnknownName(place) => Halt::Refused(Refusal::UnknownName(place)),
            ReadFault::OverLimit(what) => Halt::Refused(Refusal::OverLimit(what)),
            ReadFault::OutOfMemory => Halt::Memory,
        }
    }

    /// Returns why a run halts whose pack can't be read: memory ran out, or the file is refused.
    pub fn of_pack(fault: PackFault) -> Halt
        ensures { result ≡ halt_of_pack fault }
    {
        match fault {
            PackFault::BadPack(length) => Halt::Refused(Refusal::BadPack(length)),
            PackFault::OutOfMemory => Halt::Memory,
        }
    }

    /// Returns why a run halts whose scenario file can't be read: memory ran out, or the file is refused.
    pub fn of_scenario(fault: ScenarioFault) -> Halt
        ensures { result ≡ halt_of_scenario fault }
    {
        match fault {
            ScenarioFault::Bad(cause) => Halt::Refused(Refusal::BadScenario(cause)),
            ScenarioFault::OutOfMemory => Halt::Memory,
        }
    }

    /// Returns why a run halts whose graph isn't admitted: memory ran out, or the graph is refused.
    pub fn of_rules(refused: Refused) -> Halt
        ensures { result ≡ halt_of_rules refused.problem refused.fault }
    {
        let Refused {
            problem: graph,
            fault,
        } = refused;
        match fault {
            RuleFault::Cycle(walk) => Halt::Refused(Refusal::Cycle { graph, walk }),
            RuleFault::TooManyTracks => Halt::Refused(Refusal::TooManyTracks),
            RuleFault::TwoAlternatives { process, least } => {
                Halt::Refused(Refusal::TwoAlternatives {
                    graph,
                    process,
                    scenario: least,
                })
            }
            RuleFault::NoSlot(node) => Halt::Refused(Refusal::NoSlot { graph, node }),
            RuleFault::TooBig(edge) => Halt::Refused(Refusal::TooBig(edge)),
            RuleFault::BadOrder(process) => Halt::Refused(Refusal::BadOrder { graph, process }),
            RuleFault::OutOfMemory => Halt::Memory,
        }
    }

    /// Returns why a run halts whose parts have no graph together: memory ran out, or the parts are refused.
    pub fn of_parts(fault: HyperFault) -> Halt
        ensures { result ≡ halt_of_parts fault }
    {
        match fault {
            HyperFault::OutOfMemory => Halt::Memory,
            _ => Halt::Refused(Refusal::NoHypergraph(fault)),
        }
    }
}
