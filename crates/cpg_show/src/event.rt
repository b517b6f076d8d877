//! The events that a trace lists.
ghost use Rattle.std.specs.Prelude.{◌≡◌};
ghost use Rattle.cpg_show.specs.TraceEvents.{IsActWithin, event_of_act, event_of_end};

use cpg_base::{Item, Problem};
use cpg_node::{Act, Ended};

/// What a node did. The order is that of a trace at one time and node: ends, then sends, then starts.
#[derive(Clone, Copy, Debug, PartialEq, Eq, PartialOrd, Ord)]
pub enum EventKind {
    /// An execution ended.
    End {
        /// The number of the process.
        process: u32,
        /// How many faults it had.
        faults: u8,
        /// The value of its condition; false if it has none.
        value: bool,
    },
    /// A message or a broadcast was sent.
    Send {
        /// The number of the item.
        item: u32,
    },
    /// A process was started.
    Start {
        /// The number of the process.
        process: u32,
    },
}

/// What a node did, and when. The order is that of a trace: by time, then by node, then by kind.
#[derive(Clone, Copy, Debug, PartialEq, Eq, PartialOrd, Ord)]
pub struct TraceEvent {
    /// When it was, in time units of the graph file.
    pub time: u64,
    /// The number of the node.
    pub node: u32,
    /// What it was.
    pub kind: EventKind,
}

/// Returns the act of a node, a start or a send, as an event.
pub(crate) fn event_of_act(problem: &Problem, node: u32, act: &Act) -> TraceEvent
    requires { IsActWithin problem.now act.now }
    ensures { result ≡ event_of_act problem.now node act.now }
{
    let kind = match problem.item(act.item) {
        Item::Start(process) => EventKind::Start { process },
        Item::Message(_) | Item::Broadcast(_) => EventKind::Send { item: act.item },
    };
    TraceEvent {
        time: act.time,
        node,
        kind,
    }
}

/// Returns the end of an execution on a node, at the time `end.0`, as an event.
pub(crate) fn event_of_end(node: u32, end: &(u64, Ended)) -> TraceEvent
    ensures { result ≡ event_of_end node end.now }
{
    let (time, ended) = *end;
    TraceEvent {
        time,
        node,
        kind: EventKind::End {
            process: ended.process,
            faults: ended.faults,
            value: ended.value,
        },
    }
}
