//! Why a graph file is refused, and at which place.

ghost use Rattle.std.specs.Prelude.{◌≡◌};
ghost use Rattle.cpg_reader.specs.Rows.{text_of};
ghost use Rattle.cpg_reader.specs.Names.{name_place};
ghost use Rattle.cpg_reader.specs.declared.place.ReadFault.TheVariants.{OutOfMemory as MemoryFault};

use std::alloc::{AllocError, AllocFailed};

/// A kind of table of the document: its top, or the elements of one of its lists.
#[derive(Clone, Copy, Debug, PartialEq, Eq)]
pub enum Table {
    /// The top of the document.
    Top,
    /// An element of the list `node`.
    Node,
    /// An element of the list `slot`.
    Slot,
    /// An element of the list `process`.
    Process,
    /// An element of the list `edge`.
    Edge,
}

/// A key of the format, or `Unknown` for a key that its table may not have.
#[derive(Clone, Copy, Debug, PartialEq, Eq)]
pub enum Key {
    /// The most faults in one cycle, at the top.
    Faults,
    /// The deadline of the graph, at the top, or a process's own.
    Deadline,
    /// The list of the nodes, at the top, or the node of a slot or a process.
    Node,
    /// The list of the slots, at the top.
    Slot,
    /// The list of the processes, at the top.
    Process,
    /// The list of the edges, at the top.
    Edge,
    /// The order to compile under, at the top.
    Order,
    /// The name of a node or a process.
    Name,
    /// The length of a slot.
    Length,
    /// How many bytes a slot holds, or an edge's message has.
    Bytes,
    /// The longest time of a process's work alone.
    Wcet,
    /// Into how many parts an execution is cut.
    Parts,
    /// The time to detect a fault.
    Alpha,
    /// The time to save a checkpoint.
    Chi,
    /// The time to recover from a fault.
    Mu,
    /// Whether a process is a join.
    Join,
    /// Whether a start or a message is frozen.
    Frozen,
    /// The time before which a process doesn't start.
    Release,
    /// The process that an edge leads away from.
    From,
    /// The process that an edge leads to.
    To,
    /// The value for which an edge is live.
    When,
    /// Any key that its table may not have.
    Unknown,
}

/// A place in the document: a key of its top, or of an element of one of its lists.
#[derive(Clone, Copy, Debug, PartialEq, Eq)]
pub struct Place {
    /// The top, or the list.
    pub table: Table,
    /// The index of the element in the list, from 0; for the top, 0.
    pub index: u64,
    /// The key.
    pub key: Key,
}

impl Place {
    /// Returns the place of a name in a list: a key of the element that has it or, for a name of the order, the key of
    /// the top.
    pub fn of_name(table: Table, index: u64, key: Key) -> Place
        ensures { result ≡ name_place table index key }
    {
        let index = match table {
            // the order is one value at the top
            Table::Top => 0,
            _ => index,
        };
        Place { table, index, key }
    }
}

/// What is beyond its limit: how many there are of something, or a number at a place.
#[derive(Clone, Copy, Debug, PartialEq, Eq)]
pub enum What {
    /// There are too many nodes.
    Nodes,
    /// There are too many slots.
    Slots,
    /// There are too many processes.
    Processes,
    /// There are too many edges.
    Edges,
    /// The number at this place is out of range.
    Number(Place),
    /// There are too many conditions, which are the processes with a conditional edge.
    Conditions,
}

/// Why a graph file is refused. Of several places it has the first.
#[derive(Clone, Copy, Debug, PartialEq, Eq)]
pub enum ReadFault {
    /// The bytes aren't UTF-8, or they are no TOML document.
    NotToml,
    /// A required key is missing, a value has another type, a text isn't a name, or a key isn't of this table. The
    /// first place counts by table, then by element, then by the key's place in the format, where an unknown key comes
    /// last.
    BadField(Place),
    /// Two nodes or two processes have one name, two slots have one node, or a name stands twice in the order. The
    /// place is that of the later one.
    DoubleName(Place),
    /// No node, or no process, has the name at this place.
    UnknownName(Place),
    /// There is more of something than its limit, or a number is outside its range.
    OverLimit(What),
    /// Memory ran out.
    OutOfMemory,
}

impl From<AllocError> for ReadFault {
    ghost from_gives = { λ _ e. e ≡ MemoryFault };

    fn from(_: AllocError) -> Self {
        ReadFault::OutOfMemory
    }
}

impl<T: Drop> From<AllocFailed<T>> for ReadFault {
    ghost from_gives = { λ _ e. e ≡ MemoryFault };

    fn from(_: AllocFailed<T>) -> Self {
        ReadFault::OutOfMemory
    }
}

impl From<cpg_base::OutOfMemory> for ReadFault {
    ghost from_gives = { λ _ e. e ≡ MemoryFault };

    fn from(_: cpg_base::OutOfMemory) -> Self {
        ReadFault::OutOfMemory
    }
}

impl Key {
    /// Returns the key as it is written, or the empty text for `Unknown`.
    pub fn text(self) -> &'static str
        ensures { result.now ≡ text_of self }
    {
        match self {
            Key::Faults => "faults",
            Key::Deadline => "deadline",
            Key::Node => "node",
            Key::Slot => "slot",
            Key::Process => "process",
            Key::Edge => "edge",
            Key::Order => "order",
            Key::Name => "name",
            Key::Length => "length",
            Key::Bytes => "bytes",
            Key::Wcet => "wcet",
            Key::Parts => "parts",
            Key::Alpha => "alpha",
            Key::Chi => "chi",
            Key::Mu => "mu",
            Key::Join => "join",
            Key::Frozen => "frozen",
            Key::Release => "release",
            Key::From => "from",
            Key::To => "to",
            Key::When => "when",
            Key::Unknown => "",
        }
    }
}
