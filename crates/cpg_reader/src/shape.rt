//! Reading what a document says, by its keys and types.
ghost use Rattle.std.specs.Prelude.{◌≡◌, map};
ghost use Rattle.toml.specs.View.{table_view};
ghost use Rattle.cpg_reader.specs.Reading.{Reading, Gives, each};
ghost use Rattle.cpg_reader.specs.Rows.{DocumentRow as RowOfDocument, row_view};
ghost use Rattle.cpg_reader.specs.Shape.{read_node, read_slot, read_process, read_work, read_edge, read_link, read_rows, raw_view, read_raw, tops_view, read_tops, read_lists, read_elements};

use crate::place::{Key, ReadFault, Table};
use crate::row::DocumentRow;
use cpg_base::Name;
use std::alloc::Global;

/// An element of one of the lists of a document.
pub trait Element {
    // what is read of a table: the element, or why it is refused
    ghost reads: { RowOfDocument → Reading Self };

    /// Returns the element that a table says. A bad field is refused; the other error is that memory runs out.
    fn read(alloc: Global, row: &DocumentRow<'_>) -> Result<Self, ReadFault>
        ensures { Gives (λ x. x) result (reads (row_view row.now)) };
}

/// A slot as the document has it. In it and the records below, numbers may be out of range, and names may name nothing.
#[derive(Drop)]
pub struct RawSlot {
    /// The name of the node that sends in it.
    pub node: Name,
    /// Its length in time units.
    pub length: i64,
    /// How many bytes a frame in it holds.
    pub bytes: i64,
}

/// A process as the document has it, with the defaults of what it leaves out.
#[derive(Drop)]
pub struct RawProcess {
    /// What it is called.
    pub name: Name,
    /// The name of its node.
    pub node: Name,
    /// The longest time of its work alone.
    pub wcet: i64,
    /// Into how many parts an execution is cut; 1 by default.
    pub parts: i64,
    /// The time to detect a fault, in each part; 0 by default.
    pub alpha: i64,
    /// The time to save a checkpoint, in each part; 0 by default.
    pub chi: i64,
    /// The time to recover from a fault; 0 by default.
    pub mu: i64,
    /// Whether it is a join; by default it isn't.
    pub join: bool,
    /// Whether it starts at one time in all scenarios in which it is active; by default it needn't.
    pub frozen: bool,
    /// The time before which it doesn't start; 0 by default.
    pub release: i64,
    /// The deadline of its own, or `None` if it has none.
    pub deadline: Option<i64>,
}

/// An edge as the document has it, with the defaults of what it leaves out.
#[derive(Drop)]
pub struct RawEdge {
    /// The name of the process that it leads away from.
    pub from: Name,
    /// The name of the process that it leads to.
    pub to: Name,
    /// The size of its message in bytes; 1 by default.
    pub bytes: i64,
    /// The value of the source's condition for which it is live; `None` if it has no `when`.
    pub when: Option<bool>,
    /// Whether its message is sent at one time in all scenarios in which it is live.
    pub frozen: bool,
}

/// All that a document says, by its keys and types.
#[derive(Drop)]
pub struct RawProblem {
    /// The most faults in one cycle.
    pub faults: i64,
    /// By when every execution has to have ended.
    pub deadline: i64,
    /// The names of the nodes.
    pub nodes: Vec<Name>,
    /// The slots, in the document's order.
    pub slots: Vec<RawSlot>,
    /// The processes, in the document's order.
    pub processes: Vec<RawProcess>,
    /// The edges, in the document's order.
    pub edges: Vec<RawEdge>,
    /// The names of the processes in the order that the document gives, or `None` if it gives none.
    pub order: Option<Vec<Name>>,
}

impl Element for Name {
    ghost reads = { read_node };

    #[tactic(auto, unfolding(crate::specs::Shape::read_node))]
    fn read(alloc: Global, row: &DocumentRow<'_>) -> Result<Name, ReadFault> {
        let name = row.name(alloc, Key::Name)?;
        row.only(&[Key::Name])?;
        Ok(name)
    }
}

impl Element for RawSlot {
    ghost reads = { read_slot };

    #[tactic(auto, unfolding(crate::specs::Shape::read_slot))]
    fn read(alloc: Global, row: &DocumentRow<'_>) -> Result<RawSlot, ReadFault> {
        let node = row.name(alloc, Key::Node)?;
        let length = row.integer(Key::Length)?;
        let bytes = row.integer(Key::Bytes)?;
        row.only(&[Key::Node, Key::Length, Key::Bytes])?;
        Ok(RawSlot {
            node,
            length,
            bytes,
        })
    }
}

/// The fields of a `RawProcess` besides its two names.
#[derive(Clone, Copy)]
struct RawWork {
    /// The longest time of its work alone.
    wcet: i64,
    /// Into how many parts an execution is cut.
    parts: i64,
    /// The time to detect a fault, in each part.
    alpha: i64,
    /// The time to save a checkpoint, in each part.
    chi: i64,
    /// The time to recover from a fault.
    mu: i64,
    /// Whether it is a join.
    join: bool,
    /// Whether its start is frozen.
    frozen: bool,
    /// The time before which it doesn't start.
    release: i64,
    /// The deadline of its own, or `None` if it has none.
    deadline: Option<i64>,
}

/// Returns the fields of a process besides its two names. A bad field or an unknown key is refused.
#[tactic(auto, unfolding(crate::specs::Shape::read_work))]
fn read_work(row: &DocumentRow<'_>) -> Result<RawWork, ReadFault>
    ensures { Gives (λ x. x) result (read_work (row_view row.now)) }
{
    let wcet = row.integer(Key::Wcet)?;
    // what may be left out: by default there is one part, and nothing beside the wcet takes time
    let parts = row.integer_or(Key::Parts, 1)?;
    let alpha = row.integer_or(Key::Alpha, 0)?;
    let chi = row.integer_or(Key::Chi, 0)?;
    let mu = row.integer_or(Key::Mu, 0)?;
    let join = row.flag(Key::Join)?;
    let frozen = row.flag(Key::Frozen)?;
    let release = row.integer_or(Key::Release, 0)?;
    let deadline = row.optional_integer(Key::Deadline)?;
    // the names have been read, and are keys of the table too
    row.only(&[
        Key::Name,
        Key::Node,
        Key::Wcet,
        Key::Parts,
        Key::Alpha,
        Key::Chi,
        Key::Mu,
        Key::Join,
        Key::Frozen,
        Key::Release,
        Key::Deadline,
    ])?;
    Ok(RawWork {
        wcet,
        parts,
        alpha,
        chi,
        mu,
        join,
        frozen,
        release,
        deadline,
    })
}

impl Element for RawProcess {
    ghost reads = { read_process };

    #[tactic(auto, unfolding(crate::specs::Shape::read_process))]
    fn read(alloc: Global, row: &DocumentRow<'_>) -> Result<RawProcess, ReadFault> {
        let name = row.name(alloc, Key::Name)?;
        let node = row.name(alloc, Key::Node)?;
        let work = read_work(row)?;
        Ok(RawProcess {
            name,
            node,
            wcet: work.wcet,
            parts: work.parts,
            alpha: work.alpha,
            chi: work.chi,
            mu: work.mu,
            join: work.join,
            frozen: work.frozen,
            release: work.release,
            deadline: work.deadline,
        })
    }
}

/// The fields of a `RawEdge` besides its two names.
#[derive(Clone, Copy)]
struct RawLink {
    /// The size of its message in bytes.
    bytes: i64,
    /// The value for which it is live, or `None` if it has no `when`.
    when: Option<bool>,
    /// Whether its message is frozen.
    frozen: bool,
}

/// Returns the fields of an edge besides its two names. A bad field or an unknown key is refused.
#[tactic(auto, unfolding(crate::specs::Shape::read_link))]
fn read_link(row: &DocumentRow<'_>) -> Result<RawLink, ReadFault>
    ensures { Gives (λ x. x) result (read_link (row_view row.now)) }
{
    // by default a message has one byte
    let bytes = row.integer_or(Key::Bytes, 1)?;
    let when = row.optional_flag(Key::When)?;
    let frozen = row.flag(Key::Frozen)?;
    row.only(&[Key::From, Key::To, Key::Bytes, Key::When, Key::Frozen])?;
    Ok(RawLink {
        bytes,
        when,
        frozen,
    })
}

impl Element for RawEdge {
    ghost reads = { read_edge };

    #[tactic(auto, unfolding(crate::specs::Shape::read_edge))]
    fn read(alloc: Global, row: &DocumentRow<'_>) -> Result<RawEdge, ReadFault> {
        let from = row.name(alloc, Key::From)?;
        let to = row.name(alloc, Key::To)?;
        let link = read_link(row)?;
        Ok(RawEdge {
            from,
            to,
            bytes: link.bytes,
            when: link.when,
            frozen: link.frozen,
        })
    }
}

/// Returns the elements that the tables of one of the lists say, in their order. An error is the first bad field, or that memory runs
/// out.
fn rows<T: Element + Drop>(
    alloc: Global,
    table: Table,
    elements: &[&toml::Table],
) -> Result<Vec<T>, ReadFault>
    ensures { Gives (λ v. v.items) result (read_rows table T.reads (map (λ t. table_view t.now) elements.now)) }
{
    let mut rows = Vec::with_capacity(alloc, elements.len())?;
    for (index, members) in elements.iter().enumerate() {
        let row = DocumentRow {
            table,
            index: index as u64,
            members,
        };
        rows.push(T::read(alloc, &row)?)?;
    }
    Ok(rows)
}

/// What the keys of the top have: the numbers, the tables of each list, and the names of the order, if it is there.
#[derive(Drop)]
struct Tops<'a> {
    /// The most faults in one cycle.
    faults: i64,
    /// By when every execution has to have ended.
    deadline: i64,
    /// The table of each node.
    nodes: Vec<&'a toml::Table>,
    /// The table of each slot.
    slots: Vec<&'a toml::Table>,
    /// The table of each process.
    processes: Vec<&'a toml::Table>,
    /// The table of each edge.
    edges: Vec<&'a toml::Table>,
    /// The names of the processes in the order, or `None` if there is no such key.
    order: Option<Vec<Name>>,
}

/// Returns what the keys of the top have, whose two numbers have been read. A bad field or an unknown key is refused;
/// the other error is that memory runs out.
#[tactic(auto, unfolding(crate::specs::Shape::read_lists))]
fn read_lists<'a>(
    alloc: Global,
    top: &DocumentRow<'a>,
    faults: i64,
    deadline: i64,
) -> Result<Tops<'a>, ReadFault>
    ensures { Gives tops_view result (read_lists (row_view top.now) faults deadline) }
{
    let nodes = top.tables(alloc, Key::Node)?;
    let slots = top.tables(alloc, Key::Slot)?;
    let processes = top.tables(alloc, Key::Process)?;
    let edges = top.tables(alloc, Key::Edge)?;
    let order = top.optional_names(alloc, Key::Order)?;
    top.only(&[
        Key::Faults,
        Key::Deadline,
        Key::Node,
        Key::Slot,
        Key::Process,
        Key::Edge,
        Key::Order,
    ])?;
    Ok(Tops {
        faults,
        deadline,
        nodes,
        slots,
        processes,
        edges,
        order,
    })
}

/// Returns what the keys of the top have. A bad field or an unknown key is refused; the other error is that memory runs
/// out.
#[tactic(auto, unfolding(crate::specs::Shape::read_tops))]
fn read_top<'a>(alloc: Global, top: &DocumentRow<'a>) -> Result<Tops<'a>, ReadFault>
    ensures { Gives tops_view result (read_tops (row_view top.now)) }
{
    let faults = top.integer(Key::Faults)?;
    let deadline = top.integer(Key::Deadline)?;
    read_lists(alloc, top, faults, deadline)
}

/// Returns all that a document says, with the elements of each list read from their tables, one list after the other.
/// An error is the first bad field, or that memory runs out.
#[tactic(auto, unfolding(crate::specs::Shape::read_elements))]
fn read_elements(alloc: Global, tops: Tops<'_>) -> Result<RawProblem, ReadFault>
    ensures { Gives raw_view result (read_elements (tops_view tops.entry)) }
{
    let nodes = rows(alloc, Table::Node, tops.nodes.as_slice())?;
    let slots = rows(alloc, Table::Slot, tops.slots.as_slice())?;
    let processes = rows(alloc, Table::Process, tops.processes.as_slice())?;
    let edges = rows(alloc, Table::Edge, tops.edges.as_slice())?;
    Ok(RawProblem {
        faults: tops.faults,
        deadline: tops.deadline,
        nodes,
        slots,
        processes,
        edges,
        order: tops.order,
    })
}

/// Returns all that a document says. An error is the first bad field, the top's before the elements', or that memory
/// runs out.
pub fn raw_problem(alloc: Global, members: &toml::Table) -> Result<RawProblem, ReadFault>
    ensures { Gives raw_view result (read_raw (table_view members.now)) }
{
    let top = DocumentRow {
        table: Table::Top,
        index: 0,
        members,
    };
    let tops = read_top(alloc, &top)?;
    read_elements(alloc, tops)
}
