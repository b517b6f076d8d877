//! Tests of how many elements a document has, and of the range of each number.
ghost use Rattle.std.specs.Prelude.{◌≡◌, List, IfOk, length, [], if◌then◌else◌, nat_le};
ghost use Rattle.cpg_reader.specs.Reading.{Gives, done};
ghost use Rattle.cpg_reader.specs.Shape.{raw_view};
ghost use Rattle.cpg_reader.specs.Ranges.{top_numbers, slot_numbers, process_numbers, edge_numbers, is_within, in_range, all_in_range, sources, different, limits};

use crate::place::{Key, Place, ReadFault, Table, What};
use crate::shape::{RawEdge, RawProblem, RawProcess, RawSlot};
use cpg_base::{LONGEST, MOST_CONDITIONS, MOST_EDGES, MOST_NODES, MOST_PROCESSES};
use indexmap::IndexSet;
use std::alloc::{AllocError, Global};

/// The most faults that a cycle may have.
const MOST_FAULTS: u64 = cpg_base::MOST_FAULTS as u64;
/// The most parts of an execution.
const MOST_PARTS: u64 = cpg_base::MOST_PARTS as u64;
/// The greatest size of a message or a slot, in bytes.
const LARGEST: u64 = cpg_base::LARGEST as u64;

/// A number at a key, with its range.
#[derive(Clone, Copy)]
pub struct BoundedField {
    /// The key.
    pub key: Key,
    /// The number that the document has there, or its default.
    pub value: i64,
    /// The least number that may stand there.
    pub low: u64,
    /// The greatest number that may stand there.
    pub high: u64,
}

/// An element of a list, with numbers that have ranges.
pub trait Numbered {
    ghost use Rattle.cpg_reader.specs.declared.ranges.BoundedField.{BoundedField as BoundedNumber};

    // its numbers with their ranges, in the order in which they are tested
    ghost numbers: { Self → List BoundedNumber };

    /// Refuses the element if one of its numbers is out of range. `table` and `index` say where the element stands.
    fn in_range(&self, table: Table, index: u64) -> Result<(), ReadFault>
        ensures { Gives (λ _. tt) result (in_range table index (numbers self.now)) };
}

/// Whether a number is from `low` to `high`.
fn is_within(value: i64, low: u64, high: u64) -> bool
    ensures { result ≡ is_within low high value }
{
    // the casts are of numbers that aren't negative, so they keep them
    value >= 0 && low <= value as u64 && value as u64 <= high
}

impl BoundedField {
    /// Returns a number at a key, with its least and greatest values.
    fn new(key: Key, value: i64, low: u64, high: u64) -> BoundedField
        ensures { result ≡ record { key = key; value = value; low = low; high = high } }
    {
        BoundedField {
            key,
            value,
            low,
            high,
        }
    }
}

/// Refuses numbers of which one is out of range. The error has the place of the first such number.
fn in_range(table: Table, index: u64, numbers: &[BoundedField]) -> Result<(), ReadFault>
    ensures { Gives (λ _. tt) result (in_range table index numbers.now) }
{
    for number in numbers {
        if !is_within(number.value, number.low, number.high) {
            return Err(ReadFault::OverLimit(What::Number(Place {
                table,
                index,
                key: number.key,
            })));
        }
    }
    Ok(())
}

impl Numbered for RawSlot {
    ghost numbers = { slot_numbers };

    fn in_range(&self, table: Table, index: u64) -> Result<(), ReadFault> {
        in_range(
            table,
            index,
            &[
                BoundedField::new(Key::Length, self.length, 1, LONGEST),
                BoundedField::new(Key::Bytes, self.bytes, 1, LARGEST),
            ],
        )
    }
}

impl Numbered for RawProcess {
    ghost numbers = { process_numbers };

    fn in_range(&self, table: Table, index: u64) -> Result<(), ReadFault> {
        in_range(
            table,
            index,
            &[
                BoundedField::new(Key::Wcet, self.wcet, 1, LONGEST),
                BoundedField::new(Key::Parts, self.parts, 1, MOST_PARTS),
                BoundedField::new(Key::Alpha, self.alpha, 0, LONGEST),
                BoundedField::new(Key::Chi, self.chi, 0, LONGEST),
                BoundedField::new(Key::Mu, self.mu, 0, LONGEST),
                BoundedField::new(Key::Release, self.release, 0, LONGEST),
                // an absent deadline counts as 0, which is in range
                BoundedField::new(Key::Deadline, self.deadline.unwrap_or(0), 0, LONGEST),
            ],
        )
    }
}

impl Numbered for RawEdge {
    ghost numbers = { edge_numbers };

    fn in_range(&self, table: Table, index: u64) -> Result<(), ReadFault> {
        in_range(
            table,
            index,
            &[BoundedField::new(Key::Bytes, self.bytes, 1, LARGEST)],
        )
    }
}

/// Refuses elements of which one has a number out of range. The error has the place of the first such number.
fn all_in_range<T: Numbered>(table: Table, elements: &[T]) -> Result<(), ReadFault>
    ensures { Gives (λ _. tt) result (all_in_range table T.numbers 0 elements.now) }
{
    for (index, element) in elements.iter().enumerate() {
        element.in_range(table, index as u64)?;
    }
    Ok(())
}

/// Refuses a document if a number at its top is out of range.
fn top_in_range(raw: &RawProblem) -> Result<(), ReadFault>
    ensures { Gives (λ _. tt) result (in_range Table.Top 0 (top_numbers (raw_view raw.now))) }
{
    in_range(
        Table::Top,
        0,
        &[
            BoundedField::new(Key::Faults, raw.faults, 0, MOST_FAULTS),
            BoundedField::new(Key::Deadline, raw.deadline, 0, LONGEST),
        ],
    )
}

/// Returns how many different sources the conditional edges have, which is how many conditions there are. The one error
/// is that memory runs out.
fn source_count(alloc: Global, edges: &[RawEdge]) -> Result<usize, AllocError>
    ensures { IfOk result (λ n. n ≡ length (different [] (sources edges.now))) }
{
    let mut sources = IndexSet::new(alloc);
    for edge in edges {
        if edge.when.is_some() {
            sources.insert(edge.from.as_str())?;
        }
    }
    Ok(sources.len())
}

/// Refuses a count of something that is over its limit.
fn at_most(limit: usize, what: What, count: usize) -> Result<(), ReadFault>
    ensures { Gives (λ _. tt) result (if nat_le count limit then done else Err (ReadFault.OverLimit what)) }
{
    if count <= limit {
        Ok(())
    } else {
        Err(ReadFault::OverLimit(what))
    }
}

/// Refuses a document in which a count or a number is beyond its limit. The error has the first of them, or is that
/// memory runs out.
#[tactic(auto, unfolding(crate::specs::Ranges::limits))]
pub fn limits(alloc: Global, raw: &RawProblem) -> Result<(), ReadFault>
    ensures { Gives (λ _. tt) result (limits (raw_view raw.now)) }
{
    // counts first, then numbers by their places, then conditions
    at_most(MOST_NODES, What::Nodes, raw.nodes.len())?;
    at_most(MOST_NODES, What::Slots, raw.slots.len())?;
    at_most(MOST_PROCESSES, What::Processes, raw.processes.len())?;
    at_most(MOST_EDGES, What::Edges, raw.edges.len())?;
    top_in_range(raw)?;
    all_in_range(Table::Slot, raw.slots.as_slice())?;
    all_in_range(Table::Process, raw.processes.as_slice())?;
    all_in_range(Table::Edge, raw.edges.as_slice())?;
    let sources = source_count(alloc, raw.edges.as_slice())?;
    at_most(MOST_CONDITIONS, What::Conditions, sources)
}
