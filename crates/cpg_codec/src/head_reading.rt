//! Reading the head of a pack.
//!
//! Each function that takes `bytes` returns what it read, and the bytes after it. It fails with `Left` at the first byte
//! that no pack has there; with `alloc` it may also fail with `Memory`, if memory runs out.
ghost use Rattle.std.specs.Prelude.{◌≡◌, ◌≤◌, ◌<◌, ◌+◌, ◌*◌, ◌^◌, ◌==◌, is_some, IfSome, ℕ, List, length, Ok, Err, IfOk, OnOk, IsTrue, ◌↔◌, ◌++◌, nat_lt, if◌then◌else◌};
ghost use Rattle.cpg_head.specs.Head.{IsHead};
ghost use Rattle.cpg_codec.specs.Reading.{read_number, within, read_repeated};
ghost use Rattle.cpg_codec.specs.Spelling.{magic, bit, written_by, written_with};
ghost use Rattle.cpg_codec.specs.Grammar.{read_place, read_process, read_processes, read_edge, limit, listed, read_name, read_head};
ghost use Rattle.cpg_codec.specs.Behind.{behind_names};
ghost use Rattle.cpg_codec.specs.Gives.{Gives};
ghost use Rattle.cpg_codec.specs.Packs.{IsPackHead};
ghost use Rattle.cpg_codec.specs.Parts.{head_of_parts};

use crate::fault::ReadError;
use crate::field_reading::{extra_of, name_of, number_of, small_of, times_of};
use crate::fixed::{Fixed, edge_from, edge_to, process_flag, process_node};
use cpg_base::{
    MOST_CONDITIONS, MOST_EDGES, MOST_FAULTS, MOST_NODES, MOST_PROCESSES, Name, OutOfMemory,
};
use cpg_head::{Durations, Extra, Head, HeadProcess};
use std::alloc::{AllocError, Global};

/// The text CPGT as a number of four bytes, with which a pack begins.
const MAGIC: u64 = 0x43504754;

/// Returns the greatest flag that a process may have after `ones` processes with a condition: 0 if these are the most
/// that there may be, and 1 otherwise.
fn flag_end(ones: u32) -> u8
    ensures { result ≡ (if nat_lt ones MOST_CONDITIONS then 1 else 0) }
{
    if (ones as usize) < MOST_CONDITIONS {
        1
    } else {
        0
    }
}

/// Reads the node of a process and its condition flag, field by field. `ones` processes before it have a condition.
#[tactic(auto, unfolding(crate::specs::Grammar::read_place))]
fn place_by_fields(bytes: &[u8], nodes: u8, ones: u32) -> Result<(u8, u8, &[u8]), ReadError>
    requires { 0 < nodes }
    ensures { Gives (λ x. ((x.0, x.1), x.2.now)) result (read_place nodes ones bytes.now) }
{
    let (node, rest) = small_of(bytes, 0, nodes - 1)?;
    let (flag, rest) = small_of(rest, 0, flag_end(ones))?;
    Ok((node, flag, rest))
}

/// Returns whether a node and a condition flag are in range. `ones` processes before have a condition.
fn are_within(node: u8, flag: u8, nodes: u8, ones: u32) -> bool
    ensures { IsTrue result ↔ (node < nodes) × (flag ≤ (if nat_lt ones MOST_CONDITIONS then 1 else 0)) }
{
    node < nodes && flag <= flag_end(ones)
}

/// Reads the node of a process and its condition flag. `ones` processes before it have a condition.
fn node_and_flag(bytes: &[u8], nodes: u8, ones: u32) -> Result<(u8, u8, &[u8]), ReadError>
    requires { 0 < nodes }
    ensures { Gives (λ x. ((x.0, x.1), x.2.now)) result (read_place nodes ones bytes.now) }
{
    // both bytes at once; if one is missing or out of range, field by field up to the bad one
    if let [a, b, rest @ ..] = bytes {
        let place = Fixed::new([*a, *b]);
        let node = process_node(&place);
        let flag = process_flag(&place);
        if are_within(node, flag, nodes, ones) {
            return Ok((node, flag, rest));
        }
    }
    place_by_fields(bytes, nodes, ones)
}

/// Reads a process, and what version 2 adds to it. `ones` processes before it have a condition.
#[tactic(auto, unfolding(crate::specs::Grammar::read_process))]
fn process_of(
    alloc: Global,
    bytes: &[u8],
    version: u8,
    faults: u8,
    nodes: u8,
    ones: u32,
) -> Result<(HeadProcess, Option<Extra>, &[u8]), ReadError>
    requires { 0 < nodes }
    ensures gives { Gives (λ x. (written_with x.0 x.1, x.2.now)) result (read_process version faults nodes ones bytes.now) }
    ensures kind { IfOk result (λ x. is_some x.1 ≡ (version == 2)) }
{
    let (name, rest) = name_of(alloc, bytes)?;
    let (node, flag, rest) = node_and_flag(rest, nodes, ones)?;
    // a time for each number of faults, from 0 on
    let (times, rest) = times_of(alloc, rest, faults as u32 + 1)?;
    let (extra, rest) = extra_of(rest, version)?;
    Ok((
        HeadProcess {
            name,
            node: node as u32,
            condition: flag == 1,
            times: Durations::new(times),
        },
        extra,
        rest,
    ))
}

/// Returns 1 if a process has a condition, and 0 if not.
fn bit_of(condition: bool) -> u32
    ensures { result ≡ bit condition }
{
    if condition { 1 } else { 0 }
}

/// Adds what version 2 says of a process, or nothing if that is `None`; `Err` only if memory runs out.
fn push_extra(extras: &mut Vec<Extra>, extra: Option<Extra>) -> Result<(), AllocError>
    ensures { OnOk result (extras.new.items ≡ extras.old.items ++ listed extra) }
{
    if let Some(extra) = extra {
        extras.push(extra)?;
    }
    Ok(())
}

/// Reads `count` processes and what version 2 adds to each; in version 1 the second list is empty.
fn processes_of(
    alloc: Global,
    bytes: &[u8],
    version: u8,
    faults: u8,
    nodes: u8,
    count: u8,
) -> Result<(Vec<HeadProcess>, Vec<Extra>, &[u8]), ReadError>
    requires { 0 < count → 0 < nodes }
    ensures gives { Gives (λ x. (written_by x.0.items x.1.items, x.2.now)) result (read_processes version faults nodes count bytes.now) }
    ensures kept { IfOk result (λ x. length x.1.items ≡ (if version == 2 then length x.0.items else 0)) }
{
    let mut processes = Vec::with_capacity(alloc, count as usize)?;
    let mut extras = Vec::new(alloc);
    let mut rest = bytes;
    // how many of the processes so far have a condition
    let mut ones: u32 = 0;
    for _ in 0..count {
        let (process, extra, after) = process_of(alloc, rest, version, faults, nodes, ones)?;
        ones += bit_of(process.condition);
        processes.push(process)?;
        push_extra(&mut extras, extra)?;
        rest = after;
    }
    Ok((processes, extras, rest))
}

/// Reads `count` names.
fn names_of(alloc: Global, bytes: &[u8], count: u8) -> Result<(Vec<Name>, &[u8]), ReadError>
    ensures { Gives (λ x. (x.0.items, x.1.now)) result (read_repeated read_name count bytes.now) }
{
    let mut names = Vec::with_capacity(alloc, count as usize)?;
    let mut rest = bytes;
    for _ in 0..count {
        let (name, after) = name_of(alloc, rest)?;
        names.push(name)?;
        rest = after;
    }
    Ok((names, rest))
}

/// Reads an edge between two of `processes` processes, its source and its target, field by field.
#[tactic(auto, unfolding(crate::specs::Grammar::read_edge))]
fn edge_by_fields(bytes: &[u8], processes: u8) -> Result<((u32, u32), &[u8]), ReadError>
    requires { 0 < processes }
    ensures { Gives (λ x. (x.0, x.1.now)) result (read_edge processes bytes.now) }
{
    let (from, rest) = small_of(bytes, 0, processes - 1)?;
    let (to, rest) = small_of(rest, 0, processes - 1)?;
    Ok(((from as u32, to as u32), rest))
}

/// Returns whether both ends of an edge are numbers of processes.
fn are_ends(from: u8, to: u8, processes: u8) -> bool
    ensures { IsTrue result ↔ (from < processes) × (to < processes) }
{
    from < processes && to < processes
}

/// Reads an edge between two of `processes` processes: its source and its target.
fn edge_of(bytes: &[u8], processes: u8) -> Result<((u32, u32), &[u8]), ReadError>
    requires { 0 < processes }
    ensures { Gives (λ x. (x.0, x.1.now)) result (read_edge processes bytes.now) }
{
    // both bytes at once; if one is missing or out of range, field by field up to the bad one
    if let [a, b, rest @ ..] = bytes {
        let edge = Fixed::new([*a, *b]);
        let from = edge_from(&edge);
        let to = edge_to(&edge);
        if are_ends(from, to, processes) {
            return Ok(((from as u32, to as u32), rest));
        }
    }
    edge_by_fields(bytes, processes)
}

/// Reads `count` edges between two of `processes` processes.
fn edges_of(
    alloc: Global,
    bytes: &[u8],
    count: u16,
    processes: u8,
) -> Result<(Vec<(u32, u32)>, &[u8]), ReadError>
    requires { 0 < count → 0 < processes }
    ensures { Gives (λ x. (x.0.items, x.1.now)) result (read_repeated (read_edge processes) count bytes.now) }
{
    let mut edges = Vec::with_capacity(alloc, count as usize)?;
    let mut rest = bytes;
    for _ in 0..count {
        let (edge, after) = edge_of(rest, processes)?;
        edges.push(edge)?;
        rest = after;
    }
    Ok((edges, rest))
}

/// Returns the greatest count of things that refer to `below` others: `most`, or 0 if there are no others.
fn limit_of(below: u8, most: u64) -> u64
    ensures { result ≡ limit below most }
{
    if below == 0 { 0 } else { most }
}

/// The parts of a head as they are read. `extras` has what version 2 adds, an element for each process; in version 1 it
/// is empty.
#[derive(Drop)]
pub struct HeadParts {
    /// The version of the pack: 1 or 2.
    version: u8,
    /// The most faults.
    faults: u8,
    /// The names of the nodes.
    nodes: Vec<Name>,
    processes: Vec<HeadProcess>,
    extras: Vec<Extra>,
    /// The processes that each edge leads from and to.
    edges: Vec<(u32, u32)>,
}

/// Reads the parts of a head from the processes on. The version, the most faults, and the names of the `names` nodes
/// were read before.
#[tactic(auto, unfolding(crate::specs::Behind::behind_names))]
fn parts_behind(
    alloc: Global,
    bytes: &[u8],
    version: u8,
    faults: u8,
    names: u8,
    nodes: Vec<Name>,
) -> Result<(HeadParts, &[u8]), ReadError>
    ensures gives { Gives (λ x. (head_of_parts x.0, x.1.now)) result (behind_names version faults names nodes.items bytes.now) }
    ensures kept { IfOk result (λ x. length x.0.extras.items ≡ (if x.0.version == 2 then length x.0.processes.items else 0)) }
{
    // at most 128 processes, so their number fits a byte
    let (count, rest) = small_of(bytes, 0, limit_of(names, MOST_PROCESSES as u64) as u8)?;
    let (processes, extras, rest) = processes_of(alloc, rest, version, faults, names, count)?;
    let (edge_count, rest) = number_of(rest, 2, 0, limit_of(count, MOST_EDGES as u64))?;
    // it was read from two bytes
    let (edges, rest) = edges_of(alloc, rest, edge_count as u16, count)?;
    Ok((
        HeadParts {
            version,
            faults,
            nodes,
            processes,
            extras,
            edges,
        },
        rest,
    ))
}

/// Reads the parts of a head.
#[tactic(auto, unfolding(crate::specs::Grammar::read_head, crate::specs::Behind::behind_names))]
fn parts_of(alloc: Global, bytes: &[u8]) -> Result<(HeadParts, &[u8]), ReadError>
    ensures gives { Gives (λ x. (head_of_parts x.0, x.1.now)) result (read_head bytes.now) }
    ensures kept { IfOk result (λ x. length x.0.extras.items ≡ (if x.0.version == 2 then length x.0.processes.items else 0)) }
{
    // the four letters that each pack begins with
    let (_text, rest) = number_of(bytes, 4, MAGIC, MAGIC)?;
    let (version, rest) = small_of(rest, 1, 2)?;
    let (faults, rest) = small_of(rest, 0, MOST_FAULTS)?;
    // at most 16 nodes, so the limit fits a byte
    let (names, rest) = small_of(rest, 0, MOST_NODES as u8)?;
    let (nodes, rest) = names_of(alloc, rest, names)?;
    parts_behind(alloc, rest, version, faults, names, nodes)
}

/// Returns the head of lawful parts.
fn joined(parts: HeadParts) -> Head
    requires lawful { IsPackHead (head_of_parts parts) }
    requires kept { length parts.extras.items ≡ (if parts.version == 2 then length parts.processes.items else 0) }
    ensures { result ≡ head_of_parts parts }
{
    // the parts are lawful, so they make a head, and so do their extras
    let Some(head) = Head::new(parts.faults, parts.nodes, parts.processes, parts.edges) else {
        unreachable!()
    };
    // version 1 has no extras
    if parts.version != 2 {
        return head;
    }
    match head.with_extras(parts.extras) {
        Some(head) => head,
        // version 2 adds something lawful to each process
        None => unreachable!(),
    }
}

/// Reads a head.
pub fn head_of(alloc: Global, bytes: &[u8]) -> Result<(Head, &[u8]), ReadError>
    ensures { Gives (λ x. (x.0, x.1.now)) result (read_head bytes.now) }
{
    let (parts, rest) = parts_of(alloc, bytes)?;
    Ok((joined(parts), rest))
}
