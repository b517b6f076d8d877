//! The rules on slots.
ghost use Rattle.std.specs.Prelude.{◌≡◌, ◌<◌, IfSome, IfNone, ℕ, false, length};
ghost use Rattle.cpg_base.specs.Graph.{process_count, edge_count, node_of, is_message};
ghost use Rattle.cpg_base.specs.Limits.{IsWithinLimits};
ghost use Rattle.cpg_base.specs.WellFormed.{HasSenderSlots};
ghost use Rattle.cpg_rules.specs.Rules.{is_message_of, sends_message, decides, is_sender, has_slot, lacks_slot, bytes_in, is_too_big, AllFit, LacksSlot, IsAboveSlot};

use cpg_base::{Problem, Slot};

/// Whether an edge is a message that this node sends.
fn is_message_of(problem: &Problem, edge: u32, node: u32) -> bool
    requires { edge < edge_count problem.now }
    ensures { result ≡ is_message_of problem.now edge node }
{
    let ends = problem.edges()[edge as usize];
    let sender = problem.node_of(ends.from);
    // within a node there is no message
    if sender == problem.node_of(ends.to) {
        return false;
    }
    sender == node
}

/// Whether a node sends a message.
fn sends_message(problem: &Problem, node: u32) -> bool
    ensures { result ≡ sends_message problem.now node }
{
    // a graph has at most 256 edges, so their numbers fit a `u32`
    for edge in 0..problem.edges().len() as u32 {
        if is_message_of(problem, edge, node) {
            return true;
        }
    }
    false
}

/// Whether a process of the node has a condition.
fn decides(problem: &Problem, node: u32) -> bool
    ensures { result ≡ decides problem.now node }
{
    for condition in 0..problem.conditions() {
        if problem.node_of(problem.process_of(condition)) == node {
            return true;
        }
    }
    false
}

/// Whether a node sends anything: a message or, if there are at least two nodes, the broadcast of a condition.
fn is_sender(problem: &Problem, node: u32) -> bool
    ensures { result ≡ is_sender problem.now node }
{
    if sends_message(problem, node) {
        return true;
    }
    // with one node nothing is broadcast
    if problem.nodes().len() <= 1 {
        return false;
    }
    decides(problem, node)
}

/// Whether a node has a slot.
fn has_slot(problem: &Problem, node: u32) -> bool
    ensures { result ≡ has_slot problem.now node }
{
    problem.slots().iter().any(|slot| slot.node == node)
}

/// Whether a node sends and has no slot.
fn lacks_slot(problem: &Problem, node: u32) -> bool
    ensures { result ≡ lacks_slot problem.now node }
{
    if !is_sender(problem, node) {
        return false;
    }
    !has_slot(problem, node)
}

/// Returns the number of the least node that sends and has no slot, and `None` exactly if each node that sends has one.
pub fn without_slot(problem: &Problem) -> Option<u32>
    ensures none { IfNone result (HasSenderSlots problem.now) }
    ensures within { IsWithinLimits problem.now }
    ensures some { IfSome result (LacksSlot problem.now) }
{
    // a graph has at most 16 nodes, so their numbers fit a `u32`
    for node in 0..problem.nodes().len() as u32 {
        // nodes are met by number, so this is the least
        if lacks_slot(problem, node) {
            return Some(node);
        }
    }
    None
}

/// Returns how many bytes a frame of the node holds, by the first of these slots that is the node's; 0 if none is.
fn slot_bytes(slots: &[Slot], node: u32) -> u32
    ensures { result ≡ bytes_in slots.now node }
{
    for slot in slots {
        if slot.node == node {
            return slot.bytes;
        }
    }
    0
}

/// Whether an edge is a message that is larger than its sender's slot holds.
fn is_too_big(problem: &Problem, edge: u32) -> bool
    requires { edge < edge_count problem.now }
    ensures { result ≡ is_too_big problem.now edge }
{
    let ends = problem.edges()[edge as usize];
    let sender = problem.node_of(ends.from);
    // within a node there is no message
    if sender == problem.node_of(ends.to) {
        return false;
    }
    ends.size > slot_bytes(problem.slots(), sender)
}

/// Returns the number of the least edge whose message is larger than its sender's slot holds, and `None` exactly if there
/// is none.
pub fn above_slot(problem: &Problem) -> Option<u32>
    ensures none { IfNone result (AllFit problem.now) }
    ensures some { IfSome result (IsAboveSlot problem.now) }
{
    // a graph has at most 256 edges, so their numbers fit a `u32`
    for edge in 0..problem.edges().len() as u32 {
        // edges are met by number, so this is the least
        if is_too_big(problem, edge) {
            return Some(edge);
        }
    }
    None
}
