//! Whether a process may report its end.
ghost use Rattle.std.specs.Prelude.{◌≡◌, ◌≤◌, IfSome, IfNone, not, ◌&&◌, ◌||◌, is_some, nat_le};
ghost use Rattle.cpg_node.specs.Dispatcher.{own_of};
ghost use Rattle.cpg_node.specs.State.{running_of, time_of};
ghost use Rattle.cpg_live.specs.Stream.{may_tell, may_end, may_end_now};

use cpg_node::{Ended, Node, own_of};

/// Returns the fault count of a record as a byte, or `None` if it is above `most`.
pub fn count_within(number: u16, most: u8) -> Option<u8>
    ensures count { IfSome result (λ faults. faults ≡ number) }
    ensures few { is_some result ≡ nat_le number most }
{
    if number <= u16::from(most) {
        // at most `most`, which is a byte
        Some(number as u8)
    } else {
        None
    }
}

/// Returns whether a process of the node has a condition; false if it isn't one of the node's.
fn has_condition(node: &Node, process: u32) -> bool
    ensures { result ≡ is_some (own_of node.now.dispatcher.table process).condition }
{
    match own_of(node.table(), process) {
        Some(own) => own.condition.is_some(),
        None => false,
    }
}

/// Returns how long an execution of a process of the node takes with this many faults; 0 if it isn't one of the node's, or
/// these are more than may be.
fn time_of(node: &Node, process: u32, faults: u8) -> u64
    ensures { result ≡ time_of node.now.dispatcher process faults }
{
    match own_of(node.table(), process) {
        Some(own) => {
            let times = own.times.times();
            times.get(faults as usize).copied().unwrap_or(0)
        }
        None => 0,
    }
}

/// Returns whether an end has at most the faults of a cycle, and a true value only if its process has a condition.
fn may_tell(node: &Node, ended: &Ended) -> bool
    ensures { result ≡ may_tell node.now.dispatcher ended.now }
{
    if ended.faults > node.table().faults() {
        return false;
    }
    !ended.value || has_condition(node, ended.process)
}

/// Returns whether a process may end at a time: it runs, hasn't reported its end, started before, and with these faults
/// its planned end isn't before.
fn may_end_now(node: &Node, time: u64, ended: &Ended) -> bool
    ensures { result ≡ may_end_now node.now.dispatcher time ended.now (running_of node.now.dispatcher ended.now.process) }
{
    // the process doesn't run on the node
    let Some(start) = node.running(ended.process) else {
        return false;
    };
    // its end was reported already
    if node.reported(ended.process) {
        return false;
    }
    // it didn't start before the time, and an execution takes some time
    if start >= time {
        return false;
    }
    time - start <= time_of(node, ended.process, ended.faults)
}

/// Returns whether a process may report this end at a time: the end has at most the faults of a cycle and a true value only
/// if the process has a condition, and the process may end then.
pub fn may_end(node: &Node, time: u64, ended: &Ended) -> bool
    ensures { result ≡ may_end node.now.dispatcher time ended.now }
{
    may_tell(node, ended) && may_end_now(node, time, ended)
}
