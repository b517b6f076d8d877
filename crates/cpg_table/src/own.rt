//! What a node needs to know of its own processes.
ghost use Rattle.std.specs.Prelude.{◌≡◌, ◌≢◌, ◌↔◌, ◌≤◌, ◌++◌, IsTrue, IfOk, IfSome, IfNone, OnOk, List, Some, None, if◌then◌else◌};
ghost use Rattle.cpg_head.specs.Head.{IsHead};
ghost use Rattle.cpg_table.specs.Items.{own_front, own_of};

use crate::items::next_number;
use cpg_base::OutOfMemory;
use cpg_head::{Durations, Head, HeadProcess};
use std::alloc::{AllocError, Global};

/// What a node needs to know of a process of its own.
#[derive(Drop)]
pub struct Own {
    /// The number of the process.
    pub process: u32,
    /// The number of its condition, if it has one.
    pub condition: Option<u32>,
    /// How long its executions take with 0, 1, .. faults.
    pub times: Durations,
}

impl Own {
    /// Returns an equal value; `Err` only if memory runs out.
    pub fn copy(&self) -> Result<Own, OutOfMemory>
        ensures { IfOk result (λ own. own ≡ self.now) }
    {
        Ok(Own {
            process: self.process,
            condition: self.condition,
            times: self.times.copy()?,
        })
    }
}

/// A clone is an equal value.
impl Clone for Own {
    ghost is_clone = { λ own copy. copy ≡ own };

    fn clone(&self) -> Result<Own, AllocError> {
        Ok(self.copy()?)
    }
}

/// Returns the number of a process's condition; `None` if the process has none.
fn condition_if(condition: u32, has: bool) -> Option<u32>
    ensures { result ≡ (if has then Some condition else None) }
{
    if has { Some(condition) } else { None }
}

/// Adds what a node needs to know of a process, if that is on the node. `condition` is the number of its condition, if it
/// has one. `Err` only if memory runs out.
fn push_own(
    own: &mut Vec<Own>,
    node: u32,
    number: u32,
    condition: u32,
    process: &HeadProcess,
) -> Result<(), OutOfMemory>
    ensures { OnOk result (own.new.items ≡ own.old.items ++ own_front node number condition process.now) }
{
    if process.node == node {
        let condition = condition_if(condition, process.condition);
        let times = process.times.copy()?;
        own.push(Own {
            process: number,
            condition,
            times,
        })?;
    }
    Ok(())
}

/// Returns what a node needs to know of its own processes; `Err` only if memory runs out.
pub fn own_of(alloc: Global, head: &Head, node: u32) -> Result<Vec<Own>, OutOfMemory>
    ensures { IfOk result (λ own. own.items ≡ own_of head.now node) }
{
    let mut own = Vec::new(alloc);
    let mut number: u32 = 0;
    // the number that the next condition has
    let mut condition: u32 = 0;
    for process in head.processes() {
        push_own(&mut own, node, number, condition, process)?;
        number += 1;
        condition = next_number(condition, process.condition);
    }
    Ok(own)
}

/// Returns whether two lists of times are equal.
fn are_same_times(times: &[u64], others: &[u64]) -> bool
    ensures { IsTrue result ↔ (times.now ≡ others.now) }
{
    times == others
}

/// Returns whether two processes have the same condition, or both have none.
fn is_same_condition(condition: Option<u32>, other: Option<u32>) -> bool
    ensures { IsTrue result ↔ (condition ≡ other) }
{
    condition == other
}

/// Returns whether `own` is what a node needs to know of a process with this number, this condition and these times.
fn is_own(own: &Own, number: u32, condition: Option<u32>, times: &Durations) -> bool
    ensures { IsTrue result ↔ (own.now ≡ record { process = number; condition = condition; times = times.now }) }
{
    if own.process != number {
        return false;
    }
    if !is_same_condition(own.condition, condition) {
        return false;
    }
    are_same_times(own.times.times(), times.times())
}

/// Returns what comes in `own` after a process, or all of `own` if the process isn't on the node, or `None` if it is
/// on the node and doesn't come first.
fn after_own<'a>(
    own: &'a [Own],
    node: u32,
    number: u32,
    condition: u32,
    process: &HeadProcess,
) -> Option<&'a [Own]>
    ensures found { IfSome result (λ rest. own.now ≡ own_front node number condition process.now ++ rest.now) }
    ensures other { IfNone result ((rest : List Own) → own.now ≢ own_front node number condition process.now ++ rest) }
{
    if process.node != node {
        return Some(own);
    }
    let Some((first, rest)) = own.split_first() else {
        return None;
    };
    let condition = condition_if(condition, process.condition);
    if is_own(first, number, condition, &process.times) {
        Some(rest)
    } else {
        None
    }
}

/// Returns whether `own` is what a node needs to know of its own processes.
pub fn is_own_of(head: &Head, node: u32, own: &[Own]) -> bool
    ensures { IsTrue result ↔ (own.now ≡ own_of head.now node) }
{
    let mut rest = own;
    let mut number: u32 = 0;
    // the number that the next condition has
    let mut condition: u32 = 0;
    for process in head.processes() {
        let Some(next) = after_own(rest, node, number, condition, process) else {
            return false;
        };
        rest = next;
        number += 1;
        condition = next_number(condition, process.condition);
    }
    rest.is_empty()
}
