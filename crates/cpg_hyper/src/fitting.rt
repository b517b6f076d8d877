//! Checks of parts: that their periods are in range, that they agree with the first one and fit their periods, and that they
//! give no order. Each returns the number of the first part that fails.
ghost use Rattle.std.specs.Prelude.{◌≡◌, ◌≤◌, ◌<◌, ◌↔◌, IsTrue, IfSome, IfNone, All, length};
ghost use Rattle.cpg_base.specs.Limits.{IsWithinLimits};
ghost use Rattle.cpg_hyper.specs.Refusals.{IsInRange, IsAlike, FitsPeriod, GivesNoOrder, HoldsOfEach, FailsFirst};

use crate::Part;
use cpg_base::{LONGEST, Problem, Process, Slot, are_same_names};

/// Whether the period of a part is from 1 to the longest time.
fn is_in_range(part: &Part) -> bool
    ensures { IsTrue result ↔ IsInRange part.now }
{
    1 <= part.period && part.period <= LONGEST
}

/// Returns the first part whose period isn't in range; `None` exactly if all are.
pub fn first_out_of_range(parts: &[Part]) -> Option<u32>
    requires { length parts.now ≤ 4 }
    ensures first { IfSome result (FailsFirst (λ p part. IsInRange part) parts.now) }
    ensures all { IfNone result (HoldsOfEach (λ p part. IsInRange part) parts.now) }
{
    for place in 0..parts.len() {
        if !is_in_range(&parts[place]) {
            // there are at most 4 parts, so the place fits a `u32`
            return Some(place as u32);
        }
    }
    None
}

/// Whether two slots are equal.
fn is_same_slot(slot: &Slot, other: &Slot) -> bool
    ensures { IsTrue result ↔ (slot.now ≡ other.now) }
{
    slot.node == other.node && slot.length == other.length && slot.bytes == other.bytes
}

/// Whether two lists of slots are equal.
fn are_same_slots(slots: &[Slot], others: &[Slot]) -> bool
    ensures { IsTrue result ↔ (slots.now ≡ others.now) }
{
    if slots.len() != others.len() {
        return false;
    }
    for place in 0..slots.len() {
        if !is_same_slot(&slots[place], &others[place]) {
            return false;
        }
    }
    true
}

/// Whether a part has the same faults, nodes and slots as the graph of the first part.
fn is_alike(first: &Problem, part: &Part) -> bool
    ensures { IsTrue result ↔ IsAlike first.now part.now }
{
    if part.problem.faults() != first.faults() {
        return false;
    }
    if !are_same_names(part.problem.nodes(), first.nodes()) {
        return false;
    }
    are_same_slots(part.problem.slots(), first.slots())
}

/// Returns the first part with other faults, nodes or slots than a graph; `None` exactly if no part has others.
pub fn first_different(first: &Problem, parts: &[Part]) -> Option<u32>
    requires { length parts.now ≤ 4 }
    ensures first { IfSome result (FailsFirst (λ p part. IsAlike first.now part) parts.now) }
    ensures all { IfNone result (HoldsOfEach (λ p part. IsAlike first.now part) parts.now) }
{
    for place in 0..parts.len() {
        if !is_alike(first, &parts[place]) {
            // there are at most 4 parts, so the place fits a `u32`
            return Some(place as u32);
        }
    }
    None
}

/// Whether the release of each process is at most `time`.
fn are_released_by(processes: &[Process], time: u64) -> bool
    ensures { IsTrue result ↔ All (λ q. q.release ≤ time) processes.now }
{
    processes.iter().all(|process| process.release <= time)
}

/// Whether the deadline and all releases of a part are within its period.
fn fits_period(part: &Part) -> bool
    ensures fits { IsTrue result ↔ FitsPeriod part.now }
    ensures within { IsWithinLimits part.now.problem }
{
    if part.problem.deadline() > part.period {
        return false;
    }
    are_released_by(part.problem.processes(), part.period)
}

/// Returns the first part whose deadline, or one of whose releases, is above its period; `None` exactly if there is none.
pub fn first_over(parts: &[Part]) -> Option<u32>
    requires { length parts.now ≤ 4 }
    ensures first { IfSome result (FailsFirst (λ p part. FitsPeriod part) parts.now) }
    ensures all { IfNone result (HoldsOfEach (λ p part. FitsPeriod part) parts.now) }
    ensures within { IfNone result (HoldsOfEach (λ p part. IsWithinLimits part.problem) parts.now) }
{
    for place in 0..parts.len() {
        if !fits_period(&parts[place]) {
            // there are at most 4 parts, so the place fits a `u32`
            return Some(place as u32);
        }
    }
    None
}

/// Whether a part's graph gives no order to compile under.
fn gives_no_order(part: &Part) -> bool
    ensures { IsTrue result ↔ GivesNoOrder part.now }
{
    part.problem.given_order().is_none()
}

/// Returns the first part whose graph gives an order to compile under; `None` exactly if there is none.
pub fn first_with_order(parts: &[Part]) -> Option<u32>
    requires { length parts.now ≤ 4 }
    ensures first { IfSome result (FailsFirst (λ p part. GivesNoOrder part) parts.now) }
    ensures all { IfNone result (HoldsOfEach (λ p part. GivesNoOrder part) parts.now) }
{
    for place in 0..parts.len() {
        if !gives_no_order(&parts[place]) {
            // there are at most 4 parts, so the place fits a `u32`
            return Some(place as u32);
        }
    }
    None
}
