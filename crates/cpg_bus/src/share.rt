//! A node's share of the bus.
ghost use Rattle.std.specs.Prelude.{◌≡◌, ◌<◌, ◌^◌, ◌==◌, position, sum_by};
ghost use Rattle.cpg_bus.specs.Share.{HasSlot, IsShare, share_of, start_of, end_of, first_of, next_of};

use cpg_base::{Problem, Slot};
use std::marker::Model;

/// Where a node's slot lies in the round of the bus, found once for many questions. It is seen as the slot's start in the
/// round, its length and the round's length.
#[derive(Clone, Copy, Debug, PartialEq, Eq)]
pub struct Share {
    /// When the slot starts after the begin of a round, in time units.
    offset: u64,
    /// How long the slot lasts, in time units.
    length: u64,
    /// How long the round lasts, in time units.
    round: u64,
}

impl Model for Share {
    ghost use Rattle.cpg_bus.specs.Share.{ShareState, IsShare};

    ghost Value = { ShareState };

    ghost view = { λ s. record { offset = s.offset; length = s.length; round = s.round } };

    ghost inverse = { λ v. record { offset = v.offset; length = v.length; round = v.round } };

    ghost invariant = { λ s. IsShare (record { offset = s.offset; length = s.length; round = s.round }) };
}

/// Returns the place of a node's slot in the round, and `None` exactly if the node has none.
fn slot_index(slots: &[Slot], node: u32) -> Option<usize>
    ensures { result ≡ position (λ s. s.node == node) slots.now }
{
    slots.iter().position(|slot| slot.node == node)
}

/// Returns how long these slots last together.
fn total(slots: &[Slot]) -> u64
    requires { sum_by (λ s. s.length) slots.now < 2 ^ 64 }
    ensures { result ≡ sum_by (λ s. s.length) slots.now }
{
    slots.iter().map(|slot| slot.length).sum()
}

impl Share {
    /// Returns the share of a node that has a slot.
    pub fn of(problem: &Problem, node: u32) -> Share
        requires { HasSlot problem.now node }
        ensures { result ≡ share_of problem.now node }
    {
        let slots = problem.slots();
        // the node has a slot, so there is a place and 0 is never taken for it
        let place = slot_index(slots, node).unwrap_or(0);
        Share {
            // the slots before it
            offset: total(&slots[..place]),
            length: slots[place].length,
            round: problem.round(),
        }
    }

    /// Returns the length of the slot, in time units.
    pub fn length(&self) -> u64
        ensures length { result ≡ self.now.length }
        ensures share { IsShare self.now }
    {
        self.length
    }

    /// Returns the length of the round, in time units.
    pub fn round(&self) -> u64
        ensures round { result ≡ self.now.round }
        ensures share { IsShare self.now }
    {
        self.round
    }

    /// Returns when the slot starts in round `j`, counted from 0.
    pub fn occurrence(&self, j: u64) -> u64
        // the start is early enough not to overflow
        requires { start_of self.now j < 2 ^ 60 }
        ensures { result ≡ start_of self.now j }
    {
        j * self.round + self.offset
    }

    /// Returns when the slot of round `j`, counted from 0, ends: then a frame in it arrives.
    pub fn arrival(&self, j: u64) -> u64
        // the end is early enough not to overflow
        requires { end_of self.now j < 2 ^ 60 }
        ensures { result ≡ end_of self.now j }
    {
        self.occurrence(j) + self.length
    }

    /// Returns the first round, counted from 0, whose slot starts at the time or later.
    pub fn first_from(&self, time: u64) -> u64
        ensures { result ≡ first_of self.now time }
    {
        // a time before the first slot counts as its start; a round takes time, so nothing is divided by 0
        time.saturating_sub(self.offset).div_ceil(self.round)
    }

    /// Returns the first start of the slot at the time or later.
    pub fn next_slot(&self, time: u64) -> u64
        // the start is early enough not to overflow
        requires { next_of self.now time < 2 ^ 60 }
        ensures { result ≡ next_of self.now time }
    {
        self.occurrence(self.first_from(time))
    }

    /// Returns whether the slot starts at the time, in any round.
    pub(crate) fn is_start(&self, time: u64) -> bool
        ensures { result ≡ (next_of self.now time == time) }
    {
        // before the slot of round 0 it can't start
        if time < self.offset {
            return false;
        }
        (time - self.offset) % self.round == 0
    }
}
