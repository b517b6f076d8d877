//! The questions that a `Share` answers, each for a node of a graph. Each call finds the node's slot first, so a `Share` is
//! better for many questions.
ghost use Rattle.std.specs.Prelude.{◌≡◌, ◌<◌, ◌==◌, ◌^◌};
ghost use Rattle.cpg_base.specs.Bus.{occurrence, arrival, first_from, next_slot};
ghost use Rattle.cpg_bus.specs.Share.{HasSlot};

use crate::Share;
use cpg_base::Problem;

/// Returns when a node's slot starts in round `j`, counted from 0.
pub fn occurrence(problem: &Problem, node: u32, j: u64) -> u64
    requires slot { HasSlot problem.now node }
    // the start is early enough not to overflow
    requires early { occurrence problem.now node j < 2 ^ 60 }
    ensures { result ≡ occurrence problem.now node j }
{
    Share::of(problem, node).occurrence(j)
}

/// Returns the first round, counted from 0, in which a node's slot starts at the time or later.
pub fn first_from(problem: &Problem, node: u32, time: u64) -> u64
    requires slot { HasSlot problem.now node }
    ensures { result ≡ first_from problem.now node time }
{
    Share::of(problem, node).first_from(time)
}

/// Returns when a frame that a node sends in round `j`, counted from 0, arrives: at the end of its slot.
pub fn arrival(problem: &Problem, node: u32, j: u64) -> u64
    requires slot { HasSlot problem.now node }
    // the arrival is early enough not to overflow
    requires early { arrival problem.now node j < 2 ^ 60 }
    ensures { result ≡ arrival problem.now node j }
{
    Share::of(problem, node).arrival(j)
}

/// Returns the first start of a node's slot at the time or later.
pub fn next_slot(problem: &Problem, node: u32, time: u64) -> u64
    requires slot { HasSlot problem.now node }
    // the start is early enough not to overflow
    requires early { next_slot problem.now node time < 2 ^ 60 }
    ensures { result ≡ next_slot problem.now node time }
{
    Share::of(problem, node).next_slot(time)
}

/// Returns whether a node's slot starts at the time, in any round.
pub fn is_slot_start(problem: &Problem, node: u32, time: u64) -> bool
    requires { HasSlot problem.now node }
    ensures { result ≡ (next_slot problem.now node time == time) }
{
    Share::of(problem, node).is_start(time)
}
