//! The lengths of the longest ways from the processes of a choice to an end, against what was worked out by hand.
use crate::claims::{Claim, holds};
use crate::fixtures::CHOICE;
use cpg_order::tail;
use cpg_rules::Admitted;
use std::alloc::Global;

/// Whether there is such a process, and the longest way from it to an end has the length `want`. False at an error, too.
fn is_tail(alloc: Global, admitted: &Admitted, process: u32, want: u64) -> bool {
    if process as usize >= admitted.problem().processes().len() {
        return false;
    }
    tail(alloc, admitted.problem(), admitted.order(), process) == Ok(want)
}

/// Whether the longest way from each of these processes (first of the pair) has that length (second). False at an error, too.
pub fn have_tails(alloc: Global, admitted: &Admitted, wanted: &[(u32, u64)]) -> bool {
    for (process, want) in wanted {
        if !is_tail(alloc, admitted, *process, *want) {
            return false;
        }
    }
    true
}

#[test]
fn tails(rt: HostRuntime) {
    let wanted = [(0, 80), (1, 25), (2, 45), (3, 10)];
    assert!(rt; holds(rt.alloc(), CHOICE, Claim::Tails(&wanted)));
}
