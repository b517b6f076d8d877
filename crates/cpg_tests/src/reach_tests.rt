//! The views of a choice's items, against what was worked out by hand.
use crate::claims::{Claim, holds};
use crate::fixtures::FORK;
use cpg_base::OutOfMemory;
use cpg_reach::views;
use cpg_rules::Admitted;
use std::alloc::Global;

/// Returns how many views an item has under the urgency order. An error is that there is no such item, or that memory
/// runs out.
#[tactic(auto, using(crate::proofs::Unfrozen::urgent_topological))]
fn views_in(alloc: Global, admitted: &Admitted, item: u32) -> Result<u64, OutOfMemory> {
    if item >= admitted.problem().item_count() {
        return Err(OutOfMemory);
    }
    views(alloc, admitted, admitted.order(), item)
}

/// Whether each of these items (first of the pair) has that number of views (second). False at an error, too.
pub fn have_views(alloc: Global, admitted: &Admitted, wanted: &[(u32, u64)]) -> bool {
    for (item, count) in wanted {
        if views_in(alloc, admitted, *item) != Ok(*count) {
            return false;
        }
    }
    true
}

#[test]
fn a_choice_has_few_views(rt: HostRuntime) {
    // the starts of A, B and C, the message to B, the edge to C, which isn't sent, and the broadcast of A
    let wanted = [(0, 1), (1, 4), (2, 4), (3, 4), (4, 1), (5, 2)];
    assert!(rt; holds(rt.alloc(), FORK, Claim::Views(&wanted)));
}
