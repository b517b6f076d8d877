//! What is claimed of a test's graph. One function admits and owns the graph of each test, since such a function is
//! slow to prove.
use crate::build_tests::{builders_agree, is_pair};
use crate::fixtures::admitted;
use crate::list_tests::{Found, is_found};
use crate::order_tests::have_tails;
use crate::reach_tests::have_views;
use crate::run_tests::outcomes_are_so;
use crate::tracks_tests::have_starts;
use cpg_rules::Admitted;
use std::alloc::Global;

/// A claim about a graph.
#[derive(Clone, Copy)]
pub enum Claim<'a> {
    /// For each pair of a process and a length, the longest way from the process to an end has this length.
    Tails(&'a [(u32, u64)]),
    /// For each pair of an item and a number, the item has this number of views.
    Views(&'a [(u32, u64)]),
    /// The greedy schedule of each track, in order, has these starts of the four processes; `None` is no start.
    Starts(&'a [[Option<u64>; 4]]),
    /// The runs of both outcomes of the choice are as worked out by hand.
    Outcomes,
    /// Over the list of all scenarios, the peaks, rows and frozen times are these.
    Finds(&'a Found),
    /// What is built over the list of all scenarios is what was worked out for the pair.
    Pair,
    /// What is built over a list and by trees has the same measures and times in all scenarios.
    Agreement,
}

/// Whether a claim is true of an admitted graph. False at an error, too.
fn is_so(alloc: Global, admitted: &Admitted, claim: Claim<'_>) -> bool {
    match claim {
        Claim::Tails(wanted) => have_tails(alloc, admitted, wanted),
        Claim::Views(wanted) => have_views(alloc, admitted, wanted),
        Claim::Starts(wanted) => have_starts(alloc, admitted, wanted),
        Claim::Outcomes => outcomes_are_so(alloc, admitted),
        Claim::Finds(found) => is_found(alloc, admitted, found),
        Claim::Pair => is_pair(alloc, admitted),
        Claim::Agreement => builders_agree(alloc, admitted),
    }
}

/// Whether a text is a graph that is admitted, and the claim is true of it. False at an error, too.
pub fn holds(alloc: Global, text: &str, claim: Claim<'_>) -> bool {
    match admitted(alloc, text) {
        Some(admitted) => is_so(alloc, &admitted, claim),
        None => false,
    }
}
