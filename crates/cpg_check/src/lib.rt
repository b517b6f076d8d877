//! Whether tables are valid for a graph.
#![tactic(auto)]

ghost use Rattle.cpg_check.specs.OneVerdict.{HaveOneVerdict};

mod verdict;

pub use verdict::{Verdict, check};

/// Proves that a check has no choice: one part of the head is the first that differs from the graph's, one violation is
/// the first, and so tables have one verdict.
pub fn tables_have_one_verdict()
    ensures { HaveOneVerdict }
{}
