//! Merging: rows get fewer columns, by joining those that differ in one variable alone.
#![tactic(auto)]

mod demands;
mod joins;
mod kinds;
mod marks;
mod merging;
mod totals;

pub use demands::{demand, do_demands_differ};
pub use merging::{merged, merged_tidy};
