//! Which scenario gives a log: the least one, of at most the graph's faults, in which just what is logged is due.
#![tactic(auto)]

mod auditing;
mod idle;
mod log_order;
mod narrowing;

pub use auditing::audit;
