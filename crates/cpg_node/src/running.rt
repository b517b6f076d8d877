//! What runs on a node.

use crate::Ended;

/// An execution of a process.
#[derive(Clone, Copy, Debug, PartialEq, Eq)]
pub struct Running {
    /// When it started, in time units of the graph file.
    pub start: u64,
    /// The report of its end, once that has come; it is kept until the planned end.
    pub report: Option<Ended>,
}
