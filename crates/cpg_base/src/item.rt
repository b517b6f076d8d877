//! Items: what is scheduled.

/// An item that is scheduled, with the number of its process, edge or condition.
#[derive(Clone, Copy, Debug, PartialEq, Eq)]
pub enum Item {
    /// The start of a process.
    Start(u32),
    /// The message of an edge.
    Message(u32),
    /// The broadcast of a condition's value.
    Broadcast(u32),
}
