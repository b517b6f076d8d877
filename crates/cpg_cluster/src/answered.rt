//! What a node answers when it is asked.

/// What a node did when it was asked.
#[derive(Clone, Copy, Debug, PartialEq, Eq)]
pub enum AskStep {
    /// The node took the turn of its next instant.
    Took,
    /// Another node may still send a frame that arrives by the node's next instant. Nothing changed.
    Waits {
        /// The node that it waits on; of several, the one with the least number.
        on: u32,
    },
    /// The node has no next instant. Nothing changed.
    Done,
}
