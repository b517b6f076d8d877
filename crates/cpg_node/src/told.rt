//! What a dispatcher learns from: ends and frames.

/// The end of an execution.
#[derive(Clone, Copy, Debug, PartialEq, Eq)]
pub struct Ended {
    /// The number of the process.
    pub process: u32,
    /// How many faults it had.
    pub faults: u8,
    /// The value of its condition; false if it has none.
    pub value: bool,
}

/// A frame that comes over the bus.
#[derive(Clone, Copy, Debug, PartialEq, Eq)]
pub struct Frame {
    /// The number of the message's or broadcast's item.
    pub item: u32,
    /// The number of the column by which it was sent, in the item's row.
    pub column: u32,
    /// The value that a broadcast carries. A message carries none, and its value is ignored.
    pub value: bool,
}
