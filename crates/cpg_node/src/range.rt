//! What has been heard of a variable.

/// The numbers that a variable may still have, ends included.
#[derive(Clone, Copy, Debug, PartialEq, Eq)]
pub struct Range {
    /// The least of them.
    pub low: u8,
    /// The greatest of them.
    pub high: u8,
}
