//! The error of a shelf or a sink.

use thiserror::Error;

/// A call of a shelf or a sink met a fault, and its count of faults rose, or has come to its greatest number.
#[derive(Clone, Copy, Debug, PartialEq, Eq, Error)]
#[error("a read or a write failed")]
pub struct Failed;
