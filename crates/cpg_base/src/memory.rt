//! The error of a function that runs out of memory.

use std::alloc::{AllocError, AllocFailed};

/// Memory ran out. No contract says when: any call that takes memory may return it.
#[derive(Clone, Copy, Debug, PartialEq, Eq)]
pub struct OutOfMemory;

/// An allocation that fails becomes `OutOfMemory`, so `?` passes it on.
impl From<AllocError> for OutOfMemory {
    fn from(_: AllocError) -> Self {
        OutOfMemory
    }
}

/// `OutOfMemory` becomes the error that std's `Clone` asks of an implementation.
impl From<OutOfMemory> for AllocError {
    fn from(_: OutOfMemory) -> Self {
        AllocError
    }
}

/// A `push` that fails becomes `OutOfMemory`. Its error gives back the value that it couldn't add, which is dropped.
impl<T: Drop> From<AllocFailed<T>> for OutOfMemory {
    fn from(_: AllocFailed<T>) -> Self {
        OutOfMemory
    }
}
