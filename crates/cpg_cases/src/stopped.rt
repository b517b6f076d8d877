//! The error that stops the going through the lists.

use cpg_base::OutOfMemory;
use std::alloc::{AllocError, AllocFailed};
use std::io;
use std::num::ParseIntError;

/// The lists aren't gone through to their end: a line has no form, a file isn't there, the output can't be written, or
/// memory ran out.
#[derive(Clone, Copy)]
pub struct Stopped;

impl From<AllocError> for Stopped {
    fn from(_: AllocError) -> Stopped {
        Stopped
    }
}

impl<T: Drop> From<AllocFailed<T>> for Stopped {
    fn from(_: AllocFailed<T>) -> Stopped {
        Stopped
    }
}

impl From<OutOfMemory> for Stopped {
    fn from(_: OutOfMemory) -> Stopped {
        Stopped
    }
}

impl From<ParseIntError> for Stopped {
    fn from(_: ParseIntError) -> Stopped {
        Stopped
    }
}

impl From<io::Error> for Stopped {
    fn from(_: io::Error) -> Stopped {
        Stopped
    }
}
