//! How many times a search may still split a cube before it is given up for a steadier one.
use cpg_base::OutOfMemory;
use std::alloc::{AllocError, AllocFailed};

/// How many times a search may split a cube, however short the list is.
const LEAST_SPLITS: u64 = 256;

/// How many more times a search may split a cube for each cube of the list.
const SPLITS_PER_CUBE: u64 = 8;

/// Why a search ends without an answer.
#[derive(Clone, Copy)]
pub(crate) enum Stop {
    /// Memory has run out.
    Memory,
    /// The search has split a cube as many times as it may.
    Effort,
}

impl From<OutOfMemory> for Stop {
    fn from(_: OutOfMemory) -> Self {
        Stop::Memory
    }
}

impl From<AllocError> for Stop {
    fn from(_: AllocError) -> Self {
        Stop::Memory
    }
}

impl<T: Drop> From<AllocFailed<T>> for Stop {
    fn from(_: AllocFailed<T>) -> Self {
        Stop::Memory
    }
}

/// How many times a search may still split a cube.
#[derive(Drop)]
pub(crate) struct Effort {
    /// How many splittings are left.
    left: u64,
}

impl Effort {
    /// Returns the effort for a list of `count` cubes: enough if most of them split few of the parts that the others leave.
    pub(crate) fn for_cubes(count: usize) -> Effort {
        Effort {
            left: SPLITS_PER_CUBE
                .saturating_mul(count as u64)
                .saturating_add(LEAST_SPLITS),
        }
    }

    /// Returns an effort that no search can use up.
    pub(crate) fn endless() -> Effort {
        Effort { left: u64::MAX }
    }

    /// Takes one splitting from those left, or fails with `Effort` if none is left.
    pub(crate) fn spend(&mut self) -> Result<(), Stop> {
        if self.left == 0 {
            return Err(Stop::Effort);
        }
        self.left -= 1;
        Ok(())
    }
}
