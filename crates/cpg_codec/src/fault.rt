//! Why tables, or parts of them, weren't written or read.

use cpg_base::OutOfMemory as NoMemory;
use cpg_io::Failed;
use std::alloc::{AllocError, AllocFailed};
use thiserror::Error;

/// Why a pack wasn't written.
#[derive(Clone, Copy, Debug, PartialEq, Eq, Error)]
pub enum WriteFault {
    /// The sink met a fault, and its count of faults rose or is at its greatest number.
    #[error("the sink met a fault")]
    Failed,
    /// Out of memory.
    #[error("out of memory")]
    OutOfMemory,
}

impl From<Failed> for WriteFault {
    ghost use Rattle.std.specs.Prelude.{◌≡◌};
    ghost use Rattle.cpg_codec.specs.declared.fault.WriteFault.{WriteFault};

    ghost from_gives = { λ _ e. e ≡ WriteFault.Failed };

    fn from(_: Failed) -> WriteFault {
        WriteFault::Failed
    }
}

impl From<AllocError> for WriteFault {
    ghost use Rattle.std.specs.Prelude.{◌≡◌};
    ghost use Rattle.cpg_codec.specs.declared.fault.WriteFault.{WriteFault};

    ghost from_gives = { λ _ e. e ≡ WriteFault.OutOfMemory };

    fn from(_: AllocError) -> WriteFault {
        WriteFault::OutOfMemory
    }
}

impl From<NoMemory> for WriteFault {
    ghost use Rattle.std.specs.Prelude.{◌≡◌};
    ghost use Rattle.cpg_codec.specs.declared.fault.WriteFault.{WriteFault};

    ghost from_gives = { λ _ e. e ≡ WriteFault.OutOfMemory };

    fn from(_: NoMemory) -> WriteFault {
        WriteFault::OutOfMemory
    }
}

/// Why bytes weren't read as tables.
#[derive(Clone, Copy, Debug, PartialEq, Eq, Error)]
pub enum PackFault {
    /// They are no pack. The number is the length of the longest prefix of them that is a prefix of some pack, in bytes.
    #[error("the first {0} bytes can begin a pack, no more")]
    BadPack(u64),
    /// Out of memory.
    #[error("out of memory")]
    OutOfMemory,
}

/// Why a part of a pack couldn't be read.
#[derive(Clone, Copy, Debug)]
pub enum ReadError {
    /// A byte is there that no pack has after those before it, or the bytes end too early. The number says how many are
    /// left from that byte on: 0 if they end.
    Left(usize),
    /// Out of memory.
    Memory,
}

impl From<NoMemory> for ReadError {
    ghost use Rattle.std.specs.Prelude.{◌≡◌};
    ghost use Rattle.cpg_codec.specs.declared.fault.ReadError.{ReadError};

    ghost from_gives = { λ _ e. e ≡ ReadError.Memory };

    fn from(_: NoMemory) -> ReadError {
        ReadError::Memory
    }
}

impl From<AllocError> for ReadError {
    ghost use Rattle.std.specs.Prelude.{◌≡◌};
    ghost use Rattle.cpg_codec.specs.declared.fault.ReadError.{ReadError};

    ghost from_gives = { λ _ e. e ≡ ReadError.Memory };

    fn from(_: AllocError) -> ReadError {
        ReadError::Memory
    }
}

impl<T: Drop> From<AllocFailed<T>> for ReadError {
    ghost use Rattle.std.specs.Prelude.{◌≡◌};
    ghost use Rattle.cpg_codec.specs.declared.fault.ReadError.{ReadError};

    ghost from_gives = { λ _ e. e ≡ ReadError.Memory };

    fn from(_: AllocFailed<T>) -> ReadError {
        ReadError::Memory
    }
}

/// Why rows weren't taken as they stand.
#[derive(Clone, Copy, Debug)]
pub enum Untaken {
    /// The bytes may be no lawful row: reading them field by field decides that, and finds the bad byte.
    Odd,
    /// Out of memory.
    Memory,
}

impl From<NoMemory> for Untaken {
    ghost use Rattle.std.specs.Prelude.{◌≡◌};
    ghost use Rattle.cpg_codec.specs.declared.fault.Untaken.{Untaken};

    ghost from_gives = { λ _ e. e ≡ Untaken.Memory };

    fn from(_: NoMemory) -> Untaken {
        Untaken::Memory
    }
}

impl From<AllocError> for Untaken {
    ghost use Rattle.std.specs.Prelude.{◌≡◌};
    ghost use Rattle.cpg_codec.specs.declared.fault.Untaken.{Untaken};

    ghost from_gives = { λ _ e. e ≡ Untaken.Memory };

    fn from(_: AllocError) -> Untaken {
        Untaken::Memory
    }
}

impl<T: Drop> From<AllocFailed<T>> for Untaken {
    ghost use Rattle.std.specs.Prelude.{◌≡◌};
    ghost use Rattle.cpg_codec.specs.declared.fault.Untaken.{Untaken};

    ghost from_gives = { λ _ e. e ≡ Untaken.Memory };

    fn from(_: AllocFailed<T>) -> Untaken {
        Untaken::Memory
    }
}
