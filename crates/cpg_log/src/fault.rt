//! Why no log was read of a file.

use cpg_base::OutOfMemory;

/// Why no log was read of a file.
#[derive(Clone, Copy, Debug, PartialEq, Eq)]
pub enum LogFault {
    /// The file is no log; the number is that of the first line that makes it none, counted from 0.
    Bad(u64),
    /// Out of memory.
    OutOfMemory,
}

impl From<OutOfMemory> for LogFault {
    ghost use Rattle.std.specs.Prelude.{◌≡◌};
    ghost use Rattle.cpg_log.specs.declared.fault.LogFault.{LogFault};

    ghost from_gives = { λ _ fault. fault ≡ LogFault.OutOfMemory };

    fn from(_: OutOfMemory) -> Self {
        LogFault::OutOfMemory
    }
}
