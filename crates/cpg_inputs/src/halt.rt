//! The halt of a run whose log is rejected, or whose memory runs out as the log is read.
ghost use Rattle.std.specs.Prelude.{◌≡◌};
ghost use Rattle.cpg_inputs.specs.Halts.{halt_of_log};

use cpg_log::LogFault;
use cpg_refusal::{Halt, Refusal};

/// Returns the halt of a run whose log is rejected, or whose memory runs out as the log is read.
pub fn halt_of_log(fault: LogFault) -> Halt
    ensures { result ≡ halt_of_log fault }
{
    match fault {
        LogFault::Bad(line) => Halt::Refused(Refusal::BadLog(line)),
        LogFault::OutOfMemory => Halt::Memory,
    }
}
