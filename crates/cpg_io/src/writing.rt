//! Writes all bytes of a piece.
ghost use Rattle.std.specs.Prelude.{OnOk, OnErr};
ghost use Rattle.cpg_io.specs.Causes.{HasCause};
ghost use Rattle.cpg_io.specs.Sink.{Took, TookPrefix};

use crate::{Failed, Sink};

/// Writes all of the bytes, in as many writes as the sink needs.
///
/// `Failed` only if the sink's count of faults rose, or has come to its greatest number. The sink has taken a proper
/// prefix of the bytes then.
pub fn write_all<O: Sink>(sink: &mut O, bytes: &[u8]) -> Result<(), Failed>
    ensures whole { OnOk result (Took (O.state sink.old).taken (O.state sink.new).taken bytes.now) }
    ensures part { OnErr result (TookPrefix (O.state sink.old).taken (O.state sink.new).taken bytes.now) }
    ensures cause { HasCause (O.state sink.old).faults (O.state sink.new).faults result }
{
    // how many of the bytes the sink has taken
    let mut at = 0;
    while at < bytes.len() {
        at += sink.write(&bytes[at..])?;
    }
    Ok(())
}
