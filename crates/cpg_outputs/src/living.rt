//! Ends a run whose node follows a stream.
ghost use Rattle.std.specs.Prelude.{◌≡◌};
ghost use Rattle.cpg_io.specs.Shelf.{KeepsShelf, SameAccess};
ghost use Rattle.cpg_live.specs.Follower.{open_follower};
ghost use Rattle.cpg_live.specs.Streams.{fault_line};
ghost use Rattle.cpg_outputs.specs.Said.{IsFollowedAt, IsSaid};
ghost use Rattle.cpg_outputs.specs.Told.{Sent, sent};

use crate::answer::{WRITE_FAULT, end_at_read_fault, end_at_write_fault};
use crate::streaming;
use cpg_io::{Failed, Shelf, Sink};
use cpg_live::{Broken, Follower, StreamFault};

/// Writes the line which says that a record of the stream is rejected. Returns the status of a refusal, or `WRITE_FAULT`.
fn refuse<E: Sink>(follower: &mut Follower, fault: StreamFault, err: &mut E) -> u8
    ensures { Sent (sent (E.state err.old) (E.state err.new)) result 4 (fault_line fault) }
{
    match follower.write_refused(fault, err) {
        // 4 is the status of every refusal
        Ok(()) => 4,
        Err(Failed) => WRITE_FAULT,
    }
}

/// Ends a run whose stream isn't followed to its close: writes the line that says why. Returns the status.
fn end_broken<E: Sink>(follower: &mut Follower, broken: Broken, err: &mut E) -> u8
    ensures { IsSaid (sent (E.state err.old) (E.state err.new)) result broken }
{
    match broken {
        Broken::Shelf => end_at_read_fault(err),
        Broken::Sink => end_at_write_fault(err),
        Broken::Refused(fault) => refuse(follower, fault, err),
    }
}

/// Lets a node follow the named stream, and ends the run. Returns 0 if the stream is followed to its close; otherwise writes
/// the line that says why it isn't, and returns its status.
pub fn follow<S: Shelf, O: Sink, E: Sink>(
    follower: &mut Follower,
    shelf: &mut S,
    out: &mut O,
    err: &mut E,
    stream: &str,
) -> u8
    requires may { S.may_fetch shelf.old stream.now }
    requires opened { follower.old ≡ open_follower follower.old.head follower.old.table }
    ensures keeps { KeepsShelf (S.state shelf.old) (S.state shelf.new) }
    ensures access { SameAccess (S.may_fetch shelf.old) (S.may_fetch shelf.new) }
    ensures followed { IsFollowedAt follower.old.head follower.old.table stream.now (S.state shelf.old).history (S.state shelf.new).history
        (sent (O.state out.old) (O.state out.new)) (sent (E.state err.old) (E.state err.new)) result }
{
    match streaming::follow(follower, shelf, stream, out) {
        Ok(()) => 0,
        Err(broken) => end_broken(follower, broken, err),
    }
}
