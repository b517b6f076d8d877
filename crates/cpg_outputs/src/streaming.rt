//! Lets a node follow a stream, piece by piece.
ghost use Rattle.std.specs.Prelude.{◌≡◌, ◌≤◌, Err, IfErr, IfOk, OnOk};
ghost use Rattle.cpg_io.specs.Agreement.{AreFetched, LeavesRest};
ghost use Rattle.cpg_io.specs.Causes.{Rose};
ghost use Rattle.cpg_io.specs.Shelf.{SameAccess, SameNames};
ghost use Rattle.cpg_live.specs.Follower.{open_follower};
ghost use Rattle.cpg_live.specs.Following.{Breaks, Completes, GoesOn, IsAlongAt, IsOfSame, IsStreamed};
ghost use Rattle.cpg_live.specs.declared.following.TheConstants.{STREAM_LIMIT};
ghost use Rattle.cpg_live.specs.declared.following.Broken.{Broken};

use cpg_io::{Failed, Shelf, Sink};
use cpg_live::{Broken, Follower};

/// The most bytes that are asked of the stream at once: the length of the buffer.
const PIECE: usize = 65_536;

/// Follows all pieces to the end of the stream. The error says what broke it off: the shelf, `out` or a rejected record.
fn follow_pieces<S: Shelf, O: Sink>(
    follower: &mut Follower,
    shelf: &mut S,
    out: &mut O,
) -> Result<(), Broken>
    requires { follower.old.read ≤ STREAM_LIMIT }
    ensures names { SameNames (S.state shelf.old) (S.state shelf.new) }
    ensures access { SameAccess (S.may_fetch shelf.old) (S.may_fetch shelf.new) }
    ensures rest { LeavesRest (S.state shelf.old) → LeavesRest (S.state shelf.new) }
    ensures same { IsOfSame follower.old follower.new }
    ensures along { GoesOn follower.old (S.state shelf.old) (S.state shelf.new) (O.state out.old) (O.state out.new)
        (λ _ start name past. IsAlongAt 0 name past (S.state shelf.new).history start (O.state out.new).taken follower.new) result }
    ensures rose { result ≡ Err Broken.Shelf → Rose (S.state shelf.old).faults (S.state shelf.new).faults }
    ensures later { (S.state shelf.old).faults ≤ (S.state shelf.new).faults }
    ensures out_kept { OnOk result ((O.state out.new).faults ≡ (O.state out.old).faults) }
{
    let mut buffer = [0; PIECE];
    loop {
        let count = match follower.follow_piece(shelf, &mut buffer, out) {
            Ok(count) => count,
            Err(broken) => return Err(broken),
        };
        // an empty piece is the end of the stream
        if count == 0 {
            return Ok(());
        }
    }
}

/// Follows the pieces of a stream that is fetched, and its close.
fn follow_rest<S: Shelf, O: Sink>(
    follower: &mut Follower,
    shelf: &mut S,
    out: &mut O,
) -> Result<(), Broken>
    requires { follower.old.read ≤ STREAM_LIMIT }
    ensures names { SameNames (S.state shelf.old) (S.state shelf.new) }
    ensures access { SameAccess (S.may_fetch shelf.old) (S.may_fetch shelf.new) }
    ensures rest { LeavesRest (S.state shelf.old) → LeavesRest (S.state shelf.new) }
    ensures along { GoesOn follower.old (S.state shelf.old) (S.state shelf.new) (O.state out.old) (O.state out.new)
        (λ _ start name past. IsStreamed (Completes follower.old.head follower.old.table) name past (S.state shelf.new).history start
        (O.state out.old) (O.state out.new)) result }
    ensures rose { result ≡ Err Broken.Shelf → Rose (S.state shelf.old).faults (S.state shelf.new).faults }
    ensures later { (S.state shelf.old).faults ≤ (S.state shelf.new).faults }
{
    match follow_pieces(follower, shelf, out) {
        Ok(()) => follower.close(out),
        Err(broken) => Err(broken),
    }
}

/// Follows the named stream to its close. After each piece it writes the lines of what the node does, and at last the line of
/// the close. The error says what broke it off: the shelf, `out` or a rejected record.
pub fn follow<S: Shelf, O: Sink>(
    follower: &mut Follower,
    shelf: &mut S,
    name: &str,
    out: &mut O,
) -> Result<(), Broken>
    requires may { S.may_fetch shelf.old name.now }
    requires opened { follower.old ≡ open_follower follower.old.head follower.old.table }
    ensures names { SameNames (S.state shelf.old) (S.state shelf.new) }
    ensures access { SameAccess (S.may_fetch shelf.old) (S.may_fetch shelf.new) }
    ensures fetched { AreFetched (S.state shelf.old) (S.state shelf.new) }
    ensures whole { IfOk result (λ _.
        IsStreamed (Completes follower.old.head follower.old.table) name.now (S.state shelf.old).history (S.state shelf.new).history
        (O.state out.old).taken (O.state out.old) (O.state out.new)) }
    ensures broken { IfErr result (λ broken.
        IsStreamed (λ s. Breaks follower.old.head follower.old.table s broken) name.now (S.state shelf.old).history
        (S.state shelf.new).history (O.state out.old).taken (O.state out.old) (O.state out.new)) }
    ensures rose { result ≡ Err Broken.Shelf → Rose (S.state shelf.old).faults (S.state shelf.new).faults }
    ensures later { (S.state shelf.old).faults ≤ (S.state shelf.new).faults }
{
    match shelf.fetch(name) {
        Ok(()) => follow_rest(follower, shelf, out),
        Err(Failed) => Err(Broken::Shelf),
    }
}
