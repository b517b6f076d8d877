//! Where bytes come from.
ghost use Rattle.std.specs.Prelude.{◌≡◌, ◌<◌, List, ℕ, is_err, length, OnOk, OnErr};
ghost use Rattle.std.specs.Io.{ReadsAtMost};
ghost use Rattle.std.specs.Io.KnownBytes.{IsAtEnd, ReadConsumes};
ghost use Rattle.cpg_io.specs.Causes.{HasCause};
ghost use Rattle.cpg_io.specs.Shelf.{opened, HasGiven, StartsAt, SameNames, SameAccess};
ghost use Rattle.cpg_io.specs.State.{ShelfState};

use crate::Failed;

/// Named bytes. One name at a time is fetched, and its bytes are then read in pieces.
///
/// No call changes what stands under a name, or which names may be fetched. The count of faults has 64 bits and stops at its
/// greatest number. A shelf always reports what calls gave. It reports what stands under a name only if it knows that; then
/// reads since the fetch have given a prefix of it, since each read takes what it gives from what is left.
pub trait Shelf {
    /// What the shelf reports: the bytes that stand under each name and those that are left of the fetched one, if it knows
    /// them; the count of faults; and all fetches, with the bytes that each gave.
    ghost state: { Self → ShelfState };

    /// Whether a name may be fetched.
    ghost may_fetch: { Self → List ℕ → Type 0 };

    /// Makes the name the one that is read, from its start.
    ///
    /// `Failed` only if the count of faults rose, or has come to its greatest number, as for a name that isn't there.
    /// Nothing is left to read then.
    fn fetch(&mut self, name: &str) -> Result<(), Failed>
        requires { may_fetch self.old name.now }
        ensures names { SameNames (state self.old) (state self.new) }
        ensures access { SameAccess (may_fetch self.old) (may_fetch self.new) }
        ensures started { OnOk result (StartsAt ((state self.old).stands name.now) (state self.new).left) }
        ensures spent { OnErr result (IsAtEnd (state self.new).left) }
        ensures history { (state self.new).history ≡ opened name.now (is_err result) (state self.old).history }
        ensures cause { HasCause (state self.old).faults (state self.new).faults result };

    /// Writes the next bytes to the front of `buf`, which isn't empty. Returns how many; 0 means the end.
    ///
    /// `Failed` only if the count of faults rose, or has come to its greatest number. Nothing is given then.
    fn read(&mut self, buf: &mut [u8]) -> Result<usize, Failed>
        requires { 0 < length buf.old }
        ensures names { SameNames (state self.old) (state self.new) }
        ensures access { SameAccess (may_fetch self.old) (may_fetch self.new) }
        ensures bound { ReadsAtMost result buf.new }
        ensures bytes { ReadConsumes (state self.old).left (state self.new).left result buf.new }
        ensures history { HasGiven (state self.old).history (state self.new).history result buf.new }
        ensures cause { HasCause (state self.old).faults (state self.new).faults result };
}
