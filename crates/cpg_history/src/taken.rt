//! What a sink took, as ghost data.
ghost use Rattle.std.specs.Prelude.{◌≡◌, ◌++◌, [], List, ℕ};

use std::marker::Model;

/// All bytes that a sink took, in order.
#[derive(Drop)]
pub struct Taken {
    // a field without data; it is private, so that only this crate makes the struct
    made: (),
    // the bytes, the first taken first; only proofs see them
    ghost bytes: { List ℕ },
}

impl Model for Taken {
    ghost use base.Fml.{ftrue};
    ghost use Rattle.std.specs.Prelude.{List, ℕ};

    ghost also_owns = { λ _. ftrue };

    ghost Value = { List ℕ };

    ghost view = { λ t. t.bytes };
}

impl Taken {
    /// Returns no bytes, as before anything was taken.
    pub fn new() -> Taken
        ensures { result ≡ [] }
    {
        Taken { made: () }
    }

    /// Returns these bytes followed by those of a piece that was taken.
    #[inline(always)]
    pub fn then(&self, _piece: &[u8]) -> Taken
        ensures { result ≡ self.now ++ _piece.now }
    {
        Taken { made: () }
    }
}
