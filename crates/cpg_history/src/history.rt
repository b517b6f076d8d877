//! What a shelf gave, as ghost data.
ghost use Rattle.std.specs.Prelude.{◌≡◌, [], List};
ghost use Rattle.cpg_history.specs.Event.{after};
ghost use Rattle.cpg_history.specs.Fetch.{Fetch};

use std::marker::Model;

/// What a call of a shelf did.
#[derive(Clone, Copy, Drop)]
pub enum ShelfEvent<'a> {
    /// A name was fetched.
    Fetched(&'a str),
    /// Bytes were given, none at the end.
    Gave(&'a [u8]),
    /// The call failed.
    Failed,
}

/// All fetches of a shelf, newest first, with the bytes that were given of each.
#[derive(Drop)]
pub struct History {
    // a field without data; it is private, so that only this crate makes a history
    made: (),
    // the fetches, newest first; only proofs see them
    ghost fetches: { List Fetch },
}

impl Model for History {
    ghost use base.Fml.{ftrue};
    ghost use Rattle.std.specs.Prelude.{List};
    ghost use Rattle.cpg_history.specs.Fetch.{Fetch};

    ghost also_owns = { λ _. ftrue };

    ghost Value = { List Fetch };

    ghost view = { λ h. h.fetches };
}

impl History {
    /// Returns the history in which nothing was fetched.
    pub fn new() -> History
        ensures { result ≡ [] }
    {
        History { made: () }
    }

    /// Returns the history after a call that did what the event says.
    #[inline(always)]
    pub fn after(&self, _event: &ShelfEvent<'_>) -> History
        ensures { result ≡ after _event.now self.now }
    {
        History { made: () }
    }
}
