//! A shelf over the runtime's files.
ghost use Rattle.std.specs.Prelude.{◌≡◌, ◌<◌, ◌≤◌, [], None, Some, Ok, false, ⊤, is_err, is_ok, length, MatchResult, OnErr, OnOk};
ghost use Rattle.std.specs.Io.{ReadsAtMost};
ghost use Rattle.std.specs.Io.KnownBytes.{IsAtEnd, ReadConsumes};
ghost use Rattle.cpg_io.specs.Causes.{HasCause, counted};
ghost use Rattle.cpg_io.specs.Shelf.{opened, HasGiven, StartsAt, SameNames, SameAccess};
ghost use Rattle.cpg_io.specs.Adapters.{shelf_of};
ghost use Rattle.cpg_history.specs.Event.{after};
ghost use Rattle.cpg_history.specs.Fetch.{failed};

use crate::{Failed, Shelf};
use cpg_history::{History, ShelfEvent};
use std::fs;
use std::io::Read;
use std::marker::Model;
use std::rt::Files;

/// A shelf over the runtime's files, whose names are paths. Every name may be fetched.
///
/// The shelf always reports what its reads gave, and never what stands under a name. With a file open it reports what is
/// left only if the file does, which a file of the machine doesn't. With no file open it reports that nothing is left.
#[derive(Drop)]
pub struct FileShelf<R: Files> {
    // the runtime that opens files
    rt: R,
    // the fetched file; `None` before the first fetch and after one that failed
    file: Option<R::File>,
    // all fetches with what they gave, for proofs alone
    history: History,
    // how many calls have failed; the count stops at its greatest number
    faults: u64,
}

impl<R: Files> Model for FileShelf<R> {
    ghost use Rattle.std.specs.Prelude.{is_some};
    ghost use Rattle.cpg_io.specs.Adapters.{FileShelfState, left_in};

    ghost Value = { FileShelfState };

    ghost view = { λ s. record { is_open = is_some s.file; left = left_in R.File.Read.remaining s.file; faults = s.faults; history = s.history } };
}

impl<R: Files> FileShelf<R> {
    /// Returns a shelf over the files of `rt`, with no file open.
    pub fn new(rt: R) -> FileShelf<R>
        ensures { result ≡ record { is_open = false; left = Some []; faults = 0; history = [] } }
    {
        FileShelf {
            rt,
            file: None,
            history: History::new(),
            faults: 0,
        }
    }

    /// Notes in the history what a call did.
    fn note(&mut self, event: &ShelfEvent<'_>)
        ensures { self.new ≡ record self.old { history = after event.now self.old.history } }
    {
        self.history = self.history.after(event);
    }

    /// Counts a fault and notes it in the history. Returns the error that the shelf then answers.
    fn count_fault(&mut self) -> Failed
        ensures counted { self.new ≡ record self.old { faults = counted self.old.faults 1; history = failed self.old.history } }
        ensures no_fewer { self.old.faults ≤ self.new.faults }
    {
        self.faults = self.faults.saturating_add(1);
        self.note(&ShelfEvent::Failed);
        Failed
    }
}

impl<R: Files> Shelf for FileShelf<R> {
    ghost state = { shelf_of };

    ghost may_fetch = { λ _ _. ⊤ };

    /// Opens the file, in place of the one that was open. Any error of the machine is a fault, and leaves no file open.
    fn fetch(&mut self, name: &str) -> Result<(), Failed>
        ensures names { SameNames (shelf_of self.old) (shelf_of self.new) }
        ensures access { SameAccess (λ _. ⊤) (λ _. ⊤) }
        ensures started { OnOk result (StartsAt None self.new.left) }
        ensures spent { OnErr result (IsAtEnd self.new.left) }
        ensures history { self.new.history ≡ opened name.now (is_err result) self.old.history }
        ensures cause { HasCause self.old.faults self.new.faults result }
        ensures open { self.new.is_open ≡ is_ok result }
        ensures faults { MatchResult result (λ _. self.new.faults ≡ self.old.faults) (λ _. self.new.faults ≡ counted self.old.faults 1) }
    {
        // a file that was open is closed, even if the next one can't be opened
        self.file = None;
        self.note(&ShelfEvent::Fetched(name));
        match fs::open(&self.rt, name) {
            Ok(file) => {
                self.file = Some(file);
                Ok(())
            }
            // callers tell no errors apart, so what the machine says of this one isn't kept
            Err(_) => Err(self.count_fault()),
        }
    }

    /// Reads once, so that a large buffer is one large block. Any error of the machine is a fault.
    fn read(&mut self, buf: &mut [u8]) -> Result<usize, Failed>
        requires { 0 < length buf.old }
        ensures names { SameNames (shelf_of self.old) (shelf_of self.new) }
        ensures access { SameAccess (λ _. ⊤) (λ _. ⊤) }
        ensures bound { ReadsAtMost result buf.new }
        ensures bytes { ReadConsumes self.old.left self.new.left result buf.new }
        ensures history { HasGiven self.old.history self.new.history result buf.new }
        ensures cause { HasCause self.old.faults self.new.faults result }
        ensures open { self.new.is_open ≡ self.old.is_open }
        ensures end { self.old.is_open ≡ false → result ≡ Ok 0 }
        ensures faults { MatchResult result (λ _. self.new.faults ≡ self.old.faults) (λ _. self.new.faults ≡ counted self.old.faults 1) }
    {
        let read = match &mut self.file {
            Some(file) => file.read(buf),
            // nothing is left of no file
            None => Ok(0),
        };
        match read {
            Ok(count) => {
                self.note(&ShelfEvent::Gave(&buf[..count]));
                Ok(count)
            }
            Err(_) => Err(self.count_fault()),
        }
    }
}
