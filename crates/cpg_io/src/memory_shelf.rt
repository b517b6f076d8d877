//! A shelf in memory, with which runs are tested.
ghost use Rattle.std.specs.Prelude.{◌≡◌, ◌+◌, ◌^◌, ◌<◌, ◌≤◌, ◌↔◌, ◌⊎◌, [], ◌∷◌, ◌++◌, Some, None, ⊤, Contains, IsTrue, IsErr, MatchBool, is_err, IfOk, OnOk, OnErr, MatchResult, drop, take, length, min, position};
ghost use Rattle.std.specs.Bool.{OnFalse};
ghost use Rattle.std.specs.Io.{ReadsAtMost};
ghost use Rattle.std.specs.Io.KnownBytes.{IsAtEnd, ReadConsumes};
ghost use Rattle.cpg_io.specs.Causes.{HasCause, counted};
ghost use Rattle.cpg_io.specs.Shelf.{opened, HasGiven, StartsAt, SameNames, SameAccess};
ghost use Rattle.cpg_io.specs.MemoryShelf.{PutsUnder, shelf_of, stands_in, is_named};
ghost use Rattle.cpg_history.specs.Event.{after};
ghost use Rattle.cpg_history.specs.Fetch.{failed};

use crate::{Failed, Shelf};
use cpg_base::OutOfMemory;
use cpg_history::{History, ShelfEvent};
use std::alloc::Global;
use std::marker::Model;

/// A name, and the bytes that stand under it.
#[derive(Drop)]
struct MemoryFile {
    // no other file of the shelf has this name
    name: String,
    // what a fetch of the name gives
    bytes: Vec<u8>,
}

impl Model for MemoryFile {
    ghost use Rattle.std.specs.Prelude.{string_bytes};
    ghost use Rattle.cpg_io.specs.MemoryShelf.{File};

    ghost Value = { File };

    ghost view = { λ f. record { name = string_bytes f.name; bytes = f.bytes.items } };
}

impl MemoryFile {
    /// Whether the file has this name.
    fn is_named(&self, name: &str) -> bool
        ensures { result ≡ is_named name.now self.now }
    {
        self.name.as_str() == name
    }

    /// Returns the bytes of the file.
    fn bytes(&self) -> &[u8]
        ensures { result.now ≡ self.now.bytes }
    {
        self.bytes.as_slice()
    }

    /// Replaces the bytes of the file.
    fn set_bytes(&mut self, bytes: Vec<u8>)
        ensures { self.new ≡ record { name = self.old.name; bytes = bytes.items } }
    {
        self.bytes = bytes;
    }
}

/// Returns the place of the first file with the name, and `None` exactly if there is none.
fn file_index(files: &[MemoryFile], name: &str) -> Option<usize>
    ensures { result ≡ position (is_named name.now) files.now }
{
    files.iter().position(|file| file.is_named(name))
}

/// Replaces the bytes of the file with the name, or adds such a file. If memory runs out, nothing is changed.
fn store(files: &mut Vec<MemoryFile>, name: &str, bytes: &[u8]) -> Result<(), OutOfMemory>
    ensures put { OnOk result (PutsUnder files.old.items files.new.items name.now bytes.now) }
    ensures err { OnErr result (files.new.items ≡ files.old.items) }
{
    let alloc = *files.allocator();
    // copied before anything is changed, as memory may run out
    let bytes = Vec::from_slice(alloc, bytes)?;
    match file_index(files.as_slice(), name) {
        // no two files have one name
        Some(place) => files[place].set_bytes(bytes),
        None => {
            let name = String::from_str(alloc, name)?;
            files.push(MemoryFile { name, bytes })?;
        }
    }
    Ok(())
}

/// A shelf over bytes in memory, whose calls can be made to fail.
///
/// It counts its calls of `fetch` and `read` together from 0 up to 2^64 - 1, where the number stays. A call fails
/// exactly if its number is listed by `fail_call`, or if it fetches a name that isn't there. Every name may be
/// fetched.
#[derive(Drop)]
pub struct MemoryShelf {
    // each name once, with its bytes
    files: Vec<MemoryFile>,
    // the place in `files` of the file that is read, if one is
    fetched: Option<usize>,
    // how many of its bytes were read
    at: usize,
    // how many calls have failed; the count stops at its greatest number
    faults: u64,
    // the number of the next call
    calls: u64,
    // the numbers of the calls that fail
    failing: Vec<u64>,
    // all fetches with what they gave, for proofs alone
    history: History,
}

impl Model for MemoryShelf {
    ghost use Rattle.std.specs.Prelude.{drop};
    ghost use Rattle.cpg_io.specs.MemoryShelf.{MemoryShelfState, bytes_at, GivesWithin};

    ghost Value = { MemoryShelfState };

    ghost view = { λ s. record {
      files = s.files.items;
      left = drop s.at (bytes_at s.files.items s.fetched);
      at = s.at;
      faults = s.faults;
      calls = s.calls;
      failing = s.failing.items;
      history = s.history;
    } };

    ghost invariant = { λ s. GivesWithin s.files.items s.fetched s.at };
}

impl MemoryShelf {
    /// Returns a shelf with no files, no call of which fails by its number.
    pub fn new(alloc: Global) -> Result<MemoryShelf, OutOfMemory>
        ensures { IfOk result (λ s. s ≡ record { files = []; left = []; at = 0; faults = 0; calls = 0; failing = []; history = [] }) }
    {
        Ok(MemoryShelf {
            files: Vec::new(alloc),
            fetched: None,
            at: 0,
            faults: 0,
            calls: 0,
            failing: Vec::new(alloc),
            history: History::new(),
        })
    }

    /// Makes the bytes stand under the name, in place of what stood there. Nothing is left to read before the next fetch
    /// then. If memory runs out, nothing is changed.
    pub fn put(&mut self, name: &str, bytes: &[u8]) -> Result<(), OutOfMemory>
        ensures put { OnOk result (PutsUnder self.old.files self.new.files name.now bytes.now) }
        ensures same { OnOk result (self.new ≡ record self.old { files = self.new.files; left = [] }) }
        ensures err { OnErr result (self.new ≡ self.old) }
    {
        store(&mut self.files, name, bytes)?;
        // what was fetched may have been replaced, so nothing is left of it
        self.fetched = None;
        Ok(())
    }

    /// Lists the number of a call, counted from 0, that will fail. If memory runs out, nothing is changed.
    pub fn fail_call(&mut self, call: u64) -> Result<(), OutOfMemory>
        ensures listed { OnOk result (self.new ≡ record self.old { failing = self.old.failing ++ call ∷ [] }) }
        ensures err { OnErr result (self.new ≡ self.old) }
    {
        self.failing.push(call)?;
        Ok(())
    }

    /// Counts a call. Returns whether its number is listed to fail.
    fn count_call(&mut self) -> bool
        ensures listed { IsTrue result ↔ Contains self.old.failing self.old.calls }
        ensures same { self.new ≡ record self.old { calls = counted self.old.calls 1 } }
    {
        let is_listed = self.failing.contains(&self.calls);
        self.calls = self.calls.saturating_add(1);
        is_listed
    }

    /// Notes in the history what a call did.
    fn note(&mut self, event: &ShelfEvent<'_>)
        ensures { self.new ≡ record self.old { history = after event.now self.old.history } }
    {
        self.history = self.history.after(event);
    }

    /// Counts a fault and notes it in the history. Returns the error that the shelf then answers.
    fn count_fault(&mut self) -> Failed
        ensures counted { self.new ≡ record self.old { faults = counted self.old.faults 1; history = failed self.old.history } }
        ensures no_fewer { self.old.faults ≤ self.new.faults }
    {
        self.faults = self.faults.saturating_add(1);
        self.note(&ShelfEvent::Failed);
        Failed
    }

    /// Leaves nothing to read before the next fetch.
    fn close(&mut self)
        ensures { self.new ≡ record self.old { left = []; at = 0 } }
    {
        self.fetched = None;
        self.at = 0;
    }

    /// Makes the file with the name the one that is read, from its start. Returns whether there is such a file; if not,
    /// nothing is left to read.
    fn open(&mut self, name: &str) -> bool
        ensures found { MatchBool result (stands_in self.old.files name.now ≡ Some self.new.left) (stands_in self.old.files name.now ≡ None) }
        ensures none { OnFalse result (self.new.left ≡ []) }
        ensures same { self.new ≡ record self.old { left = self.new.left; at = 0 } }
    {
        self.at = 0;
        self.fetched = file_index(self.files.as_slice(), name);
        self.fetched.is_some()
    }

    /// Returns what is left of the fetched file, which is nothing if none is fetched.
    fn left(&self) -> &[u8]
        ensures left { result.now ≡ self.now.left }
        ensures fits { self.now.at + length self.now.left < 2 ^ 64 }
    {
        let at = self.at;
        match self.fetched {
            Some(place) => &self.files[place].bytes()[at..],
            None => &[],
        }
    }

    /// Writes the next bytes to the front of `buf`, as many as are left and fit. Returns how many.
    fn give(&mut self, buf: &mut [u8]) -> usize
        ensures fits { result ≡ min (length self.old.left) (length buf.old) }
        ensures given { take result buf.new ≡ take result self.old.left }
        ensures same { self.new ≡ record self.old { left = drop result self.old.left; at = counted self.old.at result } }
    {
        let left = self.left();
        let count = left.len().min(buf.len());
        buf[..count].copy_from_slice(&left[..count]);
        // no more is read than the file has, so the sum doesn't overflow
        self.at += count;
        count
    }
}

impl Shelf for MemoryShelf {
    ghost state = { shelf_of };

    ghost may_fetch = { λ _ _. ⊤ };

    /// Makes the name the one that is read. `Failed` exactly if the call's number is listed, or no file has the name.
    fn fetch(&mut self, name: &str) -> Result<(), Failed>
        ensures names { SameNames (shelf_of self.old) (shelf_of self.new) }
        ensures access { SameAccess (λ _. ⊤) (λ _. ⊤) }
        ensures started { OnOk result (StartsAt (stands_in self.old.files name.now) (Some self.new.left)) }
        ensures spent { OnErr result (IsAtEnd (Some self.new.left)) }
        ensures history { self.new.history ≡ opened name.now (is_err result) self.old.history }
        ensures cause { HasCause self.old.faults self.new.faults result }
        ensures fails { IsErr result ↔ (Contains self.old.failing self.old.calls ⊎ stands_in self.old.files name.now ≡ None) }
        ensures same { self.new ≡ record self.old {
          left = self.new.left;
          at = 0;
          faults = self.new.faults;
          history = self.new.history;
          calls = counted self.old.calls 1;
        } }
        ensures faults { MatchResult result (λ _. self.new.faults ≡ self.old.faults) (λ _. self.new.faults ≡ counted self.old.faults 1) }
    {
        // a fetch that fails leaves nothing to read either
        self.close();
        self.note(&ShelfEvent::Fetched(name));
        if self.count_call() {
            return Err(self.count_fault());
        }
        if !self.open(name) {
            return Err(self.count_fault());
        }
        Ok(())
    }

    /// Gives the next bytes, as many as are left and fit in `buf`, which isn't empty. `Failed` exactly if the call's number is
    /// listed.
    fn read(&mut self, buf: &mut [u8]) -> Result<usize, Failed>
        requires { 0 < length buf.old }
        ensures names { SameNames (shelf_of self.old) (shelf_of self.new) }
        ensures access { SameAccess (λ _. ⊤) (λ _. ⊤) }
        ensures bound { ReadsAtMost result buf.new }
        ensures bytes { ReadConsumes (Some self.old.left) (Some self.new.left) result buf.new }
        ensures history { HasGiven self.old.history self.new.history result buf.new }
        ensures cause { HasCause self.old.faults self.new.faults result }
        ensures fails { IsErr result ↔ Contains self.old.failing self.old.calls }
        ensures fits { IfOk result (λ n. n ≡ min (length self.old.left) (length buf.old)) }
        ensures same { self.new ≡ record self.old {
          left = self.new.left;
          at = self.new.at;
          faults = self.new.faults;
          history = self.new.history;
          calls = counted self.old.calls 1;
        } }
        ensures faults { MatchResult result (λ _. self.new.faults ≡ self.old.faults) (λ _. self.new.faults ≡ counted self.old.faults 1) }
    {
        // a call that fails gives nothing, and leaves what it would have given
        if self.count_call() {
            return Err(self.count_fault());
        }
        let count = self.give(buf);
        self.note(&ShelfEvent::Gave(&buf[..count]));
        Ok(count)
    }
}
