//! Doing the items of the lists, one after the other.

use crate::files::{bytes_of, changed, replaced};
use crate::printing::{print_outcome, print_sweep, print_words};
use crate::runs::{Outcome, RunSetting, USUAL, run_words};
use crate::stopped::Stopped;
use crate::sweeps::{Sweep, calls, parts, refusals, rooms};
use cpg_base::OutOfMemory;
use cpg_io::MemoryShelf;
use std::alloc::Global;

/// What the items so far leave to the next one.
#[derive(Drop)]
pub struct Session {
    /// The files that items made.
    files: MemoryShelf,
    /// What is set for the next run.
    next: RunSetting,
    /// The output of the last `run`.
    wrote: Vec<u8>,
}

/// Returns a text before its first blank, and after it. An error is that it has none.
fn split(text: &str) -> Result<(&str, &str), Stopped> {
    text.split_once(' ').ok_or(Stopped)
}

/// Returns the number that a text writes in decimal digits. An error is that it writes none.
fn number(text: &str) -> Result<usize, Stopped> {
    Ok(text.parse::<usize>()?)
}

/// Returns the words of a line. The one error is that memory runs out.
fn words_of(alloc: Global, line: &str) -> Result<Vec<String>, Stopped> {
    let mut words = Vec::new(alloc);
    for word in line.split_whitespace() {
        words.push(String::from_str(alloc, word)?)?;
    }
    Ok(words)
}

impl Session {
    /// Returns a session in which nothing has been done. The one error is that memory runs out.
    pub fn new(alloc: Global) -> Result<Session, OutOfMemory> {
        Ok(Session {
            files: MemoryShelf::new(alloc)?,
            next: USUAL,
            wrote: Vec::new(alloc),
        })
    }

    /// Makes a file with these bytes, in place of any other with this name.
    fn put(&mut self, name: &str, bytes: &[u8]) -> Result<(), Stopped> {
        Ok(self.files.put(name, bytes)?)
    }

    /// Does `feeds NAME COUNT`: makes a file of COUNT line feeds. `rest` is what follows the first word, here and
    /// below.
    fn feeds(&mut self, alloc: Global, rest: &str) -> Result<(), Stopped> {
        let (name, count) = split(rest)?;
        let count = number(count)?;
        let bytes = vec![in alloc; b'\n'; count]?;
        self.put(name, bytes.as_slice())
    }

    /// Does `edit NAME FROM OLD => NEW`: makes a text of the text of FROM, with NEW in place of its first OLD.
    fn edit(&mut self, rt: &HostRuntime, rest: &str) -> Result<(), Stopped> {
        let (name, rest) = split(rest)?;
        let (from, rest) = split(rest)?;
        let (old, new) = rest.split_once(" => ").ok_or(Stopped)?;
        let bytes = bytes_of(rt, &mut self.files, from)?;
        let text = replaced(rt.alloc(), bytes.as_slice(), old, new)?;
        self.put(name, text.as_bytes())
    }

    /// Does `set NAME FROM PLACE BYTE ..`: makes bytes of the bytes of FROM, with others from PLACE on.
    fn set(&mut self, rt: &HostRuntime, rest: &str) -> Result<(), Stopped> {
        let (name, rest) = split(rest)?;
        let (from, rest) = split(rest)?;
        let (place, words) = split(rest)?;
        let place = number(place)?;
        let bytes = bytes_of(rt, &mut self.files, from)?;
        let made = changed(rt.alloc(), bytes.as_slice(), place, words)?;
        self.put(name, made.as_slice())
    }

    /// Does `keep NAME`: makes a file of the last output.
    fn keep(&mut self, name: &str) -> Result<(), Stopped> {
        Ok(self.files.put(name, self.wrote.as_slice())?)
    }

    /// Does `room OUT ERR`: the sinks of the next run take OUT and ERR bytes.
    fn room(&mut self, rest: &str) -> Result<(), Stopped> {
        let (out, err) = split(rest)?;
        self.next.out = number(out)?;
        self.next.err = number(err)?;
        Ok(())
    }

    /// Does `fail CALL`: the call of the shelf with this number, from 0, fails in the next run.
    fn fail(&mut self, call: &str) -> Result<(), Stopped> {
        self.next.failing = Some(call.parse::<u64>()?);
        Ok(())
    }

    /// Does `first LINES`: of the next run's output only so many lines are printed.
    fn first(&mut self, lines: &str) -> Result<(), Stopped> {
        self.next.lines = number(lines)?;
        Ok(())
    }

    /// Prints a run, keeps its output for `keep`, and leaves the next run with the usual setting.
    fn note(&mut self, rt: &HostRuntime, got: &Outcome) -> Result<(), Stopped> {
        print_outcome(rt, got, self.next.lines)?;
        self.wrote = Vec::from_slice(rt.alloc(), got.out.taken())?;
        // what items set is for one run alone
        self.next = USUAL;
        Ok(())
    }

    /// Does `run WORD ..`: runs the program on these words, and prints what comes of it.
    fn run(&mut self, rt: &HostRuntime, words: &[String]) -> Result<(), Stopped> {
        let got = run_words(rt, &mut self.files, words, self.next)?;
        self.note(rt, &got)
    }

    /// Runs words many times, as `rooms`, `refusals` or `calls` says. An error is that `item` is none of these, or that
    /// a run can't be made.
    fn sweep(&mut self, rt: &HostRuntime, item: &str, words: &[String]) -> Result<Sweep, Stopped> {
        match item {
            "rooms" => rooms(rt, &mut self.files, words),
            "refusals" => refusals(rt, &mut self.files, words),
            "calls" => calls(rt, &mut self.files, words),
            // no item has this name, so the list is wrong
            _ => Err(Stopped),
        }
    }

    /// Prints words, runs them as an item says, and prints what comes of it.
    fn take_words(
        &mut self,
        rt: &HostRuntime,
        item: &str,
        words: &[String],
    ) -> Result<(), Stopped> {
        print_words(rt, words)?;
        // of one run all is printed, of many only how many ended as they should
        if item == "run" {
            return self.run(rt, words);
        }
        let sweep = self.sweep(rt, item, words)?;
        Ok(print_sweep(rt, item, sweep)?)
    }

    /// Does an item that runs words, which follow its name.
    fn take_run(&mut self, rt: &HostRuntime, item: &str, rest: &str) -> Result<(), Stopped> {
        let words = words_of(rt.alloc(), rest)?;
        self.take_words(rt, item, words.as_slice())
    }

    /// Runs words with the `count` longest proper beginnings of a pack, and prints how many ended as they should.
    fn take_parts(
        &mut self,
        rt: &HostRuntime,
        words: &[String],
        name: &str,
        count: usize,
    ) -> Result<(), Stopped> {
        print_words(rt, words)?;
        let sweep = parts(rt, &mut self.files, words, name, count)?;
        Ok(print_sweep(rt, "parts", sweep)?)
    }

    /// Does `parts COUNT NAME WORD ..`: runs words with the COUNT longest proper beginnings of pack NAME in its place.
    fn parts(&mut self, rt: &HostRuntime, rest: &str) -> Result<(), Stopped> {
        let (count, rest) = split(rest)?;
        let (name, rest) = split(rest)?;
        let count = number(count)?;
        let words = words_of(rt.alloc(), rest)?;
        self.take_parts(rt, words.as_slice(), name, count)
    }

    /// Does an item that sets something for the next run, or runs words.
    fn take_setting(&mut self, rt: &HostRuntime, item: &str, rest: &str) -> Result<(), Stopped> {
        match item {
            "room" => self.room(rest),
            "fail" => self.fail(rest),
            "first" => self.first(rest),
            "parts" => self.parts(rt, rest),
            // each other item is just followed by the words that it runs
            _ => self.take_run(rt, item, rest),
        }
    }

    /// Does the item of a line. An error is that the line has no form, or that the item fails.
    pub fn take(&mut self, rt: &HostRuntime, line: &str) -> Result<(), Stopped> {
        // a line of one word has nothing after it
        let (item, rest) = line.split_once(' ').unwrap_or((line, ""));
        match item {
            // a title is printed after an empty line
            "case" => Ok(println!(rt; "\n{rest}")?),
            "feeds" => self.feeds(rt.alloc(), rest),
            "edit" => self.edit(rt, rest),
            "set" => self.set(rt, rest),
            "keep" => self.keep(rest),
            // each other item sets something for the next run, or runs words
            _ => self.take_setting(rt, item, rest),
        }
    }
}
