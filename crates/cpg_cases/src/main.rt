//! Worked cases of the whole program: files and words, run over a shelf and sinks in memory.
//!
//! Each line of the standard input names a list of cases, a file of the folder. What an item of one list makes, the
//! later lists have too. In a list, an empty line, or one that begins with `#`, says nothing; each other line is an
//! item:
//!
//! | item | what it does |
//! |---|---|
//! | `case TITLE` | prints a title |
//! | `feeds NAME COUNT` | makes a file of COUNT line feeds |
//! | `edit NAME FROM OLD => NEW` | makes a text of another file's, with NEW in place of its first OLD |
//! | `set NAME FROM PLACE BYTE ..` | makes bytes of another file's, with others from a place on |
//! | `keep NAME` | makes a file of the last output |
//! | `room OUT ERR` | the sinks of the next run take OUT and ERR bytes |
//! | `fail CALL` | a call of the shelf in the next run fails, counted from 0 |
//! | `first LINES` | of the next run's output only the first lines are printed |
//! | `run WORD ..` | runs the program on these words over the files that they name |
//! | `rooms WORD ..` | runs them with an output of each room below what they write |
//! | `refusals WORD ..` | runs them, which are refused, with an error output of each room below the line that they write |
//! | `calls WORD ..` | runs them with each call of the shelf failing in turn, until a run has status 0 |
//! | `parts COUNT NAME WORD ..` | runs them with the longest proper beginnings of a pack in its place |
//!
//! A name is that of a file that an item made or, if none did, of one of the folder. A file NAME.hex of the folder
//! spells its bytes, two hexadecimal digits each, up to a `#` in a line.
//!
//! `run` prints its words, each line of its output behind `>` and of its error output behind `!`, or the bytes in two
//! digits each if they are no text, and its status. The last four items print how many of their runs ended as they
//! should: by a fault of the output after just that room, by the same of the error output, by a fault of the shelf, and
//! by a refusal of the pack at its end.
#![tactic(auto)]

mod files;
mod printing;
mod runs;
mod session;
mod stopped;
mod sweeps;

use crate::session::Session;
use crate::stopped::Stopped;
use std::fs;
use std::process::ExitCode;

/// Does what a line of a list says. If that fails, prints the line.
fn take_line(rt: &HostRuntime, session: &mut Session, line: &str) -> Result<(), Stopped> {
    if line.is_empty() || line.starts_with('#') {
        return Ok(());
    }
    if session.take(rt, line).is_err() {
        println!(rt; "stopped at: {line}")?;
        return Err(Stopped);
    }
    Ok(())
}

/// Does what the lines of a list say, up to the first that fails.
fn take_list(rt: &HostRuntime, session: &mut Session, name: &str) -> Result<(), Stopped> {
    let list = fs::read_to_string(rt, name)?;
    for line in list.as_str().lines() {
        take_line(rt, session, line)?;
    }
    Ok(())
}

/// Does what the lists say that the standard input names, one after the other.
fn take_named(rt: &HostRuntime, session: &mut Session) -> Result<(), Stopped> {
    for name in rt.lines(rt.alloc()) {
        let name = name?;
        take_list(rt, session, name.as_str())?;
    }
    Ok(())
}

/// Does what all lists say, in one session.
fn take_lists(rt: &HostRuntime) -> Result<(), Stopped> {
    let mut session = Session::new(rt.alloc())?;
    take_named(rt, &mut session)
}

/// Ends with status 0 if all lists were gone through, and 1 if one stopped.
fn main(rt: HostRuntime) -> ExitCode {
    match take_lists(&rt) {
        Ok(()) => ExitCode::from(0),
        Err(Stopped) => ExitCode::from(1),
    }
}
