//! Reads the words of a command line: `clap` parses them, and what it finds is made a command.
ghost use Rattle.std.specs.Prelude.{◌≡◌, ◌≢◌, ◌↔◌, map, string_bytes, IfOk, Err, Some, None};
ghost use Rattle.cpg_words.specs.Answers.{Answers};
ghost use Rattle.cpg_words.specs.Forms.{command_of};
ghost use Rattle.cpg_words.specs.Matches.{command_at};
ghost use Rattle.clap.specs.Words.{found_of, rows_of};
ghost use Rattle.clap.specs.Simple.{subcommand_rows_of};

use crate::command::Command;
use crate::fault::WordsFault;
use crate::forms::command;
use crate::line::line;
use clap::ArgMatches;
use clap::error::ErrorKind;
use std::alloc::Global;

/// Returns the command that a subcommand found by `clap` asks for; `Bad` only if it has other words than its form.
fn asked(alloc: Global, name: &str, found: &ArgMatches<'_>) -> Result<Command, WordsFault>
    ensures { Answers (command_at (Some (name.now, rows_of (found_of found.now)))) result }
{
    // an argument that isn't there has no values
    let words = found.get_strs("words").unwrap_or(&[]);
    let turns = found.get_strs("turns").unwrap_or(&[]);
    command(alloc, name, words, turns)
}

/// Returns the fault for a refusal by `clap`: unless memory ran out, the words don't have the form of any command.
fn fault_of(kind: ErrorKind) -> WordsFault
    ensures { result ≡ WordsFault.Bad ↔ kind ≢ ErrorKind.OutOfMemory }
{
    match kind {
        ErrorKind::OutOfMemory => WordsFault::OutOfMemory,
        _ => WordsFault::Bad,
    }
}

/// Returns what `clap` finds in the words; `Bad` only if it refuses them.
fn matches<'a>(alloc: Global, words: &'a [String]) -> Result<ArgMatches<'a>, WordsFault>
    ensures ok { IfOk result (λ m. command_of (map string_bytes words.entry.now) ≡ command_at (subcommand_rows_of m)) }
    ensures bad { result ≡ Err WordsFault.Bad → command_of (map string_bytes words.entry.now) ≡ None }
{
    let line = line(alloc)?;
    match line.try_get_matches_from(words) {
        Ok(matches) => Ok(matches),
        Err(error) => Err(fault_of(error.kind())),
    }
}

/// Returns the command that the words ask for, by the rule of this crate. The words are those after the program's name. It fails
/// with `Bad` only if they don't have the form of any command; `OutOfMemory` may come in place of either answer.
pub fn read_words(alloc: Global, words: &[String]) -> Result<Command, WordsFault>
    ensures command { IfOk result (λ c. command_of (map string_bytes words.now) ≡ Some c) }
    ensures bad { result ≡ Err WordsFault.Bad → command_of (map string_bytes words.now) ≡ None }
{
    let matches = matches(alloc, words)?;
    match matches.subcommand() {
        Some((name, found)) => asked(alloc, name, found),
        // `clap` requires a subcommand, so there is one
        None => Err(WordsFault::Bad),
    }
}
