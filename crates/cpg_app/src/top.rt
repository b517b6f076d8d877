//! A run: from the words to the exit status.
ghost use Rattle.std.specs.Prelude.{◌≡◌, All, List, map, string_bytes};
ghost use Rattle.cpg_io.specs.Shelf.{KeepsShelf, SameAccess};
ghost use Rattle.cpg_io.specs.State.{ShelfState};
ghost use Rattle.cpg_words.specs.FileWords.{file_words_of};
ghost use Rattle.cpg_words.specs.Parts.{Text};
ghost use Rattle.cpg_refusal.specs.Halts.{halt_of_words};
ghost use Rattle.cpg_refusal.specs.Lines.{line_of, status_of};
ghost use Rattle.cpg_inputs.specs.Inputs.{AreFit};
ghost use Rattle.cpg_app.specs.Endings.{seen, HasAt, MayRun};
ghost use Rattle.cpg_app.specs.Lawful.{IsLawful};
ghost use Rattle.cpg_outputs.specs.Told.{sent, Sent};

use crate::output::{Output, put_node_table, put_pack, put_tables};
use crate::work::work;
use cpg_inputs::{Inputs, read_inputs};
use cpg_io::{Shelf, Sink};
use cpg_outputs::{end, follow, put, stop};
use cpg_refusal::Halt;
use cpg_words::{WordsFault, read_words};
use std::alloc::Global;

/// Does the work of a command on what its files say, and writes its output to `out`, or the line of the halt to `err`.
/// Returns the exit status.
fn finish<S: Shelf, O: Sink, E: Sink>(
    alloc: Global,
    inputs: Inputs,
    shelf: &mut S,
    out: &mut O,
    err: &mut E,
) -> u8
    requires may { MayRun (S.may_fetch shelf.old) inputs }
    requires fit { AreFit inputs }
    ensures keeps { KeepsShelf (S.state shelf.old) (S.state shelf.new) }
    ensures access { SameAccess (S.may_fetch shelf.old) (S.may_fetch shelf.new) }
    ensures lawful { (words : List Text) (start : ShelfState) → HasAt words start (S.state shelf.old) inputs →
        IsLawful (record {
          words = words;
          shelf = seen start (S.state shelf.new);
          out = sent (O.state out.old) (O.state out.new);
          err = sent (E.state err.old) (E.state err.new);
          status = result;
        }) }
{
    match work(alloc, inputs) {
        Ok(Output::Lines(text)) => end(put(text.as_str(), out), err),
        Ok(Output::Table(made)) => end(put_tables(alloc, made, out), err),
        Ok(Output::NodeTable { tables, node }) => end(
            put_node_table(alloc, tables, node, out),
            err,
        ),
        Ok(Output::Pack(made)) => end(put_pack(alloc, made, out), err),
        Ok(
            Output::Stream {
                mut follower,
                stream,
            },
        ) => follow(&mut follower, shelf, out, err, stream.as_str()),
        Err(halt) => stop(alloc, &halt, err),
    }
}

/// Does all that the program does, by the words after its name: reads the files that they name from the shelf, one
/// after the other, does the work on what they say, and writes the command's output to `out` or one line to `err`.
/// Returns the exit status; `specs/Lawful.antt` says what each status means.
pub fn run<S: Shelf, O: Sink, E: Sink>(
    alloc: Global,
    words: &[String],
    shelf: &mut S,
    out: &mut O,
    err: &mut E,
) -> u8
    requires { All (λ w. S.may_fetch shelf.old w) (file_words_of (map string_bytes words.now)) }
    ensures keeps { KeepsShelf (S.state shelf.old) (S.state shelf.new) }
    ensures access { SameAccess (S.may_fetch shelf.old) (S.may_fetch shelf.new) }
    ensures lawful { IsLawful (record {
      words = map string_bytes words.now;
      shelf = seen (S.state shelf.old) (S.state shelf.new);
      out = sent (O.state out.old) (O.state out.new);
      err = sent (E.state err.old) (E.state err.new);
      status = result;
    }) }
{
    let command = match read_words(alloc, words) {
        Ok(command) => command,
        Err(fault) => return run_without_words(alloc, fault, err),
    };
    match read_inputs(alloc, shelf, command) {
        Ok(inputs) => finish(alloc, inputs, shelf, out, err),
        Err(halt) => stop(alloc, &halt, err),
    }
}

/// Ends a run that has no command: its words form none or aren't text, or memory ran out. Writes the line that says so
/// to `err`, which needs no memory, and returns the exit status.
pub fn run_without_words<E: Sink>(alloc: Global, fault: WordsFault, err: &mut E) -> u8
    // the line of the fault was written to `err`, and the result is the fault's status; or `err` met a fault, and it is
    // 3
    ensures { Sent (sent (E.state err.old) (E.state err.new)) result (status_of (halt_of_words fault)) (line_of (halt_of_words fault)) }
{
    match fault {
        WordsFault::Bad => stop(alloc, &Halt::Words, err),
        WordsFault::OutOfMemory => stop(alloc, &Halt::Memory, err),
    }
}
