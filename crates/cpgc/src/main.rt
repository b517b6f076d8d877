//! `cpgc`, a design-time scheduler for time-triggered controllers.
#![tactic(auto)]

ghost use Rattle.std.specs.Prelude.{◌≡◌, ◌↔◌, IfErr, IfOk, IsErr, List, ℕ, drop, map, string_bytes};
ghost use Rattle.std.specs.IoError.{error_kind};
ghost use Rattle.std.specs.Vec.Iter.{into_iter_items};
ghost use Rattle.std.specs.declared.io.ErrorKind.{ErrorKind};
ghost use Rattle.cpg_words.specs.declared.fault.WordsFault.{WordsFault};
ghost use Rattle.cpg_io.specs.Shelf.{KeepsShelf, SameAccess};
ghost use Rattle.cpg_app.specs.Endings.{seen};
ghost use Rattle.cpg_app.specs.Lawful.{IsLawful};
ghost use Rattle.cpg_outputs.specs.Told.{sent};
ghost use Rattle.cpgc.specs.Statuses.{EndsWithout};

use cpg_app::{run, run_without_words};
use cpg_io::{FileShelf, Shelf, Sink, StreamSink};
use cpg_words::WordsFault;
use std::alloc::{AllocError, Global};
use std::env;
use std::env::Args;
use std::io::{self, ErrorKind};
use std::process::ExitCode;

/// Returns the arguments after the first, which is the program's name. The one error is that memory runs out.
fn after_name(alloc: Global, args: Args) -> Result<Vec<String>, AllocError>
    ensures { IfOk result (λ words. words.items ≡ drop 1 (into_iter_items args)) }
{
    args.skip(1).collect(alloc)
}

/// Returns why the runtime gave no arguments: memory ran out, or (any other kind) one of them isn't UTF-8.
fn fault_of(kind: ErrorKind) -> WordsFault
    ensures { result ≡ WordsFault.OutOfMemory ↔ kind ≡ ErrorKind.OutOfMemory }
{
    match kind {
        ErrorKind::OutOfMemory => WordsFault::OutOfMemory,
        _ => WordsFault::Bad,
    }
}

/// Returns the words after the program's name. An error is that the runtime gave no arguments, or that memory runs out.
fn words(alloc: Global, given: io::Result<Args>) -> Result<Vec<String>, WordsFault>
    ensures words { IfOk given (λ args. IfOk result (λ words. words.items ≡ drop 1 (into_iter_items args))) }
    ensures wanting { IfOk given (λ _. IfErr result (λ fault. fault ≡ WordsFault.OutOfMemory)) }
    ensures none { IfErr given (λ _. IsErr result) }
    ensures fault { IfErr given (λ error. IfErr result (λ fault. fault ≡ WordsFault.OutOfMemory ↔ error_kind error ≡ ErrorKind.OutOfMemory)) }
{
    match given {
        Ok(args) => match after_name(alloc, args) {
            Ok(words) => Ok(words),
            Err(_) => Err(WordsFault::OutOfMemory),
        },
        Err(error) => Err(fault_of(error.kind())),
    }
}

/// Runs the program over a shelf and two sinks, and returns its exit status. If there are words, it does what they ask.
/// If not, it writes why to the second sink, fetches nothing, and writes nothing to the first sink. It is handed
/// nothing else of the machine but the allocator.
fn outcome<S: Shelf, O: Sink, E: Sink>(
    alloc: Global,
    words: Result<Vec<String>, WordsFault>,
    shelf: &mut S,
    out: &mut O,
    err: &mut E,
) -> u8
    requires { (name : List ℕ) → S.may_fetch shelf.old name }
    ensures keeps { KeepsShelf (S.state shelf.old) (S.state shelf.new) }
    ensures access { SameAccess (S.may_fetch shelf.old) (S.may_fetch shelf.new) }
    ensures of_words { IfOk words (λ all. IsLawful (record {
      words = map string_bytes all.items;
      shelf = seen (S.state shelf.old) (S.state shelf.new);
      out = sent (O.state out.old) (O.state out.new);
      err = sent (E.state err.old) (E.state err.new);
      status = result;
    })) }
    ensures without { IfErr words (λ fault. EndsWithout fault (S.state shelf.old) (S.state shelf.new) (O.state out.old) (O.state out.new)
        (E.state err.old) (E.state err.new) result) }
{
    match words {
        Ok(words) => run(alloc, words.as_slice(), shelf, out, err),
        Err(fault) => run_without_words(alloc, fault, err),
    }
}

/// The program: a run over the machine's arguments, files, standard output and standard error, which ends with the
/// status of the run. No other function is handed the runtime.
fn main(rt: HostRuntime) -> ExitCode {
    let words = words(rt.alloc(), env::args(&rt));
    let mut shelf = FileShelf::new(&rt);
    let mut out = StreamSink::new(rt.stdout());
    let mut err = StreamSink::new(rt.stderr());
    ExitCode::from(outcome(rt.alloc(), words, &mut shelf, &mut out, &mut err))
}
