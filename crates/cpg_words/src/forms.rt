//! The form of each command. A command's function takes the positionals (`words`) and the values of `--turns`
//! (`turns`), and returns the command, or the error `Bad` if they aren't exactly those that it has. `OutOfMemory` may
//! come in place of either.
ghost use Rattle.std.specs.Prelude.{◌≡◌, IfOk, Err, Some, None};
ghost use Rattle.cpg_words.specs.Answers.{Answers};
ghost use Rattle.cpg_words.specs.Parts.{texts};
ghost use Rattle.cpg_words.specs.Forms.{one_word, two_words, three_words, play_of, trial_of, hyper_of, pairs_of, command_named, forms};

use crate::command::{Command, Pair, Pairs};
use crate::fault::WordsFault;
use crate::number::number;
use crate::word::Word;
use std::alloc::Global;

/// Reads `show GRAPH`.
fn show(alloc: Global, words: &[&str], turns: &[&str]) -> Result<Command, WordsFault>
    ensures { Answers (one_word Command.Show (texts words.now) (texts turns.now)) result }
{
    let ([graph], []) = (words, turns) else {
        return Err(WordsFault::Bad);
    };
    Ok(Command::Show {
        graph: Word::new(alloc, graph)?,
    })
}

/// Reads `check GRAPH PACK`.
fn check(alloc: Global, words: &[&str], turns: &[&str]) -> Result<Command, WordsFault>
    ensures { Answers (two_words Command.Check (texts words.now) (texts turns.now)) result }
{
    let ([graph, pack], []) = (words, turns) else {
        return Err(WordsFault::Bad);
    };
    Ok(Command::Check {
        graph: Word::new(alloc, graph)?,
        pack: Word::new(alloc, pack)?,
    })
}

/// Reads `play GRAPH PACK SCENARIO --turns N`.
fn play(alloc: Global, words: &[&str], turns: &[&str]) -> Result<Command, WordsFault>
    ensures { Answers (play_of (texts words.now) (texts turns.now)) result }
{
    let ([graph, pack, scenario], [turns]) = (words, turns) else {
        return Err(WordsFault::Bad);
    };
    let Some(turns) = number(turns) else {
        return Err(WordsFault::Bad);
    };
    Ok(Command::Play {
        graph: Word::new(alloc, graph)?,
        pack: Word::new(alloc, pack)?,
        scenario: Word::new(alloc, scenario)?,
        turns,
    })
}

/// Reads `compile GRAPH`.
fn compile(alloc: Global, words: &[&str], turns: &[&str]) -> Result<Command, WordsFault>
    ensures { Answers (one_word Command.Compile (texts words.now) (texts turns.now)) result }
{
    let ([graph], []) = (words, turns) else {
        return Err(WordsFault::Bad);
    };
    Ok(Command::Compile {
        graph: Word::new(alloc, graph)?,
    })
}

/// Reads `node PACK NAME`.
fn node(alloc: Global, words: &[&str], turns: &[&str]) -> Result<Command, WordsFault>
    ensures { Answers (two_words Command.Node (texts words.now) (texts turns.now)) result }
{
    let ([pack, name], []) = (words, turns) else {
        return Err(WordsFault::Bad);
    };
    Ok(Command::Node {
        pack: Word::new(alloc, pack)?,
        name: Word::new(alloc, name)?,
    })
}

/// Reads `trial N`.
fn trial(words: &[&str], turns: &[&str]) -> Result<Command, WordsFault>
    ensures { Answers (trial_of (texts words.now) (texts turns.now)) result }
{
    let ([word], []) = (words, turns) else {
        return Err(WordsFault::Bad);
    };
    match number(word) {
        Some(number) => Ok(Command::Trial { number }),
        None => Err(WordsFault::Bad),
    }
}

/// Reads `live PACK NAME STREAM`.
fn live(alloc: Global, words: &[&str], turns: &[&str]) -> Result<Command, WordsFault>
    ensures { Answers (three_words Command.Live (texts words.now) (texts turns.now)) result }
{
    let ([pack, name, stream], []) = (words, turns) else {
        return Err(WordsFault::Bad);
    };
    Ok(Command::Live {
        pack: Word::new(alloc, pack)?,
        name: Word::new(alloc, name)?,
        stream: Word::new(alloc, stream)?,
    })
}

/// Reads `tune GRAPH`.
fn tune(alloc: Global, words: &[&str], turns: &[&str]) -> Result<Command, WordsFault>
    ensures { Answers (one_word Command.Tune (texts words.now) (texts turns.now)) result }
{
    let ([graph], []) = (words, turns) else {
        return Err(WordsFault::Bad);
    };
    Ok(Command::Tune {
        graph: Word::new(alloc, graph)?,
    })
}

/// Reads `audit GRAPH PACK LOG`.
fn audit(alloc: Global, words: &[&str], turns: &[&str]) -> Result<Command, WordsFault>
    ensures { Answers (three_words Command.Audit (texts words.now) (texts turns.now)) result }
{
    let ([graph, pack, log], []) = (words, turns) else {
        return Err(WordsFault::Bad);
    };
    Ok(Command::Audit {
        graph: Word::new(alloc, graph)?,
        pack: Word::new(alloc, pack)?,
        log: Word::new(alloc, log)?,
    })
}

/// Reads the words two by two, each pair a period and a graph. It fails with `Bad` only if a word is left over or a period is no
/// number.
fn pairs(alloc: Global, words: &[&str]) -> Result<Vec<Pair>, WordsFault>
    ensures ok { IfOk result (λ pairs. pairs_of (texts words.now) ≡ Some pairs.items) }
    ensures bad { result ≡ Err WordsFault.Bad → pairs_of (texts words.now) ≡ None }
{
    let mut pairs = Vec::new(alloc);
    let mut left = words;
    while let [word, graph, rest @ ..] = left {
        let Some(period) = number(word) else {
            return Err(WordsFault::Bad);
        };
        let graph = Word::new(alloc, graph)?;
        pairs.push(Pair { period, graph })?;
        left = rest;
    }
    // one word is left over: a period without a graph
    if !left.is_empty() {
        return Err(WordsFault::Bad);
    }
    Ok(pairs)
}

/// Reads `hyper N GRAPH`, with one to four such pairs.
fn hyper(alloc: Global, words: &[&str], turns: &[&str]) -> Result<Command, WordsFault>
    ensures { Answers (hyper_of (texts words.now) (texts turns.now)) result }
{
    // `hyper` takes no `--turns`
    if !turns.is_empty() {
        return Err(WordsFault::Bad);
    }
    let pairs = pairs(alloc, words)?;
    match Pairs::new(pairs) {
        Some(parts) => Ok(Command::Hyper { parts }),
        None => Err(WordsFault::Bad),
    }
}

/// Returns the command of this name with these positionals and these values of `--turns`. It fails with `Bad` only if there is
/// no such command, or its form has others.
pub fn command(
    alloc: Global,
    name: &str,
    words: &[&str],
    turns: &[&str],
) -> Result<Command, WordsFault>
    ensures { Answers (command_named forms name.now (record { positionals = texts words.now; turns = texts turns.now })) result }
{
    match name {
        "show" => show(alloc, words, turns),
        "compile" => compile(alloc, words, turns),
        "check" => check(alloc, words, turns),
        "play" => play(alloc, words, turns),
        "node" => node(alloc, words, turns),
        "trial" => trial(words, turns),
        "live" => live(alloc, words, turns),
        "hyper" => hyper(alloc, words, turns),
        "tune" => tune(alloc, words, turns),
        "audit" => audit(alloc, words, turns),
        _ => Err(WordsFault::Bad),
    }
}
