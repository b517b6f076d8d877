//! Reading the log that a file spells, line by line.
ghost use Rattle.std.specs.Prelude.{◌≡◌, ◌≢◌, ◌^◌, ◌<◌, ℕ, Err, IfNone, IfOk, IfSome, length, map, string_bytes};
ghost use Rattle.std.specs.Bool.{OnFalse, OnTrue};
ghost use Rattle.cpg_base.specs.Graph.{item_count};
ghost use Rattle.cpg_base.specs.Numbers.{numbers_below};
ghost use Rattle.cpg_log.specs.Lines.{lines};
ghost use Rattle.cpg_log.specs.Log.{Logged, act_line, act_text, until_line};
ghost use Rattle.cpg_log.specs.Reading.{GoesOn, IsBadLine, IsLineRead, IsLineStrange, IsLogOf, IsOpened, LackTime, MayGoOn};
ghost use Rattle.cpg_log.specs.declared.fault.LogFault.{LogFault};

use crate::fault::LogFault;
use crate::lines::{are_same, first_line, parted};
use crate::log::{Log, Logged};
use crate::number::time;
use crate::texts::{act_texts, item_named};
use cpg_base::{OutOfMemory, Problem};
use std::alloc::Global;

/// The word that the first line begins with.
const UNTIL: &[u8] = b"until";

/// Returns the time up to which a log goes by its first line: that after `until` and a blank. `None` if the line doesn't say
/// a time below 2^60 so, and `Err` only if memory runs out.
fn until_of(alloc: Global, line: &[u8]) -> Result<Option<u64>, OutOfMemory>
    ensures some { IfOk result (λ r. IfSome r (λ until. (line.now ≡ until_line until) × (until < 2 ^ 60))) }
    ensures none { IfOk result (λ r. IfNone r ((until : ℕ) → until < 2 ^ 60 → line.now ≢ until_line until)) }
{
    let Some((word, digits)) = parted(line, b' ') else {
        return Ok(None);
    };
    if !are_same(word, UNTIL) {
        return Ok(None);
    }
    let until = time(alloc, digits)?;
    Ok(until)
}

/// Returns the act of a line, or `None` if the line is of none that the log may go on with, and `Err` only if memory
/// runs out. `texts` are those of all items.
fn act_of(
    alloc: Global,
    problem: &Problem,
    texts: &[String],
    log: &Log,
    line: &[u8],
) -> Result<Option<Logged>, OutOfMemory>
    requires texts { map string_bytes texts.now ≡ map (act_text problem.now) (numbers_below (item_count problem.now)) }
    requires until { log.now.until < 2 ^ 60 }
    ensures some { IfOk result (λ r. IfSome r (λ act. (line.now ≡ act_line problem.now act) × MayGoOn problem.now log.now act)) }
    ensures none { IfOk result (λ r. IfNone r ((act : Logged) → MayGoOn problem.now log.now act → line.now ≢ act_line problem.now act)) }
{
    let Some((digits, text)) = parted(line, b' ') else {
        return Ok(None);
    };
    let Some(time) = time(alloc, digits)? else {
        return Ok(None);
    };
    // the log doesn't go up to this time
    if log.until < time {
        return Ok(None);
    }
    let Some(item) = item_named(problem, texts, log, text) else {
        return Ok(None);
    };
    Ok(Some(Logged { time, item }))
}

/// Adds the act of a line to a log; false exactly if the line is of none that the log may go on with, and `Err` only if
/// memory runs out. `texts` are those of all items.
fn go_on(
    alloc: Global,
    problem: &Problem,
    texts: &[String],
    log: &mut Log,
    line: &[u8],
) -> Result<bool, OutOfMemory>
    requires texts { map string_bytes texts.now ≡ map (act_text problem.now) (numbers_below (item_count problem.now)) }
    requires until { log.old.until < 2 ^ 60 }
    ensures more { IfOk result (λ r. OnTrue r (GoesOn problem.now log.old line.now log.new)) }
    ensures none { IfOk result (λ r. OnFalse r ((act : Logged) → MayGoOn problem.now log.old act → line.now ≢ act_line problem.now act)) }
{
    let Some(act) = act_of(alloc, problem, texts, log, line)? else {
        return Ok(false);
    };
    log.acts.push(act)?;
    Ok(true)
}

/// Adds the act of the first line of some bytes to a log, and returns the bytes after that line. `Bad` with the number of
/// the line exactly if it is of no act that the log may go on with; the only other error is `OutOfMemory`. `texts` are
/// those of all items.
fn read_line<'a>(
    alloc: Global,
    problem: &Problem,
    texts: &[String],
    log: &mut Log,
    bytes: &'a [u8],
) -> Result<&'a [u8], LogFault>
    requires texts { map string_bytes texts.now ≡ map (act_text problem.now) (numbers_below (item_count problem.now)) }
    requires until { log.old.until < 2 ^ 60 }
    requires some { 0 < length bytes.now }
    ensures more { IfOk result (λ rest. IsLineRead problem.now log.old bytes.now log.new rest.now) }
    ensures bad { (place : ℕ) → result ≡ Err (LogFault.Bad place) → IsLineStrange problem.now log.old bytes.now place }
{
    // the number of the line, from 0 on: each before it but line 0 has given an act
    let place = log.acts.len() as u64 + 1;
    let (line, rest) = first_line(bytes);
    if !go_on(alloc, problem, texts, log, line)? {
        return Err(LogFault::Bad(place));
    }
    Ok(rest)
}

/// Returns the log of the first line, which has no act yet, and the bytes after that line. `Bad(0)` exactly if the first
/// line doesn't say up to what time a log goes, or there is none; the only other error is `OutOfMemory`.
fn opened(alloc: Global, bytes: &[u8]) -> Result<(Log, &[u8]), LogFault>
    ensures log { IfOk result (λ r. IsOpened bytes.now r.0 r.1.now) }
    ensures bad { (place : ℕ) → result ≡ Err (LogFault.Bad place) → (place ≡ 0) × LackTime (lines bytes.now) }
{
    if bytes.is_empty() {
        return Err(LogFault::Bad(0));
    }
    let (line, rest) = first_line(bytes);
    let Some(until) = until_of(alloc, line)? else {
        return Err(LogFault::Bad(0));
    };
    let acts = Vec::new(alloc);
    Ok((Log { until, acts }, rest))
}

/// Returns the log that a file spells. `Bad` exactly if it spells none, with the number, from 0, of the first line that isn't
/// of its form, names no item, names another node than the one that starts or sends it, names an item of an earlier line
/// or has a time past that of the first line; for an empty file that is 0. The other error is `OutOfMemory`.
pub fn read_log(alloc: Global, problem: &Problem, bytes: &[u8]) -> Result<Log, LogFault>
    ensures log { IfOk result (IsLogOf problem.now bytes.now) }
    ensures bad { (place : ℕ) → result ≡ Err (LogFault.Bad place) → IsBadLine problem.now (lines bytes.now) place }
{
    // called for its contract: the graph keeps its limits
    let _processes = problem.processes();
    let texts = act_texts(alloc, problem)?;
    let (mut log, mut rest) = opened(alloc, bytes)?;
    while !rest.is_empty() {
        rest = read_line(alloc, problem, texts.as_slice(), &mut log, rest)?;
    }
    Ok(log)
}
