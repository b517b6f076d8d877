//! The processes of all instances of all parts.
ghost use Rattle.std.specs.Prelude.{◌≡◌, ◌<◌, ◌≤◌, ◌+◌, ◌*◌, ◌/◌, IfOk, IfSome, IfNone, OnOk, string_bytes, length, All, Contains};
ghost use Rattle.cpg_base.specs.Duration.{lesser_due};
ghost use Rattle.cpg_base.specs.Name.{IsName};
ghost use Rattle.cpg_base.specs.Limits.{IsProcessWithin, IsWithinLimits};
ghost use Rattle.cpg_hyper.specs.Refusals.{IsInRange, HoldsOfEach, HasShortNames, AreShort, AddsShort, ShowsProcesses};
ghost use Rattle.cpg_hyper.specs.Unrolled.{name_in, copied_process, size_of, processes_in, processes_of, processes_from};

use crate::{HyperFault, Part};
use cpg_base::{LONGEST, Name, OutOfMemory, Process};
use std::alloc::Global;

/// Returns the name that a process gets in an instance, as a text of any length. `number` is the part's number.
fn made_text(alloc: Global, number: u32, instance: u64, name: &Name) -> Result<String, OutOfMemory>
    ensures text { IfOk result (λ text. string_bytes text ≡ name_in number instance name.now) }
    ensures name { IfOk result (λ text. IsName name.now) }
{
    let mut text = String::new(alloc);
    write!(text, "{number}.{instance}.")?;
    text.push_str(name.as_str())?;
    Ok(text)
}

/// Returns the name that a process gets in an instance; `None` exactly if it is too long. The one error is `OutOfMemory`.
/// `number` is the part's number.
fn copied_name(
    alloc: Global,
    number: u32,
    instance: u64,
    name: &Name,
) -> Result<Option<Name>, OutOfMemory>
    requires { number < 10 }
    ensures name { IfOk result (λ r. IfSome r (λ n. n ≡ name_in number instance name.now)) }
    ensures short { IfOk result (λ r. IfSome r (λ n. length (name_in number instance name.now) ≤ 32)) }
    ensures long { IfOk result (λ r. IfNone r (32 < length (name_in number instance name.now))) }
{
    let text = made_text(alloc, number, instance, name)?;
    Name::new(alloc, text.as_str())
}

/// Returns when a process is due in a graph with this deadline.
fn due_of(process: &Process, deadline: u64) -> u64
    ensures { result ≡ lesser_due deadline process.now.deadline }
{
    // its own deadline, if it has one, and that of the graph at the latest
    match process.deadline {
        Some(own) => own.min(deadline),
        None => deadline,
    }
}

/// Returns the copy of a process in an instance; `None` exactly if its name is too long. The one error is `OutOfMemory`.
/// `number` is the part's number.
fn copied_process(
    alloc: Global,
    number: u32,
    instance: u64,
    part: &Part,
    process: &Process,
) -> Result<Option<Process>, OutOfMemory>
    requires few { number < 10 }
    requires begin { instance * part.now.period ≤ LONGEST }
    requires release { process.now.release ≤ LONGEST }
    ensures process { IfOk result (λ r. IfSome r (λ q. q ≡ copied_process number instance part.now process.now)) }
    ensures short { IfOk result (λ r. IfSome r (λ q. length (name_in number instance process.now.name) ≤ 32)) }
    ensures long { IfOk result (λ r. IfNone r (32 < length (name_in number instance process.now.name))) }
{
    let Some(name) = copied_name(alloc, number, instance, &process.name)? else {
        return Ok(None);
    };
    let begin = instance * part.period;
    let due = due_of(process, part.problem.deadline());
    Ok(Some(Process {
        name,
        node: process.node,
        wcet: process.wcet,
        parts: process.parts,
        alpha: process.alpha,
        chi: process.chi,
        mu: process.mu,
        join: process.join,
        frozen: process.frozen,
        release: begin + process.release,
        deadline: Some(begin + due),
    }))
}

/// Adds the processes of an instance, and returns true; false exactly if some name is too long, and then nothing is said of
/// what was added. `number` is the part's number.
fn add_instance(
    alloc: Global,
    out: &mut Vec<Process>,
    number: u32,
    instance: u64,
    part: &Part,
) -> Result<bool, OutOfMemory>
    requires few { number < 10 }
    requires begin { instance * part.now.period ≤ LONGEST }
    ensures { IfOk result (λ b. AddsShort b out.old.items out.new.items (processes_in number part.now instance) (AreShort number part.now instance)) }
{
    for process in part.problem.processes() {
        match copied_process(alloc, number, instance, part, process)? {
            Some(copy) => out.push(copy)?,
            // the first name that is too long ends the loop
            None => return Ok(false),
        }
    }
    Ok(true)
}

/// Adds the processes of all instances of a part, and returns true; false exactly if some name is too long, and then nothing
/// is said of what was added. `whole` is the hyperperiod, and `number` the part's number.
fn add_part(
    alloc: Global,
    out: &mut Vec<Process>,
    whole: u64,
    number: u32,
    part: &Part,
) -> Result<bool, OutOfMemory>
    requires few { number < 10 }
    requires range { IsInRange part.now }
    requires short { whole ≤ LONGEST }
    ensures { IfOk result (λ b. AddsShort b out.old.items out.new.items (processes_of whole number part.now) (HasShortNames whole number part.now)) }
{
    // a part without processes adds none, however many instances it has
    if part.problem.processes().is_empty() {
        return Ok(true);
    }
    for instance in 0..whole / part.period {
        if !add_instance(alloc, out, number, instance, part)? {
            return Ok(false);
        }
    }
    Ok(true)
}

/// Returns the processes of all instances of all parts. It fails with `LongName` exactly if some name is too long, and shows the
/// first part that has one; `OutOfMemory` may come in place of either.
pub fn unrolled_processes(
    alloc: Global,
    whole: u64,
    parts: &[Part],
) -> Result<Vec<Process>, HyperFault>
    requires few { length parts.now ≤ 4 }
    requires ranges { HoldsOfEach (λ p part. IsInRange part) parts.now }
    requires short { whole ≤ LONGEST }
    ensures { ShowsProcesses whole parts.now result }
{
    let mut processes = Vec::new(alloc);
    // there are at most 4 parts, so a place fits a `u32`
    for place in 0..parts.len() {
        if !add_part(alloc, &mut processes, whole, place as u32, &parts[place])? {
            return Err(HyperFault::LongName(place as u32));
        }
    }
    Ok(processes)
}
