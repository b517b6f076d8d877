//! One file: its bytes, and what they say as a file of its kind.
ghost use Rattle.std.specs.Prelude.{◌≡◌, IfErr, IfOk, None, Option, Some};
ghost use Rattle.cpg_base.specs.Graph.{Graph};
ghost use Rattle.cpg_io.specs.Shelf.{KeepsShelf, SameAccess};
ghost use Rattle.cpg_inputs.specs.declared.kind.FileKind.TheVariants.{GraphFile, LogFile, PackFile, PartFile, ScenarioFile};
ghost use Rattle.cpg_inputs.specs.Files.{file};
ghost use Rattle.cpg_inputs.specs.Says.{graph_value, log_value, part_value, played_value, tables_value, AreAdmitted};
ghost use Rattle.cpg_inputs.specs.Steps.{Gives, GivesNone, ReadsNext, RefusesGraph, StopsNext};

use crate::halt::halt_of_log;
use crate::kind::FileKind;
use cpg_base::Problem;
use cpg_codec::read_pack;
use cpg_io::{ReadAll, Shelf, read_all};
use cpg_log::{Log, read_log};
use cpg_reader::read_problem;
use cpg_refusal::Halt;
use cpg_rules::{Admitted, admit};
use cpg_scenario::{Played, read_scenario};
use cpg_table::Tables;
use std::alloc::Global;

/// Returns the bytes of the whole file that has this name. A halt says that the shelf failed, that the file is too long
/// for its kind, or that memory ran out.
fn read_file<S: Shelf>(
    alloc: Global,
    shelf: &mut S,
    kind: FileKind,
    name: &str,
) -> Result<Vec<u8>, Halt>
    requires { S.may_fetch shelf.old name.now }
    ensures keeps { KeepsShelf (S.state shelf.old) (S.state shelf.new) }
    ensures access { SameAccess (S.may_fetch shelf.old) (S.may_fetch shelf.new) }
    ensures bytes { IfOk result (λ bytes. Gives (file kind name.now) (S.state shelf.old).history (S.state shelf.new).history bytes.items) }
    ensures halt { IfErr result (GivesNone (file kind name.now) (S.state shelf.old).history (S.state shelf.new).history) }
{
    match read_all(alloc, shelf, name, kind.limit()) {
        Ok(bytes) => Ok(bytes),
        Err(ReadAll::Failed) => Err(Halt::Read),
        Err(ReadAll::TooLong) => Err(Halt::Refused(kind.long())),
        Err(ReadAll::OutOfMemory) => Err(Halt::Memory),
    }
}

/// Returns the graph of a part's file, which isn't admitted. A halt says why the file can't be read or is rejected.
pub fn read_part<S: Shelf>(alloc: Global, shelf: &mut S, name: &str) -> Result<Problem, Halt>
    requires { S.may_fetch shelf.old name.now }
    ensures keeps { KeepsShelf (S.state shelf.old) (S.state shelf.new) }
    ensures access { SameAccess (S.may_fetch shelf.old) (S.may_fetch shelf.new) }
    ensures graph { IfOk result (λ graph. ReadsNext None (file PartFile name.now) (S.state shelf.old).history (S.state shelf.new).history (part_value graph)) }
    ensures halt { IfErr result (StopsNext None (file PartFile name.now) (S.state shelf.old).history (S.state shelf.new).history) }
{
    let bytes = read_file(alloc, shelf, FileKind::PartFile, name)?;
    match read_problem(alloc, bytes.as_slice()) {
        Ok(problem) => Ok(problem),
        Err(fault) => Err(Halt::of_reading(fault)),
    }
}

/// Returns the graph that the bytes say, as it is admitted. A halt says why they say none, which rule it breaks first,
/// or that memory ran out.
fn admitted_graph(alloc: Global, bytes: &[u8]) -> Result<Admitted, Halt>
    ensures graph { IfOk result (AreAdmitted bytes.now) }
    ensures halt { IfErr result (RefusesGraph bytes.now) }
{
    let problem = match read_problem(alloc, bytes) {
        Ok(problem) => problem,
        Err(fault) => return Err(Halt::of_reading(fault)),
    };
    match admit(alloc, problem) {
        Ok(admitted) => Ok(admitted),
        Err(refused) => Err(Halt::of_rules(refused)),
    }
}

/// Returns the graph of a file, as it is admitted. A halt says why the file can't be read or is rejected.
pub fn read_graph<S: Shelf>(alloc: Global, shelf: &mut S, name: &str) -> Result<Admitted, Halt>
    requires { S.may_fetch shelf.old name.now }
    ensures keeps { KeepsShelf (S.state shelf.old) (S.state shelf.new) }
    ensures access { SameAccess (S.may_fetch shelf.old) (S.may_fetch shelf.new) }
    ensures graph { IfOk result (λ admitted.
        ReadsNext None (file GraphFile name.now) (S.state shelf.old).history (S.state shelf.new).history (graph_value admitted)) }
    ensures halt { IfErr result (StopsNext None (file GraphFile name.now) (S.state shelf.old).history (S.state shelf.new).history) }
{
    let bytes = read_file(alloc, shelf, FileKind::GraphFile, name)?;
    let admitted = admitted_graph(alloc, bytes.as_slice())?;
    Ok(admitted)
}

/// Returns the tables of the pack with this name. A halt says why the file can't be read or is rejected.
pub fn read_tables<S: Shelf>(alloc: Global, shelf: &mut S, name: &str) -> Result<Tables, Halt>
    requires { S.may_fetch shelf.old name.now }
    ensures keeps { KeepsShelf (S.state shelf.old) (S.state shelf.new) }
    ensures access { SameAccess (S.may_fetch shelf.old) (S.may_fetch shelf.new) }
    ensures tables { (g : Option Graph) →
        IfOk result (λ tables. ReadsNext g (file PackFile name.now) (S.state shelf.old).history (S.state shelf.new).history (tables_value tables)) }
    ensures halt { (g : Option Graph) → IfErr result (StopsNext g (file PackFile name.now) (S.state shelf.old).history (S.state shelf.new).history) }
{
    let bytes = read_file(alloc, shelf, FileKind::PackFile, name)?;
    match read_pack(alloc, bytes) {
        Ok(tables) => Ok(tables),
        Err(fault) => Err(Halt::of_pack(fault)),
    }
}

/// Returns the scenario and the lengths that a file says for a graph. A halt says why the file can't be read or is
/// rejected.
pub fn read_played<S: Shelf>(
    alloc: Global,
    shelf: &mut S,
    name: &str,
    problem: &Problem,
) -> Result<Played, Halt>
    requires { S.may_fetch shelf.old name.now }
    ensures keeps { KeepsShelf (S.state shelf.old) (S.state shelf.new) }
    ensures access { SameAccess (S.may_fetch shelf.old) (S.may_fetch shelf.new) }
    ensures played { IfOk result (λ played.
        ReadsNext (Some problem.now) (file ScenarioFile name.now) (S.state shelf.old).history (S.state shelf.new).history (played_value played)) }
    ensures halt { IfErr result (StopsNext (Some problem.now) (file ScenarioFile name.now) (S.state shelf.old).history (S.state shelf.new).history) }
{
    let bytes = read_file(alloc, shelf, FileKind::ScenarioFile, name)?;
    match read_scenario(alloc, problem, bytes.as_slice()) {
        Ok(played) => Ok(played),
        Err(fault) => Err(Halt::of_scenario(fault)),
    }
}

/// Returns the log that a file says for a graph. A halt says why the file can't be read or is rejected.
pub fn read_acts<S: Shelf>(
    alloc: Global,
    shelf: &mut S,
    name: &str,
    problem: &Problem,
) -> Result<Log, Halt>
    requires { S.may_fetch shelf.old name.now }
    ensures keeps { KeepsShelf (S.state shelf.old) (S.state shelf.new) }
    ensures access { SameAccess (S.may_fetch shelf.old) (S.may_fetch shelf.new) }
    ensures log { IfOk result (λ log.
        ReadsNext (Some problem.now) (file LogFile name.now) (S.state shelf.old).history (S.state shelf.new).history (log_value log)) }
    ensures halt { IfErr result (StopsNext (Some problem.now) (file LogFile name.now) (S.state shelf.old).history (S.state shelf.new).history) }
{
    let bytes = read_file(alloc, shelf, FileKind::LogFile, name)?;
    match read_log(alloc, problem, bytes.as_slice()) {
        Ok(log) => Ok(log),
        Err(fault) => Err(halt_of_log(fault)),
    }
}
