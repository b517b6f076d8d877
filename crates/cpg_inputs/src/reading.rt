//! The files of a command, one after the other in the order of the words.
ghost use Rattle.std.specs.Prelude.{◌≡◌, ◌<◌, ◌≤◌, ◌∷◌, ◌++◌, [], All, IfErr, IfOk, None, OnOk, length, map};
ghost use Rattle.cpg_io.specs.Shelf.{KeepsShelf, SameAccess};
ghost use Rattle.cpg_words.specs.FileWords.{file_words};
ghost use Rattle.cpg_words.specs.declared.command.Command.TheVariants.{Audit, Check, Hyper, Live, Node, Play};
ghost use Rattle.cpg_refusal.specs.declared.halt.Halt.TheVariants.{Memory};
ghost use Rattle.cpg_inputs.specs.declared.kind.FileKind.TheVariants.{GraphFile, PackFile};
ghost use Rattle.cpg_inputs.specs.Files.{file, part_files};
ghost use Rattle.cpg_inputs.specs.Inputs.{ReadsInputs, command_with};
ghost use Rattle.cpg_inputs.specs.Reading.{Reads, StopsReading};
ghost use Rattle.cpg_inputs.specs.Says.{graph_value, tables_value};
ghost use Rattle.cpg_inputs.specs.Shapes.{part_values, HavePeriods};

use crate::files::{read_acts, read_graph, read_part, read_played, read_tables};
use crate::inputs::{Inputs, Purpose};
use crate::parts::Parts;
use cpg_base::Problem;
use cpg_hyper::Part;
use cpg_io::Shelf;
use cpg_refusal::Halt;
use cpg_rules::Admitted;
use cpg_table::Tables;
use cpg_words::{Command, Pair, Word};
use std::alloc::Global;

/// A graph, and the tables of a pack that are to be judged for it.
#[derive(Drop)]
struct GraphAndPack {
    // the graph that the tables are to be judged for
    graph: Admitted,
    // the tables, of this graph or another
    tables: Tables,
}

/// Reads a graph, and then a pack. A halt says why one of the two files stops the run.
fn read_graph_and_pack<S: Shelf>(
    alloc: Global,
    shelf: &mut S,
    graph: &str,
    pack: &str,
) -> Result<GraphAndPack, Halt>
    requires graph { S.may_fetch shelf.old graph.now }
    requires pack { S.may_fetch shelf.old pack.now }
    ensures keeps { KeepsShelf (S.state shelf.old) (S.state shelf.new) }
    ensures access { SameAccess (S.may_fetch shelf.old) (S.may_fetch shelf.new) }
    ensures read { IfOk result (λ j.
        Reads None (file GraphFile graph.now ∷ file PackFile pack.now ∷ []) (S.state shelf.old).history (S.state shelf.new).history
        (graph_value j.graph ∷ tables_value j.tables ∷ [])) }
    ensures halt { IfErr result (StopsReading None (file GraphFile graph.now ∷ file PackFile pack.now ∷ []) (S.state shelf.old).history
        (S.state shelf.new).history) }
{
    let graph = read_graph(alloc, shelf, graph)?;
    let tables = read_tables(alloc, shelf, pack)?;
    Ok(GraphAndPack { graph, tables })
}

/// Reads the graph of a command that reads nothing else, and returns its inputs. A halt says why the file stops the run.
fn graph_inputs<S: Shelf>(
    alloc: Global,
    shelf: &mut S,
    graph: &str,
    purpose: Purpose,
) -> Result<Inputs, Halt>
    requires { S.may_fetch shelf.old graph.now }
    ensures keeps { KeepsShelf (S.state shelf.old) (S.state shelf.new) }
    ensures access { SameAccess (S.may_fetch shelf.old) (S.may_fetch shelf.new) }
    ensures inputs { ReadsInputs (command_with purpose graph.now) (S.state shelf.old) (S.state shelf.new) result }
{
    let graph = read_graph(alloc, shelf, graph)?;
    Ok(Inputs::Graph { graph, purpose })
}

/// Reads the files of `check`, a graph and a pack, and returns its inputs. A halt says why one of them stops the run.
fn check_inputs<S: Shelf>(
    alloc: Global,
    shelf: &mut S,
    graph: &str,
    pack: &str,
) -> Result<Inputs, Halt>
    requires graph { S.may_fetch shelf.old graph.now }
    requires pack { S.may_fetch shelf.old pack.now }
    ensures keeps { KeepsShelf (S.state shelf.old) (S.state shelf.new) }
    ensures access { SameAccess (S.may_fetch shelf.old) (S.may_fetch shelf.new) }
    ensures inputs { ReadsInputs (Check graph.now pack.now) (S.state shelf.old) (S.state shelf.new) result }
{
    let GraphAndPack { graph, tables } = read_graph_and_pack(alloc, shelf, graph, pack)?;
    Ok(Inputs::Check { graph, tables })
}

/// Reads the files of `play`, a graph, a pack and a scenario, and returns its inputs. A halt says why one of them stops
/// the run.
fn play_inputs<S: Shelf>(
    alloc: Global,
    shelf: &mut S,
    graph: &str,
    pack: &str,
    scenario: &str,
    turns: u64,
) -> Result<Inputs, Halt>
    requires graph { S.may_fetch shelf.old graph.now }
    requires pack { S.may_fetch shelf.old pack.now }
    requires scenario { S.may_fetch shelf.old scenario.now }
    ensures keeps { KeepsShelf (S.state shelf.old) (S.state shelf.new) }
    ensures access { SameAccess (S.may_fetch shelf.old) (S.may_fetch shelf.new) }
    ensures inputs { ReadsInputs (Play graph.now pack.now scenario.now turns) (S.state shelf.old) (S.state shelf.new) result }
{
    let graph_and_pack = read_graph_and_pack(alloc, shelf, graph, pack)?;
    let played = read_played(alloc, shelf, scenario, graph_and_pack.graph.problem())?;
    let GraphAndPack { graph, tables } = graph_and_pack;
    Ok(Inputs::Play {
        graph,
        tables,
        played,
        turns,
    })
}

/// Reads the files of `audit`, a graph, a pack and a log, and returns its inputs. A halt says why one of them stops the
/// run.
fn audit_inputs<S: Shelf>(
    alloc: Global,
    shelf: &mut S,
    graph: &str,
    pack: &str,
    log: &str,
) -> Result<Inputs, Halt>
    requires graph { S.may_fetch shelf.old graph.now }
    requires pack { S.may_fetch shelf.old pack.now }
    requires log { S.may_fetch shelf.old log.now }
    ensures keeps { KeepsShelf (S.state shelf.old) (S.state shelf.new) }
    ensures access { SameAccess (S.may_fetch shelf.old) (S.may_fetch shelf.new) }
    ensures inputs { ReadsInputs (Audit graph.now pack.now log.now) (S.state shelf.old) (S.state shelf.new) result }
{
    let graph_and_pack = read_graph_and_pack(alloc, shelf, graph, pack)?;
    let log = read_acts(alloc, shelf, log, graph_and_pack.graph.problem())?;
    let GraphAndPack { graph, tables } = graph_and_pack;
    Ok(Inputs::Audit { graph, tables, log })
}

/// Reads the pack of `node`, and returns its inputs. A halt says why the file stops the run.
fn node_inputs<S: Shelf>(
    alloc: Global,
    shelf: &mut S,
    pack: &str,
    name: Word,
) -> Result<Inputs, Halt>
    requires { S.may_fetch shelf.old pack.now }
    ensures keeps { KeepsShelf (S.state shelf.old) (S.state shelf.new) }
    ensures access { SameAccess (S.may_fetch shelf.old) (S.may_fetch shelf.new) }
    ensures inputs { ReadsInputs (Node pack.now name) (S.state shelf.old) (S.state shelf.new) result }
{
    let tables = read_tables(alloc, shelf, pack)?;
    Ok(Inputs::Node { tables, name })
}

/// Reads the pack of `live`, and returns its inputs. A halt says why the file stops the run. The stream isn't read here.
fn live_inputs<S: Shelf>(
    alloc: Global,
    shelf: &mut S,
    pack: &str,
    name: Word,
    stream: Word,
) -> Result<Inputs, Halt>
    requires { S.may_fetch shelf.old pack.now }
    ensures keeps { KeepsShelf (S.state shelf.old) (S.state shelf.new) }
    ensures access { SameAccess (S.may_fetch shelf.old) (S.may_fetch shelf.new) }
    ensures inputs { ReadsInputs (Live pack.now name stream) (S.state shelf.old) (S.state shelf.new) result }
{
    let tables = read_tables(alloc, shelf, pack)?;
    Ok(Inputs::Live {
        tables,
        name,
        stream,
    })
}

/// Adds a part with its period. The one halt is that memory ran out.
fn add(parts: &mut Vec<Part>, period: u64, problem: Problem) -> Result<(), Halt>
    ensures added { OnOk result (parts.new.items ≡ parts.old.items ++ record { period = period; problem = problem } ∷ []) }
    ensures halt { IfErr result (λ h. h ≡ Memory) }
{
    match parts.push(Part { period, problem }) {
        Ok(()) => Ok(()),
        Err(_) => Err(Halt::Memory),
    }
}

/// Reads the graphs of parts, one after the other, and returns them with their periods. A halt says why one of the
/// files stops the run, or that memory ran out.
fn read_parts<S: Shelf>(alloc: Global, shelf: &mut S, pairs: &[Pair]) -> Result<Vec<Part>, Halt>
    requires { All (λ w. S.may_fetch shelf.old w) (map (λ pair. pair.graph) pairs.now) }
    ensures keeps { KeepsShelf (S.state shelf.old) (S.state shelf.new) }
    ensures access { SameAccess (S.may_fetch shelf.old) (S.may_fetch shelf.new) }
    ensures read { IfOk result (λ parts. Reads None (part_files pairs.now) (S.state shelf.old).history (S.state shelf.new).history (part_values parts.items)) }
    ensures periods { IfOk result (λ parts. HavePeriods pairs.now parts.items) }
    ensures halt { IfErr result (StopsReading None (part_files pairs.now) (S.state shelf.old).history (S.state shelf.new).history) }
{
    let mut parts = Vec::new(alloc);
    for pair in pairs {
        let problem = read_part(alloc, shelf, pair.graph.as_str())?;
        add(&mut parts, pair.period, problem)?;
    }
    Ok(parts)
}

/// Reads the graphs of `hyper`, and returns its inputs. A halt says why one of them stops the run, or that memory ran out.
fn hyper_inputs<S: Shelf>(alloc: Global, shelf: &mut S, pairs: &[Pair]) -> Result<Inputs, Halt>
    requires files { All (λ w. S.may_fetch shelf.old w) (map (λ pair. pair.graph) pairs.now) }
    requires some { 0 < length pairs.now }
    requires few { length pairs.now ≤ 4 }
    ensures keeps { KeepsShelf (S.state shelf.old) (S.state shelf.new) }
    ensures access { SameAccess (S.may_fetch shelf.old) (S.may_fetch shelf.new) }
    ensures inputs { ReadsInputs (Hyper pairs.now) (S.state shelf.old) (S.state shelf.new) result }
{
    let parts = read_parts(alloc, shelf, pairs)?;
    Ok(Inputs::Hyper(Parts::new(parts)))
}

/// Reads the files of a command in the order of the words, and returns what they say. If a file can't be read, is too
/// long or is rejected, the halt says so, and no later file is fetched. The stream of `live` isn't read here.
pub fn read_inputs<S: Shelf>(alloc: Global, shelf: &mut S, command: Command) -> Result<Inputs, Halt>
    requires { All (λ w. S.may_fetch shelf.old w) (file_words command) }
    ensures keeps { KeepsShelf (S.state shelf.old) (S.state shelf.new) }
    ensures access { SameAccess (S.may_fetch shelf.old) (S.may_fetch shelf.new) }
    ensures inputs { ReadsInputs command (S.state shelf.old) (S.state shelf.new) result }
{
    match command {
        Command::Show { graph } => { graph_inputs(alloc, shelf, graph.as_str(), Purpose::Show) }
        Command::Compile { graph } => {
            graph_inputs(alloc, shelf, graph.as_str(), Purpose::Compile)
        }
        Command::Tune { graph } => { graph_inputs(alloc, shelf, graph.as_str(), Purpose::Tune) }
        Command::Check { graph, pack } => {
            check_inputs(alloc, shelf, graph.as_str(), pack.as_str())
        }
        Command::Play {
            graph,
            pack,
            scenario,
            turns,
        } => play_inputs(
            alloc,
            shelf,
            graph.as_str(),
            pack.as_str(),
            scenario.as_str(),
            turns,
        ),
        Command::Audit { graph, pack, log } => audit_inputs(
            alloc,
            shelf,
            graph.as_str(),
            pack.as_str(),
            log.as_str(),
        ),
        Command::Node { pack, name } => node_inputs(alloc, shelf, pack.as_str(), name),
        Command::Live { pack, name, stream } => {
            live_inputs(alloc, shelf, pack.as_str(), name, stream)
        }
        Command::Hyper { parts } => hyper_inputs(alloc, shelf, parts.as_slice()),
        Command::Trial { number } => Ok(Inputs::Trial(number)),
    }
}
