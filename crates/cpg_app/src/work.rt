//! The work of each command on what its files say: it gives the output, or the halt of the run.
ghost use Rattle.std.specs.Prelude.{◌≡◌, ◌<◌, IfErr, IfOk, IfSome, List, length};
ghost use Rattle.std.specs.Str.{bytes_eq};
ghost use Rattle.cpg_log.specs.Log.{IsLog};
ghost use Rattle.cpg_scenario.specs.File.{IsPlayed};
ghost use Rattle.cpg_words.specs.declared.command.Command.{Command};
ghost use Rattle.cpg_inputs.specs.declared.inputs.Inputs.{Inputs};
ghost use Rattle.cpg_inputs.specs.Inputs.{AreFit, AreInputs};
ghost use Rattle.cpg_inputs.specs.Says.{Value};
ghost use Rattle.cpg_app.specs.declared.output.Output.{Output};
ghost use Rattle.cpg_app.specs.Causes.{first_named, IsUncompiled, OrMemory, StopsNaming, StopsVerdict, StopsWork};
ghost use Rattle.cpg_app.specs.Outputs.{packed, shown, Answers, AreJudgedSafe, IsAuditedText, IsMadeOf, IsNodeText, IsPlayedText, IsSafeText, Opens, Puts};

use crate::auditing::audit_text;
use crate::halt::halt_of_compile;
use crate::heads::head_is_lawful;
use crate::output::{Made, Output};
use crate::periods::unrolled_text;
use crate::playing::play_text;
use crate::trials::trial;
use crate::tuning::tune_admitted;
use cpg_base::Name;
use cpg_check::{Verdict, check};
use cpg_core::compile_rows;
use cpg_head::Head;
use cpg_inputs::{Inputs, Purpose};
use cpg_live::Follower;
use cpg_log::Log;
use cpg_refusal::{Halt, Refusal};
use cpg_rules::Admitted;
use cpg_scenario::Played;
use cpg_table::Tables;
use cpg_words::Word;
use std::alloc::Global;
use std::mem::forget;

/// Compiles an admitted graph. Its tables can be written as a text and as a pack. A halt says why it isn't compiled.
fn made_of(alloc: Global, admitted: Admitted) -> Result<Made, Halt>
    ensures text { IfOk result (λ made. Puts (Output.Table made) (IsMadeOf admitted shown)) }
    ensures pack { IfOk result (λ made. Puts (Output.Pack made) (IsMadeOf admitted packed)) }
    ensures halt { IfErr result (IsUncompiled admitted) }
{
    // its contract also says that the graph is admitted
    let graph = admitted.problem();
    head_is_lawful(graph);
    match compile_rows(alloc, &admitted) {
        Ok(rows) => Ok(Made { admitted, rows }),
        Err(fault) => Err(halt_of_compile(admitted, fault)),
    }
}

/// Compiles an admitted graph, whose tables are to be written as a text. A halt says why it isn't compiled.
fn text_of(alloc: Global, admitted: Admitted) -> Result<Output, Halt>
    ensures text { IfOk result (λ o. Puts o (IsMadeOf admitted shown)) }
    ensures halt { IfErr result (IsUncompiled admitted) }
{
    let made = made_of(alloc, admitted)?;
    Ok(Output::Table(made))
}

/// Compiles an admitted graph, whose tables are to be written as a pack. A halt says why it isn't compiled.
fn pack_of(alloc: Global, admitted: Admitted) -> Result<Output, Halt>
    ensures pack { IfOk result (λ o. Puts o (IsMadeOf admitted packed)) }
    ensures halt { IfErr result (IsUncompiled admitted) }
{
    let made = made_of(alloc, admitted)?;
    Ok(Output::Pack(made))
}

/// Checks tables for an admitted graph, and hands the graph back if they have its head and keep the ten rules.
/// Otherwise the halt says why not, or that memory ran out.
fn judged(alloc: Global, admitted: Admitted, tables: &Tables) -> Result<Admitted, Halt>
    ensures same { IfOk result (λ a. a ≡ admitted) }
    ensures safe { IfOk result (λ _. AreJudgedSafe admitted tables.now) }
    ensures halt { IfErr result (OrMemory (StopsVerdict admitted tables.now)) }
{
    // called for their contracts: the graph is admitted, and the tables are lawful under their head
    let _graph = admitted.problem();
    let _head = tables.head();
    match check(alloc, &admitted, tables) {
        Ok(Verdict::Yes) => Ok(admitted),
        // the tables are another graph's: this part of their head differs first
        Ok(Verdict::Other(part)) => Err(Halt::Refused(Refusal::OtherGraph(part))),
        Ok(Verdict::No(fault)) => Err(Halt::Unsafe {
            graph: admitted,
            fault,
        }),
        Err(_) => Err(Halt::Memory),
    }
}

/// Returns the output of a check if tables are safe for an admitted graph. Otherwise the halt says why not, or that
/// memory ran out.
fn verdict_of(alloc: Global, admitted: Admitted, tables: Tables) -> Result<Output, Halt>
    ensures text { IfOk result (λ o. Puts o (IsSafeText admitted tables)) }
    ensures halt { IfErr result (OrMemory (StopsVerdict admitted tables)) }
{
    let judged = judged(alloc, admitted, &tables);
    // the run ends with this output, and to drop the tables would go over all their columns
    forget(tables);
    let _admitted = judged?;
    match String::from_str(alloc, "safe\n") {
        Ok(text) => Ok(Output::Lines(text)),
        Err(_) => Err(Halt::Memory),
    }
}

/// Returns the text of a play of tables if they are safe for an admitted graph. `played` has the scenario and the lengths
/// of executions, and `turns` fixes the order of the nodes' turns. A halt says why the tables aren't safe, or that memory
/// ran out.
fn play(
    alloc: Global,
    admitted: Admitted,
    tables: Tables,
    played: &Played,
    turns: u64,
) -> Result<Output, Halt>
    requires { IsPlayed admitted.graph played.now }
    ensures text { IfOk result (λ o. Puts o (IsPlayedText admitted tables played.now turns)) }
    ensures halt { IfErr result (OrMemory (StopsVerdict admitted tables)) }
{
    // called for its contract: the tables are lawful under their head
    let _head = tables.head();
    let admitted = judged(alloc, admitted, &tables)?;
    match play_text(alloc, &admitted, tables, played, turns) {
        Ok(text) => Ok(Output::Lines(text)),
        Err(_) => Err(Halt::Memory),
    }
}

/// Returns the text of an audit of a log by tables if they are safe for an admitted graph. Otherwise the halt says why
/// not, or that memory ran out.
fn audited(alloc: Global, admitted: Admitted, tables: &Tables, log: &Log) -> Result<Output, Halt>
    requires { IsLog admitted.graph log.now }
    ensures text { IfOk result (λ o. Puts o (IsAuditedText admitted tables.now log.now)) }
    ensures halt { IfErr result (OrMemory (StopsVerdict admitted tables.now)) }
{
    let admitted = judged(alloc, admitted, tables)?;
    match audit_text(alloc, &admitted, tables, log) {
        Ok(text) => Ok(Output::Lines(text)),
        Err(_) => Err(Halt::Memory),
    }
}

/// Whether `node`, a node's name, is `name`, byte for byte.
fn is_named(node: &Name, name: &str) -> bool
    ensures { result ≡ bytes_eq node.now name.now }
{
    node.as_str() == name
}

/// Returns the number of the first node of the head that has this name, or `None` if no node has it.
fn first_named(head: &Head, name: &str) -> Option<usize>
    ensures first { result ≡ first_named head.now name.now }
    ensures within { IfSome result (λ node. node < length head.now.nodes) }
    ensures few { IfSome result (λ node. node < 16) }
{
    head.nodes().iter().position(|node| is_named(node, name))
}

/// Returns the table of the first node that has this name, to be written as a text. The one halt is the refusal of a
/// name that no node has.
fn node_named(tables: Tables, name: &str) -> Result<Output, Halt>
    ensures text { IfOk result (λ o. Puts o (IsNodeText tables name.now)) }
    ensures halt { IfErr result (OrMemory (StopsNaming tables name.now)) }
{
    let Some(node) = first_named(tables.head(), name) else {
        return Err(Halt::Refused(Refusal::UnknownNode));
    };
    // tables have at most 16 nodes, so the cast keeps it
    let node = node as u32;
    Ok(Output::NodeTable { tables, node })
}

/// Returns the first node that has this name as a follower of the stream, before its first byte. A halt says that no
/// node has it, or that memory ran out.
fn follower_named(alloc: Global, tables: Tables, name: &str, stream: Word) -> Result<Output, Halt>
    ensures opens { IfOk result (Opens tables name.now stream) }
    ensures halt { IfErr result (OrMemory (StopsNaming tables name.now)) }
{
    let Some(node) = first_named(tables.head(), name) else {
        return Err(Halt::Refused(Refusal::UnknownNode));
    };
    // tables have at most 16 nodes, so the cast keeps it
    match Follower::new(alloc, tables, node as u32) {
        Ok(follower) => Ok(Output::Stream { follower, stream }),
        Err(_) => Err(Halt::Memory),
    }
}

/// Returns the output of a command that has a graph file alone, or why it stops.
fn work_on_graph(alloc: Global, graph: Admitted, purpose: Purpose) -> Result<Output, Halt>
    // whatever command and files the inputs are of, an output answers the command
    ensures output { (command : Command) (values : List Value) → AreInputs command values (Inputs.Graph graph purpose) → IfOk result (Answers command values) }
    // whatever command and files they are of, a halt is one of the command, or says that memory ran out
    ensures halt { (command : Command) (values : List Value) → AreInputs command values (Inputs.Graph graph purpose) →
        IfErr result (OrMemory (StopsWork command values)) }
{
    match purpose {
        Purpose::Show => text_of(alloc, graph),
        Purpose::Compile => pack_of(alloc, graph),
        Purpose::Tune => tune_admitted(alloc, &graph),
    }
}

/// Returns the output of a command by what its files say, or why it stops.
pub fn work(alloc: Global, inputs: Inputs) -> Result<Output, Halt>
    requires { AreFit inputs }
    // whatever command and files the inputs are of, an output answers the command
    ensures output { (command : Command) (values : List Value) → AreInputs command values inputs → IfOk result (Answers command values) }
    // whatever command and files they are of, a halt is one of the command, or says that memory ran out
    ensures halt { (command : Command) (values : List Value) → AreInputs command values inputs → IfErr result (OrMemory (StopsWork command values)) }
{
    match inputs {
        Inputs::Graph { graph, purpose } => work_on_graph(alloc, graph, purpose),
        Inputs::Check { graph, tables } => verdict_of(alloc, graph, tables),
        Inputs::Play {
            graph,
            tables,
            played,
            turns,
        } => play(alloc, graph, tables, &played, turns),
        Inputs::Audit { graph, tables, log } => audited(alloc, graph, &tables, &log),
        Inputs::Node { tables, name } => node_named(tables, name.as_str()),
        Inputs::Live {
            tables,
            name,
            stream,
        } => follower_named(alloc, tables, name.as_str(), stream),
        Inputs::Hyper(parts) => unrolled_text(alloc, parts.as_slice()),
        Inputs::Trial(number) => trial(alloc, number),
    }
}
