//! Writes the texts of refusals, each with its number among all refusals.
ghost use Rattle.std.specs.Prelude.{◌≡◌, ◌++◌, OnOk, codes, flat_map, string_bytes};
ghost use Rattle.cpg_base.specs.Called.{name_of, node_name};
ghost use Rattle.cpg_violation.specs.Room.{HasRoom};
ghost use Rattle.cpg_refusal.specs.Lines.{alternatives_text, cause_text, cycle_text, key_text, part_text, parts_text, place_text, refusal_text, refused_text, table_text, what_text, IsNamedRefusal};

use crate::halt::Refusal;
use crate::lines::write_case;
use cpg_base::{OutOfMemory, Problem, Scenario};
use cpg_hyper::HyperFault;
use cpg_label::{name_of, node_name};
use cpg_reader::{Key, Place, Table, What};
use cpg_scenario::Cause;
use cpg_violation::HeadPart;
use std::alloc::AllocError;

/// Returns a key as it is written in the file, or `unknown` if it isn't one of the format.
fn key_text(key: Key) -> &'static str
    ensures { result.now ≡ key_text key }
{
    match key {
        Key::Unknown => "unknown",
        _ => key.text(),
    }
}

/// Writes a table of the graph file: its kind and, as there are several of all but the top, its number.
fn write_table(out: &mut String, table: Table, index: u64) -> Result<(), AllocError>
    ensures { OnOk result (string_bytes out.new ≡ string_bytes out.old ++ table_text table index) }
{
    match table {
        Table::Top => out.push_str("top"),
        Table::Node => write!(out, "node {index}"),
        Table::Slot => write!(out, "slot {index}"),
        Table::Process => write!(out, "process {index}"),
        Table::Edge => write!(out, "edge {index}"),
    }
}

/// Writes a place in the graph file: a table and one of its keys.
fn write_place(out: &mut String, place: Place) -> Result<(), AllocError>
    ensures { OnOk result (string_bytes out.new ≡ string_bytes out.old ++ place_text place) }
{
    write_table(out, place.table, place.index)?;
    let key = key_text(place.key);
    write!(out, " {key}")
}

/// Writes what is over a limit: of what there are too many, or the place of a number.
fn write_what(out: &mut String, what: What) -> Result<(), AllocError>
    ensures { OnOk result (string_bytes out.new ≡ string_bytes out.old ++ what_text what) }
{
    match what {
        What::Nodes => out.push_str("nodes"),
        What::Slots => out.push_str("slots"),
        What::Processes => out.push_str("processes"),
        What::Edges => out.push_str("edges"),
        What::Number(place) => write_place(out, place),
        What::Conditions => out.push_str("conditions"),
    }
}

/// Writes a refusal that is at a place of the graph file. `kind` is its number and its kind, with a space at the end.
fn write_placed(out: &mut String, kind: &str, place: Place) -> Result<(), AllocError>
    ensures { OnOk result (string_bytes out.new ≡ string_bytes out.old ++ (kind.now ++ place_text place)) }
{
    out.push_str(kind)?;
    write_place(out, place)
}

/// Writes that the graph file has too many of something, or a number outside its range.
fn write_limit(out: &mut String, what: What) -> Result<(), AllocError>
    ensures { OnOk result (string_bytes out.new ≡ string_bytes out.old ++ (codes "5 limit " ++ what_text what)) }
{
    out.push_str("5 limit ")?;
    write_what(out, what)
}

/// Writes the names of the processes of a walk, each after a space.
fn write_names(out: &mut String, problem: &Problem, walk: &[u32]) -> Result<(), AllocError>
    ensures { OnOk result (string_bytes out.new ≡ string_bytes out.old ++ flat_map (λ p. codes " " ++ name_of problem.now p) walk.now) }
{
    for process in walk {
        let name = name_of(problem, *process);
        write!(out, " {name}")?;
    }
    Ok(())
}

/// Writes that edges lead around in a cycle, with the processes on it.
fn write_cycle(out: &mut String, problem: &Problem, walk: &[u32]) -> Result<(), AllocError>
    ensures { OnOk result (string_bytes out.new ≡ string_bytes out.old ++ cycle_text problem.now walk.now) }
{
    out.push_str("6 cycle")?;
    write_names(out, problem, walk)
}

/// Writes that a join has two live inputs, and in which scenario.
fn write_alternatives(
    out: &mut String,
    problem: &Problem,
    process: u32,
    scenario: &Scenario,
) -> Result<(), AllocError>
    requires { HasRoom problem.now scenario.now }
    ensures { OnOk result (string_bytes out.new ≡ string_bytes out.old ++ alternatives_text problem.now process scenario.now) }
{
    out.push_str("7 alternatives ")?;
    write_case(out, problem, process, scenario)?;
    Ok(())
}

/// Writes that a node sends and has no slot.
fn write_slot(out: &mut String, problem: &Problem, node: u32) -> Result<(), AllocError>
    ensures { OnOk result (string_bytes out.new ≡ string_bytes out.old ++ (codes "8 slot " ++ node_name problem.now node)) }
{
    let name = node_name(problem, node);
    write!(out, "8 slot {name}")
}

/// Writes that the order which the graph gives isn't topological, with a process that shows it.
fn write_order(out: &mut String, problem: &Problem, process: u32) -> Result<(), AllocError>
    ensures { OnOk result (string_bytes out.new ≡ string_bytes out.old ++ (codes "24 order " ++ name_of problem.now process)) }
{
    let name = name_of(problem, process);
    write!(out, "24 order {name}")
}

/// Returns what is wrong with a scenario file, in a word.
fn cause_text(cause: Cause) -> &'static str
    ensures { result.now ≡ cause_text cause }
{
    match cause {
        Cause::Toml => "toml",
        Cause::Field => "field",
        Cause::Unknown => "unknown",
        Cause::Condition => "condition",
        Cause::Budget => "budget",
        Cause::Length => "length",
    }
}

/// Writes that a scenario file is none, given the word for the cause.
fn write_cause(out: &mut String, cause: &str) -> Result<(), AllocError>
    ensures { OnOk result (string_bytes out.new ≡ string_bytes out.old ++ (codes "12 scenario " ++ cause.now)) }
{
    write!(out, "12 scenario {cause}")
}

/// Writes that a scenario file is none, and why.
fn write_scenario(out: &mut String, cause: Cause) -> Result<(), AllocError>
    ensures { OnOk result (string_bytes out.new ≡ string_bytes out.old ++ (codes "12 scenario " ++ cause_text cause)) }
{
    write_cause(out, cause_text(cause))
}

/// Returns the word for a part of a pack's head.
fn part_text(part: HeadPart) -> &'static str
    ensures { result.now ≡ part_text part }
{
    match part {
        HeadPart::Faults => "faults",
        HeadPart::Nodes => "nodes",
        HeadPart::Processes => "processes",
        HeadPart::Edges => "edges",
    }
}

/// Writes that a pack is another graph's, with the first part of its head that differs.
fn write_other(out: &mut String, part: HeadPart) -> Result<(), AllocError>
    ensures { OnOk result (string_bytes out.new ≡ string_bytes out.old ++ (codes "17 other graph " ++ part_text part)) }
{
    let part = part_text(part);
    write!(out, "17 other graph {part}")
}

/// Writes why the parts of a graph of several periods have no graph together, with the number of the part if it is one.
fn write_parts(out: &mut String, fault: HyperFault) -> Result<(), AllocError>
    ensures { OnOk result (string_bytes out.new ≡ string_bytes out.old ++ parts_text fault) }
{
    match fault {
        HyperFault::Range(part) => write!(out, "range {part}"),
        HyperFault::Differ(part) => write!(out, "differ {part}"),
        HyperFault::Over(part) => write!(out, "over {part}"),
        HyperFault::Period => out.push_str("period"),
        HyperFault::Count(what) => write_what(out, what),
        HyperFault::LongName(part) => write!(out, "name {part}"),
        HyperFault::Order(part) => write!(out, "order {part}"),
        // out of memory never comes here: `Halt::of_parts` makes no refusal of it
        HyperFault::OutOfMemory => out.push_str("memory"),
    }
}

/// Writes that the parts of a graph of several periods have no graph together, and why.
fn write_hyper(out: &mut String, fault: HyperFault) -> Result<(), AllocError>
    ensures { OnOk result (string_bytes out.new ≡ string_bytes out.old ++ (codes "22 hyper " ++ parts_text fault)) }
{
    out.push_str("22 hyper ")?;
    write_parts(out, fault)
}

/// Writes a refusal: its number, its kind, and where it is. No other refusal has the number of one; files that are too long
/// share 16.
fn write_refusal(out: &mut String, refusal: &Refusal) -> Result<(), AllocError>
    requires { IsNamedRefusal refusal.now }
    ensures { OnOk result (string_bytes out.new ≡ string_bytes out.old ++ refusal_text refusal.now) }
{
    match refusal {
        Refusal::NotToml => out.push_str("1 not toml"),
        Refusal::BadField(place) => write_placed(out, "2 field ", *place),
        Refusal::DoubleName(place) => write_placed(out, "3 double ", *place),
        Refusal::UnknownName(place) => write_placed(out, "4 unknown ", *place),
        Refusal::OverLimit(what) => write_limit(out, *what),
        Refusal::Cycle { graph, walk } => write_cycle(out, graph, walk.processes()),
        Refusal::TwoAlternatives {
            graph,
            process,
            scenario,
        } => write_alternatives(out, graph, *process, scenario),
        Refusal::NoSlot { graph, node } => write_slot(out, graph, *node),
        Refusal::TooBig(edge) => write!(out, "9 big e{edge}"),
        Refusal::BadPack(length) => write!(out, "10 pack {length}"),
        Refusal::BadScenario(cause) => write_scenario(out, *cause),
        Refusal::LongGraph => out.push_str("16 long graph"),
        Refusal::LongPack => out.push_str("16 long pack"),
        Refusal::LongScenario => out.push_str("16 long scenario"),
        Refusal::LongLog => out.push_str("16 long log"),
        Refusal::OtherGraph(part) => write_other(out, *part),
        Refusal::TooManyTracks => out.push_str("18 tracks"),
        Refusal::UnknownNode => out.push_str("19 node"),
        Refusal::NoHypergraph(fault) => write_hyper(out, *fault),
        Refusal::BadLog(line) => write!(out, "23 log {line}"),
        Refusal::BadOrder { graph, process } => write_order(out, graph, *process),
    }
}

/// Writes that something is refused, and the refusal.
pub fn write_refused(out: &mut String, refusal: &Refusal) -> Result<(), OutOfMemory>
    requires { IsNamedRefusal refusal.now }
    ensures { OnOk result (string_bytes out.new ≡ string_bytes out.old ++ refused_text refusal.now) }
{
    out.push_str("refused ")?;
    write_refusal(out, refusal)?;
    Ok(())
}
