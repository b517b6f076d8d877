//! Writes the line of a run that stops without an output.
ghost use Rattle.std.specs.Prelude.{◌≡◌, ◌<◌, ◌++◌, OnOk, IfOk, codes, string_bytes};
ghost use Rattle.cpg_base.specs.Graph.{item_count};
ghost use Rattle.cpg_violation.specs.Room.{HasRoom};
ghost use Rattle.cpg_refusal.specs.Lines.{case_text, column_text, item_text, unsafe_text, late_text, line_of, reason_text, IsNamed};

use crate::halt::Halt;
use crate::refusals::write_refused;
use cpg_base::{OutOfMemory, Problem, Scenario};
use cpg_label::{name_of, write_item};
use cpg_scenario::scenario_text;
use cpg_table::Fault;
use std::alloc::{AllocError, Global};

/// Writes a process and the scenario in which something is true of it.
pub fn write_case(
    out: &mut String,
    problem: &Problem,
    process: u32,
    scenario: &Scenario,
) -> Result<(), OutOfMemory>
    requires { HasRoom problem.now scenario.now }
    ensures { OnOk result (string_bytes out.new ≡ string_bytes out.old ++ case_text problem.now process scenario.now) }
{
    let name = name_of(problem, process);
    let text = scenario_text(*out.allocator(), problem, scenario)?;
    write!(out, "{name} in {text}")?;
    Ok(())
}

/// Writes that a process ends past its due in a scenario, and when.
fn write_late(
    out: &mut String,
    problem: &Problem,
    scenario: &Scenario,
    process: u32,
    finish: u64,
) -> Result<(), OutOfMemory>
    requires { HasRoom problem.now scenario.now }
    ensures { OnOk result (string_bytes out.new ≡ string_bytes out.old ++ late_text problem.now scenario.now process finish) }
{
    write!(out, "late {finish} by ")?;
    write_case(out, problem, process, scenario)
}

/// Writes that an item is too wide.
fn write_wide(out: &mut String, problem: &Problem, item: u32) -> Result<(), AllocError>
    requires { item < item_count problem.now }
    ensures { OnOk result (string_bytes out.new ≡ string_bytes out.old ++ (codes "too wide " ++ item_text problem.now item)) }
{
    out.push_str("too wide ")?;
    write_item(out, problem, item)
}

/// Writes the number of a column, or a dash if the violation is that an item has none.
fn write_column(out: &mut String, column: Option<u32>) -> Result<(), AllocError>
    ensures { OnOk result (string_bytes out.new ≡ string_bytes out.old ++ column_text column) }
{
    match column {
        Some(column) => write!(out, "{column}"),
        None => out.push_str("-"),
    }
}

/// Writes a violation of a rule: the rule, the item, its column and the scenario.
fn write_unsafe(out: &mut String, problem: &Problem, fault: &Fault) -> Result<(), OutOfMemory>
    requires item { fault.now.item < item_count problem.now }
    requires scenario { HasRoom problem.now fault.now.scenario }
    ensures { OnOk result (string_bytes out.new ≡ string_bytes out.old ++ unsafe_text problem.now fault.now) }
{
    let rule = fault.rule;
    write!(out, "unsafe V{rule} ")?;
    write_item(out, problem, fault.item)?;
    out.push_str(" column ")?;
    write_column(out, fault.column)?;
    let text = scenario_text(*out.allocator(), problem, &fault.scenario)?;
    write!(out, " in {text}")?;
    Ok(())
}

/// Writes why a run halts, without the start and the end of the line.
fn write_reason(out: &mut String, halt: &Halt) -> Result<(), OutOfMemory>
    requires { IsNamed halt.now }
    ensures { OnOk result (string_bytes out.new ≡ string_bytes out.old ++ reason_text halt.now) }
{
    match halt {
        Halt::Words => out.push_str("words")?,
        Halt::Read => out.push_str("read fault")?,
        Halt::Refused(refusal) => write_refused(out, refusal)?,
        Halt::Late {
            graph,
            scenario,
            process,
            finish,
        } => write_late(out, graph.problem(), scenario, *process, *finish)?,
        Halt::TooWide { graph, item } => write_wide(out, graph.problem(), *item)?,
        Halt::Unsafe { graph, fault } => write_unsafe(out, graph.problem(), fault)?,
        Halt::Memory => out.push_str("memory")?,
    }
    Ok(())
}

/// Returns the line that a run which halts writes to `err`, with its line feed.
pub fn line(alloc: Global, halt: &Halt) -> Result<String, OutOfMemory>
    requires { IsNamed halt.now }
    ensures { IfOk result (λ text. string_bytes text ≡ line_of halt.now) }
{
    let mut text = String::new(alloc);
    text.push_str("cpgc: ")?;
    write_reason(&mut text, halt)?;
    text.push_str("\n")?;
    Ok(text)
}
