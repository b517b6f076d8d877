//! Writing a scenario as a text, such as `A faults 1, A true`.
ghost use Rattle.std.specs.Prelude.{◌≡◌, ◌<◌, IfOk, OnOk, length, string_bytes};
ghost use Rattle.cpg_base.specs.Graph.{condition_count, process_count};
ghost use Rattle.cpg_scenario.specs.Text.{fault_pieces, pieces_of, scenario_text, value_pieces};
ghost use Rattle.cpg_scenario.specs.Pieces.{led, or_none, with_pieces};

use cpg_base::{OutOfMemory, Problem, Scenario};
use std::alloc::{AllocError, Global};

/// Writes a comma and a space for the next piece, unless it is the first. The one error is that memory runs out.
fn write_comma(out: &mut String) -> Result<(), AllocError>
    ensures { OnOk result (string_bytes out.new ≡ led (string_bytes out.old)) }
{
    if !out.is_empty() {
        out.push_str(", ")?;
    }
    Ok(())
}

/// Writes the piece for a process's faults, if it has any. The one error is that memory runs out.
fn write_faults(out: &mut String, name: &str, faults: u8) -> Result<(), AllocError>
    ensures { OnOk result (string_bytes out.new ≡ with_pieces (string_bytes out.old) (fault_pieces name.now faults)) }
{
    // a process without faults is left out
    if faults == 0 {
        return Ok(());
    }
    write_comma(out)?;
    write!(out, "{name} faults {faults}")
}

/// Writes the piece for a process's value, if the value is true. The one error is that memory runs out.
fn write_value(out: &mut String, name: &str, value: bool) -> Result<(), AllocError>
    ensures { OnOk result (string_bytes out.new ≡ with_pieces (string_bytes out.old) (value_pieces name.now value)) }
{
    // a false value is left out
    if !value {
        return Ok(());
    }
    write_comma(out)?;
    write!(out, "{name} true")
}

/// Writes the pieces for a process: its faults, then its value. The one error is that memory runs out.
fn write_process(
    out: &mut String,
    problem: &Problem,
    scenario: &Scenario,
    process: u32,
) -> Result<(), AllocError>
    requires process { process < process_count problem.now }
    requires values { length scenario.now.values ≡ condition_count problem.now }
    requires faults { length scenario.now.faults ≡ process_count problem.now }
    ensures { OnOk result (string_bytes out.new ≡ with_pieces (string_bytes out.old) (pieces_of problem.now scenario.now process)) }
{
    let name = problem.processes()[process as usize].name.as_str();
    write_faults(out, name, scenario.fault(process))?;
    let value = match problem.condition_of(process) {
        // a process without a condition has no value
        Some(condition) => scenario.value(condition),
        None => false,
    };
    write_value(out, name, value)
}

/// Writes `none` if nothing has been written. The one error is that memory runs out.
fn write_none(out: &mut String) -> Result<(), AllocError>
    ensures { OnOk result (string_bytes out.new ≡ or_none (string_bytes out.old)) }
{
    if out.is_empty() {
        out.push_str("none")?;
    }
    Ok(())
}

/// Returns the faults and the true values of a scenario by process number, as `A faults 1, A true`, or `none` if there
/// are none. The one error is that memory runs out.
pub fn scenario_text(
    alloc: Global,
    problem: &Problem,
    scenario: &Scenario,
) -> Result<String, OutOfMemory>
    requires values { length scenario.now.values ≡ condition_count problem.now }
    requires faults { length scenario.now.faults ≡ process_count problem.now }
    ensures { IfOk result (λ text. string_bytes text ≡ scenario_text problem.now scenario.now) }
{
    let mut out = String::new(alloc);
    // there are at most 128 processes, so the cast keeps their count
    for process in 0..problem.processes().len() as u32 {
        write_process(&mut out, problem, scenario, process)?;
    }
    write_none(&mut out)?;
    Ok(out)
}
