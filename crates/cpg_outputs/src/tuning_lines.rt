//! Makes the text of a tuning.
ghost use Rattle.std.specs.Prelude.{◌≡◌, ◌<◌, ◌++◌, All, IfOk, OnOk, codes, string_bytes};
ghost use Rattle.cpg_base.specs.Graph.{item_count};
ghost use Rattle.cpg_refusal.specs.Lines.{item_text};
ghost use Rattle.cpg_outputs.specs.Tunes.{judged_text, parts_line, parts_lines, row_line, row_lines, tolerates_line, tuning_text, IsNamedRow};

use cpg_base::{OutOfMemory, Problem, Process};
use cpg_label::write_item;
use cpg_tune::{Judged, Tuned};
use std::alloc::{AllocError, Global};

/// Writes the best number of parts of one process, as a line.
fn write_part(out: &mut String, process: &Process, parts: u32) -> Result<(), AllocError>
    ensures { OnOk result (string_bytes out.new ≡ string_bytes out.old ++ parts_line process.now parts) }
{
    let name = process.name.as_str();
    write!(out, "{name} parts {parts}\n")
}

/// Writes the best number of parts of each process, a line for each.
fn write_parts(out: &mut String, problem: &Problem, parts: &[u32]) -> Result<(), AllocError>
    ensures { OnOk result (string_bytes out.new ≡ string_bytes out.old ++ parts_lines problem.now.processes parts.now) }
{
    for (process, parts) in problem.processes().iter().zip(parts) {
        write_part(out, process, *parts)?;
    }
    Ok(())
}

/// Writes that an item is too wide.
fn write_wide(out: &mut String, problem: &Problem, item: u32) -> Result<(), AllocError>
    requires { item < item_count problem.now }
    ensures { OnOk result (string_bytes out.new ≡ string_bytes out.old ++ (codes "wide " ++ item_text problem.now item)) }
{
    out.push_str("wide ")?;
    write_item(out, problem, item)
}

/// Writes what a compile answers: the greatest finish, that of a late graph, or the item that is too wide.
fn write_judged(out: &mut String, problem: &Problem, judged: Judged) -> Result<(), AllocError>
    requires { IsNamedRow problem.now judged }
    ensures { OnOk result (string_bytes out.new ≡ string_bytes out.old ++ judged_text problem.now judged) }
{
    match judged {
        Judged::Worst(finish) => write!(out, "worst {finish}"),
        Judged::Late(finish) => write!(out, "late {finish}"),
        Judged::Wide(item) => write_wide(out, problem, item),
    }
}

/// Writes what a compile answers under one fault number, as a line.
fn write_row(
    out: &mut String,
    problem: &Problem,
    faults: usize,
    judged: Judged,
) -> Result<(), AllocError>
    requires { IsNamedRow problem.now judged }
    ensures { OnOk result (string_bytes out.new ≡ string_bytes out.old ++ row_line problem.now faults judged) }
{
    write!(out, "k {faults} ")?;
    write_judged(out, problem, judged)?;
    out.push_str("\n")
}

/// Writes what a compile answers under each fault number from 0 on, a line for each.
fn write_rows(out: &mut String, problem: &Problem, rows: &[Judged]) -> Result<(), AllocError>
    requires { All (IsNamedRow problem.now) rows.now }
    ensures { OnOk result (string_bytes out.new ≡ string_bytes out.old ++ row_lines problem.now 0 rows.now) }
{
    for (faults, judged) in rows.iter().enumerate() {
        write_row(out, problem, faults, *judged)?;
    }
    Ok(())
}

/// Writes the greatest fault number that is tolerated, or that none is.
fn write_tolerates(out: &mut String, tolerates: Option<u8>) -> Result<(), AllocError>
    ensures { OnOk result (string_bytes out.new ≡ string_bytes out.old ++ tolerates_line tolerates) }
{
    match tolerates {
        Some(faults) => write!(out, "tolerates {faults}\n"),
        None => out.push_str("tolerates none\n"),
    }
}

/// Returns the text of a tuning: the best numbers of parts, the answers by fault number, and the greatest that is tolerated.
pub fn tuning_text(alloc: Global, problem: &Problem, tuned: &Tuned) -> Result<String, OutOfMemory>
    requires { All (IsNamedRow problem.now) tuned.now.rows }
    ensures { IfOk result (λ text. string_bytes text ≡ tuning_text problem.now tuned.now) }
{
    let mut text = String::new(alloc);
    write_parts(&mut text, problem, tuned.parts())?;
    write_rows(&mut text, problem, tuned.rows())?;
    write_tolerates(&mut text, tuned.tolerates())?;
    Ok(text)
}
