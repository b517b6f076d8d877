//! Makes the text of a trial.
ghost use Rattle.std.specs.Prelude.{◌≡◌, ◌++◌, IfOk, OnOk, string_bytes};
ghost use Rattle.cpg_outputs.specs.Trials.{ending_line, endings_text, sizes_text, tables_text, trial_text};

use crate::figures::{Ending, Endings, Trial};
use std::alloc::{AllocError, Global};

/// Writes how many processes, edges and conditions the graph has, a line for each.
fn write_sizes(out: &mut String, trial: &Trial) -> Result<(), AllocError>
    ensures { OnOk result (string_bytes out.new ≡ string_bytes out.old ++ sizes_text trial.now) }
{
    let processes = trial.processes;
    let edges = trial.edges;
    let conditions = trial.conditions;
    write!(
        out,
        "processes {processes}\nedges {edges}\nconditions {conditions}\n"
    )
}

/// Writes how many columns the tables have, the greatest finish, and that the tables are safe, as those of a trial are.
fn write_tables(out: &mut String, trial: &Trial) -> Result<(), AllocError>
    ensures { OnOk result (string_bytes out.new ≡ string_bytes out.old ++ tables_text trial.now) }
{
    let columns = trial.columns;
    let worst = trial.worst;
    write!(out, "columns {columns}\nworst {worst}\nsafe\n")
}

/// Writes the result of a play as a line: its finish, and how often a node had to wait.
fn write_ending(out: &mut String, ending: Ending) -> Result<(), AllocError>
    ensures { OnOk result (string_bytes out.new ≡ string_bytes out.old ++ ending_line ending) }
{
    let finish = ending.finish;
    let waits = ending.waits;
    write!(out, "finish {finish} waits {waits}\n")
}

/// Writes the results of the three plays, a line for each.
fn write_endings(out: &mut String, endings: &Endings) -> Result<(), AllocError>
    ensures { OnOk result (string_bytes out.new ≡ string_bytes out.old ++ endings_text endings.now) }
{
    write_ending(out, endings.fault_free)?;
    write_ending(out, endings.worst_case)?;
    write_ending(out, endings.all_true)
}

/// Returns the text of the trial with this number: the number, the sizes, the tables and the three plays.
pub fn trial_text(alloc: Global, number: u64, trial: &Trial) -> Result<String, AllocError>
    ensures { IfOk result (λ text. string_bytes text ≡ trial_text number trial.now) }
{
    let mut text = String::new(alloc);
    write!(text, "trial {number}\n")?;
    write_sizes(&mut text, trial)?;
    write_tables(&mut text, trial)?;
    write_endings(&mut text, &trial.endings)?;
    Ok(text)
}
