//! The trial of a number: generating, compiling, checking and playing its graph.
ghost use Rattle.std.specs.Prelude.{◌≡◌, ◌↔◌, IfOk, IsTrue};
ghost use Rattle.cpg_table.specs.Valid.{IsValid};
ghost use Rattle.cpg_rules.specs.Admission.{IsAdmitted};
ghost use Rattle.cpg_rules.specs.declared.admission.RuleFault.{RuleFault};
ghost use Rattle.cpg_violation.specs.Heads.{IsHeadFor};
ghost use Rattle.cpg_gen.specs.Generated.{generated};
ghost use Rattle.cpg_core.specs.declared.fault.CompileFault.{CompileFault};
ghost use Rattle.cpg_core.specs.Compilation.{IsCompilation};
ghost use Rattle.cpg_app.specs.Trial.{AreFiguresOf, IsGenerated, IsTrial};

use crate::column_counts::column_total;
use crate::trial_plays::endings_of;
use cpg_base::OutOfMemory;
use cpg_check::{Verdict, check};
use cpg_core::{CompileFault, Compiled, compile};
use cpg_gen::generate;
use cpg_outputs::Trial;
use cpg_rules::{Admitted, Refused, RuleFault, admit};
use cpg_table::Tables;
use std::alloc::Global;

/// Returns the fault of an admission that can only fail as memory runs out.
fn unadmitted(fault: RuleFault) -> OutOfMemory
    requires { fault ≡ RuleFault.OutOfMemory }
{
    match fault {
        RuleFault::OutOfMemory => OutOfMemory,
        // the clause rules every other fault out
        _ => unreachable!(),
    }
}

/// Returns the fault of a compile that can only fail as memory runs out.
fn uncompiled(fault: CompileFault) -> OutOfMemory
    requires { fault ≡ CompileFault.OutOfMemory }
{
    match fault {
        CompileFault::OutOfMemory => OutOfMemory,
        // the clause rules every other fault out
        _ => unreachable!(),
    }
}

/// Returns the graph that a number generates, as it is admitted. No such graph is rejected, so the one error is that
/// memory runs out.
fn admitted_of(alloc: Global, number: u64) -> Result<Admitted, OutOfMemory>
    ensures graph { IfOk result (λ a. a.graph ≡ generated number) }
    ensures admitted { IfOk result (λ a. IsAdmitted a.graph a.order a.guards) }
{
    let problem = generate(alloc, number)?;
    match admit(alloc, problem) {
        Ok(admitted) => Ok(admitted),
        Err(refused) => {
            // the refused graph isn't needed
            let Refused { fault, .. } = refused;
            Err(unadmitted(fault))
        }
    }
}

/// Returns the tables of a generated graph. No such graph is too wide or late, so the one error is that memory runs
/// out.
fn compiled_of(alloc: Global, admitted: &Admitted) -> Result<Compiled, OutOfMemory>
    requires { IsGenerated admitted.now.graph }
    ensures { IfOk result (IsCompilation admitted.now.graph admitted.now.order) }
{
    // called for its contract: the graph is admitted
    let _graph = admitted.problem();
    match compile(alloc, admitted) {
        Ok(compiled) => Ok(compiled),
        Err(fault) => Err(uncompiled(fault)),
    }
}

/// Whether tables have the head of a graph and keep the ten rules. The one error is that memory runs out.
fn are_valid(alloc: Global, admitted: &Admitted, tables: &Tables) -> Result<bool, OutOfMemory>
    ensures { IfOk result (λ found. IsTrue found ↔ (IsHeadFor admitted.now.graph tables.now.head × IsValid admitted.now.graph tables.now.nodes)) }
{
    // called for its contract: the tables are lawful under their head
    let _head = tables.head();
    match check(alloc, admitted, tables)? {
        Verdict::Yes => Ok(true),
        Verdict::Other(_) => Ok(false),
        Verdict::No(_) => Ok(false),
    }
}

/// Checks the tables of a generated graph, plays them, and returns the figures. The one error is that memory runs out.
fn figures_of(
    alloc: Global,
    admitted: &Admitted,
    compiled: &Compiled,
    number: u64,
) -> Result<Trial, OutOfMemory>
    requires graph { admitted.now.graph ≡ generated number }
    requires compilation { IsCompilation admitted.now.graph admitted.now.order compiled.now }
    ensures { IfOk result (AreFiguresOf admitted.now.graph compiled.now number) }
{
    let built = &compiled.built;
    // compiled tables are valid and the checker finds all valid ones so, so this never happens: the check is made to show it
    if !are_valid(alloc, admitted, &built.tables)? {
        unreachable!();
    }
    let endings = endings_of(alloc, admitted, compiled, number)?;
    let problem = admitted.problem();
    // there are at most 128 processes and 256 edges, so the casts keep their numbers
    Ok(Trial {
        processes: problem.processes().len() as u32,
        edges: problem.edges().len() as u32,
        conditions: problem.conditions(),
        columns: column_total(&built.tables),
        worst: built.worst,
        endings,
    })
}

/// Generates the graph of a number, admits and compiles it, checks its tables, and plays them in three scenarios,
/// driven by the number. Returns the figures. No such graph is rejected, too wide or late, so the one error is that
/// memory runs out.
pub fn run_trial(alloc: Global, number: u64) -> Result<Trial, OutOfMemory>
    ensures { IfOk result (IsTrial number) }
{
    let admitted = admitted_of(alloc, number)?;
    let compiled = compiled_of(alloc, &admitted)?;
    figures_of(alloc, &admitted, &compiled, number)
}
