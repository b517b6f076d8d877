//! The three plays of a trial.
ghost use Rattle.std.specs.Prelude.{◌≡◌, ◌<◌, ◌≤◌, IfOk, replicate, true, false};
ghost use Rattle.cpg_base.specs.Graph.{process_count, condition_count};
ghost use Rattle.cpg_base.specs.Scenario.{IsScenario, zero_scenario};
ghost use Rattle.cpg_head.specs.GraphHead.{head_of};
ghost use Rattle.cpg_table.specs.Valid.{IsValid};
ghost use Rattle.cpg_core.specs.Compilation.{IsCompilation};
ghost use Rattle.cpg_app.specs.Trial.{AreEndings, IsEnding, true_scenario};

use cpg_base::{OutOfMemory, Problem, Scenario};
use cpg_cluster::Cluster;
use cpg_core::Compiled;
use cpg_outputs::{Ending, Endings};
use cpg_rules::Admitted;
use cpg_show::finish;
use cpg_table::Tables;
use std::alloc::Global;

/// Plays valid tables in a scenario, driven by a number, until each node is done. Each execution lasts as long as
/// planned. Returns the greatest end and how often a node waited. The one error is that memory runs out.
fn ending_of(
    alloc: Global,
    admitted: &Admitted,
    tables: &Tables,
    scenario: &Scenario,
    number: u64,
) -> Result<Ending, OutOfMemory>
    requires head { tables.now.head ≡ head_of admitted.now.graph }
    requires valid { IsValid admitted.now.graph tables.now.nodes }
    requires scenario { IsScenario admitted.now.graph scenario.now }
    ensures { IfOk result (IsEnding admitted.now.graph tables.now.nodes scenario.now number) }
{
    // called for its contract: the tables are lawful under their head
    let _head = tables.head();
    let mut cluster = Cluster::new(alloc, admitted, tables.copy()?, scenario)?;
    let waits = cluster.drive(number);
    Ok(Ending {
        finish: finish(admitted.problem(), &cluster),
        waits,
    })
}

/// Sets the values of all `count` conditions to true.
fn set_values(scenario: &mut Scenario, count: u32)
    requires { scenario.old.values ≡ replicate count false }
    ensures values { scenario.new.values ≡ replicate count true }
    ensures faults { scenario.new.faults ≡ scenario.old.faults }
{
    for condition in 0..count {
        scenario.set_value(condition, true);
    }
}

/// Returns the scenario in which every value is true, the first process has two faults and no other has any. The one
/// error is that memory runs out.
fn true_scenario(alloc: Global, problem: &Problem) -> Result<Scenario, OutOfMemory>
    requires { 0 < process_count problem.now }
    ensures { IfOk result (λ s. s ≡ true_scenario problem.now) }
{
    let mut scenario = Scenario::zero(alloc, problem)?;
    set_values(&mut scenario, problem.conditions());
    scenario.set_fault(0, 2);
    Ok(scenario)
}

/// Returns the end of the play without faults in which every value is false. The one error is that memory runs out.
fn fault_free(
    alloc: Global,
    admitted: &Admitted,
    tables: &Tables,
    number: u64,
) -> Result<Ending, OutOfMemory>
    requires head { tables.now.head ≡ head_of admitted.now.graph }
    requires valid { IsValid admitted.now.graph tables.now.nodes }
    ensures { IfOk result (IsEnding admitted.now.graph tables.now.nodes (zero_scenario admitted.now.graph) number) }
{
    let scenario = Scenario::zero(alloc, admitted.problem())?;
    ending_of(alloc, admitted, tables, &scenario, number)
}

/// Returns the end of the play in which every value is true and the first process has two faults. The one error is that
/// memory runs out.
fn all_true(
    alloc: Global,
    admitted: &Admitted,
    tables: &Tables,
    number: u64,
) -> Result<Ending, OutOfMemory>
    requires head { tables.now.head ≡ head_of admitted.now.graph }
    requires valid { IsValid admitted.now.graph tables.now.nodes }
    requires processes { 0 < process_count admitted.now.graph }
    requires faults { 2 ≤ admitted.now.graph.faults }
    ensures { IfOk result (IsEnding admitted.now.graph tables.now.nodes (true_scenario admitted.now.graph) number) }
{
    let scenario = true_scenario(alloc, admitted.problem())?;
    ending_of(alloc, admitted, tables, &scenario, number)
}

/// Returns the ends of the three plays of compiled tables: without faults, in the worst case, and with every value
/// true. The one error is that memory runs out.
pub(crate) fn endings_of(
    alloc: Global,
    admitted: &Admitted,
    compiled: &Compiled,
    number: u64,
) -> Result<Endings, OutOfMemory>
    requires compilation { IsCompilation admitted.now.graph admitted.now.order compiled.now }
    requires processes { 0 < process_count admitted.now.graph }
    requires faults { 2 ≤ admitted.now.graph.faults }
    ensures { IfOk result (AreEndings admitted.now.graph compiled.now number) }
{
    let tables = &compiled.built.tables;
    let fault_free = fault_free(alloc, admitted, tables, number)?;
    let worst_case = ending_of(alloc, admitted, tables, &compiled.built.worst_in, number)?;
    let all_true = all_true(alloc, admitted, tables, number)?;
    Ok(Endings {
        fault_free,
        worst_case,
        all_true,
    })
}
