//! The quick test of V6: no two executions on a processor overlap.
ghost use Rattle.std.specs.Prelude.{◌≡◌, ◌<◌, ◌==◌, IfOk, List, filter};
ghost use Rattle.std.specs.Bool.{OnTrue};
ghost use Rattle.cpg_base.specs.Graph.{node_of, process_count};
ghost use Rattle.cpg_base.specs.Numbers.{numbers_below};
ghost use Rattle.cpg_table.specs.Table.{NodeTable};
ghost use Rattle.cpg_table.specs.declared.rule.Rule.{Rule};
ghost use Rattle.cpg_violation.specs.Sure.{AreSure, IsSure};
ghost use Rattle.cpg_check_quick.specs.Order.{execution};
ghost use Rattle.cpg_check_quick.specs.Sequences.{AreSequences};

use crate::sequences::Sequences;
use cpg_base::{OutOfMemory, Problem};
use std::alloc::Global;

/// The processes with lower numbers on the node of a process, by number.
fn lower_on_node(alloc: Global, problem: &Problem, process: u32) -> Result<Vec<u32>, OutOfMemory>
    requires { process < process_count problem.now }
    ensures { IfOk result (λ lower. lower.items ≡ filter (λ q. node_of problem.now q == node_of problem.now process) (numbers_below process)) }
{
    let node = problem.node_of(process);
    let mut lower = Vec::new(alloc);
    for other in 0..process {
        if problem.node_of(other) == node {
            lower.push(other)?;
        }
    }
    Ok(lower)
}

/// Whether V6 is known to hold at an item: its executions overlap none of a process of a lower number on its node.
/// False guarantees nothing. `sequences` are those of all executions.
fn is_alone(
    alloc: Global,
    problem: &Problem,
    sequences: &Sequences<'_>,
    item: u32,
) -> Result<bool, OutOfMemory>
    ensures { IfOk result (λ r. OnTrue r ((tables : List NodeTable) → AreSequences (execution problem.now) problem.now tables sequences.now →
        IsSure problem.now tables Rule.Processor item)) }
{
    // a message or a broadcast has no executions
    if item as usize >= problem.processes().len() {
        return Ok(true);
    }
    let lower = lower_on_node(alloc, problem, item)?;
    let is_alone = sequences.are_apart(alloc, problem.node_of(item), lower.as_slice(), item)?;
    Ok(is_alone)
}

/// A mark for each item, by number: whether V6 is known to hold there. It may hold at one that isn't marked, too.
/// `sequences` are those of all executions.
pub(crate) fn processor_marks(
    alloc: Global,
    problem: &Problem,
    sequences: &Sequences<'_>,
) -> Result<Vec<bool>, OutOfMemory>
    ensures { IfOk result (λ marks. (tables : List NodeTable) → AreSequences (execution problem.now) problem.now tables sequences.now →
        AreSure problem.now tables Rule.Processor marks.items) }
{
    let count = problem.item_count();
    let mut marks = Vec::new(alloc);
    marks.reserve(count as usize)?;
    for item in 0..count {
        let is_sure = is_alone(alloc, problem, sequences, item)?;
        marks.push(is_sure)?;
    }
    Ok(marks)
}
