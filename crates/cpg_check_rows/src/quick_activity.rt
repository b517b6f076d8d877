//! The quick test of V1: if a column matches, its item and the processes of its literals are active.
ghost use Rattle.std.specs.Prelude.{◌≡◌, ◌<◌, ℕ, All, IfOk, false, not, true};
ghost use Rattle.std.specs.Bool.{OnTrue};
ghost use Rattle.std.specs.List.{list_any};
ghost use Rattle.cpg_base.specs.Activity.{active};
ghost use Rattle.cpg_base.specs.Graph.{item_count, process_count, process_of_variable};
ghost use Rattle.cpg_base.specs.Scenario.{Scenario, IsScenario};
ghost use Rattle.cpg_cube.specs.Cube.{matches};
ghost use Rattle.cpg_cube.specs.Fit.{IsKnown};
ghost use Rattle.cpg_table.specs.Valid.{breaks_activity};
ghost use Rattle.cpg_table.specs.declared.rule.Rule.{Rule};
ghost use Rattle.cpg_tree.specs.Space.{IsInSpace};
ghost use Rattle.cpg_violation.specs.Heads.{IsHeadFor};
ghost use Rattle.cpg_violation.specs.Sure.{AreSure, IsSure};
ghost use Rattle.cpg_violation.specs.Always.{AllAlways, AreAlways, IsUnconditional};

use cpg_base::{FIRST_VALUE, OutOfMemory};
use cpg_cube::{Column, Literal};
use cpg_rules::Admitted;
use cpg_table::Tables;
use cpg_tree::Space;
use cpg_violation::{always_active, are_all, is_item_running, is_marked, is_running, tested_marks};
use std::alloc::Global;

/// Whether a process is active in each scenario of a space. False guarantees nothing. `always` marks processes that are
/// active in every scenario, as most are.
fn is_active(admitted: &Admitted, always: &[bool], process: u32, space: &Space) -> bool
    requires process { process < process_count admitted.now.graph }
    requires always { AreAlways admitted.now.graph always.now }
    ensures { OnTrue result ((s : Scenario) → IsScenario admitted.now.graph s → IsInSpace space.now s → active admitted.now.graph s.values process ≡ true) }
{
    if is_marked(always, process) {
        return true;
    }
    is_running(admitted, process, space)
}

/// Whether the processes of these literals are all active in each scenario of a space. False guarantees nothing.
/// `always` marks processes that are active in every scenario.
fn are_active(admitted: &Admitted, always: &[bool], literals: &[Literal], space: &Space) -> bool
    requires literals { IsKnown admitted.now.graph literals.now }
    requires always { AreAlways admitted.now.graph always.now }
    ensures { OnTrue result ((s : Scenario) → IsScenario admitted.now.graph s → IsInSpace space.now s →
        list_any (λ l. not (active admitted.now.graph s.values (process_of_variable admitted.now.graph l.variable))) literals.now ≡ false) }
{
    for literal in literals {
        let process = admitted.problem().process_of_variable(literal.variable);
        if !is_active(admitted, always, process, space) {
            return false;
        }
    }
    true
}

/// Those of these literals that come after the last one on a fault count, or all of them if none is on a count. If the
/// variables rise, these are all the literals on values.
fn on_values(literals: &[Literal]) -> &[Literal]
    ensures { (s : Scenario) → matches literals.now s ≡ true → matches result.now s ≡ true }
{
    // from the last literal back to one that is on a count
    for later in 0..literals.len() {
        let from = literals.len() - later;
        if literals[from - 1].variable < FIRST_VALUE {
            return &literals[from..];
        }
    }
    literals
}

/// Whether an item and the processes of a column's literals are all active wherever the column matches. False
/// guarantees nothing. `always` marks processes that are active in every scenario, and `everywhere` is a space of all
/// scenarios.
fn is_lawful(
    admitted: &Admitted,
    always: &[bool],
    everywhere: &Space,
    item: u32,
    column: &Column,
) -> bool
    requires everywhere { (s : Scenario) → IsScenario admitted.now.graph s → IsInSpace everywhere.now s }
    requires item { item < item_count admitted.now.graph }
    requires column { IsKnown admitted.now.graph column.now.cube }
    requires always { AreAlways admitted.now.graph always.now }
    ensures { OnTrue result ((s : Scenario) → IsScenario admitted.now.graph s → matches column.now.cube s ≡ true →
        breaks_activity admitted.now.graph s item column.now ≡ false) }
{
    let literals = column.cube.literals();
    // what is active depends on values alone, so only literals on values narrow the space
    let mut space = *everywhere;
    // no scenario matches these literals, so none matches the column
    if !space.narrow_to(on_values(literals)) {
        return true;
    }
    if !is_item_running(admitted, item, &space) {
        return false;
    }
    are_active(admitted, always, literals, &space)
}

/// Whether for each of these columns an item and the processes of the column's literals are all active wherever the
/// column matches. False guarantees nothing. `always` marks processes that are active in every scenario, and
/// `everywhere` is a space of all scenarios.
fn are_lawful(
    admitted: &Admitted,
    always: &[bool],
    everywhere: &Space,
    item: u32,
    columns: &[Column],
) -> bool
    requires everywhere { (s : Scenario) → IsScenario admitted.now.graph s → IsInSpace everywhere.now s }
    requires item { item < item_count admitted.now.graph }
    requires columns { All (λ c. IsKnown admitted.now.graph c.cube) columns.now }
    requires always { AreAlways admitted.now.graph always.now }
    ensures { OnTrue result (All (λ c. (s : Scenario) → IsScenario admitted.now.graph s → matches c.cube s ≡ true →
        breaks_activity admitted.now.graph s item c ≡ false) columns.now) }
{
    for column in columns {
        if !is_lawful(admitted, always, everywhere, item, column) {
            return false;
        }
    }
    true
}

/// Whether all processes, and an item as well, are known to be active in every scenario. False guarantees nothing.
/// `all` is true only if all processes are, and `everywhere` is a space of all scenarios.
fn is_plain(admitted: &Admitted, all: bool, everywhere: &Space, item: u32) -> bool
    requires everywhere { (s : Scenario) → IsScenario admitted.now.graph s → IsInSpace everywhere.now s }
    requires item { item < item_count admitted.now.graph }
    requires all { OnTrue all (AllAlways admitted.now.graph) }
    ensures all { OnTrue result (AllAlways admitted.now.graph) }
    ensures item { OnTrue result (IsUnconditional admitted.now.graph item) }
{
    if !all {
        return false;
    }
    is_item_running(admitted, item, everywhere)
}

/// Whether V1 is known to hold at an item. False guarantees nothing. `always` marks processes that are active in every
/// scenario, `all` is true only if all processes are, and `everywhere` is a space of all scenarios. If all processes
/// and the item are always active, no column is looked at.
fn is_sure(
    admitted: &Admitted,
    tables: &Tables,
    always: &[bool],
    all: bool,
    everywhere: &Space,
    item: u32,
) -> bool
    requires head { IsHeadFor admitted.now.graph tables.now.head }
    requires everywhere { (s : Scenario) → IsScenario admitted.now.graph s → IsInSpace everywhere.now s }
    requires item { item < item_count admitted.now.graph }
    requires always { AreAlways admitted.now.graph always.now }
    requires all { OnTrue all (AllAlways admitted.now.graph) }
    ensures { OnTrue result (IsSure admitted.now.graph tables.now.nodes Rule.Activity item) }
{
    // called for its clause alone that the graph is admitted
    let _problem = admitted.problem();
    let columns = tables.columns_of(item);
    // nothing can be inactive, whatever the columns are
    if is_plain(admitted, all, everywhere, item) {
        return true;
    }
    are_lawful(admitted, always, everywhere, item, columns)
}

/// A mark for each item, by number: whether V1 is known to hold there. It may hold at one that isn't marked, too.
/// `always` marks processes that are active in every scenario, `all` is true only if all processes are, and
/// `everywhere` is a space of all scenarios.
fn marks_of(
    alloc: Global,
    admitted: &Admitted,
    tables: &Tables,
    always: &[bool],
    all: bool,
    everywhere: &Space,
) -> Result<Vec<bool>, OutOfMemory>
    requires head { IsHeadFor admitted.now.graph tables.now.head }
    requires everywhere { (s : Scenario) → IsScenario admitted.now.graph s → IsInSpace everywhere.now s }
    requires always { AreAlways admitted.now.graph always.now }
    requires all { OnTrue all (AllAlways admitted.now.graph) }
    ensures { IfOk result (λ marks. AreSure admitted.now.graph tables.now.nodes Rule.Activity marks.items) }
{
    let items = admitted.problem().item_count();
    let marks = tested_marks(alloc, items, |item| {
        is_sure(admitted, tables, always, all, everywhere, item)
    })?;
    Ok(marks)
}

/// A mark for each item, by number: whether V1 is known to hold there. It may hold at one that isn't marked, too.
pub(crate) fn activity_marks(
    alloc: Global,
    admitted: &Admitted,
    tables: &Tables,
) -> Result<Vec<bool>, OutOfMemory>
    requires { IsHeadFor admitted.now.graph tables.now.head }
    ensures { IfOk result (λ marks. AreSure admitted.now.graph tables.now.nodes Rule.Activity marks.items) }
{
    let always = always_active(alloc, admitted)?;
    // whether each process is marked; there are at most 128, so the cast keeps their number
    let all = are_all(
        always.as_slice(),
        admitted.problem().processes().len() as u32,
    );
    let everywhere = Space::whole(admitted.problem().faults());
    let marks = marks_of(alloc, admitted, tables, always.as_slice(), all, &everywhere)?;
    Ok(marks)
}
