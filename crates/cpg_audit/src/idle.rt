//! The scenarios in which some logged item isn't active: they don't give the log.
ghost use Rattle.std.specs.Prelude.{◌≡◌, ℕ, All, Bool, IfOk, not, true};
ghost use Rattle.std.specs.List.{list_any};
ghost use Rattle.cpg_base.specs.Activity.{item_active};
ghost use Rattle.cpg_base.specs.Graph.{item_at};
ghost use Rattle.cpg_base.specs.Scenario.{Scenario, IsScenario};
ghost use Rattle.cpg_cube.specs.Cube.{matches};
ghost use Rattle.cpg_cube.specs.Fit.{IsKnown};
ghost use Rattle.cpg_tree.specs.Tree.{DoPathsPass, HasOnePathEach, IsMap};
ghost use Rattle.cpg_audit.specs.Excluded.{idle_time, is_some_idle};
ghost use Rattle.cpg_log.specs.Log.{IsActBy, is_act};

use cpg_base::OutOfMemory;
use cpg_cube::Column;
use cpg_expand::active_item;
use cpg_log::Logged;
use cpg_rules::Admitted;
use cpg_tree::{OptionalTime, Tree};
use cpg_tree_columns::columns;
use std::alloc::Global;

/// Some time, 0, if an item isn't active, and `None` if it is.
fn idle_time(active: bool) -> Option<u64>
    ensures { result ≡ idle_time active }
{
    if active { None } else { Some(0) }
}

/// The tree that has a time just where `active` is false, so that its columns match just there. The one error is
/// `OutOfMemory`.
fn idle(active: &Tree<bool>) -> Result<Tree<OptionalTime>, OutOfMemory>
    ensures is { IfOk result (IsMap (λ x z. z ≡ idle_time x) active.now) }
    ensures each { IfOk result (λ t. HasOnePathEach t.faults t.paths) }
    ensures pass { IfOk result (λ t. (test : ℕ → Bool) → DoPathsPass test active.now.paths → DoPathsPass test t.paths) }
{
    active.map(&|active: bool| OptionalTime::of(idle_time(active)))
}

/// Columns that match just in the scenarios in which an item isn't active. The one error is `OutOfMemory`.
fn idle_columns(alloc: Global, admitted: &Admitted, item: u32) -> Result<Vec<Column>, OutOfMemory>
    requires { is_act admitted.now.graph item ≡ true }
    ensures known { IfOk result (λ columns. All (λ c. IsKnown admitted.now.graph c.cube) columns.items) }
    ensures idle { IfOk result (λ columns. (s : Scenario) → IsScenario admitted.now.graph s →
        list_any (λ c. matches c.cube s) columns.items ≡ not (item_active admitted.now.graph s.values (item_at admitted.now.graph item))) }
{
    let active = active_item(alloc, admitted, item)?;
    let idle = idle(&active)?;
    let columns = columns(&idle, admitted.problem(), admitted.order())?;
    Ok(columns)
}

/// Columns that match just in the scenarios in which some item of these acts isn't active. The one error is
/// `OutOfMemory`.
pub fn all_idle(
    alloc: Global,
    admitted: &Admitted,
    acts: &[Logged],
) -> Result<Vec<Column>, OutOfMemory>
    requires { (until : ℕ) × All (IsActBy admitted.now.graph until) acts.now }
    ensures known { IfOk result (λ columns. All (λ c. IsKnown admitted.now.graph c.cube) columns.items) }
    ensures idle { IfOk result (λ columns. (s : Scenario) → IsScenario admitted.now.graph s →
        list_any (λ c. matches c.cube s) columns.items ≡ is_some_idle admitted.now.graph acts.now s) }
{
    let mut all = Vec::new(alloc);
    for act in acts {
        let mut columns = idle_columns(alloc, admitted, act.item)?;
        all.append(&mut columns)?;
    }
    Ok(all)
}
