//! Trees whose value is the number of one variable: a process's fault count, or the value of a condition.
ghost use Rattle.std.specs.Prelude.{◌≡◌, ◌≤◌, ◌<◌, ◌+◌, ℕ, Bool, true, All, IfOk, vec_len};
ghost use Rattle.cpg_base.specs.Scenario.{number_of_value};
ghost use Rattle.cpg_tree.specs.Added.{AddsTree};
ghost use Rattle.cpg_tree.specs.Tree.{HasOnePathEach, IsTidyPath, DoPathsPass, IsNumber};
ghost use Rattle.cpg_tree.specs.Variables.{IsCounted, IsValued};

use crate::Tree;
use crate::fork::plain_fork;
use crate::item::TreeItem;
use cpg_base::{FIRST_VALUE, OutOfMemory};
use std::alloc::Global;

/// Adds the tree of the fault count of a process, for the scenarios in which it is from `first` to `k`.
fn push_counts(
    process: u8,
    first: u8,
    k: u8,
    out: &mut Vec<TreeItem<u8>>,
) -> Result<(), OutOfMemory>
    requires process { process < 128 }
    requires first { first ≤ k }
    ensures long { IfOk result (λ _. vec_len out.old ≤ vec_len out.new) }
    ensures made { IfOk result (λ _. AddsTree (IsCounted process first k) out.old.items out.new.items) }
{
    // one count is left, so no fork is needed
    if first == k {
        out.push(TreeItem::Value(k))?;
        return Ok(());
    }
    // a fork at `first`: this count below, and the tree of the greater ones above
    let start = out.len();
    out.push(TreeItem::Value(first))?;
    let middle = out.len();
    push_counts(process, first + 1, k, out)?;
    plain_fork(out, start, middle, process, first)
}

/// Adds the tree of the value of a condition: false below a fork at 0, and true above.
fn push_value(condition: u8, out: &mut Vec<TreeItem<bool>>) -> Result<(), OutOfMemory>
    requires { condition < 32 }
    ensures { IfOk result (λ _. AddsTree (IsValued (128 + condition)) out.old.items out.new.items) }
{
    let start = out.len();
    out.push(TreeItem::Value(false))?;
    let middle = out.len();
    out.push(TreeItem::Value(true))?;
    plain_fork(out, start, middle, FIRST_VALUE + condition, 0)
}

/// Returns the tree that has in each scenario of at most `k` faults the fault count of a process. The one error is
/// `OutOfMemory`.
pub fn fault(alloc: Global, process: u32, k: u8) -> Result<Tree<u8>, OutOfMemory>
    requires process { process < 128 }
    requires k { k ≤ 8 }
    ensures is { IfOk result (IsNumber process k (λ n. n)) }
    ensures each { IfOk result (λ t. HasOnePathEach t.faults t.paths) }
    ensures tidy { IfOk result (λ t. All (IsTidyPath t.faults) t.paths) }
    ensures pass { IfOk result (λ t. (test : ℕ → Bool) → test process ≡ true → DoPathsPass test t.paths) }
{
    // k + 1 leaves and k forks
    let mut items = Vec::with_capacity(alloc, 2 * k as usize + 1)?;
    // the number of a process is below 128, so it fits a byte
    push_counts(process as u8, 0, k, &mut items)?;
    Ok(Tree::of(alloc, k, items))
}

/// Returns the tree that has in each scenario of at most `k` faults the value of a condition. The one error is `OutOfMemory`.
pub fn value(alloc: Global, condition: u32, k: u8) -> Result<Tree<bool>, OutOfMemory>
    requires condition { condition < 32 }
    requires k { k ≤ 8 }
    ensures is { IfOk result (IsNumber (128 + condition) k number_of_value) }
    ensures each { IfOk result (λ t. HasOnePathEach t.faults t.paths) }
    ensures tidy { IfOk result (λ t. All (IsTidyPath t.faults) t.paths) }
    ensures pass { IfOk result (λ t. (test : ℕ → Bool) → test (128 + condition) ≡ true → DoPathsPass test t.paths) }
{
    // two leaves and a fork
    let mut items = Vec::with_capacity(alloc, 3)?;
    // the number of a condition is below 32, so it fits a byte
    push_value(condition as u8, &mut items)?;
    Ok(Tree::of(alloc, k, items))
}
