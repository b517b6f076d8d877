//! Functions that make a tree from the values of others. In each, `tree` and `other` are over the same scenarios.
ghost use Rattle.std.specs.Prelude.{ℕ, ◌≡◌, max, Bool, None, Some, IfOk};
ghost use Rattle.cpg_base.specs.Numbers.{same_bool};
ghost use Rattle.cpg_tree_times.specs.Values.{time_if, ended, slot_at, slot_if, slot_from};
ghost use Rattle.cpg_tree.specs.Later.{time_later};
ghost use Rattle.cpg_tree.specs.Tree.{HasOnePathEach, DoPathsPass, IsMap, IsJoin, IsJoinWhere};

use crate::choosing::greater_of_where;
use crate::greater::{greater_of, max_of};
use cpg_base::OutOfMemory;
use cpg_bus::Share;
use cpg_tree::{AsIs, Later, OptionalTime, Tree, time_later};

/// From this time on no slot is looked for, since the next one might go past 64 bits. The ends of an admitted graph
/// are below it.
const LATE: u64 = 1 << 59;

/// Returns the times of a tree later by a delay, as `time_later` adds it; a scenario without a time counts as time 0.
pub fn later(tree: &Tree<OptionalTime>, delay: u64) -> Result<Tree<u64>, OutOfMemory>
    ensures is { IfOk result (IsMap (λ x z. z ≡ time_later delay x) tree.now) }
    ensures each { IfOk result (λ t. HasOnePathEach t.faults t.paths) }
    ensures pass { IfOk result (λ t. (test : ℕ → Bool) → DoPathsPass test tree.now.paths → DoPathsPass test t.paths) }
{
    tree.map(&|time: OptionalTime| time_later(time.get(), delay))
}

/// Returns the times of a tree or a release, whichever is later, as starts in all scenarios.
pub fn started(tree: &Tree<u64>, release: u64) -> Result<Tree<OptionalTime>, OutOfMemory>
    ensures is { IfOk result (λ t. IsMap (λ x z. z ≡ Some (max x release)) tree.now t) }
    ensures each { IfOk result (λ t. HasOnePathEach t.faults t.paths) }
    ensures pass { IfOk result (λ t. (test : ℕ → Bool) → DoPathsPass test tree.now.paths → DoPathsPass test t.paths) }
{
    tree.map(&|time: u64| OptionalTime::of(Some(time.max(release))))
}

/// Returns in each scenario the later of two: the time of a tree (0 if it has none) with a delay added, and the number
/// of another tree.
pub fn later_or(
    tree: &Tree<OptionalTime>,
    delay: u64,
    other: &Tree<u64>,
) -> Result<Tree<u64>, OutOfMemory>
    requires { tree.now.faults ≡ other.now.faults }
    ensures is { IfOk result (IsJoin (λ x y z. z ≡ max (time_later delay x) y) tree.now other.now) }
    ensures each { IfOk result (λ t. HasOnePathEach t.faults t.paths) }
    ensures pass { IfOk result (λ t. (test : ℕ → Bool) → DoPathsPass test tree.now.paths → DoPathsPass test other.now.paths → DoPathsPass test t.paths) }
{
    greater_of(tree, &Later { delay }, other, &AsIs, &|number: u64| number)
}

/// Returns in each scenario the later of two: the time of a tree with a delay added, and the time of another tree. A
/// scenario without a time counts as time 0.
pub fn later_of(
    tree: &Tree<OptionalTime>,
    delay: u64,
    other: &Tree<OptionalTime>,
) -> Result<Tree<u64>, OutOfMemory>
    requires { tree.now.faults ≡ other.now.faults }
    ensures is { IfOk result (IsJoin (λ x y z. z ≡ max (time_later delay x) (time_later 0 y)) tree.now other.now) }
    ensures each { IfOk result (λ t. HasOnePathEach t.faults t.paths) }
    ensures pass { IfOk result (λ t. (test : ℕ → Bool) → DoPathsPass test tree.now.paths → DoPathsPass test other.now.paths → DoPathsPass test t.paths) }
{
    greater_of(
        tree,
        &Later { delay },
        other,
        &Later { delay: 0 },
        &|number: u64| number,
    )
}

/// Returns the numbers of a tree, the times of another one later by a delay, or a release, whichever are later, as
/// starts in all scenarios.
pub fn started_or(
    tree: &Tree<u64>,
    other: &Tree<OptionalTime>,
    delay: u64,
    release: u64,
) -> Result<Tree<OptionalTime>, OutOfMemory>
    requires { tree.now.faults ≡ other.now.faults }
    ensures is { IfOk result (IsJoin (λ x y z. z ≡ Some (max (max x (time_later delay y)) release)) tree.now other.now) }
    ensures each { IfOk result (λ t. HasOnePathEach t.faults t.paths) }
    ensures pass { IfOk result (λ t. (test : ℕ → Bool) → DoPathsPass test tree.now.paths → DoPathsPass test other.now.paths → DoPathsPass test t.paths) }
{
    greater_of(
        tree,
        &AsIs,
        other,
        &Later { delay },
        &|number: u64| OptionalTime::of(Some(number.max(release))),
    )
}

/// Returns the times of a tree later by a delay, those of another one, or a release, whichever are later, as starts in
/// all scenarios.
pub fn started_of(
    tree: &Tree<OptionalTime>,
    delay: u64,
    other: &Tree<OptionalTime>,
    release: u64,
) -> Result<Tree<OptionalTime>, OutOfMemory>
    requires { tree.now.faults ≡ other.now.faults }
    ensures is { IfOk result (IsJoin (λ x y z. z ≡ Some (max (max (time_later delay x) (time_later 0 y)) release)) tree.now other.now) }
    ensures each { IfOk result (λ t. HasOnePathEach t.faults t.paths) }
    ensures pass { IfOk result (λ t. (test : ℕ → Bool) → DoPathsPass test tree.now.paths → DoPathsPass test other.now.paths → DoPathsPass test t.paths) }
{
    greater_of(
        tree,
        &Later { delay },
        other,
        &Later { delay: 0 },
        &|number: u64| OptionalTime::of(Some(number.max(release))),
    )
}

/// Returns the starts that `started_or` has where a tree is true, and no start elsewhere.
pub fn started_or_where(
    active: &Tree<bool>,
    tree: &Tree<u64>,
    other: &Tree<OptionalTime>,
    delay: u64,
    release: u64,
) -> Result<Tree<OptionalTime>, OutOfMemory>
    requires first { active.now.faults ≡ tree.now.faults }
    requires second { active.now.faults ≡ other.now.faults }
    ensures is { IfOk result (IsJoinWhere (λ x y z. z ≡ Some (max (max x (time_later delay y)) release)) None active.now tree.now other.now) }
    ensures each { IfOk result (λ t. HasOnePathEach t.faults t.paths) }
    ensures pass { IfOk result (λ t. (test : ℕ → Bool) → DoPathsPass test active.now.paths → DoPathsPass test tree.now.paths →
        DoPathsPass test other.now.paths → DoPathsPass test t.paths) }
{
    greater_of_where(
        active,
        tree,
        &AsIs,
        other,
        &Later { delay },
        &|number: u64| OptionalTime::of(Some(number.max(release))),
        OptionalTime::of(None),
    )
}

/// Returns the starts that `started_of` has where a tree is true, and no start elsewhere.
pub fn started_of_where(
    active: &Tree<bool>,
    tree: &Tree<OptionalTime>,
    delay: u64,
    other: &Tree<OptionalTime>,
    release: u64,
) -> Result<Tree<OptionalTime>, OutOfMemory>
    requires first { active.now.faults ≡ tree.now.faults }
    requires second { active.now.faults ≡ other.now.faults }
    ensures is { IfOk result (IsJoinWhere (λ x y z. z ≡ Some (max (max (time_later delay x) (time_later 0 y)) release)) None active.now tree.now other.now) }
    ensures each { IfOk result (λ t. HasOnePathEach t.faults t.paths) }
    ensures pass { IfOk result (λ t. (test : ℕ → Bool) → DoPathsPass test active.now.paths → DoPathsPass test tree.now.paths →
        DoPathsPass test other.now.paths → DoPathsPass test t.paths) }
{
    greater_of_where(
        active,
        tree,
        &Later { delay },
        other,
        &Later { delay: 0 },
        &|number: u64| OptionalTime::of(Some(number.max(release))),
        OptionalTime::of(None),
    )
}

/// Returns a tree that is true where a given one has a value.
pub fn same_as(tree: &Tree<bool>, wanted: bool) -> Result<Tree<bool>, OutOfMemory>
    ensures is { IfOk result (IsMap (λ x z. z ≡ same_bool wanted x) tree.now) }
    ensures each { IfOk result (λ t. HasOnePathEach t.faults t.paths) }
    ensures pass { IfOk result (λ t. (test : ℕ → Bool) → DoPathsPass test tree.now.paths → DoPathsPass test t.paths) }
{
    tree.map(&|value: bool| is_same(wanted, value))
}

/// Whether two values are equal; by a function of its own, since a definition speaks of it.
fn is_same(first: bool, second: bool) -> bool
    ensures { result ≡ same_bool first second }
{
    first == second
}

/// Returns the time if `is` is true, and `None` otherwise.
fn time_if(is: bool, time: u64) -> Option<u64>
    ensures { result ≡ time_if time is }
{
    if is { Some(time) } else { None }
}

/// Returns a tree that has one time wherever the given tree is true, and no time elsewhere.
pub fn fixed(tree: &Tree<bool>, time: u64) -> Result<Tree<OptionalTime>, OutOfMemory>
    ensures is { IfOk result (IsMap (λ x z. z ≡ time_if time x) tree.now) }
    ensures each { IfOk result (λ t. HasOnePathEach t.faults t.paths) }
    ensures pass { IfOk result (λ t. (test : ℕ → Bool) → DoPathsPass test tree.now.paths → DoPathsPass test t.paths) }
{
    tree.map(&|is: bool| OptionalTime::of(time_if(is, time)))
}

/// Returns the end of an execution that starts at this time and has this many faults, at most `u64::MAX`; `None` if it
/// doesn't start. `durations` has the duration for each number of faults.
fn ended(start: Option<u64>, durations: &[u64], faults: u8) -> Option<u64>
    ensures { result ≡ ended durations.now faults start }
{
    let start = start?;
    // 0 if `durations` has no such number; callers have one for each up to k
    let duration = match durations.get(faults as usize) {
        Some(duration) => *duration,
        None => 0,
    };
    Some(start.saturating_add(duration))
}

/// Returns the ends of executions that start at the times of a tree, if one with this number of faults lasts that long.
pub fn ends(
    start: &Tree<OptionalTime>,
    faults: &Tree<u8>,
    durations: &[u64],
) -> Result<Tree<OptionalTime>, OutOfMemory>
    requires { start.now.faults ≡ faults.now.faults }
    ensures is { IfOk result (IsJoin (λ x n z. z ≡ ended durations.now n x) start.now faults.now) }
    ensures each { IfOk result (λ t. HasOnePathEach t.faults t.paths) }
    ensures pass { IfOk result (λ t. (test : ℕ → Bool) → DoPathsPass test start.now.paths → DoPathsPass test faults.now.paths → DoPathsPass test t.paths) }
{
    start.join_with(
        faults,
        &|start: OptionalTime, faults: u8| {
            OptionalTime::of(ended(start.get(), durations, faults))
        },
    )
}

/// Returns the first slot at the time or later; 0 if there is no time, or if it is `LATE` or later.
pub fn slot_at(share: Share, time: Option<u64>) -> u64
    ensures { result ≡ slot_at share time }
{
    let Some(time) = time else {
        return 0;
    };
    if time < LATE {
        // called for its contract: the share is lawful
        let _length = share.length();
        share.next_slot(time)
    } else {
        0
    }
}

/// Returns the slot if there is a time and it is before `LATE`, and `None` otherwise.
fn slot_if(time: Option<u64>, slot: u64) -> Option<u64>
    ensures { result ≡ slot_if slot time }
{
    let time = time?;
    if time < LATE { Some(slot) } else { None }
}

/// Returns a tree with the first slot at the time of `end` or later, and 0 where there is no time or it is `LATE` or
/// later.
fn next_slots(share: Share, end: &Tree<OptionalTime>) -> Result<Tree<u64>, OutOfMemory>
    ensures is { IfOk result (IsMap (λ x z. z ≡ slot_at share x) end.now) }
    ensures each { IfOk result (λ t. HasOnePathEach t.faults t.paths) }
    ensures pass { IfOk result (λ t. (test : ℕ → Bool) → DoPathsPass test end.now.paths → DoPathsPass test t.paths) }
{
    end.map(&|time: OptionalTime| slot_at(share, time.get()))
}

/// Returns a tree with the slot of `slots` where `end` has a time before `LATE`, and none elsewhere.
fn asked(end: &Tree<OptionalTime>, slots: &Tree<u64>) -> Result<Tree<OptionalTime>, OutOfMemory>
    requires { end.now.faults ≡ slots.now.faults }
    ensures is { IfOk result (IsJoin (λ x y z. z ≡ slot_if y x) end.now slots.now) }
    ensures each { IfOk result (λ t. HasOnePathEach t.faults t.paths) }
    ensures pass { IfOk result (λ t. (test : ℕ → Bool) → DoPathsPass test end.now.paths → DoPathsPass test slots.now.paths → DoPathsPass test t.paths) }
{
    end.join_with(
        slots,
        &|time: OptionalTime, slot: u64| { OptionalTime::of(slot_if(time.get(), slot)) },
    )
}

/// Returns the first slots at the times of a tree or later that are free.
pub fn slots(
    share: Share,
    end: &Tree<OptionalTime>,
    free: &Tree<u64>,
) -> Result<Tree<OptionalTime>, OutOfMemory>
    requires { end.now.faults ≡ free.now.faults }
    ensures is { IfOk result (IsJoin (λ x y z. z ≡ slot_from share y x) end.now free.now) }
    ensures each { IfOk result (λ t. HasOnePathEach t.faults t.paths) }
    ensures pass { IfOk result (λ t. (test : ℕ → Bool) → DoPathsPass test end.now.paths → DoPathsPass test free.now.paths → DoPathsPass test t.paths) }
{
    // if the slots are at least `free` everywhere, `max` tests nothing of it
    let next = next_slots(share, end)?;
    let slots = max_of(&next, free)?;
    asked(end, &slots)
}
