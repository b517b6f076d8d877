//! Trees that are made down a guard: one for each leaf, and for each test one that is made from the trees of its two
//! sides.
ghost use Rattle.std.specs.Prelude.{◌≡◌, ◌<◌, ℕ, IfErr, IfOk, IfSome, Option};
ghost use Rattle.std.specs.Bool.{OnTrue};
ghost use Rattle.cpg_base.specs.declared.activation.Activation.{Activation};
ghost use Rattle.cpg_order.specs.Guard.{Guard, Leaf, Test};
ghost use Rattle.cpg_tree.specs.Tree.{TreeState};
ghost use Rattle.cpg_expand.specs.Descent.{ArePlacesKept, AreKnown, AreLeaves, IsGuardAdded, IsAt, IsFound, IsThere, IsTreeOf};
ghost use Rattle.cpg_expand.specs.Large.{IsLargeDown, ShowsLarge};
ghost use Rattle.cpg_rules.specs.Trees.{TestsBelow};

use crate::bounding::few;
use cpg_base::{Activation, OutOfMemory};
use cpg_rules::{GuardTop, GuardTree};
use cpg_run::BuildFault;
use cpg_tree::Tree;
use std::alloc::Global;

/// How many trees of parts of a guard are kept at most, for a part that comes again. More would make the look-up
/// dearer.
const KEPT: usize = 64;

/// How a tree is made from a guard, and what holds of it.
pub(crate) trait Descent<T> {
    // what has to hold of `self`
    ghost begun: { Self → Type 0 };

    // how many conditions there are; a guard tests these alone
    ghost conditions: { Self → ℕ };

    // the activations that may be at a leaf
    ghost may: { Self → Activation → Type 0 };

    // what holds of each tree that is made
    ghost made: { Self → TreeState T → Type 0 };

    // how a tree is related to its guard
    ghost fits: { Self → Guard → TreeState T → Type 0 };

    // the item that `TooWide` names
    ghost wide: { Self → Option ℕ };

    // why a leaf may be refused
    ghost large: { Self → Activation → Type 0 };

    /// Returns the item that `TooWide` names if a tree has too many leaves; `None` if leaves aren't counted.
    fn wide(&self) -> Option<u32>
        ensures { result ≡ wide self.now };

    /// Returns the tree of a leaf with this activation.
    fn leaf(&self, activation: Activation) -> Result<Tree<T>, BuildFault>
        requires begun { begun self.now }
        requires may { may self.now activation }
        ensures made { IfOk result (made self.now) }
        ensures fits { IfOk result (fits self.now (Leaf activation)) }
        ensures fault { IfErr result (ShowsLarge (wide self.now) (large self.now activation)) };

    /// Returns the tree of a test of a condition, given the trees of its sides: `no` if the value is false, `yes` if
    /// it is true.
    fn test(&self, condition: u32, no: &Tree<T>, yes: &Tree<T>) -> Result<Tree<T>, OutOfMemory>
        requires begun { begun self.now }
        requires condition { condition < conditions self.now }
        requires no { made self.now no.now }
        requires yes { made self.now yes.now }
        ensures made { IfOk result (made self.now) }
        ensures fits { IfOk result (λ t. (off on : Guard) → fits self.now off no.now → fits self.now on yes.now → fits self.now (Test condition off on) t) };
}

/// A part of a guard, with the tree that was made for it.
#[derive(Drop)]
struct KnownGuard<'a, T> {
    /// The part itself; an equal part has the same tree.
    guard: &'a GuardTree,
    /// The tree that `tree_down` made for it.
    tree: Tree<T>,
}

/// Where the tree of a part of a guard is.
#[derive(Drop)]
enum Source<T> {
    /// At this place among the kept ones.
    At(usize),
    /// Not among them: the tree itself.
    Alone(Tree<T>),
}

/// Whether two activations are equal. Callers rely only on the answer yes.
fn are_equal(first: Activation, second: Activation) -> bool
    ensures { OnTrue result (first ≡ second) }
{
    match first {
        Activation::Inactive => matches!(second, Activation::Inactive),
        Activation::Plain => matches!(second, Activation::Plain),
        Activation::By(edge) => match second {
            Activation::By(other) => edge == other,
            _ => false,
        },
    }
}

/// Whether two guards have the same tests and leaves. Callers rely only on the answer yes.
fn is_same(guard: &GuardTree, other: &GuardTree) -> bool
    ensures { OnTrue result (guard.now ≡ other.now) }
{
    match guard.top() {
        GuardTop::Leaf(activation) => match other.top() {
            GuardTop::Leaf(other) => are_equal(activation, other),
            GuardTop::Test {
                condition: _,
                no: _,
                yes: _,
            } => false,
        },
        GuardTop::Test { condition, no, yes } => match other.top() {
            GuardTop::Leaf(_) => false,
            GuardTop::Test {
                condition: tested,
                no: low,
                yes: high,
            } => condition == tested && is_same(no, low) && is_same(yes, high),
        },
    }
}

/// Returns the first place at which `known` has a guard that is equal to this one, or `None` if there is none. Callers
/// rely only on a place that is returned.
fn guard_index<T>(known: &[KnownGuard<'_, T>], guard: &GuardTree) -> Option<usize>
    ensures { IfSome result (λ i. IsAt known.now i guard.now) }
{
    for (place, one) in known.iter().enumerate() {
        if is_same(one.guard, guard) {
            return Some(place);
        }
    }
    None
}

/// Returns the tree of a source: the kept one at its place, or its own.
fn tree_of<'a, T>(found: &'a Source<T>, known: &'a [KnownGuard<'_, T>]) -> &'a Tree<T>
    requires { IsThere known.now found.now }
    ensures { IsTreeOf known.now found.now result.now }
{
    match found {
        Source::At(place) => &known[*place].tree,
        Source::Alone(tree) => tree,
    }
}

/// Keeps a guard and its tree at the end of `known` if fewer than `KEPT` are kept, and returns the place. Otherwise the
/// tree is handed back in `Alone`.
fn keep<'a, T: Copy>(
    known: &mut Vec<KnownGuard<'a, T>>,
    guard: &'a GuardTree,
    tree: Tree<T>,
) -> Result<Source<T>, OutOfMemory>
    ensures { IfOk result (IsGuardAdded known.old.items known.new.items guard.now tree) }
{
    let place = known.len();
    if place >= KEPT {
        return Ok(Source::Alone(tree));
    }
    known.push(KnownGuard { guard, tree })?;
    Ok(Source::At(place))
}

/// Returns where the tree of a guard is. It is made unless `known` has an equal guard, and then kept there if there is
/// room. `TooWide` names `descent.wide()` if a tree on the way has too many leaves.
fn found<'a, T: Copy + Eq, D: Descent<T>>(
    descent: &D,
    guard: &'a GuardTree,
    known: &mut Vec<KnownGuard<'a, T>>,
) -> Result<Source<T>, BuildFault>
    requires begun { D.begun descent.now }
    requires tests { TestsBelow (D.conditions descent.now) guard.now }
    requires leaves { AreLeaves (D.may descent.now) guard.now }
    requires known { AreKnown (D.made descent.now) (D.fits descent.now) known.old.items }
    ensures known { IfOk result (λ _. AreKnown (D.made descent.now) (D.fits descent.now) known.new.items) }
    ensures kept { IfOk result (λ _. ArePlacesKept known.old.items known.new.items) }
    ensures found { IfOk result (IsFound (D.made descent.now) (D.fits descent.now) known.new.items guard.now) }
    ensures fault { IfErr result (ShowsLarge (D.wide descent.now) (IsLargeDown (D.large descent.now) (D.fits descent.now) guard.now)) }
{
    if let Some(place) = guard_index(known.as_slice(), guard) {
        return Ok(Source::At(place));
    }
    match guard.top() {
        GuardTop::Leaf(activation) => {
            let tree = descent.leaf(activation)?;
            let source = keep(known, guard, tree)?;
            Ok(source)
        }
        GuardTop::Test { condition, no, yes } => {
            let no = found(descent, no, known)?;
            let yes = found(descent, yes, known)?;
            let kept = known.as_slice();
            let tree = descent.test(condition, tree_of(&no, kept), tree_of(&yes, kept))?;
            few(&tree, descent.wide())?;
            let source = keep(known, guard, tree)?;
            Ok(source)
        }
    }
}

/// Returns the tree of a guard, made as `descent` says. Parts of the guard that are equal share one tree on the way, as
/// long as it is kept. `TooWide` names `descent.wide()` if a tree on the way has too many leaves.
pub(crate) fn tree_down<T: Copy + Eq, D: Descent<T>>(
    alloc: Global,
    descent: &D,
    guard: &GuardTree,
) -> Result<Tree<T>, BuildFault>
    requires begun { D.begun descent.now }
    requires tests { TestsBelow (D.conditions descent.now) guard.now }
    requires leaves { AreLeaves (D.may descent.now) guard.now }
    ensures made { IfOk result (D.made descent.now) }
    ensures fits { IfOk result (D.fits descent.now guard.now) }
    ensures fault { IfErr result (ShowsLarge (D.wide descent.now) (IsLargeDown (D.large descent.now) (D.fits descent.now) guard.now)) }
{
    let mut known = Vec::new(alloc);
    match found(descent, guard, &mut known)? {
        // `known` is dropped here, so its order no longer matters
        Source::At(place) => Ok(known.swap_remove(place).tree),
        Source::Alone(tree) => Ok(tree),
    }
}
