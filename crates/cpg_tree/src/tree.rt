//! A decision tree as callers have it, and what is made of one tree or of two by a function.
ghost use Rattle.std.specs.Prelude.{◌≡◌, ◌≤◌, ◌<◌, max, ℕ, Bool, Option, Some, All, IfOk, length, true};
ghost use Rattle.std.specs.Bool.{OnTrue};
ghost use Rattle.cpg_tree.specs.TreeNode.{TreeNode};
ghost use Rattle.cpg_tree.specs.Decision.{IsGood};
ghost use Rattle.cpg_tree.specs.Flat.{IsFlat, flat};
ghost use Rattle.cpg_tree.specs.Later.{AreAtLeast, IsItemFrom, time_later};
ghost use Rattle.cpg_tree.specs.Paths.{paths_of};
ghost use Rattle.cpg_tree.specs.ReadBack.{IsGoodList};
ghost use Rattle.cpg_tree.specs.Tree.{HasOnePathEach, IsTidyPath, DoPathsPass, IsConstant, IsMap, IsJoin, IsValueAt};

use crate::at::{at_items, leaf_count};
use crate::item::TreeItem;
use crate::join::join_items;
use crate::map::map_items;
use crate::optional_time::OptionalTime;
use crate::reading::time_later;
use crate::space::Space;
use crate::top::{Top, top_of};
use cpg_base::{OutOfMemory, Scenario};
use std::alloc::Global;
use std::marker::Model;

/// A decision tree: a value for each scenario of at most `faults` faults. It is seen as its paths: each is a cube and the
/// value in the scenarios that the cube matches. It is stored as one list: the items of each fork's side below, those of its
/// side above, and then the fork.
#[derive(Drop)]
pub struct Tree<T> {
    /// The allocator of its items.
    alloc: Global,
    /// The most faults of a scenario that it has a value for.
    faults: u8,
    /// The tree's list.
    items: Vec<TreeItem<T>>,
}

impl<T> Model for Tree<T> {
    ghost use Rattle.std.specs.Prelude.{◌≡◌, length};
    ghost use Rattle.cpg_tree.specs.ReadBack.{IsGoodList, paths_in};
    ghost use Rattle.cpg_tree.specs.Tree.{TreeState};

    ghost Value = { TreeState T };

    ghost view = { λ t. record { faults = t.faults; paths = paths_in t.faults t.items.items } };

    ghost invariant = { λ t. IsGoodList t.faults t.items.items };
}

impl<T> Tree<T> {
    /// Returns the allocator of the tree's list.
    pub fn alloc(&self) -> Global {
        self.alloc
    }

    /// Returns the most faults of a scenario that the tree has a value for.
    pub fn faults(&self) -> u8
        ensures { result ≡ self.now.faults }
    {
        self.faults
    }

    /// Returns the tree's list.
    pub fn items(&self) -> &[TreeItem<T>]
        ensures flat { IsFlat result.now }
        ensures good { (n : TreeNode T) → result.now ≡ flat n → IsGood self.now.faults n }
        ensures paths { (n : TreeNode T) → result.now ≡ flat n → self.now.paths ≡ paths_of self.now.faults n }
    {
        self.items.as_slice()
    }
}

impl<T: Copy> Tree<T> {
    /// The tree of a list.
    pub fn of(alloc: Global, faults: u8, items: Vec<TreeItem<T>>) -> Tree<T>
        requires { IsGoodList faults items.items }
        ensures is { (n : TreeNode T) → items.items ≡ flat n → result ≡ record { faults = faults; paths = paths_of faults n } }
        ensures each { HasOnePathEach result.faults result.paths }
        ensures tidy { All (IsTidyPath result.faults) result.paths }
    {
        Tree {
            alloc,
            faults,
            items,
        }
    }

    /// Returns the tree that has one value in all scenarios of at most `k` faults. The one error is `OutOfMemory`.
    pub fn constant(alloc: Global, value: T, k: u8) -> Result<Tree<T>, OutOfMemory>
        requires { k ≤ 8 }
        ensures is { IfOk result (IsConstant value k) }
        ensures each { IfOk result (λ t. HasOnePathEach t.faults t.paths) }
        ensures tidy { IfOk result (λ t. All (IsTidyPath t.faults) t.paths) }
        ensures pass { IfOk result (λ t. (test : ℕ → Bool) → DoPathsPass test t.paths) }
    {
        let mut items = Vec::with_capacity(alloc, 1)?;
        items.push(TreeItem::Value(value))?;
        Ok(Tree::of(alloc, k, items))
    }

    /// Returns the value of the path that a scenario is on.
    pub fn at(&self, scenario: &Scenario) -> T
        ensures { IsValueAt self.now scenario.now result }
    {
        at_items(self.items(), scenario)
    }

    /// Returns an equal tree. The one error is `OutOfMemory`.
    fn copy(&self) -> Result<Tree<T>, OutOfMemory>
        ensures is { IfOk result (λ t. t ≡ self.now) }
        ensures each { IfOk result (λ t. HasOnePathEach t.faults t.paths) }
        ensures tidy { IfOk result (λ t. All (IsTidyPath t.faults) t.paths) }
    {
        let copied = Vec::from_slice(self.alloc, self.items())?;
        Ok(Tree::of(self.alloc, self.faults(), copied))
    }

    /// Returns how many paths the tree has.
    pub fn leaves(&self) -> u64
        ensures { result ≡ length self.now.paths }
    {
        leaf_count(self.items()) as u64
    }

    /// Returns the tree that has in each scenario the answer of `f` to the values of two trees. The one error is `OutOfMemory`.
    pub fn join_with<U: Copy, V: Copy + Eq, F: Fn(T, U) -> V>(
        &self,
        other: &Tree<U>,
        f: &F,
    ) -> Result<Tree<V>, OutOfMemory>
        requires callable { F.IsAlwaysCallable f.now }
        requires equal { (x y : V) → V.eq x y ≡ true → x ≡ y }
        requires same { self.now.faults ≡ other.now.faults }
        ensures is { IfOk result (IsJoin (F.post f.now) self.now other.now) }
        ensures each { IfOk result (λ t. HasOnePathEach t.faults t.paths) }
        ensures tidy { IfOk result (λ t. All (IsTidyPath t.faults) t.paths) }
        ensures pass { IfOk result (λ t. (test : ℕ → Bool) → DoPathsPass test self.now.paths → DoPathsPass test other.now.paths → DoPathsPass test t.paths) }
    {
        let faults = self.faults();
        let mut space = Space::whole(faults);
        let others = other.items();
        // a guess: the answer mostly has about as many items as the larger tree
        let mut made = Vec::with_capacity(self.alloc, self.items.len().max(others.len()))?;
        join_items(self.items(), others, &mut space, f, &mut made)?;
        Ok(Tree::of(self.alloc, faults, made))
    }

    /// Returns the tree that has in each scenario the answer of `f` to this tree's value. The one error is `OutOfMemory`.
    pub fn map<U: Copy + Eq, F: Fn(T) -> U>(&self, f: &F) -> Result<Tree<U>, OutOfMemory>
        requires callable { F.IsAlwaysCallable f.now }
        requires equal { (x y : U) → U.eq x y ≡ true → x ≡ y }
        ensures is { IfOk result (IsMap (F.post f.now) self.now) }
        ensures each { IfOk result (λ t. HasOnePathEach t.faults t.paths) }
        ensures tidy { IfOk result (λ t. All (IsTidyPath t.faults) t.paths) }
        ensures pass { IfOk result (λ t. (test : ℕ → Bool) → DoPathsPass test self.now.paths → DoPathsPass test t.paths) }
    {
        // the answer has no more items than the tree
        let mut made = Vec::with_capacity(self.alloc, self.items.len())?;
        map_items(self.items(), f, &mut made)?;
        Ok(Tree::of(self.alloc, self.faults(), made))
    }
}

impl Tree<bool> {
    /// Whether the tree is the one value true. It is false for a tree with a fork, even if all leaves are true.
    pub fn is_true(&self) -> bool
        ensures { OnTrue result (IsConstant true self.now.faults self.now) }
    {
        match top_of(self.items()) {
            Top::Value(value) => value,
            Top::Cut { .. } => false,
        }
    }
}

/// Whether there is a time, and it is at least `least`.
fn is_time_from(time: Option<u64>, least: u64) -> bool
    ensures { OnTrue result (time ≡ Some (max (time_later 0 time) least)) }
{
    let Some(time) = time else {
        return false;
    };
    least <= time
}

/// Whether an item is a fork, or has a time that is at least `least`.
fn is_item_from(item: TreeItem<OptionalTime>, least: u64) -> bool
    ensures { OnTrue result (IsItemFrom least item) }
{
    match item {
        TreeItem::Value(time) => is_time_from(time.get(), least),
        TreeItem::Cut { .. } => true,
    }
}

/// Whether each leaf of a tree has a time that is at least `least`.
fn are_at_least(items: &[TreeItem<OptionalTime>], least: u64) -> bool
    requires { IsFlat items.now }
    ensures { OnTrue result ((n : TreeNode (Option ℕ)) → items.now ≡ flat n → AreAtLeast least n) }
{
    for item in items {
        if !is_item_from(*item, least) {
            return false;
        }
    }
    true
}

/// Returns a time (0 if there is none) or `least`, whichever is later.
fn time_or(time: Option<u64>, least: u64) -> u64
    ensures { result ≡ max (time_later 0 time) least }
{
    time_later(time, 0).max(least)
}

impl Tree<OptionalTime> {
    /// Whether the tree has in each scenario a time that is at least `least`.
    fn is_at_least(&self, least: u64) -> bool
        ensures { OnTrue result (All (λ p. p.1 ≡ Some (max (time_later 0 p.1) least)) self.now.paths) }
    {
        are_at_least(self.items(), least)
    }

    /// Returns the tree that has in each scenario this tree's time (0 if it has none) or `least`, whichever is later. The one
    /// error is `OutOfMemory`.
    fn raised(&self, least: u64) -> Result<Tree<OptionalTime>, OutOfMemory>
        ensures is { IfOk result (λ t. IsMap (λ x z. z ≡ Some (max (time_later 0 x) least)) self.now t) }
        ensures each { IfOk result (λ t. HasOnePathEach t.faults t.paths) }
        ensures tidy { IfOk result (λ t. All (IsTidyPath t.faults) t.paths) }
        ensures pass { IfOk result (λ t. (test : ℕ → Bool) → DoPathsPass test self.now.paths → DoPathsPass test t.paths) }
    {
        self.map(&|time: OptionalTime| OptionalTime::of(Some(time_or(time.get(), least))))
    }

    /// Returns the tree that has in each scenario this tree's time (0 if it has none) or `least`, whichever is later. If that
    /// changes no time, it is a copy of the tree. The one error is `OutOfMemory`.
    pub fn no_earlier(&self, least: u64) -> Result<Tree<OptionalTime>, OutOfMemory>
        ensures is { IfOk result (λ t. IsMap (λ x z. z ≡ Some (max (time_later 0 x) least)) self.now t) }
        ensures each { IfOk result (λ t. HasOnePathEach t.faults t.paths) }
        ensures tidy { IfOk result (λ t. All (IsTidyPath t.faults) t.paths) }
        ensures pass { IfOk result (λ t. (test : ℕ → Bool) → DoPathsPass test self.now.paths → DoPathsPass test t.paths) }
    {
        if self.is_at_least(least) {
            self.copy()
        } else {
            self.raised(least)
        }
    }
}
