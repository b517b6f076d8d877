//! Guard trees: tests of conditions, down to how a process is active.
ghost use Rattle.std.specs.Prelude.{◌≡◌, ◌++◌, IfOk, OnOk, length};
ghost use Rattle.cpg_order.specs.Guard.{Leaf, Test, outcome_at, way};
ghost use Rattle.cpg_base.specs.Activity.{same_activation};
ghost use Rattle.cpg_rules.specs.Trees.{TestsBelow};
ghost use Rattle.cpg_rules.specs.TreeTop.{ShowsTop};

use cpg_base::{Activation, OutOfMemory, Scenario};
use std::alloc::Global;
use std::marker::Model;
use std::rc::Rc;

/// How a process is active, by tests of conditions: seen as a leaf with an activation, or as a test of a condition with
/// the trees for false and for true.
#[cycle(guard)]
#[derive(Drop)]
pub struct GuardTree {
    /// The top, with all below it.
    node: Rc<GuardNode>,
}

// The top of a tree. It is shared by all trees that have it, so a copy of a tree copies one pointer.
#[cycle(guard)]
#[derive(Drop)]
enum GuardNode {
    /// How the process is active.
    Leaf(Activation),
    /// A test of a condition.
    Test {
        /// The number of the condition.
        condition: u32,
        /// The tree if it is false.
        no: GuardTree,
        /// The tree if it is true.
        yes: GuardTree,
    },
}

impl Model for GuardTree {
    ghost use Rattle.cpg_order.specs.Guard.{Guard};
    ghost use Rattle.cpg_rules.specs.Trees.{size_of};
    ghost use Rattle.cpg_rules.specs.TreeCode.{tree_code};

    ghost Value = { Guard };

    ghost coded = { tree_code };

    ghost use Rattle.cpg_rules.specs.TreeView.{tree_of};

    ghost view = { λ t. tree_of t.node.value };

    ghost size = { size_of };

    ghost use Rattle.cpg_rules.specs.TreeFalls.{deep_le-size};

    ghost size_decreases = { λ a h. deep_le-size a.node.value };
}

/// The top of a tree, lent.
pub enum GuardTop<'a> {
    /// A leaf: the process is active in this way.
    Leaf(Activation),
    /// A test of a condition, with the trees for its values.
    Test {
        /// The number of the condition.
        condition: u32,
        /// The tree if it is false.
        no: &'a GuardTree,
        /// The tree if it is true.
        yes: &'a GuardTree,
    },
}

/// Whether two activations are equal.
pub fn are_same(a: Activation, b: Activation) -> bool
    ensures { result ≡ same_activation a b }
{
    match a {
        Activation::Inactive => matches!(b, Activation::Inactive),
        Activation::Plain => matches!(b, Activation::Plain),
        Activation::By(edge) => match b {
            Activation::By(other) => edge == other,
            _ => false,
        },
    }
}

impl GuardTree {
    /// Returns the tree without tests: the process is active in this way in every outcome.
    pub(crate) fn leaf(alloc: Global, activation: Activation) -> Result<GuardTree, OutOfMemory>
        ensures { IfOk result (λ tree. tree ≡ Leaf activation) }
    {
        let node = Rc::new(alloc, GuardNode::Leaf(activation))?;
        Ok(GuardTree { node })
    }

    /// Returns a copy of the tree.
    pub(crate) fn copy(&self) -> Result<GuardTree, OutOfMemory>
        ensures { IfOk result (λ tree. tree ≡ self.now) }
    {
        let node = self.node.clone()?;
        Ok(GuardTree { node })
    }

    /// Returns the tree that tests a condition and goes on with `no` if it is false, and with `yes` if it is true.
    pub(crate) fn test(
        alloc: Global,
        condition: u32,
        no: GuardTree,
        yes: GuardTree,
    ) -> Result<GuardTree, OutOfMemory>
        ensures { IfOk result (λ tree. tree ≡ Test condition no yes) }
    {
        let node = Rc::new(alloc, GuardNode::Test { condition, no, yes })?;
        Ok(GuardTree { node })
    }

    /// Returns how the process is active in a scenario.
    pub fn at(&self, scenario: &Scenario) -> Activation
        requires { TestsBelow (length scenario.now.values) self.now }
        ensures { result ≡ outcome_at self.now scenario.now.values }
    {
        match self.node.as_ref() {
            GuardNode::Leaf(activation) => *activation,
            GuardNode::Test { condition, no, yes } => {
                if scenario.value(*condition) {
                    yes.at(scenario)
                } else {
                    no.at(scenario)
                }
            }
        }
    }

    /// Returns the activation of a leaf, or a test's condition and its two trees.
    pub fn top(&self) -> GuardTop<'_>
        ensures { ShowsTop result self.now }
    {
        match self.node.as_ref() {
            GuardNode::Leaf(activation) => GuardTop::Leaf(*activation),
            GuardNode::Test { condition, no, yes } => GuardTop::Test {
                condition: *condition,
                no,
                yes,
            },
        }
    }

    /// Adds the conditions that are tested on a scenario's way down the tree to the end of `tests`, the first first.
    pub(crate) fn push_way(
        &self,
        scenario: &Scenario,
        tests: &mut Vec<u32>,
    ) -> Result<(), OutOfMemory>
        requires { TestsBelow (length scenario.now.values) self.now }
        ensures { OnOk result (tests.new.items ≡ tests.old.items ++ way self.now scenario.now.values) }
    {
        match self.node.as_ref() {
            // a leaf tests nothing more
            GuardNode::Leaf(_) => Ok(()),
            GuardNode::Test { condition, no, yes } => {
                tests.push(*condition)?;
                if scenario.value(*condition) {
                    yes.push_way(scenario, tests)
                } else {
                    no.push_way(scenario, tests)
                }
            }
        }
    }
}
