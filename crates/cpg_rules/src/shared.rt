//! Shared parts: the trees below guards and all trees on the way to them. Equal trees are mostly kept once, and answers
//! that were found for parts are kept too.
ghost use Rattle.std.specs.Prelude.{◌≡◌, ◌<◌, ◌||◌, IfOk, IfSome, true, length};
ghost use Rattle.cpg_base.specs.declared.activation.Activation.TheVariants.{Inactive};
ghost use Rattle.cpg_order.specs.Guard.{Leaf, Test};
ghost use Rattle.cpg_rules.specs.Trees.{same_guard, tested};
ghost use Rattle.cpg_rules.specs.Composing.{passing, live_tree};
ghost use Rattle.cpg_rules.specs.Apart.{is_live_somewhere};
ghost use Rattle.cpg_rules.specs.Sharing.{tree_at, met_of, are_live_of, IsTop, IsAnswer, IsKnown, ArePairWithin, Makes};

use crate::GuardTree;
use crate::composing::{rank, settles};
use crate::edges::ValueTest;
use crate::tree::are_same;
use cpg_base::{Activation, OutOfMemory};
use std::alloc::Global;
use std::marker::Model;

/// The top of a part: a leaf's activation, or a test's condition with the numbers of the parts for false and for true.
#[derive(Clone, Copy, Debug, PartialEq, Eq)]
pub enum PartTop {
    /// A leaf with this activation.
    Leaf(Activation),
    /// A test.
    Test {
        /// The number of the condition.
        condition: u32,
        /// The part if it is false.
        no: usize,
        /// The part if it is true.
        yes: usize,
    },
}

/// A part: a tree with its top, by which its sides are found among the parts.
#[derive(Drop)]
pub struct SharedPart {
    /// What it begins with.
    top: PartTop,
    /// The whole tree.
    tree: GuardTree,
}

/// A question on parts, by their numbers.
#[derive(Clone, Copy, Debug, PartialEq, Eq)]
pub enum Ask {
    /// The part that has the activation in the outcomes in which a source is active and a test passes.
    Live {
        /// How the answer is active in those outcomes.
        activation: Activation,
        /// The test to pass, if there is one.
        test: Option<ValueTest>,
        /// The part of the source.
        source: usize,
    },
    /// The part in which two meet: the first in the outcomes in which it settles the matter, and the second in all others.
    Met {
        /// Whether it is for a join, which an active leaf settles; other processes are settled by an inactive one.
        join: bool,
        /// The part that may settle the matter.
        first: usize,
        /// The other part.
        second: usize,
    },
    /// Whether two parts are never active at once. An answer is kept only if they never are.
    Apart {
        /// One part.
        first: usize,
        /// The other part.
        second: usize,
    },
}

/// A question, and the number of the part that is the answer. For `Apart` the number means nothing.
#[derive(Clone, Copy, Debug, PartialEq, Eq)]
pub struct KnownPart {
    /// The question.
    ask: Ask,
    /// The number of the part.
    answer: usize,
}

/// All parts by number, the ranks of the conditions, and what is known. Known answers, and the numbers of parts by their
/// tops, have places by a hash. Another may take a place; then the answer, or the part, is made again.
#[derive(Drop)]
pub struct SharedParts {
    /// The rank of each condition: the place of its process in the urgency order.
    ranks: Vec<u32>,
    /// All parts, by number.
    parts: Vec<SharedPart>,
    /// Under the hash of a question an answer, maybe to another question.
    known: Vec<Option<KnownPart>>,
    /// Under the hash of a top the number of a part, maybe with another top.
    places: Vec<usize>,
}

impl Model for SharedParts {
    ghost use Rattle.std.specs.Coded.{codes};
    ghost use Rattle.cpg_rules.specs.TreeCode.{tree_code};
    ghost use Rattle.cpg_rules.specs.Sharing.{Sharing, IsSharing};

    ghost Value = { Sharing };

    ghost coded = { Prim.hlevel (codes, tree_code) };

    ghost view = { λ p. record { ranks = p.ranks.items; parts = p.parts.items; known = p.known.items } };

    ghost invariant = { λ p. IsSharing (record { ranks = p.ranks.items; parts = p.parts.items; known = p.known.items }) };
}

/// Whether two tests are equal, also if both are missing. The contract says only that true is right, which is enough: after
/// a wrong `false` a part would just be made again. The same goes for tops and questions.
fn are_same_tests(a: Option<ValueTest>, b: Option<ValueTest>) -> bool
    ensures { result ≡ true → a ≡ b }
{
    match a {
        None => b.is_none(),
        Some(a) => match b {
            None => false,
            Some(b) => a.condition == b.condition && a.value == b.value,
        },
    }
}

/// Whether two tops are equal.
fn are_same_tops(a: PartTop, b: PartTop) -> bool
    ensures { result ≡ true → a ≡ b }
{
    match a {
        PartTop::Leaf(a) => match b {
            PartTop::Leaf(b) => are_same(a, b),
            PartTop::Test { .. } => false,
        },
        PartTop::Test { condition, no, yes } => match b {
            PartTop::Leaf(_) => false,
            PartTop::Test {
                condition: other_condition,
                no: other_no,
                yes: other_yes,
            } => condition == other_condition && no == other_no && yes == other_yes,
        },
    }
}

/// Whether two questions are equal.
fn are_same_asks(a: Ask, b: Ask) -> bool
    ensures { result ≡ true → a ≡ b }
{
    match a {
        Ask::Live {
            activation,
            test,
            source,
        } => match b {
            Ask::Live {
                activation: other_activation,
                test: other_test,
                source: other_source,
            } => are_same(activation, other_activation)
                && are_same_tests(test, other_test)
                && source == other_source,
            _ => false,
        },
        Ask::Met {
            join,
            first,
            second,
        } => match b {
            Ask::Met {
                join: other_join,
                first: other_first,
                second: other_second,
            } => join == other_join && first == other_first && second == other_second,
            _ => false,
        },
        Ask::Apart { first, second } => match b {
            Ask::Apart {
                first: other_first,
                second: other_second,
            } => first == other_first && second == other_second,
            _ => false,
        },
    }
}

/// Returns a place below `count` for three numbers, and 0 if `count` is 0. Each number is spread over all bits by a factor
/// (2^64 divided by the golden ratio), and the high bits count, since they depend on all three.
fn hashed_place(first: usize, second: usize, third: usize, count: usize) -> usize {
    let mixed = first
        .wrapping_mul(0x9E37_79B9_7F4A_7C15)
        .wrapping_add(second)
        .wrapping_mul(0x9E37_79B9_7F4A_7C15)
        .wrapping_add(third)
        .wrapping_mul(0x9E37_79B9_7F4A_7C15);
    if count == 0 { 0 } else { (mixed >> 32) % count }
}

/// Returns a number for an activation, to be hashed. Two may have the same one, so `found` and `answer` compare again.
fn number_of(activation: Activation) -> usize {
    match activation {
        Activation::Inactive => 0,
        Activation::Plain => 1,
        Activation::By(edge) => edge as usize,
    }
}

impl SharedParts {
    /// Returns an empty collection of shared parts. `ranks` are the ranks of the conditions, by number.
    pub fn new(alloc: Global, ranks: Vec<u32>) -> Result<SharedParts, OutOfMemory>
        ensures ranks { IfOk result (λ parts. parts.ranks ≡ ranks.items) }
    {
        // few conditions make few parts: 64 places, doubled for each condition up to the sixth, so at most 4,096
        let count = 64usize << ranks.len().min(6);
        let known = vec![in alloc; None; count]?;
        let places = vec![in alloc; 0usize; count]?;
        Ok(SharedParts {
            ranks,
            parts: Vec::new(alloc),
            known,
            places,
        })
    }

    /// Returns the top of a part.
    fn top(&self, part: usize) -> PartTop
        requires { part < length self.now.parts }
        ensures { IsTop self.now.parts result (tree_at self.now.parts part) }
    {
        self.parts[part].top
    }

    /// Returns a copy of the tree of a part.
    pub fn tree(&self, part: usize) -> Result<GuardTree, OutOfMemory>
        requires { part < length self.now.parts }
        ensures { IfOk result (λ tree. tree ≡ tree_at self.now.parts part) }
    {
        self.parts[part].tree.copy()
    }

    /// Whether two parts have equal trees.
    fn are_equal(&self, first: usize, second: usize) -> bool
        requires first { first < length self.now.parts }
        requires second { second < length self.now.parts }
        ensures { result ≡ same_guard (tree_at self.now.parts first) (tree_at self.now.parts second) }
    {
        // the same part has the same tree
        if first == second {
            return true;
        }
        match self.top(first) {
            PartTop::Leaf(a) => match self.top(second) {
                PartTop::Leaf(b) => are_same(a, b),
                PartTop::Test { .. } => false,
            },
            PartTop::Test { condition, no, yes } => match self.top(second) {
                PartTop::Leaf(_) => false,
                PartTop::Test {
                    condition: other_condition,
                    no: other_no,
                    yes: other_yes,
                } => condition == other_condition
                    && self.are_equal(no, other_no)
                    && self.are_equal(yes, other_yes),
            },
        }
    }

    /// Returns the part whose number is at a place if its top is this one, and otherwise `None`.
    fn found(&self, place: usize, top: PartTop) -> Option<usize>
        ensures within { IfSome result (λ n. n < length self.now.parts) }
        // a part that is found has this top
        ensures top { IfSome result (λ n. IsTop self.now.parts top (tree_at self.now.parts n)) }
    {
        let number = *self.places.get(place)?;
        // a place that hasn't been set has 0, which is no part before the first is made; later, part 0 is compared like others
        if number >= self.parts.len() {
            return None;
        }
        if are_same_tops(self.parts[number].top, top) {
            Some(number)
        } else {
            None
        }
    }

    /// Adds a part with this top and tree, puts its number at the place, and returns the number.
    fn push(&mut self, place: usize, top: PartTop, tree: GuardTree) -> Result<usize, OutOfMemory>
        requires { IsTop self.old.parts top tree }
        ensures { IfOk result (Makes self.old self.new tree) }
    {
        let number = self.parts.len();
        self.parts.push(SharedPart { top, tree })?;
        // a part without a place is right too: it is only made again when it is asked for
        if place < self.places.len() {
            self.places[place] = number;
        }
        Ok(number)
    }

    /// Returns the answer that is known at a place, and `None` if there is none.
    fn known_at(&self, place: usize) -> Option<KnownPart>
        ensures { IsKnown self.now.ranks self.now.parts result }
    {
        match self.known.get(place) {
            None => None,
            Some(known) => *known,
        }
    }

    /// Returns the answer to a question that is known at a place, and `None` if none is or it answers another question.
    fn answer(&self, place: usize, ask: Ask) -> Option<usize>
        ensures { IfSome result (IsAnswer self.now.ranks self.now.parts ask) }
    {
        let known = self.known_at(place)?;
        if are_same_asks(known.ask, ask) {
            Some(known.answer)
        } else {
            None
        }
    }

    /// Keeps an answer at a place.
    fn keep(&mut self, place: usize, ask: Ask, answer: usize)
        requires { IsAnswer self.old.ranks self.old.parts ask answer }
        ensures parts { self.new.parts ≡ self.old.parts }
        ensures ranks { self.new.ranks ≡ self.old.ranks }
    {
        // an answer without a place is right too: it is only found again when it is asked for
        if place < self.known.len() {
            self.known[place] = Some(KnownPart { ask, answer });
        }
    }

    /// Returns the part that is a leaf with this activation.
    pub fn leaf(&mut self, alloc: Global, activation: Activation) -> Result<usize, OutOfMemory>
        ensures { IfOk result (Makes self.old self.new (Leaf activation)) }
    {
        let top = PartTop::Leaf(activation);
        let place = hashed_place(number_of(activation), 0, 0, self.places.len());
        // a part with this top exists already: it is shared
        if let Some(found) = self.found(place, top) {
            return Ok(found);
        }
        let tree = GuardTree::leaf(alloc, activation)?;
        let made = self.push(place, top, tree)?;
        Ok(made)
    }

    /// Returns the part that tests a condition, with these parts as its sides for false and for true.
    fn test(
        &mut self,
        alloc: Global,
        condition: u32,
        no: usize,
        yes: usize,
    ) -> Result<usize, OutOfMemory>
        requires no { no < length self.old.parts }
        requires yes { yes < length self.old.parts }
        ensures { IfOk result (Makes self.old self.new (Test condition (tree_at self.old.parts no) (tree_at self.old.parts yes))) }
    {
        let top = PartTop::Test { condition, no, yes };
        let place = hashed_place(condition as usize, no, yes, self.places.len());
        // a part with this top exists already: it is shared
        if let Some(found) = self.found(place, top) {
            return Ok(found);
        }
        let low = self.tree(no)?;
        let high = self.tree(yes)?;
        let tree = GuardTree::test(alloc, condition, low, high)?;
        let made = self.push(place, top, tree)?;
        Ok(made)
    }

    /// Returns the part that tests a condition, with these parts as its sides; if both have equal trees, the first of them.
    fn tested(
        &mut self,
        alloc: Global,
        condition: u32,
        no: usize,
        yes: usize,
    ) -> Result<usize, OutOfMemory>
        requires no { no < length self.old.parts }
        requires yes { yes < length self.old.parts }
        ensures { IfOk result (Makes self.old self.new (tested condition (tree_at self.old.parts no) (tree_at self.old.parts yes))) }
    {
        // the condition makes no difference: no test is needed
        if self.are_equal(no, yes) {
            return Ok(no);
        }
        let made = self.test(alloc, condition, no, yes)?;
        Ok(made)
    }

    /// Returns the part that has the activation in the outcomes in which a test passes, and is inactive in all others.
    fn passing(
        &mut self,
        alloc: Global,
        activation: Activation,
        test: Option<ValueTest>,
    ) -> Result<usize, OutOfMemory>
        ensures { IfOk result (Makes self.old self.new (passing activation test)) }
    {
        // without a test the activation is there in every outcome
        let Some(test) = test else {
            let leaf = self.leaf(alloc, activation)?;
            return Ok(leaf);
        };
        let live = self.leaf(alloc, activation)?;
        let other = self.leaf(alloc, Activation::Inactive)?;
        // the activation is on the side of the value that the test asks for
        if test.value {
            let made = self.tested(alloc, test.condition, other, live)?;
            return Ok(made);
        }
        let made = self.tested(alloc, test.condition, live, other)?;
        Ok(made)
    }

    /// Returns the part that has the activation in the outcomes in which the source is active and the test passes, and is
    /// inactive in all others.
    pub fn live(
        &mut self,
        alloc: Global,
        activation: Activation,
        test: Option<ValueTest>,
        source: usize,
    ) -> Result<usize, OutOfMemory>
        requires { source < length self.old.parts }
        // the part that is made has the tree of an input, by that of its source
        ensures { IfOk result (Makes self.old self.new (live_tree activation test (tree_at self.old.parts source))) }
    {
        match self.top(source) {
            PartTop::Leaf(found) => {
                // the source is active: only the test decides
                if found.is_active() {
                    let made = self.passing(alloc, activation, test)?;
                    return Ok(made);
                }
                // the source is inactive, and so the input isn't live
                let leaf = self.leaf(alloc, Activation::Inactive)?;
                Ok(leaf)
            }
            PartTop::Test { condition, no, yes } => {
                let ask = Ask::Live {
                    activation,
                    test,
                    source,
                };
                // the last number tells the kind of question: 0 and 1 are `Met`, 2 is `Apart`, and 3 is this one
                let place = hashed_place(source, number_of(activation), 3, self.known.len());
                // the same question was asked before, and its answer hasn't been overwritten
                if let Some(answer) = self.answer(place, ask) {
                    return Ok(answer);
                }
                // the source tests a condition: both its sides are taken
                let low = self.live(alloc, activation, test, no)?;
                let high = self.live(alloc, activation, test, yes)?;
                let made = self.tested(alloc, condition, low, high)?;
                self.keep(place, ask, made);
                Ok(made)
            }
        }
    }

    /// Returns the part that tests a condition and goes on with what each pair of parts meets in: `no` is the pair for false,
    /// `yes` that for true.
    #[cycle(meeting)]
    fn both(
        &mut self,
        alloc: Global,
        join: bool,
        condition: u32,
        no: (usize, usize),
        yes: (usize, usize),
    ) -> Result<usize, OutOfMemory>
        requires no { ArePairWithin self.old.parts no.0 no.1 }
        requires yes { ArePairWithin self.old.parts yes.0 yes.1 }
        // the part that is made has a test of the condition over what the two pairs meet in
        ensures { IfOk result (Makes self.old self.new (tested condition (met_of join self.old no.0 no.1) (met_of join self.old yes.0 yes.1))) }
    {
        let low = self.met(alloc, join, no.0, no.1)?;
        let high = self.met(alloc, join, yes.0, yes.1)?;
        let made = self.tested(alloc, condition, low, high)?;
        Ok(made)
    }

    /// Returns the same part as `met`, without looking whether it is known.
    #[cycle(meeting)]
    fn walked(
        &mut self,
        alloc: Global,
        join: bool,
        first: usize,
        second: usize,
    ) -> Result<usize, OutOfMemory>
        requires { ArePairWithin self.old.parts first second }
        ensures { IfOk result (Makes self.old self.new (met_of join self.old first second)) }
    {
        match self.top(first) {
            PartTop::Leaf(found) => {
                // a leaf of the first part either settles the matter, or leaves it to the second
                if settles(join, found) {
                    Ok(first)
                } else {
                    Ok(second)
                }
            }
            PartTop::Test { condition, no, yes } => match self.top(second) {
                // only the first tests a condition: the second meets both its sides
                PartTop::Leaf(_) => self.both(alloc, join, condition, (no, second), (yes, second)),
                PartTop::Test {
                    condition: other_condition,
                    no: other_no,
                    yes: other_yes,
                } => {
                    // both test the same condition: their sides meet
                    if condition == other_condition {
                        return self.both(alloc, join, condition, (no, other_no), (yes, other_yes));
                    }
                    // the second tests an earlier condition: its test comes first, and the first meets both its sides
                    if rank(self.ranks.as_slice(), other_condition)
                        < rank(self.ranks.as_slice(), condition)
                    {
                        return self.both(
                            alloc,
                            join,
                            other_condition,
                            (first, other_no),
                            (first, other_yes),
                        );
                    }
                    // the first tests an earlier condition: its test comes first, and the second meets both its sides
                    self.both(alloc, join, condition, (no, second), (yes, second))
                }
            },
        }
    }

    /// Returns the part that has the leaf of the first in the outcomes in which this settles the matter, and otherwise the
    /// leaf of the second. Both are walked down together, tests of lower ranks first.
    #[cycle(meeting)]
    pub fn met(
        &mut self,
        alloc: Global,
        join: bool,
        first: usize,
        second: usize,
    ) -> Result<usize, OutOfMemory>
        requires { ArePairWithin self.old.parts first second }
        ensures { IfOk result (Makes self.old self.new (met_of join self.old first second)) }
    {
        let ask = Ask::Met {
            join,
            first,
            second,
        };
        let place = hashed_place(first, second, usize::from(join), self.known.len());
        // the same question was asked before, and its answer hasn't been overwritten
        if let Some(answer) = self.answer(place, ask) {
            return Ok(answer);
        }
        // not known yet: both are walked down, and the answer is kept
        let made = self.walked(alloc, join, first, second)?;
        self.keep(place, ask, made);
        Ok(made)
    }

    /// Whether some leaf of a part is active.
    fn is_live_somewhere(&self, part: usize) -> bool
        requires { part < length self.now.parts }
        ensures { result ≡ is_live_somewhere (tree_at self.now.parts part) }
    {
        match self.top(part) {
            PartTop::Leaf(found) => found.is_active(),
            PartTop::Test {
                condition: _,
                no,
                yes,
            } => self.is_live_somewhere(no) || self.is_live_somewhere(yes),
        }
    }

    /// Whether the two parts of `no`, or the two parts of `yes`, are active at once in some outcome.
    #[cycle(living)]
    fn is_either_live(&mut self, no: (usize, usize), yes: (usize, usize)) -> bool
        requires no { ArePairWithin self.old.parts no.0 no.1 }
        requires yes { ArePairWithin self.old.parts yes.0 yes.1 }
        ensures parts { self.new.parts ≡ self.old.parts }
        ensures ranks { self.new.ranks ≡ self.old.ranks }
        ensures live { result ≡ (are_live_of self.old no.0 no.1 || are_live_of self.old yes.0 yes.1) }
    {
        if self.are_both_live(no.0, no.1) {
            return true;
        }
        self.are_both_live(yes.0, yes.1)
    }

    /// Returns the same as `are_both_live`, without looking whether it is known.
    #[cycle(living)]
    fn are_found_live(&mut self, first: usize, second: usize) -> bool
        requires { ArePairWithin self.old.parts first second }
        ensures parts { self.new.parts ≡ self.old.parts }
        ensures ranks { self.new.ranks ≡ self.old.ranks }
        ensures live { result ≡ are_live_of self.old first second }
    {
        match self.top(first) {
            PartTop::Leaf(found) => {
                // an active leaf is so in every outcome, and then the second decides; an inactive one never is
                if found.is_active() {
                    return self.is_live_somewhere(second);
                }
                false
            }
            PartTop::Test { condition, no, yes } => match self.top(second) {
                PartTop::Leaf(found) => {
                    // the second is active in every outcome: each side of the first is asked with it
                    if found.is_active() {
                        return self.is_either_live((no, second), (yes, second));
                    }
                    // the second is active in no outcome
                    false
                }
                PartTop::Test {
                    condition: other_condition,
                    no: other_no,
                    yes: other_yes,
                } => {
                    // both test the same condition: their sides are asked in pairs
                    if condition == other_condition {
                        return self.is_either_live((no, other_no), (yes, other_yes));
                    }
                    // the second tests an earlier condition: both its sides are asked with the first
                    if rank(self.ranks.as_slice(), other_condition)
                        < rank(self.ranks.as_slice(), condition)
                    {
                        return self.is_either_live((first, other_no), (first, other_yes));
                    }
                    // the first tests an earlier condition: both its sides are asked with the second
                    self.is_either_live((no, second), (yes, second))
                }
            },
        }
    }

    /// Whether two parts are active at once in some outcome. Both are walked down together, tests of lower ranks first.
    #[cycle(living)]
    pub fn are_both_live(&mut self, first: usize, second: usize) -> bool
        requires { ArePairWithin self.old.parts first second }
        ensures parts { self.new.parts ≡ self.old.parts }
        ensures ranks { self.new.ranks ≡ self.old.ranks }
        ensures live { result ≡ are_live_of self.old first second }
    {
        let ask = Ask::Apart { first, second };
        let place = hashed_place(first, second, 2, self.known.len());
        // only "never at once" is kept, so an answer that is there says that
        if self.answer(place, ask).is_some() {
            return false;
        }
        let live = self.are_found_live(first, second);
        // the answer needs no part: the number of the first fills its field
        if !live {
            self.keep(place, ask, first);
        }
        live
    }
}
