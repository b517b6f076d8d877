//! Cubes: lists of literals with rising variables, and which scenarios they match.
ghost use Rattle.std.specs.Prelude.{◌≡◌, ◌<◌, ◌↔◌, ◌++◌, ◌∷◌, [], ◌&&◌, if◌then◌else◌, ℕ, List, None, Some, All, IfErr, IfNone, IfOk, IfSome, IsTrue, false, true, get_or, length, nat_le, position};
ghost use Rattle.std.specs.Bool.{OnFalse, OnTrue};
ghost use Rattle.cpg_base.specs.Graph.{condition_count, process_count};
ghost use Rattle.cpg_base.specs.Limits.{IsWithinLimits};
ghost use Rattle.cpg_base.specs.First.{IsFirst};
ghost use Rattle.cpg_base.specs.Scenario.{Scenario, IsScenario, IsLeast};
ghost use Rattle.cpg_cube.specs.Cube.{IsRising, holds, matches};
ghost use Rattle.cpg_cube.specs.Rising.{rises_from};
ghost use Rattle.cpg_cube.specs.Fit.{IsCube, IsKnown, is_met, lows, do_meet, both_lows, is_within, scenario_of};
ghost use Rattle.cpg_cube.specs.Narrow.{narrowed_by, range_left, with_literal};
ghost use Rattle.cpg_cube.specs.Undo.{IsOn, IsUndo, left_of, restored};

use crate::Literal;
use crate::bounds::{Bounds, budget_left};
use cpg_base::{OutOfMemory, Problem, Scenario};
use smallvec::SmallVec;
use std::alloc::Global;
use std::marker::Model;

/// How many literals a cube holds without memory of its own: as many as most cubes have.
const INLINE_LITERALS: usize = 8;

/// A cube, seen as the list of its literals, whose variables rise. It matches a scenario if each literal holds; a variable
/// without a literal may be any number.
#[derive(Drop)]
pub struct Cube {
    /// The literals, by rising variable.
    literals: SmallVec<Literal, INLINE_LITERALS>,
}

impl Model for Cube {
    ghost use Rattle.std.specs.Prelude.{List};
    ghost use Rattle.cpg_cube.specs.Cube.{Literal, IsRising};

    ghost Value = { List Literal };

    ghost view = { λ c. c.literals.items };

    ghost invariant = { λ c. IsRising c.literals.items };
}

/// What it takes to undo the narrowing of a cube by a literal.
#[derive(Clone, Copy)]
pub struct Narrowing {
    /// The place in the cube of the literal on the narrowed variable.
    pub place: usize,
    /// The literal on the variable from before; `None` if there was none.
    pub was: Option<Literal>,
}

impl Narrowing {
    /// Returns the range that is left of a literal's variable: its own, met with the literal from before if there was one.
    pub fn left(&self, literal: Literal) -> Literal
        ensures { result ≡ left_of literal self.now.was }
    {
        match self.was {
            Some(was) => literal.met(was),
            None => literal,
        }
    }
}

/// Whether each variable is greater than the one before. It never stops early, so that the compiler compares
/// several at once.
fn do_variables_rise(literals: &[Literal]) -> bool
    ensures { result ≡ rises_from 0 literals.now }
{
    let Some((first, rest)) = literals.split_first() else {
        return true;
    };
    let mut do_rise = true;
    let mut previous = first.variable;
    for literal in rest {
        do_rise &= previous < literal.variable;
        previous = literal.variable;
    }
    do_rise
}

/// Returns the place of the first literal on `variable` or a greater one; `None` exactly if there is none.
pub fn first_literal_from(literals: &[Literal], variable: u8) -> Option<usize>
    ensures place { result ≡ position (λ l. nat_le variable l.variable) literals.now }
    ensures within { IfSome result (λ place. place < length literals.now) }
{
    literals
        .iter()
        .position(|literal| variable <= literal.variable)
}

/// Whether `variable` is greater than those of all literals.
pub fn is_above(literals: &[Literal], variable: u8) -> bool
    requires { IsRising literals.now }
    ensures { OnTrue result (All (λ l. l.variable < variable) literals.now) }
{
    match literals.last() {
        Some(last) => last.variable < variable,
        None => true,
    }
}

/// Meets the literal on the same variable with this one, or puts this one in, by its variable, if there is none. Returns how
/// to undo that. At the one error, `OutOfMemory`, the literals are as before.
fn narrow(
    literals: &mut SmallVec<Literal, INLINE_LITERALS>,
    literal: Literal,
) -> Result<Narrowing, OutOfMemory>
    ensures narrowed { IfOk result (λ _. literals.new.items ≡ narrowed_by literal literals.old.items) }
    ensures undo { IfOk result (λ n. IsUndo n literals.new.items literals.old.items) }
    ensures on { IfOk result (λ n. IsOn literal.variable n literals.new.items) }
    ensures same { IfErr result (λ _. literals.new.items ≡ literals.old.items) }
{
    // all variables are below this one, so the literal goes to the end
    let Some(place) = first_literal_from(literals.as_slice(), literal.variable) else {
        let place = literals.len();
        literals.push(literal)?;
        return Ok(Narrowing { place, was: None });
    };
    let other = literals.as_slice()[place];
    // the variable has a literal, which is met with this one
    if other.variable == literal.variable {
        literals.as_mut_slice()[place] = literal.met(other);
        return Ok(Narrowing {
            place,
            was: Some(other),
        });
    }
    // the variable has no literal yet
    literals.insert(place, literal)?;
    Ok(Narrowing { place, was: None })
}

/// Does what `narrow` does, without a search if the variable is above all others, as is usual along a path.
fn put(
    literals: &mut SmallVec<Literal, INLINE_LITERALS>,
    literal: Literal,
) -> Result<Narrowing, OutOfMemory>
    requires { IsRising literals.old.items }
    ensures narrowed { IfOk result (λ _. literals.new.items ≡ narrowed_by literal literals.old.items) }
    ensures undo { IfOk result (λ n. IsUndo n literals.new.items literals.old.items) }
    ensures on { IfOk result (λ n. IsOn literal.variable n literals.new.items) }
    ensures same { IfErr result (λ _. literals.new.items ≡ literals.old.items) }
{
    // the usual case: the literal goes to the end
    if is_above(literals.as_slice(), literal.variable) {
        let place = literals.len();
        literals.push(literal)?;
        return Ok(Narrowing { place, was: None });
    }
    narrow(literals, literal)
}

/// Returns a copy of these literals. The one error is `OutOfMemory`.
fn copied(
    alloc: Global,
    literals: &[Literal],
) -> Result<SmallVec<Literal, INLINE_LITERALS>, OutOfMemory>
    ensures { IfOk result (λ copy. copy.items ≡ literals.now) }
{
    // few literals need no memory of their own
    if literals.len() <= INLINE_LITERALS {
        let copy = SmallVec::from_slice(alloc, literals)?;
        return Ok(copy);
    }
    // a `Vec` copies many at once
    let mut copy = Vec::with_capacity(alloc, literals.len())?;
    copy.extend_from_slice(literals)?;
    Ok(SmallVec::from_vec(copy))
}

/// Returns a copy of the literals `front` with `rest` behind them. The one error is `OutOfMemory`.
fn copied_together(
    alloc: Global,
    front: &[Literal],
    rest: &[Literal],
) -> Result<SmallVec<Literal, INLINE_LITERALS>, OutOfMemory>
    ensures { IfOk result (λ copy. copy.items ≡ front.now ++ rest.now) }
{
    // `rest` alone may be few literals, which need no memory of their own
    if front.is_empty() {
        let copy = copied(alloc, rest)?;
        return Ok(copy);
    }
    let mut copy = Vec::with_capacity(alloc, front.len().saturating_add(rest.len()))?;
    copy.extend_from_slice(front)?;
    copy.extend_from_slice(rest)?;
    Ok(SmallVec::from_vec(copy))
}

/// Whether the variables of `front`, which rise, and then those of `rest` rise together.
fn do_rise_behind(front: &[Literal], rest: &[Literal]) -> bool
    requires { IsRising front.now }
    ensures { IsTrue result ↔ IsRising (front.now ++ rest.now) }
{
    // without a front, only the variables of `rest` have to rise
    let Some(last) = front.last() else {
        return do_variables_rise(rest);
    };
    // without a rest, only those of the front have to rise, and they do
    let Some((first, _)) = rest.split_first() else {
        return true;
    };
    // the rest doesn't begin above the end of the front
    if last.variable >= first.variable {
        return false;
    }
    do_variables_rise(rest)
}

impl Cube {
    /// Returns the cube without literals, which matches every scenario.
    pub fn whole(alloc: Global) -> Cube
        ensures { result ≡ [] }
    {
        Cube {
            literals: SmallVec::new(alloc),
        }
    }

    /// Returns the cube of these literals; `None` exactly if their variables don't rise. The one error is `OutOfMemory`.
    pub fn new(alloc: Global, literals: &[Literal]) -> Result<Option<Cube>, OutOfMemory>
        ensures cube { IfOk result (λ r. IfSome r (λ cube. cube ≡ literals.now)) }
        ensures rising { IfOk result (λ r. IfSome r (λ _. IsRising literals.now)) }
        ensures refused { IfOk result (λ r. IfNone r (¬ IsRising literals.now)) }
    {
        if !do_variables_rise(literals) {
            return Ok(None);
        }
        let literals = copied(alloc, literals)?;
        Ok(Some(Cube { literals }))
    }

    /// Returns the cube of the literals `front`, whose variables rise, with `rest` behind them; `None` exactly if their
    /// variables don't rise together. The one error is `OutOfMemory`.
    pub fn joined(
        alloc: Global,
        front: &[Literal],
        rest: &[Literal],
    ) -> Result<Option<Cube>, OutOfMemory>
        requires front { IsRising front.now }
        ensures cube { IfOk result (λ r. IfSome r (λ cube. cube ≡ front.now ++ rest.now)) }
        ensures rising { IfOk result (λ r. IfSome r (λ _. IsRising (front.now ++ rest.now))) }
        ensures refused { IfOk result (λ r. IfNone r (¬ IsRising (front.now ++ rest.now))) }
    {
        if !do_rise_behind(front, rest) {
            return Ok(None);
        }
        let literals = copied_together(alloc, front, rest)?;
        Ok(Some(Cube { literals }))
    }

    /// Adds a literal on a variable above all others. At the one error, `OutOfMemory`, the cube is as before.
    pub fn push(&mut self, literal: Literal) -> Result<(), OutOfMemory>
        requires last { All (λ l. l.variable < literal.variable) self.old }
        ensures pushed { IfOk result (λ _. self.new ≡ self.old ++ literal ∷ []) }
        ensures same { IfErr result (λ _. self.new ≡ self.old) }
    {
        self.literals.push(literal)?;
        Ok(())
    }

    /// Returns the literals, by rising variable.
    pub fn literals(&self) -> &[Literal]
        ensures literals { result.now ≡ self.now }
        ensures rising { IsRising self.now }
    {
        self.literals.as_slice()
    }

    /// Returns an equal cube. The one error is `OutOfMemory`.
    pub fn copy(&self) -> Result<Cube, OutOfMemory>
        ensures { IfOk result (λ cube. cube ≡ self.now) }
    {
        let literals = copied(*self.literals.allocator(), self.literals.as_slice())?;
        Ok(Cube { literals })
    }

    /// Whether each variable is one of the problem's, as calls with a problem require.
    pub fn is_known(&self, problem: &Problem) -> bool
        ensures { IsTrue result ↔ IsKnown problem.now self.now }
    {
        let processes = problem.processes().len();
        let conditions = problem.conditions();
        self.literals()
            .iter()
            .all(|literal| literal.is_known(processes, conditions))
    }

    /// Whether the cube matches a scenario: each literal holds in it.
    pub fn matches(&self, scenario: &Scenario) -> bool
        ensures { result ≡ matches self.now scenario.now }
    {
        self.literals()
            .iter()
            .all(|literal| literal.holds(scenario))
    }

    /// Returns the range that narrowing by a literal leaves its variable: met with the cube's literal on it, if there is one.
    fn range_left(&self, literal: Literal) -> Literal
        ensures { result ≡ range_left literal self.now }
    {
        for other in self.literals() {
            if other.variable == literal.variable {
                return literal.met(*other);
            }
        }
        literal
    }

    /// Does what `range_left` does, without a search if the variable is above all others.
    fn range_with(&self, literal: Literal) -> Literal
        ensures { result ≡ range_left literal self.now }
    {
        if is_above(self.literals(), literal.variable) {
            return literal;
        }
        self.range_left(literal)
    }

    /// Returns the cube narrowed by a literal, even if that leaves its variable no number.
    fn narrowed(&self, literal: Literal) -> Result<Cube, OutOfMemory>
        ensures { IfOk result (λ cube. cube ≡ narrowed_by literal self.now) }
    {
        let own = self.literals();
        // room in steps of `INLINE_LITERALS`, since most narrowings add a literal, and most cubes are narrowed again
        let room = (own.len() / INLINE_LITERALS + 1) * INLINE_LITERALS;
        let mut literals = SmallVec::with_capacity(*self.literals.allocator(), room)?;
        literals.extend_from_slice(own)?;
        put(&mut literals, literal)?;
        Ok(Cube { literals })
    }

    /// Returns the cube that matches the scenarios that this one matches and in which the literal holds; `None` exactly if that
    /// leaves the literal's variable no number. The one error is `OutOfMemory`.
    pub fn with(&self, literal: Literal) -> Result<Option<Cube>, OutOfMemory>
        ensures cube { IfOk result (λ r. r ≡ with_literal literal self.now) }
        ensures both { IfOk result (λ r. IfSome r (λ cube. (s : Scenario) → matches cube s ≡ (holds s literal && matches self.now s))) }
        ensures none { IfOk result (λ r. IfNone r ((s : Scenario) → (holds s literal && matches self.now s) ≡ false)) }
    {
        let left = self.range_with(literal);
        // the range that is left is empty
        if left.low > left.high {
            return Ok(None);
        }
        let cube = self.narrowed(literal)?;
        Ok(Some(cube))
    }

    /// Becomes what `with` answers, and returns how to undo that; `None` exactly if `with` answers `None`. Then, and at the one
    /// error, `OutOfMemory`, the cube stays as it is.
    pub fn narrow(&mut self, literal: Literal) -> Result<Option<Narrowing>, OutOfMemory>
        ensures narrowed { IfOk result (λ r. IfSome r (λ _. with_literal literal self.old ≡ Some self.new)) }
        ensures undo { IfOk result (λ r. IfSome r (λ n. IsUndo n self.new self.old)) }
        ensures on { IfOk result (λ r. IfSome r (λ n. IsOn literal.variable n self.new)) }
        ensures none { IfOk result (λ r. IfNone r (with_literal literal self.old ≡ None)) }
        ensures same { IfOk result (λ r. IfNone r (self.new ≡ self.old)) }
        ensures kept { IfErr result (λ _. self.new ≡ self.old) }
        ensures rising { IsRising self.old }
    {
        let left = self.range_with(literal);
        // the range that is left is empty
        if left.high < left.low {
            return Ok(None);
        }
        let narrowed = put(&mut self.literals, literal)?;
        Ok(Some(narrowed))
    }

    /// Undoes a narrowing: the cube becomes what it was before.
    pub fn restore(&mut self, narrowed: Narrowing)
        requires place { narrowed.place < length self.old }
        requires rising { IsRising (restored narrowed self.old) }
        ensures back { self.new ≡ restored narrowed self.old }
        ensures rising { IsRising self.old }
    {
        match narrowed.was {
            Some(literal) => self.literals.as_mut_slice()[narrowed.place] = literal,
            None => {
                self.literals.remove(narrowed.place);
            }
        }
    }

    /// Undoes a narrowing and narrows the cube by another literal on the same variable instead. It returns false exactly if that
    /// leaves the variable no number; then the narrowing is undone, and the cube isn't narrowed again.
    pub fn exchange(&mut self, narrowed: Narrowing, literal: Literal) -> bool
        requires place { narrowed.place < length self.old }
        requires rising { IsRising (restored narrowed self.old) }
        requires on { IsOn literal.variable narrowed self.old }
        ensures narrowed { OnTrue result (with_literal literal (restored narrowed self.old) ≡ Some self.new) }
        ensures undo { OnTrue result (IsUndo narrowed self.new (restored narrowed self.old)) }
        ensures none { OnFalse result (with_literal literal (restored narrowed self.old) ≡ None) }
        ensures same { OnFalse result (self.new ≡ restored narrowed self.old) }
    {
        let left = narrowed.left(literal);
        // the range that is left is empty
        if left.high < left.low {
            self.restore(narrowed);
            return false;
        }
        self.literals.as_mut_slice()[narrowed.place] = left;
        true
    }

    /// Whether the cube matches some scenario of at most `k` faults.
    pub fn is_met(&self, k: u8) -> bool
        ensures met { result ≡ is_met k self.now }
        ensures rising { IsRising self.now }
    {
        budget_left(k, self.literals()).is_some()
    }

    /// Returns the scenario in which each variable has the low of its range.
    fn lows(&self, alloc: Global, problem: &Problem) -> Result<Scenario, OutOfMemory>
        ensures { IfOk result (λ s. s ≡ lows problem.now self.now) }
    {
        let mut least = Scenario::zero(alloc, problem)?;
        Bounds::of(self.literals()).write_lows(problem, &mut least);
        Ok(least)
    }

    /// Returns the least scenario that the cube matches, which is the least along every order of the processes; `None` exactly
    /// if it matches none within the problem's faults. The one error is `OutOfMemory`.
    pub fn least(&self, alloc: Global, problem: &Problem) -> Result<Option<Scenario>, OutOfMemory>
        requires known { IsKnown problem.now self.now }
        ensures exact { IfOk result (λ r. r ≡ (if is_met problem.now.faults self.now then Some (lows problem.now self.now) else None)) }
        ensures first { IfOk result (λ r. (order : List ℕ) → IsFirst problem.now order (matches self.now) r) }
    {
        if !self.is_met(problem.faults()) {
            return Ok(None);
        }
        let least = self.lows(alloc, problem)?;
        Ok(Some(least))
    }

    /// Returns this cube's bounds with each low raised to that of another cube, if that is greater; `None` exactly if no scenario
    /// within the problem's faults matches both cubes.
    fn raised_bounds(&self, other: &Cube, problem: &Problem) -> Option<Bounds>
        requires first { IsKnown problem.now self.now }
        requires second { IsKnown problem.now other.now }
        ensures none { IfNone result (do_meet problem.now self.now other.now ≡ false) }
        ensures some { IfSome result (λ _. do_meet problem.now self.now other.now ≡ true) }
        ensures lows { IfSome result (λ b. scenario_of problem.now (λ v. get_or b.low v 0) ≡ both_lows problem.now self.now other.now) }
        ensures cubes { IsCube problem.now self.now × IsCube problem.now other.now }
        ensures limits { IsWithinLimits problem.now }
    {
        let k = problem.faults();
        let literals = other.literals();
        // this cube alone matches no scenario
        let Some(left) = budget_left(k, self.literals()) else {
            return None;
        };
        let mut bounds = Bounds::of(self.literals());
        // the two have no number of some variable in common, or ask for more faults than `k`
        if !bounds.fits(k, left, literals) {
            return None;
        }
        bounds.raise(literals);
        Some(bounds)
    }

    /// Whether some scenario within the problem's faults matches this cube and another. If so, the least of them, which is
    /// the least along every order of the processes, is written to `least`; if not, `least` stays as it was.
    pub fn meets(&self, other: &Cube, problem: &Problem, least: &mut Scenario) -> bool
        requires first { IsKnown problem.now self.now }
        requires second { IsKnown problem.now other.now }
        requires values { length least.old.values ≡ condition_count problem.now }
        requires faults { length least.old.faults ≡ process_count problem.now }
        ensures exact { result ≡ do_meet problem.now self.now other.now }
        ensures least { OnTrue result ((order : List ℕ) → IsLeast problem.now order (λ s. IsTrue (matches self.now s && matches other.now s)) least.new) }
        ensures apart { OnFalse result ((s : Scenario) → IsScenario problem.now s → (matches self.now s && matches other.now s) ≡ false) }
        ensures same { OnFalse result (least.new ≡ least.old) }
    {
        let Some(bounds) = self.raised_bounds(other, problem) else {
            return false;
        };
        bounds.write_lows(problem, least);
        true
    }

    /// Whether another cube matches each scenario within the problem's faults that this cube matches.
    pub fn within(&self, other: &Cube, problem: &Problem) -> bool
        requires first { IsKnown problem.now self.now }
        requires second { IsKnown problem.now other.now }
        ensures exact { result ≡ is_within problem.now.faults self.now other.now }
        ensures all { IsTrue result ↔ ((s : Scenario) → IsScenario problem.now s → matches self.now s ≡ true → matches other.now s ≡ true) }
    {
        self.is_within(other, problem)
    }

    /// Does what `within` does. Its contract also says that both are cubes of the problem, and that the problem is within its
    /// limits; from these the clause `all` of `within` follows.
    fn is_within(&self, other: &Cube, problem: &Problem) -> bool
        requires first { IsKnown problem.now self.now }
        requires second { IsKnown problem.now other.now }
        ensures exact { result ≡ is_within problem.now.faults self.now other.now }
        ensures cubes { IsCube problem.now self.now × IsCube problem.now other.now }
        ensures limits { IsWithinLimits problem.now }
    {
        let literals = other.literals();
        // a cube that matches no scenario lies within every cube
        let Some(left) = budget_left(problem.faults(), self.literals()) else {
            return true;
        };
        let bounds = Bounds::of(self.literals());
        bounds.span_all(left, literals)
    }
}
