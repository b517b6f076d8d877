//! The tree of the places of cubes, in any order: it leads each scenario to the place of the one cube that it matches.
ghost use Rattle.std.specs.Prelude.{◌≡◌, ◌++◌, ◌≤◌, ◌<◌, ℕ, [], Contains, IfOk, IfSome, None, OnOk, false, length, map, true};
ghost use Rattle.std.specs.Bool.{OnFalse, OnTrue};
ghost use Rattle.cpg_base.specs.Scenario.{Scenario, number_of};
ghost use Rattle.cpg_base.specs.declared.limits.TheConstants.{MOST_LOAD};
ghost use Rattle.cpg_cube.specs.Cube.{IsRising, matches};
ghost use Rattle.cpg_tree.specs.Space.{IsInSpace, HasAtMostFaults};
ghost use Rattle.cpg_tree.specs.Flat.{IsFlat, flat};
ghost use Rattle.cpg_tree.specs.TreeNode.{Leaf};
ghost use Rattle.cpg_row_trees.specs.Places.{IsAmong, IsMatched, place_at, IsPlaceOfMatch};
ghost use Rattle.cpg_row_trees.specs.PlaceHints.{IsVariableRange, IsImpliedBy, IsPlacesTop, KeepsPlace, AddsPlaceTree, KeepsWhere, IsOpenCut, places_of};

use crate::gathering::gather;
use crate::slices::slice_tree;
use crate::walk::{PairTest, Test, are_all_there, do_pass, do_pass_with};
use cpg_base::{FIRST_VALUE, OutOfMemory};
use cpg_cube::{Cube, Literal};
use cpg_tree::{Space, Tally, TreeItem, plain_fork};
use std::alloc::Global;
use std::marker::Model;

/// How many items a tree may have for each cube, with `ITEMS_BESIDES` more in all, if the cubes stand as it lists them.
const ITEMS_EACH: u32 = 6;
/// How many items such a tree may have beside those for its cubes.
const ITEMS_BESIDES: u32 = 64;
/// How much a tree in any order may cost for each cube: 1 for each item, and for each fork what its sides have more than it parts.
const COST_EACH: u32 = 8;
/// How much such a tree may cost beside what it may for its cubes.
const COST_BESIDES: u32 = 104;
/// For at most this many places room is made at once on each side of a fork. Most often that is room for all of them.
const AT_ONCE: usize = 32;

/// The place of a cube in a list, with what is known of the cube in the space of a fork's side: hints, on which no proof relies.
#[derive(Clone, Copy)]
struct PlaceHint {
    place: u32,
    /// At least this many of the cube's first literals hold in the whole space.
    held: u16,
    /// How many faults the space leaves beyond those that the cube asks for.
    spare: u8,
}

/// A fork by whether a variable is at most a number.
#[derive(Clone, Copy)]
pub(crate) struct PlaceCut {
    pub(crate) variable: u8,
    /// The greatest number that goes below the fork.
    pub(crate) most: u8,
}

/// A cut, with the least and the greatest number of its variable in a space.
#[derive(Clone, Copy)]
struct CutSpan {
    cut: PlaceCut,
    least: u8,
    /// The least number above the cut.
    next: u8,
    greatest: u8,
    /// How many faults a scenario above the cut has at least by the variable: `next` for a count, and none for a value.
    faults: u8,
}

/// The range that literals leave a variable; `high` is 255 if there is no bound.
#[derive(Clone, Copy)]
struct VariableRange {
    low: u8,
    high: u8,
    /// Whether it comes from the first literal that isn't known to hold in the whole space.
    is_first: bool,
}

/// What stands at the top of the tree of some places for the scenarios of a space.
#[derive(Clone, Copy)]
enum PlacesTop {
    /// All scenarios of the space come to this place, or to none.
    Leaf(Option<u32>),
    Fork(PlaceCut),
    /// It isn't found: two cubes may match together.
    Unknown,
}

/// The places that go below a fork (`low`) and above it (`high`).
#[derive(Drop)]
struct PlaceSides {
    low: Vec<PlaceHint>,
    high: Vec<PlaceHint>,
}

/// A list to which the items of a tree are added, and how much the tree may still cost.
#[derive(Drop)]
pub(crate) struct TreeGrowth {
    pub(crate) items: Vec<TreeItem<Option<u32>>>,
    /// How many more items there may be; other costs are taken from this too.
    pub(crate) left: u32,
}

impl TreeGrowth {
    /// Returns a list without items, to which `left` may be added, with memory for a tree that has each place at one leaf.
    pub(crate) fn new(alloc: Global, places: usize, left: u32) -> Result<TreeGrowth, OutOfMemory>
        ensures items { IfOk result (λ r. r.items.items ≡ []) }
        ensures left { IfOk result (λ r. r.left ≡ left) }
    {
        let items = Vec::with_capacity(alloc, places.saturating_mul(2))?;
        Ok(TreeGrowth { items, left })
    }

    /// Whether there may be one more item, which is then counted as there.
    pub(crate) fn may_grow(&mut self) -> bool
        ensures items { self.new.items.items ≡ self.old.items.items }
        ensures left { OnTrue result (self.new.left < self.old.left) }
    {
        if self.left == 0 {
            return false;
        }
        self.left -= 1;
        true
    }

    /// Adds a leaf with a place, or with none.
    pub(crate) fn add_leaf(&mut self, place: Option<u32>) -> Result<(), OutOfMemory>
        ensures items { IfOk result (λ _. self.new.items.items ≡ self.old.items.items ++ flat (Leaf place)) }
        ensures left { self.new.left ≡ self.old.left }
    {
        self.items.push(TreeItem::Value(place))?;
        Ok(())
    }
}

/// Returns the literal on a variable at the place `from` or later, or `None`. Variables rise, so the search ends at a greater one.
pub(crate) fn literal_from(literals: &[Literal], from: usize, variable: u8) -> Option<Literal>
    ensures { IfSome result (IsImpliedBy literals.now) }
{
    for at in from..literals.len() {
        if literals[at].variable == variable {
            return Some(literals[at]);
        }
        if literals[at].variable > variable {
            return None;
        }
    }
    None
}

/// Returns the literal on a variable before the place `end`, or `None`. Variables rise, so the search ends at a lesser one.
pub(crate) fn literal_up_to(literals: &[Literal], end: usize, variable: u8) -> Option<Literal>
    ensures { IfSome result (IsImpliedBy literals.now) }
{
    let count = end.min(literals.len());
    for later in 0..count {
        let at = count - 1 - later;
        if literals[at].variable == variable {
            return Some(literals[at]);
        }
        if literals[at].variable < variable {
            return None;
        }
    }
    None
}

/// Returns the literal on a variable: on a count from the place `from` on, or on a value, as values are last. Else `None`.
fn literal_on(literals: &[Literal], from: usize, variable: u8) -> Option<Literal>
    ensures { IfSome result (IsImpliedBy literals.now) }
{
    if variable < FIRST_VALUE {
        literal_from(literals, from, variable)
    } else {
        literal_up_to(literals, literals.len(), variable)
    }
}

/// Returns the last literal on a value that isn't known to hold in the whole space; `None` if there is none. Values come last.
pub(crate) fn open_value(space: &Space, literals: &[Literal]) -> Option<Literal> {
    for later in 0..literals.len() {
        let literal = literals[literals.len() - 1 - later];
        if literal.variable < FIRST_VALUE {
            return None;
        }
        if !space.implies(&literal) {
            return Some(literal);
        }
    }
    None
}

/// Returns how many literals hold in the whole space before the first that doesn't. The first `held` are known to hold.
fn held_on(space: &Space, literals: &[Literal], held: usize) -> usize {
    for at in held..literals.len() {
        if !space.implies(&literals[at]) {
            return at;
        }
    }
    literals.len()
}

/// Returns a literal that doesn't hold in the whole space, on a value if there is one, or else the first; `None` if all hold.
fn open_literal(space: &Space, literals: &[Literal], held: u16) -> Option<Literal> {
    let value = open_value(space, literals);
    if value.is_some() {
        return value;
    }
    literals
        .get(held_on(space, literals, held as usize))
        .copied()
}

/// Returns the literal at a place; `None` exactly if there is none, or it is on another variable.
fn literal_at(literals: &[Literal], place: usize, variable: u8) -> Option<Literal>
    ensures implied { IfSome result (IsImpliedBy literals.now) }
    ensures on { IfSome result (λ l. l.variable ≡ variable) }
{
    if place >= literals.len() {
        return None;
    }
    if literals[place].variable != variable {
        return None;
    }
    Some(literals[place])
}

/// Returns the range that a literal leaves its variable.
fn literal_range(literal: Literal, is_first: bool) -> VariableRange
    ensures { result ≡ record { low = literal.low; high = literal.high; is_first = is_first } }
{
    VariableRange {
        low: literal.low,
        high: literal.high,
        is_first,
    }
}

/// Returns the range that literals leave a variable. The first `held` aren't looked at, since they hold in the whole space.
fn variable_range(literals: &[Literal], held: usize, variable: u8) -> VariableRange
    ensures { IsVariableRange literals.now variable result }
{
    if let Some(first) = literal_at(literals, held, variable) {
        return literal_range(first, true);
    }
    if let Some(literal) = literal_on(literals, held, variable) {
        if literal.variable == variable {
            return literal_range(literal, false);
        }
    }
    VariableRange {
        low: 0,
        high: u8::MAX,
        is_first: false,
    }
}

/// Returns how many first literals are known to hold in the whole space: `held`, or more if the next is before `variable`.
fn held_at(space: &Space, literals: &[Literal], held: u16, variable: u8) -> u16 {
    match literals.get(held as usize) {
        Some(literal) if literal.variable < variable && variable < FIRST_VALUE => {
            held_on(space, literals, held as usize).min(u16::MAX as usize) as u16
        }
        _ => held,
    }
}

/// Returns how many first literals hold if a variable is from `least` to `greatest`: `held`, and the next if `range` is its own.
fn held_with(held: u16, range: VariableRange, least: u8, greatest: u8) -> u16 {
    if range.is_first && range.low <= least && greatest <= range.high {
        held.saturating_add(1)
    } else {
        held
    }
}

/// Adds a place to the side below a cut, unless the cube's range of the variable is all above the cut.
fn keep_below(
    low: &mut Vec<PlaceHint>,
    range: VariableRange,
    hint: PlaceHint,
    span: CutSpan,
) -> Result<(), OutOfMemory>
    ensures { OnOk result (KeepsPlace (λ s. (number_of s span.cut.variable ≤ span.cut.most) × (range.low ≤ number_of s span.cut.variable))
        hint.place low.old.items low.new.items) }
{
    // the range has no number up to the cut
    if range.low > span.cut.most {
        return Ok(());
    }
    low.push(PlaceHint {
        place: hint.place,
        held: held_with(hint.held, range, span.least, span.cut.most),
        spare: hint.spare,
    })?;
    Ok(())
}

/// Whether the faults that a space leaves above a cut suffice for literals. `taken` is how many of the hint's spare faults the
/// fork takes; mostly these suffice. The space is as before.
fn do_suffice_above(
    space: &mut Space,
    literals: &[Literal],
    hint: PlaceHint,
    taken: u8,
    cut: PlaceCut,
) -> bool
    requires rising { IsRising literals.now }
    requires open { IsOpenCut space.old cut.variable cut.most }
    ensures none { OnFalse result ((s : Scenario) → IsInSpace space.old s → cut.most < number_of s cut.variable → matches literals.now s ≡ false) }
    ensures same { space.new ≡ space.old }
{
    if taken <= hint.spare {
        return true;
    }
    let old_low = space.close_below(cut.variable, cut.most);
    let do_suffice = space.affords(literals, hint.held as usize);
    space.reopen_below(cut.variable, old_low);
    do_suffice
}

/// Adds a place to the side above a cut, unless its range ends at or below the cut, or too few faults are left. The space is as before.
fn keep_above(
    high: &mut Vec<PlaceHint>,
    space: &mut Space,
    literals: &[Literal],
    range: VariableRange,
    hint: PlaceHint,
    span: CutSpan,
) -> Result<(), OutOfMemory>
    requires rising { IsRising literals.now }
    requires range { IsVariableRange literals.now span.cut.variable range }
    requires open { IsOpenCut space.old span.cut.variable span.cut.most }
    ensures kept { OnOk result (KeepsPlace (λ s. (IsInSpace space.old s × (span.cut.most < number_of s span.cut.variable)) × (matches literals.now s ≡ true))
        hint.place high.old.items high.new.items) }
    ensures same { space.new ≡ space.old }
{
    // the range has no number above the cut
    if range.high < span.cut.most.saturating_add(1) {
        return Ok(());
    }
    // the fork takes the faults up to the number above the cut that neither the cube nor the space asked for before
    let taken = span.faults.saturating_sub(range.low.max(span.least));
    if !do_suffice_above(space, literals, hint, taken, span.cut) {
        return Ok(());
    }
    high.push(PlaceHint {
        place: hint.place,
        held: held_with(hint.held, range, span.next, span.greatest),
        spare: hint.spare.saturating_sub(taken),
    })?;
    Ok(())
}

/// Adds a place to those sides of a fork on which some scenario may match its cube, if there is one. The space is as before.
fn keep(
    low: &mut Vec<PlaceHint>,
    high: &mut Vec<PlaceHint>,
    space: &mut Space,
    cubes: &[&Cube],
    hint: PlaceHint,
    span: CutSpan,
) -> Result<(), OutOfMemory>
    requires { IsOpenCut space.old span.cut.variable span.cut.most }
    ensures low { OnOk result (KeepsPlace (λ s. (number_of s span.cut.variable ≤ span.cut.most) × IsMatched (map (λ b. b.now) cubes.now) s hint.place)
        hint.place low.old.items low.new.items) }
    ensures high { OnOk result (KeepsPlace (λ s. (IsInSpace space.old s × (span.cut.most < number_of s span.cut.variable)) ×
        IsMatched (map (λ b. b.now) cubes.now) s hint.place) hint.place high.old.items high.new.items) }
    ensures same { OnOk result (space.new ≡ space.old) }
{
    let Some(cube) = cubes.get(hint.place as usize) else {
        return Ok(());
    };
    let literals = cube.literals();
    let held = held_at(space, literals, hint.held, span.cut.variable);
    let range = variable_range(literals, held as usize, span.cut.variable);
    let here = PlaceHint {
        place: hint.place,
        held,
        spare: hint.spare,
    };
    keep_below(low, range, here, span)?;
    keep_above(high, space, literals, range, here, span)?;
    Ok(())
}

/// Returns a cut with the numbers of its variable that a space has.
fn span_of(space: &Space, cut: PlaceCut) -> CutSpan
    ensures { result.cut ≡ cut }
{
    let next = cut.most.saturating_add(1);
    CutSpan {
        cut,
        least: space.least(cut.variable),
        next,
        greatest: space.most(cut.variable),
        faults: if cut.variable < FIRST_VALUE { next } else { 0 },
    }
}

/// Returns for each side of a fork the places whose cubes some scenario there may match. The space is as before if it answers.
fn parted(
    alloc: Global,
    space: &mut Space,
    cubes: &[&Cube],
    hints: &[PlaceHint],
    span: CutSpan,
) -> Result<PlaceSides, OutOfMemory>
    requires { IsOpenCut space.old span.cut.variable span.cut.most }
    ensures low { IfOk result (λ r. KeepsWhere (map (λ b. b.now) cubes.now) (λ s. number_of s span.cut.variable ≤ span.cut.most)
        (places_of hints.now) (places_of r.low.items)) }
    ensures high { IfOk result (λ r. KeepsWhere (map (λ b. b.now) cubes.now) (λ s. IsInSpace space.old s × (span.cut.most < number_of s span.cut.variable))
        (places_of hints.now) (places_of r.high.items)) }
    ensures same { IfOk result (λ _. space.new ≡ space.old) }
{
    let count = hints.len().min(AT_ONCE);
    let mut low = Vec::with_capacity(alloc, count)?;
    let mut high = Vec::with_capacity(alloc, count)?;
    for hint in hints {
        keep(&mut low, &mut high, space, cubes, *hint, span)?;
    }
    Ok(PlaceSides { low, high })
}

/// Returns a cut; `None` exactly if the space has no number of the variable on one of its sides.
fn open_cut(space: &Space, variable: u8, most: u8) -> Option<PlaceCut>
    ensures { IfSome result (λ r. IsOpenCut space.now r.variable r.most) }
{
    if !space.is_open_below(variable, most) {
        return None;
    }
    if !space.is_open_above(variable, most) {
        return None;
    }
    Some(PlaceCut { variable, most })
}

/// Returns the cut at which a literal parts a space, if it does: below its low, or at its high if the space begins at its low.
pub(crate) fn cut_of(space: &Space, literal: Literal) -> Option<PlaceCut>
    ensures { IfSome result (λ r. IsOpenCut space.now r.variable r.most) }
{
    let most = if literal.low > space.least(literal.variable) {
        literal.low - 1
    } else {
        literal.high
    };
    open_cut(space, literal.variable, most)
}

/// Whether all literals hold in the whole space; true only if they do.
fn do_hold(space: &Space, literals: &[Literal]) -> bool
    ensures { OnTrue result ((s : Scenario) → IsInSpace space.now s → matches literals.now s ≡ true) }
{
    for literal in literals {
        if !space.implies(literal) {
            return false;
        }
    }
    true
}

/// Returns a place's literals from the first one on that doesn't hold in the whole space; none for a place behind the cubes.
fn open_literals<'a>(space: &Space, cubes: &[&'a Cube], hint: PlaceHint) -> &'a [Literal] {
    let Some(cube) = cubes.get(hint.place as usize) else {
        return &[];
    };
    let literals = cube.literals();
    let from = literals
        .len()
        .min(held_on(space, literals, hint.held as usize));
    &literals[from..]
}

/// Adds the open literals of some places' cubes to a tally.
fn count_all(space: &Space, cubes: &[&Cube], hints: &[PlaceHint], tally: &mut Tally) {
    for hint in hints {
        tally.add(open_literals(space, cubes, *hint));
    }
}

/// Takes the open literals of some places' cubes out of a tally again.
fn clear_all(space: &Space, cubes: &[&Cube], hints: &[PlaceHint], tally: &mut Tally) {
    for hint in hints {
        tally.clear(open_literals(space, cubes, *hint));
    }
}

/// Returns the cut that parts some places best; `None` if the tally has no tables, or finds no cut that parts the space too.
fn best_cut(
    space: &Space,
    cubes: &[&Cube],
    hints: &[PlaceHint],
    tally: &mut Tally,
) -> Option<PlaceCut>
    ensures { IfSome result (λ r. IsOpenCut space.now r.variable r.most) }
{
    if !tally.has_tables() {
        return None;
    }
    let first = *hints.first()?;
    let count = u32::try_from(hints.len()).ok()?;
    count_all(space, cubes, hints, tally);
    let found = tally.best_by(open_literals(space, cubes, first), count);
    clear_all(space, cubes, hints, tally);
    let parting = found?;
    open_cut(space, parting.variable, parting.most)
}

/// Returns where to part places: where a tally says if there are two or more, or else at the first's open literal; else `None`.
fn fork_at(
    space: &Space,
    cubes: &[&Cube],
    hints: &[PlaceHint],
    literal: Literal,
    tally: &mut Tally,
) -> Option<PlaceCut>
    ensures { IfSome result (λ r. IsOpenCut space.now r.variable r.most) }
{
    if hints.len() > 1 {
        let best = best_cut(space, cubes, hints, tally);
        if best.is_some() {
            return best;
        }
    }
    cut_of(space, literal)
}

/// Returns the top of the tree of some places in a space: without places a leaf with none, and `Unknown` if a place has no cube.
fn places_top(space: &Space, cubes: &[&Cube], hints: &[PlaceHint], tally: &mut Tally) -> PlacesTop
    ensures { IsPlacesTop (map (λ b. b.now) cubes.now) space.now (places_of hints.now) result }
{
    let Some((first, rest)) = hints.split_first() else {
        return PlacesTop::Leaf(None);
    };
    let Some(cube) = cubes.get(first.place as usize) else {
        return PlacesTop::Unknown;
    };
    let literals = cube.literals();
    if let Some(literal) = open_literal(space, literals, first.held) {
        return match fork_at(space, cubes, hints, literal, tally) {
            Some(cut) => PlacesTop::Fork(cut),
            None => PlacesTop::Unknown,
        };
    }
    // the first cube matches all scenarios of the space, and another one may match some too
    if !rest.is_empty() {
        return PlacesTop::Unknown;
    }
    if !do_hold(space, literals) {
        return PlacesTop::Unknown;
    }
    PlacesTop::Leaf(Some(first.place))
}

/// Returns how much a tree may still cost behind a fork of `count` places, which costs as much as its sides have more than that.
fn left_after(left: u32, count: usize, sides: &PlaceSides) -> u32
    ensures { result ≤ left }
{
    let both = sides.low.len().saturating_add(sides.high.len());
    let shared = both.saturating_sub(count).min(u32::MAX as usize);
    left.saturating_sub(shared as u32)
}

/// Adds the tree of places that a fork parts. The answer and the space are those of `build_place_tree`.
#[cycle(build_place_tree)]
fn build_forked_places(
    alloc: Global,
    space: &mut Space,
    cubes: &[&Cube],
    hints: Vec<PlaceHint>,
    cut: PlaceCut,
    growth: &mut TreeGrowth,
    tally: &mut Tally,
) -> Result<bool, OutOfMemory>
    requires { IsOpenCut space.old cut.variable cut.most }
    ensures added { IfOk result (λ is. OnTrue is (AddsPlaceTree (map (λ b. b.now) cubes.now) space.old (places_of hints.items) growth.old growth.new)) }
    ensures same { IfOk result (λ is. OnTrue is (space.new ≡ space.old)) }
{
    let count = hints.len();
    let span = span_of(space, cut);
    let sides = parted(alloc, space, cubes, hints.as_slice(), span)?;
    drop(hints);
    growth.left = left_after(growth.left, count, &sides);
    let start = growth.items.len();
    let old_high = space.close_above(cut.variable, cut.most);
    let has_below = build_place_tree(alloc, space, cubes, sides.low, growth, tally)?;
    if !has_below {
        return Ok(false);
    }
    space.reopen_above(cut.variable, old_high);
    let middle = growth.items.len();
    let old_low = space.close_below(cut.variable, cut.most);
    let has_above = build_place_tree(alloc, space, cubes, sides.high, growth, tally)?;
    if !has_above {
        return Ok(false);
    }
    space.reopen_below(cut.variable, old_low);
    plain_fork(&mut growth.items, start, middle, cut.variable, cut.most)?;
    Ok(true)
}

/// Adds the tree of some places for a space, and leaves the space as it was. False, if none is found for the cost, guarantees nothing.
#[cycle(build_place_tree)]
fn build_place_tree(
    alloc: Global,
    space: &mut Space,
    cubes: &[&Cube],
    hints: Vec<PlaceHint>,
    growth: &mut TreeGrowth,
    tally: &mut Tally,
) -> Result<bool, OutOfMemory>
    ensures added { IfOk result (λ is. OnTrue is (AddsPlaceTree (map (λ b. b.now) cubes.now) space.old (places_of hints.items) growth.old growth.new)) }
    ensures same { IfOk result (λ is. OnTrue is (space.new ≡ space.old)) }
{
    if !growth.may_grow() {
        return Ok(false);
    }
    match places_top(space, cubes, hints.as_slice(), tally) {
        PlacesTop::Unknown => Ok(false),
        PlacesTop::Leaf(place) => {
            growth.add_leaf(place)?;
            Ok(true)
        }
        PlacesTop::Fork(cut) => build_forked_places(alloc, space, cubes, hints, cut, growth, tally),
    }
}

/// Returns how many faults literals ask for together. Counts come first, so it ends at the first value.
fn faults_asked(literals: &[Literal]) -> u8 {
    let mut faults: u8 = 0;
    for literal in literals {
        if literal.variable >= FIRST_VALUE {
            return faults;
        }
        faults = faults.saturating_add(literal.low);
    }
    faults
}

/// Adds a place, unless it has no cube or its cube asks for more than `k` faults. The space is that of scenarios of at most `k` faults.
fn admit(
    hints: &mut Vec<PlaceHint>,
    k: u8,
    space: &Space,
    cubes: &[&Cube],
    place: u32,
) -> Result<(), OutOfMemory>
    ensures { OnOk result (KeepsPlace (λ s. IsInSpace space.now s × IsMatched (map (λ b. b.now) cubes.now) s place) place hints.old.items hints.new.items) }
{
    let Some(cube) = cubes.get(place as usize) else {
        return Ok(());
    };
    let literals = cube.literals();
    let asked = faults_asked(literals);
    // `asked` is a hint, so the space has to say so too
    if asked > k {
        if !space.affords(literals, 0) {
            return Ok(());
        }
    }
    hints.push(PlaceHint {
        place,
        held: 0,
        spare: k.saturating_sub(asked),
    })?;
    Ok(())
}

/// Returns the places whose cubes some scenario of the space may match. The space is that of scenarios of at most `k` faults.
fn hints_of(
    alloc: Global,
    k: u8,
    space: &Space,
    cubes: &[&Cube],
) -> Result<Vec<PlaceHint>, OutOfMemory>
    requires { length cubes.now ≤ MOST_LOAD }
    ensures { IfOk result (λ r. (s : Scenario) (i : ℕ) → IsInSpace space.now s → IsMatched (map (λ b. b.now) cubes.now) s i → Contains (places_of r.items) i) }
{
    let mut hints = Vec::with_capacity(alloc, cubes.len())?;
    // at most `MOST_LOAD` cubes, so their places fit a `u32`
    for place in 0..cubes.len() as u32 {
        admit(&mut hints, k, space, cubes, place)?;
    }
    Ok(hints)
}

/// Returns the tree of places for at most `k` faults, by forks that `tally` chooses. One above `most_cost` is `None`, which guarantees nothing.
fn place_tree_by(
    alloc: Global,
    k: u8,
    cubes: &[&Cube],
    most_cost: u32,
    tally: &mut Tally,
) -> Result<Option<Places>, OutOfMemory>
    requires { length cubes.now ≤ MOST_LOAD }
    ensures { IfOk result (λ r. IfSome r (λ t. (s : Scenario) → HasAtMostFaults k s → IsPlaceOfMatch (map (λ b. b.now) cubes.now) (place_at t s) s)) }
{
    let mut space = Space::whole(k);
    let hints = hints_of(alloc, k, &space, cubes)?;
    let mut growth = TreeGrowth::new(alloc, cubes.len(), most_cost)?;
    let has_tree = build_place_tree(alloc, &mut space, cubes, hints, &mut growth, tally)?;
    if !has_tree {
        return Ok(None);
    }
    Ok(Some(Places::grown(growth)))
}

/// Does what `place_tree_by` does, by forks at the first open literal, which is faster, or if that fails, by the best forks.
fn place_tree(
    alloc: Global,
    k: u8,
    cubes: &[&Cube],
    most_cost: u32,
) -> Result<Option<Places>, OutOfMemory>
    requires { length cubes.now ≤ MOST_LOAD }
    ensures { IfOk result (λ r. IfSome r (λ t. (s : Scenario) → HasAtMostFaults k s → IsPlaceOfMatch (map (λ b. b.now) cubes.now) (place_at t s) s)) }
{
    // a tally without tables finds no cut
    let mut tally = Tally::new(alloc);
    if let Some(places) = place_tree_by(alloc, k, cubes, most_cost, &mut tally)? {
        return Ok(Some(places));
    }
    tally.make_tables(alloc)?;
    let places = place_tree_by(alloc, k, cubes, most_cost, &mut tally)?;
    Ok(places)
}

/// A tree that leads each scenario to the place of the one cube that it matches, or to none. It is seen as its items.
#[derive(Drop)]
pub struct Places {
    items: Vec<TreeItem<Option<u32>>>,
}

impl Model for Places {
    ghost use Rattle.cpg_row_trees.specs.PlacesState.{PlacesState};
    ghost use Rattle.cpg_tree.specs.Flat.{IsFlat};

    ghost Value = { PlacesState };

    ghost view = { λ p. record { items = p.items.items } };

    ghost invariant = { λ p. IsFlat p.items.items };
}

impl Places {
    /// Returns the tree that a list has grown to.
    pub(crate) fn grown(growth: TreeGrowth) -> Places
        requires { IsFlat growth.items.items }
        ensures { result ≡ record { items = growth.items.items } }
    {
        Places {
            items: growth.items,
        }
    }

    /// Returns the tree of places for scenarios of at most `k` faults. `None` guarantees nothing; `OutOfMemory` is the one error.
    pub fn of(alloc: Global, k: u8, cubes: &[&Cube]) -> Result<Option<Places>, OutOfMemory>
        requires { length cubes.now ≤ MOST_LOAD }
        ensures { IfOk result (λ r. IfSome r (λ t. (s : Scenario) → HasAtMostFaults k s → IsPlaceOfMatch (map (λ b. b.now) cubes.now) (place_at t s) s)) }
    {
        // there are at most `MOST_LOAD` cubes, so this and the cost fit a `u32`
        let most_items = cubes.len() as u32 * ITEMS_EACH + ITEMS_BESIDES;
        // rows mostly stand as a tree lists them, and then this is faster
        if let Some(places) = slice_tree(alloc, k, cubes, most_items)? {
            return Ok(Some(places));
        }
        let most_cost = cubes.len() as u32 * COST_EACH + COST_BESIDES;
        let places = place_tree(alloc, k, cubes, most_cost)?;
        Ok(places)
    }

    /// Whether each scenario comes to a place: no leaf is without one. True only if so.
    pub fn are_everywhere(&self) -> bool
        ensures { OnTrue result ((s : Scenario) → place_at self.now s ≡ None → ⊥) }
    {
        are_all_there(self.items.as_slice())
    }

    /// Whether a test passes at each place that scenarios of a space come to, and at no place if some come to none.
    pub fn do_pass<J: Test>(&self, space: &Space, test: &J) -> bool
        ensures { OnTrue result ((s : Scenario) → IsInSpace space.now s → J.guarantees test.now (place_at self.now s) s) }
    {
        do_pass(self.items.as_slice(), space, test)
    }

    /// Whether a test passes at each pair of places to which a scenario of the space comes here and in another tree.
    pub fn do_pass_with<J: PairTest>(&self, other: &Places, space: &Space, test: &J) -> bool
        ensures { OnTrue result ((s : Scenario) → IsInSpace space.now s → J.guarantees test.now (place_at self.now s) (place_at other.now s) s) }
    {
        do_pass_with(self.items.as_slice(), other.items.as_slice(), space, test)
    }

    /// Adds the places that scenarios of a space come to; stops with false at the first leaf that has none, or that fails a test.
    pub fn gather<J: Test>(
        &self,
        space: &Space,
        test: &J,
        found: &mut Vec<u32>,
    ) -> Result<bool, OutOfMemory>
        ensures { IfOk result (λ all. OnTrue all ((s : Scenario) → IsInSpace space.now s → J.guarantees test.now (place_at self.now s) s ×
            IsAmong found.new.items (place_at self.now s))) }
    {
        let all = gather(self.items.as_slice(), space, test, found)?;
        Ok(all)
    }
}
