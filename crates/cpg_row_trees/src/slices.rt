//! The tree of the places of cubes that stand in the order in which the tree lists them: each fork parts the cubes in two
//! slices, so that no cube is visited except at its own leaf and when a border is looked for.
ghost use Rattle.std.specs.Prelude.{◌+◌, ◌≡◌, ◌≤◌, ◌<◌, IfOk, IfSome, Some, length, map, true};
ghost use Rattle.std.specs.Bool.{OnTrue};
ghost use Rattle.cpg_base.specs.Scenario.{Scenario};
ghost use Rattle.cpg_base.specs.declared.limits.TheConstants.{MOST_LOAD};
ghost use Rattle.cpg_cube.specs.Cube.{IsRising, holds};
ghost use Rattle.cpg_tree.specs.Space.{IsInSpace, HasAtMostFaults, is_open_above};
ghost use Rattle.cpg_row_trees.specs.Places.{place_at, IsPlaceOfMatch};
ghost use Rattle.cpg_row_trees.specs.PlaceHints.{IsOpenCut};
ghost use Rattle.cpg_row_trees.specs.Slices.{IsForkSpace, IsSliceTop, AddsSliceTree, IsInside, IsLastOn, IsEntered, IsOwn, AreSpaceBounds, AreForkSides, is_narrow, left_by, met_by, narrowed};

use crate::listed::listed_tree;
use crate::places::{
    PlaceCut, Places, TreeGrowth, cut_of, literal_from, literal_up_to, open_value,
};
use cpg_base::{OutOfMemory, top};
use cpg_cube::{Cube, Literal};
use cpg_tree::{Space, plain_fork};
use std::alloc::Global;

/// How to guess the variable by which a slice is parted. No clause speaks of it.
#[derive(Clone, Copy)]
enum GuessedWay {
    /// By the first literal that doesn't hold in the whole space: right if the tree tests variables in the order of their
    /// numbers.
    ByNumber,
    /// By the first literal of the first cube that the last cube lies above: right if the tree tests them in another order.
    ByEnds,
}

/// Cubes that stand together in the list, in the space of a place of the tree.
#[derive(Clone, Copy)]
struct Slice {
    /// The place of the first cube.
    from: u32,
    /// The place behind the last cube.
    to: u32,
    /// How many variables of the space may be narrower than in all scenarios.
    narrow: u32,
    /// Where in a cube's literals to look first for one that parts the space: a hint, of which no clause speaks.
    held: usize,
    /// How the variable that parts the slice is guessed.
    way: GuessedWay,
}

/// Where a slice is parted.
#[derive(Clone, Copy)]
struct SlicePart {
    /// The cut.
    cut: PlaceCut,
    /// How many literals of the slice's first cube come before the one on the cut's variable: a hint.
    held: usize,
}

/// What a fork says of its sides: the literals that hold there.
#[derive(Clone, Copy)]
struct ForkSides {
    /// The variable is at most the cut.
    below: Literal,
    /// The variable is above the cut.
    above: Literal,
}

/// What stands at the top of the tree of a slice for the scenarios of a space.
#[derive(Clone, Copy)]
enum SliceTop {
    /// A leaf: all scenarios of the space come to this place, or to none.
    Leaf(Option<u32>),
    /// A fork.
    Fork(SlicePart),
    /// It isn't found: the cubes don't stand as a tree lists them.
    Unknown,
}

/// Whether a variable is narrow in a space: its range has fewer numbers than in all scenarios of at most `k` faults.
fn is_narrow(k: u8, space: &Space, variable: u8) -> bool
    ensures { result ≡ is_narrow k space.now variable }
{
    // low numbers are left out
    if space.low[variable as usize] > 0 {
        return true;
    }
    space.high[variable as usize] < top(k, variable)
}

/// Whether all numbers of a literal are in the space's range of its variable.
fn is_inside(space: &Space, literal: &Literal) -> bool
    ensures { OnTrue result (IsInside space.now literal.now) }
{
    // the literal has a number below the range
    if literal.low < space.low[literal.variable as usize] {
        return false;
    }
    literal.high <= space.high[literal.variable as usize]
}

/// Whether a literal has all numbers of the space's range of its variable.
fn is_filled(space: &Space, literal: &Literal) -> bool
    ensures { OnTrue result ((s : Scenario) → IsInSpace space.now s → holds s literal.now ≡ true) }
{
    // the range has a number below the literal
    if space.low[literal.variable as usize] < literal.low {
        return false;
    }
    space.high[literal.variable as usize] <= literal.high
}

/// Whether a literal holds in the whole space and has no number outside its range; true only if so.
fn is_bound(space: &Space, literal: &Literal) -> bool
    ensures hold { OnTrue result ((s : Scenario) → IsInSpace space.now s → holds s literal.now ≡ true) }
    ensures inside { OnTrue result (IsInside space.now literal.now) }
{
    if !is_inside(space, literal) {
        return false;
    }
    // usually it has all numbers of the range, and then the faults left don't matter
    if is_filled(space, literal) {
        return true;
    }
    space.implies(literal)
}

/// Returns 1 if a variable is narrow in a space, and otherwise 0.
fn narrowed(k: u8, space: &Space, variable: u8) -> u32
    ensures { result ≡ narrowed k space.now variable }
{
    if is_narrow(k, space, variable) { 1 } else { 0 }
}

/// Returns how many variables may be narrow once this one is too, if at most `narrow` are so far; `None` if that doesn't fit
/// a `u32`.
fn narrow_with(k: u8, space: &Space, variable: u8, narrow: u32) -> Option<u32>
    ensures { IfSome result (λ n. narrow + 1 ≤ n + narrowed k space.now variable) }
{
    narrow.checked_add(1 - narrowed(k, space, variable))
}

/// Returns how many of the literals are on narrow variables; `None` if one doesn't hold in the whole space or has a number
/// outside its range.
fn bounds_of(k: u8, space: &Space, literals: &[Literal]) -> Option<u32>
    ensures { IfSome result (AreSpaceBounds k space.now literals.now) }
{
    let mut found: u32 = 0;
    for literal in literals {
        if !is_bound(space, literal) {
            return None;
        }
        found = found.saturating_add(narrowed(k, space, literal.variable));
    }
    Some(found)
}

/// Whether the scenarios of at most `k` faults in a space are those that literals match; true only if they are.
fn is_their_own(k: u8, space: &Space, narrow: u32, literals: &[Literal]) -> bool
    requires rising { IsRising literals.now }
    requires reached { IsForkSpace k space.now narrow }
    ensures { OnTrue result (IsOwn k space.now literals.now) }
{
    // as many narrow variables as literals on them: no range is narrower than the literals say
    match bounds_of(k, space, literals) {
        Some(found) => narrow <= found,
        None => false,
    }
}

/// Returns what a fork says of its sides. Its contract also says how long the lists of a space are, which is known here,
/// where they are read.
fn sides_of(k: u8, space: &Space, cut: PlaceCut) -> ForkSides
    requires { is_open_above space.now cut.variable cut.most ≡ true }
    ensures sides { AreForkSides k cut.variable cut.most result }
    ensures lows { length space.now.low ≡ 256 }
    ensures highs { length space.now.high ≡ 256 }
{
    // each read is for its contract: its list has 256 numbers, and as the high fits its type, `cut.most + 1` does
    let _low = space.low[cut.variable as usize];
    let _high = space.high[cut.variable as usize];
    ForkSides {
        below: Literal {
            variable: cut.variable,
            low: 0,
            high: cut.most,
        },
        above: Literal {
            variable: cut.variable,
            low: cut.most + 1,
            high: top(k, cut.variable),
        },
    }
}

/// Returns what two literals on a variable have in common.
fn met_by(last: Literal, literal: Literal) -> Literal
    ensures { result ≡ met_by last literal }
{
    Literal {
        variable: last.variable,
        low: last.low.max(literal.low),
        high: last.high.min(literal.high),
    }
}

/// Returns the last of some literals if it is on this variable; `None` otherwise.
fn last_on(literals: &[Literal], variable: u8) -> Option<Literal>
    ensures { IfSome result (IsLastOn literals.now variable) }
{
    let last = *literals.last()?;
    if last.variable != variable {
        return None;
    }
    Some(last)
}

/// Replaces the last literal of a path.
fn put_last(path: &mut Vec<Literal>, literal: Literal)
    requires { 0 < length path.old.items }
    ensures { path.new.items ≡ left_by (Some literal) path.old.items }
{
    let last = path.len() - 1;
    path[last] = literal;
}

/// Adds to the literals of a path what a fork says of a side. If the last literal is on its variable, it is met with
/// that, and the answer is what it was before; otherwise the answer is `None`. `leave` takes the answer to undo this.
fn enter(path: &mut Vec<Literal>, literal: Literal) -> Result<Option<Literal>, OutOfMemory>
    ensures { IfOk result (IsEntered path.old.items literal path.new.items) }
{
    match last_on(path.as_slice(), literal.variable) {
        Some(last) => {
            put_last(path, met_by(last, literal));
            Ok(Some(last))
        }
        None => {
            path.push(literal)?;
            Ok(None)
        }
    }
}

/// Takes back what `enter` added, given its answer: the last literal becomes `was`, or goes if there was none on the variable.
fn leave(path: &mut Vec<Literal>, was: Option<Literal>)
    requires { 0 < length path.old.items }
    ensures { path.new.items ≡ left_by was path.old.items }
{
    match was {
        Some(literal) => put_last(path, literal),
        None => path.truncate(path.len() - 1),
    }
}

/// Whether two literals are equal.
fn is_same(literal: Literal, other: Literal) -> bool
    ensures { OnTrue result (literal ≡ other) }
{
    (literal.variable == other.variable) & (literal.low == other.low) & (literal.high == other.high)
}

/// Whether eight literals are equal to eight others. It never stops early, so that the compiler compares them at once.
fn are_eight_same(literals: &[Literal; 8], others: &[Literal; 8]) -> bool
    ensures { OnTrue result (literals.now ≡ others.now) }
{
    let mut are = true;
    for at in 0..8 {
        are &= is_same(literals[at], others[at]);
    }
    are
}

/// Whether two lists of literals are equal, compared one after another.
fn are_each_same(literals: &[Literal], others: &[Literal]) -> bool
    ensures { OnTrue result (literals.now ≡ others.now) }
{
    // lists of different lengths differ
    if literals.len() != others.len() {
        return false;
    }
    for at in 0..literals.len() {
        if !is_same(literals[at], others[at]) {
            return false;
        }
    }
    true
}

/// Whether two lists of literals are equal, compared eight at a time.
pub fn are_same_literals(literals: &[Literal], others: &[Literal]) -> bool
    ensures { OnTrue result (literals.now ≡ others.now) }
{
    // fewer than eight are left: these are compared one by one
    let Some((block, rest)) = literals.split_first_chunk::<8>() else {
        return are_each_same(literals, others);
    };
    // the other list has fewer left, so they differ
    let Some((other, behind)) = others.split_first_chunk::<8>() else {
        return false;
    };
    if !are_eight_same(block, other) {
        return false;
    }
    are_same_literals(rest, behind)
}

/// Returns where the first literal from the place `from` on that doesn't hold in the whole space parts it; `None` if all hold
/// from there on, or if it doesn't part the space.
fn part_from(space: &Space, literals: &[Literal], from: usize) -> Option<SlicePart>
    ensures { IfSome result (λ r. IsOpenCut space.now r.cut.variable r.cut.most) }
{
    for at in from..literals.len() {
        if !space.implies(&literals[at]) {
            let cut = cut_of(space, literals[at])?;
            return Some(SlicePart { cut, held: at });
        }
    }
    None
}

/// Returns the literal on a variable, looked for from a place on towards both sides; `None` if there is none.
fn literal_near(literals: &[Literal], place: usize, variable: u8) -> Option<Literal> {
    let Some(here) = literals.get(place) else {
        return literal_up_to(literals, literals.len(), variable);
    };
    if here.variable > variable {
        return literal_up_to(literals, place, variable);
    }
    literal_from(literals, place, variable)
}

/// Whether literals ask for a number of a literal's variable that is above its range. `place` is where to look first.
fn asks_more(literals: &[Literal], place: usize, literal: Literal) -> bool {
    match literal_near(literals, place, literal.variable) {
        Some(other) => literal.high < other.low,
        None => false,
    }
}

/// Returns the place of the first literal above whose range others ask for a number; `None` if there is none.
fn place_apart(literals: &[Literal], others: &[Literal]) -> Option<usize> {
    for at in 0..literals.len() {
        if asks_more(others, at, literals[at]) {
            return Some(at);
        }
    }
    None
}

/// Returns where the first and the last cube of a slice part a space: at the literal `held`, if the last cube still asks for
/// more there, or else at the first literal where it does. `None` if it does nowhere, or that doesn't part the space.
fn part_by_ends(
    space: &Space,
    first: &[Literal],
    last: &[Literal],
    held: usize,
) -> Option<SlicePart>
    ensures { IfSome result (λ r. IsOpenCut space.now r.cut.variable r.cut.most) }
{
    let mut at = held;
    if at >= first.len() || !asks_more(last, at, first[at]) {
        at = place_apart(first, last)?;
    }
    let cut = cut_of(space, *first.get(at)?)?;
    Some(SlicePart { cut, held: at })
}

/// Returns where a slice is parted by its first cube's literals and its last cube, if it is guessed by the ends; `None` if
/// not, or if these don't show it.
fn part_apart(
    space: &Space,
    cubes: &[&Cube],
    literals: &[Literal],
    slice: Slice,
) -> Option<SlicePart>
    ensures { IfSome result (λ r. IsOpenCut space.now r.cut.variable r.cut.most) }
{
    match slice.way {
        GuessedWay::ByNumber => None,
        GuessedWay::ByEnds => {
            let last = cubes.get(slice.to.saturating_sub(1) as usize)?;
            part_by_ends(space, literals, last.literals(), slice.held)
        }
    }
}

/// Returns where a slice is parted: by a value of its first cube if one doesn't hold in the whole space, or else by a count.
/// `None` if nothing is found that parts the space.
fn part_of(space: &Space, cubes: &[&Cube], literals: &[Literal], slice: Slice) -> Option<SlicePart>
    ensures { IfSome result (λ r. IsOpenCut space.now r.cut.variable r.cut.most) }
{
    if let Some(value) = open_value(space, literals) {
        let cut = cut_of(space, value)?;
        return Some(SlicePart {
            cut,
            held: slice.held,
        });
    }
    if let Some(part) = part_apart(space, cubes, literals, slice) {
        return Some(part);
    }
    if let Some(part) = part_from(space, literals, slice.held) {
        return Some(part);
    }
    // the hint may be wrong, so all literals are looked at
    part_from(space, literals, 0)
}

/// Returns the top of the tree of a slice for the scenarios of a space, which are those that the literals of a path match.
fn slice_top(k: u8, space: &Space, path: &[Literal], cubes: &[&Cube], slice: Slice) -> SliceTop
    requires reached { IsForkSpace k space.now slice.narrow }
    requires own { IsOwn k space.now path.now }
    ensures { IsSliceTop (map (λ b. b.now) cubes.now) k space.now slice.from slice.to result }
{
    // the slice is empty, so no scenario of the space matches a cube of it
    if slice.to <= slice.from {
        return SliceTop::Leaf(None);
    }
    // the slice is within the list; no clause says so
    let Some(cube) = cubes.get(slice.from as usize) else {
        return SliceTop::Unknown;
    };
    let literals = cube.literals();
    if slice.to - slice.from == 1 {
        // the cube has just the path's literals: the usual case if the tree tests variables in the order of their numbers
        if are_same_literals(path, literals) {
            return SliceTop::Leaf(Some(slice.from));
        }
        // the cube says the same in another way
        if is_their_own(k, space, slice.narrow, literals) {
            return SliceTop::Leaf(Some(slice.from));
        }
    }
    match part_of(space, cubes, literals, slice) {
        Some(part) => SliceTop::Fork(part),
        None => SliceTop::Unknown,
    }
}

/// Whether the cube at a place asks for a number above a cut; true if there is no cube.
fn is_above(cubes: &[&Cube], place: u32, part: SlicePart) -> bool {
    let Some(cube) = cubes.get(place as usize) else {
        return true;
    };
    match literal_near(cube.literals(), part.held, part.cut.variable) {
        Some(literal) => literal.low > part.cut.most,
        None => false,
    }
}

/// Returns between which two places of a slice its border lies, which is the first place from which on all cubes ask for a
/// number above a cut. It takes those that do to be the last ones. It looks from the end in steps that double, as most often
/// few cubes do.
fn around_border(cubes: &[&Cube], slice: Slice, part: SlicePart) -> (u32, u32) {
    let mut end = slice.to;
    let mut step: u32 = 1;
    while end > slice.from {
        let place = end - step.min(end - slice.from);
        // this cube isn't above the cut, so the border lies behind it, and at `end` at the latest
        if !is_above(cubes, place, part) {
            return (place + 1, end);
        }
        end = place;
        step = step.saturating_mul(2);
    }
    (end, end)
}

/// Returns the border of a slice: the first place from which on all cubes ask for a number above a cut, if those that do
/// are the last ones. If they aren't, it is just a guess.
fn border_of(cubes: &[&Cube], slice: Slice, part: SlicePart) -> u32 {
    let (mut first, mut end) = around_border(cubes, slice, part);
    // what lies between is halved until it is empty
    while first < end {
        let middle = first + (end - first) / 2;
        if is_above(cubes, middle, part) {
            end = middle;
        } else {
            first = middle + 1;
        }
    }
    first
}

/// Adds the tree of a slice that a fork parts, for the scenarios of a space. The answer, the space and the path are as for
/// `build_slice_tree`.
#[cycle(build_slice_tree)]
fn build_forked_slice(
    k: u8,
    space: &mut Space,
    path: &mut Vec<Literal>,
    cubes: &[&Cube],
    slice: Slice,
    part: SlicePart,
    growth: &mut TreeGrowth,
) -> Result<bool, OutOfMemory>
    requires open { IsOpenCut space.old part.cut.variable part.cut.most }
    requires reached { IsForkSpace k space.old slice.narrow }
    requires own { IsOwn k space.old path.old.items }
    // on true, the tree of these cubes has been added, for all scenarios of the space
    ensures added { IfOk result (λ is. OnTrue is (AddsSliceTree (map (λ b. b.now) cubes.now) k space.old slice.from slice.to growth.old growth.new)) }
    ensures same { IfOk result (λ is. OnTrue is (space.new ≡ space.old)) }
    ensures path { IfOk result (λ is. OnTrue is (path.new.items ≡ path.old.items)) }
{
    let cut = part.cut;
    let sides = sides_of(k, space, cut);
    // there are at most 256 variables, so there always is a number
    let Some(narrow) = narrow_with(k, space, cut.variable, slice.narrow) else {
        return Ok(false);
    };
    // the cubes before the border go below the cut, and the others above it
    let border = border_of(cubes, slice, part);
    let low = Slice {
        from: slice.from,
        to: border,
        narrow,
        held: part.held,
        way: slice.way,
    };
    let high = Slice {
        from: border,
        to: slice.to,
        narrow,
        held: part.held,
        way: slice.way,
    };
    // the trees of both sides are added, each for its part of the space, and then a fork of the two
    let start = growth.items.len();
    let old_high = space.close_above(cut.variable, cut.most);
    let under = enter(path, sides.below)?;
    let has_below = build_slice_tree(k, space, path, cubes, low, growth)?;
    if !has_below {
        return Ok(false);
    }
    leave(path, under);
    space.reopen_above(cut.variable, old_high);
    let middle = growth.items.len();
    let old_low = space.close_below(cut.variable, cut.most);
    let over = enter(path, sides.above)?;
    let has_above = build_slice_tree(k, space, path, cubes, high, growth)?;
    if !has_above {
        return Ok(false);
    }
    leave(path, over);
    space.reopen_below(cut.variable, old_low);
    plain_fork(&mut growth.items, start, middle, cut.variable, cut.most)?;
    Ok(true)
}

/// Adds the tree of a slice for the scenarios of a space, which are those that the literals of a path match, and leaves
/// the space and the path as they were. It returns false if there is no tree, as the cubes don't stand as a tree lists
/// them, or if it would have too many items; then nothing is said of the list, the space and the path.
#[cycle(build_slice_tree)]
fn build_slice_tree(
    k: u8,
    space: &mut Space,
    path: &mut Vec<Literal>,
    cubes: &[&Cube],
    slice: Slice,
    growth: &mut TreeGrowth,
) -> Result<bool, OutOfMemory>
    requires reached { IsForkSpace k space.old slice.narrow }
    requires own { IsOwn k space.old path.old.items }
    // on true, the tree of these cubes has been added, for all scenarios of the space
    ensures added { IfOk result (λ is. OnTrue is (AddsSliceTree (map (λ b. b.now) cubes.now) k space.old slice.from slice.to growth.old growth.new)) }
    ensures same { IfOk result (λ is. OnTrue is (space.new ≡ space.old)) }
    ensures path { IfOk result (λ is. OnTrue is (path.new.items ≡ path.old.items)) }
{
    // the tree has as many items as it may have
    if !growth.may_grow() {
        return Ok(false);
    }
    match slice_top(k, space, path.as_slice(), cubes, slice) {
        SliceTop::Unknown => Ok(false),
        SliceTop::Leaf(place) => {
            growth.add_leaf(place)?;
            Ok(true)
        }
        SliceTop::Fork(part) => build_forked_slice(k, space, path, cubes, slice, part, growth),
    }
}

/// Returns the tree of the places of cubes that stand as it lists them, for all scenarios of at most `k` faults. `None`
/// if they don't, as far as the guesses made in this way find, or if it would have more than `items` items.
fn slice_tree_by(
    alloc: Global,
    k: u8,
    cubes: &[&Cube],
    items: u32,
    way: GuessedWay,
) -> Result<Option<Places>, OutOfMemory>
    requires { length cubes.now ≤ MOST_LOAD }
    // a tree has for each scenario of at most k faults the place of the one cube that it matches, or none
    ensures { IfOk result (λ r. IfSome r (λ t. (s : Scenario) → HasAtMostFaults k s → IsPlaceOfMatch (map (λ b. b.now) cubes.now) (place_at t s) s)) }
{
    let mut space = Space::whole(k);
    // all cubes, of which there are at most `MOST_LOAD`, so the end fits a `u32`
    let slice = Slice {
        from: 0,
        to: cubes.len() as u32,
        narrow: 0,
        held: 0,
        way,
    };
    let mut path = Vec::new(alloc);
    let mut growth = TreeGrowth::new(alloc, cubes.len(), items)?;
    let has_tree = build_slice_tree(k, &mut space, &mut path, cubes, slice, &mut growth)?;
    if !has_tree {
        return Ok(None);
    }
    Ok(Some(Places::grown(growth)))
}

/// Returns the tree of the places of cubes that stand as it lists them, for all scenarios of at most `k` faults. `None`
/// if they don't, as far as three ways to build it find, or if it would have more than `items` items.
pub(crate) fn slice_tree(
    alloc: Global,
    k: u8,
    cubes: &[&Cube],
    items: u32,
) -> Result<Option<Places>, OutOfMemory>
    requires { length cubes.now ≤ MOST_LOAD }
    // a tree has for each scenario of at most k faults the place of the one cube that it matches, or none
    ensures { IfOk result (λ r. IfSome r (λ t. (s : Scenario) → HasAtMostFaults k s → IsPlaceOfMatch (map (λ b. b.now) cubes.now) (place_at t s) s)) }
{
    // the quickest way first; the other two guess which variable parts the cubes, in different ways
    if let Some(places) = listed_tree(alloc, k, cubes, items)? {
        return Ok(Some(places));
    }
    if let Some(places) = slice_tree_by(alloc, k, cubes, items, GuessedWay::ByNumber)? {
        return Ok(Some(places));
    }
    let places = slice_tree_by(alloc, k, cubes, items, GuessedWay::ByEnds)?;
    Ok(places)
}
