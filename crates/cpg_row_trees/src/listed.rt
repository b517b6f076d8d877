//! The tree of the places of cubes that were read off it, from the lowest leaf up: each cube says all that leads to its
//! leaf, and the next cube is that of the next leaf. So no cube is looked for, and each is compared once with one before
//! it.
ghost use Rattle.std.specs.Prelude.{◌≡◌, ◌≤◌, ◌<◌, [], IfOk, IfSome, length, map, true, take};
ghost use Rattle.std.specs.Bool.{OnTrue};
ghost use Rattle.cpg_base.specs.Scenario.{Scenario};
ghost use Rattle.cpg_base.specs.declared.limits.TheConstants.{MOST_LOAD};
ghost use Rattle.cpg_tree.specs.Space.{IsInSpace, HasAtMostFaults};
ghost use Rattle.cpg_row_trees.specs.Places.{cube_at, place_at, IsPlaceOfMatch};
ghost use Rattle.cpg_row_trees.specs.PlaceHints.{IsOpenCut};
ghost use Rattle.cpg_row_trees.specs.Slices.{AddsSliceTree, IsOwn};
ghost use Rattle.cpg_row_trees.specs.Listed.{AreRangesAll, IsListedTop, IsListedStep, IsOwnOn, IsNextCube};

use crate::places::{PlaceCut, Places, TreeGrowth};
use crate::slices::are_same_literals;
use cpg_base::{FIRST_VALUE, OutOfMemory};
use cpg_cube::{Cube, Literal};
use cpg_tree::{Space, plain_fork};
use std::alloc::Global;

/// Where a cube parts a space.
#[derive(Clone, Copy)]
struct ListedPart {
    /// The cut.
    cut: PlaceCut,
    /// How many literals of the cube come before the one on the cut's variable.
    depth: usize,
}

/// What a literal of the first cube of a space says there.
#[derive(Clone, Copy)]
enum ListedStep {
    /// No less than the space of its variable, and no more.
    Known,
    /// That the numbers above a cut are left to other cubes.
    Parts(PlaceCut),
    /// That the cubes don't stand as a tree lists them.
    Unknown,
}

/// What stands at the top of the tree of a space whose first cube is given.
#[derive(Clone, Copy)]
enum ListedTop {
    /// The cube's own leaf.
    Own,
    /// A fork.
    Fork(ListedPart),
    /// It isn't found: the cubes don't stand as a tree lists them.
    Unknown,
}

/// Returns what a literal of the first cube of a space says there.
fn step_of(space: &Space, literal: Literal) -> ListedStep
    ensures { IsListedStep space.now literal result }
{
    // a list begins with the lowest leaf, so the first cube of a space begins at its least numbers
    if literal.low != space.low[literal.variable as usize] {
        return ListedStep::Unknown;
    }
    // the literal leaves out no number of the space: it says what the space does, or goes beyond the range
    if !space.is_open_above(literal.variable, literal.high) {
        if literal.high <= space.high[literal.variable as usize] {
            return ListedStep::Known;
        }
        return ListedStep::Unknown;
    }
    // all numbers of the space are above the literal: such a cube is in no tree
    if !space.is_open_below(literal.variable, literal.high) {
        return ListedStep::Unknown;
    }
    ListedStep::Parts(PlaceCut {
        variable: literal.variable,
        most: literal.high,
    })
}

/// Returns the top of the tree of a space whose first cube has these literals, if the first `depth` of them say which
/// scenarios are in the space. The contract alone needs `k`.
fn top_behind(k: u8, space: &Space, literals: &[Literal], depth: usize) -> ListedTop
    requires own { IsOwn k space.now (take depth literals.now) }
    requires depth { depth ≤ length literals.now }
    ensures { IsListedTop k space.now literals.now result }
{
    // the first literal that leaves numbers to other cubes parts the space
    for at in depth..literals.len() {
        match step_of(space, literals[at]) {
            ListedStep::Known => {}
            ListedStep::Parts(cut) => return ListedTop::Fork(ListedPart { cut, depth: at }),
            ListedStep::Unknown => return ListedTop::Unknown,
        }
    }
    ListedTop::Own
}

/// Returns the top of the tree of a space that is a side of a fork and whose first cube has these literals, if those
/// before the fork's variable, and the space's range of that, say which scenarios are in the space.
#[inline(always)]
fn top_on(k: u8, space: &Space, literals: &[Literal], part: ListedPart) -> ListedTop
    // the first literals of the cube and the range of the part's variable say which scenarios are in the space
    requires { IsOwnOn k space.now (take part.depth literals.now) part.cut.variable }
    ensures { IsListedTop k space.now literals.now result }
{
    // a cube on this side of the fork has a literal on its variable
    let Some(literal) = literals.get(part.depth) else {
        return ListedTop::Unknown;
    };
    // this literal is on another variable, so the list isn't a tree's
    if literal.variable != part.cut.variable {
        return ListedTop::Unknown;
    }
    match step_of(space, *literal) {
        ListedStep::Known => top_behind(k, space, literals, part.depth + 1),
        ListedStep::Parts(cut) => ListedTop::Fork(ListedPart {
            cut,
            depth: part.depth,
        }),
        ListedStep::Unknown => ListedTop::Unknown,
    }
}

/// Whether the literal behind the first `part.depth` is on the variable of a cut and above it.
#[inline(always)]
fn is_above(literals: &[Literal], part: ListedPart) -> bool
    ensures { OnTrue result (part.depth < length literals.now) }
{
    match literals.get(part.depth) {
        Some(literal) => { (literal.variable == part.cut.variable) & (literal.low > part.cut.most) }
        None => false,
    }
}

/// Whether a cube is above a cut, and its literals before that are those of another cube.
#[inline(always)]
fn is_next(literals: &[Literal], others: &[Literal], part: ListedPart) -> bool
    ensures { OnTrue result (take part.depth literals.now ≡ take part.depth others.now) }
{
    // the cube is not on the upper side of the fork
    if !is_above(literals, part) {
        return false;
    }
    // the other has fewer literals than stand before the fork
    if others.len() < part.depth {
        return false;
    }
    are_same_literals(&literals[..part.depth], &others[..part.depth])
}

/// Whether there is a cube at `place`, it is above a cut, and its literals before that are those of the cube at `from`.
#[inline(always)]
fn next_above(cubes: &[&Cube], from: u32, place: u32, part: ListedPart) -> bool
    ensures { OnTrue result (IsNextCube (map (λ b. b.now) cubes.now) from place part.depth) }
{
    // no cube is left, but the tree isn't complete
    let Some(cube) = cubes.get(place as usize) else {
        return false;
    };
    // the fork was found by this cube, so it is there; no clause says so
    let Some(other) = cubes.get(from as usize) else {
        return false;
    };
    is_next(cube.literals(), other.literals(), part)
}

/// Called for its contract alone, not for what it returns: how long the lists of a space are, which is known where they are
/// read.
fn see_lists(space: &Space, variable: u8) -> bool
    ensures lows { length space.now.low ≡ 256 }
    ensures highs { length space.now.high ≡ 256 }
{
    space.low[variable as usize] <= space.high[variable as usize]
}

/// Adds the tree of the side above a fork, from the cube at `place` on: a leaf without a cube, unless that cube is above
/// the cut and has the same literals before it as the cube at `from`, the first of the fork. The rest is as for
/// `build_listed`.
#[cycle(build_listed)]
#[inline(always)]
fn build_listed_above(
    k: u8,
    space: &mut Space,
    cubes: &[&Cube],
    from: u32,
    place: u32,
    part: ListedPart,
    growth: &mut TreeGrowth,
) -> Result<Option<u32>, OutOfMemory>
    requires ranges { AreRangesAll k space.old }
    // the first literals of the cube and the range of the part's variable say which scenarios are in the space
    requires own { IsOwnOn k space.old (take part.depth (cube_at (map (λ b. b.now) cubes.now) from)) part.cut.variable }
    // if a place is answered, the tree of the cubes from `place` up to it has been added
    ensures added { IfOk result (λ r. IfSome r (λ to. AddsSliceTree (map (λ b. b.now) cubes.now) k space.old place to growth.old growth.new)) }
    ensures same { IfOk result (λ r. IfSome r (λ to. space.new ≡ space.old)) }
{
    // the next cube is on the upper side: its tree is that side
    if next_above(cubes, from, place, part) {
        return build_listed(k, space, cubes, place, part, growth);
    }
    // no cube is on the upper side: it is a leaf without a place, if there may be one more item
    if !growth.may_grow() {
        return Ok(None);
    }
    growth.add_leaf(None)?;
    Ok(Some(place))
}

/// Adds the tree of a fork, from the cube at a place on. The rest is as for `build_listed`.
#[cycle(build_listed)]
#[inline(never)]
fn build_listed_fork(
    k: u8,
    space: &mut Space,
    cubes: &[&Cube],
    place: u32,
    part: ListedPart,
    growth: &mut TreeGrowth,
) -> Result<Option<u32>, OutOfMemory>
    requires open { IsOpenCut space.old part.cut.variable part.cut.most }
    requires ranges { AreRangesAll k space.old }
    // the first literals of the cube and the range of the part's variable say which scenarios are in the space
    requires own { IsOwnOn k space.old (take part.depth (cube_at (map (λ b. b.now) cubes.now) place)) part.cut.variable }
    // if a place is answered, the tree of the cubes from `place` up to it has been added
    ensures added { IfOk result (λ r. IfSome r (λ to. AddsSliceTree (map (λ b. b.now) cubes.now) k space.old place to growth.old growth.new)) }
    ensures same { IfOk result (λ r. IfSome r (λ to. space.new ≡ space.old)) }
{
    let cut = part.cut;
    // called for its contract: how long the lists of the space are
    let _is_seen = see_lists(space, cut.variable);
    let start = growth.items.len();
    let old_high = space.close_above(cut.variable, cut.most);
    // the lower side first: its cubes stand before those of the upper side
    let below = build_listed(k, space, cubes, place, part, growth)?;
    let Some(border) = below else {
        return Ok(None);
    };
    space.reopen_above(cut.variable, old_high);
    let middle = growth.items.len();
    let old_low = space.close_below(cut.variable, cut.most);
    let above = build_listed_above(k, space, cubes, place, border, part, growth)?;
    let Some(to) = above else {
        return Ok(None);
    };
    space.reopen_below(cut.variable, old_low);
    // the lists of both sides stand one behind the other, and the fork comes behind them
    plain_fork(&mut growth.items, start, middle, cut.variable, cut.most)?;
    Ok(Some(to))
}

/// Adds the tree for the scenarios of a space, whose first cube is at a place, and returns the place behind its last
/// cube; the space is as before then. `None` if the cubes don't stand as a tree lists them, or if there would be too many
/// items: then nothing is said of the list and the space.
#[cycle(build_listed)]
#[inline(always)]
fn build_listed(
    k: u8,
    space: &mut Space,
    cubes: &[&Cube],
    place: u32,
    part: ListedPart,
    growth: &mut TreeGrowth,
) -> Result<Option<u32>, OutOfMemory>
    requires ranges { AreRangesAll k space.old }
    // the first literals of the cube and the range of the part's variable say which scenarios are in the space
    requires own { IsOwnOn k space.old (take part.depth (cube_at (map (λ b. b.now) cubes.now) place)) part.cut.variable }
    // if a place is answered, the tree of the cubes from `place` up to it has been added
    ensures added { IfOk result (λ r. IfSome r (λ to. AddsSliceTree (map (λ b. b.now) cubes.now) k space.old place to growth.old growth.new)) }
    ensures same { IfOk result (λ r. IfSome r (λ to. space.new ≡ space.old)) }
{
    // the tree has as many items as it may have
    if !growth.may_grow() {
        return Ok(None);
    }
    // no cube is left, but the tree isn't complete
    let Some(cube) = cubes.get(place as usize) else {
        return Ok(None);
    };
    let literals = cube.literals();
    match top_on(k, space, literals, part) {
        ListedTop::Unknown => Ok(None),
        // all literals say what the space does: the cube is a leaf, and the next place follows
        ListedTop::Own => {
            growth.add_leaf(Some(place))?;
            Ok(Some(place.saturating_add(1)))
        }
        ListedTop::Fork(next) => build_listed_fork(k, space, cubes, place, next, growth),
    }
}

/// Adds the tree of all cubes for all scenarios of at most `k` faults, and returns whether there is one.
fn build_all_listed(
    k: u8,
    space: &mut Space,
    cubes: &[&Cube],
    growth: &mut TreeGrowth,
) -> Result<bool, OutOfMemory>
    requires ranges { AreRangesAll k space.old }
    requires own { IsOwn k space.old [] }
    // on true, the tree of these cubes has been added, for all scenarios of the space
    ensures { IfOk result (λ is. OnTrue is (AddsSliceTree (map (λ b. b.now) cubes.now) k space.old 0 (length cubes.now) growth.old growth.new)) }
{
    // without cubes there is no fork to begin with
    let Some(first) = cubes.get(0) else {
        return Ok(false);
    };
    let literals = first.literals();
    // one cube for all scenarios, or a list that isn't a tree's: other builders take these
    let ListedTop::Fork(part) = top_behind(k, space, literals, 0) else {
        return Ok(false);
    };
    let all = build_listed_fork(k, space, cubes, 0, part, growth)?;
    let Some(to) = all else {
        return Ok(false);
    };
    let end = to as usize;
    let count = cubes.len();
    // a tree that leaves cubes over is not the tree of all
    if end != count {
        return Ok(false);
    }
    Ok(true)
}

/// Whether a cube has a literal on a condition's value: values come last.
fn has_value(cube: &Cube) -> bool {
    match cube.literals().last() {
        Some(last) => last.variable >= FIRST_VALUE,
        None => false,
    }
}

/// Returns the tree of the places of cubes that were read off it, for all scenarios of at most `k` faults. `None` if they
/// weren't, if it would have more than `items` items, if there is at most one cube, or if the first one has a literal on a
/// value: most trees test values first, but cubes have them last.
pub(crate) fn listed_tree(
    alloc: Global,
    k: u8,
    cubes: &[&Cube],
    items: u32,
) -> Result<Option<Places>, OutOfMemory>
    requires { length cubes.now ≤ MOST_LOAD }
    // a tree has for each scenario of at most k faults the place of the one cube that it matches, or none
    ensures { IfOk result (λ r. IfSome r (λ t. (s : Scenario) → HasAtMostFaults k s → IsPlaceOfMatch (map (λ b. b.now) cubes.now) (place_at t s) s)) }
{
    // these are left to the other ways to build a tree
    let Some(first) = cubes.first() else {
        return Ok(None);
    };
    if cubes.len() == 1 {
        return Ok(None);
    }
    if has_value(first) {
        return Ok(None);
    }
    let mut space = Space::whole(k);
    let mut growth = TreeGrowth::new(alloc, cubes.len(), items)?;
    let has_tree = build_all_listed(k, &mut space, cubes, &mut growth)?;
    if !has_tree {
        return Ok(None);
    }
    Ok(Some(Places::grown(growth)))
}
