//! The columns of a row, parted by the ranges of their literals: those that may match together with a cube are found
//! without a look at each.
ghost use Rattle.std.specs.Prelude.{◌≡◌, ◌≤◌, ◌<◌, ◌&&◌, ℕ, IfOk, IfSome, Contains, false, length, nat_le, not, true};
ghost use Rattle.std.specs.Bool.{OnFalse};
ghost use Rattle.cpg_base.specs.declared.limits.TheConstants.{MOST_LOAD};
ghost use Rattle.cpg_base.specs.Scenario.{Scenario, number_of};
ghost use Rattle.cpg_cube.specs.Cube.{holds, matches};
ghost use Rattle.cpg_cube.specs.Column.{column_at};
ghost use Rattle.cpg_violation.specs.Sieves.{IsSieveOf, Sifts, places_in};
ghost use Rattle.cpg_violation.specs.Parts.{ArePartsOf};

use crate::apart::may_meet;
use cpg_base::OutOfMemory;
use cpg_cube::{Column, Cube, Literal};
use cpg_tree::Tally;
use std::alloc::Global;
use std::marker::Model;

/// At most this many cuts are below one another: one for each variable that a graph may have (128 counts, 32 values).
/// It only bounds the depth of recursion.
const MOST_CUTS: u32 = 160;
/// A list of at most this many places isn't parted, as a look at each takes little time.
const MOST_IN_LEAF: usize = 24;
/// By at most this many of its places it is tried first whether a cut parts a list.
const SAMPLE_SIZE: usize = 8;

/// The places of the columns of a row, as a tree of cuts. A cut parts places by whether the column may match with a
/// variable at most at a number, or above it: a place is on both sides if its column may match on both.
#[cycle(sieve)]
#[derive(Drop)]
pub struct Sieve {
    /// The root of the tree.
    node: SieveNode,
}

/// The root of a sieve.
#[cycle(sieve)]
#[derive(Drop)]
enum SieveNode {
    /// Places that aren't parted.
    Leaf(Vec<u32>),
    /// Places that are parted by whether a variable is at most a number.
    Cut {
        variable: u8,
        most: u8,
        below: Box<Sieve>,
        above: Box<Sieve>,
    },
}

impl Model for Sieve {
    ghost use Rattle.cpg_violation.specs.Parted.{Parted, size_of};
    ghost use Rattle.cpg_violation.specs.PartedCode.{parted_code};

    ghost Value = { Parted };

    ghost coded = { parted_code };

    ghost use Rattle.cpg_violation.specs.PartedView.{parted_of};

    ghost view = { λ s. parted_of s.node };

    ghost size = { size_of };

    ghost use Rattle.cpg_violation.specs.PartedFalls.{deep_le-size};

    ghost size_decreases = { λ a h. deep_le-size a.node };
}

/// Whether a literal leaves a variable a number on a side of a cut: one that is at most `most`, if `below`, or one
/// above, if not.
fn lets(literal: &Literal, variable: u8, most: u8, below: bool) -> bool
    ensures { OnFalse result ((s : Scenario) → holds s literal.now ≡ true → nat_le (number_of s variable) most ≡ not below) }
{
    // the literal says nothing of this variable
    if literal.variable != variable {
        return true;
    }
    if below {
        return literal.low <= most;
    }
    most < literal.high
}

/// Whether a cube leaves a variable a number on a side of a cut: one that is at most `most`, if `below`, or one above,
/// if not.
fn goes(cube: &Cube, variable: u8, most: u8, below: bool) -> bool
    ensures { OnFalse result ((s : Scenario) → matches cube.now s ≡ true → nat_le (number_of s variable) most ≡ not below) }
{
    for literal in cube.literals() {
        // the variables rise, so no later literal is on this one
        if literal.variable > variable {
            return true;
        }
        if !lets(literal, variable, most, below) {
            return false;
        }
    }
    true
}

/// Whether the cube of the column at a place leaves a variable a number on that side of a cut, as `goes` says; false if
/// there is no column.
fn column_goes(columns: &[Column], place: u32, variable: u8, most: u8, below: bool) -> bool
    ensures { OnFalse result ((s : Scenario) → place < length columns.now → matches (column_at columns.now place).cube s ≡ true →
        nat_le (number_of s variable) most ≡ not below) }
{
    let Some(column) = columns.get(place as usize) else {
        return false;
    };
    goes(&column.cube, variable, most, below)
}

/// How many of these places go to one side of a cut: below it, if `below`, or above it, if not.
fn going(columns: &[Column], places: &[u32], variable: u8, most: u8, below: bool) -> usize {
    let mut count: usize = 0;
    for place in places {
        if column_goes(columns, *place, variable, most, below) {
            count = count.saturating_add(1);
        }
    }
    count
}

/// A cut by whether a variable is at most a number.
#[derive(Clone, Copy)]
struct Cut {
    /// The variable that is asked for.
    variable: u8,
    /// The greatest number of the variable on the low side.
    most: u8,
}

/// Whether a cut parts `all` places well, if `below` of them go below it and `above` of them above it: some go to each
/// side alone, and those that go to both are at most half as many as the fewer of these.
fn is_parted(all: usize, below: usize, above: usize) -> bool {
    // all go below, so the cut parts nothing
    if below >= all {
        return false;
    }
    // all go above, so the cut parts nothing
    if above >= all {
        return false;
    }
    // `low` go below alone, and `high` above alone; the rest of those that go below go both ways
    let low = all - above;
    let high = all - below;
    let both = below.saturating_sub(low);
    both <= low.min(high) / 2
}

/// Whether a cut parts these places well, as `is_parted` says.
fn parts(columns: &[Column], places: &[u32], cut: Cut) -> bool {
    let below = going(columns, places, cut.variable, cut.most, true);
    let above = going(columns, places, cut.variable, cut.most, false);
    is_parted(places.len(), below, above)
}

/// A cut at an end of a literal's range that parts the places well: at its high, or else just below its low; `None` if
/// neither does.
fn cut_at(columns: &[Column], places: &[u32], literal: &Literal) -> Option<Cut> {
    let cut = Cut {
        variable: literal.variable,
        most: literal.high,
    };
    if parts(columns, places, cut) {
        return Some(cut);
    }
    // no number is below the range
    if literal.low == 0 {
        return None;
    }
    let cut = Cut {
        variable: literal.variable,
        most: literal.low - 1,
    };
    if parts(columns, places, cut) {
        return Some(cut);
    }
    None
}

/// The first of the cuts at the ends of a column's literals that parts the places well; `None` if none does. The best
/// of them would save a search little, and to compare them all would take most of the time of making a sieve.
fn first_cut(columns: &[Column], places: &[u32], column: &Column) -> Option<Cut> {
    for literal in column.cube.literals() {
        let cut = cut_at(columns, places, literal);
        if cut.is_some() {
            return cut;
        }
    }
    None
}

/// At most `SAMPLE_SIZE` of these places, evenly spread.
fn sample_of(alloc: Global, places: &[u32]) -> Result<Vec<u32>, OutOfMemory> {
    let mut sample = Vec::new(alloc);
    // rounded up, so the last ones may lie past the end: then there are fewer
    let step = places.len() / SAMPLE_SIZE + 1;
    for part in 0..SAMPLE_SIZE {
        if let Some(place) = places.get(part.saturating_mul(step)) {
            sample.push(*place)?;
        }
    }
    Ok(sample)
}

/// A cut that parts a sample of these places well, if the column in the middle has one. To find it takes little time,
/// and mostly there is one.
fn sampled_cut(
    alloc: Global,
    columns: &[Column],
    places: &[u32],
) -> Result<Option<Cut>, OutOfMemory> {
    // the column in the middle gives the cuts to try
    let Some(place) = places.get(places.len() / 2) else {
        return Ok(None);
    };
    // every place has a column, but no clause says so
    let Some(column) = columns.get(*place as usize) else {
        return Ok(None);
    };
    let sample = sample_of(alloc, places)?;
    Ok(first_cut(columns, sample.as_slice(), column))
}

/// The literals of the column at a place; none if there is no column.
fn literals_at(columns: &[Column], place: u32) -> &[Literal] {
    match columns.get(place as usize) {
        Some(column) => column.cube.literals(),
        None => &[],
    }
}

/// Adds the literals of the columns at these places to a tally.
fn count_all(columns: &[Column], places: &[u32], tally: &mut Tally) {
    for place in places {
        tally.add(literals_at(columns, *place));
    }
}

/// Takes from a tally what `count_all` has added for these places.
fn clear_all(columns: &[Column], places: &[u32], tally: &mut Tally) {
    for place in places {
        tally.clear(literals_at(columns, *place));
    }
}

/// The cut that parts these places best, by a tally of all their columns' literals; `None` if the tally finds none. The
/// tally has to be empty, and is so again afterwards, for the next list of places.
fn tallied_cut(columns: &[Column], places: &[u32], tally: &mut Tally) -> Option<Cut> {
    // a row has far fewer columns than 2^32, so there is a count
    let count = u32::try_from(places.len()).ok()?;
    count_all(columns, places, tally);
    let found = tally.best(count);
    clear_all(columns, places, tally);
    let parting = found?;
    Some(Cut {
        variable: parting.variable,
        most: parting.most,
    })
}

/// Those of these places that go to one side of a cut: below it, if `below`, or above it, if not.
fn places_on_side(
    alloc: Global,
    columns: &[Column],
    places: &[u32],
    cut: Cut,
    below: bool,
) -> Result<Vec<u32>, OutOfMemory>
    ensures { IfOk result (λ kept. (s : Scenario) (i : ℕ) → Contains places.now i → i < length columns.now →
        matches (column_at columns.now i).cube s ≡ true → nat_le (number_of s cut.variable) cut.most ≡ below → Contains kept.items i) }
{
    let mut kept = Vec::new(alloc);
    for place in places {
        if column_goes(columns, *place, cut.variable, cut.most, below) {
            kept.push(*place)?;
        }
    }
    Ok(kept)
}

/// A cut, with the places on each side. A place may be on both.
#[derive(Drop)]
struct SieveSides {
    /// The cut itself.
    cut: Cut,
    /// The places of columns that may match with the variable at most at the number of the cut.
    low: Vec<u32>,
    /// The places of columns that may match with the variable above that number.
    high: Vec<u32>,
}

/// The sides of a cut, and `None` if it doesn't part these places well.
fn sides_at(
    alloc: Global,
    columns: &[Column],
    places: &[u32],
    cut: Cut,
) -> Result<Option<SieveSides>, OutOfMemory>
    ensures { IfOk result (λ r. IfSome r (ArePartsOf columns.now places.now)) }
{
    let low = places_on_side(alloc, columns, places, cut, true)?;
    let high = places_on_side(alloc, columns, places, cut, false)?;
    if !is_parted(places.len(), low.len(), high.len()) {
        return Ok(None);
    }
    Ok(Some(SieveSides { cut, low, high }))
}

/// The sides of the cut that a sample of these places gives; `None` if it gives none, or if that doesn't part all of
/// them well.
fn sampled_sides(
    alloc: Global,
    columns: &[Column],
    places: &[u32],
) -> Result<Option<SieveSides>, OutOfMemory>
    ensures { IfOk result (λ r. IfSome r (ArePartsOf columns.now places.now)) }
{
    let Some(cut) = sampled_cut(alloc, columns, places)? else {
        return Ok(None);
    };
    let sides = sides_at(alloc, columns, places, cut)?;
    Ok(sides)
}

/// The sides of the cut that parts these places best by a tally; `None` if there is none, or if even that doesn't part
/// them well.
fn tallied_sides(
    alloc: Global,
    columns: &[Column],
    places: &[u32],
    tally: &mut Tally,
) -> Result<Option<SieveSides>, OutOfMemory>
    ensures { IfOk result (λ r. IfSome r (ArePartsOf columns.now places.now)) }
{
    // the tables of the tally are made when they are first needed: most rows need none
    tally.make_tables(alloc)?;
    let Some(cut) = tallied_cut(columns, places, tally) else {
        return Ok(None);
    };
    let sides = sides_at(alloc, columns, places, cut)?;
    Ok(sides)
}

/// The sides of a cut of these places; `None` if they are few, or if no cut is found that parts them well.
fn sides_of(
    alloc: Global,
    columns: &[Column],
    places: &[u32],
    tally: &mut Tally,
) -> Result<Option<SieveSides>, OutOfMemory>
    ensures { IfOk result (λ r. IfSome r (ArePartsOf columns.now places.now)) }
{
    if places.len() <= MOST_IN_LEAF {
        return Ok(None);
    }
    let sampled = sampled_sides(alloc, columns, places)?;
    if sampled.is_some() {
        return Ok(sampled);
    }
    let sides = tallied_sides(alloc, columns, places, tally)?;
    Ok(sides)
}

/// A sieve of these places, with at most `depth` cuts below one another.
fn sifted(
    alloc: Global,
    columns: &[Column],
    places: Vec<u32>,
    depth: u32,
    tally: &mut Tally,
) -> Result<Sieve, OutOfMemory>
    ensures { IfOk result (Sifts columns.now places.items) }
{
    if depth == 0 {
        return Ok(Sieve {
            node: SieveNode::Leaf(places),
        });
    }
    let Some(sides) = sides_of(alloc, columns, places.as_slice(), tally)? else {
        return Ok(Sieve {
            node: SieveNode::Leaf(places),
        });
    };
    let cut = sides.cut;
    let below = sifted(alloc, columns, sides.low, depth - 1, tally)?;
    let above = sifted(alloc, columns, sides.high, depth - 1, tally)?;
    let below = Box::new(alloc, below)?;
    let above = Box::new(alloc, above)?;
    Ok(Sieve {
        node: SieveNode::Cut {
            variable: cut.variable,
            most: cut.most,
            below,
            above,
        },
    })
}

/// Whether the column at a place may match a scenario together with a cube; false if there is no column. True
/// guarantees nothing.
fn column_may_meet(columns: &[Column], place: u32, cube: &Cube) -> bool
    ensures { OnFalse result ((s : Scenario) → place < length columns.now → (matches cube.now s && matches (column_at columns.now place).cube s) ≡ false) }
{
    let Some(column) = columns.get(place as usize) else {
        return false;
    };
    may_meet(cube.literals(), column.cube.literals())
}

/// Those of these places whose columns may match a scenario together with a cube.
fn meeting(
    alloc: Global,
    columns: &[Column],
    places: &[u32],
    cube: &Cube,
) -> Result<Vec<u32>, OutOfMemory>
    ensures { IfOk result (λ kept. (s : Scenario) (i : ℕ) → Contains places.now i → i < length columns.now →
        matches (column_at columns.now i).cube s ≡ true → matches cube.now s ≡ true → Contains kept.items i) }
{
    let mut kept = Vec::new(alloc);
    for place in places {
        if column_may_meet(columns, *place, cube) {
            kept.push(*place)?;
        }
    }
    Ok(kept)
}

/// The places of all columns, from 0 on.
fn places_of(alloc: Global, columns: &[Column]) -> Result<Vec<u32>, OutOfMemory>
    requires { length columns.now ≤ MOST_LOAD }
    ensures { IfOk result (λ places. (i : ℕ) → i < length columns.now → Contains places.items i) }
{
    let mut places = Vec::new(alloc);
    // `MOST_LOAD` is far below 2^32
    for place in 0..columns.len() as u32 {
        places.push(place)?;
    }
    Ok(places)
}

impl Sieve {
    /// The sieve of a row's columns, parted as far as that helps. The one error is `OutOfMemory`.
    pub fn of(alloc: Global, columns: &[Column]) -> Result<Sieve, OutOfMemory>
        requires { length columns.now ≤ MOST_LOAD }
        ensures { IfOk result (IsSieveOf columns.now) }
    {
        let places = places_of(alloc, columns)?;
        let mut tally = Tally::new(alloc);
        let sieve = sifted(alloc, columns, places, MOST_CUTS, &mut tally)?;
        Ok(sieve)
    }

    /// The sieve of a row's columns that isn't parted: all places are in one leaf. It is quick to make, and slow to
    /// search.
    pub(crate) fn whole(alloc: Global, columns: &[Column]) -> Result<Sieve, OutOfMemory>
        requires { length columns.now ≤ MOST_LOAD }
        ensures { IfOk result (IsSieveOf columns.now) }
    {
        let places = places_of(alloc, columns)?;
        Ok(Sieve {
            node: SieveNode::Leaf(places),
        })
    }

    /// Adds what `search` finds in this sieve, which is one side of a cut, unless the cube has no number on that side.
    #[cycle(search)]
    fn search_side(
        &self,
        cube: &Cube,
        cut: Cut,
        below: bool,
        found: &mut Vec<u32>,
    ) -> Result<(), OutOfMemory>
        ensures old { IfOk result (λ _. (i : ℕ) → Contains found.old.items i → Contains found.new.items i) }
        ensures all { IfOk result (λ _. (s : Scenario) (i : ℕ) → matches cube.now s ≡ true →
            nat_le (number_of s cut.variable) cut.most ≡ below → Contains (places_in self.now s) i → Contains found.new.items i) }
    {
        // the cube has no scenario on this side
        if !goes(cube, cut.variable, cut.most, below) {
            return Ok(());
        }
        self.search(cube, found)?;
        Ok(())
    }

    /// Adds the places in all leaves to which the cuts lead scenarios that the cube matches. It may add a place twice.
    #[cycle(search)]
    fn search(&self, cube: &Cube, found: &mut Vec<u32>) -> Result<(), OutOfMemory>
        ensures old { IfOk result (λ _. (i : ℕ) → Contains found.old.items i → Contains found.new.items i) }
        ensures all { IfOk result (λ _. (s : Scenario) (i : ℕ) → matches cube.now s ≡ true → Contains (places_in self.now s) i → Contains found.new.items i) }
    {
        match &self.node {
            SieveNode::Leaf(places) => {
                found.extend_from_slice(places.as_slice())?;
                Ok(())
            }
            SieveNode::Cut {
                variable,
                most,
                below,
                above,
            } => {
                let cut = Cut {
                    variable: *variable,
                    most: *most,
                };
                below.search_side(cube, cut, true, found)?;
                above.search_side(cube, cut, false, found)?;
                Ok(())
            }
        }
    }

    /// Places of a row's columns. Each column that matches some scenario together with a cube is among them. Others may
    /// be, if they ask for too many faults to do so, and a place may be there twice. The one error is `OutOfMemory`.
    pub fn candidates(
        &self,
        alloc: Global,
        columns: &[Column],
        cube: &Cube,
    ) -> Result<Vec<u32>, OutOfMemory>
        requires { IsSieveOf columns.now self.now }
        ensures { IfOk result (λ kept. (s : Scenario) (i : ℕ) → i < length columns.now → matches (column_at columns.now i).cube s ≡ true →
            matches cube.now s ≡ true → Contains kept.items i) }
    {
        let mut found = Vec::new(alloc);
        self.search(cube, &mut found)?;
        let kept = meeting(alloc, columns, found.as_slice(), cube)?;
        Ok(kept)
    }
}
