//! Sorts columns by the least scenario that each matches. For this each cube has a key, a list of numbers: keys compare as
//! the least scenarios do, and are short, as they leave out all lows that are 0.
ghost use Rattle.std.specs.Prelude.{◌≡◌, ◌≢◌, ◌++◌, ◌<◌, ◌≤◌, ℕ, [], All, AllPairs, IfNone, IfOk, IfSome, IsPermutation, List, OnOk, if◌then◌else◌, length, map};
ghost use Rattle.cpg_base.specs.Graph.{condition_count, process_count};
ghost use Rattle.cpg_base.specs.Numbers.{is_below, numbers_below};
ghost use Rattle.cpg_cube.specs.Keys.{AreByLows, AreBytes, ArePlaces, IsFirstByKeys, IsFirstByLows, IsKeyOf, key_by, place_in, variables_along, variables_of, with_low_of, with_lows_of, with_number};

use crate::bounds::VARIABLES;
use crate::{BLOCK, Cube, Literal, begin_at_zero};
use cpg_base::{FIRST_VALUE, Order, OutOfMemory, Problem};
use smallvec::SmallVec;
use std::alloc::Global;

/// How many numbers a key holds without memory of its own: as many as a scenario may have faults.
const INLINE_NUMBERS: usize = 8;

/// How many places are left at the first variable along an order: no fewer than there are variables, so that none runs out.
const FIRST_PLACES_LEFT: u16 = 256;

/// What a place counts for in a number of a key: more than any low, which is a byte.
const PLACE_WEIGHT: u32 = 256;

/// Something that has a cube, as a column has.
pub trait Cubed {
    ghost use Rattle.cpg_cube.specs.declared.literal.Literal.{Literal};

    // the literals of its cube
    ghost cubed: { Self → List Literal };

    /// Returns the cube.
    fn cube(&self) -> &Cube
        ensures { result.now ≡ cubed self.now };
}

/// Adds the variable of a process's fault count, and then that of its condition's value if it has a condition.
fn push_variables(
    problem: &Problem,
    process: u32,
    variables: &mut Vec<u8>,
) -> Result<(), OutOfMemory>
    requires process { process < process_count problem.now }
    requires processes { process_count problem.now ≤ 128 }
    requires conditions { condition_count problem.now ≤ 32 }
    ensures { OnOk result (variables.new.items ≡ variables.old.items ++ variables_of problem.now process) }
{
    // there are at most 128 processes and 32 conditions, so their numbers fit a byte
    variables.push(process as u8)?;
    if let Some(condition) = problem.condition_of(process) {
        variables.push(FIRST_VALUE + condition as u8)?;
    }
    Ok(())
}

/// Returns the variables along an order: for each process that of its fault count, and then that of its condition's value if
/// it has a condition. The one error is `OutOfMemory`.
pub fn variables_along(
    alloc: Global,
    problem: &Problem,
    order: &[u32],
) -> Result<Vec<u8>, OutOfMemory>
    requires order { All (λ p. p < process_count problem.now) order.now }
    ensures { IfOk result (λ r. r.items ≡ variables_along problem.now order.now) }
{
    // asked only for its clause: a problem is within the limits of a graph file
    let _processes = problem.processes();
    let mut variables = Vec::new(alloc);
    for process in order {
        push_variables(problem, *process, &mut variables)?;
    }
    Ok(variables)
}

/// Returns by variable how many places are left at it in a list of variables: 256 at the first, one less at each that
/// follows, and 0 at a variable that isn't in the list.
fn places_of(variables: &[u8]) -> [u16; VARIABLES]
    requires few { length variables.now ≤ 256 }
    requires apart { AllPairs (λ u v. u ≢ v) variables.now }
    ensures { ArePlaces variables.now result }
{
    let mut places = [0; VARIABLES];
    let mut left = FIRST_PLACES_LEFT;
    for variable in variables {
        places[*variable as usize] = left;
        left -= 1;
    }
    places
}

/// Returns by variable how many places are left at it along an order: 256 at the first, one less at each that follows, and 0
/// at a number that is no variable of the problem. The one error is `OutOfMemory`.
pub fn places_along(
    alloc: Global,
    problem: &Problem,
    order: &Order,
) -> Result<[u16; VARIABLES], OutOfMemory>
    requires { IsPermutation (numbers_below (process_count problem.now)) order.now }
    ensures { IfOk result (ArePlaces (variables_along problem.now order.now)) }
{
    // asked only for its clause: a problem is within the limits of a graph file, so there are at most 256 variables
    let _processes = problem.processes();
    let variables = variables_along(alloc, problem, order.processes())?;
    Ok(places_of(variables.as_slice()))
}

/// Returns the place of `number` in a key, whose numbers fall: behind all that are at least as great.
fn place_in(number: u32, key: &[u32]) -> usize
    ensures { result ≡ place_in number key.now }
{
    let mut place = 0;
    while place < key.len() {
        if key[place] < number {
            return place;
        }
        place += 1;
    }
    place
}

/// Puts a number into a key, before the lesser ones.
fn put_number(number: u32, key: &mut SmallVec<u32, INLINE_NUMBERS>) -> Result<(), OutOfMemory>
    ensures { OnOk result (key.new.items ≡ with_number number key.old.items) }
{
    let place = place_in(number, key.as_slice());
    // no number of the key is less, so this one goes to the end
    if place >= key.len() {
        key.push(number)?;
        return Ok(());
    }
    key.insert(place, number)?;
    Ok(())
}

/// Puts the low of a literal into a key, if it isn't 0 and the literal's variable has a place.
fn put_low_of(
    places: &[u16; VARIABLES],
    literal: Literal,
    key: &mut SmallVec<u32, INLINE_NUMBERS>,
) -> Result<(), OutOfMemory>
    ensures key { OnOk result (key.new.items ≡ with_low_of places.now literal key.old.items) }
    ensures byte { literal.low < 256 }
{
    // a low of 0 is the same as no literal
    if literal.low == 0 {
        return Ok(());
    }
    let left = places[literal.variable as usize];
    // the variable is none of those of the key
    if left == 0 {
        return Ok(());
    }
    // an earlier variable counts for more than any low of a later one
    put_number(u32::from(left) * PLACE_WEIGHT + u32::from(literal.low), key)
}

/// Puts the lows of literals into a key.
fn put_lows_of(
    places: &[u16; VARIABLES],
    literals: &[Literal],
    key: &mut SmallVec<u32, INLINE_NUMBERS>,
) -> Result<(), OutOfMemory>
    ensures key { OnOk result (key.new.items ≡ with_lows_of places.now literals.now key.old.items) }
    ensures bytes { OnOk result (AreBytes literals.now) }
{
    for literal in literals {
        put_low_of(places, *literal, key)?;
    }
    Ok(())
}

/// Puts the lows of a block of literals into a key; there is nothing to put if all are 0.
fn put_block(
    places: &[u16; VARIABLES],
    literals: &[Literal; BLOCK],
    key: &mut SmallVec<u32, INLINE_NUMBERS>,
) -> Result<(), OutOfMemory>
    ensures key { OnOk result (key.new.items ≡ with_lows_of places.now literals.now key.old.items) }
    ensures bytes { OnOk result (AreBytes literals.now) }
{
    if begin_at_zero(literals) {
        return Ok(());
    }
    put_lows_of(places, literals, key)
}

/// Returns the key of a cube: its lows that aren't 0, in the order of the places, each as one number with how many places
/// are left.
fn key_of(
    alloc: Global,
    places: &[u16; VARIABLES],
    cube: &Cube,
) -> Result<SmallVec<u32, INLINE_NUMBERS>, OutOfMemory>
    ensures key { IfOk result (λ key. (variables : List ℕ) → ArePlaces variables places.now → key.items ≡ key_by variables cube.now) }
    ensures bytes { IfOk result (λ _. AreBytes cube.now) }
{
    let mut key = SmallVec::new(alloc);
    let mut left = cube.literals();
    // few literals of a cube have a low above 0, so most blocks are passed over by one test
    while let Some((block, rest)) = left.split_first_chunk::<BLOCK>() {
        put_block(places, block, &mut key)?;
        left = rest;
    }
    put_lows_of(places, left, &mut key)?;
    Ok(key)
}

/// A column with the key of its cube.
#[derive(Drop)]
struct Ranked<T> {
    /// The key of the column's cube.
    key: SmallVec<u32, INLINE_NUMBERS>,
    /// The column itself.
    column: T,
}

/// Returns the columns, each with the key of its cube.
fn with_keys<T: Cubed + Drop>(
    alloc: Global,
    variables: &[u8],
    columns: Vec<T>,
) -> Result<Vec<Ranked<T>>, OutOfMemory>
    requires few { length variables.now ≤ 256 }
    requires apart { AllPairs (λ u v. u ≢ v) variables.now }
    ensures columns { IfOk result (λ r. map (λ x. x.column) r.items ≡ columns.items) }
    ensures keys { IfOk result (λ r. All (λ x. IsKeyOf variables.now (T.cubed x.column) x.key.items) r.items) }
{
    let places = places_of(variables);
    let mut ranked = Vec::new(alloc);
    ranked.reserve(columns.len())?;
    for column in columns {
        let key = key_of(alloc, &places, column.cube())?;
        ranked.push(Ranked { key, column })?;
    }
    Ok(ranked)
}

/// Returns the columns without their keys.
fn without_keys<T: Drop>(alloc: Global, ranked: Vec<Ranked<T>>) -> Result<Vec<T>, OutOfMemory>
    ensures { IfOk result (λ r. r.items ≡ map (λ x. x.column) ranked.items) }
{
    let columns = ranked.into_iter().map(|one| one.column).collect(alloc)?;
    Ok(columns)
}

/// Returns the columns sorted by the least scenario that each matches: no cube's lows come before those of an earlier column,
/// along the order. The one error is `OutOfMemory`.
pub fn by_least_scenario<T: Cubed + Drop>(
    alloc: Global,
    problem: &Problem,
    order: &Order,
    columns: Vec<T>,
) -> Result<Vec<T>, OutOfMemory>
    requires { IsPermutation (numbers_below (process_count problem.now)) order.now }
    ensures permutation { IfOk result (λ r. IsPermutation columns.items r.items) }
    ensures by_lows { IfOk result (λ r. AreByLows T.cubed problem.now order.now r.items) }
{
    // asked only for its clause: a problem is within the limits of a graph file, so there are at most 256 variables
    let _processes = problem.processes();
    let variables = variables_along(alloc, problem, order.processes())?;
    let mut ranked = with_keys(alloc, variables.as_slice(), columns)?;
    ranked.sort_unstable_by(|a, b| a.key.as_slice().cmp(&b.key.as_slice()));
    without_keys(alloc, ranked)
}

/// The place of a column with the key of its cube.
#[derive(Drop)]
struct Placed {
    /// The key of the column's cube.
    key: SmallVec<u32, INLINE_NUMBERS>,
    /// The column's place in the list.
    place: usize,
}

/// Returns the second of two if its key is before that of the first, and otherwise the first.
fn lesser(first: Placed, second: Placed) -> Placed
    ensures { result ≡ (if is_below second.key.items first.key.items then second else first) }
{
    if second.key.as_slice().cmp(&first.key.as_slice()).is_lt() {
        second
    } else {
        first
    }
}

/// Returns the place of the first column with the least key; `None` exactly if there is no column.
fn first_by_key<T: Cubed>(
    alloc: Global,
    variables: &[u8],
    columns: &[T],
) -> Result<Option<usize>, OutOfMemory>
    requires few { length variables.now ≤ 256 }
    requires apart { AllPairs (λ u v. u ≢ v) variables.now }
    ensures none { IfOk result (λ r. IfNone r (columns.now ≡ [])) }
    ensures first { IfOk result (λ r. IfSome r (IsFirstByKeys T.cubed variables.now (length columns.now) columns.now)) }
{
    if columns.is_empty() {
        return Ok(None);
    }
    let places = places_of(variables);
    let key = key_of(alloc, &places, columns[0].cube())?;
    let mut best = Placed { key, place: 0 };
    // the first column is the best so far, and each other one is compared with the best
    for place in 1..columns.len() {
        let key = key_of(alloc, &places, columns[place].cube())?;
        best = lesser(best, Placed { key, place });
    }
    Ok(Some(best.place))
}

/// Returns the place of the column with the least scenario: no cube's lows come before those of its cube, along the order.
/// `None` exactly if there is no column. The one error is `OutOfMemory`.
pub fn first_by_least_scenario<T: Cubed>(
    alloc: Global,
    problem: &Problem,
    order: &Order,
    columns: &[T],
) -> Result<Option<usize>, OutOfMemory>
    requires { IsPermutation (numbers_below (process_count problem.now)) order.now }
    ensures none { IfOk result (λ r. IfNone r (columns.now ≡ [])) }
    ensures first { IfOk result (λ r. IfSome r (IsFirstByLows T.cubed problem.now order.now columns.now)) }
{
    // asked only for its clause: a problem is within the limits of a graph file, so there are at most 256 variables
    let _processes = problem.processes();
    let variables = variables_along(alloc, problem, order.processes())?;
    let place = first_by_key(alloc, variables.as_slice(), columns)?;

    Ok(place)
}
