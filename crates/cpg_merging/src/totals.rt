//! Totals of columns: sums over their literals that show where no two columns touch.
ghost use Rattle.std.specs.Prelude.{◌≡◌, ◌+◌, ◌%◌, ◌^◌, ◌<◌, Contains, IfOk, length, map};
ghost use Rattle.std.specs.Bool.{OnFalse};
ghost use Rattle.cpg_merging.specs.Totals.{AreSums, HasNoPartner, IsSieve, hash_of, mixed, number_of, place_in, total_by, total_of};

use cpg_base::OutOfMemory;
use cpg_cube::{Column, Literal};
use std::alloc::Global;

/// The multiplier of Knuth's linear congruential generator of 64 bits.
const MULTIPLIER: u64 = 6_364_136_223_846_793_005;

/// How many places a sieve has for each number, so that most other numbers find no mark.
const PLACES_PER_NUMBER: usize = 16;

/// 2^32, which splits a number of 64 bits into its halves.
const HALF: u64 = 4_294_967_296;

/// Mixes a number into a sum, and spreads the result over 64 bits.
pub(crate) fn mixed(sum: u64, number: u64) -> u64
    ensures { result ≡ mixed sum number }
{
    sum.wrapping_add(number).wrapping_mul(MULTIPLIER)
}

/// Returns the number of a literal, in base 256: its variable, its low and its high. No two literals have one number.
fn number_of(literal: Literal) -> u64
    ensures { result ≡ number_of literal }
{
    let variable = u64::from(literal.variable);
    let low = u64::from(literal.low);
    let high = u64::from(literal.high);
    variable * 65536 + low * 256 + high
}

/// Returns the hash of a literal. Equal sums of several hashes come about by chance alone.
fn hash_of(literal: Literal) -> u64
    ensures { result ≡ hash_of literal }
{
    let spread = mixed(1, number_of(literal));
    // a product isn't linear in the literal's number, so that differences of literals don't cancel out
    spread.wrapping_mul(spread / HALF)
}

/// Returns the total of a time and literals: their hashes, added up.
fn total_by(time: u64, literals: &[Literal]) -> u64
    ensures { result ≡ total_by time literals.now }
{
    let mut total = mixed(0, time);
    for literal in literals {
        total = total.wrapping_add(hash_of(*literal));
    }
    total
}

/// Returns the totals of the columns. The one error is `OutOfMemory`.
pub(crate) fn totals(alloc: Global, columns: &[&Column]) -> Result<Vec<u64>, OutOfMemory>
    ensures { IfOk result (λ totals. totals.items ≡ map total_of (map (λ b. b.now) columns.now)) }
{
    let mut totals = Vec::new(alloc);
    totals.reserve(columns.len())?;
    for column in columns {
        totals.push(total_by(column.time, column.cube.literals()))?;
    }
    Ok(totals)
}

/// Returns the place of a number's mark in a sieve with `count` places: its upper half, scaled to `count`.
#[tactic(auto, unfolding(crate::specs::Totals::place_in))]
pub(crate) fn place_in(count: usize, number: u64) -> usize
    requires { 0 < count }
    ensures place { result ≡ place_in count number }
    ensures within { result < count }
{
    // the quotient is below `count`, so the cast keeps it
    (u128::from(number / HALF) * count as u128 / u128::from(HALF)) as usize
}

/// Marks the place of each number in the sieve.
fn put_each(sieve: &mut [bool], numbers: &[u64])
    requires { 0 < length sieve.old }
    ensures long { length sieve.new ≡ length sieve.old }
    ensures sieve { IsSieve sieve.new numbers.now }
{
    let count = sieve.len();
    for number in numbers {
        let place = place_in(count, *number);
        sieve[place] = true;
    }
}

/// Returns a sieve that marks the places of these numbers. Most other numbers have no mark at their places. The one
/// error is `OutOfMemory`.
pub(crate) fn sieve_of(alloc: Global, numbers: &[u64]) -> Result<Vec<bool>, OutOfMemory>
    ensures some { IfOk result (λ sieve. 0 < length sieve.items) }
    ensures sieve { IfOk result (λ sieve. IsSieve sieve.items numbers.now) }
{
    // one number more than there are, so that there is a place if there are none
    let count = numbers
        .len()
        .saturating_add(1)
        .saturating_mul(PLACES_PER_NUMBER);
    let mut sieve = vec![in alloc; false; count]?;
    put_each(sieve.as_mut_slice(), numbers);
    Ok(sieve)
}

/// The totals of some columns, sorted, with a sieve that shows most numbers not to be among them.
#[derive(Clone, Copy)]
pub(crate) struct Sums<'a> {
    /// The totals, the least first.
    pub(crate) sorted: &'a [u64],
    /// A sieve that marks each of them.
    pub(crate) sieve: &'a [bool],
}

/// Returns a total without the hash of one literal.
fn rest_of(total: u64, hash: u64) -> u64
    ensures { (result + hash) % 2 ^ 64 ≡ total }
{
    total.wrapping_sub(hash)
}

/// Whether a number is among the totals. Callers rely only on the answer no.
fn is_there(sums: Sums<'_>, number: u64) -> bool
    requires { AreSums sums.sorted.now sums.sieve.now }
    ensures { OnFalse result (Contains sums.entry.sorted.now number → ⊥) }
{
    // mostly it isn't, and the sieve shows that without a search
    if !sums.sieve[place_in(sums.sieve.len(), number)] {
        return false;
    }
    sums.sorted.binary_search(&number).is_ok()
}

/// Whether a column with this total may follow another one at a literal: with a literal instead that ends right
/// before, it would have a total that is among these. Callers rely only on the answer no.
pub(crate) fn has_partner(sums: Sums<'_>, total: u64, literal: Literal) -> bool
    requires { AreSums sums.sorted.now sums.sieve.now }
    ensures { OnFalse result (HasNoPartner sums.entry.sorted.now total literal) }
{
    // no range ends before 0
    if literal.low == 0 {
        return false;
    }
    let rest = rest_of(total, hash_of(literal));
    // the other column's range ends right before the literal's, and may begin anywhere from 0 on
    for low in 0..literal.low {
        let ended = Literal {
            variable: literal.variable,
            low,
            high: literal.low - 1,
        };
        if is_there(sums, rest.wrapping_add(hash_of(ended))) {
            return true;
        }
    }
    false
}
