//! What a search has found about lists of cubes, to be recalled if it comes to the same list again.
ghost use Rattle.std.specs.Prelude.{◌≡◌, IfOk, IfSome};
ghost use Rattle.std.specs.Bool.{OnTrue};
ghost use Rattle.cpg_cover.specs.Fewest.{Needs};

use cpg_base::OutOfMemory;
use cpg_cube::{Cube, Literal};
use std::alloc::Global;
use std::marker::Model;

/// How many buckets the facts are spread over. A sum of the cubes that a fact is about says in which one it lies, so that
/// few facts are looked through.
const BUCKETS: u32 = 1024;

/// How much room all facts may take together, counted in literals of 3 bytes: 4 Mi of these, which is 12 MiB.
const MOST_ROOM: usize = 1 << 22;

/// How many cubes the first question of a memory may look at.
const FIRST_LOOKS: u64 = 1 << 22;

/// How many cubes each later question may look at, at least.
const LATER_LOOKS: u64 = 1 << 14;

/// A fact: how many faults a scenario has at least if none of some cubes matches it.
#[derive(Drop)]
pub(crate) struct Fact {
    /// The cubes.
    cubes: Vec<Cube>,
    /// A lower bound of the faults of scenarios that none of the cubes matches.
    fewest: u8,
    /// Whether the bound is believed to be exact, so that it answers for every budget. No clause speaks of this.
    is_exact: bool,
}

impl Model for Fact {
    ghost use Rattle.std.specs.Prelude.{List, ℕ};
    ghost use Rattle.cpg_cube.specs.declared.literal.Literal.{Literal};
    ghost use Rattle.cpg_cover.specs.Fewest.{Needs};

    ghost Value = { List (List Literal) × ℕ };

    ghost view = { λ f. (f.cubes.items, f.fewest) };

    ghost invariant = { λ f. Needs f.cubes.items f.fewest };
}

/// Returns a list of equal cubes. The one error is `OutOfMemory`.
fn copy_of(alloc: Global, cubes: &[Cube]) -> Result<Vec<Cube>, OutOfMemory>
    ensures { IfOk result (λ copies. copies.items ≡ cubes.now) }
{
    let mut copies = Vec::new(alloc);
    copies.reserve(cubes.len())?;
    for cube in cubes {
        copies.push(cube.copy()?)?;
    }
    Ok(copies)
}

/// Whether two literals are equal.
fn is_same(literal: &Literal, other: &Literal) -> bool
    ensures { OnTrue result (literal.now ≡ other.now) }
{
    if literal.variable != other.variable {
        return false;
    }
    if literal.low != other.low {
        return false;
    }
    if literal.high != other.high {
        return false;
    }
    true
}

/// Whether two lists of literals are equal.
fn are_equal(literals: &[Literal], others: &[Literal]) -> bool
    ensures { OnTrue result (literals.now ≡ others.now) }
{
    if literals.len() != others.len() {
        return false;
    }
    for (place, literal) in literals.iter().enumerate() {
        if !is_same(literal, &others[place]) {
            return false;
        }
    }
    true
}

/// Whether two lists of cubes are equal.
fn are_same(cubes: &[Cube], others: &[Cube]) -> bool
    ensures { OnTrue result (cubes.now ≡ others.now) }
{
    if cubes.len() != others.len() {
        return false;
    }
    for (place, cube) in cubes.iter().enumerate() {
        if !are_equal(cube.literals(), others[place].literals()) {
            return false;
        }
    }
    true
}

/// Returns a sum that depends on an earlier one and on a literal. The factor, 2^32 divided by the golden ratio, and the
/// rotation spread similar literals.
fn mixed(sum: u32, literal: &Literal) -> u32 {
    let number = (literal.variable as u32) << 16
        | (literal.low as u32) << 8
        | (literal.high as u32);
    (sum ^ number).wrapping_mul(0x9E37_79B1).rotate_left(13)
}

/// Returns a sum that depends on an earlier one and on the literals of a cube. The number added at the end, which has no
/// meaning but to be odd and large, tells where a cube ends.
fn sum_of(sum: u32, literals: &[Literal]) -> u32 {
    let mut sum = sum;
    for literal in literals {
        sum = mixed(sum, literal);
    }
    sum.wrapping_add(0x85EB_CA6B)
}

/// Returns the number of the bucket in which the facts about a list of cubes lie.
fn bucket_of(cubes: &[Cube]) -> usize {
    let mut sum = 0;
    for cube in cubes {
        sum = sum_of(sum, cube.literals());
    }
    (sum % BUCKETS) as usize
}

impl Fact {
    /// Returns the fact that a scenario has at least `fewest` faults if none of the cubes matches it. The one error is
    /// `OutOfMemory`.
    pub(crate) fn new(
        alloc: Global,
        cubes: &[Cube],
        fewest: u8,
        is_exact: bool,
    ) -> Result<Fact, OutOfMemory>
        requires { Needs cubes.now fewest }
    {
        let cubes = copy_of(alloc, cubes)?;
        Ok(Fact {
            cubes,
            fewest,
            is_exact,
        })
    }

    /// Returns the fact's number if the fact is about these cubes and settles a question with this budget; `None` otherwise.
    fn answer(&self, cubes: &[Cube], budget: u8) -> Option<u8>
        ensures { IfSome result (Needs cubes.now) }
    {
        // the fact is only a bound, which doesn't say enough for this many faults
        if !self.is_exact && self.fewest <= budget {
            return None;
        }
        // the fact is about another list in the same bucket
        if !are_same(self.cubes.as_slice(), cubes) {
            return None;
        }
        Some(self.fewest)
    }

    /// Returns how much room the fact takes, counted in literals.
    fn room(&self) -> usize {
        let mut room = 0usize;
        for cube in self.cubes.as_slice() {
            // a cube takes about as much as 16 literals besides its own
            room = room.saturating_add(cube.literals().len() + 16);
        }
        room
    }
}

/// The facts that a search has found, within the room there is, and how much the present question may still look at.
#[derive(Drop)]
pub(crate) struct Memory {
    /// The facts, each in the bucket of the cubes that it is about; empty until the first is kept.
    buckets: Vec<Vec<Fact>>,
    /// How much room all facts take.
    room_taken: usize,
    /// How many questions were asked.
    questions: u64,
    /// How many cubes the present question may still look at.
    looks_left: u64,
}

impl Memory {
    /// Returns a memory without facts.
    pub(crate) fn new(alloc: Global) -> Memory {
        Memory {
            buckets: Vec::new(alloc),
            room_taken: 0,
            questions: 0,
            looks_left: 0,
        }
    }

    /// Begins a question. The first one may take long. Of the later ones most take little: each second one may look at twice
    /// as many cubes, each fourth at four times as many, and so on, so that all together are near linear in their number.
    pub(crate) fn begin(&mut self) {
        self.looks_left = if self.questions == 0 {
            FIRST_LOOKS
        } else {
            // 2^14 shifted by at most 20 fits
            LATER_LOOKS << self.questions.trailing_zeros().min(20)
        };
        self.questions = self.questions.saturating_add(1);
    }

    /// Whether the present question has taken as much as it may.
    pub(crate) fn is_spent(&self) -> bool {
        self.looks_left == 0
    }

    /// Takes `cubes` from the number of cubes that the present question may still look at.
    pub(crate) fn spend(&mut self, cubes: usize) {
        self.looks_left = self.looks_left.saturating_sub(cubes as u64);
    }

    /// Returns how many faults a scenario has at least if none of the cubes matches it, if a fact is kept that settles a
    /// question with this budget; `None` otherwise.
    pub(crate) fn recall(&self, cubes: &[Cube], budget: u8) -> Option<u8>
        ensures { IfSome result (Needs cubes.now) }
    {
        // without buckets no fact is kept yet
        let bucket = self.buckets.get(bucket_of(cubes))?;
        for fact in bucket {
            if let Some(fewest) = fact.answer(cubes, budget) {
                return Some(fewest);
            }
        }
        None
    }

    /// Makes the buckets, if there are none yet.
    fn make_buckets(&mut self) -> Result<(), OutOfMemory> {
        if !self.buckets.is_empty() {
            return Ok(());
        }
        let alloc = *self.buckets.allocator();
        for _ in 0..BUCKETS {
            self.buckets.push(Vec::new(alloc))?;
        }
        Ok(())
    }

    /// Keeps a fact if there is room for it, and drops it if not. The one error is `OutOfMemory`.
    pub(crate) fn keep(&mut self, fact: Fact) -> Result<(), OutOfMemory> {
        self.make_buckets()?;
        let room_taken = self.room_taken.saturating_add(fact.room());
        // there is no room left
        if room_taken > MOST_ROOM {
            return Ok(());
        }
        // the buckets are made, so there is this one; no clause says so
        if let Some(bucket) = self.buckets.get_mut(bucket_of(fact.cubes.as_slice())) {
            bucket.push(fact)?;
            self.room_taken = room_taken;
        }
        Ok(())
    }
}
