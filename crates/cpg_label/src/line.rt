//! The text of a column's literals. What it has in common with that of the column before is kept. There is room for all
//! literals that a column may have, so that writing asks for no memory.
ghost use Rattle.std.specs.Prelude.{◌≡◌, ◌+◌, ◌*◌, ◌<◌, ◌≤◌, ◌++◌, ◌∷◌, [], IfOk, get_or, length, take};
ghost use Rattle.std.specs.Bool.{OnTrue};
ghost use Rattle.cpg_cube.specs.Cube.{IsRising};
ghost use Rattle.cpg_label.specs.Labels.{Labels};
ghost use Rattle.cpg_label.specs.Lines.{AreAlike, IsLine, IsLineOf, front_text};

use crate::columns::{MOST_LITERAL, place_after};
use crate::labels::Labels;
use cpg_cube::Literal;
use std::alloc::{AllocError, Global};

/// The most literals that a column may have: their variables are bytes, and rise.
const MOST_LITERALS: usize = 256;

/// The text of `count` literals. Each list has room for 256 literals, and after its part for these `count` what is left
/// of earlier ones.
#[derive(Drop)]
pub struct Line {
    /// How many literals the line has.
    count: usize,
    /// The literals.
    literals: Vec<Literal>,
    /// Their text.
    text: Vec<u8>,
    /// At each n from 0 to `count`, how long the text of the first n literals is.
    ends: Vec<usize>,
}

/// Returns whether two literals are the same; `true` guarantees it.
fn is_same(first: Literal, second: Literal) -> bool
    ensures { OnTrue result (first ≡ second) }
{
    (first.variable == second.variable) & (first.low == second.low) & (first.high == second.high)
}

/// Returns whether the literals of two blocks are the same; `true` guarantees it. It never stops early, so that the
/// compiler can compare several at once.
fn are_same<const N: usize>(first: &[Literal; N], second: &[Literal; N]) -> bool
    ensures { OnTrue result (first.now ≡ second.now) }
{
    let mut are = true;
    for at in 0..N {
        are &= is_same(first[at], second[at]);
    }
    are
}

/// Returns a place up to which two lists are alike: the start of the first block of eight that differs, or that one of
/// them hasn't whole.
fn front_by_eights(first: &[Literal], second: &[Literal]) -> usize
    ensures { AreAlike first.now second.now result }
{
    let mut left = first;
    let mut right = second;
    let mut place = 0;
    while let Some((block, rest)) = left.split_first_chunk::<8>() {
        // the second list has no block of eight left
        let Some((other, behind)) = right.split_first_chunk::<8>() else {
            return place;
        };
        if !are_same(block, other) {
            return place;
        }
        place += 8;
        left = rest;
        right = behind;
    }
    place
}

/// Returns a place up to which two lists are alike: four after `place`, up to which they are, if both have four more
/// literals and these are the same; and `place` otherwise.
fn front_by_four(first: &[Literal], second: &[Literal], place: usize) -> usize
    requires { AreAlike first.now second.now place }
    ensures { AreAlike first.now second.now result }
{
    let Some((block, _)) = first[place..].split_first_chunk::<4>() else {
        return place;
    };
    let Some((other, _)) = second[place..].split_first_chunk::<4>() else {
        return place;
    };
    if are_same(block, other) {
        return place + 4;
    }
    place
}

/// Returns a place up to which two lists are alike, comparing one literal after another from such a place on. It is the
/// first where they differ or one of them ends; the contract says only that they are alike up to it.
fn front_from(first: &[Literal], second: &[Literal], from: usize) -> usize
    requires { AreAlike first.now second.now from }
    ensures { AreAlike first.now second.now result }
{
    let count = first.len().min(second.len());
    let mut place = from;
    while place < count {
        if !is_same(first[place], second[place]) {
            return place;
        }
        place += 1;
    }
    place
}

/// Returns the place of the first literal in which two lists differ, or where one of them ends; the contract says only
/// that they are alike up to it. Columns that are neighbours mostly differ in the last literals alone, so it compares
/// many at once.
fn common_front(first: &[Literal], second: &[Literal]) -> usize
    ensures { AreAlike first.now second.now result }
{
    let eights = front_by_eights(first, second);
    let place = front_by_four(first, second, eights);
    front_from(first, second, place)
}

/// Returns how many variables there are up to this one.
fn count_up_to(variable: u8) -> usize
    ensures count { result ≡ variable + 1 }
    ensures few { result ≤ MOST_LITERALS }
{
    usize::from(variable) + 1
}

/// Literals whose variables rise are at most 256. The function does nothing and is there for its contract.
fn are_few(literals: &[Literal])
    requires { IsRising literals.now }
    ensures { length literals.now ≤ MOST_LITERALS }
{
    if let Some(last) = literals.last() {
        // called for its contract: n literals that rise have variables up to n - 1 at least
        let _count = count_up_to(last.variable);
    }
}

impl Line {
    /// Returns the line of no literals; `Err` only if memory runs out.
    pub fn new(alloc: Global) -> Result<Line, AllocError>
        ensures { IfOk result (λ line. (labels : Labels) → IsLine labels line) }
    {
        let literals = vec![in alloc; Literal::default(); MOST_LITERALS]?;
        let text = vec![in alloc; 0; MOST_LITERALS * MOST_LITERAL]?;
        let ends = vec![in alloc; 0; MOST_LITERALS + 1]?;
        Ok(Line {
            count: 0,
            literals,
            text,
            ends,
        })
    }

    /// Returns the literals of the line.
    fn literals(&self) -> &[Literal]
        requires { self.now.count ≤ length self.now.literals.items }
        ensures { result.now ≡ take self.now.count self.now.literals.items }
    {
        &self.literals[..self.count]
    }

    /// Keeps the first `count` literals and drops the others. `labels` is there for the contract alone.
    fn keep(&mut self, labels: &Labels<'_>, count: usize)
        requires line { IsLine labels.now self.old }
        requires within { count ≤ self.old.count }
        ensures line { IsLine labels.now self.new }
        ensures literals { take self.new.count self.new.literals.items ≡ take count self.old.literals.items }
        ensures count { self.new.count ≡ count }
    {
        self.count = count;
    }

    /// Adds a literal and its text.
    fn add(&mut self, labels: &Labels<'_>, literal: Literal)
        requires line { IsLine labels.now self.old }
        requires few { self.old.count < MOST_LITERALS }
        ensures line { IsLine labels.now self.new }
        ensures literals { take self.new.count self.new.literals.items ≡ take self.old.count self.old.literals.items ++ literal ∷ [] }
        ensures count { self.new.count ≡ self.old.count + 1 }
    {
        let count = self.count;
        // where the text so far ends
        let at = self.ends[count];
        let end = place_after(self.text.as_mut_slice(), at, labels, count, literal);
        self.literals[count] = literal;
        self.ends[count + 1] = end;
        self.count = count + 1;
    }

    /// Adds literals and their text.
    fn add_all(&mut self, labels: &Labels<'_>, literals: &[Literal])
        requires line { IsLine labels.now self.old }
        requires few { self.old.count + length literals.now ≤ MOST_LITERALS }
        ensures line { IsLine labels.now self.new }
        ensures literals { take self.new.count self.new.literals.items ≡ take self.old.count self.old.literals.items ++ literals.now }
    {
        for literal in literals {
            self.add(labels, *literal);
        }
    }

    /// Turns the line into that of these literals, whose variables rise.
    pub fn turn_into(&mut self, labels: &Labels<'_>, literals: &[Literal])
        requires line { IsLine labels.now self.old }
        requires rising { IsRising literals.now }
        ensures { IsLineOf labels.now literals.now self.new }
    {
        // called for its contract: the literals find room
        are_few(literals);
        // the literals that both begin with stay, with their text
        let count = common_front(self.literals(), literals);
        self.keep(labels, count);
        self.add_all(labels, &literals[count..]);
    }

    /// Returns the text of the line's literals, which is empty if there are none. `labels` and `literals` are there for the
    /// contract alone.
    pub fn text(&self, labels: &Labels<'_>, literals: &[Literal]) -> &[u8]
        requires { IsLineOf labels.now literals.now self.now }
        ensures { result.now ≡ front_text labels.now literals.now }
    {
        let end = self.ends[self.count];
        &self.text[..end]
    }
}
