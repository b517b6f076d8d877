//! The cube of a path down a tree, narrowed and restored in place.
ghost use Rattle.std.specs.Prelude.{◌≡◌, ◌<◌, ◌≤◌, [], All, IfOk, insert, length, remove, vec_len, vec_capacity};
ghost use Rattle.cpg_cube.specs.Narrow.{narrowed_by};
ghost use Rattle.cpg_cube.specs.Undo.{IsOn, IsUndo, restored};
ghost use Rattle.cpg_tree_columns.specs.Path.{IsPath};

use cpg_base::OutOfMemory;
use cpg_cube::{Literal, Narrowing, VARIABLES, first_literal_from, is_above};
use std::alloc::Global;
use std::marker::Model;

/// The most literals that a cube has: one for each variable.
const MOST_LITERALS: usize = VARIABLES;

/// A cube that is narrowed on the way down and restored on the way up. A contract sees it as the list of its literals,
/// by rising variable. It takes all its memory when it is made, so that no step can fail.
#[derive(Drop)]
pub struct PathCube {
    /// The literals of the path, by rising variable; at most one of each.
    literals: Vec<Literal>,
}

impl Model for PathCube {
    ghost use Rattle.std.specs.Prelude.{List, ◌≤◌, vec_capacity};
    ghost use Rattle.cpg_cube.specs.declared.literal.Literal.{Literal};
    ghost use Rattle.cpg_tree_columns.specs.Path.{IsPath};

    ghost Value = { List Literal };

    ghost view = { λ c. c.literals.items };

    ghost invariant = { λ c. IsPath c.literals.items × (256 ≤ vec_capacity c.literals) };
}

/// Adds a literal behind all others, whose variables are less, and returns that step.
fn put_last(literals: &mut Vec<Literal>, literal: Literal) -> Narrowing
    requires room { vec_len literals.old < vec_capacity literals.old }
    requires above { All (λ l. l.variable < literal.variable) literals.old.items }
    ensures narrowed { literals.new.items ≡ narrowed_by literal literals.old.items }
    ensures undo { IsUndo result literals.new.items literals.old.items }
    ensures on { IsOn literal.variable result literals.new.items }
    ensures capacity { vec_capacity literals.old ≤ vec_capacity literals.new }
{
    let place = literals.len();
    literals.push_reserved(literal);
    Narrowing { place, was: None }
}

/// Inserts a literal at a place. There is room, so this can't fail.
fn put_at(literals: &mut Vec<Literal>, place: usize, literal: Literal)
    requires room { vec_len literals.old < vec_capacity literals.old }
    requires place { place ≤ vec_len literals.old }
    ensures items { literals.new.items ≡ insert literals.old.items place literal }
    ensures capacity { vec_capacity literals.old ≤ vec_capacity literals.new }
{
    if literals.insert(place, literal).is_err() {
        // only memory could run out, and there is room
        unreachable!()
    }
}

/// Narrows the cube by a literal, and returns that step: the literal is put in its place, or met with the one on its
/// variable.
fn narrow_between(literals: &mut Vec<Literal>, literal: Literal) -> Narrowing
    requires path { IsPath literals.old.items }
    requires room { 256 ≤ vec_capacity literals.old }
    ensures narrowed { literals.new.items ≡ narrowed_by literal literals.old.items }
    ensures undo { IsUndo result literals.new.items literals.old.items }
    ensures on { IsOn literal.variable result literals.new.items }
    ensures capacity { 256 ≤ vec_capacity literals.new }
{
    // no literal is on its variable or a later one, so it goes to the end
    let Some(place) = first_literal_from(literals.as_slice(), literal.variable) else {
        let place = literals.len();
        literals.push_reserved(literal);
        return Narrowing { place, was: None };
    };
    let other = literals[place];
    if other.variable == literal.variable {
        literals[place] = literal.met(other);
        return Narrowing {
            place,
            was: Some(other),
        };
    }
    put_at(literals, place, literal);
    Narrowing { place, was: None }
}

/// Takes out the literal at a place. It is mostly the last one, for which nothing has to move.
fn take_off(literals: &mut Vec<Literal>, place: usize)
    requires { place < length literals.old.items }
    ensures items { literals.new.items ≡ remove literals.old.items place }
    ensures capacity { vec_capacity literals.old ≤ vec_capacity literals.new }
{
    if place + 1 == literals.len() {
        literals.truncate(place);
    } else {
        literals.remove(place);
    }
}

impl PathCube {
    /// Returns the cube without literals, with room for all that it may get. The one error is `OutOfMemory`.
    pub fn whole(alloc: Global) -> Result<PathCube, OutOfMemory>
        ensures { IfOk result (λ path. path ≡ []) }
    {
        let literals = Vec::with_capacity(alloc, MOST_LITERALS)?;
        Ok(PathCube { literals })
    }

    /// Returns the literals, by rising variable.
    pub fn literals(&self) -> &[Literal]
        ensures literals { result.now ≡ self.now }
        ensures path { IsPath self.now }
    {
        self.literals.as_slice()
    }

    /// Narrows the cube by a literal, and returns that step, with which `exchange` and `restore` undo it.
    #[inline]
    pub fn narrow(&mut self, literal: Literal) -> Narrowing
        ensures narrowed { self.new ≡ narrowed_by literal self.old }
        ensures undo { IsUndo result self.new self.old }
        ensures on { IsOn literal.variable result self.new }
        ensures path { IsPath self.old }
    {
        // on the way down a variable is mostly above all others
        if is_above(self.literals.as_slice(), literal.variable) {
            return put_last(&mut self.literals, literal);
        }
        narrow_between(&mut self.literals, literal)
    }

    /// Undoes a step and narrows the cube by another literal on the same variable instead. The step then undoes that
    /// one.
    #[inline]
    pub fn exchange(&mut self, step: Narrowing, literal: Literal)
        requires within { step.place < length self.old }
        requires path { IsPath (restored step self.old) }
        requires on { IsOn literal.variable step self.old }
        ensures narrowed { self.new ≡ narrowed_by literal (restored step self.old) }
        ensures undo { IsUndo step self.new (restored step self.old) }
    {
        let left = step.left(literal);
        self.literals[step.place] = left;
    }

    /// Undoes a step, which has to be the last one that isn't undone.
    #[inline]
    pub fn restore(&mut self, step: Narrowing)
        requires within { step.place < length self.old }
        requires path { IsPath (restored step self.old) }
        ensures { self.new ≡ restored step self.old }
    {
        match step.was {
            Some(literal) => self.literals[step.place] = literal,
            None => take_off(&mut self.literals, step.place),
        }
    }
}
