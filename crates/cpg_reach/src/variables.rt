//! Sets of variables.
ghost use Rattle.std.specs.Prelude.{◌≡◌, ◌<◌, ◌≤◌, ◌∷◌, [], ◌||◌, ℕ, false, length, get_or};
ghost use Rattle.cpg_order.specs.Reach.{is_in};
ghost use Rattle.cpg_order.specs.Elements.{SameElements};
ghost use Rattle.cpg_reach.specs.Variables.{Adds};

use cpg_base::{MOST_CONDITIONS, MOST_PROCESSES};
use std::marker::Model;

/// How many variables there are: the fault counts of 128 processes, then the values of 32 conditions.
const MOST_VARIABLES: usize = MOST_PROCESSES + MOST_CONDITIONS;
/// The variable of the value of condition 0; those of the others follow. Here it has 32 bits, as conditions do.
pub const FIRST_VALUE: u32 = cpg_base::FIRST_VALUE as u32;

/// A set of variables. A contract sees it as the list of their numbers.
#[derive(Drop)]
pub struct Variables {
    /// Whether each variable is in the set, by number.
    marks: [bool; MOST_VARIABLES],
}

impl Model for Variables {
    ghost use Rattle.std.specs.Prelude.{List, ℕ};
    ghost use Rattle.cpg_reach.specs.Variables.{members};

    ghost Value = { List ℕ };

    ghost view = { λ s. members s.marks };
}

/// Marks in `marks` what `others` marks; what is marked already stays so.
fn unite(marks: &mut [bool], others: &[bool])
    requires { length marks.old ≡ length others.now }
    ensures { (v : ℕ) → get_or marks.new v false ≡ (get_or marks.old v false || get_or others.now v false) }
{
    for variable in 0..marks.len() {
        marks[variable] |= others[variable];
    }
}

impl Variables {
    /// Returns the empty set.
    pub fn none() -> Variables
        ensures { (v : ℕ) → is_in result v ≡ false }
    {
        Variables {
            marks: [false; MOST_VARIABLES],
        }
    }

    /// Whether a variable is in the set.
    pub fn has(&self, variable: u32) -> bool
        requires { variable < 160 }
        ensures { result ≡ is_in self.now variable }
    {
        self.marks[variable as usize]
    }

    /// Adds a variable.
    pub fn insert(&mut self, variable: u32)
        requires { variable < 160 }
        ensures { Adds self.old (variable ∷ []) self.new }
    {
        self.marks[variable as usize] = true;
    }

    /// Adds the variables of another set.
    pub fn add(&mut self, others: &Variables)
        ensures { Adds self.old others.now self.new }
    {
        unite(&mut self.marks, &others.marks);
    }

    /// Returns an equal set.
    pub fn copy(&self) -> Variables
        ensures { result ≡ self.now }
    {
        Variables { marks: self.marks }
    }
}
