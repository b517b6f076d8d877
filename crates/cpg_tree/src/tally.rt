//! Counts of the numbers at which the ranges of literals begin and end, to choose the fork that parts columns best. The choice
//! only decides how good a tree becomes: no clause speaks of it.
use cpg_base::{MOST_FAULTS, OutOfMemory};
use cpg_cube::{Literal, VARIABLES};
use std::alloc::Global;

/// How many numbers of a variable have a place in a table: more than the 9 that a fault count can have.
const NUMBERS: usize = 16;
/// How many counts a table has: `NUMBERS` for each of 256 variables.
const COUNTS: usize = 4096;
/// If there are at most this many columns, only the variables of one of them are looked at.
const FEW: u32 = 24;

/// A fork by whether a variable is at most a number, and how well it parts columns.
#[derive(Clone, Copy)]
pub struct Parting {
    /// The variable of the fork.
    pub variable: u8,
    /// The greatest number that goes below the fork.
    pub most: u8,
    /// Whether some column stands on both sides.
    is_shared: bool,
    /// The square of how many columns go below, plus that of how many go above: the less, the more evenly it parts them.
    cost: u64,
}

/// Rates a fork of `count` columns of which `below` go only below it and `above` only above it; the others go to both sides.
fn rated(variable: u8, most: u8, count: u32, below: u32, above: u32) -> Parting {
    let low = u64::from(count.saturating_sub(above));
    let high = u64::from(count.saturating_sub(below));
    Parting {
        variable,
        most,
        is_shared: below.saturating_add(above) < count,
        cost: low
            .saturating_mul(low)
            .saturating_add(high.saturating_mul(high)),
    }
}

impl Parting {
    /// Whether a fork is better than another. A fork that no column stands on both sides of is better, and among such
    /// forks the one that parts more evenly. If columns stand as the leaves of some tree, so do those on each side of
    /// such a fork.
    fn is_better(&self, other: &Parting) -> bool {
        if self.is_shared != other.is_shared {
            return other.is_shared;
        }
        self.cost < other.cost
    }
}

/// Returns the better of two forks: the first if both are as good, and the second if there is no first. It is never `None`.
fn better(first: Option<Parting>, second: Parting) -> Option<Parting> {
    match first {
        Some(parting) => {
            if second.is_better(&parting) {
                Some(second)
            } else {
                Some(parting)
            }
        }
        None => Some(second),
    }
}

/// Counts one more at a place. A place outside the table is passed over: no column of a graph's row has one.
fn raise(counts: &mut Vec<u32>, place: usize) {
    if let Some(count) = counts.get_mut(place) {
        *count = count.saturating_add(1);
    }
}

/// Sets the count at a place to 0, if the table has the place.
fn empty(counts: &mut Vec<u32>, place: usize) {
    if let Some(count) = counts.get_mut(place) {
        *count = 0;
    }
}

/// Returns the count at a place, or 0 if the table hasn't the place.
fn count_at(counts: &[u32], place: usize) -> u32 {
    match counts.get(place) {
        Some(count) => *count,
        None => 0,
    }
}

/// Returns the place in a table of the count for a number of a variable.
fn count_index(variable: u8, number: u8) -> usize {
    variable as usize * NUMBERS + number as usize
}

/// For each number of each variable, how many literals begin and how many end there. Without its tables it counts nothing.
#[derive(Drop)]
pub struct Tally {
    /// How many literals begin at each number of each variable.
    lows: Vec<u32>,
    /// How many literals end there.
    highs: Vec<u32>,
}

/// Makes a table in which every count is 0.
fn table(alloc: Global) -> Result<Vec<u32>, OutOfMemory> {
    let counts = vec![in alloc; 0u32; COUNTS]?;
    Ok(counts)
}

impl Tally {
    /// A tally of no columns, without tables. It finds no fork.
    pub fn new(alloc: Global) -> Tally {
        Tally {
            lows: Vec::new(alloc),
            highs: Vec::new(alloc),
        }
    }

    /// Whether the tally has its tables.
    pub fn has_tables(&self) -> bool {
        !self.lows.is_empty()
    }

    /// Makes the tables, if the tally has none yet. The one error is `OutOfMemory`.
    pub fn make_tables(&mut self, alloc: Global) -> Result<(), OutOfMemory> {
        if self.lows.is_empty() {
            self.lows = table(alloc)?;
            self.highs = table(alloc)?;
        }
        Ok(())
    }

    /// Counts one more column, by its literals.
    pub fn add(&mut self, literals: &[Literal]) {
        for literal in literals {
            raise(&mut self.lows, count_index(literal.variable, literal.low));
            raise(&mut self.highs, count_index(literal.variable, literal.high));
        }
    }

    /// Sets to 0 each count that a column's literals have raised, whatever other columns have added to it.
    pub fn clear(&mut self, literals: &[Literal]) {
        for literal in literals {
            empty(&mut self.lows, count_index(literal.variable, literal.low));
            empty(&mut self.highs, count_index(literal.variable, literal.high));
        }
    }

    /// Returns how many columns have a literal on a variable: all their literals begin at one of its numbers.
    fn count_on(&self, variable: u8) -> u32 {
        let mut count: u32 = 0;
        for number in 0..=MOST_FAULTS {
            count = count.saturating_add(count_at(
                self.lows.as_slice(),
                count_index(variable, number),
            ));
        }
        count
    }

    /// Returns the best of a fork found before and those on a variable that part `count` columns; `None` exactly if there is
    /// none of either.
    fn best_on(&self, variable: u8, count: u32, found: Option<Parting>) -> Option<Parting> {
        let mut best = found;
        let mut below: u32 = 0;
        let mut above = self.count_on(variable);
        // as the cut moves up, columns that end there go below it, and those that begin there no longer go above it
        for most in 0..MOST_FAULTS {
            let place = count_index(variable, most);
            below = below.saturating_add(count_at(self.highs.as_slice(), place));
            above = above.saturating_sub(count_at(self.lows.as_slice(), place));
            // a fork that leaves a side without columns of its own doesn't part them
            if below > 0 && above > 0 {
                best = better(best, rated(variable, most, count, below, above));
            }
        }
        best
    }

    /// Returns the best fork of `count` columns on the variables of some literals, or `None` if none parts the columns.
    fn best_among(&self, literals: &[Literal], count: u32) -> Option<Parting> {
        let mut best: Option<Parting> = None;
        for literal in literals {
            best = self.best_on(literal.variable, count, best);
        }
        best
    }

    /// Returns the best fork of `count` columns on any variable, or `None` if none parts the columns.
    pub fn best(&self, count: u32) -> Option<Parting> {
        let mut best: Option<Parting> = None;
        // variables are bytes: there are 256
        for variable in 0..VARIABLES {
            best = self.best_on(variable as u8, count, best);
        }
        best
    }

    /// Does what `best` does, but looks first at the variables of one column's literals: a fork that no column stands on both
    /// sides of is on one of these. If there are few columns, it looks at no others.
    pub fn best_by(&self, literals: &[Literal], count: u32) -> Option<Parting> {
        let best = self.best_among(literals, count);
        // to look at all variables costs more than few columns are worth
        if count <= FEW {
            return best;
        }
        match best {
            Some(parting) => {
                // a column stands on both sides, so a fork on another variable may be better
                if parting.is_shared {
                    self.best(count)
                } else {
                    best
                }
            }
            None => self.best(count),
        }
    }
}
