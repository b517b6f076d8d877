//! Conditions: which processes have one, and how they are numbered.
ghost use Rattle.std.specs.Prelude.{◌≡◌, ◌<◌, ◌≤◌, ◌++◌, ◌∷◌, [], All, IfSome, IfNone, ◌==◌, false, filter, get_or, length, position, ℕ};
ghost use Rattle.cpg_base.specs.Conditions.{has_conditional_output};
ghost use Rattle.cpg_base.specs.Numbers.{numbers_below};

use crate::Edge;
use crate::limits::{MOST_CONDITIONS, MOST_PROCESSES};
use std::marker::Model;

/// The processes that have a condition, in numerical order, seen as the list of them. The condition of number c is that
/// of the process at place c.
#[derive(Drop)]
pub struct Conditions {
    /// The first `count` of these are the processes; those behind are 0 and mean nothing.
    processes: [u32; MOST_CONDITIONS],
    /// How many processes have a condition.
    count: usize,
}

impl Model for Conditions {
    ghost use Rattle.std.specs.Prelude.{List, ℕ, take, ◌≤◌};

    ghost Value = { List ℕ };

    ghost view = { λ c. take c.count c.processes };

    // no more than there is room for
    ghost invariant = { λ c. c.count ≤ 32 };
}

/// Returns for each process number below 128 whether a process of this number has a conditional output.
fn disjunctions(edges: &[Edge]) -> [bool; MOST_PROCESSES]
    requires { All (λ e. e.from < 128) edges.now }
    ensures { (p : ℕ) → p < 128 → get_or result p false ≡ has_conditional_output edges.now p }
{
    let mut found = [false; MOST_PROCESSES];
    for edge in edges {
        if edge.when.is_some() {
            // an edge with a `when` gives its source a condition
            found[edge.from as usize] = true;
        }
    }
    found
}

/// Returns the place of a process in a list, and `None` exactly if it isn't there.
fn process_index(processes: &[u32], process: u32) -> Option<usize>
    ensures place { result ≡ position (λ other. other == process) processes.now }
    ensures within { IfSome result (λ place. place < length processes.now) }
{
    processes.iter().position(|other| *other == process)
}

impl Conditions {
    /// Returns an empty list of conditions.
    fn none() -> Conditions
        ensures { result ≡ [] }
    {
        Conditions {
            processes: [0; MOST_CONDITIONS],
            count: 0,
        }
    }

    /// Adds a process that has a condition, with the next number.
    fn push(&mut self, process: u32)
        requires { length self.old < 32 }
        ensures { self.new ≡ self.old ++ process ∷ [] }
    {
        self.processes[self.count] = process;
        self.count += 1;
    }

    /// Returns the conditions of `processes` processes with these edges, and `None` exactly if there are more than 32.
    pub fn of(processes: usize, edges: &[Edge]) -> Option<Conditions>
        requires few { processes ≤ 128 }
        requires sources { All (λ e. e.from < 128) edges.now }
        ensures found { IfSome result (λ c. c ≡ filter (has_conditional_output edges.now) (numbers_below processes)) }
        ensures few { IfSome result (λ c. length c ≤ 32) }
        ensures many { IfNone result (32 < length (filter (has_conditional_output edges.now) (numbers_below processes))) }
    {
        let found = disjunctions(edges);
        let mut conditions = Conditions::none();
        for process in 0..processes {
            // it has a conditional output
            if found[process] {
                // there is no room for one more
                if conditions.count() == MOST_CONDITIONS {
                    return None;
                }
                // below 128, so the cast keeps it
                conditions.push(process as u32);
            }
        }
        Some(conditions)
    }

    /// Returns how many conditions there are.
    pub fn count(&self) -> usize
        ensures count { result ≡ length self.now }
        ensures few { result ≤ 32 }
    {
        self.count
    }

    /// Returns the processes that have a condition, in numerical order.
    pub fn processes(&self) -> &[u32]
        ensures processes { result.now ≡ self.now }
        ensures few { length result.now ≤ 32 }
    {
        &self.processes[..self.count]
    }

    /// Returns the number of a process's condition, and `None` exactly if it has none.
    pub fn of_process(&self, process: u32) -> Option<u32>
        ensures { result ≡ position (λ other. other == process) self.now }
    {
        match process_index(self.processes(), process) {
            // a place below 32, so the cast keeps it
            Some(condition) => Some(condition as u32),
            None => None,
        }
    }

    /// Returns a copy of the conditions.
    pub fn copy(&self) -> Conditions
        ensures { result ≡ self.now }
    {
        Conditions {
            processes: self.processes,
            count: self.count,
        }
    }
}
