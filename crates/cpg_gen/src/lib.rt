//! Graphs that numbers generate, for trials of the whole scheduler.
#![tactic(auto)]

ghost use Rattle.cpg_gen.specs.Laws.{GeneratedAreWellFormed, GeneratedAreWithinLimits, GeneratedEdgesRise, GeneratedHaveFewConditions, GeneratedHaveSenderSlots};

mod draws;
mod generation;
mod parts;

pub use generation::generate;

/// Law: the graph of every number is within the limits of a graph file.
pub fn generated_are_within_limits()
    ensures { GeneratedAreWithinLimits }
{}

/// Law: the graph of every number is well formed, and each node that sends has a slot.
pub fn generated_are_well_formed()
    ensures formed { GeneratedAreWellFormed }
    ensures slots { GeneratedHaveSenderSlots }
{}

/// Law: in the graph of every number each edge leads to a process with a greater number, so there is no cycle.
pub fn generated_edges_rise()
    ensures { GeneratedEdgesRise }
{}

/// Law: the graph of every number has at most two conditions.
pub fn generated_have_few_conditions()
    ensures { GeneratedHaveFewConditions }
{}
