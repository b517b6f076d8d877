//! Reading a scenario file, and writing a scenario as a text.
#![tactic(auto)]

ghost use Rattle.cpg_scenario.specs.Causes.{FirstCausesAreTold};

mod entries;
mod fault;
mod reading;
mod text;

pub use fault::{Cause, ScenarioFault};
pub use reading::{Played, read_scenario};
pub use text::scenario_text;

/// A scenario file is rejected for the first cause that is there, and gives a scenario of the graph if none is.
pub fn first_causes_are_told()
    ensures { FirstCausesAreTold }
{}
