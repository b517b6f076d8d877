//! All scenarios of a graph, one by one: the run of each, and the greatest finish and excess over all of them.
#![tactic(auto)]

mod active;
mod enumeration;
mod examples;
mod exceeding;
mod few;
mod freezing;
mod latest;
mod peaks;
mod placing;
mod running;
mod search;
mod sweeping;

pub use enumeration::scenarios;
pub use exceeding::excess;
pub use few::{MOST_SCENARIOS, has_few_scenarios};
pub use freezing::frozen_times;
pub use peaks::{Peak, worst};
pub use placing::first_alike;
pub use running::runs;
