//! Builds tables by going over all scenarios of a graph: the rows of all items, with the literals beside each time that tell
//! from which numbers it was computed.
#![tactic(auto)]

mod cubes;
mod items;
mod learning;
mod least;
mod listing;
mod making;
mod scenario_runs;
mod sends;
mod starts;
mod state;
mod timed;

pub use listing::list;
pub use making::rows;
