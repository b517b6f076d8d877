//! When the slots of the bus start and end, and what a process sends, in its order. Times are in the time units of the
//! graph file. Only a plan allocates memory.
#![tactic(auto)]

mod bus;
mod plan;
mod share;

pub use bus::{arrival, first_from, is_slot_start, next_slot, occurrence};
pub use plan::Plan;
pub use share::Share;
