//! The head of a pack, which says what its tables are made for, and the head that is made for a graph.
#![tactic(auto)]

mod durations;
mod graph_head;
mod head;
mod head_parts;

pub use durations::Durations;
pub use head::{Head, TIME_END, condition_count, head_of};
pub use head_parts::{Extra, HeadProcess};
