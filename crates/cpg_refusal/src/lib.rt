//! Why a run stops without an output: the refusals of all layers, the status and the line of each.
#![tactic(auto)]

mod halt;
mod lines;
mod refusals;

pub use halt::{Halt, Refusal};
pub use lines::line;
