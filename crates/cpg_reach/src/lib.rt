//! How many columns the row of an item may need: which variables its time may depend on, and in how many ways these
//! can be set.
#![tactic(auto)]

mod conditions;
mod counting;
mod reaches;
mod sending;
mod starting;
mod variables;
mod ways;
mod width;

pub use width::{rows_of_item, too_wide, views};
