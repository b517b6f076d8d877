//! Reading a graph file, and writing one.
#![tactic(auto)]

mod building;
mod names;
mod place;
mod ranges;
mod reading;
mod row;
mod shape;
mod writing;
mod written_rows;
mod written_tables;

pub use place::{Key, Place, ReadFault, Table, What};
pub use reading::read_problem;
pub use writing::graph_text;
