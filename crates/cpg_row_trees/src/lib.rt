//! Trees of the places of cubes: the place of the one that a scenario matches.
#![tactic(auto)]

mod gathering;
mod listed;
mod places;
mod slices;
mod trees;
mod walk;

pub use places::Places;
pub use slices::are_same_literals;
pub use trees::{row_trees, tree_of};
pub use walk::{PairTest, Test};
