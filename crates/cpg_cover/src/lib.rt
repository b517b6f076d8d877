//! What a list of cubes leaves of a cube: the least scenario that the cube matches and none of the list, or none if the list
//! covers the cube.
#![tactic(auto)]

mod cover;
mod covering;
mod effort;
mod fewest;
mod frequency;
mod memory;
mod parting;
mod stepping;

pub use cover::{covers, earlier, uncovered};
