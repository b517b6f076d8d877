//! Writing the pack of rows as they are made: no table is assembled of them, and the columns of a row that is kept as a
//! tree are written as the tree is walked, not listed first.
#![tactic(auto)]

mod items;
mod packing;
mod rows;
mod walking;

pub use packing::write_made;
