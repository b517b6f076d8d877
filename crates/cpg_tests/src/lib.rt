//! Tests of what no case of the whole program shows: runs, lists, reaches, tracks and trees, call by call;
//! generated graphs; and the shelf of files and the sink over a stream.
#![tactic(auto)]

#[cfg(test)]
mod build_tests;
#[cfg(test)]
mod claims;
#[cfg(test)]
mod columns;
#[cfg(test)]
mod fixtures;
#[cfg(test)]
mod generator_tests;
#[cfg(test)]
mod io_tests;
#[cfg(test)]
mod list_tests;
#[cfg(test)]
mod order_tests;
#[cfg(test)]
mod reach_tests;
#[cfg(test)]
mod run_tests;
#[cfg(test)]
mod tracks_tests;
#[cfg(test)]
mod tree_tests;
