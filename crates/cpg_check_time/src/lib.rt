//! The rules of valid tables on times: V5 to V9.
#![tactic(auto)]

mod asked;
mod check;
mod delays;
mod due;
mod frozen;
mod inputs;
mod judge;
mod lateness;
mod meeting;
mod pairs;
mod processor;
mod questions;
mod slots;

pub use asked::sift_time;
pub use check::check_time;
