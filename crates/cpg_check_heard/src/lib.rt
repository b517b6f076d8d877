//! V4: each literal of a column that matches is heard at the column's node by its time.
#![tactic(auto)]

mod arrivals;
mod asked;
mod bound;
mod ended;
mod frames;
mod heard;
mod hearing;
mod parts;
mod telling_rows;

pub use asked::sift_heard;
pub use heard::check_heard;
