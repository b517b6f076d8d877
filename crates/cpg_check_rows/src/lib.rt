//! The rules of valid tables that are about one row of each item: V1 to V3, and V10.
//!
//! | rule | first violation | quick test | with |
//! |---|---|---|---|
//! | V1, activity | `activity` | `quick_activity` | `cpg_violation` (`guards`) |
//! | V2, one column | `single` | `quick_single` | trees of `cpg_row_trees` |
//! | V3, a column | `present` | `quick_present` | both |
//! | V10, hear rows | `hears` | | |
//!
//! `rows` finds the first violation of V1 to V3. `quick_rows` makes their marks: at which items a rule is known to hold
//! in every scenario. It may hold at others, too.
#![tactic(auto)]

mod activity;
mod hears;
mod present;
mod quick_activity;
mod quick_present;
mod quick_rows;
mod quick_single;
mod rows;
mod single;

pub use hears::check_hears;
pub use quick_rows::row_marks;
pub use rows::check_rows;
