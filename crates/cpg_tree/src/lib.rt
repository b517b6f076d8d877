//! Decision trees: values by scenarios, with forks on fault counts and values of conditions, and what is made of them.
#![tactic(auto)]

mod at;
pub mod fork;
mod item;
mod join;
mod map;
mod optional_time;
mod part;
mod pick;
mod reading;
mod space;
mod tally;
mod top;
mod tree;
mod variables;

pub use fork::plain_fork;
pub use item::{TreeItem, put};
pub use join::fill_items;
pub use map::map_items;
pub use optional_time::OptionalTime;
pub use part::part_in;
pub use pick::within_items;
pub use reading::{AsIs, Later, Reading, time_later};
pub use space::{Lifted, Space};
pub use tally::{Parting, Tally};
pub use top::{Top, top_of};
pub use tree::Tree;
pub use variables::{fault, value};
