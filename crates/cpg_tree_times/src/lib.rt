//! Trees that are made of trees of times: later by a delay, the greater or the later of two, also where another tree is
//! true, and starts, ends and slots.
#![tactic(auto)]

mod asked;
mod bounds;
mod choosing;
mod greater;
mod picking;
mod values;

pub use greater::{max_later, max_of};
pub use picking::pick_later;
pub use values::{
    ends, fixed, later, later_of, later_or, same_as, slot_at, slots, started, started_of,
    started_of_where, started_or, started_or_where,
};
