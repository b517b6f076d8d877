//! The trees that one process adds to a forest: of its start, of its end, and of each item that it sends. A tree tells the
//! time in every scenario. Scenarios aren't gone over one by one.
#![tactic(auto)]

mod activity;
mod bounding;
mod descent;
mod earlier;
mod ending;
mod forest;
mod guarded;
mod latest;
mod sending;
mod starting;
mod waited;

pub use activity::active_item;
pub use bounding::{few_left, leaf_limit_is_this};
pub use earlier::{NodeSpan, span_before};
pub use ending::{EndAndReady, end, end_and_ready, ready};
pub use forest::{Forest, Ready, put_begun};
pub use guarded::active;
pub use latest::latest_start;
pub use sending::{PlannedCourse, send};
pub use starting::{freeze, unfrozen_start, wait_for, waiting};
pub use waited::is_waited_for;
