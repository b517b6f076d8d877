//! What the checks of the rules of valid tables share: the first violation, least scenarios, and what is active in a space of
//! scenarios; and the quick tests of V8 and V9, which ask nothing of other items.
#![tactic(auto)]

mod activity;
mod apart;
mod arrival;
mod edges;
mod guards;
mod heads;
mod longest;
mod marks;
mod meeting;
mod quick_due;
mod quick_frozen;
mod sieve;
mod sieved_rows;
mod sources;

pub use activity::{least_at, value_literal};
pub use arrival::has_come;
pub use edges::edge_cube;
pub use guards::{always_active, is_item_idle, is_item_running, is_refused, is_running};
pub use heads::{HeadPart, first_difference};
pub use marks::{RowMarks, TimeMarks, are_all, is_marked, tested_marks};
pub use meeting::met;
pub use quick_due::due_marks;
pub use quick_frozen::frozen_marks;
pub use sieve::Sieve;
pub use sieved_rows::{SievedRow, first_time, last_time, sieved_rows_of, sift};
pub use sources::{ItemSource, item_source};
