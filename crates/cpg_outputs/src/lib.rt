//! What a run writes: its output, the line that says why it stops or reports a fault, the lines of a node that follows a
//! stream, and the texts of trials and tunings.
#![tactic(auto)]

mod answer;
mod figures;
mod living;
mod streaming;
mod trial_lines;
mod tuning_lines;

pub use answer::{end, put, stop};
pub use figures::{Ending, Endings, Trial};
pub use living::follow;
pub use trial_lines::trial_text;
pub use tuning_lines::tuning_text;
