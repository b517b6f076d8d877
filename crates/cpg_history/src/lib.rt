//! What a shelf gave and what a sink took, as ghost data: it exists only in proofs, and takes no byte and no instruction.
//!
//! Its functions do nothing, and their contracts say how the data changes. Each is proved by hand, since only a proof by hand
//! can set such data. As the fields are private, other crates make a [`History`] or a [`Taken`] only by calling these
//! functions, and the gate's script shows that no other crate has a proof by hand.
#![tactic(auto)]

mod history;
mod taken;

pub use history::{History, ShelfEvent};
pub use taken::Taken;
