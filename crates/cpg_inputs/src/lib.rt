//! What the files of a command say. Each file is fetched, read whole and parsed, one after the other in the order of the words.
//! A graph is also admitted if it is to be compiled, or if tables are judged by it. A rejected file ends the reading before the
//! next is fetched.
//!
//! The work on [`Inputs`] needs no shelf, except for the stream that a node follows.
#![tactic(auto)]

mod files;
mod halt;
mod inputs;
mod kind;
mod parts;
mod reading;

pub use inputs::{Inputs, Purpose};
pub use kind::{FileKind, limits_are_these};
pub use parts::Parts;
pub use reading::read_inputs;
