//! Tables and traces as texts.
#![tactic(auto)]

mod event;
mod events;
mod node;
mod putting;
mod sheet;
mod table;
mod trace;
mod walking;

pub use node::write_node;
pub use table::write_table;
pub use trace::{finish, trace_text};
