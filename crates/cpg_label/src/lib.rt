//! Labels, and the texts of items, literals and columns.
#![tactic(auto)]

mod columns;
mod items;
mod labels;
mod line;
mod placing;
mod room;
mod text;

pub use columns::write_value;
pub use items::{item_among, name_of, node_name, write_act, write_heard, write_item};
pub use labels::Labels;
pub use line::Line;
pub use room::{append, append_number};
