//! What is read off the paths of trees of times: the columns of a tree and the row that they make, the greatest number of
//! a tree, also where another tree is true, and the peak of many trees.
#![tactic(auto)]

mod along;
mod demanding;
mod listing;
mod made_row;
mod measuring;
mod meeting;
mod past;
mod path;
mod peaks;
mod rows;
mod tops;

pub use listing::columns;
pub use made_row::{MadeRow, RowSource, listed_rows};
pub use measuring::{Peak, excess, worst};
pub use meeting::most_where;
pub use path::PathCube;
pub use peaks::{greatest, most};
pub use rows::row;
pub use tops::tops_of;
