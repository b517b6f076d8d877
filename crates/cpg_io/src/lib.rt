//! Where bytes come from and where they go: a [`Shelf`] gives the bytes that stand under a name, a [`Sink`] takes
//! bytes, and both count their faults.
//!
//! A call answers [`Failed`] only if that count rose in it, or has come to its greatest number. A shelf always reports
//! to contracts what it gave, over real files too: which names were fetched, which bytes were given of each, whether to
//! their end, and whether a call failed. A sink reports what it took. These reports are ghost data, which takes no byte
//! and no instruction. [`MemoryShelf`] also reports what stands under a name and what is left of it. [`FileShelf`]
//! reports what is left only if its open file does, which a file of the machine doesn't.
#![tactic(auto)]

mod failed;
mod files;
mod memory_shelf;
mod memory_sink;
mod reading;
mod shelf;
mod sink;
mod streams;
mod writing;

pub use failed::Failed;
pub use files::FileShelf;
pub use memory_shelf::MemoryShelf;
pub use memory_sink::MemorySink;
pub use reading::{ReadAll, read_all};
pub use shelf::Shelf;
pub use sink::Sink;
pub use streams::StreamSink;
pub use writing::write_all;
