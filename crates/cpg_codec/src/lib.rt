//! Packs: the tables of all nodes with their head, in one file of bytes.
//!
//! Tables have one spelling, byte by byte as docs/FORMATS.md says. [`read_pack`] reads it; [`put_head`], [`put_short`] and
//! [`put_column`] write its parts.
#![tactic(auto)]

ghost use Rattle.cpg_codec.specs.Lengths.{AllShort};
ghost use Rattle.cpg_codec.specs.Packs.{OneValue, NoProperPrefix};

mod buffer;
mod fault;
mod field_reading;
mod fixed;
mod head_reading;
mod head_writing;
mod lawful;
mod lawful_literals;
mod reading;
mod row_reading;
mod row_taking;
mod row_writing;
mod space;
mod unread;

pub use buffer::Buffer;
pub use fault::{PackFault, WriteFault};
pub use fixed::{
    Fixed, column_literals, column_time, edge_from, edge_to, literal_high, literal_low,
    literal_variable, long_number, process_flag, process_node,
};
pub use head_writing::put_head;
pub use lawful::tables_are_lawful;
pub use reading::read_pack;
pub use row_writing::{put_column, put_short};

/// A pack is the spelling of only one value: tables with equal spellings are equal.
pub fn packs_have_one_value()
    ensures { OneValue }
{}

/// No pack is a proper prefix of another.
pub fn packs_have_no_proper_prefix()
    ensures { NoProperPrefix }
{}

/// No pack is longer than 268,435,456 bytes.
pub fn packs_are_short()
    ensures { AllShort }
{}
