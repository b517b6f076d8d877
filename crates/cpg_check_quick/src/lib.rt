//! Quick tests, row by row, of tables that keep V1 to V3: at which items a rule from V4 to V9 is known to hold in every
//! scenario. It may hold at others, too.
//!
//! | rule | judged in | with |
//! |---|---|---|
//! | V4, literals heard | `heard` | `listening`, `heard_rows`, `bounds`, `sequences` |
//! | V5, inputs there | `inputs` | `input_rows`, `sequences` |
//! | V6, one execution | `processor` | `sequences`, `apart` |
//! | V7, one frame | `slots` | `sequences`, `apart` |
//! | V8, frozen times | `cpg_violation` (`quick_frozen`) | |
//! | V9, dues | `cpg_violation` (`quick_due`) | |
//!
//! `times` puts all marks together. `spanned_rows` has the rows, each with its item's `span`, which says how long that
//! lasts; `before` says which items are over when others begin, and `sequences` in which order the items of a node
//! follow one another.
#![tactic(auto)]

mod apart;
mod before;
mod bounds;
mod heard;
mod heard_rows;
mod input_rows;
mod inputs;
mod listening;
mod processor;
mod sequences;
mod slots;
mod span;
mod spanned_rows;
mod times;

pub use times::time_marks;
