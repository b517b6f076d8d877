//! Log files: what the nodes started and sent up to a time.
#![tactic(auto)]

mod fault;
mod lines;
mod log;
mod number;
mod reading;
mod texts;

pub use fault::LogFault;
pub use log::{Log, Logged};
pub use reading::read_log;
