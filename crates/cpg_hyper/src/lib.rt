//! Several graphs with a period each, made into one graph over their hyperperiod.
#![tactic(auto)]

mod edges;
mod fitting;
mod laws;
mod part;
mod period;
mod processes;
mod unrolling;

pub use cpg_reader::graph_text;
pub use laws::{
    instances_are_activated_alike, instances_are_active_alike, instances_are_copies,
    instances_are_live_alike, instances_have_conditions, instances_have_edges,
    instances_have_scenarios, instances_last_as_long, valid_tables_keep_periods,
    valid_tables_start_instances,
};
pub use part::{HyperFault, Part};
pub use unrolling::unroll;
