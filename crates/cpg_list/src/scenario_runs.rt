//! All scenarios of a graph with their runs.

use cpg_base::{Order, Scenario};
use cpg_bus::Plan;
use cpg_rules::Admitted;
use cpg_run::{FrozenTimes, RunTimes};

/// All scenarios of a graph with their runs, and what the runs rest on.
#[derive(Clone, Copy)]
pub(crate) struct Listed<'a> {
    /// The graph, with what was found when it was admitted.
    pub(crate) admitted: &'a Admitted,
    /// The order of the processes that the runs follow.
    pub(crate) order: &'a Order,
    /// The plan of the graph.
    pub(crate) plan: &'a Plan,
    /// The frozen times of the graph under the order.
    pub(crate) frozen: &'a FrozenTimes,
    /// Each scenario of the graph once.
    pub(crate) scenarios: &'a [Scenario],
    /// The run of each scenario, in their order.
    pub(crate) runs: &'a [RunTimes],
}
