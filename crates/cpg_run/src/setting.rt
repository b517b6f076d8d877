//! What the runs of all scenarios rest on.
ghost use Rattle.std.specs.Prelude.{◌≡◌};

use cpg_base::{Order, Problem};
use cpg_bus::Plan;
use cpg_rules::{Admitted, GuardTrees};

/// An admitted graph, an order of its processes, and the graph's plan.
#[derive(Clone, Copy)]
pub struct Setting<'a> {
    /// The graph, which is admitted.
    pub problem: &'a Problem,
    /// The guards of its processes, which say in which outcomes each is active.
    pub guards: &'a GuardTrees,
    /// The order in which the processes of a node run, and frames are queued.
    pub order: &'a Order,
    /// The graph's edges by process, its queues and its slots.
    pub plan: &'a Plan,
}

impl<'a> Setting<'a> {
    /// Returns the setting of an admitted graph, given an order of its processes and its plan.
    pub fn of(admitted: &'a Admitted, order: &'a Order, plan: &'a Plan) -> Setting<'a>
        ensures problem { result.problem.now ≡ admitted.now.graph }
        ensures guards { result.guards.now ≡ admitted.now.guards }
        ensures order { result.order.now ≡ order.now }
        ensures plan { result.plan.now ≡ plan.now }
    {
        Setting {
            problem: admitted.problem(),
            guards: admitted.guards(),
            order,
            plan,
        }
    }
}
