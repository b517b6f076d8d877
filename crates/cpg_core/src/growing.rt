//! The trees of all processes, made along an order.
ghost use Rattle.std.specs.Prelude.{IfErr, IfOk};
ghost use Rattle.cpg_base.specs.Graph.{process_count};
ghost use Rattle.cpg_expand.specs.Grown.{IsGrown};
ghost use Rattle.cpg_expand.specs.Large.{HasLargeTree, ShowsLarge};
ghost use Rattle.cpg_order.specs.Urgency.{IsTopological};

use crate::along::step;
use cpg_base::Order;
use cpg_bus::Plan;
use cpg_expand::{Forest, few_left};
use cpg_rules::Admitted;
use cpg_run::{BuildFault, FrozenTimes};
use std::alloc::Global;

/// The trees of an order, and the frozen times that they were made under.
#[derive(Drop)]
pub(crate) struct GrownForest {
    /// The frozen times, by item.
    pub(crate) frozen: FrozenTimes,
    /// The times of items, the ends of processes, and when nodes and slots are free.
    pub(crate) forest: Forest,
}

/// Returns the trees of all processes and of what they send, and the frozen times, under an order. If `wide` has an
/// item, leaves are counted: `TooWide` names it if a tree on the way has more than 147,456. If it is `None`, none are
/// counted.
pub(crate) fn grown(
    alloc: Global,
    admitted: &Admitted,
    order: &Order,
    wide: Option<u32>,
) -> Result<GrownForest, BuildFault>
    requires topological { IsTopological admitted.now.graph order.now }
    ensures grown { IfOk result (λ grown. IsGrown admitted.now.graph order.now (process_count admitted.now.graph) grown.frozen grown.forest) }
    ensures fault { IfErr result (ShowsLarge wide (HasLargeTree admitted.now.graph admitted.now.order order.now)) }
{
    let problem = admitted.problem();
    let plan = Plan::of(alloc, problem)?;
    let mut frozen = FrozenTimes::none(alloc, problem)?;
    let mut forest = Forest::none(alloc, problem, wide)?;
    for process in order.processes() {
        step(
            alloc,
            admitted,
            &plan,
            order,
            &mut frozen,
            &mut forest,
            *process,
        )?;
        few_left(problem, &plan, order, &forest, *process)?;
    }
    Ok(GrownForest { frozen, forest })
}
