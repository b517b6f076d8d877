//! What makes an item active: a process, an edge, or nothing.
ghost use Rattle.std.specs.Prelude.{◌≡◌, ◌<◌, List, Bool};
ghost use Rattle.cpg_base.specs.Activity.{item_active};
ghost use Rattle.cpg_base.specs.Graph.{condition_count, edge_count, item_at, item_count};
ghost use Rattle.cpg_base.specs.declared.item.Item.{Item};
ghost use Rattle.cpg_violation.specs.Sources.{IsSourceIn, is_active_by};

use cpg_base::{Item, Problem};

/// What has to be active or live for an item to be active.
#[derive(Clone, Copy, Debug, PartialEq, Eq)]
pub enum ItemSource {
    /// Nothing makes it active: it is never sent.
    Nothing,
    /// The process with this number, when it is active.
    Process(u32),
    /// The edge with this number, when it is live.
    Edge(u32),
}

/// What makes an edge's message active: the edge, if its ends lie on two nodes. Otherwise it has no message.
fn message_source(problem: &Problem, edge: u32) -> ItemSource
    requires { edge < edge_count problem.now }
    ensures active { (values : List Bool) → item_active problem.now values (Item.Message edge) ≡ is_active_by problem.now values result }
    ensures within { IsSourceIn problem.now result }
{
    if problem.is_message(edge) {
        ItemSource::Edge(edge)
    } else {
        ItemSource::Nothing
    }
}

/// What makes a condition's broadcast active: the condition's process. With a single node nothing is broadcast.
fn broadcast_source(problem: &Problem, condition: u32) -> ItemSource
    requires { condition < condition_count problem.now }
    ensures active { (values : List Bool) → item_active problem.now values (Item.Broadcast condition) ≡ is_active_by problem.now values result }
    ensures within { IsSourceIn problem.now result }
{
    if problem.nodes().len() < 2 {
        ItemSource::Nothing
    } else {
        ItemSource::Process(problem.process_of(condition))
    }
}

/// What makes an item active: a start its process, a message its edge, a broadcast the process of its condition.
pub fn item_source(problem: &Problem, item: u32) -> ItemSource
    requires { item < item_count problem.now }
    ensures active { (values : List Bool) → item_active problem.now values (item_at problem.now item) ≡ is_active_by problem.now values result }
    ensures within { IsSourceIn problem.now result }
{
    match problem.item(item) {
        Item::Start(process) => ItemSource::Process(process),
        Item::Message(edge) => message_source(problem, edge),
        Item::Broadcast(condition) => broadcast_source(problem, condition),
    }
}
