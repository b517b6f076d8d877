//! Whether something later in the order waits until a node is ready or its slots are free. If nothing does, no tree of
//! that is needed.
ghost use Rattle.std.specs.Prelude.{◌+◌, ◌≡◌, ◌==◌, ◌&&◌, ◌<◌, length, nat_le, nat_lt, not, true};
ghost use Rattle.cpg_base.specs.Graph.{home, is_frozen, is_sent, item_count, node_of, process_count, producer};
ghost use Rattle.cpg_base.specs.Order.{place};
ghost use Rattle.cpg_expand.specs.Waited.{IsQueuedFor, IsWaitedFor, stands_before};
ghost use Rattle.cpg_order.specs.Queue.{rank_of_item};

use cpg_base::{Item, Order, Problem};

/// Whether process `other` is on the node, stands behind the place `at` of the order, and isn't frozen.
fn waits_behind(problem: &Problem, order: &Order, node: u32, at: u32, other: u32) -> bool
    requires other { other < process_count problem.now }
    requires order { length order.now ≡ process_count problem.now }
    ensures { result ≡ (node_of problem.now other == node && (nat_lt at (place order.now other) && not (is_frozen problem.now other))) }
{
    problem.node_of(other) == node && (at < order.place(other) && !problem.is_frozen(other))
}

/// Whether some process behind a given one is on the same node and isn't frozen. A frozen process looks at what it
/// waits for separately, so it needs no tree of when its node is ready.
pub fn is_waited_for(problem: &Problem, order: &Order, process: u32) -> bool
    requires process { process < process_count problem.now }
    requires order { length order.now ≡ process_count problem.now }
    ensures waited { IsWaitedFor problem.now order.now (place order.now process + 1) (node_of problem.now process) → result ≡ true }
    ensures by { result ≡ true → IsWaitedFor problem.now order.now (place order.now process + 1) (node_of problem.now process) }
{
    let node = problem.node_of(process);
    let at = order.place(process);
    for other in 0..problem.processes().len() as u32 {
        if waits_behind(problem, order, node, at, other) {
            return true;
        }
    }
    false
}

/// Whether item `other` is sent by the node for a process at the place `at` of the order or later, and isn't frozen.
fn is_sent_later(problem: &Problem, order: &Order, node: u32, at: u32, other: u32) -> bool
    requires other { other < item_count problem.now }
    requires order { length order.now ≡ process_count problem.now }
    ensures { result ≡ ((is_sent problem.now other && not (is_frozen problem.now other)) && ((home problem.now other == node) && nat_le at
        (place order.now (producer problem.now other)))) }
{
    (problem.is_sent(other) && !problem.is_frozen(other))
        && (problem.home(other) == node && at <= order.place(problem.producer(other)))
}

/// Whether the node sends some item that isn't frozen for a process at the place `at` of the order or later.
pub(crate) fn is_queued_from(problem: &Problem, order: &Order, node: u32, at: u32) -> bool
    requires order { length order.now ≡ process_count problem.now }
    ensures queued { IsQueuedFor problem.now order.now at node → result ≡ true }
    ensures by { result ≡ true → IsQueuedFor problem.now order.now at node }
{
    for other in 0..problem.item_count() {
        if is_sent_later(problem, order, node, at, other) {
            return true;
        }
    }
    false
}

/// Whether the tree of when slots are free after an item is needed: the item isn't frozen, or some item that isn't
/// frozen is sent by its node for the same process or a later one. It may be true of one that is sent before this
/// item; then the tree is made in vain.
pub(crate) fn is_queued_for(problem: &Problem, order: &Order, item: u32) -> bool
    requires item { item < item_count problem.now }
    requires order { length order.now ≡ process_count problem.now }
    ensures { IsQueuedFor problem.now order.now (place order.now (producer problem.now item)) (home problem.now item) → result ≡ true }
{
    // an item that isn't frozen counts itself
    if !problem.is_frozen(item) {
        return true;
    }
    is_queued_from(
        problem,
        order,
        problem.home(item),
        order.place(problem.producer(item)),
    )
}

/// Whether `item` goes before `other`, both of one process: the broadcast goes first, then the messages by number.
fn is_sooner(item: Item, other: Item) -> bool
    ensures { result ≡ nat_lt (rank_of_item item) (rank_of_item other) }
{
    match other {
        // only a message has items of its process before it
        Item::Message(later) => match item {
            Item::Message(edge) => edge < later,
            _ => true,
        },
        _ => false,
    }
}

/// Whether `other` stands before `item` in the queue of one node: its producer stands earlier in the order, or they
/// have one producer and it goes sooner.
pub(crate) fn stands_before(problem: &Problem, order: &Order, other: u32, item: u32) -> bool
    requires other { other < item_count problem.now }
    requires item { item < item_count problem.now }
    requires order { length order.now ≡ process_count problem.now }
    ensures { result ≡ stands_before problem.now order.now other item }
{
    let other_producer = problem.producer(other);
    let producer = problem.producer(item);
    (problem.is_sent(other) && problem.home(other) == problem.home(item))
        && (order.place(other_producer) < order.place(producer)
            || (other_producer == producer && is_sooner(problem.item(other), problem.item(item))))
}
