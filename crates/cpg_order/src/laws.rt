//! Laws on orders, activations, tails and deciding conditions.
ghost use Rattle.cpg_order.specs.Laws.{HasOneUrgencyOrder, UrgencyOrderIsTopological, OrderLeavesNoCycle, ActivationFollowsInputs, TailFollowsOutputs, DecidingIsActive, DecidingFixesActivation};

/// Each graph has exactly one urgency order.
pub fn has_one_urgency_order()
    ensures { HasOneUrgencyOrder }
{}

/// If a graph within its limits has some topological order, its urgency order is topological too.
pub fn urgency_order_is_topological()
    ensures { UrgencyOrderIsTopological }
{}

/// A graph with a topological order has no cycle.
pub fn order_leaves_no_cycle()
    ensures { OrderLeavesNoCycle }
{}

/// In a graph with a topological order, a process is active by its inputs, and each of these is live by its source.
pub fn activation_follows_inputs()
    ensures { ActivationFollowsInputs }
{}

/// In a graph with a topological order, the longest way from a process is its execution, and then the longest way on over
/// one of its outputs.
pub fn tail_follows_outputs()
    ensures { TailFollowsOutputs }
{}

/// In a graph whose urgency order is topological, a condition that decides a process in an outcome is of a process that
/// is active in that outcome.
pub fn deciding_is_active()
    ensures { DecidingIsActive }
{}

/// Two outcomes that agree on each condition that decides a process in the first give it the same activation.
pub fn deciding_fixes_activation()
    ensures { DecidingFixesActivation }
{}
