//! Laws on the order that a graph gives at the key `order`: if it gives the order that a compile took, the tables stay as they
//! are.
#![tactic(auto)]

ghost use Rattle.cpg_given_laws.specs.Kept.{GivenOrdersKeepMeasures, GivenOrdersKeepTables};
ghost use Rattle.cpg_given_laws.specs.Read.{GivenOrdersAreRead};
ghost use Rattle.cpg_given_laws.specs.Without.{NothingChangesWithoutTheKey};

/// A graph that gives the order of its tables compiles under that order, unless memory runs out, and its tables ask the
/// same in every scenario.
pub fn given_orders_keep_tables()
    ensures { GivenOrdersKeepTables }
{}

/// How late a graph is under an order doesn't depend on the order that it gives: the greatest excess and the greatest finish
/// are the same.
pub fn given_orders_keep_measures()
    ensures { GivenOrdersKeepMeasures }
{}

/// If the names of an order are put into a graph file at the key `order`, the file says the same graph with that order.
pub fn given_orders_are_read()
    ensures { GivenOrdersAreRead }
{}

/// A compile answers the same for a graph that gives no order as if there were no key `order`.
pub fn nothing_changes_without_the_key()
    ensures { NothingChangesWithoutTheKey }
{}
