//! Tuning: the best number of parts of each process of a graph, what a judge says of the graph with these parts for each
//! fault number, and the laws on both.
#![tactic(auto)]

ghost use Rattle.cpg_tune.specs.RetunedLaws.{RetunedKeepRules, RetunedShowNoFault, TunedShowNoFault};
ghost use Rattle.cpg_tune.specs.Laws.{BestPartsAreBest, TunedLastLeast, ToleratedIsGreatest};

mod best;
mod judge;
mod retuning;
mod tuning;

pub use best::best_parts_at;
pub use judge::{Judge, Judged};
pub use retuning::retuned;
pub use tuning::{Tuned, tune};

/// No number of parts from 1 to 255 makes an execution shorter than the best one, and each lesser number makes it longer.
pub fn best_parts_are_best()
    ensures { BestPartsAreBest }
{}

/// With all k faults no execution is shorter in other parts than in the best.
pub fn tuned_last_least()
    ensures { TunedLastLeast }
{}

/// The faults that are tolerated are the greatest number whose row is accepted, and `None` exactly if no row is.
pub fn tolerated_is_greatest()
    ensures { ToleratedIsGreatest }
{}

/// A graph with other parts and another fault number has the same tracks, and keeps the rules on cycles, joins, slots,
/// sizes and given orders that it kept before.
pub fn retuned_keep_rules()
    ensures { RetunedKeepRules }
{}

/// With other parts and another fault number an admitted graph isn't refused, except that memory may run out.
pub fn retuned_show_no_fault()
    ensures { RetunedShowNoFault }
{}

/// With its best parts and another fault number an admitted graph isn't refused, except that memory may run out.
pub fn tuned_show_no_fault()
    ensures { TunedShowNoFault }
{}
