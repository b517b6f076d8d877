//! The latest times of all scenarios under an order, by track and number of faults. No scenario is run, and no table is
//! made.
#![tactic(auto)]

ghost use Rattle.cpg_latest.specs.Laws.{LatestAreFrozen, LatestAreGreatest, LatestAreReached, RunsAreNoLater};

mod along;
mod asking;
mod course;
mod ends;
mod figures;
mod lanes;
mod measuring;
mod stepping;
mod waiting;

pub use figures::Figures;
pub use measuring::figures_under;

/// A run with at most n faults is no later than the latest times of its outcome with n faults.
pub fn runs_are_no_later()
    ensures { RunsAreNoLater }
{}

/// Each latest time of an outcome with n faults is reached in some run of that outcome with at most n faults.
pub fn latest_are_reached()
    ensures { LatestAreReached }
{}

/// The frozen times of a graph are the latest times of its frozen items over all tracks, as if the items were not frozen.
pub fn latest_are_frozen()
    ensures { LatestAreFrozen }
{}

/// The greatest finish and the greatest excess of all runs are those of the latest times of all tracks.
pub fn latest_are_greatest()
    ensures { LatestAreGreatest }
{}
