//! How late ends are at most under an order, read off the lanes of all tracks.
ghost use Rattle.std.specs.Prelude.{◌≡◌, ◌+◌, ◌<◌, ℕ, List, get_or, length, map};
ghost use Rattle.cpg_base.specs.Numbers.{greatest};
ghost use Rattle.cpg_latest.specs.Lanes.{excess_of_course, finish_of, last_course};
ghost use Rattle.cpg_run.specs.Progress.{ProgressState};

use crate::lanes::Lane;
use cpg_base::Problem;

/// How late ends are at most under an order, over all scenarios.
#[derive(Clone, Copy, Debug, PartialEq, Eq)]
pub struct Figures {
    /// How far an end is past its due at most, in time units.
    pub excess: u64,
    /// The greatest finish, in time units.
    pub worst: u64,
}

/// Returns the greatest excess and the greatest finish of these lanes, in their courses with all the faults. Both are 0 if
/// there are no lanes.
pub(crate) fn greatest_figures(problem: &Problem, lanes: &[Lane]) -> Figures
    requires { (i : ℕ) (d : List ProgressState) → i < length lanes.now → length (get_or lanes.now i d) ≡ problem.now.faults + 1 }
    ensures excess { result.excess ≡ greatest (map (λ l. excess_of_course problem.now (last_course problem.now l)) lanes.now) }
    ensures worst { result.worst ≡ greatest (map (λ l. finish_of problem.now (last_course problem.now l)) lanes.now) }
{
    let mut figures = Figures {
        excess: 0,
        worst: 0,
    };
    for lane in lanes {
        figures.excess = figures.excess.max(lane.excess(problem));
        figures.worst = figures.worst.max(lane.finish(problem));
    }
    figures
}
