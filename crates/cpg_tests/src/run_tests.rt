//! The runs of both outcomes of a choice on two nodes, against what was worked out by hand.

ghost use Rattle.std.specs.Prelude.{◌≡◌, IfOk, length};
ghost use Rattle.cpg_base.specs.Graph.{item_count};
ghost use Rattle.cpg_base.specs.Scenario.{IsScenario};
ghost use Rattle.cpg_run.specs.Known.{AreEarly};

use crate::claims::{Claim, holds};
use crate::fixtures::CHOICE;
use cpg_base::{OutOfMemory, Scenario};
use cpg_rules::Admitted;
use cpg_run::{FrozenTimes, RunTimes, run};
use std::alloc::Global;

/// Returns the frozen times of a graph without any. The one error is that memory runs out.
#[tactic(auto, using(crate::proofs::Unfrozen::unfrozen_long, crate::proofs::Unfrozen::unfrozen_early))]
fn unfrozen(alloc: Global, admitted: &Admitted) -> Result<FrozenTimes, OutOfMemory>
    ensures long { IfOk result (λ frozen. length frozen ≡ item_count admitted.now.graph) }
    ensures early { IfOk result AreEarly }
{
    FrozenTimes::none(alloc, admitted.problem())
}

/// Returns the scenario without faults in which the first condition has this value. An error is that there is no
/// condition, or that memory runs out.
#[tactic(auto, using(crate::proofs::Unfrozen::valued_lawful))]
fn valued(alloc: Global, admitted: &Admitted, value: bool) -> Result<Scenario, OutOfMemory>
    ensures { IfOk result (IsScenario admitted.now.graph) }
{
    if admitted.problem().conditions() == 0 {
        return Err(OutOfMemory);
    }
    let mut scenario = Scenario::zero(alloc, admitted.problem())?;
    scenario.set_value(0, value);
    Ok(scenario)
}

/// Returns the run of a graph without faults in which its first condition has this value. An error is that there is no
/// condition, or that memory runs out.
#[tactic(auto, using(crate::proofs::Unfrozen::urgent_topological))]
fn run_where(alloc: Global, admitted: &Admitted, value: bool) -> Result<RunTimes, OutOfMemory> {
    let frozen = unfrozen(alloc, admitted)?;
    let scenario = valued(alloc, admitted, value)?;
    run(alloc, admitted, admitted.order(), &frozen, &scenario)
}

/// Whether a run has this finish and these times: of the starts of A, B, C and J, of the messages to B (item 4) and to
/// J (7), and of the broadcast of A (8). Items 5 and 6 are edges within a node.
fn is_run(run: &RunTimes, times: [Option<u64>; 7], finish: u64) -> bool {
    let of = |item| run.time(item);
    [of(0), of(1), of(2), of(3), of(4), of(7), of(8)] == times && run.finish() == finish
}

/// Whether the run with this value of the condition has these times and this finish. False at an error, too.
fn runs_so(
    alloc: Global,
    admitted: &Admitted,
    value: bool,
    times: [Option<u64>; 7],
    finish: u64,
) -> bool {
    match run_where(alloc, admitted, value) {
        Ok(run) => is_run(&run, times, finish),
        Err(_) => false,
    }
}

/// Whether the runs of both outcomes of the choice are as worked out by hand. False at an error, too.
pub fn outcomes_are_so(alloc: Global, admitted: &Admitted) -> bool {
    let of_c = [Some(0), None, Some(35), Some(70), None, Some(60), Some(40)];
    let of_b = [Some(0), Some(70), None, Some(85), Some(60), None, Some(40)];
    runs_so(alloc, admitted, false, of_c, 80) && runs_so(alloc, admitted, true, of_b, 95)
}

#[test]
fn runs_of_both_outcomes(rt: HostRuntime) {
    assert!(rt; holds(rt.alloc(), CHOICE, Claim::Outcomes));
}
