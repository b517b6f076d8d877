//! When a process's messages and broadcasts are sent.
ghost use Rattle.std.specs.Prelude.{◌≡◌, ◌<◌, ◌^◌, max, true, length};
ghost use Rattle.cpg_base.specs.Graph.{process_count, item_count};
ghost use Rattle.cpg_base.specs.Activity.{active};
ghost use Rattle.cpg_base.specs.Bus.{next_slot};
ghost use Rattle.cpg_base.specs.Scenario.{IsScenario};
ghost use Rattle.cpg_bus.specs.Share.{HasSlot};
ghost use Rattle.cpg_run.specs.Known.{AreEarly, frozen_in};
ghost use Rattle.cpg_bus.specs.Plan.{plan_of, queue_of};
ghost use Rattle.cpg_run.specs.Progress.{KeepsEnds};
ghost use Rattle.cpg_run.specs.Setting.{CanSendIn, HasSentIn, IsSetting};

use crate::activity::is_item_active;
use crate::known::Known;
use crate::waiting::frozen_time;
use crate::{FrozenTimes, Setting};
use cpg_base::{Problem, Scenario};
use cpg_bus::Plan;

/// Returns when an active item is sent: in the first slot of its node from `end` on, the end of its producer, but not
/// before `free`, from which the node's slots are free, and not before its frozen time, if it has one.
fn send_time(
    problem: &Problem,
    plan: &Plan,
    frozen: &FrozenTimes,
    node: u32,
    item: u32,
    end: u64,
    free: u64,
) -> u64
    requires plan { plan.now ≡ plan_of problem.now }
    requires node { node < length problem.now.nodes }
    requires slot { HasSlot problem.now node }
    requires frozen { item < length frozen.now }
    requires early { end < 2 ^ 59 }
    ensures { result ≡ max (max (next_slot problem.now node end) free) (frozen_in frozen.now item) }
{
    let next = plan.share(problem, node).next_slot(end);
    next.max(free).max(frozen_time(frozen, item))
}

/// Sets the times of all that an active process sends, given the time `free` from which the slots of its node are free.
/// Returns the time from which they are free after that.
pub(crate) fn send(
    setting: &Setting<'_>,
    frozen: &FrozenTimes,
    scenario: &Scenario,
    known: &mut Known,
    process: u32,
    free: u64,
) -> u64
    requires setting { IsSetting setting.now }
    requires frozen { length frozen.now ≡ item_count setting.now.problem.now }
    requires early { AreEarly frozen.now }
    requires scenario { IsScenario setting.now.problem.now scenario.now }
    requires process { process < process_count setting.now.problem.now }
    requires active { active setting.now.problem.now scenario.now.values process ≡ true }
    requires times { length known.old.times ≡ item_count setting.now.problem.now }
    // what is known is that of the run before the process sends
    requires can { CanSendIn setting.now frozen.now scenario.now process known.old free }
    // each item in the queue of the process has its time of the run, and `result` is when the slots are free
    ensures sent { HasSentIn setting.now frozen.now scenario.now process (length (queue_of setting.now.problem.now process)) known.old known.new result }
    ensures keeps { KeepsEnds known.old known.new }
{
    let (problem, plan) = (setting.problem, setting.plan);
    let node = problem.node_of(process);
    let end = known.end(process);
    let round = plan.round(problem);
    let mut free = free;
    for item in plan.queue(problem, process) {
        // the queue is in the order of sending; an inactive item takes no slot, and after an active one the
        // node's next slot is a round later (the sum doesn't overflow, since times of a run are below 2^59)
        if is_item_active(problem, setting.guards, scenario, process, *item) {
            let time = send_time(problem, plan, frozen, node, *item, end, free);
            known.set_time(*item, time);
            free = time + round;
        }
    }
    free
}
