//! One process in one course: when it starts and ends there, and when its items are sent.
ghost use Rattle.std.specs.Prelude.{◌≡◌, ◌<◌, ◌+◌, ◌^◌, true, length};
ghost use Rattle.cpg_base.specs.Graph.{process_count, item_count, node_of};
ghost use Rattle.cpg_bus.specs.Share.{HasSlot};
ghost use Rattle.cpg_latest.specs.Course.{IsAsked};
ghost use Rattle.cpg_latest.specs.Lanes.{CanBegin, HasSentTo, IsEndOf, IsLastEnd, course_sent, send_at, unfrozen_send};
ghost use Rattle.cpg_run.specs.Known.{AreEarly, frozen_in};
ghost use Rattle.cpg_run.specs.Run.{end_in};
ghost use Rattle.cpg_run.specs.Setting.{IsSetting};

use crate::asking::Asked;
use crate::course::LatestCourse;
use crate::ends::latest_end;
use crate::waiting::{ready, unfrozen_start};
use cpg_run::{FrozenTimes, Setting};

/// Returns the frozen time of an item, or 0 if none is set.
fn frozen_time(frozen: &FrozenTimes, item: u32) -> u64
    requires { item < length frozen.now }
    ensures { result ≡ frozen_in frozen.now item }
{
    frozen.time_of(item).unwrap_or(0)
}

/// Starts a process in the course with a number of faults, if it is active, and otherwise lets its node wait for what
/// decides it. `asked` is what the course's track says of the process. `last` is the latest end of the process with one
/// fault less, and any number if `faults` is 0. Returns the latest end with this number of faults, or 0 if the process is
/// inactive.
pub(crate) fn begin(
    setting: &Setting<'_>,
    frozen: &FrozenTimes,
    asked: &Asked<'_>,
    course: &mut LatestCourse,
    process: u32,
    faults: usize,
    last: u64,
) -> u64
    requires setting { IsSetting setting.now }
    requires frozen { length frozen.now ≡ item_count setting.now.problem.now }
    requires early { AreEarly frozen.now }
    requires asked { IsAsked setting.now.problem.now setting.now.guards.now process asked.now }
    requires process { process < process_count setting.now.problem.now }
    requires faults { faults < setting.now.problem.now.faults + 1 }
    requires course { CanBegin setting.now frozen.now process asked.now.scenario.now.values faults course.old }
    requires last { asked.now.acts ≡ true → IsLastEnd setting.now frozen.now process asked.now.scenario.now.values faults last }
    ensures sends { HasSentTo setting.now frozen.now process 0 0 asked.now.scenario.now.values faults course.new }
    ensures end { asked.now.acts ≡ true → IsEndOf setting.now frozen.now process asked.now.scenario.now.values faults result }
{
    let node = setting.problem.node_of(process);
    let ready = ready(setting, course, asked, process);
    // an inactive process takes no time, but a later one on its node starts only when the node knows of that
    if !asked.acts {
        course.wait(node, ready);
        return 0;
    }
    // a frozen process also waits for its frozen time; for any other that is 0
    let unfrozen = unfrozen_start(setting, course, asked, process, ready);
    let start = unfrozen.max(frozen_time(frozen, process));
    let end = latest_end(setting.problem, process, faults, start, last);
    course.begin(process, node, start, end);
    end
}

/// Returns when the next item of a process could be sent if it were not frozen: in the first slot from the end of the
/// process on, but not before the slots of its node are free.
pub(crate) fn unfrozen_send(setting: &Setting<'_>, course: &LatestCourse, process: u32) -> u64
    requires setting { IsSetting setting.now }
    requires process { process < process_count setting.now.problem.now }
    requires slot { HasSlot setting.now.problem.now (node_of setting.now.problem.now process) }
    requires free { length course.now.free ≡ length setting.now.problem.now.nodes }
    requires early { end_in course.now.known process < 2 ^ 59 }
    ensures { result ≡ unfrozen_send setting.now.problem.now process course.now }
{
    let node = setting.problem.node_of(process);
    let next = setting
        .plan
        .share(setting.problem, node)
        .next_slot(course.end(process));
    next.max(course.free(node))
}

/// Sends an active item of a process in a course: sets its time, and when the slots of the node are free after it. The item
/// isn't sent before its frozen time, if `frozen` has one.
pub(crate) fn send_item(
    setting: &Setting<'_>,
    frozen: &FrozenTimes,
    course: &mut LatestCourse,
    process: u32,
    item: u32,
)
    requires setting { IsSetting setting.now }
    requires frozen { length frozen.now ≡ item_count setting.now.problem.now }
    requires process { process < process_count setting.now.problem.now }
    requires item { item < item_count setting.now.problem.now }
    requires slot { HasSlot setting.now.problem.now (node_of setting.now.problem.now process) }
    requires times { length course.old.known.times ≡ item_count setting.now.problem.now }
    requires free { length course.old.free ≡ length setting.now.problem.now.nodes }
    requires early { end_in course.old.known process < 2 ^ 59 }
    requires time { send_at setting.now.problem.now frozen.now process item course.old < 2 ^ 59 }
    ensures { course.new ≡ course_sent setting.now.problem.now frozen.now process item course.old }
{
    let node = setting.problem.node_of(process);
    let time = unfrozen_send(setting, course, process).max(frozen_time(frozen, item));
    // the node's next slot is a round later
    let free = time + setting.plan.round(setting.problem);
    course.send(item, node, time, free);
}
