//! Finds the latest times of all tracks along an order, one process after another, and the frozen times they give.
ghost use Rattle.std.specs.Prelude.{◌≡◌, ◌+◌, ◌<◌, None, OnOk, Contains, get_or, length};
ghost use Rattle.cpg_base.specs.Graph.{process_count, item_count};
ghost use Rattle.cpg_base.specs.Order.{place};
ghost use Rattle.cpg_bus.specs.Plan.{queue_of};
ghost use Rattle.cpg_order.specs.Track.{AreTracks};
ghost use Rattle.cpg_latest.specs.Course.{AreAsked, AreLanes, AreSettledOf, HaveValues, IsDone, outcomes_asked, outcomes_of};
ghost use Rattle.cpg_latest.specs.Lanes.{AreLanesBefore, AreSending, CanBegin, HasSentTo, IsSettledBy, queued};
ghost use Rattle.cpg_latest.specs.Over.{IsLatestSend, IsLatestStart, TellSends, TellStarts};
ghost use Rattle.cpg_run.specs.Known.{AreEarly};
ghost use Rattle.cpg_run.specs.Setting.{IsSetting};

use crate::asking::{Asked, ask_each};
use crate::lanes::Lane;
use cpg_base::{OutOfMemory, Scenario};
use cpg_run::{FrozenTimes, Setting, later};
use std::alloc::Global;

/// Sets the frozen time of an item to `latest`, its latest time. With `None` it gets none.
fn settle(frozen: &mut FrozenTimes, item: u32, latest: Option<u64>)
    requires item { item < length frozen.old }
    requires unset { get_or frozen.old item None ≡ None }
    ensures time { get_or frozen.new item None ≡ latest }
    ensures others { IsSettledBy item frozen.old frozen.new }
{
    if let Some(time) = latest {
        frozen.set(item, time);
    }
}

/// Returns the latest start of a process over all tracks as if it were not frozen. `None` exactly if it is active in none.
/// `asked` is what each track says of the process, and `lanes` has the lane of each track.
fn latest_start(
    setting: &Setting<'_>,
    asked: &[Asked<'_>],
    lanes: &[Lane],
    process: u32,
) -> Option<u64>
    requires setting { IsSetting setting.now }
    requires process { process < process_count setting.now.problem.now }
    requires asked { AreAsked setting.now.problem.now setting.now.guards.now process asked.now }
    requires lanes { TellStarts setting.now.problem.now (outcomes_asked asked.now) lanes.now }
    ensures { IsLatestStart setting.now.problem.now (outcomes_asked asked.now) process lanes.now (length lanes.now) result }
{
    // what was asked of a track and its lane are at the same place
    let mut latest = None;
    for i in 0..lanes.len() {
        latest = later(latest, lanes[i].start(setting, &asked[i], process));
    }
    latest
}

/// Sets the frozen time of a process's start, if it is frozen and active in some track. `asked` is what each track says of
/// the process, and `lanes` has the lane of each track.
fn settle_start(
    setting: &Setting<'_>,
    frozen: &mut FrozenTimes,
    asked: &[Asked<'_>],
    lanes: &[Lane],
    process: u32,
)
    requires setting { IsSetting setting.now }
    requires process { process < process_count setting.now.problem.now }
    requires tracks { AreTracks setting.now.problem.now (outcomes_asked asked.now) }
    requires asked { AreAsked setting.now.problem.now setting.now.guards.now process asked.now }
    requires known { AreLanesBefore setting.now (outcomes_asked asked.now) (place setting.now.order.now process) frozen.old lanes.now }
    ensures settled { AreSettledOf setting.now.problem.now setting.now.order.now (IsDone setting.now.problem.now setting.now.order.now process 0) frozen.new }
    ensures others { IsSettledBy process frozen.old frozen.new }
{
    // a start that isn't frozen has no frozen time
    if !setting.problem.is_frozen(process) {
        return;
    }
    let latest = latest_start(setting, asked, lanes, process);
    settle(frozen, process, latest);
}

/// Returns the latest time over all tracks at which a process could send an item if that were not frozen. `None` exactly if
/// the item is active in none. `asked` is what each track says of the process, and `lanes` has the lane of each track.
fn latest_send(
    setting: &Setting<'_>,
    asked: &[Asked<'_>],
    lanes: &[Lane],
    process: u32,
    item: u32,
) -> Option<u64>
    requires setting { IsSetting setting.now }
    requires process { process < process_count setting.now.problem.now }
    requires item { Contains (queue_of setting.now.problem.now process) item }
    requires asked { AreAsked setting.now.problem.now setting.now.guards.now process asked.now }
    requires lanes { TellSends setting.now.problem.now (outcomes_asked asked.now) process lanes.now }
    ensures { IsLatestSend setting.now.problem.now (outcomes_asked asked.now) process item lanes.now (length lanes.now) result }
{
    let mut latest = None;
    for i in 0..lanes.len() {
        let time = lanes[i].send_time(setting, &asked[i], process, item);
        latest = later(latest, time);
    }
    latest
}

/// Sets the frozen time of the item at the place `at` in the queue of a process, if it is frozen and active in some track.
/// `asked` is what each track says of the process, and `lanes` has the lane of each track.
fn settle_send(
    setting: &Setting<'_>,
    frozen: &mut FrozenTimes,
    asked: &[Asked<'_>],
    lanes: &[Lane],
    process: u32,
    at: usize,
)
    requires setting { IsSetting setting.now }
    requires process { process < process_count setting.now.problem.now }
    requires at { at < length (queue_of setting.now.problem.now process) }
    requires tracks { AreTracks setting.now.problem.now (outcomes_asked asked.now) }
    requires asked { AreAsked setting.now.problem.now setting.now.guards.now process asked.now }
    requires sending { AreSending setting.now (outcomes_asked asked.now) process at frozen.old lanes.now }
    ensures settled { AreSettledOf setting.now.problem.now setting.now.order.now (IsDone setting.now.problem.now setting.now.order.now process (at + 1)) frozen.new }
    ensures others { IsSettledBy (queued setting.now.problem.now process at) frozen.old frozen.new }
{
    let item = setting.plan.queue(setting.problem, process)[at];
    // an item that isn't frozen has no frozen time
    if !setting.problem.is_frozen(item) {
        return;
    }
    let latest = latest_send(setting, asked, lanes, process, item);
    settle(frozen, item, latest);
}

/// Starts a process in each course of each track in which it is active; in the others its node waits for what decides it.
/// `asked` is what each track says of the process.
fn begin_each(
    setting: &Setting<'_>,
    frozen: &FrozenTimes,
    asked: &[Asked<'_>],
    lanes: &mut Vec<Lane>,
    process: u32,
)
    requires setting { IsSetting setting.now }
    requires frozen { length frozen.now ≡ item_count setting.now.problem.now }
    requires early { AreEarly frozen.now }
    requires process { process < process_count setting.now.problem.now }
    requires asked { AreAsked setting.now.problem.now setting.now.guards.now process asked.now }
    requires lanes { AreLanes setting.now.problem.now (CanBegin setting.now frozen.now process) (outcomes_asked asked.now) lanes.old.items }
    ensures { AreLanes setting.now.problem.now (HasSentTo setting.now frozen.now process 0 0) (outcomes_asked asked.now) lanes.new.items }
{
    for i in 0..asked.len() {
        lanes[i].begin(setting, frozen, &asked[i], process);
    }
}

/// Sends the item at the place `at` in the queue of a process, in each course of each track in which the item is active.
/// `asked` is what each track says of the process.
fn send_each(
    setting: &Setting<'_>,
    frozen: &FrozenTimes,
    asked: &[Asked<'_>],
    lanes: &mut Vec<Lane>,
    process: u32,
    at: usize,
)
    requires setting { IsSetting setting.now }
    requires frozen { length frozen.now ≡ item_count setting.now.problem.now }
    requires early { AreEarly frozen.now }
    requires process { process < process_count setting.now.problem.now }
    requires at { at < length (queue_of setting.now.problem.now process) }
    requires asked { AreAsked setting.now.problem.now setting.now.guards.now process asked.now }
    requires lanes { AreLanes setting.now.problem.now (HasSentTo setting.now frozen.now process (at + 1) at) (outcomes_asked asked.now) lanes.old.items }
    ensures { AreLanes setting.now.problem.now (HasSentTo setting.now frozen.now process (at + 1) (at + 1)) (outcomes_asked asked.now) lanes.new.items }
{
    for i in 0..asked.len() {
        lanes[i].send(setting, frozen, &asked[i], process, at);
    }
}

/// Sends all items of a process in each track in which they are active, and sets the frozen times of those that are frozen.
/// `asked` is what each track says of the process.
fn send_all(
    setting: &Setting<'_>,
    frozen: &mut FrozenTimes,
    asked: &[Asked<'_>],
    lanes: &mut Vec<Lane>,
    process: u32,
)
    requires setting { IsSetting setting.now }
    requires process { process < process_count setting.now.problem.now }
    requires tracks { AreTracks setting.now.problem.now (outcomes_asked asked.now) }
    requires asked { AreAsked setting.now.problem.now setting.now.guards.now process asked.now }
    requires sending { AreSending setting.now (outcomes_asked asked.now) process 0 frozen.old lanes.old.items }
    ensures { AreSending setting.now (outcomes_asked asked.now) process (length (queue_of setting.now.problem.now process)) frozen.new lanes.new.items }
{
    // item by item, since the frozen time of one has to be set before it is sent, and the next waits for its slot
    for at in 0..setting.plan.queue(setting.problem, process).len() {
        settle_send(setting, frozen, asked, lanes.as_slice(), process, at);
        send_each(setting, frozen, asked, lanes, process, at);
    }
}

/// Goes on by one process: finds the latest times of its start, its end and all that it sends in each track, and the frozen
/// times of those that are frozen. `frozen` and `lanes` have what was found for the processes before it in the order.
pub(crate) fn step(
    alloc: Global,
    setting: &Setting<'_>,
    tracks: &[Scenario],
    frozen: &mut FrozenTimes,
    lanes: &mut Vec<Lane>,
    process: u32,
) -> Result<(), OutOfMemory>
    requires setting { IsSetting setting.now }
    requires process { process < process_count setting.now.problem.now }
    requires tracks { AreTracks setting.now.problem.now (outcomes_of tracks.now) }
    requires values { HaveValues setting.now.problem.now tracks.now }
    requires known { AreLanesBefore setting.now (outcomes_of tracks.now) (place setting.now.order.now process) frozen.old lanes.old.items }
    ensures { OnOk result (AreLanesBefore setting.now (outcomes_of tracks.now) (place setting.now.order.now process + 1) frozen.new lanes.new.items) }
{
    // the frozen time of the start is set before it is used
    let asked = ask_each(alloc, setting, tracks, process)?;
    settle_start(setting, frozen, asked.as_slice(), lanes.as_slice(), process);
    begin_each(setting, frozen, asked.as_slice(), lanes, process);
    send_all(setting, frozen, asked.as_slice(), lanes, process);
    Ok(())
}
