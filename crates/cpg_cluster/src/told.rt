//! Gathering the frames, reports and planned ends of a node's turn, and noting the acts that it does.
ghost use Rattle.std.specs.Prelude.{◌≡◌, ◌≤◌, ◌<◌, ◌+◌, ◌++◌, ◌∷◌, [], ◌==◌, ◌&&◌, ℕ, All, None, fold, get_or, nat_le, option_to_list, length, map};
ghost use Rattle.std.specs.Vec.{vec_len, vec_capacity};
ghost use Rattle.cpg_base.specs.Scenario.{IsScenario};
ghost use Rattle.cpg_base.specs.Graph.{process_count};
ghost use Rattle.cpg_node.specs.Dispatcher.{due_reports_of};
ghost use Rattle.cpg_cluster.specs.Cluster.{report_of, ended_of};
ghost use Rattle.cpg_cluster.specs.Keeping.{note};
ghost use Rattle.cpg_cluster.specs.Taking.{frames_from, IsOwnOf, reports_by, ends_by, AllFinish, all_finished};

use crate::senders::value_of_process;
use cpg_base::{Lengths, Problem, Scenario};
use cpg_node::{Act, Ended, Frame, Node, Running};
use cpg_table::Own;

/// Whether an act is of this item, and its frame arrives at the time: one slot length, `slot`, after the act.
fn arrives(act: &Act, item: u32, slot: u64, time: u64) -> bool
    ensures { result ≡ ((act.now.item == item) && (act.now.time + slot == time)) }
{
    if act.item != item {
        return false;
    }
    // a difference, since the sum might be too great
    time >= slot && act.time == time - slot
}

/// Adds to `frames` that of `act`, with `value`, if the act is of `item`, and its frame, of length `slot`, arrives at `time`.
fn add_frame(value: bool, item: u32, slot: u64, time: u64, act: &Act, frames: &mut Vec<Frame>)
    requires { vec_len frames.old + length (frames_from value item slot time (act.now ∷ [])) ≤ vec_capacity frames.old }
    ensures frames { frames.new.items ≡ frames.old.items ++ frames_from value item slot time (act.now ∷ []) }
    ensures room { vec_capacity frames.new ≡ vec_capacity frames.old }
{
    if arrives(act, item, slot, time) {
        frames.push_reserved(Frame {
            item: act.item,
            column: act.column,
            value,
        });
    }
}

/// Returns the act that is noted for an item, or `None` if none is, or the graph has no such item.
fn act_of(noted: &[Option<Act>], item: u32) -> Option<Act>
    ensures { result ≡ get_or noted.now item None }
{
    match noted.get(item as usize) {
        Some(act) => *act,
        None => None,
    }
}

/// Adds to `frames` that of the act that is noted for `item`, with `value`, if there is one, and its frame, of length
/// `slot`, arrives at `time`.
pub fn add_noted_frame(
    value: bool,
    item: u32,
    slot: u64,
    time: u64,
    noted: &[Option<Act>],
    frames: &mut Vec<Frame>,
)
    requires { vec_len frames.old + length (frames_from value item slot time (option_to_list (get_or noted.now item None))) ≤ vec_capacity frames.old }
    ensures frames { frames.new.items ≡ frames.old.items ++ frames_from value item slot time (option_to_list (get_or noted.now item None)) }
    ensures room { vec_capacity frames.new ≡ vec_capacity frames.old }
{
    if let Some(act) = act_of(noted, item) {
        add_frame(value, item, slot, time, &act, frames);
    }
}

/// Returns what an execution of the process `own` reports at its end in the scenario.
fn ended_of(problem: &Problem, scenario: &Scenario, own: &Own) -> Ended
    requires scenario { IsScenario problem.now scenario.now }
    requires own { IsOwnOf problem.now own.now }
    ensures { result ≡ ended_of problem.now (record { scenario = scenario.now; lengths = [] }) own.now }
{
    Ended {
        process: own.process,
        faults: scenario.fault(own.process),
        value: value_of_process(problem, scenario, own.condition),
    }
}

/// Whether an execution that started at `start` and takes `length` is over by the time.
fn is_over(start: u64, length: u64, time: u64) -> bool
    ensures { result ≡ nat_le (start + length) time }
{
    // a difference, since the sum might be too great
    time >= start && length <= time - start
}

/// Returns the report of the execution of the process `own`, with its actual end. `None` if the process isn't running, its
/// report has been taken, or the execution isn't over by the time.
fn report_of(
    problem: &Problem,
    scenario: &Scenario,
    lengths: &Lengths,
    own: &Own,
    running: Option<Running>,
    time: u64,
) -> Option<(u64, Ended)>
    requires scenario { IsScenario problem.now scenario.now }
    requires own { IsOwnOf problem.now own.now }
    requires lengths { length lengths.now ≡ process_count problem.now }
    ensures { option_to_list result ≡ report_of problem.now (record { scenario = scenario.now; lengths = lengths.now }) time own.now running }
{
    // nothing of the process runs
    let running = running?;
    // the report was taken at an earlier turn
    if running.report.is_some() {
        return None;
    }
    let length = lengths.length_of(own.process);
    // the execution goes on past the time
    if !is_over(running.start, length, time) {
        return None;
    }
    let ended = ended_of(problem, scenario, own);
    Some((running.start + length, ended))
}

/// Adds to `reports` that of an execution, if there is one.
fn add_report(report: Option<(u64, Ended)>, reports: &mut Vec<(u64, Ended)>)
    requires { vec_len reports.old + length (option_to_list report) ≤ vec_capacity reports.old }
    ensures reports { reports.new.items ≡ reports.old.items ++ option_to_list report }
    ensures room { vec_capacity reports.new ≡ vec_capacity reports.old }
{
    if let Some(report) = report {
        reports.push_reserved(report);
    }
}

/// Adds to `reports` those of executions that are over by `time` and haven't been taken, in the order of the processes. `own`
/// are the node's processes, and `running` has the execution of each, if it runs.
pub fn gather_reports(
    problem: &Problem,
    scenario: &Scenario,
    lengths: &Lengths,
    own: &[Own],
    running: &[Option<Running>],
    time: u64,
    reports: &mut Vec<(u64, Ended)>,
)
    requires scenario { IsScenario problem.now scenario.now }
    requires own { All (IsOwnOf problem.now) own.now }
    requires lengths { length lengths.now ≡ process_count problem.now }
    requires same { length own.now ≡ length running.now }
    requires room { length (reports.old.items ++ reports_by problem.now (record {
      scenario = scenario.now;
      lengths = lengths.now;
    }) time own.now running.now) ≤ vec_capacity reports.old }
    ensures reports { reports.new.items ≡ reports.old.items ++ reports_by problem.now (record {
      scenario = scenario.now;
      lengths = lengths.now;
    }) time own.now running.now }
    ensures room { vec_capacity reports.new ≡ vec_capacity reports.old }
{
    for (place, own) in own.iter().enumerate() {
        let report = report_of(problem, scenario, lengths, own, running[place], time);
        add_report(report, reports);
    }
}

/// Returns the report of the execution of the process `own`, if its planned end is this time. `None` if the process isn't
/// running, its report hasn't come, or its planned end is another time.
fn planned_end(own: &Own, running: Option<Running>, time: u64) -> Option<Ended>
    ensures { option_to_list result ≡ due_reports_of time own.now running }
{
    let running = running?;
    // without a report the planned end isn't known
    let ended = running.report?;
    // a process has a duration for each count up to k, so a report of more faults would get the default
    let duration = own
        .times
        .times()
        .get(ended.faults as usize)
        .copied()
        .unwrap_or(0);
    // the difference below would be less than 0
    if time < running.start {
        return None;
    }
    if duration == time - running.start {
        Some(ended)
    } else {
        None
    }
}

/// Adds to `ends` the reports whose planned end is `time`, each with this time, in the order of the processes. `own` are the
/// node's processes, and `running` has the execution of each, if it runs.
pub fn gather_ends(
    own: &[Own],
    running: &[Option<Running>],
    time: u64,
    ends: &mut Vec<(u64, Ended)>,
)
    requires same { length own.now ≡ length running.now }
    requires room { length (ends.old.items ++ ends_by time own.now running.now) ≤ vec_capacity ends.old }
    ensures ends { ends.new.items ≡ ends.old.items ++ ends_by time own.now running.now }
    ensures room { vec_capacity ends.new ≡ vec_capacity ends.old }
{
    for (place, own) in own.iter().enumerate() {
        let end = planned_end(own, running[place], time);
        add_end(time, end, ends);
    }
}

/// Adds to `ends` the report `end`, if there is one, with its planned end, which is `time`.
fn add_end(time: u64, end: Option<Ended>, ends: &mut Vec<(u64, Ended)>)
    requires { vec_len ends.old + length (option_to_list end) ≤ vec_capacity ends.old }
    ensures ends { ends.new.items ≡ ends.old.items ++ map (λ e. (time, e)) (option_to_list end) }
    ensures room { vec_capacity ends.new ≡ vec_capacity ends.old }
{
    if let Some(ended) = end {
        ends.push_reserved((time, ended));
    }
}

/// Gives the node the reports `ended`, each at its time, one after another.
pub fn finish_all(node: &mut Node, ended: &[(u64, Ended)])
    requires { AllFinish node.old.dispatcher ended.now }
    ensures { node.new ≡ record node.old { dispatcher = all_finished node.old.dispatcher ended.now } }
{
    for report in ended {
        let (time, ended) = *report;
        node.finished(time, ended);
    }
}

/// Notes an act at its item, in place of any earlier one; an act of an item that the graph doesn't have isn't noted.
fn note_act(noted: &mut Vec<Option<Act>>, act: Act)
    ensures { noted.new.items ≡ note noted.old.items act }
{
    let item = act.item as usize;
    // an item that the graph doesn't have has no place
    if item < noted.len() {
        noted[item] = Some(act);
    }
}

/// Notes acts at their items, one after another.
pub fn note_acts(noted: &mut Vec<Option<Act>>, acts: &[Act])
    ensures { noted.new.items ≡ fold note noted.old.items acts.now }
{
    for act in acts {
        note_act(noted, *act);
    }
}
