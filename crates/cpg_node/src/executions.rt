//! What runs on a node: an execution or none for each of its own processes, in their order.
ghost use Rattle.std.specs.Prelude.{◌≡◌, ◌≤◌, ◌<◌, ◌+◌, ◌^◌, ◌++◌, ◌∷◌, [], ◌||◌, ◌==◌, List, All, IfSome, Some, map, filter, length, option_to_list};
ghost use Rattle.std.specs.List.{flat_map, list_any};
ghost use Rattle.std.specs.Vec.{vec_len, vec_capacity};
ghost use Rattle.cpg_node.specs.Dispatcher.{least_of, is_after, possible_ends, zip_with, with_report, due_reports_of, running_after};
ghost use Rattle.cpg_node.specs.State.{earlier, running_in, IsTimed, AreTimed};

use crate::{Act, Ended, Running};
use cpg_table::Own;

/// Returns the execution of a process, or `None` if the process isn't the node's own or doesn't run.
pub fn running_in(own: &[Own], running: &[Option<Running>], process: u32) -> Option<Running>
    requires { length own.now ≡ length running.now }
    ensures { result ≡ running_in own.now running.now process }
{
    for (place, own) in own.iter().enumerate() {
        if own.process == process {
            return running[place];
        }
    }
    None
}

/// Returns the lesser of two times; if one is `None`, the other.
pub fn earlier(time: Option<u64>, other: Option<u64>) -> Option<u64>
    ensures { result ≡ earlier time other }
{
    // `None` is no time, so the other one counts
    let Some(first) = time else {
        return other;
    };
    let Some(second) = other else {
        return time;
    };
    Some(first.min(second))
}

/// Returns the end of an execution with this start and duration, or `None` if it isn't after the last turn.
fn end_after(start: u64, duration: u64, last: u64) -> Option<u64>
    requires { start + duration < 2 ^ 64 }
    ensures { result ≡ least_of (filter (is_after (Some last)) ((start + duration) ∷ [])) }
{
    let end = start + duration;
    if end > last { Some(end) } else { None }
}

/// Returns the first end after the last turn of an execution that may take each of these times, or `None` if there is
/// none.
fn first_end(times: &[u64], start: u64, last: u64) -> Option<u64>
    requires times { All (λ d. d < 2 ^ 60) times.now }
    requires start { start < 2 ^ 60 }
    ensures { result ≡ least_of (filter (is_after (Some last)) (map (λ d. start + d) times.now)) }
{
    let mut earliest = None;
    for duration in times {
        earliest = earlier(earliest, end_after(start, *duration, last));
    }
    earliest
}

/// Returns the first possible end of a process after the last turn, or `None` if there is none.
fn first_end_of(own: &Own, running: Option<Running>, last: u64) -> Option<u64>
    requires times { All (λ d. d < 2 ^ 60) own.now.times }
    requires start { IsTimed running }
    ensures { result ≡ least_of (filter (is_after (Some last)) (possible_ends own.now running)) }
{
    // a process that doesn't run has no end
    let Some(running) = running else {
        return None;
    };
    first_end(own.times.times(), running.start, last)
}

/// Returns the first possible end of anything that runs on the node after the last turn, or `None` if there is none.
pub fn earliest_end(own: &[Own], running: &[Option<Running>], last: u64) -> Option<u64>
    requires same { length own.now ≡ length running.now }
    requires times { All (λ o. All (λ d. d < 2 ^ 60) o.times) own.now }
    requires starts { AreTimed running.now }
    // the least of all ends that may come after the last turn, over all that runs
    ensures { result ≡ least_of (filter (is_after (Some last)) (flat_map (λ ends. ends) (zip_with possible_ends own.now running.now))) }
{
    let mut earliest = None;
    for (place, own) in own.iter().enumerate() {
        earliest = earlier(earliest, first_end_of(own, running[place], last));
    }
    earliest
}

/// Returns what a process runs after a report, which its execution keeps if the report is of this process; `None` exactly
/// if it doesn't run.
fn with_report(ended: Ended, own: &Own, running: Option<Running>) -> Option<Running>
    ensures { result ≡ with_report ended own.now running }
{
    // a process that doesn't run keeps nothing
    let running = running?;
    // the report is of another process
    if own.process != ended.process {
        return Some(running);
    }
    Some(Running {
        start: running.start,
        report: Some(ended),
    })
}

/// Notes a report: the execution that it belongs to keeps it.
pub fn note_report(own: &[Own], running: &mut [Option<Running>], ended: Ended)
    requires { length own.now ≡ length running.old }
    ensures { running.new ≡ zip_with (with_report ended) own.now running.old }
{
    for (place, own) in own.iter().enumerate() {
        running[place] = with_report(ended, own, running[place]);
    }
}

/// Returns the report of a process whose planned end is at the time, or `None` if it doesn't run, hasn't reported, or
/// its planned end is at another time.
fn due_report(own: &Own, running: Option<Running>, time: u64) -> Option<Ended>
    requires times { All (λ d. d < 2 ^ 60) own.now.times }
    requires start { IsTimed running }
    ensures { option_to_list result ≡ due_reports_of time own.now running }
{
    // it doesn't run, or hasn't reported
    let running = running?;
    let ended = running.report?;
    // the planned end is the start plus the duration with the reported faults, which the process has; 0 isn't used
    let duration = own
        .times
        .times()
        .get(ended.faults as usize)
        .copied()
        .unwrap_or(0);
    if running.start + duration == time {
        Some(ended)
    } else {
        None
    }
}

/// Adds the report of a process, if its planned end is at the time.
fn add_due(own: &Own, running: Option<Running>, time: u64, due: &mut Vec<Ended>)
    requires times { All (λ d. d < 2 ^ 60) own.now.times }
    requires start { IsTimed running }
    requires room { vec_len due.old < vec_capacity due.old }
    // the report is added if there is one and its planned end is at the time
    ensures added { due.new.items ≡ due.old.items ++ due_reports_of time own.now running }
    ensures one { vec_len due.new ≤ vec_len due.old + 1 }
    ensures room { vec_capacity due.new ≡ vec_capacity due.old }
{
    if let Some(ended) = due_report(own, running, time) {
        due.push_reserved(ended);
    }
}

/// Puts the reports whose planned end is at the time in place of what `due` had.
pub fn gather_due(own: &[Own], running: &[Option<Running>], time: u64, due: &mut Vec<Ended>)
    requires same { length own.now ≡ length running.now }
    requires times { All (λ o. All (λ d. d < 2 ^ 60) o.times) own.now }
    requires starts { AreTimed running.now }
    requires room { length own.now ≤ vec_capacity due.old }
    ensures reports { due.new.items ≡ flat_map (λ es. es) (zip_with (due_reports_of time) own.now running.now) }
    ensures room { vec_capacity due.new ≡ vec_capacity due.old }
{
    due.clear();
    for (place, own) in own.iter().enumerate() {
        add_due(own, running[place], time, due);
    }
}

/// Returns whether one of these acts starts the process, whose start has its number as item.
fn is_started(acts: &[Act], process: u32) -> bool
    ensures { result ≡ list_any (λ a. a.item == process) acts.now }
{
    acts.iter().any(|act| act.item == process)
}

/// Returns whether one of these ends is an end of the process.
fn is_ended(ended: &[Ended], process: u32) -> bool
    ensures { result ≡ list_any (λ e. e.process == process) ended.now }
{
    ended.iter().any(|end| end.process == process)
}

/// Returns what a process runs after a turn with these ends, due reports and acts: a new execution if an act starts it,
/// otherwise `None` if it ended, and else what it ran.
fn running_after(
    ended: &[Ended],
    due: &[Ended],
    acts: &[Act],
    time: u64,
    own: &Own,
    running: Option<Running>,
) -> Option<Running>
    ensures { result ≡ running_after (ended.now ++ due.now) acts.now time own.now running }
{
    // a start in this turn: the process runs from now on, without a report
    if is_started(acts, own.process) {
        return Some(Running {
            start: time,
            report: None,
        });
    }
    // its end was given to this turn
    if is_ended(ended, own.process) {
        return None;
    }
    // its report was kept until this turn
    if is_ended(due, own.process) {
        return None;
    }
    running
}

/// Turns what runs into what runs after a turn with these ends, due reports and acts.
pub fn turn_executions(
    ended: &[Ended],
    due: &[Ended],
    acts: &[Act],
    time: u64,
    own: &[Own],
    running: &mut [Option<Running>],
)
    requires { length own.now ≡ length running.old }
    ensures { running.new ≡ zip_with (running_after (ended.now ++ due.now) acts.now time) own.now running.old }
{
    for (place, own) in own.iter().enumerate() {
        running[place] = running_after(ended, due, acts, time, own, running[place]);
    }
}
