//! A lane: the courses of one track, for each number of faults.
ghost use Rattle.std.specs.Prelude.{◌≡◌, ◌<◌, ◌+◌, ◌^◌, ℕ, true, false, IfOk, Some, None, Contains, length};
ghost use Rattle.cpg_base.specs.Activity.{active, item_active};
ghost use Rattle.cpg_base.specs.Graph.{process_count, item_count, item_at, node_of};
ghost use Rattle.cpg_bus.specs.Plan.{queue_of};
ghost use Rattle.cpg_latest.specs.Course.{IsAsked, IsLane};
ghost use Rattle.cpg_latest.specs.Lanes.{CanBegin, HasSentTo, IsUnfrozenStart, excess_of_course, finish_of, last_course, no_lane, unfrozen_send};
ghost use Rattle.cpg_run.specs.Known.{AreEarly, AreSmall};
ghost use Rattle.cpg_run.specs.Run.{end_in};
ghost use Rattle.cpg_run.specs.Setting.{IsSetting};

use crate::asking::{Asked, is_item_active};
use crate::course::LatestCourse;
use crate::stepping::{begin, send_item, unfrozen_send};
use crate::waiting::{ready, unfrozen_start};
use cpg_base::{OutOfMemory, Problem};
use cpg_run::{FrozenTimes, Setting};
use std::alloc::Global;
use std::marker::Model;

/// The courses of a track.
#[derive(Drop)]
pub(crate) struct Lane {
    // by the number of faults, from none to all the faults of the graph
    courses: Vec<LatestCourse>,
}

impl Model for Lane {
    ghost use Rattle.std.specs.Prelude.{List};
    ghost use Rattle.cpg_run.specs.Progress.{ProgressState};

    ghost Value = { List ProgressState };

    ghost view = { λ l. l.courses.items };
}

/// Whether an item in the queue of a process is sent in a track. `asked` is what the track says of the process.
fn is_sent(setting: &Setting<'_>, asked: &Asked<'_>, process: u32, item: u32) -> bool
    requires setting { IsSetting setting.now }
    requires process { process < process_count setting.now.problem.now }
    requires asked { IsAsked setting.now.problem.now setting.now.guards.now process asked.now }
    requires item { Contains (queue_of setting.now.problem.now process) item }
    ensures sent { result ≡ true → (active setting.now.problem.now asked.now.scenario.now.values process ≡ true)
        × (item_active setting.now.problem.now asked.now.scenario.now.values (item_at setting.now.problem.now item) ≡ true) }
    ensures unsent { result ≡ false → active setting.now.problem.now asked.now.scenario.now.values process ≡ true
        → item_active setting.now.problem.now asked.now.scenario.now.values (item_at setting.now.problem.now item) ≡ false }
{
    // an inactive process sends nothing
    if !asked.acts {
        return false;
    }
    is_item_active(
        setting.problem,
        setting.guards,
        asked.scenario,
        process,
        item,
    )
}

impl Lane {
    /// Returns a lane in whose courses nothing is known, and all nodes are ready and their slots free at 0.
    pub(crate) fn none(alloc: Global, problem: &Problem) -> Result<Lane, OutOfMemory>
        ensures { IfOk result (λ lane. lane ≡ no_lane problem.now) }
    {
        let mut courses = Vec::new(alloc);
        // one course for no fault, and one for each further number of faults
        for _ in 0..problem.faults() as usize + 1 {
            courses.push(LatestCourse::none(alloc, problem)?)?;
        }
        Ok(Lane { courses })
    }

    /// Returns when a process could start at the latest, with all the faults, if it were not frozen. `None` exactly if it is
    /// inactive. `asked` is what the track says of the process.
    pub(crate) fn start(
        &self,
        setting: &Setting<'_>,
        asked: &Asked<'_>,
        process: u32,
    ) -> Option<u64>
        requires setting { IsSetting setting.now }
        requires process { process < process_count setting.now.problem.now }
        requires asked { IsAsked setting.now.problem.now setting.now.guards.now process asked.now }
        requires count { length self.now ≡ setting.now.problem.now.faults + 1 }
        requires ready { length (last_course setting.now.problem.now self.now).ready ≡ length setting.now.problem.now.nodes }
        requires small { AreSmall (last_course setting.now.problem.now self.now).known }
        ensures idle { asked.now.acts ≡ false → result ≡ None }
        ensures acts { asked.now.acts ≡ true → (time : ℕ) × (result ≡ Some time)
            × IsUnfrozenStart setting.now.problem.now asked.now.scenario.now.values process (last_course setting.now.problem.now self.now) time }
    {
        if !asked.acts {
            return None;
        }
        // the last course, the one with all the faults
        let course = &self.courses[setting.problem.faults() as usize];
        let ready = ready(setting, course, asked, process);
        Some(unfrozen_start(setting, course, asked, process, ready))
    }

    /// Returns when an item of a process could be sent at the latest, with all the faults, if it were not frozen. `None`
    /// exactly if the item is inactive. `asked` is what the track says of the process.
    pub(crate) fn send_time(
        &self,
        setting: &Setting<'_>,
        asked: &Asked<'_>,
        process: u32,
        item: u32,
    ) -> Option<u64>
        requires setting { IsSetting setting.now }
        requires process { process < process_count setting.now.problem.now }
        requires asked { IsAsked setting.now.problem.now setting.now.guards.now process asked.now }
        requires item { Contains (queue_of setting.now.problem.now process) item }
        requires count { length self.now ≡ setting.now.problem.now.faults + 1 }
        requires free { length (last_course setting.now.problem.now self.now).free ≡ length setting.now.problem.now.nodes }
        requires early { active setting.now.problem.now asked.now.scenario.now.values process ≡ true
            → end_in (last_course setting.now.problem.now self.now).known process < 2 ^ 59 }
        ensures idle { (active setting.now.problem.now asked.now.scenario.now.values process ≡ true
            → item_active setting.now.problem.now asked.now.scenario.now.values (item_at setting.now.problem.now item) ≡ false) → result ≡ None }
        ensures acts { active setting.now.problem.now asked.now.scenario.now.values process ≡ true
            → item_active setting.now.problem.now asked.now.scenario.now.values (item_at setting.now.problem.now item) ≡ true
            → result ≡ Some (unfrozen_send setting.now.problem.now process (last_course setting.now.problem.now self.now)) }
    {
        if !is_sent(setting, asked, process, item) {
            return None;
        }
        // the last course, the one with all the faults
        let course = &self.courses[setting.problem.faults() as usize];
        Some(unfrozen_send(setting, course, process))
    }

    /// Starts a process in each course, if it is active. Otherwise lets its node wait in each for what decides it. `asked` is
    /// what the track says of the process, and `frozen` has the frozen time of its start, if that is frozen.
    pub(crate) fn begin(
        &mut self,
        setting: &Setting<'_>,
        frozen: &FrozenTimes,
        asked: &Asked<'_>,
        process: u32,
    )
        requires setting { IsSetting setting.now }
        requires frozen { length frozen.now ≡ item_count setting.now.problem.now }
        requires early { AreEarly frozen.now }
        requires process { process < process_count setting.now.problem.now }
        requires asked { IsAsked setting.now.problem.now setting.now.guards.now process asked.now }
        requires lane { IsLane setting.now.problem.now (CanBegin setting.now frozen.now process asked.now.scenario.now.values) self.old }
        ensures { IsLane setting.now.problem.now (HasSentTo setting.now frozen.now process 0 0 asked.now.scenario.now.values) self.new }
    {
        // the latest end with one fault less, by which a course follows from the one before; the first doesn't use it
        let mut last = 0;
        for faults in 0..self.courses.len() {
            let course = &mut self.courses[faults];
            last = begin(setting, frozen, asked, course, process, faults, last);
        }
    }

    /// Sends the item at the place `at` in the queue of a process in each course, if the item is active. `asked` is what the
    /// track says of the process, and `frozen` has the frozen time of the item, if that is frozen.
    pub(crate) fn send(
        &mut self,
        setting: &Setting<'_>,
        frozen: &FrozenTimes,
        asked: &Asked<'_>,
        process: u32,
        at: usize,
    )
        requires setting { IsSetting setting.now }
        requires frozen { length frozen.now ≡ item_count setting.now.problem.now }
        requires early { AreEarly frozen.now }
        requires process { process < process_count setting.now.problem.now }
        requires at { at < length (queue_of setting.now.problem.now process) }
        requires asked { IsAsked setting.now.problem.now setting.now.guards.now process asked.now }
        requires lane { IsLane setting.now.problem.now (HasSentTo setting.now frozen.now process (at + 1) at asked.now.scenario.now.values) self.old }
        ensures { IsLane setting.now.problem.now (HasSentTo setting.now frozen.now process (at + 1) (at + 1) asked.now.scenario.now.values) self.new }
    {
        let item = setting.plan.queue(setting.problem, process)[at];
        // an item that isn't sent changes no course
        if !is_sent(setting, asked, process, item) {
            return;
        }
        for faults in 0..self.courses.len() {
            let course = &mut self.courses[faults];
            send_item(setting, frozen, course, process, item);
        }
    }

    /// Returns the greatest end with all the faults, in time units, or 0 if no process is active.
    pub(crate) fn finish(&self, problem: &Problem) -> u64
        requires count { length self.now ≡ problem.now.faults + 1 }
        ensures { result ≡ finish_of problem.now (last_course problem.now self.now) }
    {
        // an inactive process has the end 0
        let course = &self.courses[problem.faults() as usize];
        let mut latest = 0u64;
        for process in 0..problem.processes().len() as u32 {
            latest = latest.max(course.end(process));
        }
        latest
    }

    /// Returns how far an end with all the faults is past its due at most, in time units: 0 if none is.
    pub(crate) fn excess(&self, problem: &Problem) -> u64
        requires count { length self.now ≡ problem.now.faults + 1 }
        ensures { result ≡ excess_of_course problem.now (last_course problem.now self.now) }
    {
        // an inactive process has the end 0, which is past no due
        let course = &self.courses[problem.faults() as usize];
        let mut most = 0u64;
        for process in 0..problem.processes().len() as u32 {
            let end = course.end(process);
            most = most.max(end.saturating_sub(problem.due(process)));
        }
        most
    }
}
