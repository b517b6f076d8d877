//! The keys of the processes, by which the track order is sorted.
ghost use Rattle.std.specs.Prelude.{◌≡◌, ◌<◌, ◌≤◌, ◌+◌, ◌^◌, All, IfOk, length};
ghost use Rattle.cpg_base.specs.Graph.{process_count};
ghost use Rattle.cpg_order.specs.Links.{links_of};
ghost use Rattle.cpg_order.specs.Urgency.{IsTopological};
ghost use Rattle.cpg_tracks.specs.Tracks.{key_by};
ghost use Rattle.cpg_tracks.specs.Track.{AreBy};
ghost use Rattle.cpg_tracks.specs.Walks.{AreKeys};
ghost use Rattle.cpg_tracks.specs.Keys.{latest, AreLow};

use crate::Starts;
use cpg_base::{Order, OutOfMemory, Problem};
use cpg_order::Links;
use std::alloc::Global;

/// Returns the latest start of a process in these schedules, and 0 if it has none in any.
fn latest(schedules: &[Starts], process: u32) -> u64
    ensures { result ≡ latest schedules.now process }
{
    let mut latest = 0;
    for starts in schedules {
        // the process has no start in tracks in which it is inactive
        if let Some(start) = starts.start_of(process) {
            latest = latest.max(start);
        }
    }
    latest
}

/// Returns the key of a process: the greatest of its latest start and one more than the key of each predecessor. `keys`
/// has the keys of the predecessors.
fn key_of(problem: &Problem, links: &Links, schedules: &[Starts], keys: &[u64], process: u32) -> u64
    requires links { links.now ≡ links_of problem.now }
    requires process { process < process_count problem.now }
    requires keys { length keys.now ≡ process_count problem.now }
    // one more than a key doesn't overflow
    requires low { AreLow (2 ^ 61) keys.now }
    ensures { result ≡ key_by problem.now schedules.now keys.now process }
{
    let mut key = latest(schedules, process);
    // one more than the key of each source, so that the process comes after it
    for edge in links.inputs(process) {
        key = key.max(keys[problem.source(*edge) as usize] + 1);
    }
    key
}

/// Returns the key of each process, by number. The order may be any topological one.
pub fn keys(
    alloc: Global,
    problem: &Problem,
    links: &Links,
    order: &Order,
    schedules: &[Starts],
) -> Result<Vec<u64>, OutOfMemory>
    requires links { links.now ≡ links_of problem.now }
    requires order { IsTopological problem.now order.now }
    // keys are at most 128 above the starts, so none overflows
    requires early { All (AreBy (2 ^ 60)) schedules.now }
    ensures { IfOk result (λ keys. AreKeys problem.now schedules.now keys.items) }
{
    // 0 until the key is set
    let mut keys = vec![in alloc; 0u64; problem.processes().len()]?;
    for process in order.processes() {
        // predecessors come earlier in the order, so their keys are set by now
        let key = key_of(problem, links, schedules, keys.as_slice(), *process);
        keys[*process as usize] = key;
    }
    Ok(keys)
}
