//! The greedy schedules of a choice's tracks, against what was worked out by hand.
use crate::claims::{Claim, holds};
use crate::fixtures::CHOICE;
use cpg_base::OutOfMemory;
use cpg_rules::Admitted;
use cpg_tracks::{Starts, greedy, tracks};
use std::alloc::Global;

/// Returns the greedy schedules of all tracks, in order. An error is that the tracks are too many, or that memory runs
/// out.
fn schedules(alloc: Global, admitted: &Admitted) -> Result<Vec<Starts>, OutOfMemory> {
    let Some(tracks) = tracks(alloc, admitted)? else {
        return Err(OutOfMemory);
    };
    let mut schedules = Vec::new(alloc);
    for track in tracks.as_slice() {
        schedules.push(greedy(alloc, admitted, track)?)?;
    }
    Ok(schedules)
}

/// Returns the starts of the processes 0 to 3 in a schedule; `None` for one that doesn't start.
fn starts(schedule: &Starts) -> [Option<u64>; 4] {
    let of = |process| schedule.start_of(process);
    [of(0), of(1), of(2), of(3)]
}

/// Whether there are as many schedules as in `wanted`, and each has its starts there, in order.
fn are_starts(schedules: &[Starts], wanted: &[[Option<u64>; 4]]) -> bool {
    if schedules.len() != wanted.len() {
        return false;
    }
    for at in 0..schedules.len() {
        if starts(&schedules[at]) != wanted[at] {
            return false;
        }
    }
    true
}

/// Whether the starts of the greedy schedules of a graph's tracks are those of `wanted`, in order. False at an error, too.
pub fn have_starts(alloc: Global, admitted: &Admitted, wanted: &[[Option<u64>; 4]]) -> bool {
    match schedules(alloc, admitted) {
        Ok(schedules) => are_starts(schedules.as_slice(), wanted),
        Err(_) => false,
    }
}

/// First the track of C, then that of B.
#[test]
fn each_track_has_its_schedule(rt: HostRuntime) {
    let wanted = [
        [Some(0), None, Some(35), Some(70)],
        [Some(0), Some(55), None, Some(70)],
    ];
    assert!(rt; holds(rt.alloc(), CHOICE, Claim::Starts(&wanted)));
}
