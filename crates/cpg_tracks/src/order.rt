//! The track order.
ghost use Rattle.std.specs.Prelude.{◌≡◌, ◌≤◌, IfOk, IfSome, IfNone, IsPermutation, AllPairs, IsTrue, length};
ghost use Rattle.cpg_base.specs.Numbers.{numbers_below};
ghost use Rattle.cpg_order.specs.Urgency.{IsTopological};
ghost use Rattle.cpg_tracks.specs.Tracks.{is_ahead, HasTrackOrder, HasManyTracks};
ghost use Rattle.cpg_tracks.specs.Rests.{AreRests};

use crate::keys::keys;
use crate::schedule::schedules;
use crate::tracks;
use cpg_base::{Order, OutOfMemory};
use cpg_order::{Links, ordered, ranked};
use cpg_rules::Admitted;
use std::alloc::Global;

/// Returns how far each key is from the greatest 64-bit number. A lower key is farther, so the rests sort the other way
/// round.
fn rests(alloc: Global, keys: &[u64]) -> Result<Vec<u64>, OutOfMemory>
    ensures { IfOk result (λ rests. AreRests keys.now rests.items) }
{
    let mut rests = Vec::new(alloc);
    rests.reserve(keys.len())?;
    for key in keys {
        rests.push(u64::MAX - *key)?;
    }
    Ok(rests)
}

/// Returns the processes by rising keys, and for equal ones by number.
fn by_key(alloc: Global, keys: &[u64]) -> Result<Vec<u32>, OutOfMemory>
    requires { length keys.now ≤ 128 }
    // each process number once, in the order of the keys
    ensures all { IfOk result (λ order. IsPermutation (numbers_below (length keys.now)) order.items) }
    ensures rising { IfOk result (λ order. AllPairs (λ p q. IsTrue (is_ahead keys.now p q)) order.items) }
{
    let rests = rests(alloc, keys)?;
    // `ranked` puts the greater number first, which here is that of the lower key
    let order = ranked(alloc, rests.as_slice())?;
    Ok(order)
}

/// Returns the track order of a graph: by key, and for equal keys by number. The key of a process is the greatest of
/// its starts in the greedy schedules of all tracks and of one more than the key of each predecessor. Returns `None`
/// exactly if there are more than 256 tracks.
pub fn merged_order(alloc: Global, admitted: &Admitted) -> Result<Option<Order>, OutOfMemory>
    ensures order { IfOk result (λ found. IfSome found (HasTrackOrder admitted.now.graph)) }
    ensures topological { IfOk result (λ found. IfSome found (IsTopological admitted.now.graph)) }
    ensures many { IfOk result (λ found. IfNone found (HasManyTracks admitted.now.graph)) }
{
    let Some(tracks) = tracks(alloc, admitted)? else {
        return Ok(None);
    };
    let problem = admitted.problem();
    let links = Links::of(alloc, problem)?;
    let schedules = schedules(alloc, admitted, &links, tracks.as_slice())?;
    let keys = keys(
        alloc,
        problem,
        &links,
        admitted.order(),
        schedules.as_slice(),
    )?;
    let processes = by_key(alloc, keys.as_slice())?;
    // the key of a process is above those of its predecessors, so they come first: the order is topological
    let Some(order) = ordered(alloc, problem, processes.as_slice())? else {
        unreachable!()
    };
    Ok(Some(order))
}
