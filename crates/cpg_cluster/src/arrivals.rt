//! When the frames that a node hears arrive, by the node that sends them.
ghost use Rattle.std.specs.Prelude.{◌≡◌, ◌<◌, ◌≤◌, ◌++◌, IfOk, IsPermutation, OnOk, ℕ, get_or, length};
ghost use Rattle.std.specs.List.Sorted.{IsNonDecreasingBy};
ghost use Rattle.cpg_cluster.specs.Keeping.{arrival_times, AreIndexed};

use cpg_base::OutOfMemory;
use cpg_node::add_times;
use cpg_table::Row;
use std::alloc::Global;

/// Adds to `times` the arrival times in the hear rows of sender `other`, row by row; `senders` has the sender of each
/// row. The one error is that memory runs out.
fn add_times_of(
    times: &mut Vec<u64>,
    rows: &[Row],
    senders: &[u32],
    other: u32,
) -> Result<(), OutOfMemory>
    requires { length rows.now ≡ length senders.now }
    ensures { OnOk result (times.new.items ≡ times.old.items ++ arrival_times other rows.now senders.now) }
{
    for (place, row) in rows.iter().enumerate() {
        if senders[place] == other {
            add_times(times, row.columns())?;
        }
    }
    Ok(())
}

/// Returns the arrival times in the hear rows of sender `other`, by time; `senders` has the sender of each row. The one
/// error is that memory runs out.
fn arrivals_from(
    alloc: Global,
    rows: &[Row],
    senders: &[u32],
    other: u32,
) -> Result<Vec<u64>, OutOfMemory>
    requires { length rows.now ≡ length senders.now }
    ensures same { IfOk result (λ times. IsPermutation (arrival_times other rows.now senders.now) times.items) }
    ensures rises { IfOk result (λ times. IsNonDecreasingBy (λ t. t) times.items) }
{
    let mut times = Vec::new(alloc);
    add_times_of(&mut times, rows, senders, other)?;
    times.sort_unstable();
    Ok(times)
}

/// Returns, for each of the `count` nodes, the arrival times in the hear rows of which it is the sender, by time; `senders`
/// has the sender of each row. The one error is that memory runs out.
pub fn arrivals_of(
    alloc: Global,
    rows: &[Row],
    senders: &[u32],
    count: u32,
) -> Result<Vec<Vec<u64>>, OutOfMemory>
    requires { length rows.now ≡ length senders.now }
    ensures { IfOk result (λ arrivals. AreIndexed rows.now senders.now count arrivals.items) }
{
    let mut arrivals = Vec::new(alloc);
    for other in 0..count {
        arrivals.push(arrivals_from(alloc, rows, senders, other)?)?;
    }
    Ok(arrivals)
}

/// Returns the place of the first of `times` that is later than `time`, or how many times there are if none is. The
/// times don't fall.
pub fn first_after(times: &[u64], time: u64) -> usize
    requires { IsNonDecreasingBy (λ t. t) times.now }
    ensures within { result ≤ length times.now }
    ensures before { (i d : ℕ) → i < result → get_or times.now i d ≤ time }
    ensures past { (i d : ℕ) → result ≤ i → i < length times.now → time < get_or times.now i d }
{
    times.partition_point(|&arrival| arrival <= time)
}
