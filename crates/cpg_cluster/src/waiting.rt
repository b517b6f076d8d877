//! Whether a node has to wait on another node before it takes its next instant.
ghost use Rattle.std.specs.Prelude.{◌≡◌, ◌<◌, ◌≤◌, ◌+◌, length, map, filter, get_or, nat_le, option_to_list};
ghost use Rattle.std.specs.List.{list_any};
ghost use Rattle.cpg_base.specs.Numbers.{numbers_below};
ghost use Rattle.std.specs.List.Sorted.{IsNonDecreasingBy};
ghost use Rattle.cpg_cluster.specs.Cluster.{answer_by};
ghost use Rattle.cpg_cluster.specs.Keeping.{AreIndexed, waits_until, waits_between, answer_if};

use crate::arrivals::first_after;
use crate::member::Member;

/// Whether a node with this next instant and slot length may still send a frame that arrives at the time `arrival`. Without
/// a next instant it sends nothing more.
fn may_still_send(next: Option<u64>, slot: u64, arrival: u64) -> bool
    ensures { result ≡ list_any (λ u. nat_le (u + slot) arrival) (option_to_list next) }
{
    match next {
        // a difference, since the sum might be too great
        Some(next) => arrival >= slot && next <= arrival - slot,
        None => false,
    }
}

/// Whether a sender with this next instant and slot length may still send one of the frames whose arrivals are `times` and
/// which arrive by `time`.
fn waits_on(times: &[u64], time: u64, next: Option<u64>, slot: u64) -> bool
    requires { IsNonDecreasingBy (λ t. t) times.now }
    ensures { result ≡ list_any (waits_until time next slot) times.now }
{
    // a frame that it sends at its next instant arrives after the time, as do later ones (this spares the search below)
    if !may_still_send(next, slot, time) {
        return false;
    }
    let after = first_after(times, time);
    // no frame arrives by the time
    if after == 0 {
        return false;
    }
    // if the sender may still send any of them, it may still send the last
    let arrival = times[after - 1];
    may_still_send(next, slot, arrival)
}

/// Whether `member` waits on `sender`, the member with number `other`, before it takes the instant `time`.
fn waits_between(member: &Member, time: u64, other: u32, sender: &Member) -> bool
    requires indexed { AreIndexed member.now.node.dispatcher.table.hears member.now.senders.items (length member.now.arrivals.items) member.now.arrivals.items }
    requires other { other < length member.now.arrivals.items }
    ensures { result ≡ waits_between time member.now other sender.now }
{
    let times = &member.arrivals[other as usize];
    waits_on(times.as_slice(), time, sender.node.next(), sender.slot)
}

/// Returns the member on which `member` waits before it takes the instant `time`: of several, the one with the least
/// number. `None` if it waits on none.
pub fn waited_on(members: &[Member], member: &Member, time: u64) -> Option<u32>
    requires indexed { AreIndexed member.now.node.dispatcher.table.hears member.now.senders.items (length members.now) member.now.arrivals.items }
    requires few { length members.now ≤ 16 }
    ensures { (d : Member) →
        answer_if result ≡ answer_by (filter (λ b. waits_between time member.now b (get_or members.now b d)) (numbers_below (length members.now))) }
{
    let mut other: u32 = 0;
    for sender in members {
        if waits_between(member, time, other, sender) {
            return Some(other);
        }
        other += 1;
    }
    None
}
