//! One node on a stream of records, however the stream is cut, and the lines of what it does.
#![tactic(auto)]

ghost use Rattle.cpg_live.specs.Fewer.{TurnsMayBeLeftOut};
ghost use Rattle.cpg_live.specs.Reorder.{EventsOfOneTimeCommute};
ghost use Rattle.cpg_live.specs.Spelling.{BytesSpellEvents};
ghost use Rattle.cpg_live.specs.Told.{ClosesAreFollowed, TurnsAreFollowed};

mod act_lines;
mod ending;
mod event;
mod following;
mod lawless;
mod live;
mod progress;
mod reading;

pub use following::{Broken, Follower, STREAM_LIMIT, StreamFault, stream_limit_is_this};
pub use lawless::{Defect, LawlessRecord};
pub use live::Live;

/// A node that takes no more turns than it must does the same on each stream. These turns are at the times of its columns
/// and at one end of each execution that runs.
pub fn turns_may_be_left_out()
    ensures { TurnsMayBeLeftOut }
{}

/// A node on a stream follows a turn of a node in a play that takes reports and frames, if it is fed their records.
pub fn turns_are_followed()
    ensures { TurnsAreFollowed }
{}

/// A close after the last instant of a node in a play leads a node on a stream to the state of that node.
pub fn closes_are_followed()
    ensures { ClosesAreFollowed }
{}

/// Events in any two orders in which time doesn't fall lead to the same state, if they are lawful in one of them.
pub fn events_of_one_time_commute()
    ensures { EventsOfOneTimeCommute }
{}

/// The bytes that spell lawful events and a close are a lawful stream, on which the node does what it does on the events.
pub fn bytes_spell_events()
    ensures { BytesSpellEvents }
{}
