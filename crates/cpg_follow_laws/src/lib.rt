//! Laws that join plays and streams: a node's records in a play are a lawful stream, and on it the node does what is
//! due. The functions do nothing; each states its law in its contract.
#![tactic(auto)]

ghost use Rattle.cpg_follow_laws.specs.Follow.{PlaysAreFollowed, RecordsRise, StreamsGiveWhatIsDue};
ghost use Rattle.cpg_follow_laws.specs.Ranges.{FramesContradictWhereTheyTell, NoRangeIsEmpty};
ghost use Rattle.cpg_follow_laws.specs.Sent.{SentValuesAreKnown};
ghost use Rattle.cpg_follow_laws.specs.Streams.{BytesOfPlaysGiveWhatIsDue};

/// The records of each node of a play are a lawful stream, on which the node does what it does in the play.
pub fn plays_are_followed()
    ensures { PlaysAreFollowed }
{}

/// If a node is done in a play, its records and a close that isn't before its last turn are a lawful stream, on which the
/// node does what is due.
pub fn streams_give_what_is_due()
    ensures { StreamsGiveWhatIsDue }
{}

/// A node's records in a play are in order of time, and a close that isn't before its last turn isn't before any of them.
pub fn records_rise()
    ensures { RecordsRise }
{}

/// If a node is done in a play, the bytes that spell its records, in any order in which time doesn't fall, and a close that
/// isn't before its last turn are a stream that is lawful to its close. On it the node does what is due.
pub fn bytes_of_plays_give_what_is_due()
    ensures { BytesOfPlaysGiveWhatIsDue }
{}

/// Whatever bytes a node is fed, no range that it then holds is empty.
pub fn no_range_is_empty()
    ensures { NoRangeIsEmpty }
{}

/// If no range is empty before a frame, the frame leaves an empty one only at a variable of one of its literals.
pub fn frames_contradict_where_they_tell()
    ensures { FramesContradictWhereTheyTell }
{}

/// In a play of valid tables, a node that has broadcast the value of a condition knows just that value of it.
pub fn sent_values_are_known()
    ensures { SentValuesAreKnown }
{}
