//! A node of a pack that follows a stream of a shelf, piece by piece, and writes the lines of what it does.
ghost use Rattle.std.specs.Prelude.{◌≡◌, ◌+◌, ◌*◌, ◌≤◌, ◌<◌, Err, IfErr, IfOk, IfSome, OnErr, OnOk, drop, length};
ghost use Rattle.cpg_history.specs.Fetch.{failed};
ghost use Rattle.cpg_io.specs.Agreement.{LeavesRest};
ghost use Rattle.cpg_io.specs.Causes.{HasCause, Rose};
ghost use Rattle.cpg_io.specs.Shelf.{SameAccess, SameNames};
ghost use Rattle.cpg_io.specs.Sink.{Took, TookPrefix};
ghost use Rattle.cpg_table.specs.Table.{table_at};
ghost use Rattle.cpg_live.specs.Follower.{open_follower};
ghost use Rattle.cpg_live.specs.Following.{Closes, GoesOn, IsAlongAt, IsLeftBy, IsOfSame, TakesPiece};
ghost use Rattle.cpg_live.specs.LinesKept.{entry_count};
ghost use Rattle.cpg_live.specs.Streams.{act_lines, closed_line, fault_line};

use crate::act_lines::{MOST_LINE, append_acts, append_closed, append_refused};
use crate::progress::count_entries;
use crate::{LawlessRecord, Live};
use cpg_base::OutOfMemory;
use cpg_head::Head;
use cpg_io::{Failed, Shelf, Sink, write_all};
use cpg_table::{NodeTable, Tables};
use std::alloc::Global;
use std::marker::Model;

/// The most bytes that a stream may have: those of 16,777,216 records of 14 bytes.
pub const STREAM_LIMIT: usize = 234_881_024;

/// The limit of a stream in plain numbers: 234,881,024 bytes, which are 16,777,216 records.
pub fn stream_limit_is_this()
    ensures bytes { STREAM_LIMIT ≡ 234881024 }
    ensures records { STREAM_LIMIT ≡ 14 * 16777216 }
{}

/// Why a stream is refused.
#[derive(Clone, Copy, Debug, PartialEq, Eq)]
pub enum StreamFault {
    /// Its first lawless record. If the stream ends without a close and no record is lawless, that is the next one.
    Lawless(LawlessRecord),
    /// It has more bytes than the limit. The 16,777,216 records up to there are lawful, and none is a close.
    Long,
}

/// Why a stream isn't followed to its close.
#[derive(Clone, Copy, Debug, PartialEq, Eq)]
pub enum Broken {
    /// The shelf met a fault.
    Shelf,
    /// The sink met a fault.
    Sink,
    /// The stream is refused.
    Refused(StreamFault),
}

/// A piece of a stream that was fed: how many bytes it has, and the first lawless record of the stream, if there is one so
/// far.
#[derive(Clone, Copy, Debug, PartialEq, Eq)]
struct Fed {
    /// How many bytes the piece has.
    count: usize,
    /// The first lawless record of the stream so far.
    lawless: Option<LawlessRecord>,
}

/// A node of a pack that follows a stream, with room (`lines`) for the lines of all that it can do. It is seen as the pack's
/// head, the node's table and state, how many of its acts count as written (`told`), and how many bytes were fed (`read`).
#[derive(Drop)]
pub struct Follower {
    /// The head of the pack.
    head: Head,
    /// The node on its stream.
    live: Live,
    /// Room for the lines of all that the node can do.
    lines: Vec<u8>,
    /// How many of its acts count as written.
    told: usize,
    /// How many bytes were fed.
    read: usize,
}

impl Model for Follower {
    ghost use Rattle.cpg_live.specs.Follower.{Follower};
    ghost use Rattle.cpg_live.specs.LinesKept.{follower_of, IsFollowing};

    ghost Value = { Follower };

    ghost view = { follower_of };

    ghost invariant = { IsFollowing };
}

/// Returns how many bytes are enough for the lines of all acts that a node can do, and for one more line; `None` only if
/// the number doesn't fit a machine word.
fn room_of(table: &NodeTable) -> Option<usize>
    ensures { IfSome result (λ room. room ≡ MOST_LINE * (entry_count table.now + 1)) }
{
    let entries = count_entries(table)?;
    let lines = entries.checked_add(1)?;
    lines.checked_mul(MOST_LINE)
}

impl Follower {
    /// Returns a node of these tables before the first byte of its stream. It reserves all the memory that it will need;
    /// `Err` only if there isn't so much.
    pub fn new(alloc: Global, tables: Tables, node: u32) -> Result<Follower, OutOfMemory>
        requires { node < length tables.head.nodes }
        ensures { IfOk result (λ f. f ≡ open_follower tables.head (table_at tables.nodes node)) }
    {
        let (head, table) = tables.into_node(node);
        // more bytes than a machine word counts, and so than memory has
        let Some(room) = room_of(&table) else {
            return Err(OutOfMemory);
        };
        let mut lines = Vec::new(alloc);
        lines.reserve(room)?;
        let live = Live::new(alloc, table)?;
        Ok(Follower {
            head,
            live,
            lines,
            told: 0,
            read: 0,
        })
    }

    /// Reads the next piece of the stream into `buffer`, and feeds it; `Err` only if the shelf meets a fault, and then
    /// nothing is fed.
    fn feed_piece<S: Shelf>(&mut self, shelf: &mut S, buffer: &mut [u8]) -> Result<Fed, Failed>
        requires some { 0 < length buffer.old }
        requires few { self.old.read ≤ STREAM_LIMIT }
        ensures names { SameNames (S.state shelf.old) (S.state shelf.new) }
        ensures access { SameAccess (S.may_fetch shelf.old) (S.may_fetch shelf.new) }
        ensures rest { LeavesRest (S.state shelf.old) → LeavesRest (S.state shelf.new) }
        ensures piece { IfOk result (λ fed. TakesPiece (S.state shelf.old) (S.state shelf.new) self.old self.new fed.count) }
        ensures lawless { IfOk result (λ fed. fed.lawless ≡ self.new.live.lawless) }
        ensures failed { OnErr result ((S.state shelf.new).history ≡ failed (S.state shelf.old).history) }
        ensures same { OnErr result (self.new ≡ self.old) }
        ensures cause { HasCause (S.state shelf.old).faults (S.state shelf.new).faults result }
    {
        // at most one byte past the limit is read, which shows that the stream is too long
        let most = buffer.len().min(STREAM_LIMIT + 1 - self.read);
        let piece = &mut buffer[..most];
        let count = shelf.read(piece)?;
        let lawless = match self.live.feed(&piece[..count]) {
            Ok(()) => None,
            Err(lawless) => Some(lawless),
        };
        self.read += count;
        Ok(Fed { count, lawless })
    }

    /// Writes the lines of the acts that haven't been written yet; `Err` only if the sink meets a fault. They count as
    /// written in either case.
    fn tell<O: Sink>(&mut self, out: &mut O) -> Result<(), Failed>
        ensures whole { OnOk result (Took (O.state out.old).taken (O.state out.new).taken
            (act_lines self.old.head (drop self.old.told self.old.live.progress.acts))) }
        ensures part { OnErr result (TookPrefix (O.state out.old).taken (O.state out.new).taken
            (act_lines self.old.head (drop self.old.told self.old.live.progress.acts))) }
        ensures state { self.new ≡ record self.old { told = length self.old.live.progress.acts } }
        ensures cause { HasCause (O.state out.old).faults (O.state out.new).faults result }
    {
        let told = self.told;
        let acts = self.live.acts();
        self.lines.clear();
        append_acts(&mut self.lines, &self.head, &acts[told..]);
        self.told = acts.len();
        write_all(out, self.lines.as_slice())
    }

    /// Reads the next piece of the stream into `buffer`, feeds it, and writes the lines of the acts that it brings to `out`,
    /// before anything else is read. Returns how many bytes the piece has, which is 0 only at the end of the stream. `Err`
    /// says that the shelf or the sink met a fault, or that the stream is refused.
    pub fn follow_piece<S: Shelf, O: Sink>(
        &mut self,
        shelf: &mut S,
        buffer: &mut [u8],
        out: &mut O,
    ) -> Result<usize, Broken>
        requires some { 0 < length buffer.old }
        requires few { self.old.read ≤ STREAM_LIMIT }
        ensures names { SameNames (S.state shelf.old) (S.state shelf.new) }
        ensures access { SameAccess (S.may_fetch shelf.old) (S.may_fetch shelf.new) }
        ensures rest { LeavesRest (S.state shelf.old) → LeavesRest (S.state shelf.new) }
        ensures same { IsOfSame self.old self.new }
        ensures along { GoesOn self.old (S.state shelf.old) (S.state shelf.new) (O.state out.old) (O.state out.new)
            (λ count start name past. IsAlongAt count name past (S.state shelf.new).history start (O.state out.new).taken self.new) result }
        ensures left { IsLeftBy result (S.state shelf.old) (S.state shelf.new) self.old self.new }
        ensures nearer { IfOk result (λ count. self.new.read ≡ self.old.read + count) }
        ensures within { IfOk result (λ _. self.new.read ≤ STREAM_LIMIT) }
        ensures rose { result ≡ Err Broken.Shelf → Rose (S.state shelf.old).faults (S.state shelf.new).faults }
        ensures later { (S.state shelf.old).faults ≤ (S.state shelf.new).faults }
        ensures out_kept { OnOk result ((O.state out.new).faults ≡ (O.state out.old).faults) }
    {
        let Ok(fed) = self.feed_piece(shelf, buffer) else {
            return Err(Broken::Shelf);
        };
        if self.tell(out).is_err() {
            return Err(Broken::Sink);
        }
        // the lines of all acts before the lawless record are written by now
        if let Some(lawless) = fed.lawless {
            return Err(Broken::Refused(StreamFault::Lawless(lawless)));
        }
        // all records up to the limit are lawful, and another byte came
        if self.read > STREAM_LIMIT {
            return Err(Broken::Refused(StreamFault::Long));
        }
        Ok(fed.count)
    }

    /// Writes the line of a close at this time; `Err` only if the sink meets a fault.
    fn write_close<O: Sink>(&mut self, time: u64, out: &mut O) -> Result<(), Failed>
        ensures same { self.new ≡ self.old }
        ensures whole { OnOk result (Took (O.state out.old).taken (O.state out.new).taken (closed_line time)) }
        ensures part { OnErr result (TookPrefix (O.state out.old).taken (O.state out.new).taken (closed_line time)) }
        ensures cause { HasCause (O.state out.old).faults (O.state out.new).faults result }
    {
        // the room of the lines that are written already serves again
        self.lines.clear();
        append_closed(&mut self.lines, time);
        write_all(out, self.lines.as_slice())
    }

    /// Ends a stream that has no more bytes: writes the line of its close. `Err` if it has none or has a lawless record,
    /// and nothing is written then, or if the sink meets a fault.
    pub fn close<O: Sink>(&mut self, out: &mut O) -> Result<(), Broken>
        ensures same { self.new ≡ self.old }
        ensures closes { Closes self.old (O.state out.old).faults (O.state out.new).faults (O.state out.old).taken (O.state out.new).taken result }
    {
        let time = match self.live.closed() {
            Ok(time) => time,
            Err(lawless) => return Err(Broken::Refused(StreamFault::Lawless(lawless))),
        };
        match self.write_close(time, out) {
            Ok(()) => Ok(()),
            Err(Failed) => Err(Broken::Sink),
        }
    }

    /// Writes the line that says why a stream is refused; `Err` only if the sink meets a fault.
    pub fn write_refused<E: Sink>(&mut self, fault: StreamFault, err: &mut E) -> Result<(), Failed>
        ensures same { self.new ≡ self.old }
        ensures whole { OnOk result (Took (E.state err.old).taken (E.state err.new).taken (fault_line fault)) }
        ensures part { OnErr result (TookPrefix (E.state err.old).taken (E.state err.new).taken (fault_line fault)) }
        ensures cause { HasCause (E.state err.old).faults (E.state err.new).faults result }
    {
        // the room of the lines that are written already serves again
        self.lines.clear();
        append_refused(&mut self.lines, fault);
        write_all(err, self.lines.as_slice())
    }
}
