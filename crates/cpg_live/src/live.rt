//! One node on a stream of records that comes in pieces: it takes the bytes, and with them the records and the turns.
ghost use Rattle.std.specs.Prelude.{◌≡◌, None, true, false, IfOk, IfSome};
ghost use Rattle.cpg_node.specs.Dispatcher.{is_after};
ghost use Rattle.cpg_live.specs.Records.{event_of};
ghost use Rattle.cpg_live.specs.Stream.{open_stream, refused, step, stepped, judged, answer_of, outcome};
ghost use Rattle.cpg_live.specs.Feeding.{take_byte, take_bytes};
ghost use Rattle.cpg_live.specs.Laws.{Feeds, Grows};

use crate::event::{Event, event_of, is_close};
use crate::progress::NodeProgress;
use crate::reading::{RECORD_SIZE, Record, read_record};
use crate::{Defect, LawlessRecord};
use cpg_base::OutOfMemory;
use cpg_node::Act;
use cpg_table::NodeTable;
use std::alloc::Global;
use std::marker::Model;

/// One node on a stream of records (docs/FORMATS.md) that comes in pieces. It is seen as the node's state with its acts so
/// far, how many records were taken, the time of the last one, the bytes of the next one so far, whether a close was
/// taken, and the first lawless record, if there is one.
#[derive(Drop)]
pub struct Live {
    /// The node, with its acts so far.
    progress: NodeProgress,
    /// How many records were taken.
    taken: u64,
    /// The time of the last record.
    time: u64,
    /// The bytes of the next record so far.
    rest: Vec<u8>,
    /// Whether a close was taken.
    closed: bool,
    /// The first lawless record, if there is one.
    lawless: Option<LawlessRecord>,
}

impl Model for Live {
    ghost use Rattle.cpg_live.specs.Stream.{LiveState};
    ghost use Rattle.cpg_live.specs.Held.{live_of, IsReady};

    ghost Value = { LiveState };

    ghost view = { live_of };

    ghost invariant = { IsReady };
}

impl Live {
    /// Returns the node of a table before the first byte of its stream. It reserves all the memory that it will need; `Err`
    /// only if there isn't so much.
    pub fn new(alloc: Global, table: NodeTable) -> Result<Live, OutOfMemory>
        ensures { IfOk result (λ live. live ≡ open_stream table) }
    {
        let progress = NodeProgress::new(alloc, table)?;
        let mut rest = Vec::new(alloc);
        rest.reserve(RECORD_SIZE)?;
        Ok(Live {
            progress,
            taken: 0,
            time: 0,
            rest,
            closed: false,
            lawless: None,
        })
    }

    /// Returns the acts of all turns so far, in order.
    pub fn acts(&self) -> &[Act]
        ensures { result.now ≡ self.now.progress.acts }
    {
        self.progress.acts()
    }

    /// Returns how the stream ends if it ends here: with the time of its close, in time units of the graph file, or with its
    /// first lawless record. If no record is lawless and no close was taken, that is the next one.
    pub fn closed(&self) -> Result<u64, LawlessRecord>
        ensures { result ≡ outcome self.now }
    {
        if let Some(lawless) = self.lawless {
            return Err(lawless);
        }
        if self.closed {
            return Ok(self.time);
        }
        // the close is missing where the next record would be
        Err(LawlessRecord {
            index: self.taken,
            defect: Defect::Length,
        })
    }

    /// Takes the next bytes of the stream, and with them all records that they complete. `Err` is the first lawless record
    /// of the stream so far; after it nothing more is taken. It doesn't matter how the stream is cut into pieces.
    pub fn feed(&mut self, piece: &[u8]) -> Result<(), LawlessRecord>
        ensures whole { Feeds self.old piece.now self.new }
        ensures grows { Grows self.old.progress.acts self.new.progress.acts }
        ensures answer { result ≡ answer_of self.new.lawless }
        ensures kept { IfSome self.old.lawless (λ _. self.new ≡ self.old) }
    {
        self.take_bytes(piece);
        match self.lawless {
            Some(lawless) => Err(lawless),
            None => Ok(()),
        }
    }

    /// Takes bytes, one after another.
    fn take_bytes(&mut self, piece: &[u8])
        ensures { self.new ≡ take_bytes self.old piece.now }
    {
        for byte in piece {
            self.take_byte(*byte);
        }
    }

    /// Takes a byte, and the record that it completes, if it does.
    fn take_byte(&mut self, byte: u8)
        ensures { self.new ≡ take_byte self.old byte }
    {
        // after a lawless record nothing more is taken
        if self.lawless.is_some() {
            return;
        }
        // a byte after the close makes its record lawless
        if self.closed {
            self.refuse(Defect::Length);
            return;
        }
        self.rest.push_reserved(byte);
        if self.rest.len() == RECORD_SIZE {
            let told = read_record(self.rest.as_slice());
            self.rest.clear();
            self.judge(told);
        }
    }

    /// Notes that the next record is lawless, and what is wrong with it.
    fn refuse(&mut self, defect: Defect)
        ensures { self.new ≡ refused self.old defect }
    {
        let index = self.taken;
        self.lawless = Some(LawlessRecord { index, defect });
    }

    /// Takes the turns before a record of a lawful kind and time, and then the record, or notes that it is lawless.
    fn take(&mut self, time: u64, event: Event)
        requires { is_after self.old.progress.dispatcher.last time ≡ true }
        ensures { self.new ≡ stepped self.old time event (step time event self.old.progress) }
    {
        if let Some(defect) = self.progress.step(time, event) {
            let index = self.taken;
            self.lawless = Some(LawlessRecord { index, defect });
            return;
        }
        // the count would stop at its greatest number; within the limit of a stream it is far below that
        self.taken = self.taken.saturating_add(1);
        self.time = time;
        self.closed = is_close(&event);
    }

    /// Takes a record, or notes that it is lawless: first its kind is looked at, then its time, then what it says.
    fn judge(&mut self, told: Record)
        requires open { self.old.closed ≡ false }
        requires lawful { self.old.lawless ≡ None }
        ensures { self.new ≡ judged self.old told.time (event_of self.old.progress.dispatcher.table told) }
    {
        let Some(event) = event_of(self.progress.table(), &told) else {
            self.refuse(Defect::Kind);
            return;
        };
        // its time is before that of the record before
        if told.time < self.time {
            self.refuse(Defect::Order);
            return;
        }
        self.take(told.time, event);
    }
}
