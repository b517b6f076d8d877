//! A log: what the nodes did up to a time, as a file names it.
ghost use Rattle.std.specs.Prelude.{◌≡◌};
ghost use Rattle.cpg_log.specs.Log.{logged_time};

use std::marker::Model;

/// An act that a log names: an item is started or sent at a time.
#[derive(Clone, Copy, Debug, PartialEq, Eq)]
pub struct Logged {
    /// When it is, in the time units of the graph file.
    pub time: u64,
    /// The number of the item.
    pub item: u32,
}

/// What nodes did up to a time, seen as that time and the acts, in the order of the file.
#[derive(Drop)]
pub struct Log {
    /// The time up to which the log tells all acts.
    pub(crate) until: u64,
    /// The acts up to that time.
    pub(crate) acts: Vec<Logged>,
}

impl Model for Log {
    ghost use Rattle.cpg_log.specs.Log.{Log};

    ghost Value = { Log };

    ghost view = { λ l. record { until = l.until; acts = l.acts.items } };
}

impl Log {
    /// Returns the time up to which the log goes, in time units of the graph file.
    pub fn until(&self) -> u64
        ensures { result ≡ self.now.until }
    {
        self.until
    }

    /// Returns the acts, in the order of the file.
    pub fn acts(&self) -> &[Logged]
        ensures { result.now ≡ self.now.acts }
    {
        self.acts.as_slice()
    }

    /// Returns when an item is started or sent by the log, or `None` if the log doesn't name it.
    pub fn time_of(&self, item: u32) -> Option<u64>
        ensures { result ≡ logged_time self.now.acts item }
    {
        for act in self.acts.as_slice() {
            if act.item == item {
                return Some(act.time);
            }
        }
        None
    }
}
