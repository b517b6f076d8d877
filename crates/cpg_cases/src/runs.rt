//! Runs of the program, over a shelf and sinks in memory.

use crate::files::bytes_of;
use crate::stopped::Stopped;
use cpg_app::run;
use cpg_io::{MemoryShelf, MemorySink};

/// What the lines of a list of cases before a run set for it.
#[derive(Clone, Copy)]
pub struct RunSetting {
    /// How many bytes the output takes before it fails.
    pub out: usize,
    /// How many bytes the error output takes before it fails.
    pub err: usize,
    /// The number, from 0, of the call of the shelf that fails, if one is to.
    pub failing: Option<u64>,
    /// How many lines of the output are printed.
    pub lines: usize,
}

/// What a run has if no line sets anything: room for what it writes, no call that fails, and all lines printed.
pub const USUAL: RunSetting = RunSetting {
    out: 10_000_000,
    err: 1000,
    failing: None,
    lines: usize::MAX,
};

/// How a run ended, and what it wrote.
#[derive(Drop)]
pub struct Outcome {
    /// The exit status.
    pub status: u8,
    /// The output.
    pub out: MemorySink,
    /// The error output.
    pub err: MemorySink,
}

impl Outcome {
    /// Whether the run ended with this status and wrote just these bytes.
    pub fn is(&self, status: u8, out: &[u8], err: &[u8]) -> bool {
        self.status == status && self.out.taken() == out && self.err.taken() == err
    }
}

/// Returns a shelf with the files that some words name. A word that names none is no file.
fn shelf_for(
    rt: &HostRuntime,
    files: &mut MemoryShelf,
    words: &[String],
) -> Result<MemoryShelf, Stopped> {
    let mut shelf = MemoryShelf::new(rt.alloc())?;
    for word in words {
        if let Ok(bytes) = bytes_of(rt, files, word.as_str()) {
            shelf.put(word.as_str(), bytes.as_slice())?;
        }
    }
    Ok(shelf)
}

/// Runs the program on words over a shelf, which is new, so that its calls count from 0.
fn run_over(
    rt: &HostRuntime,
    shelf: &mut MemoryShelf,
    words: &[String],
    setting: RunSetting,
) -> Result<Outcome, Stopped> {
    if let Some(call) = setting.failing {
        shelf.fail_call(call)?;
    }
    let mut out = MemorySink::new(rt.alloc(), setting.out)?;
    let mut err = MemorySink::new(rt.alloc(), setting.err)?;
    let status = run(rt.alloc(), words, shelf, &mut out, &mut err);
    Ok(Outcome { status, out, err })
}

/// Runs the program on words over the files that they name.
pub fn run_words(
    rt: &HostRuntime,
    files: &mut MemoryShelf,
    words: &[String],
    setting: RunSetting,
) -> Result<Outcome, Stopped> {
    let mut shelf = shelf_for(rt, files, words)?;
    run_over(rt, &mut shelf, words, setting)
}
