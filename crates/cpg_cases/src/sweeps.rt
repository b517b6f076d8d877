//! Sweeps: many runs of the same words, in each of which something else fails.

use crate::files::bytes_of;
use crate::runs::{RunSetting, USUAL, run_words};
use crate::stopped::Stopped;
use cpg_io::MemoryShelf;

/// The count of a sweep.
#[derive(Clone, Copy)]
pub struct Sweep {
    /// How many runs there were.
    pub runs: u64,
    /// How many of them ended as they should.
    pub well: u64,
}

impl Sweep {
    /// Returns the count of no runs.
    fn none() -> Sweep {
        Sweep { runs: 0, well: 0 }
    }

    /// Counts one more run, and whether it ended as it should.
    fn count(&mut self, well: bool) {
        self.runs = self.runs.saturating_add(1);
        self.well = self.well.saturating_add(u64::from(well));
    }
}

/// Runs words with an output of each room below these bytes, which they write. Each run should be cut there, with
/// status 3.
fn rooms_below(
    rt: &HostRuntime,
    files: &mut MemoryShelf,
    words: &[String],
    written: &[u8],
) -> Result<Sweep, Stopped> {
    let mut sweep = Sweep::none();
    // each room from none up to one byte too few
    for out in 0..written.len() {
        let got = run_words(rt, files, words, RunSetting { out, ..USUAL })?;
        sweep.count(got.is(3, &written[..out], b"cpgc: write fault\n"));
    }
    Ok(sweep)
}

/// Runs words with an output of each room below what they write.
pub fn rooms(
    rt: &HostRuntime,
    files: &mut MemoryShelf,
    words: &[String],
) -> Result<Sweep, Stopped> {
    let whole = run_words(rt, files, words, USUAL)?;
    rooms_below(rt, files, words, whole.out.taken())
}

/// Runs words with an error output of each room below this line, which they write. Each run should be cut there, with
/// status 3.
fn refusals_below(
    rt: &HostRuntime,
    files: &mut MemoryShelf,
    words: &[String],
    line: &[u8],
) -> Result<Sweep, Stopped> {
    let mut sweep = Sweep::none();
    // each room from none up to one byte too few
    for err in 0..line.len() {
        let got = run_words(rt, files, words, RunSetting { err, ..USUAL })?;
        sweep.count(got.is(3, &[], &line[..err]));
    }
    Ok(sweep)
}

/// Runs words that are refused, with an error output of each room below the line that they write.
pub fn refusals(
    rt: &HostRuntime,
    files: &mut MemoryShelf,
    words: &[String],
) -> Result<Sweep, Stopped> {
    let whole = run_words(rt, files, words, USUAL)?;
    refusals_below(rt, files, words, whole.err.taken())
}

/// Runs words with each call of the shelf failing in turn, until a run has status 0, as it makes no such call. Each run
/// before should end with status 2.
pub fn calls(
    rt: &HostRuntime,
    files: &mut MemoryShelf,
    words: &[String],
) -> Result<Sweep, Stopped> {
    let mut sweep = Sweep::none();
    // the bound ends the loop even if every run fails
    for call in 0..1000 {
        let failing = Some(call);
        let got = run_words(rt, files, words, RunSetting { failing, ..USUAL })?;
        // this call wasn't made, so every call has been tried
        if got.status == 0 {
            break;
        }
        sweep.count(got.is(2, &[], b"cpgc: read fault\n"));
    }
    Ok(sweep)
}

/// Runs words with the beginning of a pack in its file, and returns whether they refuse it at the place where it ends.
fn refuse_part(
    rt: &HostRuntime,
    files: &mut MemoryShelf,
    words: &[String],
    name: &str,
    part: &[u8],
) -> Result<bool, Stopped> {
    files.put(name, part)?;
    let got = run_words(rt, files, words, USUAL)?;
    let length = part.len();
    let line = format!(in rt.alloc(); "cpgc: refused 10 pack {length}\n")?;
    Ok(got.is(4, &[], line.as_bytes()))
}

/// Runs words with each of the `count` longest proper beginnings of a pack in its file, or with all if it has fewer.
/// Each run should refuse the pack at the place where it ends.
pub fn parts(
    rt: &HostRuntime,
    files: &mut MemoryShelf,
    words: &[String],
    name: &str,
    count: usize,
) -> Result<Sweep, Stopped> {
    let whole = bytes_of(rt, files, name)?;
    let bytes = whole.as_slice();
    let mut sweep = Sweep::none();
    // from the shortest of these beginnings to the pack without its last byte
    for length in bytes.len().saturating_sub(count)..bytes.len() {
        sweep.count(refuse_part(rt, files, words, name, &bytes[..length])?);
    }
    // the whole pack is put back for the next item
    files.put(name, bytes)?;
    Ok(sweep)
}
