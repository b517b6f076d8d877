//! Printing runs.

use crate::runs::Outcome;
use crate::sweeps::Sweep;
use std::{io, str};

/// Prints the words of a run as a command line.
pub fn print_words(rt: &HostRuntime, words: &[String]) -> io::Result<()> {
    print!(rt; "$ cpgc")?;
    for word in words {
        print!(rt; " {word}")?;
    }
    println!(rt)
}

/// Whether a byte is a line feed or a printable ASCII character.
fn is_plain(byte: u8) -> bool {
    byte == b'\n' || (b' ' <= byte && byte <= b'~')
}

/// Returns bytes as a text, or `None` if one of them isn't plain.
fn text_of(bytes: &[u8]) -> Option<&str> {
    if bytes.iter().all(|byte| is_plain(*byte)) {
        str::from_utf8(bytes).ok()
    } else {
        None
    }
}

/// Prints the first `lines` lines of a text, each behind a mark, and says if there are more, or if the last line has no
/// line feed.
fn print_text(rt: &HostRuntime, mark: &str, text: &str, lines: usize) -> io::Result<()> {
    for line in text.lines().take(lines) {
        println!(rt; "{mark} {line}")?;
    }
    if text.lines().count() > lines {
        return println!(rt; "{mark} ..");
    }
    if !text.is_empty() && !text.ends_with('\n') {
        return println!(rt; "\\ no line feed");
    }
    Ok(())
}

/// Prints some bytes behind a mark, in two hexadecimal digits each.
fn print_row(rt: &HostRuntime, mark: &str, row: &[u8]) -> io::Result<()> {
    print!(rt; "{mark}")?;
    for byte in row {
        print!(rt; " {byte:02x}")?;
    }
    println!(rt)
}

/// Prints bytes in rows of 16, each row behind a mark. At most `rows` rows are printed; `..` stands for the others.
fn print_rows(rt: &HostRuntime, mark: &str, bytes: &[u8], rows: usize) -> io::Result<()> {
    for row in bytes.chunks(16).take(rows) {
        print_row(rt, mark, row)?;
    }
    if bytes.chunks(16).count() > rows {
        return println!(rt; "{mark} ..");
    }
    Ok(())
}

/// Prints the first `lines` lines of what a sink took, each behind a mark: as a text if all its bytes are plain, and
/// otherwise as rows of digits.
fn print_bytes(rt: &HostRuntime, mark: &str, bytes: &[u8], lines: usize) -> io::Result<()> {
    match text_of(bytes) {
        Some(text) => print_text(rt, mark, text, lines),
        None => print_rows(rt, mark, bytes, lines),
    }
}

/// Prints a run: the first `lines` lines of its output, all of its error output, and its status.
pub fn print_outcome(rt: &HostRuntime, got: &Outcome, lines: usize) -> io::Result<()> {
    let status = got.status;
    print_bytes(rt, ">", got.out.taken(), lines)?;
    print_bytes(rt, "!", got.err.taken(), usize::MAX)?;
    println!(rt; "status {status}")
}

/// Prints how many of many runs ended as they should, behind `what`, the item that made them.
pub fn print_sweep(rt: &HostRuntime, what: &str, sweep: Sweep) -> io::Result<()> {
    let Sweep { runs, well } = sweep;
    println!(rt; "{what}: {well} of {runs}")
}
