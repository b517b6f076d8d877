//! The files of the cases, and the making of one from another.

use crate::stopped::Stopped;
use cpg_io::{MemoryShelf, ReadAll, read_all};
use std::alloc::Global;
use std::{fs, str};

/// The most bytes of a file that an item made; more than any limit of the program.
const MOST_BYTES: usize = 1_000_000_000;

/// Adds the bytes that words spell, two hexadecimal digits each. An error is a word that spells none, or that memory
/// runs out.
fn push_bytes(bytes: &mut Vec<u8>, words: &str) -> Result<(), Stopped> {
    for word in words.split_whitespace() {
        bytes.push(u8::from_str_radix(word, 16)?)?;
    }
    Ok(())
}

/// Returns a line up to its first `#`, or all of it if it has none.
fn uncommented(line: &str) -> &str {
    match line.split_once('#') {
        Some((line, _)) => line,
        None => line,
    }
}

/// Returns the bytes that a text spells, in words of two hexadecimal digits, with comments from a `#` on. An error is a
/// word that spells none, or that memory runs out.
fn spelled(alloc: Global, text: &str) -> Result<Vec<u8>, Stopped> {
    let mut bytes = Vec::new(alloc);
    for line in text.lines() {
        push_bytes(&mut bytes, uncommented(line))?;
    }
    Ok(bytes)
}

/// Returns the bytes of a file of the folder or, if its name ends in `.hex`, the bytes that it spells. An error is that
/// the file can't be read, that it spells no bytes, or that memory runs out.
fn folder_bytes(rt: &HostRuntime, name: &str) -> Result<Vec<u8>, Stopped> {
    if name.ends_with(".hex") {
        let text = fs::read_to_string(rt, name)?;
        return spelled(rt.alloc(), text.as_str());
    }
    Ok(fs::read(rt, name)?)
}

/// Returns the bytes of the file that an item made or, if none made it, of a file of the folder. An error is that it
/// can't be read, that it spells no bytes, or that memory runs out.
pub fn bytes_of(rt: &HostRuntime, files: &mut MemoryShelf, name: &str) -> Result<Vec<u8>, Stopped> {
    match read_all(rt.alloc(), files, name, MOST_BYTES) {
        Ok(bytes) => Ok(bytes),
        Err(ReadAll::Failed) => folder_bytes(rt, name),
        Err(_) => Err(Stopped),
    }
}

/// Returns three texts as one, one after the other. The one error is that memory runs out.
fn joined(alloc: Global, before: &str, new: &str, after: &str) -> Result<String, Stopped> {
    Ok(format!(in alloc; "{before}{new}{after}")?)
}

/// Returns a text with `new` in place of its first `old`. An error is that the bytes are no text, that `old` isn't in
/// it, or that memory runs out.
pub fn replaced(alloc: Global, bytes: &[u8], old: &str, new: &str) -> Result<String, Stopped> {
    let text = str::from_utf8(bytes).ok().ok_or(Stopped)?;
    let (before, after) = text.split_once(old).ok_or(Stopped)?;
    joined(alloc, before, new, after)
}

/// Returns bytes with those that words spell in place of as many, from a place on; they may go past the end. An error
/// is that the place is past the end, that a word spells no byte, or that memory runs out.
pub fn changed(alloc: Global, bytes: &[u8], place: usize, words: &str) -> Result<Vec<u8>, Stopped> {
    let mut made = Vec::from_slice(alloc, bytes.get(..place).ok_or(Stopped)?)?;
    push_bytes(&mut made, words)?;
    // nothing is left if the new bytes reach the end
    let rest = bytes.get(made.len()..).unwrap_or(&[]);
    made.extend_from_slice(rest)?;
    Ok(made)
}
