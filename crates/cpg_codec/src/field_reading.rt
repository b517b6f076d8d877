//! Reading the fields of a pack.
//!
//! Each function returns what it read, and the bytes after it. It fails with `Left` at the first byte that no pack has
//! there: the number says how many bytes are left from it on, and is 0 if the bytes end too early. With `alloc` it may
//! also fail with `Memory`, if memory runs out.
ghost use Rattle.std.specs.Prelude.{◌≡◌, ◌≤◌, ◌<◌, ◌+◌, ℕ, List, length, Ok, Err, IfOk, ◌^◌, IsTrue, slice_index_or, ◌↔◌, ◌==◌, is_some};
ghost use Rattle.cpg_base.specs.Name.{IsName, is_name_byte};
ghost use Rattle.cpg_codec.specs.Reading.{read_number, within, read_repeated, byte_by};
ghost use Rattle.cpg_codec.specs.Grammar.{read_small, read_time, read_name, deadline_may, read_deadline, read_extra};
ghost use Rattle.cpg_codec.specs.Gives.{Gives};

use crate::fault::ReadError;
use crate::fixed::{Fixed, long_number};
use cpg_base::{LONGEST, Name, OutOfMemory};
use cpg_head::Extra;
use std::alloc::Global;

/// Reads a byte that is from `low` to `high`.
pub fn small_of(bytes: &[u8], low: u8, high: u8) -> Result<(u8, &[u8]), ReadError>
    ensures gives { Gives (λ x. (x.0, x.1.now)) result (read_small low high bytes.now) }
    ensures range { IfOk result (λ x. (low ≤ x.0) × (x.0 ≤ high)) }
{
    match bytes {
        // the bytes end too early
        [] => Err(ReadError::Left(0)),
        [byte, rest @ ..] => {
            // the byte stays unread if it is out of the range
            if *byte < low {
                return Err(ReadError::Left(bytes.len()));
            }
            if high < *byte {
                return Err(ReadError::Left(bytes.len()));
            }
            Ok((*byte, rest))
        }
    }
}

/// Reads a number of `width` bytes, the highest first, that is from `low` to `high`.
pub fn number_of(bytes: &[u8], width: u32, low: u64, high: u64) -> Result<(u64, &[u8]), ReadError>
    requires narrow { width ≤ 8 }
    requires some { low ≤ high }
    requires fits { high < 256 ^ width }
    ensures gives { Gives (λ x. (x.0, x.1.now)) result (read_number width (within low high) bytes.now) }
    ensures range { IfOk result (λ x. (low ≤ x.0) × (x.0 ≤ high)) }
{
    let mut number: u64 = 0;
    let mut rest = bytes;
    // a byte stays unread if no number of the range begins with it and the bytes before it
    for done in 0..width {
        // how many bytes come after this one: `low` and `high` without them bound the number so far
        let after = width - 1 - done;
        match rest {
            [] => return Err(ReadError::Left(0)),
            [byte, behind @ ..] => {
                let next = number * 256 + *byte as u64;
                if next < low >> (8 * after) {
                    return Err(ReadError::Left(rest.len()));
                }
                if high >> (8 * after) < next {
                    return Err(ReadError::Left(rest.len()));
                }
                number = next;
                rest = behind;
            }
        }
    }
    Ok((number, rest))
}

/// Returns whether a number is from `low` to `high`.
fn is_within(number: u64, low: u64, high: u64) -> bool
    ensures { IsTrue result ↔ (low ≤ number) × (number ≤ high) }
{
    low <= number && number <= high
}

/// Reads a number of eight bytes, the highest first, that is from `low` to `high`.
pub fn long_of(bytes: &[u8], low: u64, high: u64) -> Result<(u64, &[u8]), ReadError>
    requires { low ≤ high }
    ensures { Gives (λ x. (x.0, x.1.now)) result (read_number 8 (within low high) bytes.now) }
{
    // the eight bytes at once; if there are fewer or the number is out of the range, byte by byte up to the bad one
    if let [a, b, c, d, e, f, g, h, rest @ ..] = bytes {
        let number = long_number(&Fixed::new([*a, *b, *c, *d, *e, *f, *g, *h]));
        if is_within(number, low, high) {
            return Ok((number, rest));
        }
    }
    number_of(bytes, 8, low, high)
}

/// Reads a time, which is below 2^60.
#[tactic(auto, unfolding(crate::specs::Grammar::read_time))]
pub fn time_of(bytes: &[u8]) -> Result<(u64, &[u8]), ReadError>
    ensures { Gives (λ x. (x.0, x.1.now)) result (read_time bytes.now) }
{
    // the greatest is 2^60 - 1
    long_of(bytes, 0, 1152921504606846975)
}

/// Reads `count` times, one after another.
pub fn times_of(alloc: Global, bytes: &[u8], count: u32) -> Result<(Vec<u64>, &[u8]), ReadError>
    ensures { Gives (λ x. (x.0.items, x.1.now)) result (read_repeated read_time count bytes.now) }
{
    let mut times = Vec::new(alloc);
    let mut rest = bytes;
    for _ in 0..count {
        let (time, after) = time_of(rest)?;
        times.push(time)?;
        rest = after;
    }
    Ok((times, rest))
}

/// Reads a name, from 1 to 32 letters after their number, and returns the letters.
#[tactic(auto, unfolding(crate::specs::Grammar::read_name))]
fn text_of(alloc: Global, bytes: &[u8]) -> Result<(Vec<u8>, &[u8]), ReadError>
    ensures { Gives (λ x. (x.0.items, x.1.now)) result (read_name bytes.now) }
{
    let (count, rest) = small_of(bytes, 1, 32)?;
    letters_of(alloc, rest, count as u32)
}

/// Returns the name that these letters make; `Err` only if memory runs out.
fn named(alloc: Global, text: &[u8]) -> Result<Name, OutOfMemory>
    requires { IsName text.now }
    ensures { IfOk result (λ name. name ≡ text.now) }
{
    // the bytes are letters, digits and `_`, `-`, `.`, so they are UTF-8 and make a name
    let Ok(text) = str::from_utf8(text) else {
        unreachable!()
    };
    match Name::new(alloc, text)? {
        Some(name) => Ok(name),
        // the text is that of a name
        None => unreachable!(),
    }
}

/// Reads a name.
pub fn name_of(alloc: Global, bytes: &[u8]) -> Result<(Name, &[u8]), ReadError>
    ensures { Gives (λ x. (x.0, x.1.now)) result (read_name bytes.now) }
{
    let (text, rest) = text_of(alloc, bytes)?;
    let name = named(alloc, text.as_slice())?;
    Ok((name, rest))
}

/// Reads `count` letters of a name.
fn letters_of(alloc: Global, bytes: &[u8], count: u32) -> Result<(Vec<u8>, &[u8]), ReadError>
    ensures { Gives (λ x. (x.0.items, x.1.now)) result (read_repeated (byte_by is_name_byte) count bytes.now) }
{
    let mut letters = Vec::new(alloc);
    let mut rest = bytes;
    for _ in 0..count {
        let (letter, after) = letter_of(rest)?;
        letters.push(letter)?;
        rest = after;
    }
    Ok((letters, rest))
}

/// Returns whether a byte may be in a name.
fn is_letter(byte: u8) -> bool
    ensures { result ≡ is_name_byte byte }
{
    match byte {
        b'A'..=b'Z' | b'a'..=b'z' | b'0'..=b'9' | b'_' | b'-' | b'.' => true,
        _ => false,
    }
}

/// Reads a letter of a name.
fn letter_of(bytes: &[u8]) -> Result<(u8, &[u8]), ReadError>
    ensures { Gives (λ x. (x.0, x.1.now)) result (byte_by is_name_byte bytes.now) }
{
    match bytes {
        // the bytes end too early
        [] => Err(ReadError::Left(0)),
        [byte, rest @ ..] => {
            if !is_letter(*byte) {
                return Err(ReadError::Left(bytes.len()));
            }
            Ok((*byte, rest))
        }
    }
}

/// Returns whether the bytes begin with ff, as the eight that say that there is no deadline do. No deadline begins so.
fn begins_none(bytes: &[u8]) -> bool
    ensures { IsTrue result ↔ (slice_index_or bytes.now 0 0 ≡ 255) }
{
    !bytes.is_empty() && bytes[0] == 255
}

/// Reads the number of an own deadline: at most 10^9, or `u64::MAX` if there is none.
fn deadline_number_of(bytes: &[u8]) -> Result<(u64, &[u8]), ReadError>
    ensures { Gives (λ x. (x.0, x.1.now)) result (read_number 8 deadline_may bytes.now) }
{
    // the first byte says which of the two it can be, and so which byte is the first bad one
    if begins_none(bytes) {
        long_of(bytes, u64::MAX, u64::MAX)
    } else {
        long_of(bytes, 0, LONGEST)
    }
}

/// Reads an own deadline; `None` if the eight bytes are ff.
#[tactic(auto, unfolding(crate::specs::Grammar::read_deadline))]
pub fn own_deadline_of(bytes: &[u8]) -> Result<(Option<u64>, &[u8]), ReadError>
    ensures { Gives (λ x. (x.0, x.1.now)) result (read_deadline bytes.now) }
{
    let (number, rest) = deadline_number_of(bytes)?;
    // eight bytes ff: the process has no deadline of its own
    if number == u64::MAX {
        return Ok((None, rest));
    }
    Ok((Some(number), rest))
}

/// Reads what version 2 adds to a process: its release and its own deadline. Version 1 adds nothing: `None`.
#[tactic(auto, unfolding(crate::specs::Grammar::read_extra))]
pub fn extra_of(bytes: &[u8], version: u8) -> Result<(Option<Extra>, &[u8]), ReadError>
    ensures gives { Gives (λ x. (x.0, x.1.now)) result (read_extra version bytes.now) }
    ensures kind { IfOk result (λ x. is_some x.0 ≡ (version == 2)) }
{
    // version 1 has no bytes for it
    if version != 2 {
        return Ok((None, bytes));
    }
    let (release, rest) = long_of(bytes, 0, LONGEST)?;
    let (deadline, rest) = own_deadline_of(rest)?;
    Ok((Some(Extra { release, deadline }), rest))
}
