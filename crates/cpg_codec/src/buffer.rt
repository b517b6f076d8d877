//! A buffer in front of a sink, which gathers small pieces into large writes.
ghost use Rattle.std.specs.Prelude.{◌≡◌, ◌≤◌, ◌+◌, ◌*◌, ◌++◌, [], IfOk, OnOk, OnErr, length, vec_len, vec_capacity};
ghost use Rattle.std.specs.List.{flat_map};
ghost use Rattle.std.specs.Int.{w64, to_be_bytes};
ghost use Rattle.cpg_io.specs.Causes.{HasCause};
ghost use Rattle.cpg_io.specs.Sink.{Took, TookPrefix};
ghost use Rattle.cpg_codec.specs.Spelling.{byte, literal_bytes};
ghost use Rattle.cpg_codec.specs.Writing.{Puts};

use cpg_cube::Literal;
use cpg_io::{Failed, Sink, write_all};
use std::alloc::{AllocError, Global};
use std::marker::Model;

/// The most bytes that the buffer holds; when it has so many, they are written.
const SIZE: usize = 65_536;

/// Bytes on their way to a sink, seen as their list. The memory for 65,536 of them is reserved from the start.
#[derive(Drop)]
pub struct Buffer {
    bytes: Vec<u8>,
}

impl Model for Buffer {
    ghost use Rattle.std.specs.Prelude.{List, ℕ, ◌≤◌, vec_len, vec_capacity};

    ghost Value = { List ℕ };

    ghost view = { λ b. b.bytes.items };

    ghost invariant = { λ b. (vec_len b.bytes ≤ 65536) × (65536 ≤ vec_capacity b.bytes) };
}

/// Adds the bytes of sixteen literals, three for each, for which there is room.
fn push_sixteen(bytes: &mut Vec<u8>, literals: &[Literal; 16])
    requires { vec_len bytes.old + 48 ≤ vec_capacity bytes.old }
    ensures items { bytes.new.items ≡ bytes.old.items ++ flat_map literal_bytes literals.now }
    ensures len { vec_len bytes.new ≡ vec_len bytes.old + 48 }
    ensures capacity { vec_capacity bytes.old ≤ vec_capacity bytes.new }
{
    let [a, b, c, d, e, f, g, h, i, j, k, l, m, n, o, p] = *literals;
    let block = [
        a.variable, a.low, a.high, b.variable, b.low, b.high, c.variable, c.low, c.high,
        d.variable, d.low, d.high, e.variable, e.low, e.high, f.variable, f.low, f.high,
        g.variable, g.low, g.high, h.variable, h.low, h.high, i.variable, i.low, i.high,
        j.variable, j.low, j.high, k.variable, k.low, k.high, l.variable, l.low, l.high,
        m.variable, m.low, m.high, n.variable, n.low, n.high, o.variable, o.low, o.high,
        p.variable, p.low, p.high,
    ];
    // the room is reserved, so no memory is asked for
    if bytes.extend_from_slice(&block).is_err() {
        unreachable!()
    }
}

/// Adds the bytes of eight literals, for which there is room.
fn push_eight(bytes: &mut Vec<u8>, literals: &[Literal; 8])
    requires { vec_len bytes.old + 24 ≤ vec_capacity bytes.old }
    ensures items { bytes.new.items ≡ bytes.old.items ++ flat_map literal_bytes literals.now }
    ensures len { vec_len bytes.new ≡ vec_len bytes.old + 24 }
    ensures capacity { vec_capacity bytes.old ≤ vec_capacity bytes.new }
{
    let [a, b, c, d, e, f, g, h] = *literals;
    let block = [
        a.variable, a.low, a.high, b.variable, b.low, b.high, c.variable, c.low, c.high,
        d.variable, d.low, d.high, e.variable, e.low, e.high, f.variable, f.low, f.high,
        g.variable, g.low, g.high, h.variable, h.low, h.high,
    ];
    // the room is reserved, so no memory is asked for
    if bytes.extend_from_slice(&block).is_err() {
        unreachable!()
    }
}

/// Adds the bytes of four literals, for which there is room.
fn push_four(bytes: &mut Vec<u8>, literals: &[Literal; 4])
    requires { vec_len bytes.old + 12 ≤ vec_capacity bytes.old }
    ensures items { bytes.new.items ≡ bytes.old.items ++ flat_map literal_bytes literals.now }
    ensures len { vec_len bytes.new ≡ vec_len bytes.old + 12 }
    ensures capacity { vec_capacity bytes.old ≤ vec_capacity bytes.new }
{
    let [a, b, c, d] = *literals;
    let block = [
        a.variable, a.low, a.high, b.variable, b.low, b.high, c.variable, c.low, c.high,
        d.variable, d.low, d.high,
    ];
    // the room is reserved, so no memory is asked for
    if bytes.extend_from_slice(&block).is_err() {
        unreachable!()
    }
}

/// Adds the bytes of literals, three for each, for which there is room; one literal at a time.
fn push_each(bytes: &mut Vec<u8>, literals: &[Literal])
    requires { vec_len bytes.old + 3 * length literals.now ≤ vec_capacity bytes.old }
    ensures items { bytes.new.items ≡ bytes.old.items ++ flat_map literal_bytes literals.now }
    ensures len { vec_len bytes.new ≡ vec_len bytes.old + 3 * length literals.now }
    ensures capacity { vec_capacity bytes.new ≡ vec_capacity bytes.old }
{
    for literal in literals {
        bytes.push_reserved(literal.variable);
        bytes.push_reserved(literal.low);
        bytes.push_reserved(literal.high);
    }
}

/// Adds literals as `push_each` does, but the first four in one block.
fn push_by_four(bytes: &mut Vec<u8>, literals: &[Literal])
    requires { vec_len bytes.old + 3 * length literals.now ≤ vec_capacity bytes.old }
    ensures items { bytes.new.items ≡ bytes.old.items ++ flat_map literal_bytes literals.now }
    ensures len { vec_len bytes.new ≡ vec_len bytes.old + 3 * length literals.now }
    ensures capacity { vec_capacity bytes.old ≤ vec_capacity bytes.new }
{
    // fewer than four are left, too few for a block
    let Some((block, rest)) = literals.split_first_chunk::<4>() else {
        push_each(bytes, literals);
        return;
    };
    push_four(bytes, block);
    push_each(bytes, rest);
}

/// Adds literals as `push_each` does, but the first eight in one block.
fn push_by_eight(bytes: &mut Vec<u8>, literals: &[Literal])
    requires { vec_len bytes.old + 3 * length literals.now ≤ vec_capacity bytes.old }
    ensures items { bytes.new.items ≡ bytes.old.items ++ flat_map literal_bytes literals.now }
    ensures len { vec_len bytes.new ≡ vec_len bytes.old + 3 * length literals.now }
    ensures capacity { vec_capacity bytes.old ≤ vec_capacity bytes.new }
{
    // fewer than eight are left, too few for a block
    let Some((block, rest)) = literals.split_first_chunk::<8>() else {
        push_by_four(bytes, literals);
        return;
    };
    push_eight(bytes, block);
    push_by_four(bytes, rest);
}

/// Adds literals as `push_each` does, but in blocks of sixteen, then of eight and of four, since a block is copied at once.
fn push_literals(bytes: &mut Vec<u8>, literals: &[Literal])
    requires { vec_len bytes.old + 3 * length literals.now ≤ vec_capacity bytes.old }
    ensures items { bytes.new.items ≡ bytes.old.items ++ flat_map literal_bytes literals.now }
    ensures len { vec_len bytes.new ≡ vec_len bytes.old + 3 * length literals.now }
    ensures capacity { vec_capacity bytes.old ≤ vec_capacity bytes.new }
{
    let mut left = literals;
    while let Some((block, rest)) = left.split_first_chunk::<16>() {
        push_sixteen(bytes, block);
        left = rest;
    }
    push_by_eight(bytes, left);
}

/// Adds a column's time (eight bytes) and how many literals it has (one), for which there is room.
fn push_head(bytes: &mut Vec<u8>, time: u64, count: u8)
    requires { vec_len bytes.old + 9 ≤ vec_capacity bytes.old }
    ensures items { bytes.new.items ≡ bytes.old.items ++ to_be_bytes w64 time ++ byte count }
    ensures len { vec_len bytes.new ≡ vec_len bytes.old + 9 }
    ensures capacity { vec_capacity bytes.old ≤ vec_capacity bytes.new }
{
    // the room is reserved, so no memory is asked for
    if bytes.extend_from_slice(&time.to_be_bytes()).is_err() {
        unreachable!()
    }
    bytes.push_reserved(count);
}

impl Buffer {
    /// Returns an empty buffer, which has reserved all the memory that it ever needs; `Err` if there isn't so much.
    pub fn new(alloc: Global) -> Result<Buffer, AllocError>
        ensures { IfOk result (λ b. b ≡ []) }
    {
        let bytes = Vec::with_capacity(alloc, SIZE)?;
        Ok(Buffer { bytes })
    }

    /// Returns how many more bytes the buffer has room for.
    pub fn room(&self) -> usize
        ensures { length self.now + result ≡ 65536 }
    {
        SIZE - self.bytes.len()
    }

    /// Adds the bytes of a column, for which there is room: its time, how many literals it has, and these.
    pub(crate) fn hold_column(&mut self, time: u64, literals: &[Literal])
        requires few { length literals.now ≤ 255 }
        requires room { length self.old + (9 + 3 * length literals.now) ≤ 65536 }
        ensures { self.new ≡ self.old ++ (to_be_bytes w64 time ++ byte (length literals.now) ++ flat_map literal_bytes literals.now) }
    {
        // at most 255 literals, so their number fits a byte
        push_head(&mut self.bytes, time, literals.len() as u8);
        push_literals(&mut self.bytes, literals);
    }

    /// Adds bytes for which there is room.
    pub fn hold(&mut self, piece: &[u8])
        requires { length self.old + length piece.now ≤ 65536 }
        ensures { self.new ≡ self.old ++ piece.now }
    {
        // the room is reserved, so no memory is asked for
        if self.bytes.extend_from_slice(piece).is_err() {
            unreachable!()
        }
    }

    /// Writes all that is held to the sink, and empties the buffer. On `Err` the sink met a fault, and took a proper
    /// prefix of what was held.
    pub fn write<O: Sink>(&mut self, sink: &mut O) -> Result<(), Failed>
        ensures whole { OnOk result (Took (O.state sink.old).taken (O.state sink.new).taken self.old) }
        ensures part { OnErr result (TookPrefix (O.state sink.old).taken (O.state sink.new).taken self.old) }
        ensures empty { OnOk result (self.new ≡ []) }
        ensures cause { HasCause (O.state sink.old).faults (O.state sink.new).faults result }
    {
        write_all(sink, self.bytes.as_slice())?;
        self.bytes.clear();
        Ok(())
    }

    /// Adds a piece of at most 65,536 bytes, and writes the buffer if that makes it full; on `Err` the sink met a fault.
    pub fn put<O: Sink>(&mut self, sink: &mut O, piece: &[u8]) -> Result<(), Failed>
        requires { length piece.now ≤ 65536 }
        ensures put { Puts (O.state sink.old).taken (O.state sink.new).taken self.old self.new result piece.now }
        ensures cause { HasCause (O.state sink.old).faults (O.state sink.new).faults result }
    {
        let free = self.room();
        // the buffer doesn't get full, so nothing is written
        if piece.len() < free {
            self.hold(piece);
            return Ok(());
        }
        // the buffer is filled and written; what of the piece didn't fit comes after that
        let (front, rest) = piece.split_at(free);
        self.hold(front);
        self.write(sink)?;
        self.hold(rest);
        Ok(())
    }

    /// Adds a piece of any length. One longer than the buffer is written itself, after what is held. On `Err` the sink
    /// met a fault.
    pub fn put_any<O: Sink>(&mut self, sink: &mut O, piece: &[u8]) -> Result<(), Failed>
        ensures put { Puts (O.state sink.old).taken (O.state sink.new).taken self.old self.new result piece.now }
        ensures cause { HasCause (O.state sink.old).faults (O.state sink.new).faults result }
    {
        // the piece fits the buffer, after one write at most
        if piece.len() <= SIZE {
            return self.put(sink, piece);
        }
        self.write(sink)?;
        write_all(sink, piece)
    }
}
