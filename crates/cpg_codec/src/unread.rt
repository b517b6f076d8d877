//! Bytes that are read from front to back.
ghost use Rattle.std.specs.Prelude.{◌≡◌, ◌-◌, ◌≤◌, length, drop};

use std::marker::Model;

/// Bytes of which the first `read` are read, seen as the bytes after these. Their memory is given back on the way, since
/// the tables that are made of them need as much.
#[derive(Drop)]
pub struct Unread {
    /// The bytes that are still in memory, read and unread.
    bytes: Vec<u8>,
    /// How many of them are read.
    read: usize,
}

impl Model for Unread {
    ghost use Rattle.std.specs.Prelude.{List, ℕ, ◌≤◌, drop, length};

    ghost Value = { List ℕ };

    ghost view = { λ u. drop u.read u.bytes.items };

    ghost invariant = { λ u. u.read ≤ length u.bytes.items };
}

impl Unread {
    /// Returns these bytes, none of them read.
    pub fn new(bytes: Vec<u8>) -> Unread
        ensures { result ≡ bytes.items }
    {
        Unread { bytes, read: 0 }
    }

    /// Returns the bytes that aren't read.
    pub fn rest(&self) -> &[u8]
        ensures { result.now ≡ self.now }
    {
        &self.bytes[self.read..]
    }

    /// Notes that all bytes but the last `left` are read.
    pub fn read_to(&mut self, left: usize)
        requires { left ≤ length self.old }
        ensures { self.new ≡ drop (length self.old - left) self.old }
    {
        self.read = self.bytes.len() - left;
        // more is read than left: to move what is left then costs, over a whole pack, no more than its length
        if self.read > left {
            self.give_back();
        }
    }

    /// Moves the unread bytes to the front, and gives back the memory after them.
    fn give_back(&mut self)
        ensures { self.new ≡ self.old }
    {
        let left = self.bytes.len() - self.read;
        self.bytes.copy_within(self.read.., 0);
        self.bytes.truncate(left);
        self.bytes.shrink_to_fit();
        self.read = 0;
    }
}
