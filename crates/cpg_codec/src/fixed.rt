//! Records of a fixed number of bytes, and the numbers in them.
ghost use Rattle.std.specs.Prelude.{◌≡◌};
ghost use Rattle.cpg_codec.specs.Fields.{field};

use std::marker::Model;

/// A record of N bytes, seen as their list. The functions below return the big-endian number of one of its fields.
#[derive(Drop)]
pub struct Fixed<const N: usize> {
    bytes: [u8; N],
}

impl<const N: usize> Model for Fixed<N> {
    ghost use Rattle.std.specs.Prelude.{List, ℕ};

    ghost Value = { List ℕ };

    ghost view = { λ f. f.bytes };
}

impl<const N: usize> Fixed<N> {
    /// Returns the record of these bytes.
    pub fn new(bytes: [u8; N]) -> Fixed<N>
        ensures { result ≡ bytes.entry }
    {
        Fixed { bytes }
    }
}

/// The number of the byte at a place, or of the first eight bytes.
macro_rules! number {
    ($record:ident, first 8) => {{
        let b = $record.bytes;
        u64::from_be_bytes([b[0], b[1], b[2], b[3], b[4], b[5], b[6], b[7]])
    }};
    ($record:ident, $at:literal) => {
        $record.bytes[$at]
    };
}

/// Returns the node of a process, by number.
pub fn process_node(record: &Fixed<2>) -> u8
    ensures { result ≡ field 0 1 «record».now }
{
    number!(record, 0)
}

/// Returns the condition flag of a process: in a pack 1 if it has a condition, and 0 if not; this doesn't ask for that.
pub fn process_flag(record: &Fixed<2>) -> u8
    ensures { result ≡ field 1 1 «record».now }
{
    number!(record, 1)
}

/// Returns the process that an edge leads from, by number.
pub fn edge_from(record: &Fixed<2>) -> u8
    ensures { result ≡ field 0 1 «record».now }
{
    number!(record, 0)
}

/// Returns the process that an edge leads to, by number.
pub fn edge_to(record: &Fixed<2>) -> u8
    ensures { result ≡ field 1 1 «record».now }
{
    number!(record, 1)
}

/// Returns the variable of a literal.
pub fn literal_variable(record: &Fixed<3>) -> u8
    ensures { result ≡ field 0 1 «record».now }
{
    number!(record, 0)
}

/// Returns the least number that is in the range of a literal.
pub fn literal_low(record: &Fixed<3>) -> u8
    ensures { result ≡ field 1 1 «record».now }
{
    number!(record, 1)
}

/// Returns the greatest number that is in the range of a literal.
pub fn literal_high(record: &Fixed<3>) -> u8
    ensures { result ≡ field 2 1 «record».now }
{
    number!(record, 2)
}

/// Returns a number of eight bytes: a duration, a release or a deadline, in time units of the graph file.
pub fn long_number(record: &Fixed<8>) -> u64
    ensures { result ≡ field 0 8 «record».now }
{
    number!(record, first 8)
}

/// Returns the time of a column, in time units of the graph file.
pub fn column_time(record: &Fixed<9>) -> u64
    ensures { result ≡ field 0 8 «record».now }
{
    number!(record, first 8)
}

/// Returns how many literals a column has.
pub fn column_literals(record: &Fixed<9>) -> u8
    ensures { result ≡ field 8 1 «record».now }
{
    number!(record, 8)
}
