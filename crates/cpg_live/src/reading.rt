//! Reading the numbers of a record.
ghost use Rattle.std.specs.Prelude.{◌≡◌, length};
ghost use Rattle.cpg_live.specs.Records.{record_of};

use byteorder::{BigEndian, ByteOrder};

/// How many bytes a record has.
pub const RECORD_SIZE: usize = 14;

/// The numbers of a record, in the order of its bytes.
#[derive(Clone, Copy, Debug, PartialEq, Eq)]
pub struct Record {
    /// 0 for a frame, 1 for an end, 2 for a close; others are lawless.
    pub kind: u8,
    /// Its time, in time units of the graph file.
    pub time: u64,
    /// The item of a frame, or the process of an end.
    pub item: u16,
    /// The column of a frame, or the fault count of an end.
    pub number: u16,
    /// The value of a broadcast or of the condition of an end, which should be 0 or 1.
    pub value: u8,
}

/// Returns the numbers of a record of 14 bytes.
pub fn read_record(bytes: &[u8]) -> Record
    requires { length bytes.now ≡ 14 }
    ensures { result ≡ record_of bytes.now }
{
    Record {
        kind: bytes[0],
        time: BigEndian::read_u64(&bytes[1..]),
        item: BigEndian::read_u16(&bytes[9..]),
        number: BigEndian::read_u16(&bytes[11..]),
        value: bytes[13],
    }
}
