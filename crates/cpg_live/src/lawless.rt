//! The first lawless record of a stream, and what is wrong with it.

/// What is wrong with a record. The cases are tested in this order.
#[derive(Clone, Copy, Debug, PartialEq, Eq)]
pub enum Defect {
    /// It comes after the close, or the stream ends, within it or before it, without a close.
    Length,
    /// Its kind is above 2, its value byte is above 1, it is a close with an item, a number or a value other than 0, or it is
    /// a message's frame with the value 1.
    Kind,
    /// Its time is below that of the record before.
    Order,
    /// It is a frame that is strange at its time: the node hears no such frame then, or what it says contradicts what was
    /// heard.
    Frame,
    /// It is an end that its process can't report at its time.
    End,
}

/// The first lawless record of a stream.
#[derive(Clone, Copy, Debug, PartialEq, Eq)]
pub struct LawlessRecord {
    /// The number of the record, from 0.
    pub index: u64,
    /// What is wrong with it.
    pub defect: Defect,
}
