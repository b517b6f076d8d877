//! Events: what a record says.
ghost use Rattle.std.specs.Prelude.{◌≡◌};
ghost use Rattle.cpg_live.specs.Records.{is_plain, is_unkind, told, event_of};
ghost use Rattle.cpg_live.specs.Stream.{is_close};

use crate::reading::Record;
use cpg_node::Frame;
use cpg_table::NodeTable;

/// What a record of a lawful kind says.
#[derive(Clone, Copy, Debug, PartialEq, Eq)]
pub enum Event {
    /// A frame arrives.
    Frame(Frame),
    /// The end of an execution of a process: its number, its fault count, and the value of its condition.
    End(u32, u16, bool),
    /// The stream ends here.
    Close,
}

/// Returns whether the item, the number and the value of a record are 0, as those of a close must be.
fn is_plain(read: &Record) -> bool
    ensures { result ≡ is_plain read.now }
{
    read.item == 0 && read.number == 0 && read.value == 0
}

/// Returns whether the kind of a record is lawless on the node of a table: it is above 2, the value is above 1, a close has
/// an item, a number or a value other than 0, or the frame of a message has the value 1.
fn is_unkind(table: &NodeTable, read: &Record) -> bool
    ensures { result ≡ is_unkind table.now read.now }
{
    // 0 is a frame, 1 an end, and 2 a close
    if read.kind > 2 {
        return true;
    }
    // a value is false or true
    if read.value > 1 {
        return true;
    }
    if read.kind == 2 {
        return !is_plain(read);
    }
    // an end may have either value; whether its process has a condition is looked at later
    if read.kind != 0 {
        return false;
    }
    // a frame of an item before the broadcasts is one of a message, which carries no value
    u32::from(read.item) < table.first_broadcast() && read.value == 1
}

/// Returns what a record of a lawful kind says.
fn told(read: &Record) -> Event
    ensures { result ≡ told read.now }
{
    // 0 is a frame, 1 an end, and 2, the only other lawful kind, a close
    if read.kind == 0 {
        return Event::Frame(Frame {
            item: u32::from(read.item),
            column: u32::from(read.number),
            value: read.value == 1,
        });
    }
    if read.kind == 1 {
        return Event::End(u32::from(read.item), read.number, read.value == 1);
    }
    Event::Close
}

/// Returns the event of a record, or `None` if its kind is lawless on the node of this table.
pub fn event_of(table: &NodeTable, read: &Record) -> Option<Event>
    ensures { result ≡ event_of table.now read.now }
{
    if is_unkind(table, read) {
        None
    } else {
        Some(told(read))
    }
}

/// Returns whether an event closes the stream.
pub fn is_close(event: &Event) -> bool
    ensures { result ≡ is_close event.now }
{
    match event {
        Event::Frame(_) | Event::End(_, _, _) => false,
        Event::Close => true,
    }
}
