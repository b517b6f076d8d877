//! Lines of a stream, appended to bytes that have room for them, so that no memory is asked for.
ghost use Rattle.std.specs.Prelude.{◌≡◌, ◌+◌, ◌*◌, ◌≤◌, ◌++◌, length};
ghost use Rattle.std.specs.Vec.{vec_len, vec_capacity};
ghost use Rattle.cpg_label.specs.ItemText.{item_of, done_text};
ghost use Rattle.cpg_label.specs.Labels.{condition_name, head_labels, process_name};
ghost use Rattle.cpg_live.specs.Streams.{act_line, act_lines, closed_line, fault_line, fault_text, defect_text};

use crate::following::StreamFault;
use crate::{Defect, LawlessRecord};
use cpg_base::Item;
use cpg_head::Head;
use cpg_label::{append, append_number, item_among};
use cpg_node::Act;

/// The most bytes that are reserved for a line: that of an act has a time of at most 20 digits, what was done (at most 40),
/// a blank and its end; the others are shorter.
pub const MOST_LINE: usize = 64;

/// Returns the name of a process; empty if there is no such process.
fn process_name(head: &Head, process: u32) -> &str
    ensures text { result.now ≡ process_name (head_labels head.now) process }
    ensures few { length result.now ≤ 32 }
{
    match head.processes().get(process as usize) {
        Some(process) => process.name.as_str(),
        None => "",
    }
}

/// Returns the name of the process of a condition; empty if there is no such condition.
fn condition_name(head: &Head, condition: u32) -> &str
    ensures text { result.now ≡ condition_name (head_labels head.now) condition }
    ensures few { length result.now ≤ 32 }
{
    // how many processes with a condition come before the one that is wanted
    let mut before = condition;
    for process in head.processes() {
        if process.condition {
            if before == 0 {
                return process.name.as_str();
            }
            before -= 1;
        }
    }
    ""
}

/// Returns the item with this number.
fn item_of(head: &Head, number: u32) -> Item
    ensures { result ≡ item_of (head_labels head.now) number }
{
    item_among(head.processes().len(), head.edges().len(), number)
}

/// Appends what a node did with an item, in at most 40 bytes: a word of at most 6, and a name of at most 32 or a number of
/// at most 20.
fn append_done(out: &mut Vec<u8>, head: &Head, item: Item)
    requires { vec_len out.old + 40 ≤ vec_capacity out.old }
    ensures bytes { out.new.items ≡ out.old.items ++ done_text (head_labels head.now) item }
    ensures few { vec_len out.new ≤ vec_len out.old + 40 }
    ensures room { vec_capacity out.old ≤ vec_capacity out.new }
{
    match item {
        Item::Start(process) => {
            append(out, b"start ");
            append(out, process_name(head, process).as_bytes());
        }
        Item::Message(edge) => {
            append(out, b"send e");
            append_number(out, u64::from(edge));
        }
        Item::Broadcast(condition) => {
            append(out, b"tell ");
            append(out, condition_name(head, condition).as_bytes());
        }
    }
}

/// Appends the line of an act, in at most `MOST_LINE` bytes: its time, and what is done.
fn append_act(out: &mut Vec<u8>, head: &Head, act: &Act)
    requires { vec_len out.old + MOST_LINE ≤ vec_capacity out.old }
    ensures bytes { out.new.items ≡ out.old.items ++ act_line head.now act.now }
    ensures few { vec_len out.new ≤ vec_len out.old + MOST_LINE }
    ensures room { vec_capacity out.old ≤ vec_capacity out.new }
{
    append_number(out, act.time);
    append(out, b" ");
    append_done(out, head, item_of(head, act.item));
    append(out, b"\n");
}

/// Appends the lines of acts, one after another.
pub fn append_acts(out: &mut Vec<u8>, head: &Head, acts: &[Act])
    requires { vec_len out.old + MOST_LINE * length acts.now ≤ vec_capacity out.old }
    ensures bytes { out.new.items ≡ out.old.items ++ act_lines head.now acts.now }
    ensures room { vec_capacity out.old ≤ vec_capacity out.new }
{
    for act in acts {
        append_act(out, head, act);
    }
}

/// Appends the line of a close at this time.
pub fn append_closed(out: &mut Vec<u8>, time: u64)
    requires { vec_len out.old + MOST_LINE ≤ vec_capacity out.old }
    ensures bytes { out.new.items ≡ out.old.items ++ closed_line time }
    ensures room { vec_capacity out.old ≤ vec_capacity out.new }
{
    append(out, b"closed ");
    append_number(out, time);
    append(out, b"\n");
}

/// Returns the word for what is wrong with a record.
fn defect_text(defect: Defect) -> &'static [u8]
    ensures text { result.now ≡ defect_text defect }
    ensures few { length result.now ≤ 6 }
{
    match defect {
        Defect::Length => b"length",
        Defect::Kind => b"kind",
        Defect::Order => b"order",
        Defect::Frame => b"frame",
        Defect::End => b"end",
    }
}

/// Appends why a stream is refused, in at most 40 bytes: the number of the refusal, and what is wrong.
fn append_fault(out: &mut Vec<u8>, fault: StreamFault)
    requires { vec_len out.old + 40 ≤ vec_capacity out.old }
    ensures bytes { out.new.items ≡ out.old.items ++ fault_text fault }
    ensures few { vec_len out.new ≤ vec_len out.old + 40 }
    ensures room { vec_capacity out.old ≤ vec_capacity out.new }
{
    match fault {
        StreamFault::Lawless(lawless) => {
            append(out, b"21 stream ");
            append_number(out, lawless.index);
            append(out, b" ");
            append(out, defect_text(lawless.defect));
        }
        StreamFault::Long => append(out, b"16 long stream"),
    }
}

/// Appends the line that says that a stream is refused, and why.
pub fn append_refused(out: &mut Vec<u8>, fault: StreamFault)
    requires { vec_len out.old + MOST_LINE ≤ vec_capacity out.old }
    ensures bytes { out.new.items ≡ out.old.items ++ fault_line fault }
    ensures room { vec_capacity out.old ≤ vec_capacity out.new }
{
    append(out, b"cpgc: refused ");
    append_fault(out, fault);
    append(out, b"\n");
}
