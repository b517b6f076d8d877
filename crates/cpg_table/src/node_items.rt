//! What a node starts, sends and hears, by item number. Every error here is `OutOfMemory`.
ghost use Rattle.std.specs.Prelude.{◌≡◌, ◌==◌, not, ◌++◌, ◌∷◌, [], IfOk, OnOk, if◌then◌else◌};
ghost use Rattle.cpg_table.specs.Items.{numbers_where, leaves, enters, first_message, first_broadcast, conditioned, starts_of, sends_of, hears_of, lists_of};

use crate::items::{first_broadcast, is_crossing, is_wanted, next_number};
use cpg_base::OutOfMemory;
use cpg_head::Head;
use std::alloc::Global;
use std::marker::Model;

/// The numbers of the items that a node starts, then of those that it sends, then of those that it hears; of each kind the
/// lowest first.
#[derive(Drop)]
pub struct NodeItems {
    items: Vec<u32>,
    // how many of the items are started, and how many after these are sent
    starts: usize,
    sends: usize,
}

impl Model for NodeItems {
    ghost use Rattle.std.specs.Prelude.{◌+◌, ◌≤◌, length, take, drop};
    ghost use Rattle.cpg_table.specs.Items.{ItemLists};

    ghost Value = { ItemLists };

    ghost view = { λ n. record {
      starts = take n.starts n.items.items;
      sends = take n.sends (drop n.starts n.items.items);
      hears = drop n.sends (drop n.starts n.items.items);
    } };

    ghost invariant = { λ n. n.starts + n.sends ≤ length n.items.items };
}

/// Adds an item if it is wanted.
fn push_if(items: &mut Vec<u32>, item: u32, wanted: bool) -> Result<(), OutOfMemory>
    ensures { OnOk result (items.new.items ≡ items.old.items ++ (if wanted then item ∷ [] else [])) }
{
    if wanted {
        items.push(item)?;
    }
    Ok(())
}

/// Adds what a node starts: its own processes.
fn push_starts(items: &mut Vec<u32>, head: &Head, node: u32) -> Result<(), OutOfMemory>
    ensures { OnOk result (items.new.items ≡ items.old.items ++ starts_of head.now node) }
{
    let mut item: u32 = 0;
    for process in head.processes() {
        push_if(items, item, process.node == node)?;
        item += 1;
    }
    Ok(())
}

/// Adds the messages from a node to others if `out`, or to it from others if not.
fn push_messages(items: &mut Vec<u32>, head: &Head, node: u32, out: bool) -> Result<(), OutOfMemory>
    ensures { OnOk result (items.new.items ≡ items.old.items ++ numbers_where (λ e.
        if out then leaves head.now node e else enters head.now node e) (first_message head.now) head.now.edges) }
{
    // the number of the first message: messages are numbered after the processes, of which a head has at most 128
    let mut item = head.processes().len() as u32;
    for edge in head.edges() {
        push_if(items, item, is_crossing(head, node, *edge, out))?;
        item += 1;
    }
    Ok(())
}

/// Adds the broadcasts of a node's own conditions if `own`, or of all other conditions if not.
fn push_broadcasts(
    items: &mut Vec<u32>,
    head: &Head,
    node: u32,
    own: bool,
) -> Result<(), OutOfMemory>
    ensures { OnOk result (items.new.items ≡ items.old.items ++ numbers_where (λ p.
        if own then p.node == node else not (p.node == node)) (first_broadcast head.now) (conditioned head.now)) }
{
    let mut item = first_broadcast(head);
    for process in head.processes() {
        push_if(items, item, is_wanted(process, node, own))?;
        item = next_number(item, process.condition);
    }
    Ok(())
}

/// Adds the items that a node sends. A node that is alone sends no broadcasts.
fn push_sends(items: &mut Vec<u32>, head: &Head, node: u32) -> Result<(), OutOfMemory>
    ensures { OnOk result (items.new.items ≡ items.old.items ++ sends_of head.now node) }
{
    push_messages(items, head, node, true)?;
    if head.nodes().len() > 1 {
        push_broadcasts(items, head, node, true)?;
    }
    Ok(())
}

/// Adds the items that a node hears: messages from other nodes, and the broadcasts of their conditions.
fn push_hears(items: &mut Vec<u32>, head: &Head, node: u32) -> Result<(), OutOfMemory>
    ensures { OnOk result (items.new.items ≡ items.old.items ++ hears_of head.now node) }
{
    push_messages(items, head, node, false)?;
    push_broadcasts(items, head, node, false)?;
    Ok(())
}

impl NodeItems {
    /// Returns the items of a node under a head.
    pub fn of(alloc: Global, head: &Head, node: u32) -> Result<NodeItems, OutOfMemory>
        ensures { IfOk result (λ items. items ≡ lists_of head.now node) }
    {
        let mut items = Vec::new(alloc);
        push_starts(&mut items, head, node)?;
        let starts = items.len();
        push_sends(&mut items, head, node)?;
        let sends = items.len() - starts;
        push_hears(&mut items, head, node)?;
        Ok(NodeItems {
            items,
            starts,
            sends,
        })
    }

    /// Returns all items of the node: what it starts, then what it sends, then what it hears.
    pub fn all(&self) -> &[u32]
        ensures { result.now ≡ self.now.starts ++ (self.now.sends ++ self.now.hears) }
    {
        self.items.as_slice()
    }

    /// Returns the items that the node starts.
    pub fn starts(&self) -> &[u32]
        ensures { result.now ≡ self.now.starts }
    {
        self.items.as_slice().split_at(self.starts).0
    }

    /// Returns the items that the node sends.
    pub fn sends(&self) -> &[u32]
        ensures { result.now ≡ self.now.sends }
    {
        let (_, rest) = self.items.as_slice().split_at(self.starts);
        rest.split_at(self.sends).0
    }

    /// Returns the items that the node hears.
    pub fn hears(&self) -> &[u32]
        ensures { result.now ≡ self.now.hears }
    {
        let (_, rest) = self.items.as_slice().split_at(self.starts);
        rest.split_at(self.sends).1
    }
}
