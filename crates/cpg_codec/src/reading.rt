//! Reading a whole pack.
//!
//! The functions that take the unread bytes fail with `Left` at the first byte that no pack has there, or with `Memory` if
//! memory runs out; what was read up to then stays read.
ghost use Rattle.std.specs.Prelude.{◌≡◌, ◌≤◌, ◌<◌, ◌+◌, ℕ, List, length, Ok, Err, IfOk};
ghost use Rattle.cpg_table.specs.Lawful.{Tables, space_of};
ghost use Rattle.cpg_codec.specs.Spelling.{spelling};
ghost use Rattle.cpg_codec.specs.Grammar.{IsSpace, read_head, read_nodes, read_tables, read};
ghost use Rattle.cpg_codec.specs.Packs.{AreLawful, IsBadPack};
ghost use Rattle.cpg_codec.specs.Gives.{Gives, Answers, OnBadPack, UnlessMemory};

use crate::PackFault;
use crate::fault::ReadError;
use crate::head_reading::head_of;
use crate::row_reading::table_of;
use crate::space::space_of;
use crate::unread::Unread;
use cpg_head::Head;
use cpg_table::{NodeItems, NodeTable, Tables, VariableSpace};
use std::alloc::Global;

/// Reads the tables of all nodes of a head. `space` has the variables of that head.
fn nodes_of(
    alloc: Global,
    unread: &mut Unread,
    head: &Head,
    space: &VariableSpace,
) -> Result<Vec<NodeTable>, ReadError>
    requires space { space.now ≡ space_of head.now }
    requires within { IsSpace space.now }
    ensures { Gives (λ x. (x.items, unread.new)) result (read_nodes head.now unread.old) }
{
    let mut nodes = Vec::new(alloc);
    // how many columns were read so far: all tables together may have only so many
    let mut total: u64 = 0;
    // at most 16 nodes
    let count = head.nodes().len() as u32;
    for node in 0..count {
        let items = NodeItems::of(alloc, head, node)?;
        let (table, with_table) = table_of(alloc, unread, head, space, node, items.all(), total)?;
        nodes.push(table)?;
        total = with_table;
    }
    Ok(nodes)
}

/// Reads the head of a pack.
fn next_head(alloc: Global, unread: &mut Unread) -> Result<Head, ReadError>
    ensures { Gives (λ x. (x, unread.new)) result (read_head unread.old) }
{
    let (head, rest) = head_of(alloc, unread.rest())?;
    let left = rest.len();
    unread.read_to(left);
    Ok(head)
}

/// Reads a pack, and leaves the bytes after it unread.
#[tactic(auto, unfolding(crate::specs::Grammar::read_tables))]
fn tables_of(alloc: Global, unread: &mut Unread) -> Result<Tables, ReadError>
    ensures { Gives (λ x. (x, unread.new)) result (read_tables unread.old) }
{
    let head = next_head(alloc, unread)?;
    let space = space_of(&head);
    let nodes = nodes_of(alloc, unread, &head, &space)?;
    Ok(Tables::of(head, nodes))
}

/// Returns the tables that the bytes as a whole spell; `BadPack` with the place of the first byte that no pack has there,
/// or `OutOfMemory`.
#[tactic(auto, unfolding(crate::specs::Grammar::read))]
fn answer_of(alloc: Global, bytes: Vec<u8>) -> Result<Tables, PackFault>
    ensures { Answers result (read bytes.items) }
{
    let size = bytes.len();
    let mut unread = Unread::new(bytes);
    match tables_of(alloc, &mut unread) {
        Ok(tables) => {
            let rest = unread.rest();
            // Bytes after a pack: the first of them is bad. No more bytes are left than there were.
            if !rest.is_empty() {
                return Err(PackFault::BadPack(size.saturating_sub(rest.len()) as u64));
            }
            Ok(tables)
        }
        Err(ReadError::Left(left)) => { Err(PackFault::BadPack(size.saturating_sub(left) as u64)) }
        Err(ReadError::Memory) => Err(PackFault::OutOfMemory),
    }
}

/// Returns the tables that the bytes as a whole spell.
///
/// `BadPack` only if they spell none, with the length of their longest prefix that is a prefix of some pack; the only
/// other error is `OutOfMemory`. Memory is given back while the bytes are read.
pub fn read_pack(alloc: Global, bytes: Vec<u8>) -> Result<Tables, PackFault>
    ensures found { IfOk result (λ t. AreLawful t × (bytes.items ≡ spelling t)) }
    ensures only { (t : Tables) → AreLawful t → bytes.items ≡ spelling t → UnlessMemory result (λ u. u ≡ t) }
    ensures bad { OnBadPack result (IsBadPack bytes.items) }
{
    answer_of(alloc, bytes)
}
