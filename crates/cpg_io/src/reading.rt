//! Reads all bytes that stand under a name.
ghost use Rattle.std.specs.Prelude.{◌≡◌, ◌+◌, ◌<◌, ◌≤◌, ◌↔◌, Err, IfErr, IfOk, IfSome, length, vec_len};
ghost use Rattle.cpg_io.specs.Agreement.{AreFetched, LeavesRest};
ghost use Rattle.cpg_io.specs.Causes.{Rose};
ghost use Rattle.cpg_io.specs.Shelf.{SameNames, SameAccess};
ghost use Rattle.cpg_io.specs.Reading.{GivesPiece, IsReadInPart, IsReadWhole, ReadsOn};
ghost use Rattle.cpg_io.specs.State.{given_count};

use crate::{Failed, Shelf};
use std::alloc::{AllocError, Global};
use thiserror::Error;

/// Why not all bytes were read.
#[derive(Clone, Copy, Debug, PartialEq, Eq, Error)]
pub enum ReadAll {
    /// The shelf met a fault, and its count of faults rose, or has come to its greatest number.
    #[error("the shelf met a fault")]
    Failed,
    /// There are more bytes than the limit.
    #[error("there are more bytes than the limit")]
    TooLong,
    /// Memory ran out.
    #[error("out of memory")]
    OutOfMemory,
}

impl From<Failed> for ReadAll {
    ghost use Rattle.std.specs.Prelude.{◌≡◌};
    ghost use Rattle.cpg_io.specs.declared.reading.ReadAll.{ReadAll};

    ghost from_gives = { λ _ e. e ≡ ReadAll.Failed };

    fn from(_: Failed) -> ReadAll {
        ReadAll::Failed
    }
}

impl From<AllocError> for ReadAll {
    ghost use Rattle.std.specs.Prelude.{◌≡◌};
    ghost use Rattle.cpg_io.specs.declared.reading.ReadAll.{ReadAll};

    ghost from_gives = { λ _ e. e ≡ ReadAll.OutOfMemory };

    fn from(_: AllocError) -> ReadAll {
        ReadAll::OutOfMemory
    }
}

/// The most bytes that are asked of the shelf at once: the length of the buffer.
const PIECE: usize = 65_536;

/// Reads one piece by way of `buffer` and adds it to `bytes`. Returns how many bytes came; 0 means the end. At an error
/// nothing is added: `Failed` only if the shelf's count of faults rose, or has come to its greatest number, `TooLong`
/// if the piece goes past the limit, and `OutOfMemory` if there is no memory for it.
fn read_piece<S: Shelf>(
    shelf: &mut S,
    buffer: &mut [u8],
    bytes: &mut Vec<u8>,
    limit: usize,
) -> Result<usize, ReadAll>
    requires buffer { 0 < length buffer.old }
    requires piece { length buffer.old ≤ 65536 }
    requires room { vec_len bytes.old ≤ limit }
    ensures names { SameNames (S.state shelf.old) (S.state shelf.new) }
    ensures access { SameAccess (S.may_fetch shelf.old) (S.may_fetch shelf.new) }
    ensures rest { LeavesRest (S.state shelf.old) → LeavesRest (S.state shelf.new) }
    ensures piece { IfOk result (λ n. ReadsOn (S.state shelf.old).left (S.state shelf.new).left bytes.old.items bytes.new.items n) }
    ensures history { GivesPiece limit (S.state shelf.old).history (S.state shelf.new).history bytes.old.items bytes.new.items result }
    ensures within { IfOk result (λ _. vec_len bytes.new ≤ limit) }
    ensures told { result ≡ Err ReadAll.TooLong → IfSome (S.state shelf.old).left (λ left. limit < vec_len bytes.old + length left) }
    ensures failed { result ≡ Err ReadAll.Failed → Rose (S.state shelf.old).faults (S.state shelf.new).faults }
    ensures later { (S.state shelf.old).faults ≤ (S.state shelf.new).faults }
{
    let room = limit - bytes.len();
    // one byte more than there is room for is asked for, so that bytes past the limit show
    let most = buffer.len().min(room.saturating_add(1));
    let piece = &mut buffer[..most];
    let count = shelf.read(piece)?;
    // the byte past the limit came
    if count > room {
        return Err(ReadAll::TooLong);
    }
    bytes.extend_from_slice(&piece[..count])?;
    Ok(count)
}

/// Returns all bytes that stand under a name, if there are at most `limit` of them. They are read in large pieces.
///
/// `Failed` only if the shelf's count of faults rose, or has come to its greatest number. `TooLong` exactly if the
/// shelf has given more than `limit` bytes since the fetch; it is asked for no more than `limit` plus one. At `Ok`
/// these are all bytes that the shelf gave, to the end of the name. If the shelf reports what stands under the name,
/// they are just that.
pub fn read_all<S: Shelf>(
    alloc: Global,
    shelf: &mut S,
    name: &str,
    limit: usize,
) -> Result<Vec<u8>, ReadAll>
    requires may { S.may_fetch shelf.old name.now }
    ensures names { SameNames (S.state shelf.old) (S.state shelf.new) }
    ensures access { SameAccess (S.may_fetch shelf.old) (S.may_fetch shelf.new) }
    ensures fetched { AreFetched (S.state shelf.old) (S.state shelf.new) }
    ensures whole { IfOk result (λ v. IfSome ((S.state shelf.old).stands name.now) (λ bytes. v.items ≡ bytes)) }
    ensures history { IfOk result (λ v. IsReadWhole (S.state shelf.old).history (S.state shelf.new).history name.now limit v.items) }
    ensures part { IfErr result (IsReadInPart (S.state shelf.old).history (S.state shelf.new).history name.now limit) }
    ensures count { IfOk result (λ v. given_count (S.state shelf.new) ≡ vec_len v) }
    ensures long { result ≡ Err ReadAll.TooLong ↔ limit < given_count (S.state shelf.new) }
    ensures told { result ≡ Err ReadAll.TooLong → IfSome ((S.state shelf.old).stands name.now) (λ bytes. limit < length bytes) }
    ensures most { given_count (S.state shelf.new) ≤ limit + 1 }
    ensures failed { result ≡ Err ReadAll.Failed → Rose (S.state shelf.old).faults (S.state shelf.new).faults }
    ensures later { (S.state shelf.old).faults ≤ (S.state shelf.new).faults }
{
    shelf.fetch(name)?;
    let mut buffer = [0; PIECE];
    let mut bytes = Vec::new(alloc);
    // piece by piece, until one comes empty
    while read_piece(shelf, &mut buffer, &mut bytes, limit)? > 0 {}
    Ok(bytes)
}
