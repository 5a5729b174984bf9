//! The records of a snapshot file: a head, and behind it the ends, 3,000 a record.
ghost use Rattle.std.specs.Prelude.{◌≡◌, ◌<◌, ◌≤◌, ◌+◌, ◌*◌, ◌∷◌, [], ◌++◌, ℕ, List, IsTrue, ◌↔◌, length, slice_index_or, IfOk, IfSome, IfNone, Err, All};
ghost use Rattle.txn_base.specs.declared.txn.TxnId.{TxnId};
ghost use Rattle.txn_base.specs.declared.txn.Decision.{Decision};
ghost use Rattle.txn_base.specs.declared.snapshot.Snapshot.{Snapshot};
ghost use Rattle.txn_base.specs.Bytes.{contents_of};
ghost use Rattle.txn_base.specs.Records.{IsWord, IsEnd, IsHeadRecord, IsEndsRecord, head_record, ends_record};
ghost use Rattle.txn_base.specs.Snapshots.{IsSnapshot, IsSnapshotBatch, ends_piece, ends_records, snapshot_batch};
ghost use Rattle.txn_records.specs.EndsRead.{IsSnapshotRecord, piece_count};

use crate::ends::{ends_bytes, is_ascending, is_ends_record, push_record};
use crate::error::RecordError;
use crate::fields::{only_u64, put_head, put_u64, take_head, take_u64};
use std::alloc::{AllocError, Global};
use txn_base::{Bytes, Decision, Ends, Snapshot, TxnId};

/// How many records of ends stand behind the head.
pub fn ends_count(snap: &Snapshot) -> u64
    requires { IsSnapshot snap.now }
    ensures { result ≡ piece_count snap.now }
{
    (snap.ends.as_slice().len() as u64 + 2999) / 3000
}

/// The head of a snapshot, the first record of its batch.
pub fn write_head(alloc: Global, snap: &Snapshot) -> Result<Bytes, AllocError>
    requires { IsSnapshot snap.now }
    ensures written { IfOk result (λ b. IsHeadRecord b.bytes snap.now.entries snap.now.limit (length snap.now.ends)) }
    ensures place { IfOk result (λ b. b.bytes ≡ slice_index_or (snapshot_batch snap.now) 0 []) }
{
    let mut out = Bytes::new(alloc);
    out.reserve(26)?;
    put_head(&mut out, 1);
    put_u64(&mut out, snap.entries);
    put_u64(&mut out, snap.limit);
    put_u64(&mut out, snap.ends.as_slice().len() as u64);
    Ok(out)
}

/// A record of ends, by its number from 0; it stands behind the head and those before it.
pub fn write_ends(alloc: Global, snap: &Snapshot, piece: u64) -> Result<Bytes, AllocError>
    requires snapshot { IsSnapshot snap.now }
    requires piece { piece < piece_count snap.now }
    ensures written { IfOk result (λ b. IsEndsRecord b.bytes (ends_piece snap.now.ends piece)) }
    ensures place { IfOk result (λ b. b.bytes ≡ slice_index_or (snapshot_batch snap.now) (piece + 1) []) }
{
    let bytes = ends_bytes(alloc, piece_of(snap.ends.as_slice(), piece as usize))?;
    Ok(bytes)
}

/// The ends of a piece.
fn piece_of(ends: &[(TxnId, Decision)], piece: usize) -> &[(TxnId, Decision)]
    requires few { length ends.now ≤ 189000 }
    requires some { 3000 * piece < length ends.now }
    ensures { result.now ≡ ends_piece ends.now piece }
{
    let (_, behind) = ends.split_at(3000 * piece);
    let count = behind.len().min(3000);
    let (front, _) = behind.split_at(count);
    front
}

/// The numbers of a head: entries, limit, ends.
fn head_of(bytes: &[u8]) -> Option<(u64, u64, u64)>
    ensures some { IfSome result (λ p. IsHeadRecord bytes.now p.0 p.1 p.2) }
    ensures none { IfNone result ((entries limit ends : ℕ) → bytes.now ≡ head_record entries limit ends → ⊥) }
{
    let (kind, fields) = take_head(bytes)?;
    if kind != 1 {
        return None;
    }
    let (entries, behind) = take_u64(fields)?;
    let (limit, last) = take_u64(behind)?;
    let ends = only_u64(last)?;
    Some((entries, limit, ends))
}

/// Whether a record is in the grammar of a snapshot's records, whatever stands beside it: a head, or a list of ends of
/// whatever number and order.
pub fn is_snapshot_record(bytes: &[u8]) -> bool
    ensures { IsTrue result ↔ IsSnapshotRecord bytes.now }
{
    match head_of(bytes) {
        Some(_) => true,
        None => is_ends_record(bytes),
    }
}

/// The ends in these records, so many in all.
fn read_ends(
    alloc: Global,
    records: &[Bytes],
    total: usize,
) -> Result<Vec<(TxnId, Decision)>, RecordError>
    requires few { length records.now ≤ 63 }
    requires total { total ≤ 189000 }
    ensures records { IfOk result (λ v. contents_of records.now ≡ ends_records 63 v.items) }
    ensures total { IfOk result (λ v. length v.items ≡ total) }
    ensures each { IfOk result (λ v. All IsEnd v.items) }
    ensures one { IfOk result (λ v. (ends : List (TxnId × Decision)) → All IsEnd ends → length ends ≡ total → contents_of records.now ≡ ends_records 63 ends → ends ≡ v.items) }
    ensures bad { result ≡ Err RecordError.Bad → (ends : List (TxnId × Decision)) → All IsEnd ends → length ends ≡ total → contents_of records.now ≡ ends_records 63 ends → ⊥ }
{
    let mut found = Vec::new(alloc);
    for bytes in records {
        let count = (total - found.len()).min(3000);
        if count < 1 {
            return Err(RecordError::Bad);
        }
        match push_record(&mut found, bytes.as_slice(), count) {
            Ok(()) => {}
            Err(why) => return Err(why),
        }
    }
    if found.len() != total {
        return Err(RecordError::Bad);
    }
    Ok(found)
}

/// The first record, and those behind it.
fn split_batch(batch: &[Bytes]) -> Option<(&[u8], &[Bytes])>
    ensures some { IfSome result (λ p. contents_of batch.now ≡ p.0.now ∷ contents_of p.1.now) }
    ensures none { IfNone result (contents_of batch.now ≡ []) }
{
    if batch.len() < 1 {
        return None;
    }
    Some((batch[0].as_slice(), &batch[1..]))
}

/// The snapshot of a whole batch. `Bad` exactly where the batch is that of none: the head, then as many records of ends as
/// are needed, each full but the last, in ascending order. `NoMemory` is want of memory for the ends.
pub fn read_snapshot(alloc: Global, batch: &[Bytes]) -> Result<Snapshot, RecordError>
    ensures read { IfOk result (λ snap. IsSnapshotBatch (contents_of batch.now) snap) }
    ensures bad { result ≡ Err RecordError.Bad → (snap : Snapshot) → IsSnapshotBatch (contents_of batch.now) snap → ⊥ }
{
    let Some((head, rest)) = split_batch(batch) else {
        return Err(RecordError::Bad);
    };
    let Some((entries, limit, total)) = head_of(head) else {
        return Err(RecordError::Bad);
    };
    if rest.len() > 63 || total > 189_000 {
        return Err(RecordError::Bad);
    }
    let ends = read_ends(alloc, rest, total as usize)?;
    if !is_ascending(&ends) {
        return Err(RecordError::Bad);
    }
    Ok(Snapshot {
        entries,
        limit,
        ends: Ends::from_vec(ends),
    })
}
