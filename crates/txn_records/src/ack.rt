//! The records of a subscription's ledger, read.
ghost use Rattle.std.specs.Prelude.{◌≡◌, ◌∷◌, IfOk, Err};
ghost use Rattle.txn_base.specs.declared.entry.AckEntry.{AckEntry};
ghost use Rattle.txn_base.specs.Decoded.{ack_entry_of};
ghost use Rattle.txn_base.specs.Records.{IsAckRecord};

use crate::error::RecordError;
use crate::fields::{only_txn, only_u64, take_head, take_txn};
use crate::places::read_places;
use std::alloc::Global;
use txn_base::AckEntry;

/// The entry of a record. `Bad` exactly where the bytes aren't in the grammar; `NoMemory` is want of memory for the
/// places, which take no more bytes than the record has.
pub fn read_ack(alloc: Global, bytes: &[u8]) -> Result<AckEntry, RecordError>
    ensures read { IfOk result (λ entry. IsAckRecord bytes.now entry) }
    ensures entry { IfOk result (λ entry. entry ≡ ack_entry_of bytes.now) }
    ensures bad { result ≡ Err RecordError.Bad → (entry : AckEntry) → IsAckRecord bytes.now entry → ⊥ }
{
    let entry = read_fields(alloc, bytes)?;
    Ok(entry)
}

/// The same, by its kind.
fn read_fields(alloc: Global, bytes: &[u8]) -> Result<AckEntry, RecordError>
    ensures read { IfOk result (λ entry. IsAckRecord bytes.now entry) }
    ensures bad { result ≡ Err RecordError.Bad → (entry : AckEntry) → IsAckRecord bytes.now entry → ⊥ }
{
    let Some((kind, rest)) = take_head(bytes) else {
        return Err(RecordError::Bad);
    };
    match kind {
        1 => read_plain(alloc, rest),
        2 => read_plain_up_to(rest),
        3 => read_hold(alloc, rest),
        4 => read_hold_up_to(rest),
        5 => read_commit(rest),
        6 => read_abort(rest),
        _ => Err(RecordError::Bad),
    }
}

/// Plain acknowledgements of places, in the fields of their record.
fn read_plain(alloc: Global, rest: &[u8]) -> Result<AckEntry, RecordError>
    ensures read { IfOk result (λ entry. IsAckRecord (1 ∷ 1 ∷ rest.now) entry) }
    ensures bad { result ≡ Err RecordError.Bad → (entry : AckEntry) → IsAckRecord (1 ∷ 1 ∷ rest.now) entry → ⊥ }
{
    let places = read_places(alloc, rest)?;
    Ok(AckEntry::Plain { places })
}

/// A plain acknowledgement up to a place, in the fields of its record.
fn read_plain_up_to(rest: &[u8]) -> Result<AckEntry, RecordError>
    ensures read { IfOk result (λ entry. IsAckRecord (1 ∷ 2 ∷ rest.now) entry) }
    ensures bad { result ≡ Err RecordError.Bad → (entry : AckEntry) → IsAckRecord (1 ∷ 2 ∷ rest.now) entry → ⊥ }
{
    let Some(place) = only_u64(rest) else {
        return Err(RecordError::Bad);
    };
    Ok(AckEntry::PlainUpTo { place })
}

/// A transaction's hold of places, in the fields of its record.
fn read_hold(alloc: Global, rest: &[u8]) -> Result<AckEntry, RecordError>
    ensures read { IfOk result (λ entry. IsAckRecord (1 ∷ 3 ∷ rest.now) entry) }
    ensures bad { result ≡ Err RecordError.Bad → (entry : AckEntry) → IsAckRecord (1 ∷ 3 ∷ rest.now) entry → ⊥ }
{
    let Some((txn, list)) = take_txn(rest) else {
        return Err(RecordError::Bad);
    };
    let places = read_places(alloc, list)?;
    Ok(AckEntry::Hold { txn, places })
}

/// A transaction's hold up to a place, in the fields of its record.
fn read_hold_up_to(rest: &[u8]) -> Result<AckEntry, RecordError>
    ensures read { IfOk result (λ entry. IsAckRecord (1 ∷ 4 ∷ rest.now) entry) }
    ensures bad { result ≡ Err RecordError.Bad → (entry : AckEntry) → IsAckRecord (1 ∷ 4 ∷ rest.now) entry → ⊥ }
{
    let Some((txn, field)) = take_txn(rest) else {
        return Err(RecordError::Bad);
    };
    let Some(place) = only_u64(field) else {
        return Err(RecordError::Bad);
    };
    Ok(AckEntry::HoldUpTo { txn, place })
}

/// A commit marker, in the fields of its record.
fn read_commit(rest: &[u8]) -> Result<AckEntry, RecordError>
    ensures read { IfOk result (λ entry. IsAckRecord (1 ∷ 5 ∷ rest.now) entry) }
    ensures bad { result ≡ Err RecordError.Bad → (entry : AckEntry) → IsAckRecord (1 ∷ 5 ∷ rest.now) entry → ⊥ }
{
    match only_txn(rest) {
        Some(txn) => Ok(AckEntry::Commit { txn }),
        None => Err(RecordError::Bad),
    }
}

/// An abort marker, in the fields of its record.
fn read_abort(rest: &[u8]) -> Result<AckEntry, RecordError>
    ensures read { IfOk result (λ entry. IsAckRecord (1 ∷ 6 ∷ rest.now) entry) }
    ensures bad { result ≡ Err RecordError.Bad → (entry : AckEntry) → IsAckRecord (1 ∷ 6 ∷ rest.now) entry → ⊥ }
{
    match only_txn(rest) {
        Some(txn) => Ok(AckEntry::Abort { txn }),
        None => Err(RecordError::Bad),
    }
}
