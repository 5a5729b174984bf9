//! The ended transactions of a snapshot, one after another: each in 16 bytes, and behind it 1 for commit or 2 for abort.
ghost use Rattle.std.specs.Prelude.{◌≡◌, ◌<◌, ◌≤◌, ◌+◌, ◌*◌, ◌^◌, ◌↔◌, ◌∷◌, ◌++◌, ℕ, List, IsTrue, length, min, IfOk, OnOk, IfSome, IfNone, Err, All, AllPairs};
ghost use Rattle.std.specs.List.{flat_map};
ghost use Rattle.byteorder.specs.Endian.{big_bytes};
ghost use Rattle.txn_base.specs.declared.txn.TxnId.{TxnId};
ghost use Rattle.txn_base.specs.declared.txn.Decision.{Decision};
ghost use Rattle.txn_base.specs.Records.{IsEnd, end_bytes, ends_record};
ghost use Rattle.txn_base.specs.Room.{capacity};
ghost use Rattle.txn_base.specs.Snapshots.{ComesBefore};
ghost use Rattle.txn_records.specs.EndsRead.{AddsEnds, AddsRecord, AreCounted, AreEnds, IsRecordOfEnds, counted_ends};

use crate::error::RecordError;
use crate::fields::{put_head, put_txn, put_u16, take_head, take_txn};
use byteorder::{BigEndian, ByteOrder};
use std::alloc::{AllocError, Global};
use txn_base::{Bytes, Decision, TxnId};

/// Adds a transaction and how it ended into the free room.
fn put_end(out: &mut Bytes, end: (TxnId, Decision))
    requires { 17 ≤ out.old.room }
    ensures bytes { out.new.bytes ≡ out.old.bytes ++ end_bytes end }
    ensures room { out.old.room ≤ out.new.room + 17 }
    ensures kept { capacity out.old ≤ capacity out.new }
{
    let (txn, decision) = end;
    put_txn(out, txn);
    match decision {
        Decision::Commit => out.put_byte(1),
        Decision::Abort => out.put_byte(2),
    }
}

/// The record of some ends.
pub fn ends_bytes(alloc: Global, ends: &[(TxnId, Decision)]) -> Result<Bytes, AllocError>
    requires { length ends.now ≤ 3000 }
    ensures { IfOk result (λ b. b.bytes ≡ ends_record ends.now) }
{
    let mut out = Bytes::new(alloc);
    out.reserve(17 * ends.len() + 4)?;
    put_head(&mut out, 2);
    put_u16(&mut out, ends.len() as u16);
    put_ends(&mut out, ends);
    Ok(out)
}

fn put_ends(out: &mut Bytes, ends: &[(TxnId, Decision)])
    requires { 17 * length ends.now ≤ out.old.room }
    ensures { out.new.bytes ≡ out.old.bytes ++ flat_map end_bytes ends.now }
{
    for end in ends {
        put_end(out, *end);
    }
}

/// The end that stands first, and what stands behind it.
fn take_end(bytes: &[u8]) -> Option<((TxnId, Decision), &[u8])>
    ensures some { IfSome result (λ p. bytes.now ≡ end_bytes p.0 ++ p.1.now) }
    ensures fits { IfSome result (λ p. IsEnd p.0) }
    ensures none { IfNone result ((end : TxnId × Decision) (rest : List ℕ) → bytes.now ≡ end_bytes end ++ rest → ⊥) }
{
    let (txn, rest) = take_txn(bytes)?;
    match rest {
        [1, after @ ..] => Some(((txn, Decision::Commit), after)),
        [2, after @ ..] => Some(((txn, Decision::Abort), after)),
        _ => None,
    }
}

/// Adds the ends that these bytes are. `Bad` exactly where they are none.
fn push_ends(found: &mut Vec<(TxnId, Decision)>, bytes: &[u8]) -> Result<(), RecordError>
    ensures ok { OnOk result (AddsEnds found.old.items found.new.items bytes.now) }
    ensures bad { result ≡ Err RecordError.Bad → (ends : List (TxnId × Decision)) → bytes.now ≡ flat_map end_bytes ends → ⊥ }
{
    let mut rest = bytes;
    while rest.len() > 0 {
        let Some((end, after)) = take_end(rest) else {
            return Err(RecordError::Bad);
        };
        let Ok(()) = found.push(end) else {
            return Err(RecordError::NoMemory);
        };
        rest = after;
    }
    Ok(())
}

/// The ends in a record that has so many, still as bytes.
fn items_of(bytes: &[u8], count: usize) -> Option<&[u8]>
    requires { count ≤ 3000 }
    ensures some { IfSome result (λ items. bytes.now ≡ 1 ∷ 2 ∷ (big_bytes 2 count ++ items.now)) }
    ensures size { IfSome result (λ items. length items.now ≡ 17 * count) }
    ensures none { IfNone result ((ends : List (TxnId × Decision)) → length ends ≡ count → bytes.now ≡ ends_record ends → ⊥) }
{
    let (kind, fields) = take_head(bytes)?;
    if kind != 2 {
        return None;
    }
    counted(fields, count)
}

/// The ends behind their count, where there are so many.
#[tactic(auto, using(crate::proofs::EndLists::ends_length, crate::proofs::EndLists::ends_count))]
fn counted(fields: &[u8], count: usize) -> Option<&[u8]>
    requires { count ≤ 3000 }
    ensures some { IfSome result (λ items. fields.now ≡ big_bytes 2 count ++ items.now) }
    ensures size { IfSome result (λ items. length items.now ≡ 17 * count) }
    ensures none { IfNone result ((ends : List (TxnId × Decision)) → length ends ≡ count → fields.now ≡ counted_ends ends → ⊥) }
{
    if fields.len() != 17 * count + 2 {
        return None;
    }
    if BigEndian::read_u16(fields) as usize != count {
        return None;
    }
    Some(&fields[2..])
}

/// Adds the ends of a record that has so many. `Bad` exactly where the bytes are none.
pub fn push_record(
    found: &mut Vec<(TxnId, Decision)>,
    bytes: &[u8],
    count: usize,
) -> Result<(), RecordError>
    requires { count ≤ 3000 }
    ensures ok { OnOk result (AddsRecord found.old.items found.new.items bytes.now count) }
    ensures bad { result ≡ Err RecordError.Bad → (ends : List (TxnId × Decision)) → length ends ≡ count → bytes.now ≡ ends_record ends → ⊥ }
{
    let Some(items) = items_of(bytes, count) else {
        return Err(RecordError::Bad);
    };
    push_ends(found, items)?;
    Ok(())
}

/// Whether these bytes are so many ends, in whatever order.
fn are_ends(bytes: &[u8], count: usize) -> bool
    requires { count < 2 ^ 16 }
    ensures yes { IsTrue result → AreEnds bytes.now count }
    ensures no { (ends : List (TxnId × Decision)) → bytes.now ≡ flat_map end_bytes ends → length ends ≡ count → IsTrue result }
{
    if bytes.len() != 17 * count {
        return false;
    }
    let mut rest = bytes;
    while rest.len() > 0 {
        let Some((_end, after)) = take_end(rest) else {
            return false;
        };
        rest = after;
    }
    true
}

/// Whether these bytes are a count and so many ends.
fn are_counted(fields: &[u8]) -> bool
    ensures yes { IsTrue result → AreCounted fields.now }
    ensures no { (ends : List (TxnId × Decision)) → length ends < 2 ^ 16 → fields.now ≡ counted_ends ends → IsTrue result }
{
    if fields.len() < 2 {
        return false;
    }
    are_ends(&fields[2..], BigEndian::read_u16(fields) as usize)
}

/// Whether these bytes are the record of some ends, in whatever number and order.
pub fn is_ends_record(bytes: &[u8]) -> bool
    ensures { IsTrue result ↔ IsRecordOfEnds bytes.now }
{
    let Some((kind, fields)) = take_head(bytes) else {
        return false;
    };
    if kind != 2 {
        return false;
    }
    are_counted(fields)
}

/// Whether a transaction's id comes before another's.
fn comes_before(x: TxnId, y: TxnId) -> bool
    ensures { IsTrue result ↔ ComesBefore x y }
{
    x.most < y.most || (x.most == y.most && x.least < y.least)
}

/// Whether the ids ascend strictly.
pub fn is_ascending(ends: &[(TxnId, Decision)]) -> bool
    ensures { IsTrue result ↔ AllPairs (λ a b. ComesBefore a.0 b.0) ends.now }
{
    for i in 1..ends.len() {
        if !comes_before(ends[i - 1].0, ends[i].0) {
            return false;
        }
    }
    true
}
