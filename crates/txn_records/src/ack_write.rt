//! The records of a subscription's ledger, written.
ghost use Rattle.std.specs.Prelude.{◌≡◌, ◌≤◌, ◌+◌, ◌++◌, length, IfOk};
ghost use Rattle.txn_base.specs.declared.entry.AckEntry.TheVariants as entry;
ghost use Rattle.txn_base.specs.Decoded.{ack_entry_of};
ghost use Rattle.txn_base.specs.Records.{IsAckEntry, IsAckRecord, ack_record};
ghost use Rattle.txn_base.specs.Room.{capacity};
ghost use Rattle.txn_records.specs.Acks.{ack_marker_of};

use crate::fields::{put_head, put_named, put_u64};
use crate::places::put_places;
use std::alloc::{AllocError, Global};
use txn_base::{AckEntry, Bytes, Decision, TxnId};

/// Adds the record of a marker into the free room: a commit marker or an abort marker. It takes no memory.
pub fn put_ack_marker(txn: TxnId, decision: Decision, out: &mut Bytes)
    requires { 18 ≤ out.old.room }
    ensures bytes { out.new.bytes ≡ out.old.bytes ++ ack_record (ack_marker_of txn decision) }
    ensures room { out.old.room ≤ out.new.room + 18 }
    ensures kept { capacity out.old ≤ capacity out.new }
    ensures fits { IsAckEntry (ack_marker_of txn decision) }
{
    match decision {
        Decision::Commit => put_named(out, 5, txn),
        Decision::Abort => put_named(out, 6, txn),
    }
}

/// The record of an entry.
pub fn write_ack(alloc: Global, entry: &AckEntry) -> Result<Bytes, AllocError>
    requires { IsAckEntry entry.now }
    ensures written { IfOk result (λ b. IsAckRecord b.bytes entry.now) }
    ensures entry { IfOk result (λ b. ack_entry_of b.bytes ≡ entry.now) }
{
    let bytes = write_fields(alloc, entry)?;
    Ok(bytes)
}

/// The same, by its kind.
fn write_fields(alloc: Global, entry: &AckEntry) -> Result<Bytes, AllocError>
    requires { IsAckEntry entry.now }
    ensures { IfOk result (λ b. b.bytes ≡ ack_record entry.now) }
{
    match entry {
        AckEntry::Plain { places } => plain_bytes(alloc, places.as_slice()),
        AckEntry::PlainUpTo { place } => plain_up_to_bytes(alloc, *place),
        AckEntry::Hold { txn, places } => hold_bytes(alloc, *txn, places.as_slice()),
        AckEntry::HoldUpTo { txn, place } => hold_up_to_bytes(alloc, *txn, *place),
        AckEntry::Commit { txn } => marker_bytes(alloc, *txn, Decision::Commit),
        AckEntry::Abort { txn } => marker_bytes(alloc, *txn, Decision::Abort),
    }
}

fn plain_bytes(alloc: Global, places: &[u64]) -> Result<Bytes, AllocError>
    requires { length places.now ≤ 256 }
    ensures { IfOk result (λ b. b.bytes ≡ ack_record (entry.Plain places.now)) }
{
    let mut out = Bytes::new(alloc);
    out.reserve(8 * places.len() + 4)?;
    put_head(&mut out, 1);
    put_places(&mut out, places);
    Ok(out)
}

fn plain_up_to_bytes(alloc: Global, place: u64) -> Result<Bytes, AllocError>
    ensures { IfOk result (λ b. b.bytes ≡ ack_record (entry.PlainUpTo place)) }
{
    let mut out = Bytes::new(alloc);
    out.reserve(10)?;
    put_head(&mut out, 2);
    put_u64(&mut out, place);
    Ok(out)
}

fn hold_bytes(alloc: Global, txn: TxnId, places: &[u64]) -> Result<Bytes, AllocError>
    requires { length places.now ≤ 256 }
    ensures { IfOk result (λ b. b.bytes ≡ ack_record (entry.Hold txn places.now)) }
{
    let mut out = Bytes::new(alloc);
    out.reserve(8 * places.len() + 20)?;
    put_named(&mut out, 3, txn);
    put_places(&mut out, places);
    Ok(out)
}

fn hold_up_to_bytes(alloc: Global, txn: TxnId, place: u64) -> Result<Bytes, AllocError>
    ensures { IfOk result (λ b. b.bytes ≡ ack_record (entry.HoldUpTo txn place)) }
{
    let mut out = Bytes::new(alloc);
    out.reserve(26)?;
    put_named(&mut out, 4, txn);
    put_u64(&mut out, place);
    Ok(out)
}

fn marker_bytes(alloc: Global, txn: TxnId, decision: Decision) -> Result<Bytes, AllocError>
    ensures { IfOk result (λ b. b.bytes ≡ ack_record (ack_marker_of txn decision)) }
{
    let mut out = Bytes::new(alloc);
    out.reserve(18)?;
    put_ack_marker(txn, decision, &mut out);
    Ok(out)
}
