//! The records of a topic's ledger, written.
ghost use Rattle.std.specs.Prelude.{◌≡◌, ◌≤◌, ◌+◌, ◌++◌, length, IfOk};
ghost use Rattle.txn_base.specs.declared.entry.TopicEntry.TheVariants as entry;
ghost use Rattle.txn_base.specs.Bytes.{only_bytes};
ghost use Rattle.txn_base.specs.Decoded.{topic_entry_of};
ghost use Rattle.txn_base.specs.Entries.{bare};
ghost use Rattle.txn_base.specs.Records.{IsTxnId, IsTopicEntry, IsTopicRecord, topic_record};
ghost use Rattle.txn_base.specs.Room.{capacity};
ghost use Rattle.txn_records.specs.Topics.{marker_entry};

use crate::fields::{put_head, put_named};
use std::alloc::{AllocError, Global};
use txn_base::{Bytes, Decision, TopicEntry, TxnId};

/// The record of a plain message. It stands in a grammar where the body is a text of at most 32,768 bytes.
pub fn plain_record(alloc: Global, body: &[u8]) -> Result<Bytes, AllocError>
    ensures bytes { IfOk result (λ b. b.bytes ≡ topic_record (entry.Plain (only_bytes body.now))) }
    ensures entry { IfOk result (λ b. topic_entry_of b.bytes ≡ entry.Plain (only_bytes body.now)) }
{
    let mut out = Bytes::new(alloc);
    out.reserve(body.len() + 2)?;
    put_head(&mut out, 1);
    out.put(body);
    Ok(out)
}

/// The record of a transaction's message.
pub fn opened_record(alloc: Global, txn: TxnId, body: &[u8]) -> Result<Bytes, AllocError>
    ensures bytes { IfOk result (λ b. b.bytes ≡ topic_record (entry.Opened txn (only_bytes body.now))) }
    ensures entry { IfOk result (λ b. topic_entry_of b.bytes ≡ entry.Opened txn (only_bytes body.now)) }
    ensures fits { IfOk result (λ _. IsTxnId txn) }
{
    let mut out = Bytes::new(alloc);
    out.reserve(body.len() + 18)?;
    put_named(&mut out, 2, txn);
    out.put(body);
    Ok(out)
}

/// Adds the record of a marker into the free room: a commit marker or an abort marker. It takes no memory.
pub fn put_marker(txn: TxnId, decision: Decision, out: &mut Bytes)
    requires { 18 ≤ out.old.room }
    ensures bytes { out.new.bytes ≡ out.old.bytes ++ topic_record (marker_entry txn decision) }
    ensures room { out.old.room ≤ out.new.room + 18 }
    ensures kept { capacity out.old ≤ capacity out.new }
    ensures fits { IsTopicEntry (marker_entry txn decision) }
{
    match decision {
        Decision::Commit => put_named(out, 3, txn),
        Decision::Abort => put_named(out, 4, txn),
    }
}

/// The record of a marker.
pub fn marker_record(alloc: Global, txn: TxnId, decision: Decision) -> Result<Bytes, AllocError>
    ensures written { IfOk result (λ b. IsTopicRecord b.bytes (marker_entry txn decision)) }
    ensures entry { IfOk result (λ b. topic_entry_of b.bytes ≡ marker_entry txn decision) }
{
    let mut out = Bytes::new(alloc);
    out.reserve(18)?;
    put_marker(txn, decision, &mut out);
    Ok(out)
}

/// The record of an entry.
pub fn write_topic(alloc: Global, entry: &TopicEntry) -> Result<Bytes, AllocError>
    requires { IsTopicEntry entry.now }
    ensures written { IfOk result (λ b. IsTopicRecord b.bytes entry.now) }
    ensures entry { IfOk result (λ b. topic_entry_of b.bytes ≡ bare entry.now) }
{
    match entry {
        TopicEntry::Plain { body } => plain_record(alloc, body.as_slice()),
        TopicEntry::Opened { txn, body } => opened_record(alloc, *txn, body.as_slice()),
        TopicEntry::Commit { txn } => marker_record(alloc, *txn, Decision::Commit),
        TopicEntry::Abort { txn } => marker_record(alloc, *txn, Decision::Abort),
    }
}
