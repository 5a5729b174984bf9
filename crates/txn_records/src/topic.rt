//! The records of a topic's ledger, read.
ghost use Rattle.std.specs.Prelude.{◌≡◌, ◌≤◌, ◌↔◌, IsTrue, ◌∷◌, length, IfOk, IfErr, IfSome, IfNone};
ghost use Rattle.txn_base.specs.declared.entry.TopicEntry.{TopicEntry};
ghost use Rattle.txn_base.specs.Bytes.{only_bytes};
ghost use Rattle.txn_base.specs.Decoded.{topic_entry_of};
ghost use Rattle.txn_base.specs.Entries.{bare};
ghost use Rattle.txn_base.specs.Records.{IsBody, IsTopicRecord};
ghost use Rattle.txn_records.specs.Topics.{IsMessage, message_body, topic_skeleton, entry_in_place};

use crate::error::RecordError;
use crate::fields::{only_txn, take_head, take_txn};
use std::alloc::Global;
use txn_base::{Bytes, CoreEntry, Decision, TopicEntry, TxnId};

/// An entry whose body stands where it was read.
enum InPlace<'a> {
    Plain { body: &'a [u8] },
    Opened { txn: TxnId, body: &'a [u8] },
    Commit { txn: TxnId },
    Abort { txn: TxnId },
}

/// Whether these bytes are a text of at most 32,768 bytes.
fn is_body(bytes: &[u8]) -> bool
    ensures { IsTrue result ↔ IsBody (only_bytes bytes.now) }
{
    bytes.len() <= 32_768 && str::from_utf8(bytes).is_ok()
}

/// A plain message, in the fields of its record.
fn plain_in_place(rest: &[u8]) -> Option<InPlace<'_>>
    ensures some { IfSome result (λ found. IsTopicRecord (1 ∷ 1 ∷ rest.now) (entry_in_place found)) }
    ensures none { IfNone result ((entry : TopicEntry) → IsTopicRecord (1 ∷ 1 ∷ rest.now) entry → ⊥) }
{
    if !is_body(rest) {
        return None;
    }
    Some(InPlace::Plain { body: rest })
}

/// A transaction's message, in the fields of its record.
fn opened_in_place(rest: &[u8]) -> Option<InPlace<'_>>
    ensures some { IfSome result (λ found. IsTopicRecord (1 ∷ 2 ∷ rest.now) (entry_in_place found)) }
    ensures none { IfNone result ((entry : TopicEntry) → IsTopicRecord (1 ∷ 2 ∷ rest.now) entry → ⊥) }
{
    let (txn, body) = take_txn(rest)?;
    if !is_body(body) {
        return None;
    }
    Some(InPlace::Opened { txn, body })
}

/// The entry of a record, with its body in place. None where the bytes aren't in the grammar.
fn read_in_place(bytes: &[u8]) -> Option<InPlace<'_>>
    ensures some { IfSome result (λ found. IsTopicRecord bytes.now (entry_in_place found)) }
    ensures none { IfNone result ((entry : TopicEntry) → IsTopicRecord bytes.now entry → ⊥) }
{
    let (kind, rest) = take_head(bytes)?;
    match kind {
        1 => plain_in_place(rest),
        2 => opened_in_place(rest),
        3 => Some(InPlace::Commit {
            txn: only_txn(rest)?,
        }),
        4 => Some(InPlace::Abort {
            txn: only_txn(rest)?,
        }),
        _ => None,
    }
}

/// What the entry of a record is, apart from its body, which isn't copied. None exactly where the bytes aren't in the
/// grammar of version 1.
pub fn topic_skeleton_of(bytes: &[u8]) -> Option<CoreEntry>
    ensures read { IfSome result (λ _. IsTopicRecord bytes.now (topic_entry_of bytes.now)) }
    ensures skeleton { IfSome result (λ s. s ≡ topic_skeleton (topic_entry_of bytes.now)) }
    ensures none { IfNone result ((entry : TopicEntry) → IsTopicRecord bytes.now entry → ⊥) }
{
    let found = read_in_place(bytes)?;
    Some(skeleton_in_place(found))
}

/// What an entry is, apart from its body.
fn skeleton_in_place(found: InPlace<'_>) -> CoreEntry
    ensures { result ≡ topic_skeleton (entry_in_place found.entry) }
{
    match found {
        InPlace::Plain { body: _ } => CoreEntry::Plain,
        InPlace::Opened { txn, body: _ } => CoreEntry::Inside { txn },
        InPlace::Commit { txn } => CoreEntry::Marker {
            txn,
            decision: Decision::Commit,
        },
        InPlace::Abort { txn } => CoreEntry::Marker {
            txn,
            decision: Decision::Abort,
        },
    }
}

/// The entry of a record of version 1. `Bad` exactly where the bytes aren't in the grammar; `NoMemory` is want of memory
/// for the body.
pub fn read_topic(alloc: Global, bytes: &[u8]) -> Result<TopicEntry, RecordError>
    ensures read { IfOk result (λ entry. IsTopicRecord bytes.now entry) }
    ensures entry { IfOk result (λ entry. bare entry ≡ topic_entry_of bytes.now) }
    ensures bad { result ≡ Err RecordError.Bad → (entry : TopicEntry) → IsTopicRecord bytes.now entry → ⊥ }
{
    match read_in_place(bytes) {
        None => Err(RecordError::Bad),
        Some(InPlace::Plain { body }) => Ok(TopicEntry::Plain {
            body: copied(alloc, body)?,
        }),
        Some(InPlace::Opened { txn, body }) => Ok(TopicEntry::Opened {
            txn,
            body: copied(alloc, body)?,
        }),
        Some(InPlace::Commit { txn }) => Ok(TopicEntry::Commit { txn }),
        Some(InPlace::Abort { txn }) => Ok(TopicEntry::Abort { txn }),
    }
}

/// A copy of a body.
fn copied(alloc: Global, body: &[u8]) -> Result<Bytes, RecordError>
    ensures ok { IfOk result (λ b. b.bytes ≡ body.now) }
    ensures err { IfErr result (λ e. e ≡ RecordError.NoMemory) }
{
    match Bytes::from_slice(alloc, body) {
        Ok(copy) => Ok(copy),
        Err(_) => Err(RecordError::NoMemory),
    }
}

/// The body of a message, in its record.
pub fn topic_body(bytes: &[u8]) -> &[u8]
    requires in_grammar { IsTopicRecord bytes.now (topic_entry_of bytes.now) }
    requires message { IsMessage (topic_entry_of bytes.now) }
    ensures body { result.now ≡ message_body (topic_entry_of bytes.now) }
    ensures fits { IsBody (only_bytes result.now) }
{
    if bytes[1] == 1 {
        &bytes[2..]
    } else {
        &bytes[18..]
    }
}
