//! The records of messages, and how long a frame they make.
ghost use Rattle.std.specs.Prelude.{◌≡◌, ◌≤◌, ◌+◌, ◌*◌, ◌^◌, ◌<◌, length, map, All, IfOk, Option};
ghost use Rattle.txn_base.specs.Bytes.{contents_of, only_bytes};
ghost use Rattle.txn_base.specs.Decoded.{topic_entry_of};
ghost use Rattle.txn_base.specs.Frames.{IsRecord, frame};
ghost use Rattle.txn_base.specs.Records.{IsBody, topic_record};
ghost use Rattle.txn_model.specs.Entries.{message_entry};
ghost use Rattle.txn_buffer.specs.Adding.{messages_of, IsPublished};
ghost use Rattle.txn_buffer.specs.Record.{IsInGrammar};
ghost use Rattle.txn_buffer.specs.View.{topic_batch};

use std::alloc::{AllocError, Global};
use txn_base::{Bytes, TxnId};
use txn_records::{opened_record, plain_record};

/// The record of a message, of a transaction or of none.
pub fn record_of(alloc: Global, txn: Option<TxnId>, body: &Bytes) -> Result<Bytes, AllocError>
    requires { IsPublished body.now.bytes }
    ensures bytes { IfOk result (λ b. b.bytes ≡ topic_record (message_entry txn body.now.bytes)) }
    ensures entry { IfOk result (λ b. topic_entry_of b.bytes ≡ message_entry txn body.now.bytes) }
    ensures grammar { IfOk result (λ b. IsInGrammar b.bytes) }
{
    match txn {
        Some(txn) => opened_record(alloc, txn, body.as_slice()),
        None => plain_record(alloc, body.as_slice()),
    }
}

/// The records of messages.
pub fn records_of(
    alloc: Global,
    txn: Option<TxnId>,
    bodies: &[Bytes],
) -> Result<Vec<Bytes>, AllocError>
    requires { All IsPublished (contents_of bodies.now) }
    ensures batch { IfOk result (λ batch. contents_of batch.items ≡ topic_batch
        (messages_of txn (contents_of bodies.now))) }
    ensures entries { IfOk result (λ batch. map topic_entry_of
        (contents_of batch.items) ≡ messages_of txn (contents_of bodies.now)) }
    ensures grammar { IfOk result (λ batch. All IsInGrammar (contents_of batch.items)) }
{
    let mut batch = Vec::new(alloc);
    for body in bodies {
        let record = record_of(alloc, txn, body)?;
        batch.push(record)?;
    }
    Ok(batch)
}

/// How long the frame of a batch is.
pub fn frame_size(batch: &[Bytes]) -> usize
    requires few { length batch.now ≤ 64 }
    requires each { All IsRecord (contents_of batch.now) }
    ensures { result ≡ length (frame (contents_of batch.now)) }
{
    let mut size = 5;
    for record in batch {
        size += record.len() + 2;
    }
    size
}
