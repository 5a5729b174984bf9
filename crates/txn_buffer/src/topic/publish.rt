//! Publishing messages to a topic.
ghost use Rattle.txn_ledger.specs.Reading.{IsBackedOn};
ghost use Rattle.std.specs.Prelude.{◌≡◌, ◌<◌, ◌≤◌, ◌+◌, ◌↔◌, ℕ, IsTrue, [], None, Some, Ok, Err, length, map, All, IfOk, OnOk};
ghost use Rattle.txn_base.specs.declared.file_id.FileId.{FileId};
ghost use Rattle.txn_base.specs.Bytes.{contents_of};
ghost use Rattle.txn_base.specs.Content.{Appends};
ghost use Rattle.txn_base.specs.Disk.{ChangesOnly};
ghost use Rattle.txn_base.specs.Frames.{frame};
ghost use Rattle.txn_base.specs.Decoded.{topic_entry_of};
ghost use Rattle.txn_base.specs.Moves.{FaultsIn, After};
ghost use Rattle.txn_model.specs.Skeletons.{topic_skeletons};
ghost use Rattle.txn_model.specs.Topic.{marker_of};
ghost use Rattle.txn_buffer.specs.Adding.{AreBodies, ArePublished, messages_of, IsUnmarked, opens_for};
ghost use Rattle.txn_buffer.specs.Record.{IsInGrammar};
ghost use Rattle.txn_buffer.specs.View.{IsFrontOf, topic_batch, topic_total, with_entries, with_failed_entries};

use crate::batch::{frame_size, records_of};
use crate::error::TopicError;
use crate::front::Front;
use crate::topic::Topic;
use std::alloc::{AllocError, Global};
use txn_base::{Bytes, Disk, Limits, TxnId};
use txn_ledger::RecordLog;

impl<R: RecordLog> Topic<R> {
    /// Adds messages of no transaction as one batch, and answers the place of the first. It is full exactly where they
    /// don't fit into the bound on records, and tells how many there are.
    pub fn publish<D: Disk>(&mut self, disk: &mut D, bodies: &[Bytes]) -> Result<u64, TopicError>
        requires whole { IsTrue self.old.whole }
        requires bodies { AreBodies self.old.limits (contents_of bodies.now) }
        requires backed { IsBackedOn R.RecordLog D.Disk disk.old self.old.content }
        ensures first { IfOk result (λ place. place ≡ topic_total self.old) }
        ensures ok { OnOk result (self.new ≡ with_entries self.old
            (messages_of None (contents_of bodies.now)) self.old.reserved) }
        ensures full { (result ≡ Err (TopicError.Full (topic_total self.old))) ↔
            (self.old.limits.log < topic_total self.old + length bodies.now) }
        ensures count { (count : ℕ) → result ≡ Err (TopicError.Full count) →
            count ≡ topic_total self.old }
        ensures not_damaged { (place : ℕ) → result ≡ Err (TopicError.Damaged place) → ⊥ }
        ensures fault { result ≡ Err TopicError.Fault →
            self.new ≡ with_failed_entries self.old (messages_of None (contents_of bodies.now)) }
        ensures refused { (count : ℕ) → result ≡ Err (TopicError.Full count) →
            (self.new ≡ self.old) × (disk.new ≡ disk.old) }
        ensures no_memory { result ≡ Err TopicError.NoMemory →
            (self.new ≡ self.old) × (disk.new ≡ disk.old) }
        ensures tied { IsFrontOf self.old → IsFrontOf self.new }
        ensures backed { IsBackedOn R.RecordLog D.Disk disk.new self.new.content }
        ensures images { After D.Disk (Appends R.mine R.stands self.old.content
            (topic_batch (messages_of None (contents_of bodies.now)))) disk.old disk.new }
        ensures others { ChangesOnly (R.mine self.old.content.key) (D.seen disk.old)
            (D.seen disk.new) }
        ensures cause { FaultsIn D.Disk self.old.content.key.part disk.old disk.new
            (result ≡ Err TopicError.Fault) }
    {
        self.add_messages(disk, None, bodies)
    }

    /// The same with messages of a transaction that has no marker here.
    pub fn publish_in<D: Disk>(
        &mut self,
        disk: &mut D,
        txn: TxnId,
        bodies: &[Bytes],
    ) -> Result<u64, TopicError>
        requires whole { IsTrue self.old.whole }
        requires unmarked { marker_of (topic_skeletons self.old.front) txn ≡ None }
        requires bodies { AreBodies self.old.limits (contents_of bodies.now) }
        requires backed { IsBackedOn R.RecordLog D.Disk disk.old self.old.content }
        ensures first { IfOk result (λ place. place ≡ topic_total self.old) }
        ensures ok { OnOk result (self.new ≡ with_entries self.old
            (messages_of (Some txn) (contents_of bodies.now)) self.old.reserved) }
        ensures full { (result ≡ Err (TopicError.Full (topic_total self.old))) ↔
            (self.old.limits.log < topic_total self.old + length bodies.now) }
        ensures count { (count : ℕ) → result ≡ Err (TopicError.Full count) →
            count ≡ topic_total self.old }
        ensures not_damaged { (place : ℕ) → result ≡ Err (TopicError.Damaged place) → ⊥ }
        ensures fault { result ≡ Err TopicError.Fault →
            self.new ≡ with_failed_entries self.old
            (messages_of (Some txn) (contents_of bodies.now)) }
        ensures refused { (count : ℕ) → result ≡ Err (TopicError.Full count) →
            (self.new ≡ self.old) × (disk.new ≡ disk.old) }
        ensures no_memory { result ≡ Err TopicError.NoMemory →
            (self.new ≡ self.old) × (disk.new ≡ disk.old) }
        ensures tied { IsFrontOf self.old → IsFrontOf self.new }
        ensures backed { IsBackedOn R.RecordLog D.Disk disk.new self.new.content }
        ensures images { After D.Disk (Appends R.mine R.stands self.old.content
            (topic_batch (messages_of (Some txn) (contents_of bodies.now)))) disk.old disk.new }
        ensures others { ChangesOnly (R.mine self.old.content.key) (D.seen disk.old)
            (D.seen disk.new) }
        ensures cause { FaultsIn D.Disk self.old.content.key.part disk.old disk.new
            (result ≡ Err TopicError.Fault) }
    {
        self.add_messages(disk, Some(txn), bodies)
    }

    fn add_messages<D: Disk>(
        &mut self,
        disk: &mut D,
        txn: Option<TxnId>,
        bodies: &[Bytes],
    ) -> Result<u64, TopicError>
        requires whole { IsTrue self.old.whole }
        requires unmarked { IsUnmarked self.old.front txn }
        requires bodies { AreBodies self.old.limits (contents_of bodies.now) }
        requires backed { IsBackedOn R.RecordLog D.Disk disk.old self.old.content }
        ensures first { IfOk result (λ place. place ≡ topic_total self.old) }
        ensures ok { OnOk result (self.new ≡ with_entries self.old
            (messages_of txn (contents_of bodies.now)) self.old.reserved) }
        ensures full { (result ≡ Err (TopicError.Full (topic_total self.old))) ↔
            (self.old.limits.log < topic_total self.old + length bodies.now) }
        ensures count { (count : ℕ) → result ≡ Err (TopicError.Full count) →
            count ≡ topic_total self.old }
        ensures not_damaged { (place : ℕ) → result ≡ Err (TopicError.Damaged place) → ⊥ }
        ensures fault { result ≡ Err TopicError.Fault →
            self.new ≡ with_failed_entries self.old (messages_of txn (contents_of bodies.now)) }
        ensures refused { (count : ℕ) → result ≡ Err (TopicError.Full count) →
            (self.new ≡ self.old) × (disk.new ≡ disk.old) }
        ensures no_memory { result ≡ Err TopicError.NoMemory →
            (self.new ≡ self.old) × (disk.new ≡ disk.old) }
        ensures tied { IsFrontOf self.old → IsFrontOf self.new }
        ensures backed { IsBackedOn R.RecordLog D.Disk disk.new self.new.content }
        ensures images { After D.Disk (Appends R.mine R.stands self.old.content
            (topic_batch (messages_of txn (contents_of bodies.now)))) disk.old disk.new }
        ensures others { ChangesOnly (R.mine self.old.content.key) (D.seen disk.old)
            (D.seen disk.new) }
        ensures cause { FaultsIn D.Disk self.old.content.key.part disk.old disk.new
            (result ≡ Err TopicError.Fault) }
    {
        let place = self.log.len();
        if !has_room(&self.limits, place, bodies.len()) {
            return Err(TopicError::Full { count: place });
        }
        let batch = prepare(
            self.alloc,
            &mut self.log,
            &mut self.front,
            self.reserved,
            txn,
            bodies,
        )?;
        if self.log.append(disk, &batch).is_err() {
            self.whole = false;
            self.front = Front::new(self.alloc);
            self.reserved = 0;
            return Err(TopicError::Fault);
        }
        self.front.add_messages(txn, &batch);
        Ok(place)
    }
}

/// Whether so many records more are within the bound.
fn has_room(limits: &Limits, count: u64, more: usize) -> bool
    ensures { IsTrue result ↔ (count + more ≤ limits.now.log) }
{
    count <= limits.log && more as u64 <= limits.log - count
}

/// Takes all the memory of an append of these messages, beside that of the ends that are reserved.
fn prepare<R: RecordLog>(
    alloc: Global,
    log: &mut R,
    front: &mut Front,
    reserved: usize,
    txn: Option<TxnId>,
    bodies: &[Bytes],
) -> Result<Vec<Bytes>, AllocError>
    requires few { reserved ≤ 1 }
    requires bodies { ArePublished (contents_of bodies.now) }
    ensures batch { IfOk result (λ batch. contents_of batch.items ≡ topic_batch
        (messages_of txn (contents_of bodies.now))) }
    ensures entries { IfOk result (λ batch. map topic_entry_of
        (contents_of batch.items) ≡ messages_of txn (contents_of bodies.now)) }
    ensures grammar { IfOk result (λ batch. All IsInGrammar (contents_of batch.items)) }
    ensures spare { OnOk result (length bodies.now + reserved ≤ R.spare log.new) }
    ensures room { IfOk result (λ batch. length
        (frame (contents_of batch.items)) ≤ R.room log.new) }
    ensures opens { OnOk result (opens_for txn (length bodies.now) ≤ front.new.opens) }
    ensures content { R.content log.new ≡ R.content log.old }
    ensures spare_kept { R.spare log.old ≤ R.spare log.new }
    ensures room_kept { R.room log.old ≤ R.room log.new }
    ensures front { front.new.entries ≡ front.old.entries }
    ensures ends { front.old.ends ≤ front.new.ends }
{
    let batch = records_of(alloc, txn, bodies)?;
    log.reserve(bodies.len() + reserved, frame_size(&batch))?;
    if txn.is_some() {
        front.reserve_opens(bodies.len())?;
    }
    Ok(batch)
}
