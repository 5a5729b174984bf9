//! Reading the visible messages of a topic.
ghost use Rattle.txn_ledger.specs.Reading.{ReadsOn};
ghost use Rattle.std.specs.Prelude.{◌≡◌, ◌<◌, ◌≤◌, ◌+◌, ◌-◌, ℕ, Err, length, slice_index_or, IfOk, [], None};
ghost use Rattle.txn_base.specs.declared.entry.TopicEntry.{TopicEntry};
ghost use Rattle.txn_base.specs.Decoded.{topic_entry_of};
ghost use Rattle.txn_base.specs.Disk.{Same};
ghost use Rattle.txn_base.specs.Frames.{records};
ghost use Rattle.txn_base.specs.Moves.{After, FaultsIn};
ghost use Rattle.txn_model.specs.Entries as model;
ghost use Rattle.txn_model.specs.Skeletons.{topic_skeleton, topic_skeletons};
ghost use Rattle.txn_model.specs.Topic.{limit_of, read_slice, shows};
ghost use Rattle.txn_records.specs.Topics.{IsMessage};
ghost use Rattle.txn_replay.specs.Reading.{OnlyReads};
ghost use Rattle.txn_buffer.specs.Reading.{ReadsUpTo, is_shown_after};
ghost use Rattle.txn_buffer.specs.Record.{IsInGrammar, IsOutside};
ghost use Rattle.txn_buffer.specs.View.{IsFrontOf, topic_total};

use crate::error::TopicError;
use crate::front::Front;
use crate::record::TopicRecord;
use crate::slice::Slice;
use crate::topic::Topic;
use std::alloc::{AllocError, Global};
use std::sync::ledger;
use txn_base::{Bytes, CoreEntry, Decision, Disk, Message, Messages, Steps, Text};
use txn_ledger::{GetError, RecordLog};
use txn_records::topic_body;

impl<R: RecordLog> Topic<R> {
    /// The visible messages of its front from a place on, at most `max`, within the bounds on a read. It reads the records
    /// one by one, from that place to the first visible message after those given, or to the limit. Where the disk tells
    /// what it holds, and the topic is what its ledger holds, no record is damaged.
    pub fn read<D: Disk, L: ledger::Ledger>(
        &self,
        disk: &mut D,
        first: u64,
        max: u64,
        steps: &mut Steps<L>,
    ) -> Result<Messages, TopicError>
        requires max { 1 ≤ max }
        requires reads { ReadsOn R.RecordLog D.Disk disk.old self.now.content }
        ensures slice { D.tells → IsFrontOf self.now →
            IfOk result (λ messages. messages ≡ read_slice self.now.limits self.now.front first
            max) }
        ensures undamaged { (place : ℕ) → D.tells → IsFrontOf self.now →
            result ≡ Err (TopicError.Damaged place) → ⊥ }
        ensures damaged { (place : ℕ) → result ≡ Err (TopicError.Damaged place) → D.tells →
            IsOutside (slice_index_or (records self.now.content.batches) place []) }
        ensures damaged_place { (place : ℕ) → result ≡ Err (TopicError.Damaged place) →
            (first ≤ place) × (place < limit_of self.now.front) }
        ensures not_full { (count : ℕ) → result ≡ Err (TopicError.Full count) → ⊥ }
        ensures steps_limit { steps.new ≤ steps.old + (limit_of self.now.front - first) }
        ensures steps_least { steps.old ≤ steps.new }
        ensures steps_next { D.tells → IsFrontOf self.now →
            IfOk result (λ messages. ReadsUpTo self.now.front first messages
            (steps.new - steps.old)) }
        ensures seen { D.seen disk.new ≡ D.seen disk.old }
        ensures images { After D.Disk Same disk.old disk.new }
        ensures cause { FaultsIn D.Disk self.now.content.key.part disk.old disk.new
            (result ≡ Err TopicError.Fault) }
    {
        let end = self.front.limit();
        let mut slice = Slice::new(self.alloc, &self.limits, max);
        let mut place = first;
        while place < end {
            let found = self.message_at(disk, place, steps)?;
            if !slice.give(found)? {
                return Ok(slice.into_messages());
            }
            place += 1;
        }
        Ok(slice.into_messages())
    }

    /// What the record at a place shows, where no undecided message stands before it.
    fn message_at<D: Disk, L: ledger::Ledger>(
        &self,
        disk: &mut D,
        place: u64,
        steps: &mut Steps<L>,
    ) -> Result<Option<Message>, TopicError>
        requires place { place < length self.now.front }
        requires reads { ReadsOn R.RecordLog D.Disk disk.old self.now.content }
        ensures shown { D.tells → IsFrontOf self.now →
            IfOk result (λ found. (d : TopicEntry) →
            found ≡ shows (topic_skeletons self.now.front) place
            (slice_index_or self.now.front place d)) }
        ensures damaged { (at : ℕ) → result ≡ Err (TopicError.Damaged at) → at ≡ place }
        ensures outside { (at : ℕ) → result ≡ Err (TopicError.Damaged at) → D.tells →
            IsOutside (slice_index_or (records self.now.content.batches) place []) }
        ensures undamaged { (at : ℕ) → D.tells → IsFrontOf self.now →
            result ≡ Err (TopicError.Damaged at) → ⊥ }
        ensures not_full { (count : ℕ) → result ≡ Err (TopicError.Full count) → ⊥ }
        ensures counted { steps.new ≡ steps.old + 1 }
        ensures reads { OnlyReads D.Disk self.now.content.key.part
            (result ≡ Err TopicError.Fault) disk.old disk.new }
    {
        match self.log.get(disk, place, steps) {
            Ok(bytes) => self.shown_of(&bytes, place),
            Err(GetError::Fault) => Err(TopicError::Fault),
            Err(GetError::NoMemory) => Err(TopicError::NoMemory),
        }
    }

    /// What a record at a place shows.
    fn shown_of(&self, bytes: &Bytes, place: u64) -> Result<Option<Message>, TopicError>
        ensures shown { IfOk result (λ found. found ≡ shows (topic_skeletons self.now.front) place
            (topic_entry_of bytes.now.bytes)) }
        ensures damaged { (at : ℕ) → result ≡ Err (TopicError.Damaged at) →
            (at ≡ place) × IsOutside bytes.now.bytes }
        ensures not_full { (count : ℕ) → result ≡ Err (TopicError.Full count) → ⊥ }
        ensures no_fault { result ≡ Err TopicError.Fault → ⊥ }
    {
        let Some(record) = TopicRecord::read(bytes) else {
            return Err(TopicError::Damaged { place });
        };
        if !is_shown(&self.front, &record) {
            return Ok(None);
        }
        let message = message_of(self.alloc, bytes, place)?;
        Ok(Some(message))
    }
}

/// Whether an entry is a message that is shown where no undecided one stands before it.
fn is_shown(front: &Front, found: &TopicRecord) -> bool
    ensures { result ≡ is_shown_after (topic_skeletons front.now.entries)
        (topic_skeleton found.now) }
{
    match found.entry() {
        CoreEntry::Plain => true,
        CoreEntry::Inside { txn } => front.marker(txn) == Some(Decision::Commit),
        _ => false,
    }
}

/// The message of a record at a place.
fn message_of(alloc: Global, bytes: &Bytes, place: u64) -> Result<Message, AllocError>
    requires grammar { IsInGrammar bytes.now.bytes }
    requires message { IsMessage (topic_entry_of bytes.now.bytes) }
    ensures { IfOk result (λ m. m ≡ model.message_of place (topic_entry_of bytes.now.bytes)) }
{
    let body = String::from_utf8_lossy(alloc, topic_body(bytes.as_slice()))?;
    Ok(Message {
        place,
        body: Text::from_string(body),
    })
}
