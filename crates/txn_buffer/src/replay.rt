//! The front of a topic, as what a replay rebuilds.
ghost use Rattle.std.specs.Prelude.{◌≡◌, ◌≤◌, ◌++◌, OnOk, is_none, is_some};
ghost use Rattle.txn_model.specs.Skeletons.{topic_skeleton, topic_skeletons};
ghost use Rattle.txn_model.specs.Topic as topic;
ghost use Rattle.txn_model.specs.Topic.{marker_of, part_allows};

use crate::front::Front;
use crate::record::TopicRecord;
use std::alloc::AllocError;
use txn_base::{Bytes, CoreEntry, TxnId};
use txn_replay::{Grammar, Stages};

impl Grammar for Front {
    ghost use Rattle.txn_base.specs.Decoded.{topic_entry_of};
    ghost use Rattle.txn_base.specs.Records.{IsTopicRecord};
    ghost use Rattle.txn_buffer.specs.ReplayLaws as laws;

    type Entry = TopicRecord;

    ghost entry_of = { topic_entry_of };

    ghost is_record = { IsTopicRecord };

    ghost allows = { laws.allows };

    ghost lawful = { laws.IsLawful };

    ghost goes_on = { laws.one_more };

    ghost ends_in = { laws.one_less };
}

impl Stages for Front {
    ghost front = { λ f. f.entries };

    ghost rule = { λ _. 0 };

    fn read(&self, bytes: &Bytes) -> Option<TopicRecord> {
        TopicRecord::read(bytes)
    }

    fn allows(&self, staged: &[TopicRecord], entry: &TopicRecord) -> bool {
        is_allowed(self, staged, entry)
    }

    fn add_all(&mut self, staged: &[TopicRecord]) -> Result<(), AllocError> {
        reserve(self, staged.len())?;
        self.add_each(staged);
        Ok(())
    }
}

/// Makes room for so many entries of any kind.
fn reserve(front: &mut Front, count: usize) -> Result<(), AllocError>
    ensures entries { front.new.entries ≡ front.old.entries }
    ensures opens { OnOk result (count ≤ front.new.opens) }
    ensures ends { OnOk result (count ≤ front.new.ends) }
{
    front.reserve_opens(count)?;
    front.reserve_ends(count)?;
    Ok(())
}

/// Whether a record is allowed after the front and those behind it.
fn is_allowed(front: &Front, staged: &[TopicRecord], found: &TopicRecord) -> bool
    ensures { result ≡ part_allows (topic_skeletons (front.now.entries ++ staged.now))
        (topic_skeleton found.now) }
{
    match found.entry() {
        CoreEntry::Plain => true,
        CoreEntry::Inside { txn } => is_unmarked(front, staged, txn),
        CoreEntry::Marker { txn, .. } => is_unmarked(front, staged, txn),
        _ => false,
    }
}

/// Whether no marker of a transaction stands in the front or behind it.
fn is_unmarked(front: &Front, staged: &[TopicRecord], txn: TxnId) -> bool
    ensures { result ≡ is_none (marker_of (topic_skeletons (front.now.entries ++ staged.now)) txn) }
{
    front.marker(txn).is_none() && !has_marker(staged, txn)
}

/// Whether a marker of a transaction stands among these records.
fn has_marker(staged: &[TopicRecord], txn: TxnId) -> bool
    ensures { result ≡ is_some (marker_of (topic_skeletons staged.now) txn) }
{
    for found in staged {
        if marks(found.entry(), txn) {
            return true;
        }
    }
    false
}

/// Whether an entry is a marker of a transaction.
fn marks(entry: CoreEntry, txn: TxnId) -> bool
    ensures { result ≡ is_some (topic.marks txn entry) }
{
    match entry {
        CoreEntry::Marker { txn: other, .. } => txn.most == other.most && txn.least == other.least,
        _ => false,
    }
}
