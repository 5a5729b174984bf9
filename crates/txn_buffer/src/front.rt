//! The front of a topic's list that was replayed: which markers stand there, and where the limit is.
ghost use Rattle.std.specs.Prelude.{◌≡◌, ◌<◌, ◌≤◌, ◌+◌, ◌-◌, ◌^◌, [], ◌∷◌, ◌++◌, length, map, true, OnOk, OnErr, All};
ghost use Rattle.std.specs.VecDeque.{deque_len, deque_capacity};
ghost use Rattle.indexmap.specs.IndexMap.{get};
ghost use Rattle.txn_base.specs.Decoded.{topic_entries};
ghost use Rattle.txn_base.specs.Bytes.{contents_of};
ghost use Rattle.txn_base.specs.Decoded.{topic_entry_of};
ghost use Rattle.txn_buffer.specs.Adding.{message_kind, IsUnmarked, IsMessageOf, opens_for};
ghost use Rattle.txn_buffer.specs.Front.{waiting, key_of, same_key, opens_of, ends_of};
ghost use Rattle.txn_base.specs.declared.core_entry.CoreEntry.TheVariants as core;
ghost use Rattle.txn_base.specs.Records.{IsTopicEntry};
ghost use Rattle.txn_model.specs.Skeletons.{topic_skeleton, topic_skeletons};
ghost use Rattle.txn_model.specs.Topic.{marker_of, limit_of, part_allows, TopicLawful};

use crate::record::TopicRecord;
use indexmap::IndexMap;
use std::alloc::{AllocError, Global};
use std::collections::VecDeque;
use std::marker::Model;
use txn_base::{Bytes, ContentCarrier, CoreEntry, Decision, FileId, ReadsContent, TxnId};

/// What is kept of the front of a topic's list: neither entries nor bodies. Contracts see the entries, as ghost data.
#[derive(Drop)]
pub struct Front {
    carrier: ContentCarrier,
    /// The number of entries.
    count: u64,
    /// The decisions of the markers, by the two numbers of the transaction.
    decisions: IndexMap<(u64, u64), Decision>,
    /// The messages of transactions from the limit on, each with its place.
    pending: VecDeque<(u64, TxnId)>,
}

impl Model for Front {
    ghost use Rattle.std.specs.Prelude.{◌-◌};
    ghost use Rattle.std.specs.VecDeque.{deque_len, deque_capacity};
    ghost use Rattle.indexmap.specs.IndexMap.{get, spare};
    ghost use Rattle.txn_base.specs.Decoded.{topic_entries};
    ghost use Rattle.txn_buffer.specs.Front.{FrontView, IsFrontTable, key_of, same_key};

    ghost Value = { FrontView };

    ghost view = { λ f. record { entries = topic_entries f.carrier.content.batches; opens = deque_capacity f.pending - deque_len f.pending; ends = spare f.decisions } };

    ghost invariant = { λ f. IsFrontTable (topic_entries f.carrier.content.batches) f.count (λ x. get same_key f.decisions (key_of x)) f.pending.items };
}

impl Front {
    /// No entries.
    pub fn new(alloc: Global) -> Front
        ensures { result.entries ≡ [] }
    {
        Front {
            carrier: ContentCarrier::empty(FileId { part: 0, row: 0 }),
            count: 0,
            decisions: IndexMap::new(alloc),
            pending: VecDeque::new(alloc),
        }
    }

    /// The number of entries.
    pub fn len(&self) -> u64
        ensures value { result ≡ length self.now.entries }
        ensures lawful { TopicLawful self.now.entries }
        ensures each { All IsTopicEntry self.now.entries }
    {
        self.count
    }

    /// The maximum read position.
    pub fn limit(&self) -> u64
        ensures { result ≡ limit_of self.now.entries }
    {
        match self.pending.front() {
            Some((place, _)) => *place,
            None => self.count,
        }
    }

    /// The decision of a transaction's marker.
    pub fn marker(&self, txn: TxnId) -> Option<Decision>
        ensures { result ≡ marker_of (topic_skeletons self.now.entries) txn }
    {
        self.decisions.get(&(txn.most, txn.least)).copied()
    }

    /// Makes room for so many messages of transactions.
    pub fn reserve_opens(&mut self, count: usize) -> Result<(), AllocError>
        ensures entries { self.new.entries ≡ self.old.entries }
        ensures ok { OnOk result (count ≤ self.new.opens) }
        ensures opens { self.old.opens ≤ self.new.opens }
        ensures ends { self.old.ends ≤ self.new.ends }
    {
        self.pending.reserve(count)
    }

    /// Makes room for so many markers.
    pub fn reserve_ends(&mut self, count: usize) -> Result<(), AllocError>
        ensures entries { self.new.entries ≡ self.old.entries }
        ensures ok { OnOk result (count ≤ self.new.ends) }
        ensures opens { self.old.opens ≤ self.new.opens }
        ensures ends { self.old.ends ≤ self.new.ends }
    {
        self.decisions.reserve(count)
    }

    /// Adds an entry.
    pub fn add(&mut self, added: &TopicRecord)
        requires count { length self.old.entries + 1 < 2 ^ 64 }
        requires allowed { part_allows (topic_skeletons self.old.entries)
            (topic_skeleton added.now) ≡ true }
        requires opens { opens_of added.now ≤ self.old.opens }
        requires ends { ends_of added.now ≤ self.old.ends }
        ensures entries { self.new.entries ≡ self.old.entries ++ added.now ∷ [] }
        ensures opens { self.old.opens ≤ self.new.opens + opens_of added.now }
        ensures ends { self.old.ends ≤ self.new.ends + ends_of added.now }
    {
        match added.entry() {
            CoreEntry::Inside { txn } => self.add_message(txn, added),
            CoreEntry::Marker { txn, decision } => self.add_marker(txn, decision, added),
            _ => self.add_plain(added),
        }
    }

    /// Adds entries, each allowed after those before it.
    pub fn add_each(&mut self, added: &[TopicRecord])
        requires count { length self.old.entries + length added.now < 2 ^ 64 }
        requires lawful { TopicLawful (self.old.entries ++ added.now) }
        requires opens { length added.now ≤ self.old.opens }
        requires ends { length added.now ≤ self.old.ends }
        ensures { self.new.entries ≡ self.old.entries ++ added.now }
    {
        for one in added {
            self.add(one);
        }
    }

    /// Adds messages of a transaction without a marker, or of none.
    pub fn add_messages(&mut self, txn: Option<TxnId>, batch: &[Bytes])
        requires count { length self.old.entries + length batch.now < 2 ^ 64 }
        requires unmarked { IsUnmarked self.old.entries txn }
        requires opens { opens_for txn (length batch.now) ≤ self.old.opens }
        requires each { All (IsMessageOf txn) (contents_of batch.now) }
        ensures entries { self.new.entries ≡ self.old.entries ++ map topic_entry_of
            (contents_of batch.now) }
        ensures ends { self.old.ends ≤ self.new.ends }
    {
        let kind = kind_of(txn);
        for bytes in batch {
            self.add(&TopicRecord::of(bytes, kind));
        }
    }

    fn add_plain(&mut self, added: &TopicRecord)
        requires count { length self.old.entries + 1 < 2 ^ 64 }
        requires kind { topic_skeleton added.now ≡ core.Plain }
        ensures entries { self.new.entries ≡ self.old.entries ++ added.now ∷ [] }
        ensures opens { self.old.opens ≡ self.new.opens }
        ensures ends { self.old.ends ≡ self.new.ends }
    {
        self.carrier = joined(&self.carrier, added);
        self.count += 1;
    }

    fn add_message(&mut self, txn: TxnId, added: &TopicRecord)
        requires count { length self.old.entries + 1 < 2 ^ 64 }
        requires kind { topic_skeleton added.now ≡ core.Inside txn }
        requires allowed { part_allows (topic_skeletons self.old.entries)
            (topic_skeleton added.now) ≡ true }
        requires opens { 1 ≤ self.old.opens }
        ensures entries { self.new.entries ≡ self.old.entries ++ added.now ∷ [] }
        ensures opens { self.old.opens ≤ self.new.opens + 1 }
        ensures ends { self.old.ends ≡ self.new.ends }
    {
        self.pending.push_back_reserved((self.count, txn));
        self.carrier = joined(&self.carrier, added);
        self.count += 1;
    }

    fn add_marker(&mut self, txn: TxnId, decision: Decision, added: &TopicRecord)
        requires count { length self.old.entries + 1 < 2 ^ 64 }
        requires kind { topic_skeleton added.now ≡ core.Marker txn decision }
        requires allowed { part_allows (topic_skeletons self.old.entries)
            (topic_skeleton added.now) ≡ true }
        requires ends { 1 ≤ self.old.ends }
        ensures entries { self.new.entries ≡ self.old.entries ++ added.now ∷ [] }
        ensures opens { self.old.opens ≤ self.new.opens }
        ensures ends { self.old.ends ≤ self.new.ends + 1 }
    {
        let _ = self.decisions.insert((txn.most, txn.least), decision);
        drop_decided(&self.decisions, &mut self.pending);
        self.carrier = joined(&self.carrier, added);
        self.count += 1;
    }
}

/// The skeleton of a message, of a transaction or of none.
fn kind_of(txn: Option<TxnId>) -> CoreEntry
    ensures { result ≡ message_kind txn }
{
    match txn {
        Some(txn) => CoreEntry::Inside { txn },
        None => CoreEntry::Plain,
    }
}

/// Drops the messages at the front whose transaction is decided.
fn drop_decided(decisions: &IndexMap<(u64, u64), Decision>, pending: &mut VecDeque<(u64, TxnId)>)
    ensures pending { pending.new.items ≡ waiting
        (λ x. get same_key decisions.now (key_of x)) pending.old.items }
    ensures room { deque_capacity pending.old - deque_len pending.old ≤ deque_capacity pending.new -
        deque_len pending.new }
{
    while let Some((_, txn)) = pending.front() {
        if decisions.get(&(txn.most, txn.least)).is_none() {
            return;
        }
        let _ = pending.pop_front();
    }
}

/// These batches, and the record behind them.
fn joined(batches: &ContentCarrier, added: &TopicRecord) -> ContentCarrier
    ensures entries { topic_entries result.content.batches ≡ topic_entries
        batches.now.content.batches ++ added.now ∷ [] }
    ensures grammar { IsTopicEntry added.now }
{
    ContentCarrier::of::<(&ContentCarrier, &ContentCarrier), BothOf>(&(batches, &added.carrier))
}

struct BothOf;

impl<'a, 'b> ReadsContent<(&'a ContentCarrier, &'b ContentCarrier)> for BothOf {
    ghost use Rattle.std.specs.Prelude.{◌++◌};

    ghost content = { λ x. record { key = x.0.now.content.key; batches = x.0.now.content.batches ++ x.1.now.content.batches; standing = x.0.now.content.standing } };
}
