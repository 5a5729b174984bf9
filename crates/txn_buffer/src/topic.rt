//! A topic: what it keeps, and what it tells without a disk.
ghost use Rattle.std.specs.Prelude.{◌≡◌, ◌≤◌, ◌↔◌, IsTrue, [], true, false, length, All, IfOk};
ghost use Rattle.txn_base.specs.Content.{settled};
ghost use Rattle.txn_base.specs.Limits.{InRange};
ghost use Rattle.txn_base.specs.Records.{IsTopicEntry};
ghost use Rattle.txn_model.specs.Skeletons.{topic_skeletons};
ghost use Rattle.txn_model.specs.Topic.{marker_of, limit_of, TopicLawful};
ghost use Rattle.txn_buffer.specs.View.{state_of, topic_total};

mod finish;
mod mend;
mod publish;
mod read;

use crate::front::Front;
use std::alloc::{AllocError, Global};
use std::marker::Model;
use txn_base::{Bytes, Decision, Limits, PartState, TxnId};
use txn_ledger::RecordLog;

/// A topic over a log of records. It keeps neither entries nor bodies: a read takes messages from the disk.
#[derive(Drop)]
pub struct Topic<R: RecordLog> {
    alloc: Global,
    log: R,
    part: u32,
    limits: Limits,
    /// All records were replayed, and nothing is in flight.
    whole: bool,
    front: Front,
    /// Room for the record of a marker.
    marker: Bytes,
    /// For how many ends room is reserved, 0 or 1.
    reserved: usize,
}

impl<R: RecordLog> Model for Topic<R> {
    ghost use Rattle.txn_buffer.specs.View.{TopicView};
    ghost use Rattle.txn_buffer.specs.Topic.{TopicInvariant};

    ghost Value = { TopicView };

    ghost view = { λ t. record { content = R.content t.log; front = t.front.entries; part = t.part; whole = t.whole; reserved = t.reserved; limits = t.limits } };

    ghost invariant = { λ t. TopicInvariant (R.content t.log) t.front t.limits t.whole t.reserved (R.spare t.log) (R.room t.log) t.marker };
}

impl<R: RecordLog> Topic<R> {
    /// A topic over a log, of which nothing was replayed yet.
    pub fn over(alloc: Global, log: R, part: u32, limits: &Limits) -> Result<Topic<R>, AllocError>
        requires { InRange limits.now }
        ensures { IfOk result
            (λ t. t ≡ record {
              content = R.content log;
              front = [];
              part = part;
              whole = false;
              reserved = 0;
              limits = limits.now;
            }) }
    {
        Ok(Topic {
            alloc,
            log,
            part,
            limits: *limits,
            whole: false,
            front: Front::new(alloc),
            marker: Bytes::new(alloc),
            reserved: 0,
        })
    }

    /// Whether it is rebuilt, or how far. The further clauses say what always holds of a topic.
    pub fn state(&self) -> PartState
        ensures value { result ≡ state_of self.now }
        ensures lawful { TopicLawful self.now.front }
        ensures entries { All IsTopicEntry self.now.front }
        ensures within { length self.now.front ≤ topic_total self.now }
        ensures whole { IsTrue self.now.whole → length self.now.front ≡ topic_total self.now }
        ensures settled { IsTrue self.now.whole → self.now.content.standing ≡ settled }
        ensures in_range { InRange self.now.limits }
    {
        let at = self.front.len();
        if self.whole {
            return PartState::Whole;
        }
        PartState::Mending {
            at,
            total: self.log.len(),
        }
    }

    /// Nothing is in flight in its ledger.
    pub fn is_settled(&self) -> bool
        ensures { IsTrue result ↔ (self.now.content.standing ≡ settled) }
    {
        self.log.is_settled()
    }

    pub fn part(&self) -> u32
        ensures { result ≡ self.now.part }
    {
        self.part
    }

    /// The number of records in its ledger.
    pub fn len(&self) -> u64
        ensures { result ≡ topic_total self.now }
    {
        self.log.len()
    }

    /// The number of entries of its front: all of them where it is whole.
    pub fn front(&self) -> u64
        ensures value { result ≡ length self.now.front }
        ensures whole { IsTrue self.now.whole → result ≡ topic_total self.now }
    {
        self.front.len()
    }

    /// The maximum read position of its front, which is kept and not searched.
    pub fn limit(&self) -> u64
        ensures { result ≡ limit_of self.now.front }
    {
        self.front.limit()
    }

    /// How a transaction was ended here, in its front.
    pub fn marker(&self, txn: TxnId) -> Option<Decision>
        ensures { result ≡ marker_of (topic_skeletons self.now.front) txn }
    {
        self.front.marker(txn)
    }
}
