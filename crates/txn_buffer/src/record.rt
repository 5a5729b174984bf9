//! A record of a topic's ledger that was read or written, without its bytes.
ghost use Rattle.std.specs.Prelude.{◌≡◌, IfSome, IfNone};
ghost use Rattle.txn_base.specs.Decoded.{topic_entry_of};
ghost use Rattle.txn_buffer.specs.Record.{IsInGrammar, IsOutside};
ghost use Rattle.txn_base.specs.Records.{IsTopicEntry};
ghost use Rattle.txn_model.specs.Skeletons.{topic_skeleton};

use std::marker::Model;
use txn_base::{Bytes, ContentCarrier, CoreEntry, ReadsContent};
use txn_records::topic_skeleton_of;

/// A record within the grammar, which contracts see as its entry. It keeps the skeleton alone.
#[derive(Drop)]
pub struct TopicRecord {
    pub(crate) carrier: ContentCarrier,
    pub(crate) entry: CoreEntry,
}

impl Model for TopicRecord {
    ghost use Rattle.txn_base.specs.declared.entry.TopicEntry.{TopicEntry};
    ghost use Rattle.txn_buffer.specs.Record.{first_entry, IsOne};

    ghost Value = { TopicEntry };

    ghost view = { λ r. first_entry r.carrier.content.batches };

    ghost invariant = { λ r. IsOne r.carrier.content.batches r.entry };
}

impl TopicRecord {
    /// The record that these bytes are. None exactly where they are outside the grammar.
    pub fn read(bytes: &Bytes) -> Option<TopicRecord>
        ensures some { IfSome result (λ r. r ≡ topic_entry_of bytes.now.bytes) }
        ensures grammar { IfSome result (λ _. IsInGrammar bytes.now.bytes) }
        ensures none { IfNone result (IsOutside bytes.now.bytes) }
    {
        let entry = topic_skeleton_of(bytes.as_slice())?;
        Some(TopicRecord {
            carrier: ContentCarrier::of::<Bytes, OneRecord>(bytes),
            entry,
        })
    }

    /// The record that these bytes are, where that is known.
    pub fn of(bytes: &Bytes, entry: CoreEntry) -> TopicRecord
        requires grammar { IsInGrammar bytes.now.bytes }
        requires skeleton { entry ≡ topic_skeleton (topic_entry_of bytes.now.bytes) }
        ensures { result ≡ topic_entry_of bytes.now.bytes }
    {
        TopicRecord {
            carrier: ContentCarrier::of::<Bytes, OneRecord>(bytes),
            entry,
        }
    }

    /// What its entry is, apart from a body.
    pub fn entry(&self) -> CoreEntry
        ensures skeleton { result ≡ topic_skeleton self.now }
        ensures grammar { IsTopicEntry self.now }
    {
        self.entry
    }
}

struct OneRecord;

impl ReadsContent<Bytes> for OneRecord {
    ghost use Rattle.txn_buffer.specs.Record.{only_record};

    ghost content = { λ b. only_record b.bytes };
}
