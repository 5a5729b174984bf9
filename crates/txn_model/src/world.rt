//! All durable lists together, as types that contracts see as plain lists.
ghost use Rattle.std.specs.Prelude.{◌≡◌, map};
ghost use Rattle.txn_base.specs.Entries.{bare};
ghost use Rattle.txn_model.specs.Lists.{topic_pair, ack_pair};

use std::marker::Model;
use txn_base::{AckEntry, CoordEntry, Texts, TopicEntry};

/// The coordinator's log.
#[derive(Drop)]
pub struct CoordList {
    items: Vec<CoordEntry>,
}

impl Model for CoordList {
    ghost use Rattle.std.specs.Prelude.{List};
    ghost use Rattle.txn_base.specs.declared.entry.CoordEntry.{CoordEntry};

    ghost Value = { List CoordEntry };

    ghost view = { λ l. l.items.items };
}

impl CoordList {
    pub fn from_vec(items: Vec<CoordEntry>) -> CoordList
        ensures { result ≡ items.items }
    {
        CoordList { items }
    }

    pub fn into_vec(self) -> Vec<CoordEntry>
        ensures { result.items ≡ self }
    {
        let CoordList { items } = self;
        items
    }

    pub fn as_slice(&self) -> &[CoordEntry]
        ensures { result.now ≡ self.now }
    {
        self.items.as_slice()
    }
}

/// A topic's ledger, entry by entry. Contracts see its bodies without the room behind them.
#[derive(Drop)]
pub struct TopicEntries {
    items: Vec<TopicEntry>,
}

impl Model for TopicEntries {
    ghost use Rattle.std.specs.Prelude.{List, map};
    ghost use Rattle.txn_base.specs.declared.entry.TopicEntry.{TopicEntry};
    ghost use Rattle.txn_base.specs.Entries.{bare};

    ghost Value = { List TopicEntry };

    ghost view = { λ l. map bare l.items.items };
}

impl TopicEntries {
    pub fn from_vec(items: Vec<TopicEntry>) -> TopicEntries
        ensures { result ≡ map bare items.items }
    {
        TopicEntries { items }
    }

    pub fn into_vec(self) -> Vec<TopicEntry>
        ensures { map bare result.items ≡ self }
    {
        let TopicEntries { items } = self;
        items
    }

    pub fn as_slice(&self) -> &[TopicEntry]
        ensures { map bare result.now ≡ self.now }
    {
        self.items.as_slice()
    }
}

/// A subscription's ledger, entry by entry.
#[derive(Drop)]
pub struct AckEntries {
    items: Vec<AckEntry>,
}

impl Model for AckEntries {
    ghost use Rattle.std.specs.Prelude.{List};
    ghost use Rattle.txn_base.specs.declared.entry.AckEntry.{AckEntry};

    ghost Value = { List AckEntry };

    ghost view = { λ l. l.items.items };
}

impl AckEntries {
    pub fn from_vec(items: Vec<AckEntry>) -> AckEntries
        ensures { result ≡ items.items }
    {
        AckEntries { items }
    }

    pub fn into_vec(self) -> Vec<AckEntry>
        ensures { result.items ≡ self }
    {
        let AckEntries { items } = self;
        items
    }

    pub fn as_slice(&self) -> &[AckEntry]
        ensures { result.now ≡ self.now }
    {
        self.items.as_slice()
    }
}

/// The ledger of the topic of this number.
#[derive(Drop)]
pub struct TopicList {
    pub part: u32,
    pub entries: TopicEntries,
}

/// The ledger of the subscription of this number.
#[derive(Drop)]
pub struct AckList {
    pub part: u32,
    pub entries: AckEntries,
}

/// The topics' ledgers, which contracts see as pairs of a part and its list.
#[derive(Drop)]
pub struct TopicLists {
    items: Vec<TopicList>,
}

impl Model for TopicLists {
    ghost use Rattle.std.specs.Prelude.{ℕ, List, map};
    ghost use Rattle.txn_base.specs.declared.entry.TopicEntry.{TopicEntry};
    ghost use Rattle.txn_model.specs.Lists.{topic_pair};

    ghost Value = { List (ℕ × List TopicEntry) };

    ghost view = { λ l. map topic_pair l.items.items };
}

impl TopicLists {
    pub fn from_vec(items: Vec<TopicList>) -> TopicLists
        ensures { result ≡ map topic_pair items.items }
    {
        TopicLists { items }
    }

    pub fn into_vec(self) -> Vec<TopicList>
        ensures { map topic_pair result.items ≡ self }
    {
        let TopicLists { items } = self;
        items
    }

    pub fn as_slice(&self) -> &[TopicList]
        ensures { map topic_pair result.now ≡ self.now }
    {
        self.items.as_slice()
    }
}

/// The subscriptions' ledgers, which contracts see as pairs of a part and its list.
#[derive(Drop)]
pub struct AckLists {
    items: Vec<AckList>,
}

impl Model for AckLists {
    ghost use Rattle.std.specs.Prelude.{ℕ, List, map};
    ghost use Rattle.txn_base.specs.declared.entry.AckEntry.{AckEntry};
    ghost use Rattle.txn_model.specs.Lists.{ack_pair};

    ghost Value = { List (ℕ × List AckEntry) };

    ghost view = { λ l. map ack_pair l.items.items };
}

impl AckLists {
    pub fn from_vec(items: Vec<AckList>) -> AckLists
        ensures { result ≡ map ack_pair items.items }
    {
        AckLists { items }
    }

    pub fn into_vec(self) -> Vec<AckList>
        ensures { map ack_pair result.items ≡ self }
    {
        let AckLists { items } = self;
        items
    }

    pub fn as_slice(&self) -> &[AckList]
        ensures { map ack_pair result.now ≡ self.now }
    {
        self.items.as_slice()
    }
}

/// All that is durable: the catalog's names, the coordinator's log, and a ledger for each topic and subscription.
#[derive(Drop)]
pub struct World {
    pub names: Texts,
    pub coord: CoordList,
    pub topics: TopicLists,
    pub subs: AckLists,
}
