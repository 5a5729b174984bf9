//! What a subscription knows of acknowledged places.
ghost use Rattle.std.specs.Prelude.{◌≡◌, ◌<◌, ◌≤◌, ◌+◌, ◌^◌, ℕ, [], ◌∷◌, ◌++◌, OnOk, OnErr, IfSome, IfNone, Some, None, length, true, false};
ghost use Rattle.txn_base.specs.Records.{IsAckEntry, IsTxnId};
ghost use Rattle.txn_base.specs.declared.entry.AckEntry.TheVariants as ack;
ghost use Rattle.txn_model.specs.Skeletons.{ack_skeletons};
ghost use Rattle.txn_model.specs.Topic.{marker_of};
ghost use Rattle.txn_model.specs.Ack.{is_acked, holder_of, held_count, ack_allows, AckLawful};
ghost use Rattle.txn_model.specs.Table.{ack_marker};
ghost use Rattle.indexmap.specs.IndexMap.{get};
ghost use Rattle.txn_holds.specs.Spans.{AllAre};
ghost use Rattle.txn_holds.specs.Taken.{how_taken};
ghost use Rattle.txn_holds.specs.Rows.{IsEnded, same_key, row_of};
ghost use Rattle.txn_holds.specs.Holds.{AreAllAcked, IsFirstUnacked, IsMarked, IsRowEnded, IsUpEnded};
ghost use Rattle.txn_holds.specs.Holds.{ends_of, is_ack, holder_up_to, raised, own_up, left_up};

use crate::entry::{is_same, marker, with_entry};
use crate::rows::{Row, add_places, take_row};
use crate::taken::Taken;
use indexmap::IndexMap;
use std::alloc::{AllocError, Global};
use std::marker::Model;
use txn_base::{AckEntry, ContentCarrier, Decision, FileId, TxnId};

/// The acknowledged and the held places of a subscription's entries. The entries themselves are
/// kept for clauses alone.
#[derive(Drop)]
pub struct Holds {
    alloc: Global,
    front: ContentCarrier,
    /// The places that are acknowledged, or held one by one.
    taken: Taken,
    /// The pending cumulative hold: its place and its transaction.
    up: Option<(u64, TxnId)>,
    /// The places that each transaction holds one by one, by its two numbers.
    rows: IndexMap<(u64, u64), Row>,
    /// The decisions of the markers, by the two numbers of the transaction.
    decisions: IndexMap<(u64, u64), Decision>,
    held: u64,
}

impl Model for Holds {
    ghost use Rattle.indexmap.specs.IndexMap.{get, spare};
    ghost use Rattle.txn_holds.specs.Rows.{same_key};
    ghost use Rattle.txn_holds.specs.Holds.{HoldsView, KeepsHolds, entries_in};

    ghost Value = { HoldsView };

    ghost view = { λ h. record { entries = entries_in h.front.content; ends = spare h.decisions } };

    ghost invariant = { λ h. KeepsHolds (entries_in h.front.content) h.taken h.up (get same_key h.rows) (get same_key h.decisions) h.held };
}

impl Holds {
    /// No entries.
    pub fn new(alloc: Global) -> Holds
        ensures { result.entries ≡ [] }
    {
        Holds {
            alloc,
            front: ContentCarrier::empty(FileId { part: 0, row: 0 }),
            taken: Taken::new(alloc),
            up: None,
            rows: IndexMap::new(alloc),
            decisions: IndexMap::new(alloc),
            held: 0,
        }
    }

    /// Whether a place is acknowledged.
    pub fn is_acked(&self, place: u64) -> bool
        ensures { result ≡ is_acked self.now.entries place }
    {
        is_ack(self.taken.at(place))
    }

    /// The transaction that holds a place.
    pub fn holder(&self, place: u64) -> Option<TxnId>
        ensures { result ≡ holder_of self.now.entries place }
    {
        match self.taken.at(place) {
            Some(owner) => owner,
            None => holder_up_to(self.up, place),
        }
    }

    /// How many places transactions hold one by one.
    pub fn held_count(&self) -> u64
        ensures count { result ≡ held_count self.now.entries }
        ensures lawful { AckLawful self.now.entries }
    {
        self.held
    }

    /// The decision of a transaction's marker.
    pub fn marker(&self, txn: TxnId) -> Option<Decision>
        ensures { result ≡ marker_of (ack_skeletons self.now.entries) txn }
    {
        self.decisions.get(&(txn.most, txn.least)).copied()
    }

    /// The first place that isn't acknowledged.
    pub fn first_unacked(&self) -> Option<u64>
        ensures some { IfSome result (IsFirstUnacked self.now.entries) }
        ensures none { IfNone result (AreAllAcked self.now.entries) }
    {
        self.taken.first()
    }

    /// Makes room for a marker.
    pub fn reserve_end(&mut self) -> Result<(), AllocError>
        ensures entries { self.new.entries ≡ self.old.entries }
        ensures ok { OnOk result (1 ≤ self.new.ends) }
        ensures ends { self.old.ends ≤ self.new.ends }
    {
        self.decisions.reserve(1)
    }

    /// Ends a transaction: its held places are acknowledged or let go. It takes no memory.
    pub fn end(&mut self, txn: TxnId, decision: Decision)
        requires fits { IsTxnId txn }
        requires allowed { ack_allows self.old.entries (ack_marker txn decision) ≡ true }
        requires room { 1 ≤ self.old.ends }
        ensures entries { self.new.entries ≡ self.old.entries ++ ack_marker txn decision ∷ [] }
        ensures ends { self.old.ends ≤ self.new.ends + 1 }
    {
        let count = end_row(&mut self.taken, &mut self.rows, txn, decision);
        self.held -= count;
        self.up = end_up(&mut self.taken, self.up, txn, decision);
        let _ = self.decisions.insert((txn.most, txn.least), decision);
        self.front = with_entry(&self.front, &marker(txn, decision));
    }

    /// Adds an entry. An `Err`, for want of memory, changes nothing.
    pub fn apply(&mut self, entry: &AckEntry) -> Result<(), AllocError>
        requires fits { IsAckEntry entry.now }
        requires allowed { ack_allows self.old.entries entry.now ≡ true }
        ensures ok { OnOk result (self.new.entries ≡ self.old.entries ++ entry.now ∷ []) }
        ensures err { OnErr result (self.new.entries ≡ self.old.entries) }
        ensures ends { self.old.ends ≤ self.new.ends + ends_of entry.now }
    {
        match entry {
            AckEntry::Plain { places } => self.add_plain(entry, places.as_slice()),
            AckEntry::PlainUpTo { place } => {
                self.add_plain_up_to(entry, *place);
                Ok(())
            }
            AckEntry::Hold { txn, places } => self.add_hold(entry, *txn, places.as_slice()),
            AckEntry::HoldUpTo { txn, place } => {
                self.add_hold_up_to(entry, *txn, *place);
                Ok(())
            }
            AckEntry::Commit { txn } => self.add_marker(*txn, Decision::Commit),
            AckEntry::Abort { txn } => self.add_marker(*txn, Decision::Abort),
        }
    }

    fn add_plain(&mut self, entry: &AckEntry, places: &[u64]) -> Result<(), AllocError>
        requires kind { entry.now ≡ ack.Plain places.now }
        requires fits { IsAckEntry entry.now }
        requires allowed { ack_allows self.old.entries entry.now ≡ true }
        ensures ok { OnOk result (self.new.entries ≡ self.old.entries ++ entry.now ∷ []) }
        ensures err { OnErr result (self.new.entries ≡ self.old.entries) }
        ensures ends { self.new.ends ≡ self.old.ends }
    {
        if let Err(failed) = self.taken.acknowledge(places) {
            return Err(failed);
        }
        self.front = with_entry(&self.front, entry);
        Ok(())
    }

    fn add_plain_up_to(&mut self, entry: &AckEntry, place: u64)
        requires kind { entry.now ≡ ack.PlainUpTo place }
        requires fits { IsAckEntry entry.now }
        requires allowed { ack_allows self.old.entries entry.now ≡ true }
        ensures entries { self.new.entries ≡ self.old.entries ++ entry.now ∷ [] }
        ensures ends { self.new.ends ≡ self.old.ends }
    {
        self.taken.acknowledge_up_to(place);
        self.front = with_entry(&self.front, entry);
    }

    fn add_hold(&mut self, entry: &AckEntry, txn: TxnId, places: &[u64]) -> Result<(), AllocError>
        requires kind { entry.now ≡ ack.Hold txn places.now }
        requires fits { IsAckEntry entry.now }
        requires allowed { ack_allows self.old.entries entry.now ≡ true }
        ensures ok { OnOk result (self.new.entries ≡ self.old.entries ++ entry.now ∷ []) }
        ensures err { OnErr result (self.new.entries ≡ self.old.entries) }
        ensures ends { self.new.ends ≡ self.old.ends }
    {
        // So many places as would not be counted have no room in memory.
        let Some(held) = self.held.checked_add(places.len() as u64) else {
            return Err(AllocError);
        };
        if let Err(failed) = self.taken.hold(places, txn) {
            return Err(failed);
        }
        if let Err(failed) = add_places(self.alloc, &mut self.rows, txn, places) {
            self.taken.abort(places, txn);
            return Err(failed);
        }
        self.held = held;
        self.front = with_entry(&self.front, entry);
        Ok(())
    }

    fn add_hold_up_to(&mut self, entry: &AckEntry, txn: TxnId, place: u64)
        requires kind { entry.now ≡ ack.HoldUpTo txn place }
        requires fits { IsAckEntry entry.now }
        requires allowed { ack_allows self.old.entries entry.now ≡ true }
        ensures entries { self.new.entries ≡ self.old.entries ++ entry.now ∷ [] }
        ensures ends { self.new.ends ≡ self.old.ends }
    {
        self.up = Some((raised(self.up, place), txn));
        self.front = with_entry(&self.front, entry);
    }

    fn add_marker(&mut self, txn: TxnId, decision: Decision) -> Result<(), AllocError>
        requires fits { IsTxnId txn }
        requires allowed { ack_allows self.old.entries (ack_marker txn decision) ≡ true }
        ensures ok { OnOk result (IsMarked txn decision self.old.entries self.new.entries) }
        ensures err { OnErr result (self.new.entries ≡ self.old.entries) }
        ensures ends { self.old.ends ≤ self.new.ends + 1 }
    {
        if let Err(failed) = self.reserve_end() {
            return Err(failed);
        }
        self.end(txn, decision);
        Ok(())
    }
}

/// A place that is taken so is acknowledged.
fn is_ack(how: Option<Option<TxnId>>) -> bool
    ensures { result ≡ is_ack how }
{
    match how {
        Some(owner) => owner.is_none(),
        None => false,
    }
}

/// The holder of a place by the cumulative hold.
fn holder_up_to(up: Option<(u64, TxnId)>, place: u64) -> Option<TxnId>
    ensures { result ≡ holder_up_to up place }
{
    let (last, txn) = up?;
    if place <= last { Some(txn) } else { None }
}

/// The place of the cumulative hold, once there is one up to this place.
fn raised(up: Option<(u64, TxnId)>, place: u64) -> u64
    ensures { result ≡ raised up place }
{
    match up {
        Some((last, _)) => last.max(place),
        None => place,
    }
}

/// Ends what a transaction holds one by one, and answers how many places these were.
fn end_row(
    taken: &mut Taken,
    rows: &mut IndexMap<(u64, u64), Row>,
    txn: TxnId,
    decision: Decision,
) -> u64
    requires { AllAre (row_of (get same_key rows.old) txn) (Some (Some txn)) (how_taken taken.old) }
    ensures taken { IsRowEnded decision (row_of (get same_key rows.old) txn) taken.old taken.new }
    ensures rows { IsEnded txn (get same_key rows.old) (get same_key rows.new) }
    ensures count { result ≡ length (row_of (get same_key rows.old) txn) }
{
    let Some(row) = take_row(rows, txn) else {
        return 0;
    };
    match decision {
        Decision::Commit => taken.commit(row.places(), txn),
        Decision::Abort => taken.abort(row.places(), txn),
    }
    row.places().len() as u64
}

/// Ends the cumulative hold if it is of this transaction, and answers the one that is left.
fn end_up(
    taken: &mut Taken,
    up: Option<(u64, TxnId)>,
    txn: TxnId,
    decision: Decision,
) -> Option<(u64, TxnId)>
    ensures taken { IsUpEnded decision (own_up txn up) taken.old taken.new }
    ensures up { result ≡ left_up txn up }
{
    let (last, owner) = up?;
    if !is_same(txn, owner) {
        return up;
    }
    match decision {
        Decision::Commit => taken.acknowledge_up_to(last),
        Decision::Abort => {}
    }
    None
}
