//! Which places are taken: all up to a front are acknowledged, and spans have those past it.
ghost use Rattle.std.specs.Prelude.{◌≡◌, ◌<◌, ◌^◌, ℕ, Option, Some, None, IfSome, IfNone, OnErr, OnOk, true};
ghost use Rattle.txn_holds.specs.Spans.{AllAcked, AllAre, Rises, Same};
ghost use Rattle.txn_holds.specs.Taken.{how_taken, up_to, AreNow, IsUnacked};

use crate::spans::{
    Span, ack_all, ack_up_to, go_on, is_in_front, next_place, put_all, take_all, taken_at,
};
use std::alloc::{AllocError, Global};
use std::collections::BTreeMap;
use std::marker::Model;
use txn_base::TxnId;

/// Places that are acknowledged, or held by a transaction.
#[derive(Drop)]
pub struct Taken {
    /// All places up to it are acknowledged, and the one past it isn't.
    front: Option<u64>,
    spans: BTreeMap<u64, Span>,
}

impl Model for Taken {
    ghost use Rattle.std.specs.Ordering.{nat_cmp};
    ghost use Rattle.std.specs.BTreeMap.{get};
    ghost use Rattle.txn_holds.specs.Taken.{TakenView, IsTaken};

    ghost Value = { TakenView };

    ghost view = { λ t. record { front = t.front; spans = t.spans.entries } };

    ghost invariant = { λ t. IsTaken t.front (get nat_cmp t.spans) };
}

impl Taken {
    /// No place is taken.
    pub fn new(alloc: Global) -> Taken
        ensures { (q : ℕ) → how_taken result q ≡ None }
    {
        Taken {
            front: None,
            spans: BTreeMap::new(alloc),
        }
    }

    /// How a place is taken: acknowledged, or held by a transaction.
    pub fn at(&self, place: u64) -> Option<Option<TxnId>>
        ensures { result ≡ how_taken self.now place }
    {
        if is_in_front(self.front, place) {
            return Some(None);
        }
        taken_at(&self.spans, place)
    }

    /// The first place that isn't acknowledged, if there is one.
    pub fn first(&self) -> Option<u64>
        ensures some { IfSome result (IsUnacked self.now) }
        ensures none { IfNone result (AllAcked (how_taken self.now)) }
    {
        let _ = &self.spans;
        next_place(self.front)
    }

    /// A transaction holds places that aren't taken. An `Err` changes nothing.
    pub fn hold(&mut self, places: &[u64], txn: TxnId) -> Result<(), AllocError>
        requires order { Rises places.now }
        requires free { AllAre places.now None (how_taken self.old) }
        ensures ok { OnOk result (AreNow places.now (Some (Some txn)) self.old self.new) }
        ensures err { OnErr result (Same (how_taken self.old) (how_taken self.new)) }
    {
        if let Err(failed) = put_all(&mut self.spans, places, Some(txn)) {
            return Err(failed);
        }
        Ok(())
    }

    /// Acknowledges places that aren't taken. An `Err` changes nothing.
    pub fn acknowledge(&mut self, places: &[u64]) -> Result<(), AllocError>
        requires order { Rises places.now }
        requires free { AllAre places.now None (how_taken self.old) }
        ensures ok { OnOk result (AreNow places.now (Some None) self.old self.new) }
        ensures err { OnErr result (Same (how_taken self.old) (how_taken self.new)) }
    {
        if let Err(failed) = put_all(&mut self.spans, places, None) {
            return Err(failed);
        }
        ack_all(&mut self.spans, places);
        go_on(&mut self.front, &mut self.spans);
        Ok(())
    }

    /// Acknowledges places that a transaction holds.
    pub fn commit(&mut self, places: &[u64], txn: TxnId)
        requires { AllAre places.now (Some (Some txn)) (how_taken self.old) }
        ensures { AreNow places.now (Some None) self.old self.new }
    {
        let _ = txn;
        ack_all(&mut self.spans, places);
        go_on(&mut self.front, &mut self.spans);
    }

    /// Lets go places that a transaction holds.
    pub fn abort(&mut self, places: &[u64], txn: TxnId)
        requires { AllAre places.now (Some (Some txn)) (how_taken self.old) }
        ensures { AreNow places.now None self.old self.new }
    {
        let _ = txn;
        take_all(&mut self.spans, places);
    }

    /// Acknowledges all places up to one.
    pub fn acknowledge_up_to(&mut self, place: u64)
        ensures { (q : ℕ) → how_taken self.new q ≡ up_to (how_taken self.old) place q }
    {
        if is_in_front(self.front, place) {
            return;
        }
        self.front = Some(ack_up_to(&mut self.spans, place));
        go_on(&mut self.front, &mut self.spans);
    }
}
