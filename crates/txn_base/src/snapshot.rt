//! A snapshot of a topic.
ghost use Rattle.std.specs.Prelude.{◌≡◌};

use crate::txn::{Decision, TxnId};
use std::marker::Model;

/// The transactions that ended in a topic, in order of the id, each with its decision.
#[derive(Drop)]
pub struct Ends {
    items: Vec<(TxnId, Decision)>,
}

impl Model for Ends {
    ghost use Rattle.std.specs.Prelude.{List};
    ghost use Rattle.txn_base.specs.declared.txn.TxnId.{TxnId};
    ghost use Rattle.txn_base.specs.declared.txn.Decision.{Decision};

    ghost Value = { List (TxnId × Decision) };

    ghost view = { λ e. e.items.items };
}

impl Ends {
    pub fn from_vec(items: Vec<(TxnId, Decision)>) -> Ends
        ensures { result ≡ items.items }
    {
        Ends { items }
    }

    pub fn as_slice(&self) -> &[(TxnId, Decision)]
        ensures { result.now ≡ self.now }
    {
        self.items.as_slice()
    }
}

/// What a topic's first entries come to: how many they are, the maximum read position after them, and the
/// transactions with a marker among them.
#[derive(Drop)]
pub struct Snapshot {
    pub entries: u64,
    pub limit: u64,
    pub ends: Ends,
}
