//! What an entry of any ledger is, apart from its content.
use crate::txn::{Decision, TxnId};

/// The skeleton of an entry of any ledger: without its body, places and deadline. `Inside` is a message or a hold of
/// a transaction.
#[derive(Clone, Copy, Debug, PartialEq, Eq)]
pub enum CoreEntry {
    Plain,
    Inside { txn: TxnId },
    Marker { txn: TxnId, decision: Decision },
    New { txn: TxnId },
    AddPart { txn: TxnId, part: u32 },
    Committing { txn: TxnId },
    Committed { txn: TxnId },
    Aborting { txn: TxnId },
    Aborted { txn: TxnId },
}
