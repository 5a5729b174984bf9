//! The entries of the ledgers.
use crate::bytes::Bytes;
use crate::places::Places;
use crate::txn::TxnId;

/// An entry of the coordinator's log. The deadline is a moment in milliseconds.
#[derive(Clone, Copy, Debug, PartialEq, Eq)]
pub enum CoordEntry {
    New { txn: TxnId, deadline: u64 },
    AddPart { txn: TxnId, part: u32 },
    Committing { txn: TxnId },
    Committed { txn: TxnId },
    Aborting { txn: TxnId },
    Aborted { txn: TxnId },
}

/// An entry of a topic's ledger: a plain message, one of a transaction, or a marker that ends a transaction here.
#[derive(Drop)]
pub enum TopicEntry {
    Plain { body: Bytes },
    Opened { txn: TxnId, body: Bytes },
    Commit { txn: TxnId },
    Abort { txn: TxnId },
}

/// An entry of a subscription's ledger: acknowledgements, holds of a transaction, or a marker that ends it here.
/// An individual one lists places, a cumulative one covers all up to its place.
#[derive(Drop)]
pub enum AckEntry {
    Plain { places: Places },
    PlainUpTo { place: u64 },
    Hold { txn: TxnId, places: Places },
    HoldUpTo { txn: TxnId, place: u64 },
    Commit { txn: TxnId },
    Abort { txn: TxnId },
}
