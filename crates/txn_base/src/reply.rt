//! What a client is told.
use crate::messages::Messages;
use crate::text::Text;
use crate::txn::{Decision, Status, TxnId};

/// The answer to a line.
#[derive(Drop)]
pub enum Reply {
    New {
        txn: TxnId,
    },
    Add,
    Publish {
        place: u64,
        count: u64,
    },
    Ack,
    AckUpTo,
    Ended {
        decision: Decision,
        outcome: Outcome,
    },
    Status {
        status: Status,
    },
    Read {
        limit: u64,
        messages: Messages,
    },
    Receive {
        messages: Messages,
    },
    Redeliver,
    Tick {
        now: u64,
        left: u64,
        drove: Option<Driven>,
    },
    Stop,
    No(Refusal),
}

/// The status after an end, and where its drive stopped if it did.
#[derive(Drop)]
pub struct Outcome {
    pub status: Status,
    pub stuck: Option<Stuck>,
}

/// The part at which a drive stopped, and why.
#[derive(Drop)]
pub struct Stuck {
    pub part: Text,
    pub why: Why,
}

/// Why a drive stopped.
#[derive(Clone, Copy, PartialEq, Eq)]
pub enum Why {
    Fault,
    Recovering,
    Memory,
}

/// The transaction that a tick drove, and how far.
#[derive(Drop)]
pub struct Driven {
    pub txn: TxnId,
    pub outcome: Outcome,
}

/// What is full.
#[derive(Clone, Copy, Debug, PartialEq, Eq)]
pub enum What {
    Transactions,
    Log,
    Held,
}

/// Why a line was refused.
#[derive(Drop)]
pub enum Refusal {
    TooLong,
    BadLine,
    BadTimeout,
    BadPlaces,
    TooBig,
    NoMemory,
    NotFound,
    Empty,
    UnknownPart { name: Text },
    WrongKind { name: Text },
    UnknownCoordinator { number: u64 },
    NotOpen { status: Status },
    NotRegistered { part: Text },
    Fault { part: Text },
    Recovering { part: Text, at: u64, total: u64 },
    Damaged { part: Text, place: u64 },
    Unread { place: u64, limit: u64 },
    AlreadyAcked { place: u64 },
    Conflict { place: u64, holder: TxnId },
    Full { what: What, count: u64 },
}
