//! What a client asks for.
use crate::places::Places;
use crate::text::Text;
use crate::texts::Texts;
use crate::txn::TxnId;

/// An acknowledgement: of these places, or of all up to one.
#[derive(Debug, Drop)]
pub enum Ack {
    These(Places),
    UpTo(u64),
}

/// What a line asks for. The places of an acknowledgement stay as they were written, in any order and repeated.
#[derive(Debug, Drop)]
pub enum Request {
    New {
        timeout: u64,
    },
    Add {
        txn: TxnId,
        part: Text,
    },
    Publish {
        topic: Text,
        txn: Option<TxnId>,
        bodies: Texts,
    },
    Ack {
        sub: Text,
        txn: Option<TxnId>,
        places: Places,
    },
    AckUpTo {
        sub: Text,
        txn: Option<TxnId>,
        place: u64,
    },
    Commit {
        txn: TxnId,
    },
    Abort {
        txn: TxnId,
    },
    Status {
        txn: TxnId,
    },
    Read {
        topic: Text,
        first: u64,
        max: u64,
    },
    Receive {
        sub: Text,
        max: u64,
    },
    Redeliver {
        sub: Text,
    },
    Tick,
    Stop,
}
