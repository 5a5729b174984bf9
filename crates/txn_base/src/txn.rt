//! A transaction: its id, how it ends, and how far it is.

/// The id of a transaction: the number of its coordinator, and its sequence number there, from 0.
#[derive(Clone, Copy, Debug, PartialEq, Eq)]
pub struct TxnId {
    pub most: u64,
    pub least: u64,
}

/// How a transaction ends.
#[derive(Clone, Copy, Debug, PartialEq, Eq)]
pub enum Decision {
    Commit,
    Abort,
}

/// How far a transaction is. Open goes to Committing or Aborting, Committing to Committed, Aborting to Aborted, and
/// nothing else follows.
#[derive(Clone, Copy, Debug, PartialEq, Eq)]
pub enum Status {
    Open,
    Committing,
    Committed,
    Aborting,
    Aborted,
}
