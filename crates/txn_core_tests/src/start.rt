//! Steps that start a batch.
use std::alloc::{AllocError, Global};
use txn_base::{CoreEntry, TxnId};
use txn_core::{CoreStep, Skeleton};

/// The transaction with this sequence number, of the one coordinator that there is.
pub fn numbered(least: u64) -> TxnId {
    TxnId { most: 0, least }
}

/// The part starts these entries as one batch.
pub fn start(alloc: Global, part: u32, entries: &[CoreEntry]) -> Result<CoreStep, AllocError> {
    let entries = Skeleton::from_slice(alloc, entries)?;
    Ok(CoreStep::Start { part, entries })
}
