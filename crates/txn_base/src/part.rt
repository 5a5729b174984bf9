//! How far a part is in its recovery, and why a step of it is refused.
use thiserror::Error;

/// Records that were replayed, of so many.
#[derive(Clone, Copy, Debug, PartialEq, Eq)]
pub struct Progress {
    pub at: u64,
    pub total: u64,
}

/// A part is rebuilt, or it is being rebuilt from its ledger.
#[derive(Clone, Copy, Debug, PartialEq, Eq)]
pub enum PartState {
    Whole,
    Mending { at: u64, total: u64 },
}

/// Why a step of a replay is refused. A damaged record is outside its grammar, or not allowed after those before it.
#[derive(Clone, Copy, Debug, PartialEq, Eq, Error)]
pub enum MendError {
    #[error("the disk failed")]
    Fault,
    #[error("record {place} is damaged")]
    Damaged { place: u64 },
    #[error("out of memory")]
    NoMemory,
}

/// The same of a step that may also read a topic's snapshots, in one of the two rows.
#[derive(Clone, Copy, Debug, PartialEq, Eq, Error)]
pub enum RecoverError {
    #[error("the disk failed")]
    Fault,
    #[error("record {place} is damaged")]
    Damaged { place: u64 },
    #[error("snapshot row {row} is damaged at record {entry}")]
    Snapshot { row: u32, entry: u64 },
    #[error("out of memory")]
    NoMemory,
}
