//! Why a record isn't read.
use thiserror::Error;

/// Why a record isn't read: its bytes are outside the grammar, or there was no memory for what they stand for.
#[derive(Clone, Copy, Debug, PartialEq, Eq, Error)]
pub enum RecordError {
    #[error("the record is outside its grammar")]
    Bad,
    #[error("out of memory")]
    NoMemory,
}
