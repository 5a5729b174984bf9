//! Why a topic gives no place or no messages.
ghost use Rattle.std.specs.Prelude.{◌≡◌};
ghost use Rattle.txn_buffer.specs.declared.error.TopicError.TheVariants.{NoMemory, Fault};

use std::alloc::AllocError;
use thiserror::Error;
use txn_base::Failed;
use txn_ledger::GetError;

/// Why a topic gives no place or no messages. `Full` tells the number of its records, `Damaged` the place of a record that
/// is outside its grammar.
#[derive(Clone, Copy, Debug, PartialEq, Eq, Error)]
pub enum TopicError {
    #[error("the topic is full with {count} records")]
    Full { count: u64 },
    #[error("record {place} is damaged")]
    Damaged { place: u64 },
    #[error("the disk failed")]
    Fault,
    #[error("out of memory")]
    NoMemory,
}

impl From<AllocError> for TopicError {
    ghost from_gives = { λ _ e. e ≡ NoMemory };

    fn from(_: AllocError) -> TopicError {
        TopicError::NoMemory
    }
}

impl From<Failed> for TopicError {
    ghost from_gives = { λ _ e. e ≡ Fault };

    fn from(_: Failed) -> TopicError {
        TopicError::Fault
    }
}
