//! Why a call of a coordinator is refused.
ghost use Rattle.std.specs.Prelude.{◌≡◌};
ghost use Rattle.txn_coordinator.specs.declared.error.CoordError.TheVariants.{NoMemory, Fault};

use std::alloc::AllocError;
use thiserror::Error;
use txn_base::{Failed, Status, What};

/// Why a call of a coordinator is refused. The earlier cause is told where several stand together.
#[derive(Clone, Copy, Debug, PartialEq, Eq, Error)]
pub enum CoordError {
    #[error("there is no such transaction")]
    NotFound,
    #[error("the transaction's status forbids it")]
    NotOpen { status: Status },
    #[error("the timeout is outside its range")]
    BadTimeout,
    #[error("there are {count} already")]
    Full { what: What, count: u64 },
    #[error("the disk failed")]
    Fault,
    #[error("out of memory")]
    NoMemory,
}

impl From<AllocError> for CoordError {
    ghost from_gives = { λ _ e. e ≡ NoMemory };

    fn from(_: AllocError) -> Self {
        CoordError::NoMemory
    }
}

impl From<Failed> for CoordError {
    ghost from_gives = { λ _ e. e ≡ Fault };

    fn from(_: Failed) -> Self {
        CoordError::Fault
    }
}
