//! Why a ledger can't be opened, and how faults become the errors of a ledger.
ghost use Rattle.std.specs.Prelude.{◌≡◌};
ghost use Rattle.txn_ledger.specs.declared.error.OpenError.TheVariants.{NoMemory, Fault};
ghost use Rattle.txn_ledger.specs.declared.log.GetError.TheVariants as get;

use crate::GetError;
use std::alloc::AllocError;
use thiserror::Error;
use txn_base::Failed;

/// Why a ledger can't be opened. Of a damaged one the number of records before the damage is told: there an open gate
/// stands and no frame.
#[derive(Clone, Copy, Debug, PartialEq, Eq, Error)]
pub enum OpenError {
    #[error("the disk failed")]
    Fault,
    #[error("no frame behind record {entry}")]
    Damaged { entry: u64 },
    #[error("out of memory")]
    NoMemory,
}

impl From<AllocError> for OpenError {
    ghost from_gives = { λ _ e. e ≡ NoMemory };

    fn from(_: AllocError) -> Self {
        OpenError::NoMemory
    }
}

impl From<Failed> for OpenError {
    ghost from_gives = { λ _ e. e ≡ Fault };

    fn from(_: Failed) -> Self {
        OpenError::Fault
    }
}

impl From<AllocError> for GetError {
    ghost from_gives = { λ _ e. e ≡ get.NoMemory };

    fn from(_: AllocError) -> Self {
        GetError::NoMemory
    }
}

impl From<Failed> for GetError {
    ghost from_gives = { λ _ e. e ≡ get.Fault };

    fn from(_: Failed) -> Self {
        GetError::Fault
    }
}
