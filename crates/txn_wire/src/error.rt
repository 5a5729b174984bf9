//! Why a line gave no request.
ghost use Rattle.std.specs.Prelude.{◌≡◌};
ghost use Rattle.txn_wire.specs.declared.error.WireError.TheVariants.{NoMemory};

use std::alloc::{AllocError, AllocFailed};
use thiserror::Error;

/// Why a line gave no request: it has none, or memory ran out.
#[derive(Clone, Copy, Debug, PartialEq, Eq, Error)]
pub enum WireError {
    #[error("the line is no request")]
    BadLine,
    #[error("out of memory")]
    NoMemory,
}

impl From<AllocError> for WireError {
    ghost from_gives = { λ _ e. e ≡ NoMemory };

    fn from(_e: AllocError) -> WireError {
        WireError::NoMemory
    }
}

impl<T: Drop> From<AllocFailed<T>> for WireError {
    ghost from_gives = { λ _ e. e ≡ NoMemory };

    fn from(_e: AllocFailed<T>) -> WireError {
        WireError::NoMemory
    }
}
