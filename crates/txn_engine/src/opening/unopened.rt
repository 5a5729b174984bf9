//! Why a part couldn't be opened, as it is told of a disk.
ghost use Rattle.std.specs.Prelude.{◌≡◌};
ghost use Rattle.txn_engine.specs.Unopened.{unopened, unmended};

use crate::opening::EngineError;
use txn_base::{FileId, MendError};
use txn_ledger::OpenError;

/// A ledger whose file couldn't be opened.
pub fn unopened(file: FileId, error: OpenError) -> EngineError
    ensures { result ≡ unopened file error }
{
    match error {
        OpenError::Damaged { entry } => EngineError::Damaged { file, entry },
        OpenError::Fault => EngineError::Fault,
        OpenError::NoMemory => EngineError::NoMemory,
    }
}

/// A part whose replay was refused.
pub fn unmended(file: FileId, error: MendError) -> EngineError
    ensures { result ≡ unmended file error }
{
    match error {
        MendError::Fault => EngineError::Fault,
        MendError::Damaged { place } => EngineError::Damaged { file, entry: place },
        MendError::NoMemory => EngineError::NoMemory,
    }
}
