//! How a run ended.
ghost use Rattle.std.specs.Prelude.{◌≡◌};
ghost use Rattle.txn_run.specs.Status.{status_unopened};

use txn_base::{FileId, Usage};
use txn_engine::EngineError;

/// How a run ended. The program's status is the number beside it.
#[derive(Drop)]
pub enum RunStatus {
    /// 0: the source was read to its end.
    Ok,
    /// 1: the words are no command line.
    Usage(Usage),
    /// 2: opening met a frame or a record outside its grammar, or a list that isn't lawful by itself.
    Damaged { file: FileId, entry: u64 },
    /// 3: the source failed.
    ReadFault,
    /// 4: the sink failed.
    WriteFault,
    /// 5: the disk failed while opening, or a write failed and was answered so.
    DiskFault,
    /// 6: memory ran out while the words were read or while opening.
    NoMemory,
    /// 7: as many bytes as the limits allow were taken.
    TooMuch,
}

/// The status of a run whose parts couldn't be opened.
pub fn unopened(error: EngineError) -> RunStatus
    ensures { result ≡ status_unopened error }
{
    match error {
        EngineError::Damaged { file, entry } => RunStatus::Damaged { file, entry },
        EngineError::Fault => RunStatus::DiskFault,
        EngineError::NoMemory => RunStatus::NoMemory,
    }
}
