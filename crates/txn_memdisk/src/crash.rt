//! What a crash makes of the files of a disk.
ghost use Rattle.std.specs.Prelude.{◌≡◌, IfOk};
ghost use Rattle.txn_memdisk.specs.Files.{entry_of, sure_entry};
ghost use Rattle.txn_memdisk.specs.Crash.{chosen, AreCrashedFrom};

use crate::change::{replay, undo_all};
use crate::file::MemFile;
use std::alloc::{AllocError, Global};

/// What a crash makes of the changes that are pending: they are lost, or kept, or the sizes are kept and the ranges
/// that were written are filled with a byte.
#[derive(Clone, Copy, Debug)]
pub enum Choice {
    Old,
    New,
    Torn { byte: u8 },
}

fn left_bytes(alloc: Global, choice: Choice, file: &MemFile) -> Result<Vec<u8>, AllocError>
    ensures { IfOk result (λ left. left.items ≡ chosen choice (entry_of file.now)) }
{
    let mut bytes = file.bytes.to_vec(alloc)?;
    match choice {
        Choice::New => {}
        Choice::Old => undo_all(&mut bytes, &file.pending)?,
        Choice::Torn { byte } => {
            undo_all(&mut bytes, &file.pending)?;
            replay(&mut bytes, &file.pending, byte)?;
        }
    }
    Ok(bytes)
}

fn left(alloc: Global, choice: Choice, file: &MemFile) -> Result<MemFile, AllocError>
    ensures id { IfOk result (λ left. left.id ≡ file.now.id) }
    ensures entry { IfOk result (λ left. entry_of left ≡ sure_entry (chosen choice (entry_of file.now))) }
{
    let bytes = left_bytes(alloc, choice, file)?;
    Ok(MemFile {
        id: file.id,
        bytes,
        pending: Vec::new(alloc),
    })
}

/// The files as the crash leaves them.
pub fn all_left(
    alloc: Global,
    choice: Choice,
    files: &[MemFile],
) -> Result<Vec<MemFile>, AllocError>
    ensures { IfOk result (λ left. AreCrashedFrom choice files.now left.items) }
{
    let mut all = Vec::new(alloc);
    for file in files {
        all.push(left(alloc, choice, file)?)?;
    }
    Ok(all)
}
