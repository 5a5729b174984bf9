//! The files of a disk in memory, and the states that they had.
ghost use Rattle.std.specs.Prelude.{◌≡◌, ◌+◌, ◌≤◌, length, IfSome, IfNone, IfOk, OnOk, OnErr};
ghost use Rattle.txn_base.specs.declared.file_id.FileId.{FileId};
ghost use Rattle.txn_memdisk.specs.Files.{entry_in, updated, sized_entry, written_entry, lost_entry, sure_entry};
ghost use Rattle.txn_memdisk.specs.Places.{IsFileAt, Misses};
ghost use Rattle.txn_memdisk.specs.Past.{Remembers};

use crate::file::MemFile;
use std::alloc::{AllocError, Global};
use std::snapshot::Snapshot;
use txn_base::FileId;

/// The index of a file.
pub fn find(files: &[MemFile], id: FileId) -> Option<usize>
    ensures some { IfSome result (λ i. IsFileAt files.now i id) }
    ensures none { IfNone result (Misses files.now id) }
{
    for i in 0..files.len() {
        if files[i].is(id) {
            return Some(i);
        }
    }
    None
}

/// What a read of a file gives.
pub fn bytes_in(files: &[MemFile], id: FileId) -> &[u8]
    ensures { result.now ≡ (entry_in files.now id).seen }
{
    match find(files, id) {
        Some(i) => files[i].bytes.as_slice(),
        None => &[],
    }
}

/// The index of a file, which is made where it isn't there yet.
fn place(alloc: Global, files: &mut Vec<MemFile>, id: FileId) -> Result<usize, AllocError>
    ensures at { IfOk result (λ i. IsFileAt files.new.items i id) }
    ensures entries { (other : FileId) → entry_in files.new.items other ≡ entry_in files.old.items other }
{
    if let Some(i) = find(files, id) {
        return Ok(i);
    }
    let i = files.len();
    files.push(MemFile::new(alloc, id))?;
    Ok(i)
}

/// Writes within a file.
pub fn write(
    alloc: Global,
    files: &mut Vec<MemFile>,
    past: &mut Vec<Snapshot<Vec<MemFile>>>,
    file: FileId,
    offset: u64,
    bytes: &[u8],
) -> Result<(), AllocError>
    requires { offset + length bytes.now ≤ length (entry_in files.old.items file).seen }
    ensures ok { OnOk result ((id : FileId) → entry_in files.new.items id ≡ updated file (written_entry offset bytes.now (entry_in files.old.items file)) (entry_in files.old.items) id) }
    ensures err { OnErr result ((id : FileId) → entry_in files.new.items id ≡ entry_in files.old.items id) }
    ensures past { OnOk result (Remembers files.old.items past.old.items past.new.items) }
    ensures past_err { OnErr result (past.new.items ≡ past.old.items) }
{
    past.reserve(1)?;
    let before = Snapshot::of(&*files);
    let i = place(alloc, files, file)?;
    files[i].write(alloc, offset, bytes)?;
    past.push(before)?;
    Ok(())
}

/// Writes nothing, and makes the range pending.
pub fn lose(
    alloc: Global,
    files: &mut Vec<MemFile>,
    past: &mut Vec<Snapshot<Vec<MemFile>>>,
    file: FileId,
    offset: u64,
    count: u64,
) -> Result<(), AllocError>
    ensures ok { OnOk result ((id : FileId) → entry_in files.new.items id ≡ updated file (lost_entry offset count (entry_in files.old.items file)) (entry_in files.old.items) id) }
    ensures err { OnErr result ((id : FileId) → entry_in files.new.items id ≡ entry_in files.old.items id) }
    ensures past { OnOk result (Remembers files.old.items past.old.items past.new.items) }
    ensures past_err { OnErr result (past.new.items ≡ past.old.items) }
{
    past.reserve(1)?;
    let before = Snapshot::of(&*files);
    let i = place(alloc, files, file)?;
    files[i].lose(alloc, offset, count)?;
    past.push(before)?;
    Ok(())
}

/// Sets the size of a file.
pub fn resize(
    alloc: Global,
    files: &mut Vec<MemFile>,
    past: &mut Vec<Snapshot<Vec<MemFile>>>,
    file: FileId,
    size: u64,
) -> Result<(), AllocError>
    ensures ok { OnOk result ((id : FileId) → entry_in files.new.items id ≡ updated file (sized_entry size (entry_in files.old.items file)) (entry_in files.old.items) id) }
    ensures err { OnErr result ((id : FileId) → entry_in files.new.items id ≡ entry_in files.old.items id) }
    ensures past { OnOk result (Remembers files.old.items past.old.items past.new.items) }
    ensures past_err { OnErr result (past.new.items ≡ past.old.items) }
{
    past.reserve(1)?;
    let before = Snapshot::of(&*files);
    let i = place(alloc, files, file)?;
    files[i].resize(alloc, size)?;
    past.push(before)?;
    Ok(())
}

/// No change of the file is pending any more.
pub fn make_sure(
    alloc: Global,
    files: &mut Vec<MemFile>,
    past: &mut Vec<Snapshot<Vec<MemFile>>>,
    file: FileId,
) -> Result<(), AllocError>
    ensures ok { OnOk result ((id : FileId) → entry_in files.new.items id ≡ updated file (sure_entry (entry_in files.old.items file).seen) (entry_in files.old.items) id) }
    ensures err { OnErr result ((id : FileId) → entry_in files.new.items id ≡ entry_in files.old.items id) }
    ensures past { OnOk result (Remembers files.old.items past.old.items past.new.items) }
    ensures past_err { OnErr result (past.new.items ≡ past.old.items) }
{
    past.reserve(1)?;
    let before = Snapshot::of(&*files);
    let i = place(alloc, files, file)?;
    files[i].make_sure();
    past.push(before)?;
    Ok(())
}

/// The file holds these bytes, and no change of it is pending.
pub fn put(
    alloc: Global,
    files: &mut Vec<MemFile>,
    past: &mut Vec<Snapshot<Vec<MemFile>>>,
    file: FileId,
    bytes: Vec<u8>,
) -> Result<(), AllocError>
    ensures ok { OnOk result ((id : FileId) → entry_in files.new.items id ≡ updated file (sure_entry bytes.items) (entry_in files.old.items) id) }
    ensures err { OnErr result ((id : FileId) → entry_in files.new.items id ≡ entry_in files.old.items id) }
    ensures past { OnOk result (Remembers files.old.items past.old.items past.new.items) }
    ensures past_err { OnErr result (past.new.items ≡ past.old.items) }
{
    past.reserve(1)?;
    let before = Snapshot::of(&*files);
    let i = place(alloc, files, file)?;
    files[i].put(bytes);
    past.push(before)?;
    Ok(())
}
