//! Folders and files that the cases are tried on.
use std::io;
use std::io::ErrorKind;
use txn_base::{Disk, Failed, FileId, Text};
use txn_files::FolderDisk;

/// The files of a folder, of which so many are open at a time.
pub fn folder(rt: HostRuntime, path: &str, bound: usize) -> io::Result<FolderDisk<HostRuntime>> {
    let path = Text::from_str(rt.alloc(), path)?;
    Ok(FolderDisk::new(rt.alloc(), rt, path, bound)?)
}

/// The same for reading alone.
pub fn folder_to_read(rt: HostRuntime, path: &str) -> io::Result<FolderDisk<HostRuntime>> {
    let path = Text::from_str(rt.alloc(), path)?;
    Ok(FolderDisk::for_reading(rt.alloc(), rt, path, 1)?)
}

pub fn ledger(part: u32) -> FileId {
    FileId { part, row: 2 }
}

pub fn failed() -> io::Error {
    ErrorKind::Other.into()
}

/// What a call of a disk answered, as what a case answers.
pub fn done(answer: Result<(), Failed>) -> io::Result<()> {
    match answer {
        Ok(()) => Ok(()),
        Err(_) => Err(failed()),
    }
}

/// So many bytes, of which those near each other differ.
pub fn counting(rt: HostRuntime, count: u32) -> io::Result<Vec<u8>> {
    let mut bytes = Vec::new(rt.alloc());
    for i in 0..count {
        bytes.push((i % 251) as u8)?;
    }
    Ok(bytes)
}

/// Makes a file of these bytes, and doesn't bring it to the disk.
pub fn write(disk: &mut FolderDisk<HostRuntime>, file: FileId, bytes: &[u8]) -> io::Result<()> {
    done(disk.resize(file, bytes.len() as u64))?;
    done(disk.write_at(file, 0, bytes))
}

/// Whether a file has these bytes from an offset on.
pub fn has(
    rt: HostRuntime,
    disk: &mut FolderDisk<HostRuntime>,
    file: FileId,
    offset: u64,
    wanted: &[u8],
) -> io::Result<bool> {
    let mut found = Vec::new(rt.alloc());
    found.resize(wanted.len(), 0)?;
    done(disk.read(file, offset, &mut found))?;
    Ok(found.as_slice() == wanted)
}
