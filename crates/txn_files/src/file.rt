//! One real file of a disk.
ghost use Rattle.std.specs.Prelude.{◌≡◌, IfOk, string_bytes};
ghost use Rattle.txn_files.specs.Paths.{path_of};

use std::alloc::{AllocError, Global};
use std::fs::{File, Files, OpenOptions};
use std::io;
use std::io::ErrorKind;
use txn_base::{FileId, FileName};

/// What a file is opened for.
#[derive(Clone, Copy, PartialEq, Eq)]
pub enum Purpose {
    /// Reads alone.
    Reading,
    /// Reads and writes, where it is there.
    Writing,
    /// Reads and writes. It is made where it isn't there.
    Making,
}

/// The path of a file: its name in the folder.
pub fn path_of(alloc: Global, folder: &str, id: FileId) -> Result<String, AllocError>
    ensures { IfOk result (λ path. string_bytes path ≡ path_of folder.now id) }
{
    let mut path = String::from_str(alloc, folder)?;
    path.push_str("/")?;
    write!(path, "{}", FileName(id))?;
    Ok(path)
}

/// Opens a file of a folder. None where there is none and it isn't to be made.
pub fn open<R: Files<File = File>>(
    alloc: Global,
    files: &R,
    folder: &str,
    id: FileId,
    purpose: Purpose,
) -> io::Result<Option<File>> {
    let Ok(path) = path_of(alloc, folder, id) else {
        return Err(ErrorKind::OutOfMemory.into());
    };
    let opened = OpenOptions::new()
        .read(true)
        .write(purpose != Purpose::Reading)
        .create(purpose == Purpose::Making)
        .open(files, path.as_str());
    match opened {
        Ok(file) => Ok(Some(file)),
        Err(e) if e.kind() == ErrorKind::NotFound && purpose != Purpose::Making => Ok(None),
        Err(e) => Err(e),
    }
}
