//! The folder of a disk, which one program holds at a time.
use std::fs::{File, Files, TryLockError};
use std::io::ErrorKind;
use std::path::Path;
use std::{fs, io};

/// What is known of a folder. The first call of the disk looks at it.
#[derive(Drop)]
pub enum FolderState {
    NotAsked,
    /// It wasn't there, so each of its files counts as empty.
    Missing,
    /// It is open, and locked for this program until that ends.
    Held(File),
    /// It is there, and was opened for reading alone.
    Looked,
    /// Another program holds it, or it couldn't be made sure of. Every call fails from then on.
    Lost,
}

/// Opens a folder and locks it. `Missing` where there is none. The names in it are brought to the disk, and its own name
/// where its parent allows it: a program that was stopped before it had done so may have made the folder, or a file there.
pub fn held<R: Files<File = File>>(files: &R, path: &str) -> io::Result<FolderState> {
    match locked(files, path)? {
        Some(folder) => {
            folder.sync_all()?;
            match parent(files, path) {
                Ok(parent) => pass_over(parent.sync_all())?,
                Err(e) => pass_over(Err(e))?,
            }
            Ok(FolderState::Held(folder))
        }
        None => Ok(FolderState::Missing),
    }
}

/// Looks whether a folder is there. It isn't locked, and nothing is brought to the disk.
pub fn looked<R: Files<File = File>>(files: &R, path: &str) -> io::Result<FolderState> {
    match File::open(files, path) {
        Ok(_) => Ok(FolderState::Looked),
        Err(e) if e.kind() == ErrorKind::NotFound => Ok(FolderState::Missing),
        Err(e) => Err(e),
    }
}

/// Makes a folder that was missing, locks it, and brings its name to the disk. One that is there by now was made by
/// another program since, whose files were taken for empty: that is an error. Where the name can't be brought to the disk
/// the folder is taken away again, so that no later run takes it for one that was always there.
pub fn made<R: Files<File = File>>(files: &R, path: &str) -> io::Result<FolderState> {
    let parent = parent(files, path)?;
    fs::create_dir(files, path)?;
    match locked(files, path)? {
        Some(folder) => match parent.sync_all() {
            Ok(()) => Ok(FolderState::Held(folder)),
            Err(e) => {
                let _ = fs::remove_dir(files, path);
                Err(e)
            }
        },
        None => Err(ErrorKind::NotFound.into()),
    }
}

/// Opens a folder and locks it. None where there is none.
fn locked<R: Files<File = File>>(files: &R, path: &str) -> io::Result<Option<File>> {
    match File::open(files, path) {
        Ok(folder) => match folder.try_lock() {
            Ok(()) => Ok(Some(folder)),
            Err(TryLockError::WouldBlock) => Err(ErrorKind::WouldBlock.into()),
            Err(TryLockError::Error(e)) => Err(e),
        },
        Err(e) if e.kind() == ErrorKind::NotFound => Ok(None),
        Err(e) => Err(e),
    }
}

/// What a folder's parent answered, where the folder was there before: a parent that may not be opened, or whose file
/// system doesn't sync folders, says nothing of it.
fn pass_over(answer: io::Result<()>) -> io::Result<()> {
    match answer {
        Err(e) => match e.kind() {
            ErrorKind::PermissionDenied | ErrorKind::ReadOnlyFilesystem | ErrorKind::InvalidInput =>
                Ok(()),
            _ => Err(e),
        },
        Ok(()) => Ok(()),
    }
}

fn parent<R: Files<File = File>>(files: &R, path: &str) -> io::Result<File> {
    File::open(files, parent_of(path))
}

fn parent_of(path: &str) -> &str {
    match Path::new(path).parent() {
        Some(parent) if !parent.as_os_str().is_empty() => parent.as_os_str(),
        _ => ".",
    }
}
