//! The real files of a folder. Here the disk model is made true as far as it can.
use crate::file::{Purpose, open};
use crate::folder::{FolderState, held, looked, made};
use crate::open_files::OpenFiles;
use crate::read_ahead::ReadAhead;
use std::alloc::{AllocError, Global};
use std::fs::{File, Files};
use std::io;
use std::io::ErrorKind;
use std::os::unix::fs::FileExt;
use txn_base::{FileId, Text};

/// The greatest size of a file, in bytes.
pub const MAX_SIZE: u64 = 1 << 50;

/// The real files of a folder.
#[derive(Drop)]
pub struct FolderFiles<R: Files<File = File> + Drop> {
    alloc: Global,
    files: R,
    path: Text,
    purpose: Purpose,
    standing: FolderState,
    opened: OpenFiles,
    ahead: ReadAhead,
}

impl<R: Files<File = File> + Drop> FolderFiles<R> {
    /// Over the folder at this path, which is looked at by the first call. The purpose is to read or to write.
    pub fn new(
        alloc: Global,
        files: R,
        path: Text,
        purpose: Purpose,
        bound: usize,
    ) -> Result<Self, AllocError> {
        Ok(FolderFiles {
            alloc,
            files,
            path,
            purpose,
            standing: FolderState::NotAsked,
            opened: OpenFiles::new(alloc, bound)?,
            ahead: ReadAhead::new(alloc),
        })
    }

    /// Looks at the folder, once. Whether it is there.
    fn is_there(&mut self) -> io::Result<bool> {
        if let FolderState::NotAsked = &self.standing {
            self.standing = FolderState::Lost;
            self.standing = match self.purpose {
                Purpose::Reading => looked(&self.files, self.path.as_str())?,
                _ => held(&self.files, self.path.as_str())?,
            };
        }
        match &self.standing {
            FolderState::Held(_) | FolderState::Looked => Ok(true),
            FolderState::Missing => Ok(false),
            _ => Err(ErrorKind::WouldBlock.into()),
        }
    }

    /// Makes the folder where it is missing.
    fn make_folder(&mut self) -> io::Result<()> {
        if self.purpose == Purpose::Reading {
            return Err(ErrorKind::PermissionDenied.into());
        }
        if self.is_there()? {
            return Ok(());
        }
        self.standing = FolderState::Lost;
        self.standing = made(&self.files, self.path.as_str())?;
        Ok(())
    }

    /// Opens a file where it isn't open. Whether it is there.
    fn find(&mut self, id: FileId) -> io::Result<bool> {
        if !self.is_there()? {
            return Ok(false);
        }
        self.opened.test(id)?;
        if self.opened.use_file(id) {
            return Ok(true);
        }
        self.open_file(id, self.purpose)
    }

    /// Opens a file where it isn't open. One that was never written is made, and its name brought to the disk.
    fn find_or_make(&mut self, id: FileId) -> io::Result<()> {
        self.make_folder()?;
        if self.find(id)? {
            return Ok(());
        }
        if !self.open_file(id, Purpose::Making)? {
            return Err(ErrorKind::NotFound.into());
        }
        if let Err(e) = self.sync_folder() {
            self.standing = FolderState::Lost;
            return Err(e);
        }
        Ok(())
    }

    fn open_file(&mut self, id: FileId, purpose: Purpose) -> io::Result<bool> {
        self.opened.make_room();
        match open(self.alloc, &self.files, self.path.as_str(), id, purpose)? {
            Some(file) => {
                self.opened.keep(id, file)?;
                Ok(true)
            }
            None => Ok(false),
        }
    }

    fn sync_folder(&self) -> io::Result<()> {
        match &self.standing {
            FolderState::Held(folder) => folder.sync_all(),
            _ => Err(ErrorKind::NotFound.into()),
        }
    }

    pub fn size_of(&mut self, id: FileId) -> io::Result<u64> {
        if !self.find(id)? {
            return Ok(0);
        }
        Ok(self.opened.file(id)?.metadata()?.len())
    }

    pub fn read_into(&mut self, id: FileId, offset: u64, into: &mut [u8]) -> io::Result<()> {
        if self.is_there()? && self.opened.test(id).is_ok() && self.ahead.serve(id, offset, into) {
            return Ok(());
        }
        if self.find(id)? {
            return self.ahead.read(id, self.opened.file(id)?, offset, into);
        }
        if into.is_empty() {
            return Ok(());
        }
        Err(ErrorKind::UnexpectedEof.into())
    }

    pub fn write_into(&mut self, id: FileId, offset: u64, bytes: &[u8]) -> io::Result<()> {
        self.ahead.drop_file(id);
        self.find_or_make(id)?;
        self.opened.file_to_write(id)?.write_all_at(bytes, offset)
    }

    pub fn resize_to(&mut self, id: FileId, size: u64) -> io::Result<()> {
        self.ahead.drop_file(id);
        if size > MAX_SIZE {
            return Err(ErrorKind::InvalidInput.into());
        }
        self.find_or_make(id)?;
        self.opened.file_to_write(id)?.set_len(size)
    }

    pub fn bring_to_disk(&mut self, id: FileId) -> io::Result<()> {
        if self.purpose == Purpose::Reading {
            return Err(ErrorKind::PermissionDenied.into());
        }
        if !self.find(id)? {
            return Ok(());
        }
        self.opened.sync(id)
    }
}
