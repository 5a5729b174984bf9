//! A disk of real files in a folder. It tells nothing of what it holds.
ghost use Rattle.std.specs.Prelude.{[]};
ghost use Rattle.txn_base.specs.FaultCounts.{part_count};

use crate::file::Purpose;
use crate::files::{FolderFiles, MAX_SIZE};
use std::alloc::{AllocError, Global};
use std::fs::{File, Files};
use txn_base::{Calls, Disk, Failed, FaultCounts, FileId, Text};

/// A folder of files, one for each file of the disk, with the counts of failed calls.
#[derive(Drop)]
pub struct FolderDisk<R: Files<File = File> + Drop> {
    files: FolderFiles<R>,
    counts: FaultCounts,
    calls: Calls,
}

impl<R: Files<File = File> + Drop> FolderDisk<R> {
    /// Over the folder at this path, which the first call looks at and locks. At most `bound` of its files are open at a
    /// time, and one at least.
    pub fn new(alloc: Global, files: R, path: Text, bound: usize) -> Result<Self, AllocError> {
        Ok(FolderDisk {
            files: FolderFiles::new(alloc, files, path, Purpose::Writing, bound)?,
            counts: FaultCounts::new(),
            calls: Calls { all: 0, writes: 0 },
        })
    }

    /// For reading alone. It locks nothing and makes nothing, and each write, change of size and sync fails. So what it
    /// reads is only what stays as it is: a copy, or a folder that no program writes to.
    pub fn for_reading(
        alloc: Global,
        files: R,
        path: Text,
        bound: usize,
    ) -> Result<Self, AllocError> {
        Ok(FolderDisk {
            files: FolderFiles::new(alloc, files, path, Purpose::Reading, bound)?,
            counts: FaultCounts::new(),
            calls: Calls { all: 0, writes: 0 },
        })
    }
}

impl<R: Files<File = File> + Drop> Disk for FolderDisk<R> {
    ghost tells = { ⊥ };

    ghost seen = { λ disk file. [] };

    ghost image = { λ disk c. ⊥ };

    ghost moment = { λ disk. 0 };

    ghost left_since = { λ disk t c. ⊥ };

    ghost faults = { λ disk. disk.counts.all };

    ghost part_faults = { λ disk. part_count disk.counts };

    ghost calls = { λ disk. disk.calls.all };

    ghost writes = { λ disk. disk.calls.writes };

    ghost seen_is_image = { λ disk told. told };

    ghost image_is_told = { λ disk c at. at };

    ghost independent = { λ disk c d file at other. at };

    ghost counts_now = { λ disk t c le at. at };

    ghost only_now = { λ disk c left. left };

    fn size(&mut self, file: FileId) -> Result<u64, Failed> {
        self.calls.look();
        match self.files.size_of(file) {
            Ok(size) if size <= MAX_SIZE => Ok(size),
            _ => Err(self.counts.rise(file.part)),
        }
    }

    fn read(&mut self, file: FileId, offset: u64, into: &mut [u8]) -> Result<(), Failed> {
        self.calls.look();
        match self.files.read_into(file, offset, into) {
            Ok(()) => Ok(()),
            Err(_) => Err(self.counts.rise(file.part)),
        }
    }

    fn write_at(&mut self, file: FileId, offset: u64, bytes: &[u8]) -> Result<(), Failed> {
        self.calls.write();
        match self.files.write_into(file, offset, bytes) {
            Ok(()) => Ok(()),
            Err(_) => Err(self.counts.rise(file.part)),
        }
    }

    fn resize(&mut self, file: FileId, size: u64) -> Result<(), Failed> {
        self.calls.write();
        match self.files.resize_to(file, size) {
            Ok(()) if size <= MAX_SIZE => Ok(()),
            _ => Err(self.counts.rise(file.part)),
        }
    }

    fn sync(&mut self, file: FileId) -> Result<(), Failed> {
        self.calls.write();
        match self.files.bring_to_disk(file) {
            Ok(()) => Ok(()),
            Err(_) => Err(self.counts.rise(file.part)),
        }
    }
}
