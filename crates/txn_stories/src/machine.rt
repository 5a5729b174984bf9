//! The disk of a story, through faults and crashes.
use std::alloc::{AllocError, Global};
use std::mem;
use txn_base::FileId;
use txn_memdisk::{Choice, FaultAt, MemDisk};
use txn_story::Wrong;

/// The disk of a story, or one for each thing that a crash may have left of it; and what there was before the last crash.
#[derive(Drop)]
pub struct Machine {
    alloc: Global,
    pub disks: Vec<MemDisk>,
    faults: Vec<FaultAt>,
    /// How many of them have to come.
    awaited: u64,
    /// No run has been on the disk since the story began, or since the crash.
    is_fresh: bool,
    crashed: Vec<MemDisk>,
}

impl Machine {
    pub fn new(alloc: Global) -> Result<Machine, AllocError> {
        let mut disks = Vec::new(alloc);
        disks.push(MemDisk::new(alloc, &[])?)?;
        Ok(Machine {
            alloc,
            disks,
            faults: Vec::new(alloc),
            awaited: 0,
            is_fresh: true,
            crashed: Vec::new(alloc),
        })
    }

    /// The file holds these bytes.
    pub fn put(&mut self, file: FileId, bytes: &[u8]) -> Result<(), Wrong> {
        for disk in &mut self.disks {
            disk.put_file(file, bytes)?;
        }
        Ok(())
    }

    /// One more call is to fail, and has to come.
    pub fn fail(&mut self, fault: FaultAt) -> Result<(), Wrong> {
        self.awaited = self.awaited.saturating_add(1);
        self.trap(fault)
    }

    /// One more call would fail if it came.
    pub fn trap(&mut self, fault: FaultAt) -> Result<(), Wrong> {
        if !self.is_fresh {
            return Err(Wrong::Line("a fault stands before the first run, or behind a crash"));
        }
        self.faults.push(fault)?;
        for disk in &mut self.disks {
            disk.fail(&self.faults)?;
        }
        Ok(())
    }

    /// A disk as the first of these is read, on which no call is to fail.
    pub fn copy(&self) -> Result<MemDisk, AllocError> {
        match self.disks.first() {
            Some(disk) => disk.crash(Choice::New),
            None => MemDisk::new(self.alloc, &[]),
        }
    }

    /// A run is to be on the disk.
    pub fn begin(&mut self) {
        self.is_fresh = false;
    }

    /// On each of the disks as many calls failed as were awaited.
    pub fn are_met(&self) -> Result<(), Wrong> {
        let awaited = self.awaited;
        for disk in &self.disks {
            let failed = disk.failed_calls();
            if failed != awaited {
                return Err(Wrong::Came {
                    what: String::from_str(self.alloc, "the calls that failed")?,
                    want: format!(in self.alloc; "{awaited}")?,
                    came: format!(in self.alloc; "{failed}")?,
                });
            }
        }
        Ok(())
    }

    /// The next run begins on what a crash leaves, by each of these choices.
    pub fn crash(&mut self, choices: &[Choice]) -> Result<(), Wrong> {
        self.are_met()?;
        let left = left_by(self.alloc, &self.disks, choices)?;
        self.crashed = mem::replace(&mut self.disks, left);
        self.forget();
        Ok(())
    }

    /// The next run begins on what the last crash leaves by other choices.
    pub fn crash_again(&mut self, choices: &[Choice]) -> Result<(), Wrong> {
        if self.crashed.is_empty() {
            return Err(Wrong::Line("there was no crash before"));
        }
        self.are_met()?;
        self.disks = left_by(self.alloc, &self.crashed, choices)?;
        self.forget();
        Ok(())
    }

    fn forget(&mut self) {
        self.faults.clear();
        self.awaited = 0;
        self.is_fresh = true;
    }
}

/// What a crash leaves of each of these disks by each of these choices.
fn left_by(
    alloc: Global,
    disks: &[MemDisk],
    choices: &[Choice],
) -> Result<Vec<MemDisk>, AllocError> {
    let mut left = Vec::new(alloc);
    for disk in disks {
        for choice in choices {
            left.push(disk.crash(*choice)?)?;
        }
    }
    Ok(left)
}
