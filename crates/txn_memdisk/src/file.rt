//! A file of a disk in memory.
ghost use Rattle.std.specs.Prelude.{◌≡◌, ◌+◌, ◌≤◌, length, OnOk, OnErr};
ghost use Rattle.txn_base.specs.Disk.{same_file};
ghost use Rattle.txn_memdisk.specs.Files.{entry_of, nothing, sized_entry, written_entry, lost_entry, sure_entry};

use crate::change::{Change, Pending, Undo, write_over};
use std::alloc::{AllocError, Global};
use txn_base::FileId;

/// What a file holds, and the changes since its last sync.
#[derive(Drop)]
pub struct MemFile {
    pub id: FileId,
    /// What a read gives.
    pub bytes: Vec<u8>,
    /// The first of them first.
    pub pending: Vec<Pending>,
}

impl MemFile {
    /// A file that was never written.
    pub fn new(alloc: Global, id: FileId) -> MemFile
        ensures id { result.id ≡ id }
        ensures entry { entry_of result ≡ nothing }
    {
        MemFile {
            id,
            bytes: Vec::new(alloc),
            pending: Vec::new(alloc),
        }
    }

    /// It is the file of this name.
    pub fn is(&self, id: FileId) -> bool
        ensures { result ≡ same_file self.now.id id }
    {
        self.id == id
    }

    /// Writes within the size. It takes memory for the bytes that it writes over.
    pub fn write(&mut self, alloc: Global, offset: u64, bytes: &[u8]) -> Result<(), AllocError>
        requires { offset + length bytes.now ≤ length self.old.bytes.items }
        ensures id { self.new.id ≡ self.old.id }
        ensures ok { OnOk result (entry_of self.new ≡ written_entry offset bytes.now (entry_of self.old)) }
        ensures err { OnErr result (entry_of self.new ≡ entry_of self.old) }
    {
        let at = offset as usize;
        let end = at + bytes.len();
        let old = self.bytes[at..end].to_vec(alloc)?;
        self.pending.push(Pending {
            change: Change::Written {
                offset,
                count: bytes.len() as u64,
            },
            undo: Undo::Bytes { offset, old },
        })?;
        write_over(&mut self.bytes, at, bytes);
        Ok(())
    }

    /// Writes nothing, and makes the range pending.
    pub fn lose(&mut self, alloc: Global, offset: u64, count: u64) -> Result<(), AllocError>
        ensures id { self.new.id ≡ self.old.id }
        ensures ok { OnOk result (entry_of self.new ≡ lost_entry offset count (entry_of self.old)) }
        ensures err { OnErr result (entry_of self.new ≡ entry_of self.old) }
    {
        self.pending.push(Pending {
            change: Change::Written { offset, count },
            undo: Undo::Bytes {
                offset,
                old: Vec::new(alloc),
            },
        })?;
        Ok(())
    }

    /// Sets the size. It takes memory for the bytes that it cuts off, or adds.
    pub fn resize(&mut self, alloc: Global, size: u64) -> Result<(), AllocError>
        ensures id { self.new.id ≡ self.old.id }
        ensures ok { OnOk result (entry_of self.new ≡ sized_entry size (entry_of self.old)) }
        ensures err { OnErr result (entry_of self.new ≡ entry_of self.old) }
    {
        let before = self.bytes.len();
        let kept = before.min(size as usize);
        let cut = self.bytes[kept..].to_vec(alloc)?;
        self.pending.reserve(1)?;
        self.bytes.resize(size as usize, 0)?;
        self.pending.push(Pending {
            change: Change::Sized { size },
            undo: Undo::Size {
                before: before as u64,
                cut,
            },
        })?;
        Ok(())
    }

    /// No change is pending any more.
    pub fn make_sure(&mut self)
        ensures id { self.new.id ≡ self.old.id }
        ensures entry { entry_of self.new ≡ sure_entry (entry_of self.old).seen }
    {
        self.pending.clear();
    }

    /// It holds these bytes, and no change is pending.
    pub fn put(&mut self, bytes: Vec<u8>)
        ensures id { self.new.id ≡ self.old.id }
        ensures entry { entry_of self.new ≡ sure_entry bytes.items }
    {
        self.bytes = bytes;
        self.make_sure();
    }
}
