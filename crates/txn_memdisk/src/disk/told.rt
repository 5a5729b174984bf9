//! What a test asks of a disk in memory beside its calls: which calls are to fail, how many have, and which files there are.
ghost use Rattle.std.specs.Prelude.{◌≡◌, ◌⊎◌, map, IfOk, OnOk, OnErr};
ghost use Rattle.std.specs.List.{Contains};
ghost use Rattle.txn_base.specs.declared.file_id.FileId.{FileId};
ghost use Rattle.txn_memdisk.specs.Files.{nothing, file_id_of};
ghost use Rattle.txn_memdisk.specs.Disk.{file_entries, waits_of, faults_of};

use crate::disk::MemDisk;
use crate::fault::FaultAt;
use crate::file::MemFile;
use std::alloc::{AllocError, Global};
use txn_base::FileId;

impl MemDisk {
    /// From here on these calls fail and no others. Each is the nth of its kind on its file, counted from here on.
    pub fn fail(&mut self, faults: &[FaultAt]) -> Result<(), AllocError>
        ensures ok { OnOk result (waits_of self.new ≡ faults.now) }
        ensures err { OnErr result (self.new ≡ self.old) }
        ensures files { self.new.files ≡ self.old.files }
        ensures past { self.new.past ≡ self.old.past }
        ensures counts { self.new.counts ≡ self.old.counts }
        ensures calls { self.new.calls ≡ self.old.calls }
    {
        self.waits = faults.to_vec(self.alloc)?;
        Ok(())
    }

    /// How many calls have failed.
    pub fn failed_calls(&self) -> u64
        ensures { result ≡ faults_of self.now }
    {
        self.counts.all
    }

    /// The names of the files that there are, in the order in which they were made. A file that isn't among them was never
    /// written.
    pub fn files(&self) -> Result<Vec<FileId>, AllocError>
        ensures names { IfOk result (λ names. names.items ≡ map file_id_of self.now.files.items) }
        ensures others { IfOk result (λ names. (id : FileId) → Contains names.items id ⊎ (file_entries self.now id ≡ nothing)) }
    {
        names_of(self.alloc, &self.files)
    }
}

fn names_of(alloc: Global, files: &[MemFile]) -> Result<Vec<FileId>, AllocError>
    ensures { IfOk result (λ names. names.items ≡ map file_id_of files.now) }
{
    files.iter().map(|file| file.id).collect(alloc)
}
