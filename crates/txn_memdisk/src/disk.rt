//! A disk in memory.
ghost use Rattle.std.specs.Prelude.{◌≡◌, ◌+◌, ◌≤◌, ◌<◌, ◌^◌, ◌⊎◌, ℕ, [], true, length, take, drop, refl, IfOk, OnOk, OnErr, IsErr};
ghost use Rattle.std.proofs.Common.{inl};
ghost use Rattle.txn_base.specs.declared.file_id.FileId.{FileId};
ghost use Rattle.txn_base.specs.Disk.{Files, Same, Elsewhere, Changes, Torn, OldOrResized, overwritten, resized, Since, Only, HasPartCause};
ghost use Rattle.txn_base.specs.Outside.{counted};
ghost use Rattle.txn_memdisk.specs.Crash.{chosen};
ghost use Rattle.txn_memdisk.specs.Faults.{is_listed_at};
ghost use Rattle.txn_memdisk.specs.Files.{Becomes, nothing, written_entry, lost_entry, sized_entry, sure_entry};
ghost use Rattle.txn_memdisk.specs.Past.{only_last};
ghost use Rattle.txn_memdisk.specs.Mixed.{mixed_image};
ghost use Rattle.txn_memdisk.specs.Disk.{seen_of, image_of, moment_of, left_since_of, faults_of, part_faults_of, calls_of, writes_of, file_entries, waits_of, SameEntries, HasEntry, IsCounted};

mod told;

use crate::crash::{Choice, all_left};
use crate::fault::{FaultAt, Op, fires_at};
use crate::file::MemFile;
use crate::files::{bytes_in, lose, make_sure, put, resize, write};
use std::alloc::{AllocError, Global};
use std::snapshot::Snapshot;
use txn_base::{Calls, Disk, Failed, FaultCounts, FileId};

/// The greatest size of a file, in bytes.
const MAX_SIZE: u64 = 1 << 50;

/// A disk in memory. The calls that it was told to fail fail, and those that find no memory. It remembers each state
/// that it had, in no bytes.
#[derive(Drop)]
pub struct MemDisk {
    alloc: Global,
    files: Vec<MemFile>,
    /// The files before each change, the first of them first.
    past: Vec<Snapshot<Vec<MemFile>>>,
    /// The calls that are to fail, each with the number of calls that it takes to come to it.
    waits: Vec<FaultAt>,
    counts: FaultCounts,
    calls: Calls,
}

impl Disk for MemDisk {
    ghost tells = { Unit {0} };

    ghost seen = { seen_of };

    ghost image = { image_of };

    ghost moment = { moment_of };

    ghost left_since = { left_since_of };

    ghost faults = { faults_of };

    ghost part_faults = { part_faults_of };

    ghost calls = { calls_of };

    ghost writes = { writes_of };

    ghost seen_is_image = { λ disk told file. inl refl };

    ghost image_is_told = { λ disk c at. tt };

    ghost independent = { λ disk c d file at_c at_d. mixed_image disk.files.items c d file at_c at_d };

    ghost counts_now = { λ disk t c le at. inl at };

    ghost only_now = { λ disk c left. only_last disk.files.items disk.past.items c left };

    fn size(&mut self, file: FileId) -> Result<u64, Failed>
        ensures size { IfOk result (λ n. n ≡ length (seen_of self.old file)) }
        ensures bound { IfOk result (λ n. n ≤ 2 ^ 50) }
        ensures seen { seen_of self.new ≡ seen_of self.old }
        ensures images { Since moment_of image_of left_since_of Same self.old self.new }
        ensures cause { HasPartCause file.part (faults_of self.old) (faults_of self.new) (part_faults_of self.old) (part_faults_of self.new) result }
        ensures calls { calls_of self.new ≡ counted 1 (calls_of self.old) }
        ensures writes { writes_of self.new ≡ writes_of self.old }
        ensures counted { IsCounted Op.Size file result self.old self.new }
        ensures failed { OnErr result ((is_listed_at file Op.Size (waits_of self.old) ≡ true) ⊎ (2 ^ 50 < length (seen_of self.old file))) }
        ensures entries { SameEntries self.old self.new }
    {
        self.calls.look();
        if fires_at(&mut self.waits, file, Op::Size) {
            return Err(self.counts.rise(file.part));
        }
        let size = bytes_in(&self.files, file).len() as u64;
        if size > MAX_SIZE {
            return Err(self.counts.rise(file.part));
        }
        Ok(size)
    }

    fn read(&mut self, file: FileId, offset: u64, into: &mut [u8]) -> Result<(), Failed>
        requires { Unit {0} → offset + length into.old ≤ length (seen_of self.old file) }
        ensures read { OnOk result (into.new ≡ take (length into.old) (drop offset (seen_of self.old file))) }
        ensures seen { seen_of self.new ≡ seen_of self.old }
        ensures images { Since moment_of image_of left_since_of Same self.old self.new }
        ensures cause { HasPartCause file.part (faults_of self.old) (faults_of self.new) (part_faults_of self.old) (part_faults_of self.new) result }
        ensures calls { calls_of self.new ≡ counted 1 (calls_of self.old) }
        ensures writes { writes_of self.new ≡ writes_of self.old }
        ensures counted { IsCounted Op.Read file result self.old self.new }
        ensures failed { OnErr result ((is_listed_at file Op.Read (waits_of self.old) ≡ true) × (into.new ≡ into.old)) }
        ensures entries { SameEntries self.old self.new }
    {
        self.calls.look();
        if fires_at(&mut self.waits, file, Op::Read) {
            return Err(self.counts.rise(file.part));
        }
        let at = offset as usize;
        let bytes = bytes_in(&self.files, file);
        into.copy_from_slice(&bytes[at..at + into.len()]);
        Ok(())
    }

    fn write_at(&mut self, file: FileId, offset: u64, bytes: &[u8]) -> Result<(), Failed>
        requires { Unit {0} → offset + length bytes.now ≤ length (seen_of self.old file) }
        ensures written { OnOk result (seen_of self.new file ≡ overwritten offset bytes.now (seen_of self.old file)) }
        ensures torn { OnErr result (Torn offset (length bytes.now) (seen_of self.old file) (seen_of self.new file)) }
        ensures others { Elsewhere file (seen_of self.old) (seen_of self.new) }
        ensures images { Since moment_of image_of left_since_of (Changes file (Torn offset (length bytes.now))) self.old self.new }
        ensures cause { HasPartCause file.part (faults_of self.old) (faults_of self.new) (part_faults_of self.old) (part_faults_of self.new) result }
        ensures calls { calls_of self.new ≡ counted 1 (calls_of self.old) }
        ensures writes { writes_of self.new ≡ counted 1 (writes_of self.old) }
        ensures counted { IsCounted Op.WriteAt file result self.old self.new }
        ensures entries { OnOk result (HasEntry file (written_entry offset bytes.now (file_entries self.old file)) self.old self.new) }
        ensures failed { OnErr result (SameEntries self.old self.new ⊎ ((is_listed_at file Op.WriteAt (waits_of self.old) ≡ true) × (HasEntry file (lost_entry offset (length bytes.now) (file_entries self.old file)) self.old self.new))) }
    {
        self.calls.write();
        if fires_at(&mut self.waits, file, Op::WriteAt) {
            return self.lose(file, offset, bytes.len() as u64);
        }
        match write(
            self.alloc,
            &mut self.files,
            &mut self.past,
            file,
            offset,
            bytes,
        ) {
            Ok(()) => Ok(()),
            Err(_) => Err(self.counts.rise(file.part)),
        }
    }

    fn resize(&mut self, file: FileId, size: u64) -> Result<(), Failed>
        ensures bound { OnOk result (size ≤ 2 ^ 50) }
        ensures resized { OnOk result (seen_of self.new file ≡ resized size (seen_of self.old file)) }
        ensures sized { OnErr result (OldOrResized size (seen_of self.old file) (seen_of self.new file)) }
        ensures others { Elsewhere file (seen_of self.old) (seen_of self.new) }
        ensures images { Since moment_of image_of left_since_of (Changes file (OldOrResized size)) self.old self.new }
        ensures cause { HasPartCause file.part (faults_of self.old) (faults_of self.new) (part_faults_of self.old) (part_faults_of self.new) result }
        ensures calls { calls_of self.new ≡ counted 1 (calls_of self.old) }
        ensures writes { writes_of self.new ≡ counted 1 (writes_of self.old) }
        ensures counted { IsCounted Op.Resize file result self.old self.new }
        ensures entries { OnOk result (HasEntry file (sized_entry size (file_entries self.old file)) self.old self.new) }
        ensures failed { OnErr result (SameEntries self.old self.new) }
    {
        self.calls.write();
        if fires_at(&mut self.waits, file, Op::Resize) {
            return Err(self.counts.rise(file.part));
        }
        if size > MAX_SIZE {
            return Err(self.counts.rise(file.part));
        }
        match resize(self.alloc, &mut self.files, &mut self.past, file, size) {
            Ok(()) => Ok(()),
            Err(_) => Err(self.counts.rise(file.part)),
        }
    }

    fn sync(&mut self, file: FileId) -> Result<(), Failed>
        ensures durable { OnOk result (Only file (seen_of self.old file) (image_of self.new)) }
        ensures seen { seen_of self.new ≡ seen_of self.old }
        ensures images { Since moment_of image_of left_since_of Same self.old self.new }
        ensures cause { HasPartCause file.part (faults_of self.old) (faults_of self.new) (part_faults_of self.old) (part_faults_of self.new) result }
        ensures calls { calls_of self.new ≡ counted 1 (calls_of self.old) }
        ensures writes { writes_of self.new ≡ counted 1 (writes_of self.old) }
        ensures counted { IsCounted Op.Sync file result self.old self.new }
        ensures entries { OnOk result (HasEntry file (sure_entry (file_entries self.old file).seen) self.old self.new) }
        ensures failed { OnErr result (SameEntries self.old self.new) }
    {
        self.calls.write();
        if fires_at(&mut self.waits, file, Op::Sync) {
            return Err(self.counts.rise(file.part));
        }
        match make_sure(self.alloc, &mut self.files, &mut self.past, file) {
            Ok(()) => Ok(()),
            Err(_) => Err(self.counts.rise(file.part)),
        }
    }
}

impl MemDisk {
    /// An empty disk, on which these calls fail. Each is the nth of its kind on its file, counted from 1.
    pub fn new(alloc: Global, faults: &[FaultAt]) -> Result<MemDisk, AllocError>
        ensures entries { IfOk result (λ disk. (id : FileId) → file_entries disk id ≡ nothing) }
        ensures empty { IfOk result (λ disk. (id : FileId) → seen_of disk id ≡ []) }
        ensures only { IfOk result (λ disk. (c : Files) → image_of disk c → (id : FileId) → c id ≡ []) }
        ensures waits { IfOk result (λ disk. waits_of disk ≡ faults.now) }
        ensures count { IfOk result (λ disk. faults_of disk ≡ 0) }
        ensures part_counts { IfOk result (λ disk. (p : ℕ) → part_faults_of disk p ≡ 0) }
        ensures calls { IfOk result (λ disk. (calls_of disk ≡ 0) × (writes_of disk ≡ 0)) }
    {
        let waits = faults.to_vec(alloc)?;
        Ok(MemDisk {
            alloc,
            files: Vec::new(alloc),
            past: Vec::new(alloc),
            waits,
            counts: FaultCounts::new(),
            calls: Calls { all: 0, writes: 0 },
        })
    }

    /// The file holds these bytes, and a crash leaves them. An `Err` changes no file.
    pub fn put_file(&mut self, file: FileId, bytes: &[u8]) -> Result<(), AllocError>
        ensures entries { OnOk result (HasEntry file (sure_entry bytes.now) self.old self.new) }
        ensures seen { OnOk result (seen_of self.new file ≡ bytes.now) }
        ensures others { Elsewhere file (seen_of self.old) (seen_of self.new) }
        ensures durable { OnOk result (Only file bytes.now (image_of self.new)) }
        ensures images { OnOk result (Since moment_of image_of left_since_of (Changes file (Becomes bytes.now)) self.old self.new) }
        ensures err { OnErr result (SameEntries self.old self.new) }
        ensures waits { waits_of self.new ≡ waits_of self.old }
        ensures counts { self.new.counts ≡ self.old.counts }
        ensures calls { self.new.calls ≡ self.old.calls }
    {
        let bytes = bytes.to_vec(self.alloc)?;
        put(self.alloc, &mut self.files, &mut self.past, file, bytes)?;
        Ok(())
    }

    /// What a read of the file gives.
    pub fn file_bytes(&self, file: FileId) -> &[u8]
        ensures { result.now ≡ seen_of self.now file }
    {
        bytes_in(&self.files, file)
    }

    /// A disk as a crash leaves it: none of its calls is to fail, none has failed, and a further crash leaves the same.
    pub fn crash(&self, choice: Choice) -> Result<MemDisk, AllocError>
        ensures left { IfOk result (λ disk. (id : FileId) → file_entries disk id ≡ sure_entry (chosen choice (file_entries self.now id))) }
        ensures image { IfOk result (λ disk. image_of self.now (seen_of disk)) }
        ensures only { IfOk result (λ disk. (c : Files) → image_of disk c → (id : FileId) → c id ≡ seen_of disk id) }
        ensures waits { IfOk result (λ disk. waits_of disk ≡ []) }
        ensures count { IfOk result (λ disk. faults_of disk ≡ 0) }
        ensures part_counts { IfOk result (λ disk. (p : ℕ) → part_faults_of disk p ≡ 0) }
        ensures calls { IfOk result (λ disk. (calls_of disk ≡ 0) × (writes_of disk ≡ 0)) }
    {
        let files = all_left(self.alloc, choice, &self.files)?;
        Ok(MemDisk {
            alloc: self.alloc,
            files,
            past: Vec::new(self.alloc),
            waits: Vec::new(self.alloc),
            counts: FaultCounts::new(),
            calls: Calls { all: 0, writes: 0 },
        })
    }

    /// Counts a write that fails. Its range is pending, unless there is no memory to say so.
    fn lose(&mut self, file: FileId, offset: u64, count: u64) -> Result<(), Failed>
        ensures error { IsErr result }
        ensures images { Since moment_of image_of left_since_of (Changes file (Torn offset count)) self.old self.new }
        ensures cause { HasPartCause file.part (faults_of self.old) (faults_of self.new) (part_faults_of self.old) (part_faults_of self.new) result }
        ensures one_failed { (faults_of self.new ≡ counted 1 (faults_of self.old)) × (part_faults_of self.new file.part ≡ counted 1 (part_faults_of self.old file.part)) }
        ensures waits { waits_of self.new ≡ waits_of self.old }
        ensures calls { self.new.calls ≡ self.old.calls }
        ensures entries { SameEntries self.old self.new ⊎ (HasEntry file (lost_entry offset count (file_entries self.old file)) self.old self.new) }
    {
        match lose(
            self.alloc,
            &mut self.files,
            &mut self.past,
            file,
            offset,
            count,
        ) {
            Ok(()) => Err(self.counts.rise(file.part)),
            Err(_) => Err(self.counts.rise(file.part)),
        }
    }
}
