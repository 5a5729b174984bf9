//! A list of records on a disk, whichever files it has.
ghost use Rattle.std.specs.Prelude.{◌≡◌, ◌<◌, ◌≤◌, ◌+◌, ◌++◌, List, ℕ, Err, All, length, slice_index_or, OnOk, OnErr, IfOk, IsTrue, ◌↔◌};
ghost use Rattle.txn_base.specs.declared.file_id.FileId.{FileId};
ghost use Rattle.txn_base.specs.Bytes.{contents_of};
ghost use Rattle.txn_base.specs.Content.{LedgerContent, settled, landed, begun, IsInFlight, Backed, Appends, Settles};
ghost use Rattle.txn_base.specs.Disk.{Files, Same, ChangesOnly};
ghost use Rattle.txn_base.specs.Outside.{counted};
ghost use Rattle.txn_base.specs.Frames.{Batch, IsBatch, frame, records};
ghost use Rattle.txn_base.specs.Moves.{After, FailsIn, FaultsIn};
ghost use Rattle.txn_ledger.specs.Log.{settled_as};

use std::alloc::AllocError;
use std::sync::ledger;
use thiserror::Error;
use txn_base::{Bytes, Disk, Failed, Steps};

/// Why a record can't be given.
#[derive(Clone, Copy, Debug, PartialEq, Eq, Error)]
pub enum GetError {
    #[error("the disk failed")]
    Fault,
    #[error("out of memory")]
    NoMemory,
}

/// What became of a batch whose append failed: its gate is open and it stands behind the others, or the gate is closed and
/// it was cut off.
#[derive(Clone, Copy, PartialEq, Eq)]
pub enum Settled {
    Kept,
    Dropped,
}

/// A list of records, and the batch in flight where the last append failed.
pub trait RecordLog {
    /// Its first file, its batches, and how it stands.
    ghost content: { Self → LedgerContent };

    /// For how many more records room was reserved.
    ghost spare: { Self → ℕ };

    /// For how long a frame room was reserved, in bytes.
    ghost room: { Self → ℕ };

    /// The files of a log with that first one.
    ghost mine: { FileId → FileId → Type 0 };

    /// The files of a log with that first one stand for these batches.
    ghost stands: { FileId → Files → List Batch → Type 0 };

    /// They begin with these batches, whatever stands behind.
    ghost begins: { FileId → Files → List Batch → Type 0 };

    /// They are these batches, and no more.
    ghost exactly: { FileId → Files → List Batch → Type 0 };

    /// The number of its records.
    fn len(&self) -> u64
        ensures { result ≡ length (records (content self.now).batches) };

    fn is_settled(&self) -> bool
        ensures { IsTrue result ↔ ((content self.now).standing ≡ settled) };

    /// Reserves room for so many records more, and for a frame of so many bytes. What was reserved stays so.
    fn reserve(&mut self, count: usize, bytes: usize) -> Result<(), AllocError>
        ensures spare { OnOk result (count ≤ spare self.new) }
        ensures room { OnOk result (bytes ≤ room self.new) }
        ensures spare_kept { spare self.old ≤ spare self.new }
        ensures room_kept { room self.old ≤ room self.new }
        ensures content { content self.new ≡ content self.old };

    /// Adds a batch, all of it or none, in room that was reserved. It takes no memory, and no more
    /// than five calls of the disk; all five where it answers Ok.
    fn append<D: Disk>(&mut self, disk: &mut D, batch: &[Bytes]) -> Result<(), Failed>
        requires settled { (content self.old).standing ≡ settled }
        requires batch { IsBatch (contents_of batch.now) }
        requires spare { length batch.now ≤ spare self.old }
        requires room { length (frame (contents_of batch.now)) ≤ room self.old }
        requires backed { Backed stands exactly (D.image disk.old) (content self.old) }
        ensures ok { OnOk result (content self.new ≡ landed (content self.old) (contents_of batch.now)) }
        ensures err { OnErr result (content self.new ≡ begun (content self.old) (contents_of batch.now)) }
        ensures spare { OnOk result (spare self.new + length batch.now ≡ spare self.old) }
        ensures room { room self.old ≤ room self.new }
        ensures backed { Backed stands exactly (D.image disk.new) (content self.new) }
        ensures images { After D.Disk (Appends mine stands (content self.old) (contents_of batch.now)) disk.old disk.new }
        ensures others { ChangesOnly (mine (content self.old).key) (D.seen disk.old) (D.seen disk.new) }
        ensures cause { FailsIn D.Disk (content self.old).key.part disk.old disk.new result }
        ensures calls { OnOk result (D.calls disk.new ≡ counted 5 (D.calls disk.old)) }
        ensures few { D.calls disk.new ≤ counted 5 (D.calls disk.old) };

    /// Finds out what became of a batch whose append failed, by its gate, and cuts off what stands behind the batches that
    /// count. It takes no memory, and no more than five calls of the disk.
    fn settle<D: Disk>(&mut self, disk: &mut D) -> Result<Settled, Failed>
        requires in_flight { IsInFlight (content self.old).standing }
        requires backed { Backed stands exactly (D.image disk.old) (content self.old) }
        ensures ok { IfOk result (λ settled. content self.new ≡ settled_as settled (content self.old)) }
        ensures err { OnErr result (content self.new ≡ content self.old) }

        // It is what the files stood for at the call.
        ensures found { D.tells → IfOk result (λ settled. stands (content self.old).key (D.seen disk.old) (settled_as settled (content self.old)).batches) }
        ensures backed { Backed stands exactly (D.image disk.new) (content self.new) }
        ensures images { After D.Disk (Settles mine stands (content self.old)) disk.old disk.new }
        ensures others { ChangesOnly (mine (content self.old).key) (D.seen disk.old) (D.seen disk.new) }
        ensures cause { FailsIn D.Disk (content self.old).key.part disk.old disk.new result }
        ensures few { D.calls disk.new ≤ counted 5 (D.calls disk.old) };

    /// A record. It may also be asked of a log that isn't settled. Each call counts as one record read.
    fn get<D: Disk, L: ledger::Ledger>(
        &self,
        disk: &mut D,
        place: u64,
        steps: &mut Steps<L>,
    ) -> Result<Bytes, GetError>
        requires place { place < length (records (content self.now).batches) }
        requires reads { D.tells → begins (content self.now).key (D.seen disk.old) (content self.now).batches }
        ensures record { D.tells → IfOk result (λ bytes. bytes.bytes ≡ slice_index_or (records (content self.now).batches) place bytes.bytes) }
        ensures counted { steps.new ≡ steps.old + 1 }
        ensures seen { D.seen disk.new ≡ D.seen disk.old }
        ensures images { After D.Disk Same disk.old disk.new }
        ensures cause { FaultsIn D.Disk (content self.now).key.part disk.old disk.new (result ≡ Err GetError.Fault) }
        ensures calls { D.calls disk.new ≤ D.calls disk.old + 1 }
        ensures writes { D.writes disk.new ≡ D.writes disk.old };

    /// Other files don't matter to what its files stand for.
    ghost local: { (key : FileId) (c d : Files) (batches : List Batch) → ((file : FileId) → mine key file → d file ≡ c file) → stands key c batches → stands key d batches };

    /// The same of what its files are exactly.
    ghost exact_local: { (key : FileId) (c d : Files) (batches : List Batch) → ((file : FileId) → mine key file → d file ≡ c file) → exactly key c batches → exactly key d batches };

    /// Its files stand for one list of batches.
    ghost stands_one: { (key : FileId) (c : Files) (a b : List Batch) → stands key c a → stands key c b → a ≡ b };

    /// Whoever stands for batches begins with the first of them.
    ghost stands_begins: { (key : FileId) (c : Files) (batches more : List Batch) → stands key c (batches ++ more) → begins key c batches };

    /// Files that are exactly these batches are one, and stand for them.
    ghost exact_one: { (key : FileId) (c d : Files) (batches : List Batch) → exactly key c batches → exactly key d batches → (file : FileId) → mine key file → d file ≡ c file };

    ghost exact_stands: { (key : FileId) (c : Files) (batches : List Batch) → All IsBatch batches → exactly key c batches → stands key c batches };

    /// Its files belong to one part.
    ghost one_part: { (key file : FileId) → mine key file → file.part ≡ key.part };
}
