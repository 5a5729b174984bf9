//! The ledger of one file.
ghost use Rattle.std.specs.Prelude.{◌≡◌, ◌≤◌, ℕ, [], Err, IfOk};
ghost use Rattle.txn_base.specs.Content.{settled};
ghost use Rattle.txn_base.specs.Disk.{Elsewhere, Changes};
ghost use Rattle.txn_base.specs.Frames.{IsDamagedAt};
ghost use Rattle.txn_base.specs.Moves.{After, FaultsIn};
ghost use Rattle.txn_base.specs.Outside.{counted};
ghost use Rattle.txn_ledger.specs.Found.{KeepsDamaged, KeepsFile};
ghost use Rattle.txn_ledger.specs.Ledger.{StandsIn, Stored};

use crate::encode::{add_positions, encode};
use crate::found::Found;
use crate::get::read_record;
use crate::open::find;
use crate::position::Position;
use crate::settle::find_out;
use crate::state::State;
use crate::write::write_batch;
use crate::{GetError, OpenError, RecordLog, Settled};
use std::alloc::{AllocError, Global};
use std::marker::Model;
use std::sync::ledger;
use txn_base::{Bytes, ContentCarrier, Disk, Failed, FileId, Steps};

/// A list of records in one file. At run time it keeps where each record stands, and none of them.
#[derive(Drop)]
pub struct Ledger {
    /// Where the bytes of a record that is asked for are taken from.
    alloc: Global,

    file: FileId,

    /// Where the settled frames end.
    end: u64,

    /// The length of the frame in flight.
    sent: u64,

    /// How many records are settled.
    count: usize,

    state: State,

    /// Where the records stand, those in flight too.
    positions: Vec<Position>,

    /// The frame that is written, but for its gate byte.
    buffer: Bytes,

    /// How many more positions were reserved.
    spare: usize,

    /// How long a frame was reserved.
    room: usize,

    carrier: ContentCarrier,
}

impl Model for Ledger {
    ghost use Rattle.txn_ledger.specs.Ledger.{Shown};

    ghost Value = { Shown };

    ghost use Rattle.txn_ledger.specs.Tied.{Tied};

    ghost view = { λ l. record { content = l.carrier.content; spare = l.spare; room = l.room } };

    ghost invariant = { Tied };
}

impl Ledger {
    /// Opens a file that a crash may have left, and cuts off what stands behind its last frame. An open gate
    /// that begins no frame is damage.
    pub fn open_file<D: Disk>(
        alloc: Global,
        disk: &mut D,
        file: FileId,
    ) -> Result<Ledger, OpenError>
        ensures opened { IfOk result (λ ledger. (ledger.content.key ≡ file) × (ledger.content.standing ≡ settled)) }
        ensures backed { IfOk result (λ ledger. Stored (D.image disk.new) ledger.content) }

        // As the file read at the call, it stands for these batches.
        ensures told { D.tells → IfOk result (λ ledger. StandsIn file (D.seen disk.old) ledger.content.batches) }
        ensures damaged { (entry : ℕ) → result ≡ Err (OpenError.Damaged entry) → D.tells → IsDamagedAt (D.seen disk.old file) entry }

        // Of a damaged file nothing is cut off.
        ensures uncut { D.tells → KeepsDamaged (D.seen disk.old file) (D.seen disk.new file) }

        // In each image at any moment of the call the file is as it was in an image at the call, or cut behind the frames for
        // which it stood there; a damaged one is as it was.
        ensures images { After D.Disk (Changes file KeepsFile) disk.old disk.new }
        ensures others { Elsewhere file (D.seen disk.old) (D.seen disk.new) }
        ensures cause { FaultsIn D.Disk file.part disk.old disk.new (result ≡ Err OpenError.Fault) }

        // A sync, a cut and a sync.
        ensures writes { D.writes disk.new ≤ counted 3 (D.writes disk.old) }
    {
        let Found {
            carrier,
            end,
            positions,
        } = find(alloc, disk, file)?;
        Ok(Ledger {
            alloc,
            file,
            end,
            sent: 0,
            count: positions.len(),
            state: State::Settled,
            positions,
            buffer: Bytes::new(alloc),
            spare: 0,
            room: 0,
            carrier,
        })
    }

    /// The ledger of a file that is empty. It reads nothing.
    pub fn empty(alloc: Global, file: FileId) -> Ledger
        ensures { result.content ≡ record { key = file; batches = []; standing = settled } }
    {
        Ledger {
            alloc,
            file,
            end: 0,
            sent: 0,
            count: 0,
            state: State::Settled,
            positions: Vec::new(alloc),
            buffer: Bytes::new(alloc),
            spare: 0,
            room: 0,
            carrier: ContentCarrier::empty(file),
        }
    }
}

impl RecordLog for Ledger {
    ghost use Rattle.txn_ledger.specs.Ledger.{IsFile, StandsIn, BeginsIn, ExactlyIn};
    ghost use Rattle.txn_ledger.specs.LedgerLaws as laws;

    ghost content = { λ l. l.content };

    ghost spare = { λ l. l.spare };

    ghost room = { λ l. l.room };

    ghost mine = { IsFile };

    ghost stands = { StandsIn };

    ghost begins = { BeginsIn };

    ghost exactly = { ExactlyIn };

    ghost local = { laws.local };

    ghost exact_local = { laws.exact_local };

    ghost exact_one = { laws.exact_one };

    ghost exact_stands = { laws.exact_stands };

    ghost stands_one = { laws.one_list };

    ghost stands_begins = { laws.begins };

    ghost one_part = { laws.one_part };

    fn len(&self) -> u64 {
        self.count as u64
    }

    fn is_settled(&self) -> bool {
        self.state == State::Settled
    }

    fn reserve(&mut self, count: usize, bytes: usize) -> Result<(), AllocError> {
        if self.room < bytes {
            self.buffer.clear();
            self.buffer.reserve(bytes)?;
            self.room = bytes;
        }
        if self.spare < count {
            self.positions.reserve(count)?;
            self.spare = count;
        }
        Ok(())
    }

    fn append<D: Disk>(&mut self, disk: &mut D, batch: &[Bytes]) -> Result<(), Failed> {
        encode(&mut self.buffer, batch);
        add_positions(&mut self.positions, self.end + 5, batch);
        self.spare -= batch.len();
        let tail = self.buffer.as_slice();
        match write_batch(disk, &self.carrier, self.file, self.end, batch, tail) {
            Ok(()) => {
                self.carrier.push(batch);
                self.end += self.buffer.len() as u64 + 1;
                self.count = self.positions.len();
                Ok(())
            }
            Err(failed) => {
                self.carrier.begin(batch);
                self.sent = self.buffer.len() as u64 + 1;
                self.state = State::InFlight;
                Err(failed)
            }
        }
    }

    fn settle<D: Disk>(&mut self, disk: &mut D) -> Result<Settled, Failed> {
        match find_out(disk, &self.carrier, self.file, self.end, self.sent)? {
            Settled::Kept => {
                self.carrier.settle_kept();
                self.end += self.sent;
                self.count = self.positions.len();
                self.state = State::Settled;
                Ok(Settled::Kept)
            }
            Settled::Dropped => {
                self.carrier.settle_dropped();
                self.positions.truncate(self.count);
                self.state = State::Settled;
                Ok(Settled::Dropped)
            }
        }
    }

    fn get<D: Disk, L: ledger::Ledger>(
        &self,
        disk: &mut D,
        place: u64,
        steps: &mut Steps<L>,
    ) -> Result<Bytes, GetError> {
        steps.tick();
        read_record(self.alloc, disk, self.file, self.positions[place as usize])
    }
}
