//! The calls that add an entry.
ghost use Rattle.txn_ledger.specs.Reading.{IsBackedOn};
ghost use Rattle.std.specs.Prelude.{◌≡◌, ◌≤◌, ◌+◌, ◌^◌, true, false, None, Err, IsTrue, IsOk, IfOk, IfErr, OnOk, OnErr, MatchOption};
ghost use Rattle.txn_base.specs.declared.file_id.FileId.{FileId};
ghost use Rattle.txn_base.specs.Content.{Appends};
ghost use Rattle.txn_base.specs.Disk.{ChangesOnly};
ghost use Rattle.txn_base.specs.Records.{IsCoordEntry};
ghost use Rattle.txn_base.specs.Moves.{After, FailsIn, FaultsIn};
ghost use Rattle.txn_model.specs.Coord.{is_open};
ghost use Rattle.txn_model.specs.Deadlines.{is_undriven};
ghost use Rattle.txn_model.specs.Table.{decision_entry};
ghost use Rattle.txn_coordinator.specs.View.{coord_batch, with_entry, with_failed_entry, reserving, IsFrontOf};
ghost use Rattle.txn_table.specs.Table.{may_follow};
ghost use Rattle.txn_coordinator.specs.Calls.{MayFail, begin_refusal, next_txn, add_refusal, has_part, status_in_view, with_part, decide_refusal, decided, decided_status, closing_of_view};

use crate::coordinator::Coordinator;
use crate::decisions::{closing_entry, deciding, decision_entry};
use crate::error::CoordError;
use crate::log_entry::{FRAME, log_entry};
use std::alloc::AllocError;
use txn_base::{CoordEntry, Decision, Disk, Failed, Status, TxnId, What};
use txn_ledger::RecordLog;

impl<R: RecordLog> Coordinator<R> {
    /// Reserves room for the close of a transaction, which other calls keep.
    pub fn reserve_close(&mut self) -> Result<(), AllocError>
        ensures ok { OnOk result (self.new ≡ reserving 1 self.old) }
        ensures err { OnErr result (self.new ≡ self.old) }
    {
        self.log.reserve(1, FRAME)?;
        self.reserved = true;
        Ok(())
    }

    /// Adds an entry, beside the room that is reserved for a close.
    fn add_entry<D: Disk>(&mut self, disk: &mut D, entry: CoordEntry) -> Result<(), CoordError>
        requires whole { IsTrue (self.old).whole }
        requires fits { IsCoordEntry entry }
        requires allowed { may_follow (self.old).named (self.old).front entry ≡ true }
        requires backed { IsBackedOn R.RecordLog D.Disk disk.old (self.old).content }
        ensures failed { MayFail result }
        ensures ok { OnOk result (self.new ≡ with_entry self.old entry) }
        ensures fault { result ≡ Err CoordError.Fault →
            self.new ≡ with_failed_entry self.old entry }
        ensures no_memory { result ≡ Err CoordError.NoMemory → self.new ≡ self.old }
        ensures unwritten { result ≡ Err CoordError.NoMemory → disk.new ≡ disk.old }
        ensures tied { IsFrontOf self.old → IsFrontOf self.new }
        ensures backed { IsBackedOn R.RecordLog D.Disk disk.new (self.new).content }
        ensures images { After D.Disk (Appends R.mine R.stands (self.old).content
            (coord_batch entry)) disk.old disk.new }
        ensures others { ChangesOnly (R.mine (self.old).content.key) (D.seen disk.old)
            (D.seen disk.new) }
        ensures cause { FaultsIn D.Disk (self.old).content.key.part disk.old disk.new
            (result ≡ Err CoordError.Fault) }
    {
        self.log.reserve(2, FRAME)?;
        self.rebuilt.table.reserve(1)?;
        match log_entry(
            &mut self.log,
            &mut self.rebuilt.table,
            &mut self.bytes,
            disk,
            entry,
        ) {
            Ok(()) => {
                self.at = self.log.len();
                Ok(())
            }
            Err(Failed) => {
                self.at = 0;
                self.whole = false;
                self.reserved = false;
                Err(CoordError::Fault)
            }
        }
    }

    /// The id of the transaction that is begun next.
    fn next_txn(&self) -> TxnId
        ensures { result ≡ next_txn self.now }
    {
        TxnId {
            most: 0,
            least: self.rebuilt.table.count(),
        }
    }

    /// Begins a transaction, with a deadline so many milliseconds after `now`, which is at most 2^62. It gets the next
    /// number.
    pub fn begin<D: Disk>(
        &mut self,
        disk: &mut D,
        now: u64,
        timeout: u64,
    ) -> Result<TxnId, CoordError>
        requires whole { IsTrue (self.old).whole }
        requires now { now ≤ 2 ^ 62 }
        requires backed { IsBackedOn R.RecordLog D.Disk disk.old (self.old).content }
        ensures refused { MatchOption (begin_refusal self.old timeout) (MayFail result)
            (λ refusal. result ≡ Err refusal) }
        ensures told { IfOk result (λ txn. txn ≡ next_txn self.old) }
        ensures ok { OnOk result (self.new ≡ with_entry self.old
            (CoordEntry.New (next_txn self.old) (now + timeout))) }
        ensures fault { result ≡ Err CoordError.Fault →
            self.new ≡ with_failed_entry self.old
            (CoordEntry.New (next_txn self.old) (now + timeout)) }
        ensures same { IfErr result (λ e. (e ≡ CoordError.Fault → ⊥) → self.new ≡ self.old) }
        ensures unwritten { IfErr result (λ e. (e ≡ CoordError.Fault → ⊥) → disk.new ≡ disk.old) }
        ensures tied { IsFrontOf self.old → IsFrontOf self.new }
        ensures backed { IsBackedOn R.RecordLog D.Disk disk.new (self.new).content }
        ensures images { After D.Disk (Appends R.mine R.stands (self.old).content
            (coord_batch (CoordEntry.New (next_txn self.old) (now + timeout)))) disk.old disk.new }
        ensures others { ChangesOnly (R.mine (self.old).content.key) (D.seen disk.old)
            (D.seen disk.new) }
        ensures cause { FaultsIn D.Disk (self.old).content.key.part disk.old disk.new
            (result ≡ Err CoordError.Fault) }
    {
        let _ = &self.rebuilt.table;
        if let Some(refusal) = self.begin_refusal(timeout) {
            return Err(refusal);
        }
        let txn = self.next_txn();
        let deadline = now + timeout;
        self.add_entry(disk, CoordEntry::New { txn, deadline })?;
        Ok(txn)
    }

    /// Adds a part that has a name to an open transaction. A part that it has already changes nothing.
    pub fn add<D: Disk>(&mut self, disk: &mut D, txn: TxnId, part: u32) -> Result<(), CoordError>
        requires whole { IsTrue (self.old).whole }
        requires least { 1 ≤ part }
        requires most { part ≤ (self.old).named }
        requires backed { IsBackedOn R.RecordLog D.Disk disk.old (self.old).content }
        ensures refused { MatchOption (add_refusal self.old txn part) (MayFail result)
            (λ refusal. result ≡ Err refusal) }
        ensures repeated { add_refusal self.old txn part ≡ None →
            has_part self.old txn part ≡ true → IsOk result }
        ensures nothing { has_part self.old txn part ≡ true → disk.new ≡ disk.old }
        ensures ok { OnOk result (self.new ≡ with_part self.old txn part) }
        ensures fault { result ≡ Err CoordError.Fault →
            self.new ≡ with_failed_entry self.old (CoordEntry.AddPart txn part) }
        ensures same { IfErr result (λ e. (e ≡ CoordError.Fault → ⊥) → self.new ≡ self.old) }
        ensures unwritten { IfErr result (λ e. (e ≡ CoordError.Fault → ⊥) → disk.new ≡ disk.old) }
        ensures tied { IsFrontOf self.old → IsFrontOf self.new }
        ensures backed { IsBackedOn R.RecordLog D.Disk disk.new (self.new).content }
        ensures images { After D.Disk (Appends R.mine R.stands (self.old).content
            (coord_batch (CoordEntry.AddPart txn part))) disk.old disk.new }
        ensures others { ChangesOnly (R.mine (self.old).content.key) (D.seen disk.old)
            (D.seen disk.new) }
        ensures cause { FaultsIn D.Disk (self.old).content.key.part disk.old disk.new
            (result ≡ Err CoordError.Fault) }
    {
        if let Some(refusal) = self.add_refusal(txn, part) {
            return Err(refusal);
        }
        if self.rebuilt.table.has_part(txn, part) {
            return Ok(());
        }
        self.add_entry(disk, CoordEntry::AddPart { txn, part })
    }

    /// Decides how an open transaction ends, and answers its status. The same decision again changes nothing.
    pub fn decide<D: Disk>(
        &mut self,
        disk: &mut D,
        txn: TxnId,
        decision: Decision,
    ) -> Result<Status, CoordError>
        requires whole { IsTrue (self.old).whole }
        requires backed { IsBackedOn R.RecordLog D.Disk disk.old (self.old).content }
        ensures refused { MatchOption (decide_refusal self.old txn decision) (MayFail result)
            (λ refusal. result ≡ Err refusal) }
        ensures repeated { decide_refusal self.old txn decision ≡ None →
            is_open (status_in_view self.old txn) ≡ false → IsOk result }
        ensures nothing { is_open (status_in_view self.old txn) ≡ false → disk.new ≡ disk.old }
        ensures told { IfOk result (λ status. status ≡ decided_status self.old txn decision) }
        ensures ok { OnOk result (self.new ≡ decided self.old txn decision) }
        ensures fault { result ≡ Err CoordError.Fault →
            self.new ≡ with_failed_entry self.old (decision_entry txn decision) }
        ensures same { IfErr result (λ e. (e ≡ CoordError.Fault → ⊥) → self.new ≡ self.old) }
        ensures unwritten { IfErr result (λ e. (e ≡ CoordError.Fault → ⊥) → disk.new ≡ disk.old) }
        ensures tied { IsFrontOf self.old → IsFrontOf self.new }
        ensures backed { IsBackedOn R.RecordLog D.Disk disk.new (self.new).content }
        ensures images { After D.Disk (Appends R.mine R.stands (self.old).content
            (coord_batch (decision_entry txn decision))) disk.old disk.new }
        ensures others { ChangesOnly (R.mine (self.old).content.key) (D.seen disk.old)
            (D.seen disk.new) }
        ensures cause { FaultsIn D.Disk (self.old).content.key.part disk.old disk.new
            (result ≡ Err CoordError.Fault) }
    {
        if let Some(refusal) = self.decide_refusal(txn, decision) {
            return Err(refusal);
        }
        match self.rebuilt.table.status(txn) {
            None => Err(CoordError::NotFound),
            Some(Status::Open) => {
                self.add_entry(disk, decision_entry(txn, decision))?;
                Ok(deciding(decision))
            }
            Some(status) => Ok(status),
        }
    }

    /// The entry that closes a decided transaction.
    fn close_of(&self, txn: TxnId) -> CoordEntry
        ensures entry { result ≡ closing_of_view self.now txn }
        ensures fits { IsCoordEntry result }
        ensures allowed { is_undriven (status_in_view self.now txn) ≡ true →
            may_follow self.now.named self.now.front result ≡ true }
    {
        let _count = self.rebuilt.table.count();
        let decision = self.rebuilt.table.decision(txn).unwrap_or(Decision::Commit);
        closing_entry(txn, decision)
    }

    /// Closes a transaction that is decided and not closed, by its decision. It takes no memory, and uses up the room that
    /// was reserved. Each part of the transaction has its marker by then: that is the caller's to see to.
    pub fn close<D: Disk>(&mut self, disk: &mut D, txn: TxnId) -> Result<(), Failed>
        requires whole { IsTrue (self.old).whole }
        requires reserved { (self.old).reserved ≡ 1 }
        requires undriven { is_undriven (status_in_view self.old txn) ≡ true }
        requires backed { IsBackedOn R.RecordLog D.Disk disk.old (self.old).content }
        ensures ok { OnOk result (self.new ≡ reserving 0
            (with_entry self.old (closing_of_view self.old txn))) }
        ensures fault { OnErr result (self.new ≡ with_failed_entry self.old
            (closing_of_view self.old txn)) }
        ensures tied { IsFrontOf self.old → IsFrontOf self.new }
        ensures backed { IsBackedOn R.RecordLog D.Disk disk.new (self.new).content }
        ensures images { After D.Disk (Appends R.mine R.stands (self.old).content
            (coord_batch (closing_of_view self.old txn))) disk.old disk.new }
        ensures others { ChangesOnly (R.mine (self.old).content.key) (D.seen disk.old)
            (D.seen disk.new) }
        ensures cause { FailsIn D.Disk (self.old).content.key.part disk.old disk.new result }
    {
        let entry = self.close_of(txn);
        self.reserved = false;
        match log_entry(
            &mut self.log,
            &mut self.rebuilt.table,
            &mut self.bytes,
            disk,
            entry,
        ) {
            Ok(()) => {
                self.at = self.log.len();
                Ok(())
            }
            Err(failed) => {
                self.at = 0;
                self.whole = false;
                Err(failed)
            }
        }
    }
}
