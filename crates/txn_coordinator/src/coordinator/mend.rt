//! The replay of the log, in steps.
ghost use Rattle.txn_ledger.specs.Reading.{IsBackedOn};
ghost use Rattle.std.specs.Prelude.{◌≡◌, ◌≤◌, ◌<◌, ◌+◌, ℕ, length, Err, IsErr, IsTrue, IsOk, IfOk, IfErr, OnOk, OnErr, if◌then◌else◌};
ghost use Rattle.txn_base.specs.declared.file_id.FileId.{FileId};
ghost use Rattle.txn_base.specs.Content.{settled, looked_at, Settles};
ghost use Rattle.txn_base.specs.Disk.{ChangesOnly};
ghost use Rattle.txn_base.specs.Moves.{After, FaultsIn};
ghost use Rattle.txn_coordinator.specs.Mending.{AreRecordsTo, AreReplayed, IsFirstBadRecord, IsSettledFrom, IsInStep, Mends, IsRefusedStep, MendsWhole, IsRefusedWhole};
ghost use Rattle.txn_model.specs.Coord.{CoordLawful};
ghost use Rattle.txn_model.specs.Deadlines.{low_of};
ghost use Rattle.txn_model.specs.Skeletons.{coord_skeletons};
ghost use Rattle.txn_coordinator.specs.View.{coord_total, IsFrontOf};

use crate::coordinator::Coordinator;
use std::sync::ledger;
use txn_base::{Disk, MendError, Progress, Steps};
use txn_ledger::RecordLog;
use txn_replay::{replay_step, replay_whole, settle_log};
use txn_table::Table;

/// The low watermark of the opening: that of the moment when a coordinator is whole for the first time.
fn opening_low(before: u64, was_whole: bool, whole: bool, table: &Table) -> u64
    ensures { result ≡ (if was_whole then before else
        (if whole then low_of table.now.front else before)) }
{
    if was_whole || !whole {
        return before;
    }
    table.low()
}

impl<R: RecordLog> Coordinator<R> {
    /// Settles the log, and adds the entries of its next records: `step` of them, or all that are left. Each is read once.
    /// An entry that adds a part that has no name isn't allowed. A step that is refused adds none. On a coordinator that is
    /// whole it does nothing.
    #[tactic(auto, using(crate::proofs::Replayed::settled_from))]
    pub fn mend_step<D: Disk, L: ledger::Ledger>(
        &mut self,
        disk: &mut D,
        steps: &mut Steps<L>,
    ) -> Result<Progress, MendError>
        requires standing { (self.old).content.standing ≡ looked_at → ⊥ }
        requires backed { IsBackedOn R.RecordLog D.Disk disk.old (self.old).content }
        ensures already { IsTrue (self.old).whole → IsOk result }
        ensures nothing { IsTrue (self.old).whole → self.new ≡ self.old }
        ensures idle { IsTrue (self.old).whole → (disk.new ≡ disk.old) × (steps.new ≡ steps.old) }
        ensures ok { OnOk result (Mends self.old self.new) }
        ensures told { IfOk result (λ progress. progress ≡
            record { at = length (self.new).front; total = coord_total self.new }) }
        ensures err { OnErr result (IsRefusedStep self.old self.new) }
        ensures settled { IfErr result (λ e. (e ≡ MendError.Fault → ⊥) →
            IsSettledFrom (self.old).content (self.new).content) }
        ensures standing { (self.new).content.standing ≡ looked_at → ⊥ }

        // What was settled is what the files stood for at the call.
        ensures found { D.tells → (self.new).content.standing ≡ settled →
            R.stands (self.old).content.key (D.seen disk.old) (self.new).content.batches }
        ensures read { D.tells →
            OnOk result (AreRecordsTo (self.new).content (length (self.old).front)
            (length (self.new).front) (self.new).front) }
        ensures damaged { (place : ℕ) → result ≡ Err (MendError.Damaged place) →
            IsInStep self.old self.new place }
        ensures bad { D.tells → AreReplayed (self.old).named (self.old).content (self.old).front →
            (place : ℕ) → result ≡ Err (MendError.Damaged place) →
            IsFirstBadRecord (self.old).named (self.new).content place }
        ensures counted { OnOk result (steps.new + length (self.old).front ≡ steps.old + length
            (self.new).front) }
        ensures few { steps.new ≤ steps.old + (self.old).limits.step }
        ensures tied { D.tells → IsFrontOf self.old → IsFrontOf self.new }
        ensures replayed { D.tells →
            AreReplayed (self.old).named (self.old).content (self.old).front →
            AreReplayed (self.old).named (self.new).content (self.new).front }
        ensures lawful { CoordLawful (self.old).named (coord_skeletons (self.new).front) }
        ensures backed { IsBackedOn R.RecordLog D.Disk disk.new (self.new).content }
        ensures images { After D.Disk (Settles R.mine R.stands
            (self.old).content) disk.old disk.new }
        ensures others { ChangesOnly (R.mine (self.old).content.key) (D.seen disk.old)
            (D.seen disk.new) }
        ensures cause { FaultsIn D.Disk (self.old).content.key.part disk.old disk.new
            (result ≡ Err MendError.Fault) }
    {
        let before = self.log.len();
        if self.whole {
            return Ok(Progress {
                at: before,
                total: before,
            });
        }
        self.reserved = false;
        if settle_log(&mut self.log, disk).is_err() {
            return Err(MendError::Fault);
        }
        let _count = self.rebuilt.table.count();
        let step = self.limits.step;
        replay_step(
            self.alloc,
            &self.log,
            &mut self.rebuilt,
            disk,
            &mut self.at,
            step,
            steps,
        )?;
        let at = self.at;
        let total = self.log.len();
        let whole = at == total;
        self.opened_low = opening_low(self.opened_low, self.was_whole, whole, &self.rebuilt.table);
        self.was_whole = self.was_whole || whole;
        self.whole = whole;
        Ok(Progress { at, total })
    }

    /// Settles the log, and adds the entries of all its records, in steps as `mend_step` takes them. Each is read once. Where
    /// one is refused, the steps before it stand, so that the next call goes on there.
    #[tactic(auto, using(crate::proofs::Replayed::settled_from, crate::proofs::Replayed::extends_same))]
    pub fn mend_whole<D: Disk, L: ledger::Ledger>(
        &mut self,
        disk: &mut D,
        steps: &mut Steps<L>,
    ) -> Result<(), MendError>
        requires standing { (self.old).content.standing ≡ looked_at → ⊥ }
        requires step { 1 ≤ (self.old).limits.step }
        requires backed { IsBackedOn R.RecordLog D.Disk disk.old (self.old).content }
        ensures already { IsTrue (self.old).whole → IsOk result }
        ensures nothing { IsTrue (self.old).whole → self.new ≡ self.old }
        ensures idle { IsTrue (self.old).whole → (disk.new ≡ disk.old) × (steps.new ≡ steps.old) }
        ensures ok { OnOk result (MendsWhole self.old self.new) }
        ensures err { OnErr result (IsRefusedWhole self.old self.new) }
        ensures settled { IfErr result (λ e. (e ≡ MendError.Fault → ⊥) →
            IsSettledFrom (self.old).content (self.new).content) }
        ensures standing { (self.new).content.standing ≡ looked_at → ⊥ }

        // What was settled is what the files stood for at the call.
        ensures found { D.tells → (self.new).content.standing ≡ settled →
            R.stands (self.old).content.key (D.seen disk.old) (self.new).content.batches }
        ensures read { D.tells →
            OnOk result (AreRecordsTo (self.new).content (length (self.old).front)
            (length (self.new).front) (self.new).front) }

        // Damage is told of a record of the step behind those that were done.
        ensures damaged { (place : ℕ) → result ≡ Err (MendError.Damaged place) →
            IsInStep self.new self.new place }
        ensures bad { D.tells → AreReplayed (self.old).named (self.old).content (self.old).front →
            (place : ℕ) → result ≡ Err (MendError.Damaged place) →
            IsFirstBadRecord (self.old).named (self.new).content place }
        ensures counted { OnOk result (steps.new + length (self.old).front ≡ steps.old + length
            (self.new).front) }
        ensures few { steps.new + length (self.old).front ≤ steps.old + length (self.new).front +
            (self.old).limits.step }
        ensures tied { D.tells → IsFrontOf self.old → IsFrontOf self.new }
        ensures replayed { D.tells →
            AreReplayed (self.old).named (self.old).content (self.old).front →
            AreReplayed (self.old).named (self.new).content (self.new).front }
        ensures lawful { CoordLawful (self.old).named (coord_skeletons (self.new).front) }
        ensures backed { IsBackedOn R.RecordLog D.Disk disk.new (self.new).content }
        ensures images { After D.Disk (Settles R.mine R.stands
            (self.old).content) disk.old disk.new }
        ensures others { ChangesOnly (R.mine (self.old).content.key) (D.seen disk.old)
            (D.seen disk.new) }
        ensures cause { FaultsIn D.Disk (self.old).content.key.part disk.old disk.new
            (result ≡ Err MendError.Fault) }
    {
        let _before = self.log.len();
        if self.whole {
            return Ok(());
        }
        self.reserved = false;
        if settle_log(&mut self.log, disk).is_err() {
            return Err(MendError::Fault);
        }
        let _count = self.rebuilt.table.count();
        replay_whole(
            self.alloc,
            &self.log,
            &mut self.rebuilt,
            disk,
            &mut self.at,
            self.limits.step,
            steps,
        )?;
        self.opened_low = opening_low(self.opened_low, self.was_whole, true, &self.rebuilt.table);
        self.was_whole = true;
        self.whole = true;
        Ok(())
    }
}
