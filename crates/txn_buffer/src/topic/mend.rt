//! Rebuilding a topic from its ledger, step by step.
ghost use Rattle.txn_ledger.specs.Reading.{IsBackedOn};
ghost use Rattle.std.specs.Prelude.{◌≡◌, ◌≤◌, ◌+◌, ℕ, IsTrue, IsOk, length, Ok, Err, IfOk, OnOk, OnErr};
ghost use Rattle.txn_base.specs.declared.file_id.FileId.{FileId};
ghost use Rattle.txn_base.specs.Content.{settled, looked_at, Settles};
ghost use Rattle.txn_base.specs.Disk.{ChangesOnly};
ghost use Rattle.txn_base.specs.Moves.{After, FaultsIn};
ghost use Rattle.txn_replay.specs.Settling.{MayHaveSettled};
ghost use Rattle.txn_buffer.specs.Mending.{Mends, IsRefusedStep, MendsWhole, IsRefusedWhole, IsInStep, IsFirstBadRecord, step_of};
ghost use Rattle.txn_buffer.specs.View.{IsFrontOf, topic_total};

use crate::topic::Topic;
use std::sync::ledger;
use txn_base::{Disk, MendError, Progress, Steps};
use txn_ledger::RecordLog;
use txn_replay::{replay_step, replay_whole, settle_log};

impl<R: RecordLog> Topic<R> {
    /// Settles the list where it isn't settled, and replays the next records: a step of them, or all that are left. A step
    /// that is refused leaves the front as it was. On a whole topic it does nothing.
    pub fn mend_step<D: Disk, L: ledger::Ledger>(
        &mut self,
        disk: &mut D,
        steps: &mut Steps<L>,
    ) -> Result<Progress, MendError>
        requires standing { self.old.content.standing ≡ looked_at → ⊥ }
        requires backed { IsBackedOn R.RecordLog D.Disk disk.old self.old.content }
        ensures idle { IsTrue self.old.whole →
            (self.new ≡ self.old) × (disk.new ≡ disk.old) × (steps.new ≡ steps.old)
            × (result ≡ Ok (record { at = topic_total self.old; total = topic_total self.old })) }
        ensures ok { IfOk result (λ told. Mends self.old self.new told) }
        ensures err { OnErr result (IsRefusedStep self.old self.new) }
        ensures counted { OnOk result (steps.new ≡ steps.old + step_of self.old
            (topic_total self.new)) }
        ensures steps_most { steps.new ≤ steps.old + step_of self.old (topic_total self.new) }
        ensures settled { MayHaveSettled self.old.content self.new.content }
        ensures standing { self.new.content.standing ≡ looked_at → ⊥ }

        // What was settled is what the files stood for at the call.
        ensures found { D.tells → self.new.content.standing ≡ settled →
            R.stands self.old.content.key (D.seen disk.old) self.new.content.batches }

        // Damage is told of a record of this step, the first that is outside the grammar or not allowed after those before it.
        ensures damaged { (place : ℕ) → result ≡ Err (MendError.Damaged place) →
            IsInStep self.old (topic_total self.new) place }
        ensures first_bad { (place : ℕ) → result ≡ Err (MendError.Damaged place) → D.tells →
            IsFrontOf self.old → IsFirstBadRecord self.new.content.batches place }
        ensures tied { D.tells → IsFrontOf self.old → IsFrontOf self.new }
        ensures backed { IsBackedOn R.RecordLog D.Disk disk.new self.new.content }
        ensures images { After D.Disk (Settles R.mine R.stands self.old.content) disk.old disk.new }
        ensures others { ChangesOnly (R.mine self.old.content.key) (D.seen disk.old)
            (D.seen disk.new) }
        ensures cause { FaultsIn D.Disk self.old.content.key.part disk.old disk.new
            (result ≡ Err MendError.Fault) }
    {
        if self.whole {
            let total = self.log.len();
            return Ok(Progress { at: total, total });
        }
        if settle_log(&mut self.log, disk).is_err() {
            return Err(MendError::Fault);
        }
        let mut at = self.front.len();
        replay_step(
            self.alloc,
            &self.log,
            &mut self.front,
            disk,
            &mut at,
            self.limits.step,
            steps,
        )?;
        let total = self.log.len();
        self.whole = at == total;
        Ok(Progress { at, total })
    }

    /// Settles the list where it isn't settled, and replays all its records, in steps as `mend_step` takes them. Where one is
    /// refused, the steps before it stand, so that the next call goes on there. On a whole topic it does nothing.
    #[tactic(auto, using(crate::proofs::Tied::extends_same))]
    pub fn mend_whole<D: Disk, L: ledger::Ledger>(
        &mut self,
        disk: &mut D,
        steps: &mut Steps<L>,
    ) -> Result<(), MendError>
        requires standing { self.old.content.standing ≡ looked_at → ⊥ }
        requires backed { IsBackedOn R.RecordLog D.Disk disk.old self.old.content }
        ensures idle { IsTrue self.old.whole →
            IsOk result × (self.new ≡ self.old) × (disk.new ≡ disk.old) × (steps.new ≡ steps.old) }
        ensures ok { OnOk result (MendsWhole self.old self.new) }
        ensures err { OnErr result (IsRefusedWhole self.old self.new) }
        ensures counted { OnOk result
            (steps.new + length self.old.front ≡ steps.old + length self.new.front) }
        ensures steps_most { steps.new + length self.old.front ≤ steps.old + length self.new.front +
            self.old.limits.step }
        ensures settled { MayHaveSettled self.old.content self.new.content }
        ensures standing { self.new.content.standing ≡ looked_at → ⊥ }

        // What was settled is what the files stood for at the call.
        ensures found { D.tells → self.new.content.standing ≡ settled →
            R.stands self.old.content.key (D.seen disk.old) self.new.content.batches }

        // Damage is told of a record of the step behind those that were done, the first that is bad.
        ensures damaged { (place : ℕ) → result ≡ Err (MendError.Damaged place) →
            IsInStep self.new (topic_total self.new) place }
        ensures first_bad { (place : ℕ) → result ≡ Err (MendError.Damaged place) → D.tells →
            IsFrontOf self.old → IsFirstBadRecord self.new.content.batches place }
        ensures tied { D.tells → IsFrontOf self.old → IsFrontOf self.new }
        ensures backed { IsBackedOn R.RecordLog D.Disk disk.new self.new.content }
        ensures images { After D.Disk (Settles R.mine R.stands self.old.content) disk.old disk.new }
        ensures others { ChangesOnly (R.mine self.old.content.key) (D.seen disk.old)
            (D.seen disk.new) }
        ensures cause { FaultsIn D.Disk self.old.content.key.part disk.old disk.new
            (result ≡ Err MendError.Fault) }
    {
        if self.whole {
            return Ok(());
        }
        if settle_log(&mut self.log, disk).is_err() {
            return Err(MendError::Fault);
        }
        let mut at = self.front.len();
        replay_whole(
            self.alloc,
            &self.log,
            &mut self.front,
            disk,
            &mut at,
            self.limits.step,
            steps,
        )?;
        self.whole = true;
        Ok(())
    }
}
