//! The end of an append that failed.
ghost use Rattle.std.specs.Prelude.{◌≡◌, IsErr, OnOk, OnErr};
ghost use Rattle.txn_base.specs.declared.file_id.FileId.{FileId};
ghost use Rattle.txn_base.specs.Content.{settled, looked_at, Settles};
ghost use Rattle.txn_base.specs.Disk.{ChangesOnly};
ghost use Rattle.txn_base.specs.Moves.{After, FaultsIn};
ghost use Rattle.txn_ledger.specs.Reading.{IsBackedOn, ReadsOn};
ghost use Rattle.txn_replay.specs.Settling.{MayHaveSettled};

use txn_base::{Disk, Failed};
use txn_ledger::RecordLog;

/// Settles a log that isn't settled.
pub fn settle_log<D: Disk, R: RecordLog>(log: &mut R, disk: &mut D) -> Result<(), Failed>
    requires standing { (R.content log.old).standing ≡ looked_at → ⊥ }
    requires backed { IsBackedOn R.RecordLog D.Disk disk.old (R.content log.old) }
    ensures ok { OnOk result ((R.content log.new).standing ≡ settled) }
    ensures err { OnErr result (R.content log.new ≡ R.content log.old) }
    ensures content { MayHaveSettled (R.content log.old) (R.content log.new) }
    ensures found { D.tells → OnOk result
        (R.stands (R.content log.old).key (D.seen disk.old) (R.content log.new).batches) }
    ensures unfound { OnErr result ((R.content log.new).standing ≡ settled → ⊥) }
    ensures backed { IsBackedOn R.RecordLog D.Disk disk.new (R.content log.new) }
    ensures reads { ReadsOn R.RecordLog D.Disk disk.new (R.content log.new) }
    ensures images { After D.Disk (Settles R.mine R.stands (R.content log.old)) disk.old disk.new }
    ensures others { ChangesOnly (R.mine (R.content log.old).key)
        (D.seen disk.old) (D.seen disk.new) }
    ensures cause { FaultsIn D.Disk (R.content log.old).key.part disk.old disk.new (IsErr result) }
{
    if log.is_settled() {
        return Ok(());
    }
    match log.settle(disk) {
        Ok(_) => Ok(()),
        Err(failed) => Err(failed),
    }
}
