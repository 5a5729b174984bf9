//! A gate is opened over a frame that is durable.
ghost use Rattle.std.specs.Prelude.{◌≡◌, ◌+◌, ◌<◌, ◌≤◌, ◌∷◌, length, drop, OnOk};
ghost use Rattle.txn_base.specs.Disk.{Files, Elsewhere, Changes, Only};
ghost use Rattle.txn_base.specs.Outside.{counted};
ghost use Rattle.txn_base.specs.Moves.{FailsIn, After};
ghost use Rattle.txn_ledger.specs.Gate.{IsClosedAt, MayOpen};

use txn_base::{Disk, Failed, FileId};

/// Opens the gate.
pub fn open_gate<D: Disk>(disk: &mut D, file: FileId, end: u64) -> Result<(), Failed>
    requires closed { (c : Files) → D.image disk.old c → IsClosedAt end (c file) }
    requires durable { Only file (D.seen disk.old file) (D.image disk.old) }
    requires some { D.tells → end < length (D.seen disk.old file) }
    ensures images { After D.Disk (Changes file (MayOpen end (drop (end + 1) (D.seen disk.old file)))) disk.old disk.new }
    ensures opened { OnOk result ((c : Files) → D.image disk.new c → drop end (c file) ≡ 1 ∷ drop (end + 1) (D.seen disk.old file)) }
    ensures others { Elsewhere file (D.seen disk.old) (D.seen disk.new) }
    ensures cause { FailsIn D.Disk file.part disk.old disk.new result }
    ensures calls { OnOk result (D.calls disk.new ≡ counted 2 (D.calls disk.old)) }
    ensures few { D.calls disk.new ≤ counted 2 (D.calls disk.old) }
{
    disk.write_at(file, end, &[1])?;
    disk.sync(file)?;
    Ok(())
}
