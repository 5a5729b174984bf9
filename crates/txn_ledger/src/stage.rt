//! All of a frame but its gate byte is brought to the disk.
ghost use Rattle.std.specs.Prelude.{◌≡◌, ◌+◌, ◌^◌, ◌<◌, ◌≤◌, length, drop, OnOk};
ghost use Rattle.txn_base.specs.Disk.{Files, Elsewhere, Changes, Only};
ghost use Rattle.txn_base.specs.Outside.{counted};
ghost use Rattle.txn_base.specs.Moves.{After, FailsIn};
ghost use Rattle.txn_ledger.specs.Gate.{IsClosedAt, KeepsClosed};

use txn_base::{Disk, Failed, FileId};

/// Brings all but the gate byte to the disk.
pub fn stage<D: Disk>(disk: &mut D, file: FileId, end: u64, tail: &[u8]) -> Result<(), Failed>
    requires room { end + 1 + length tail.now < 2 ^ 64 }
    requires closed { (c : Files) → D.image disk.old c → IsClosedAt end (c file) }
    ensures images { After D.Disk (Changes file (KeepsClosed end)) disk.old disk.new }
    ensures staged { D.tells → OnOk result (drop (end + 1) (D.seen disk.new file) ≡ tail.now) }
    ensures durable { OnOk result (Only file (D.seen disk.new file) (D.image disk.new)) }
    ensures others { Elsewhere file (D.seen disk.old) (D.seen disk.new) }
    ensures bound { OnOk result (end + 1 + length tail.now ≤ 2 ^ 50) }
    ensures cause { FailsIn D.Disk file.part disk.old disk.new result }
    ensures calls { OnOk result (D.calls disk.new ≡ counted 3 (D.calls disk.old)) }
    ensures few { D.calls disk.new ≤ counted 3 (D.calls disk.old) }
{
    disk.resize(file, end + 1 + tail.len() as u64)?;
    disk.write_at(file, end + 1, tail)?;
    disk.sync(file)?;
    Ok(())
}
