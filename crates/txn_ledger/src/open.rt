//! A file that a crash may have left is brought to its frames.
ghost use Rattle.std.specs.Prelude.{◌≡◌, ◌≤◌, ℕ, Err, IfOk};
ghost use Rattle.txn_base.specs.Disk.{Elsewhere, Changes};
ghost use Rattle.txn_base.specs.Frames.{IsDamagedAt};
ghost use Rattle.txn_base.specs.Moves.{After, FaultsIn};
ghost use Rattle.txn_base.specs.Outside.{counted};
ghost use Rattle.txn_ledger.specs.Found.{KeepsDamaged, KeepsFile};
ghost use Rattle.txn_ledger.specs.Ledger.{StandsIn, Stored};
ghost use Rattle.txn_ledger.specs.Tied.{IsScanned};

use crate::OpenError;
use crate::found::Found;
use crate::scan::scan;
use crate::settle::cut;
use std::alloc::Global;
use txn_base::{Disk, FileId};

/// Reads the frames of a file, and cuts off what stands behind them.
pub fn find<D: Disk>(alloc: Global, disk: &mut D, file: FileId) -> Result<Found, OpenError>
    ensures key { IfOk result (λ found. found.carrier.content.key ≡ file) }
    ensures scanned { IfOk result (λ found. IsScanned found.carrier.content found.end found.positions.items) }
    ensures backed { IfOk result (λ found. Stored (D.image disk.new) found.carrier.content) }
    ensures told { D.tells → IfOk result (λ found. StandsIn file (D.seen disk.old) found.carrier.content.batches) }
    ensures damaged { (entry : ℕ) → result ≡ Err (OpenError.Damaged entry) → D.tells → IsDamagedAt (D.seen disk.old file) entry }
    ensures uncut { D.tells → KeepsDamaged (D.seen disk.old file) (D.seen disk.new file) }
    ensures images { After D.Disk (Changes file KeepsFile) disk.old disk.new }
    ensures others { Elsewhere file (D.seen disk.old) (D.seen disk.new) }
    ensures cause { FaultsIn D.Disk file.part disk.old disk.new (result ≡ Err OpenError.Fault) }
    ensures writes { D.writes disk.new ≤ counted 3 (D.writes disk.old) }
{
    disk.sync(file)?;
    let size = disk.size(file)?;
    let found = scan(alloc, disk, file, size)?;
    if found.end == size {
        return Ok(found);
    }
    cut(disk, file, found.end)?;
    Ok(found)
}
