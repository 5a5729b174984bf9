//! The coordinator, opened and rebuilt.
ghost use Rattle.std.specs.Prelude.{◌≡◌, ◌≤◌, ℕ, Err, IfOk, IsTrue, length};
ghost use Rattle.txn_base.specs.Disk.{Elsewhere, Changes};
ghost use Rattle.txn_base.specs.Limits.{InRange};
ghost use Rattle.txn_base.specs.Moves.{After, FaultsIn};
ghost use Rattle.txn_base.specs.declared.file_id.FileId.{FileId};
ghost use Rattle.txn_ledger.specs.Found.{KeepsDamaged, KeepsFile};
ghost use Rattle.txn_ledger.specs.Ledger.{Stored};
ghost use Rattle.txn_model.specs.Deadlines.{low_of};
ghost use Rattle.txn_model.specs.Sound.{ledger_file};
ghost use Rattle.txn_coordinator.specs.View.{coord_total};
ghost use Rattle.txn_engine.specs.Kept.{IsCoordinator};
ghost use Rattle.txn_engine.specs.Opening.{IsCoordinatorOf, IsDamagedLog};

use crate::opening::EngineError;
use crate::opening::unopened::{unmended, unopened};
use std::alloc::Global;
use std::sync::ledger;
use txn_base::{Disk, FileId, Limits, PartState, Steps};
use txn_coordinator::Coordinator;
use txn_ledger::Ledger;

/// Opens the ledger of the coordinator, and replays all of it, where so many parts are named.
pub fn open_coordinator<D: Disk, L: ledger::Ledger>(
    alloc: Global,
    named: u32,
    limits: &Limits,
    disk: &mut D,
    steps: &mut Steps<L>,
) -> Result<Coordinator<Ledger>, EngineError>
    requires named { named ≤ 62 }
    requires limits { InRange limits.now }
    ensures opened { IfOk result (λ c. IsCoordinator limits.now named c × IsTrue c.whole
        × (c.opened_low ≡ low_of c.front)) }
    ensures backed { IfOk result (λ c. Stored (D.image disk.new) c.content) }
    ensures told { D.tells →
        IfOk result (λ c. IsCoordinatorOf named c (D.seen disk.old (ledger_file 0))) }
    ensures damaged { (file : FileId) (entry : ℕ) → result ≡ Err (EngineError.Damaged file entry) →
        (file ≡ ledger_file 0) × (D.tells →
        IsDamagedLog named (D.seen disk.old (ledger_file 0)) entry) }
    ensures uncut { D.tells →
        KeepsDamaged (D.seen disk.old (ledger_file 0)) (D.seen disk.new (ledger_file 0)) }
    ensures images { After D.Disk (Changes (ledger_file 0) KeepsFile) disk.old disk.new }
    ensures others { Elsewhere (ledger_file 0) (D.seen disk.old) (D.seen disk.new) }
    ensures cause { FaultsIn D.Disk 0 disk.old disk.new (result ≡ Err EngineError.Fault) }
{
    let file = FileId { part: 0, row: 2 };
    let log = match Ledger::open_file(alloc, disk, file) {
        Ok(log) => log,
        Err(error) => return Err(unopened(file, error)),
    };
    let Ok(mut coordinator) = Coordinator::over_named(alloc, log, limits, named) else {
        return Err(EngineError::NoMemory);
    };
    while !is_whole(&coordinator) {
        if let Err(error) = coordinator.mend_step(disk, steps) {
            return Err(unmended(file, error));
        }
    }
    Ok(coordinator)
}

/// All of its log is replayed.
fn is_whole(coordinator: &Coordinator<Ledger>) -> bool
    ensures whole { result ≡ coordinator.now.whole }
    ensures within { length coordinator.now.front ≤ coord_total coordinator.now }
    ensures all { IsTrue coordinator.now.whole →
        length coordinator.now.front ≡ coord_total coordinator.now }
{
    matches!(coordinator.state(), PartState::Whole)
}
