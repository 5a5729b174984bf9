//! How a transaction ends: the entries of its decision and of its close, and the statuses on the way.
ghost use Rattle.std.specs.Prelude.{◌≡◌};
ghost use Rattle.txn_model.specs.Coord.{deciding};
ghost use Rattle.txn_model.specs.Table.{decision_entry, closing_entry};

use txn_base::{CoordEntry, Decision, Status, TxnId};

/// The entry that decides a transaction so.
pub fn decision_entry(txn: TxnId, decision: Decision) -> CoordEntry
    ensures { result ≡ decision_entry txn decision }
{
    match decision {
        Decision::Commit => CoordEntry::Committing { txn },
        Decision::Abort => CoordEntry::Aborting { txn },
    }
}

/// The entry that closes a transaction by its decision.
pub fn closing_entry(txn: TxnId, decision: Decision) -> CoordEntry
    ensures { result ≡ closing_entry txn decision }
{
    match decision {
        Decision::Commit => CoordEntry::Committed { txn },
        Decision::Abort => CoordEntry::Aborted { txn },
    }
}

/// The status of a transaction that is decided so and not closed.
pub fn deciding(decision: Decision) -> Status
    ensures { result ≡ deciding decision }
{
    match decision {
        Decision::Commit => Status::Committing,
        Decision::Abort => Status::Aborting,
    }
}
