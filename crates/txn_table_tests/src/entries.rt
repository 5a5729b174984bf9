//! The entries that lists are made of.
ghost use Rattle.txn_base.specs.Records.{IsCoordEntry};

use txn_base::{CoordEntry, TxnId};

/// How many there are.
pub const CHOICES: u64 = 12;

/// The transaction with this sequence number, of the one coordinator that there is.
pub fn numbered(least: u64) -> TxnId {
    TxnId { most: 0, least }
}

/// The entry of this number: six kinds of the first transaction, then of the second.
pub fn entry_of(choice: u64) -> CoordEntry
    ensures { IsCoordEntry result }
{
    let second = choice % CHOICES >= 6;
    let txn = numbered(if second { 1 } else { 0 });
    match choice % 6 {
        0 => CoordEntry::New {
            txn,
            deadline: 60_000,
        },
        1 => CoordEntry::AddPart { txn, part: 1 },
        2 => CoordEntry::Committing { txn },
        3 => CoordEntry::Committed { txn },
        4 => CoordEntry::Aborting { txn },
        _ => CoordEntry::Aborted { txn },
    }
}

/// Entries that no list has: of a part more, of the greatest part and of one past it, of a third transaction, and of another
/// coordinator's.
pub fn entry_beside(choice: u64) -> CoordEntry {
    let elsewhere = TxnId { most: 1, least: 0 };
    match choice {
        0 => CoordEntry::AddPart {
            txn: numbered(0),
            part: 2,
        },
        1 => CoordEntry::AddPart {
            txn: numbered(0),
            part: 62,
        },
        2 => CoordEntry::AddPart {
            txn: numbered(0),
            part: 63,
        },
        3 => CoordEntry::AddPart {
            txn: numbered(0),
            part: 0,
        },
        4 => CoordEntry::New {
            txn: numbered(2),
            deadline: 60_000,
        },
        5 => CoordEntry::New {
            txn: elsewhere,
            deadline: 60_000,
        },
        _ => CoordEntry::Committing { txn: elsewhere },
    }
}
