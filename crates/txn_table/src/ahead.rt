//! Whether an entry is allowed after those of a table and some that were not added yet.
ghost use Rattle.std.specs.Prelude.{◌≡◌, ◌<◌, ◌≤◌, ◌^◌, ◌++◌, if◌then◌else◌};
ghost use Rattle.txn_model.specs.Skeletons.{coord_skeletons};
ghost use Rattle.txn_model.specs.Coord.{count_new, is_open, is_deciding};
ghost use Rattle.txn_table.specs.Table.{IsRowOf, AreEntries, is_new_entry, status_in, has_bit, may_follow};

use crate::row::{Row, row_with};
use crate::table::Table;
use txn_base::{CoordEntry, Decision, Status, TxnId};

/// The row of a transaction after some entries more.
fn row_ahead(table: &Table, ahead: &[CoordEntry], txn: TxnId) -> Option<Row>
    requires { AreEntries (table.now.front ++ ahead.now) }
    ensures { IsRowOf (table.now.front ++ ahead.now) txn result }
{
    let mut row = table.row(txn);
    for entry in ahead {
        row = row_with(txn, row, entry);
    }
    row
}

/// An entry that begins a transaction.
fn is_new(entry: &CoordEntry) -> bool
    ensures { result ≡ is_new_entry entry.now }
{
    matches!(entry, CoordEntry::New { .. })
}

/// How many transactions these entries begin.
fn count_ahead(ahead: &[CoordEntry]) -> usize
    ensures count { result ≡ count_new (coord_skeletons ahead.now) }
    ensures few { result < 2 ^ 63 }
{
    ahead.iter().filter(|entry| is_new(entry)).count()
}

impl Table {
    /// Whether the entry is allowed after those of the table and some that were not added yet, where so many parts are named.
    pub fn allows_after(&self, ahead: &[CoordEntry], named: u32, entry: &CoordEntry) -> bool
        requires named { named ≤ 62 }
        requires entries { AreEntries (self.now.front ++ ahead.now) }
        ensures { result ≡ may_follow named (self.now.front ++ ahead.now) entry.now }
    {
        match entry {
            CoordEntry::New { txn, .. } => {
                let count = self.count() + count_ahead(ahead) as u64;
                txn.most == 0 && txn.least == count
            }
            CoordEntry::AddPart { txn, part } => {
                let row = row_ahead(self, ahead, *txn);
                is_open(row) && 1 <= *part && *part <= named && !has_bit(row, *part)
            }
            CoordEntry::Committing { txn } => is_open(row_ahead(self, ahead, *txn)),
            CoordEntry::Aborting { txn } => is_open(row_ahead(self, ahead, *txn)),
            CoordEntry::Committed { txn } => {
                is_deciding(Decision::Commit, row_ahead(self, ahead, *txn))
            }
            CoordEntry::Aborted { txn } => is_deciding(
                Decision::Abort,
                row_ahead(self, ahead, *txn),
            ),
        }
    }

    /// Whether the entry is allowed after those of the table. A part is at most 62.
    pub fn allows(&self, entry: &CoordEntry) -> bool
        ensures { result ≡ may_follow 62 self.now.front entry.now }
    {
        let _count = self.count();
        self.allows_after(&[], 62, entry)
    }
}

/// A transaction that is open.
fn is_open(row: Option<Row>) -> bool
    ensures { result ≡ is_open (status_in row) }
{
    match row {
        Some(row) => row.status == Status::Open,
        None => false,
    }
}

/// A transaction that is decided so and not closed.
fn is_deciding(decision: Decision, row: Option<Row>) -> bool
    ensures { result ≡ is_deciding decision (status_in row) }
{
    match (decision, row) {
        (Decision::Commit, Some(row)) => row.status == Status::Committing,
        (Decision::Abort, Some(row)) => row.status == Status::Aborting,
        (Decision::Commit, None) => false,
        (Decision::Abort, None) => false,
    }
}

/// The row has this part.
fn has_bit(row: Option<Row>, part: u32) -> bool
    requires { part < 64 }
    ensures { (if result then 1 else 0) ≡ has_bit row part }
{
    match row {
        Some(row) => (row.parts >> part) & 1 == 1,
        None => false,
    }
}
