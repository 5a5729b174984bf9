//! The table of a log's entries, as what a replay rebuilds.
ghost use Rattle.std.specs.Prelude.{◌≡◌, ◌≤◌, ◌++◌, length};
ghost use Rattle.txn_table.specs.Table.{AreEntries};

use std::alloc::AllocError;
use txn_base::{Bytes, CoordEntry};
use txn_records::read_coord;
use txn_replay::{Grammar, Stages};
use txn_table::Table;

/// A table, and how many parts have a name, numbered from 1.
#[derive(Drop)]
pub struct NamedTable {
    pub table: Table,
    pub named: u32,
}

impl Grammar for NamedTable {
    ghost use Rattle.txn_base.specs.Decoded.{coord_entry_of};
    ghost use Rattle.txn_base.specs.Records.{IsCoordRecord};
    ghost use Rattle.txn_table.specs.Table.{may_follow};
    ghost use Rattle.txn_coordinator.specs.Mending.{AreNamedEntries};
    ghost use Rattle.txn_coordinator.specs.ReplayLaws as laws;

    type Entry = CoordEntry;

    ghost entry_of = { coord_entry_of };

    ghost is_record = { IsCoordRecord };

    ghost allows = { may_follow };

    ghost lawful = { AreNamedEntries };

    ghost goes_on = { laws.named_more };

    ghost ends_in = { laws.named_ends };
}

impl Stages for NamedTable {
    ghost front = { λ t. t.table.front };

    ghost rule = { λ t. t.named };

    fn read(&self, bytes: &Bytes) -> Option<CoordEntry> {
        read_coord(bytes.as_slice())
    }

    fn allows(&self, staged: &[CoordEntry], entry: &CoordEntry) -> bool {
        self.table.allows_after(staged, self.named, entry)
    }

    fn add_all(&mut self, staged: &[CoordEntry]) -> Result<(), AllocError> {
        self.table.reserve(staged.len())?;
        apply_all(&mut self.table, staged);
        Ok(())
    }
}

/// Adds entries to a table, which has room for them.
fn apply_all(table: &mut Table, staged: &[CoordEntry])
    requires entries { AreEntries (table.old.front ++ staged.now) }
    requires room { length staged.now ≤ table.old.room }
    ensures { table.new.front ≡ table.old.front ++ staged.now }
{
    for entry in staged {
        table.apply(*entry);
    }
}
