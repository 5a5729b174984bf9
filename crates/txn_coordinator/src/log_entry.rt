//! One entry more, in a log and in the table.
ghost use Rattle.txn_ledger.specs.Reading.{IsBackedOn};
ghost use Rattle.std.specs.Prelude.{◌≡◌, ◌≤◌, ◌+◌, ◌∷◌, [], ◌++◌, true, Err, OnOk, OnErr};
ghost use Rattle.txn_base.specs.declared.file_id.FileId.{FileId};
ghost use Rattle.txn_base.specs.Content.{settled, landed, begun, Appends};
ghost use Rattle.txn_base.specs.Disk.{ChangesOnly};
ghost use Rattle.txn_base.specs.Records.{IsCoordEntry};
ghost use Rattle.txn_base.specs.Room.{capacity};
ghost use Rattle.txn_base.specs.Moves.{After, FailsIn};
ghost use Rattle.txn_coordinator.specs.View.{coord_batch};
ghost use Rattle.txn_table.specs.Table.{is_new_entry, may_follow};

use std::slice;
use txn_base::{Bytes, CoordEntry, Disk, Failed};
use txn_ledger::RecordLog;
use txn_records::put_coord;
use txn_table::Table;

/// The length of the longest record of an entry, in bytes.
pub const RECORD: usize = 26;

/// The length of its frame.
pub const FRAME: usize = 33;

/// Adds an entry to a log and to its table. It takes no memory: the record is written into `bytes`. Where the append
/// fails, the table is emptied.
pub fn log_entry<D: Disk, R: RecordLog>(
    log: &mut R,
    table: &mut Table,
    bytes: &mut Bytes,
    disk: &mut D,
    entry: CoordEntry,
) -> Result<(), Failed>
    requires settled { (R.content log.old).standing ≡ settled }
    requires fits { IsCoordEntry entry }
    requires allowed { may_follow 62 table.old.front entry ≡ true }
    requires table_room { is_new_entry entry ≡ true → 1 ≤ table.old.room }
    requires bytes { 26 ≤ capacity bytes.old }
    requires spare { 1 ≤ R.spare log.old }
    requires room { 33 ≤ R.room log.old }
    requires backed { IsBackedOn R.RecordLog D.Disk disk.old (R.content log.old) }
    ensures ok { OnOk result (R.content log.new ≡ landed (R.content log.old) (coord_batch entry)) }
    ensures added { OnOk result (table.new.front ≡ table.old.front ++ entry ∷ []) }
    ensures err { OnErr result (R.content log.new ≡ begun (R.content log.old) (coord_batch entry)) }
    ensures emptied { OnErr result (table.new.front ≡ []) }
    ensures spare { OnOk result (R.spare log.new + 1 ≡ R.spare log.old) }
    ensures room { R.room log.old ≤ R.room log.new }
    ensures bytes { 26 ≤ capacity bytes.new }
    ensures backed { IsBackedOn R.RecordLog D.Disk disk.new (R.content log.new) }
    ensures images { After D.Disk (Appends R.mine R.stands (R.content log.old)
        (coord_batch entry)) disk.old disk.new }
    ensures others { ChangesOnly (R.mine (R.content log.old).key) (D.seen disk.old)
        (D.seen disk.new) }
    ensures cause { FailsIn D.Disk (R.content log.old).key.part disk.old disk.new result }
{
    bytes.clear();
    put_coord(&entry, bytes);
    match log.append(disk, slice::from_ref(bytes)) {
        Ok(()) => {
            table.apply(entry);
            Ok(())
        }
        Err(failed) => {
            table.clear();
            Err(failed)
        }
    }
}
