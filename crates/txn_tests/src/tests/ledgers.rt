//! Ledgers over files in memory.
ghost use Rattle.txn_ledger.specs.Reading.{IsBackedOn};
ghost use Rattle.std.specs.Prelude.{◌≡◌};

use super::files::{TOPIC, disk_of};
use std::alloc::{AllocError, Global};
use std::marker::Brand;
use std::sync::ledger::{self, Blank};
use txn_base::{Bytes, Disk, Steps};
use txn_ledger::{GetError, Ledger, OpenError, RecordLog};
use txn_memdisk::{FaultAt, MemDisk, Op};

/// The record at a place, where there is one.
fn record_at<D: Disk, R: RecordLog, L: ledger::Ledger>(
    log: &R,
    disk: &mut D,
    place: u64,
    steps: &mut Steps<L>,
) -> Option<Result<Bytes, GetError>>
    requires backed { IsBackedOn R.RecordLog D.Disk disk.old (R.content log.now) }
{
    if place >= log.len() {
        return None;
    }
    Some(log.get(disk, place, steps))
}

/// How many records a ledger has, and the one at a place.
type Record = (u64, Option<Result<Bytes, GetError>>);

fn opened_record<L: ledger::Ledger>(
    alloc: Global,
    blank: Blank,
    disk: &mut MemDisk,
    place: u64,
) -> Result<Record, OpenError>
    requires name { blank.name ≡ L.name }
    requires parts { blank.parts ≡ L.parts }
    requires one { L.parts ≡ 1 }
{
    let log = Ledger::open_file(alloc, disk, TOPIC)?;
    let mut steps = Steps::<L>::new(blank);
    let found = record_at(&log, disk, place, &mut steps);
    Ok((log.len(), found))
}

/// The same as it is shown for debugging.
fn shown(alloc: Global, disk: &mut MemDisk, place: u64) -> Result<String, AllocError> {
    let told = opened_record::<Brand>(alloc, Blank::new(1), disk, place);
    format!(in alloc; "{told:?}")
}

// Two batches, of one record and of two. What they say is no matter to a ledger.
const TWO: &[u8] = &[
    1, 0, 0, 0, 4, 0, 2, 8, 9, 1, 0, 0, 0, 9, 0, 3, 1, 2, 3, 0, 2, 4, 5, 0, 1,
];

// The file of one batch, of the message "a".
const A: &[u8] = &[1, 0, 0, 0, 5, 0, 3, 1, 1, b'a'];

// Files; the read that fails, or 0 where none does; and a place, and what a ledger gives for it. The first read is that of the
// opening, and the second that of the record.
const RECORDS: [(&[u8], u64, u64, &str); 10] = [
    (TWO, 0, 0, "Ok((3, Some(Ok(Bytes { items: [8, 9] }))))"),
    (TWO, 0, 1, "Ok((3, Some(Ok(Bytes { items: [1, 2, 3] }))))"),
    (TWO, 0, 2, "Ok((3, Some(Ok(Bytes { items: [4, 5] }))))"),
    (TWO, 0, 3, "Ok((3, None))"),
    (TWO, 0, u64::MAX, "Ok((3, None))"),
    (&[], 0, 0, "Ok((0, None))"),
    // The catalog of the one topic `orders`.
    (
        b"\x01\0\0\0\x0a\0\x08\x01\x01orders",
        0,
        0,
        "Ok((1, Some(Ok(Bytes { items: [1, 1, 111, 114, 100, 101, 114, 115] }))))",
    ),
    (A, 2, 0, "Ok((1, Some(Err(Fault))))"),
    (A, 1, 0, "Err(Fault)"),
    (&[1, 0, 0, 0, 0], 2, 0, "Err(Damaged { entry: 0 })"),
];

#[test]
fn records_are_those_of_the_frames(rt: HostRuntime) -> Result<(), AllocError> {
    let alloc = rt.alloc();
    for (bytes, nth, place, want) in &RECORDS {
        let fault = FaultAt {
            file: TOPIC,
            op: Op::Read,
            nth: *nth,
        };
        let mut disk = disk_of(alloc, TOPIC, bytes, &[fault])?;
        assert_eq!(rt; shown(alloc, &mut disk, *place)?.as_str(), *want);
    }

    // What stands behind the frames is cut.
    let mut disk = disk_of(alloc, TOPIC, TWO, &[])?;
    let _ = shown(alloc, &mut disk, 0)?;
    assert_eq!(rt; Some(disk.file_bytes(TOPIC)), TWO.get(..23));
    Ok(())
}

#[test]
fn room_is_reserved(rt: HostRuntime) -> Result<(), AllocError> {
    let alloc = rt.alloc();
    let mut log = Ledger::empty(alloc, TOPIC);
    assert_eq!(rt; log.reserve(64, 4_194_373), Ok(()));
    assert_eq!(rt; log.reserve(1, 9), Ok(()));
    assert_eq!(rt; (log.len(), log.is_settled()), (0, true));
    Ok(())
}
