//! What a coordinator replays of small logs, and steps of a replay that are refused at their fortieth record.
ghost use Rattle.txn_ledger.specs.Reading.{IsBackedOn};
ghost use Rattle.std.specs.Prelude.{◌≡◌, ◌≤◌, IfSome};
ghost use Rattle.txn_base.specs.Content.{looked_at};
ghost use Rattle.txn_ledger.specs.Ledger.{Stored};

use super::files::{LOG, Short, disk_of, log_file, txn};
use std::alloc::{AllocError, Global};
use std::marker::Brand;
use std::sync::ledger::{self, Blank};
use txn_base::{Decision, Disk, Limits, MendError, PartState, Progress, Status, Steps, TxnId};
use txn_coordinator::Coordinator;
use txn_ledger::{Ledger, RecordLog};
use txn_memdisk::{FaultAt, MemDisk, Op};

const NEW: u8 = 1;

const ADD: u8 = 2;

const COMMITTING: u8 = 3;

const COMMITTED: u8 = 4;

const ABORTING: u8 = 5;

const ABORTED: u8 = 6;

/// Opens the log, where so many parts are named.
fn opened<D: Disk>(alloc: Global, disk: &mut D, named: u32) -> Option<Coordinator<Ledger>>
    requires named { named ≤ 62 }
    ensures standing { IfSome result (λ c. c.content.standing ≡ looked_at → ⊥) }
    ensures backed { IfSome result (λ c. Stored (D.image disk.new) c.content) }
{
    let log = Ledger::open_file(alloc, disk, LOG).ok()?;
    Coordinator::over_named(alloc, log, &Limits::standard(), named).ok()
}

/// What a step of the replay told, how far it is then, and how many transactions there are.
type Stepped = (Result<Progress, MendError>, PartState, u64);

fn step<D: Disk, R: RecordLog, L: ledger::Ledger>(
    coordinator: &mut Coordinator<R>,
    disk: &mut D,
    steps: &mut Steps<L>,
) -> Stepped
    requires standing { coordinator.old.content.standing ≡ looked_at → ⊥ }
    requires backed { IsBackedOn R.RecordLog D.Disk disk.old coordinator.old.content }
    ensures standing { coordinator.new.content.standing ≡ looked_at → ⊥ }
    ensures backed { IsBackedOn R.RecordLog D.Disk disk.new coordinator.new.content }
{
    let told = coordinator.mend_step(disk, steps);
    (told, coordinator.state(), coordinator.count())
}

/// Opens a log, and makes three steps, where so many parts are named.
fn three_steps<L: ledger::Ledger>(
    alloc: Global,
    blank: Blank,
    disk: &mut MemDisk,
    named: u32,
) -> Option<(Stepped, Stepped, Stepped)>
    requires named { named ≤ 62 }
    requires name { blank.name ≡ L.name }
    requires parts { blank.parts ≡ L.parts }
    requires one { L.parts ≡ 1 }
{
    let mut steps = Steps::<L>::new(blank);
    let mut coordinator = opened(alloc, disk, named)?;
    let first = step(&mut coordinator, disk, &mut steps);
    let second = step(&mut coordinator, disk, &mut steps);
    let third = step(&mut coordinator, disk, &mut steps);
    Some((first, second, third))
}

// Logs, how many parts are named, and how many transactions there are, or the entry at which a log stops being lawful.
const LOGS: [(&[Short], u32, Result<u64, u64>); 19] = [
    (&[], 62, Ok(0)),
    (
        &[
            (NEW, 0, 0),
            (ADD, 0, 62),
            (NEW, 1, 0),
            (ADD, 1, 1),
            (COMMITTING, 0, 0),
            (ADD, 1, 62),
            (ABORTING, 1, 0),
            (COMMITTED, 0, 0),
            (ABORTED, 1, 0),
        ],
        62,
        Ok(2),
    ),
    (&[(NEW, 1, 0)], 62, Err(0)),
    (&[(NEW, 0, 0), (NEW, 0, 0)], 62, Err(1)),
    (&[(NEW, 0, 0), (NEW, 2, 0), (NEW, 1, 0)], 62, Err(1)),
    (&[(ADD, 0, 1), (NEW, 0, 0)], 62, Err(0)),
    (&[(NEW, 0, 0), (ADD, 0, 2), (ADD, 0, 2)], 62, Err(2)),
    (&[(NEW, 0, 0), (ADD, 0, 63)], 62, Err(1)),
    (&[(NEW, 0, 0), (ADD, 0, 0)], 62, Err(1)),
    (&[(NEW, 0, 0), (COMMITTING, 0, 0), (ADD, 0, 1)], 62, Err(2)),
    (&[(COMMITTING, 0, 0)], 62, Err(0)),
    (
        &[(NEW, 0, 0), (COMMITTING, 0, 0), (ABORTING, 0, 0)],
        62,
        Err(2),
    ),
    (&[(NEW, 0, 0), (COMMITTED, 0, 0)], 62, Err(1)),
    (
        &[(NEW, 0, 0), (COMMITTING, 0, 0), (ABORTED, 0, 0)],
        62,
        Err(2),
    ),
    (
        &[(NEW, 0, 0), (ABORTING, 0, 0), (COMMITTED, 0, 0)],
        62,
        Err(2),
    ),
    (
        &[
            (NEW, 0, 0),
            (ABORTING, 0, 0),
            (ABORTED, 0, 0),
            (ABORTED, 0, 0),
        ],
        62,
        Err(3),
    ),
    (&[(NEW, 0, 0), (7, 0, 0)], 62, Err(1)),
    // A part without a name is damage. Where two parts are named, the second New of one number would be the first bad record.
    (
        &[(NEW, 0, 0), (ADD, 0, 1), (ADD, 0, 2), (NEW, 0, 0)],
        1,
        Err(2),
    ),
    (&[(NEW, 0, 0), (ADD, 0, 1), (ADD, 0, 2)], 2, Ok(1)),
];

// A step over a log that is replayed, or damaged, tells what the one before it told.
#[test]
fn logs_stop_being_lawful(rt: HostRuntime) -> Result<(), AllocError> {
    let alloc = rt.alloc();
    for (entries, named, want) in &LOGS {
        let bytes = log_file(alloc, entries)?;
        let mut disk = disk_of(alloc, LOG, bytes.as_slice(), &[])?;
        let named = (*named).min(62);
        let told = three_steps::<Brand>(alloc, Blank::new(1), &mut disk, named);
        let total = entries.len() as u64;
        let stepped = match want {
            Ok(count) => (Ok(Progress { at: total, total }), PartState::Whole, *count),
            Err(place) => {
                let damaged = Err(MendError::Damaged { place: *place });
                (damaged, PartState::Mending { at: 0, total }, 0)
            }
        };
        assert_eq!(rt; told, Some((stepped, stepped, stepped)));
    }
    Ok(())
}

/// The fortieth record of the second step.
const PLACE: u8 = 103;

/// 128 new transactions, of which one may come again.
fn new_transactions(alloc: Global, again: bool) -> Result<Vec<u8>, AllocError> {
    let mut entries = Vec::new(alloc);
    for k in 0..128 {
        let number = if again && k == PLACE { 0 } else { k };
        entries.push((NEW, number, 0))?;
    }
    log_file(alloc, entries.as_slice())
}

// The part stays where it was. The first read is that of the opening, so the 105th is that of record 103.
#[test]
fn coordinator_stays_where_a_step_is_refused(rt: HostRuntime) -> Result<(), AllocError> {
    let alloc = rt.alloc();
    let front = PartState::Mending { at: 64, total: 128 };
    let first = (Ok(Progress { at: 64, total: 128 }), front, 64);
    let damaged = (Err(MendError::Damaged { place: 103 }), front, 64);
    let end = Progress {
        at: 128,
        total: 128,
    };
    let fault = (Err(MendError::Fault), front, 64);
    for (again, nth, second, third) in [
        (true, 0, damaged, damaged),
        (false, 105, fault, (Ok(end), PartState::Whole, 128)),
    ] {
        let bytes = new_transactions(alloc, again)?;
        let fault = FaultAt {
            file: LOG,
            op: Op::Read,
            nth,
        };
        let mut disk = disk_of(alloc, LOG, bytes.as_slice(), &[fault])?;
        let told = three_steps::<Brand>(alloc, Blank::new(1), &mut disk, 62);
        assert_eq!(rt; told, Some((first, second, third)));
    }
    Ok(())
}

/// The status of a transaction, how it ends, and its parts.
type Seen = (Option<Status>, Option<Decision>, u64);

/// Whether each transaction is told as it should be.
fn are_told<R: RecordLog>(coordinator: &Coordinator<R>, wants: &[(TxnId, Seen)]) -> bool {
    for (txn, want) in wants {
        let seen = (
            coordinator.status(*txn),
            coordinator.decision(*txn),
            coordinator.parts(*txn),
        );
        if seen != *want {
            return false;
        }
    }
    true
}

/// How many transactions there are, the least that isn't closed, and the first that is decided and isn't closed.
type Counted = (u64, u64, Option<TxnId>);

/// Opens a log, and replays it in one step. Whether it tells that, and whether each transaction is told as it should be; and its
/// counts.
fn replayed<L: ledger::Ledger>(
    alloc: Global,
    blank: Blank,
    disk: &mut MemDisk,
    wants: &[(TxnId, Seen)],
) -> Option<(bool, bool, Counted)>
    requires name { blank.name ≡ L.name }
    requires parts { blank.parts ≡ L.parts }
    requires one { L.parts ≡ 1 }
{
    let mut coordinator = opened(alloc, disk, 62)?;
    let mut steps = Steps::<L>::new(blank);
    let mended = coordinator.mend_step(disk, &mut steps).is_ok();
    let counted = (
        coordinator.count(),
        coordinator.low(),
        coordinator.first_undriven(),
    );
    Some((mended, are_told(&coordinator, wants), counted))
}

// Six transactions: committed, open, open, aborted, committing, aborting.
const STATUSES: [Short; 14] = [
    (NEW, 0, 0),
    (NEW, 1, 0),
    (ADD, 0, 2),
    (NEW, 2, 0),
    (NEW, 3, 0),
    (NEW, 4, 0),
    (NEW, 5, 0),
    (ADD, 0, 1),
    (ABORTING, 3, 0),
    (COMMITTING, 0, 0),
    (COMMITTING, 4, 0),
    (ABORTED, 3, 0),
    (COMMITTED, 0, 0),
    (ABORTING, 5, 0),
];

#[test]
fn each_status_is_replayed(rt: HostRuntime) -> Result<(), AllocError> {
    let commit = Some(Decision::Commit);
    let abort = Some(Decision::Abort);
    let wants = [
        (txn(0), (Some(Status::Committed), commit, 0b110)),
        (txn(1), (Some(Status::Open), None, 0)),
        (txn(2), (Some(Status::Open), None, 0)),
        (txn(3), (Some(Status::Aborted), abort, 0)),
        (txn(4), (Some(Status::Committing), commit, 0)),
        (txn(5), (Some(Status::Aborting), abort, 0)),
        (txn(6), (None, None, 0)),
        (TxnId { most: 1, least: 0 }, (None, None, 0)),
    ];
    let bytes = log_file(rt.alloc(), &STATUSES)?;
    let mut disk = disk_of(rt.alloc(), LOG, bytes.as_slice(), &[])?;
    let told = replayed::<Brand>(rt.alloc(), Blank::new(1), &mut disk, &wants);
    assert_eq!(rt; told, Some((true, true, (6, 1, Some(txn(4))))));
    Ok(())
}
