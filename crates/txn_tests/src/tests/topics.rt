//! Topics: what is replayed of small ledgers, and steps of a replay that are refused at their fortieth record.
ghost use Rattle.txn_ledger.specs.Reading.{IsBackedOn};
ghost use Rattle.std.specs.Prelude.{◌≡◌, IfSome};
ghost use Rattle.txn_base.specs.Content.{looked_at};
ghost use Rattle.txn_ledger.specs.Ledger.{Stored};

use super::files::{Short, TOPIC, disk_of, topic_file, txn};
use std::alloc::{AllocError, Global};
use std::marker::Brand;
use std::sync::ledger::{self, Blank};
use txn_base::{Decision, Disk, Limits, MendError, PartState, Progress, Steps};
use txn_buffer::Topic;
use txn_ledger::{Ledger, RecordLog};
use txn_memdisk::{FaultAt, MemDisk, Op};

const PLAIN: u8 = 1;

const INSIDE: u8 = 2;

const COMMIT: u8 = 3;

const ABORT: u8 = 4;

/// Opens the ledger.
fn opened<D: Disk>(alloc: Global, disk: &mut D) -> Option<Topic<Ledger>>
    ensures standing { IfSome result (λ t. t.content.standing ≡ looked_at → ⊥) }
    ensures backed { IfSome result (λ t. Stored (D.image disk.new) t.content) }
{
    let log = Ledger::open_file(alloc, disk, TOPIC).ok()?;
    Topic::over(alloc, log, 1, &Limits::standard()).ok()
}

/// What a step of the replay told, how far the topic is then, and its limit.
type Stepped = (Result<Progress, MendError>, PartState, u64);

fn step<D: Disk, R: RecordLog, L: ledger::Ledger>(
    topic: &mut Topic<R>,
    disk: &mut D,
    steps: &mut Steps<L>,
) -> Stepped
    requires standing { topic.old.content.standing ≡ looked_at → ⊥ }
    requires backed { IsBackedOn R.RecordLog D.Disk disk.old topic.old.content }
    ensures standing { topic.new.content.standing ≡ looked_at → ⊥ }
    ensures backed { IsBackedOn R.RecordLog D.Disk disk.new topic.new.content }
{
    let told = topic.mend_step(disk, steps);
    (told, topic.state(), topic.limit())
}

/// The place of the one message that a read from place 63 on gives, at most one.
fn read_63<D: Disk, R: RecordLog, L: ledger::Ledger>(
    topic: &Topic<R>,
    disk: &mut D,
    steps: &mut Steps<L>,
) -> Option<u64>
    requires backed { IsBackedOn R.RecordLog D.Disk disk.old topic.now.content }
    ensures backed { IsBackedOn R.RecordLog D.Disk disk.new topic.now.content }
{
    let messages = topic.read(disk, 63, 1, steps).ok()?;
    let first = messages.as_slice().first()?;
    Some(first.place)
}

type Told = (
    Stepped,
    Stepped,
    Option<Decision>,
    Option<u64>,
    Stepped,
    u64,
);

/// Opens a ledger, and makes three steps, with a look at the topic after the second; and how many entries it has.
fn three_steps<L: ledger::Ledger>(alloc: Global, blank: Blank, disk: &mut MemDisk) -> Option<Told>
    requires name { blank.name ≡ L.name }
    requires parts { blank.parts ≡ L.parts }
    requires one { L.parts ≡ 1 }
{
    let mut steps = Steps::<L>::new(blank);
    let mut topic = opened(alloc, disk)?;
    let first = step(&mut topic, disk, &mut steps);
    let second = step(&mut topic, disk, &mut steps);
    let marker = topic.marker(txn(0));
    let read = read_63(&topic, disk, &mut steps);
    let third = step(&mut topic, disk, &mut steps);
    Some((first, second, marker, read, third, topic.len()))
}

// Ledgers, and the limit of each, and how the first transaction ended there; or the entry at which it stops being lawful.
const LEDGERS: [(&[Short], Result<(u64, Option<Decision>), u64>); 12] = [
    (&[], Ok((0, None))),
    (&[(PLAIN, 0, b'a')], Ok((1, None))),
    (&[(INSIDE, 0, b'a'), (PLAIN, 0, b'b')], Ok((0, None))),
    (
        &[(COMMIT, 0, 0), (ABORT, 1, 0), (PLAIN, 0, b'a')],
        Ok((3, Some(Decision::Commit))),
    ),
    (
        &[
            (PLAIN, 0, b'a'),
            (INSIDE, 0, b'b'),
            (INSIDE, 1, b'c'),
            (ABORT, 0, 0),
            (PLAIN, 0, b'd'),
            (INSIDE, 1, b'e'),
        ],
        Ok((2, Some(Decision::Abort))),
    ),
    (
        &[
            (INSIDE, 0, b'a'),
            (INSIDE, 1, b'b'),
            (COMMIT, 0, 0),
            (ABORT, 1, 0),
        ],
        Ok((4, Some(Decision::Commit))),
    ),
    (
        &[(INSIDE, 0, b'a'), (COMMIT, 0, 0), (INSIDE, 0, b'b')],
        Err(2),
    ),
    (
        &[(ABORT, 0, 0), (PLAIN, 0, b'a'), (INSIDE, 0, b'b')],
        Err(2),
    ),
    (&[(COMMIT, 0, 0), (COMMIT, 0, 0)], Err(1)),
    (&[(COMMIT, 0, 0), (COMMIT, 1, 0), (ABORT, 0, 0)], Err(2)),
    (&[(PLAIN, 0, 0xff)], Err(0)),
    (&[(PLAIN, 0, b'a'), (5, 0, 0)], Err(1)),
];

// A step over a ledger that is replayed, or damaged, tells what the one before it told.
#[test]
fn ledgers_stop_being_lawful(rt: HostRuntime) -> Result<(), AllocError> {
    let alloc = rt.alloc();
    for (entries, want) in &LEDGERS {
        let bytes = topic_file(alloc, entries)?;
        let mut disk = disk_of(alloc, TOPIC, bytes.as_slice(), &[])?;
        let told = three_steps::<Brand>(alloc, Blank::new(1), &mut disk);
        let total = entries.len() as u64;
        let (stepped, marker) = match want {
            Ok((limit, marker)) => {
                let end = Progress { at: total, total };
                ((Ok(end), PartState::Whole, *limit), *marker)
            }
            Err(place) => {
                let damaged = Err(MendError::Damaged { place: *place });
                ((damaged, PartState::Mending { at: 0, total }, 0), None)
            }
        };
        assert_eq!(rt;
            told,
            Some((stepped, stepped, marker, None, stepped, total))
        );
    }
    Ok(())
}

/// The fortieth record of the second step.
const PLACE: u8 = 103;

/// 128 messages, all but one of them plain, and the marker of the first transaction at place 102. Its message stands at
/// 103, where it isn't allowed, or at 101.
fn messages(alloc: Global, behind: bool) -> Result<Vec<u8>, AllocError> {
    let place = if behind { PLACE } else { 101 };
    let mut entries = Vec::new(alloc);
    for k in 0..128 {
        let kind = if k == 102 {
            COMMIT
        } else if k == place {
            INSIDE
        } else {
            PLAIN
        };
        entries.push((kind, 0, b'a'))?;
    }
    topic_file(alloc, entries.as_slice())
}

// The topic stays where it was. The first read is that of the opening, so the 105th is that of record 103.
#[test]
fn topic_stays_where_a_step_is_refused(rt: HostRuntime) -> Result<(), AllocError> {
    let alloc = rt.alloc();
    let front = PartState::Mending { at: 64, total: 128 };
    let first = (Ok(Progress { at: 64, total: 128 }), front, 64);
    let damaged = (Err(MendError::Damaged { place: 103 }), front, 64);
    let end = Progress {
        at: 128,
        total: 128,
    };
    let fault = (Err(MendError::Fault), front, 64);
    for (behind, nth, second, third) in [
        (true, 0, damaged, damaged),
        (false, 105, fault, (Ok(end), PartState::Whole, 128)),
    ] {
        let bytes = messages(alloc, behind)?;
        let fault = FaultAt {
            file: TOPIC,
            op: Op::Read,
            nth,
        };
        let mut disk = disk_of(alloc, TOPIC, bytes.as_slice(), &[fault])?;
        let told = three_steps::<Brand>(alloc, Blank::new(1), &mut disk);
        assert_eq!(rt; told, Some((first, second, None, Some(63), third, 128)));
    }
    Ok(())
}
