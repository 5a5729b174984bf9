//! What opening the ledgers of a disk with two topics tells.
ghost use Rattle.std.specs.Prelude.{◌≡◌, All, true, IfOk};
ghost use Rattle.txn_base.specs.Names.{is_topic_name};
ghost use Rattle.txn_model.specs.Names.{NamesLawful};

use super::files::{Short, log_file, topic_file};
use std::alloc::{AllocError, Global};
use std::marker::Brand;
use std::sync::ledger::{self, Blank};
use txn_base::{FileId, Limits, Refusal, Reply, Request, Status, Steps, Text, TxnId};
use txn_engine::{Engine, EngineError};
use txn_memdisk::MemDisk;

/// The names of two topics.
fn names(alloc: Global) -> Result<Vec<Text>, AllocError>
    ensures lawful { IfOk result (λ names. NamesLawful names.items) }
    ensures topics { IfOk result (λ names. All (λ name. is_topic_name name ≡ true) names.items) }
{
    let mut names = Vec::with_capacity(alloc, 2)?;
    let a = Text::from_str(alloc, "a")?;
    let b = Text::from_str(alloc, "b")?;
    names.push_reserved(a);
    names.push_reserved(b);
    Ok(names)
}

/// What opening the disk tells, or how far its first transaction is then.
fn opened<L: ledger::Ledger>(
    alloc: Global,
    blank: Blank,
    disk: &mut MemDisk,
) -> Result<String, AllocError>
    requires name { blank.name ≡ L.name }
    requires parts { blank.parts ≡ L.parts }
    requires one { L.parts ≡ 1 }
{
    let names = names(alloc)?;
    let mut steps = Steps::<L>::new(blank);
    let first = Request::Status {
        txn: TxnId { most: 0, least: 0 },
    };
    match Engine::open_disk(alloc, names, &Limits::standard(), disk, &mut steps) {
        Ok(mut engine) => reply_shown(alloc, &engine.answer(disk, 0, &first, &mut steps)),
        Err(error) => error_shown(alloc, &error),
    }
}

fn reply_shown(alloc: Global, reply: &Reply) -> Result<String, AllocError> {
    let text = match reply {
        Reply::Status {
            status: Status::Open,
        } => "open",
        Reply::No(Refusal::NotFound) => "not found",
        _ => "another reply",
    };
    format!(in alloc; "{text}")
}

fn error_shown(alloc: Global, error: &EngineError) -> Result<String, AllocError> {
    match error {
        EngineError::Damaged { file, entry } => {
            format!(in alloc; "part {} row {} entry {entry}", file.part, file.row)
        }
        EngineError::Fault => format!(in alloc; "fault"),
        EngineError::NoMemory => format!(in alloc; "no memory"),
    }
}

/// Puts the file of the coordinator, or of a topic.
fn put(alloc: Global, disk: &mut MemDisk, part: u32, entries: &[Short]) -> Result<(), AllocError> {
    let bytes = if part == 0 {
        log_file(alloc, entries)?
    } else {
        topic_file(alloc, entries)?
    };
    disk.put_file(FileId { part, row: 2 }, bytes.as_slice())
}

/// What opening a disk with these files tells.
fn told(alloc: Global, log: &[Short], a: &[Short], b: &[Short]) -> Result<String, AllocError> {
    let mut disk = MemDisk::new(alloc, &[])?;
    put(alloc, &mut disk, 0, log)?;
    put(alloc, &mut disk, 1, a)?;
    put(alloc, &mut disk, 2, b)?;
    opened::<Brand>(alloc, Blank::new(1), &mut disk)
}

// A log, the ledgers of both topics, and what opening them tells. In a log 1 is a new transaction, 2 adds a part to one; in
// a topic 1 is a message, 7 isn't in the grammar.
const DISKS: [(&[Short], &[Short], &[Short], &str); 6] = [
    (&[], &[], &[], "not found"),
    (
        &[(1, 0, 0), (2, 0, 2)],
        &[(1, 0, b'x')],
        &[(2, 0, b'y')],
        "open",
    ),
    (
        &[(1, 0, 0), (2, 0, 3), (1, 0, 0)],
        &[(7, 0, 0)],
        &[],
        "part 0 row 2 entry 1",
    ),
    (
        &[(1, 0, 0)],
        &[(7, 0, 0)],
        &[(7, 0, 0)],
        "part 1 row 2 entry 0",
    ),
    (
        &[],
        &[(1, 0, b'x')],
        &[(1, 0, b'y'), (7, 0, 0)],
        "part 2 row 2 entry 1",
    ),
    (&[], &[], &[(3, 0, 0), (2, 0, b'y')], "part 2 row 2 entry 1"),
];

#[test]
fn first_damage_in_the_order_of_the_parts_is_told(rt: HostRuntime) -> Result<(), AllocError> {
    let alloc = rt.alloc();
    for (log, a, b, want) in &DISKS {
        let told = told(alloc, log, a, b)?;
        assert_eq!(rt; told.as_str(), *want);
    }
    Ok(())
}
