//! The names of files, calls and crashes.
use crate::text::{first_word, hex_byte, number};
use crate::wrong::Wrong;
use std::alloc::Global;
use txn_base::FileId;
use txn_memdisk::{Choice, FaultAt, Op};

/// The log of the coordinator.
pub const LOG: FileId = FileId { part: 0, row: 2 };

/// The ledger of the first topic.
pub const TOPIC: FileId = FileId { part: 1, row: 2 };

/// A file: `log`, `topic`, or its name in a folder, as `p01-r0000000002`.
pub fn file_of(word: &str) -> Result<FileId, Wrong> {
    match word {
        "log" => Ok(LOG),
        "topic" => Ok(TOPIC),
        _ => match word
            .strip_prefix("p")
            .and_then(|name| name.split_once("-r"))
        {
            Some((part, row)) => Ok(FileId {
                part: small(part)?,
                row: small(row)?,
            }),
            None => Err(Wrong::Line("no such file")),
        },
    }
}

pub fn small(word: &str) -> Result<u32, Wrong> {
    u32::try_from(number(word)?).map_err(|_| Wrong::Line("a number is too great"))
}

/// A call on a file, by its number among the calls of its kind.
pub fn fault_of(rest: &str) -> Result<FaultAt, Wrong> {
    let (file, call) = first_word(rest);
    let (op, nth) = first_word(call);
    Ok(FaultAt {
        file: file_of(file)?,
        op: op_of(op)?,
        nth: number(nth)?,
    })
}

/// A kind of call.
fn op_of(word: &str) -> Result<Op, Wrong> {
    match word {
        "size" => Ok(Op::Size),
        "read" => Ok(Op::Read),
        "write" => Ok(Op::WriteAt),
        "resize" => Ok(Op::Resize),
        "sync" => Ok(Op::Sync),
        _ => Err(Wrong::Line("no such call")),
    }
}

/// All that a crash may make of what is pending, as far as a story tells it.
pub const CHOICES: [Choice; 5] = [
    Choice::Old,
    Choice::New,
    Choice::Torn { byte: 0 },
    Choice::Torn { byte: 1 },
    Choice::Torn { byte: 255 },
];

/// What a crash makes of what is pending: `old`, `new`, `torn` and a byte, or each of them by `any`.
pub fn choices_of(alloc: Global, text: &str) -> Result<Vec<Choice>, Wrong> {
    let mut choices = Vec::new(alloc);
    match text.split_once(' ') {
        Some(("torn", byte)) => choices.push(Choice::Torn {
            byte: hex_byte(byte)?,
        })?,
        None if text == "old" => choices.push(Choice::Old)?,
        None if text == "new" => choices.push(Choice::New)?,
        None if text == "any" => choices.extend_from_slice(&CHOICES)?,
        _ => return Err(Wrong::Line("a crash is old, new, torn BYTE or any")),
    }
    Ok(choices)
}
