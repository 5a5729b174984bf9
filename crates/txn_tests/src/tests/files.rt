//! Files of small lists, byte by byte: each entry is the one record of a frame. And disks that have them.
ghost use Rattle.std.specs.Prelude.{◌≤◌};

use std::alloc::{AllocError, Global};
use txn_base::{FileId, TxnId};
use txn_memdisk::{FaultAt, MemDisk};

/// The log of the coordinator.
pub const LOG: FileId = FileId { part: 0, row: 2 };

/// The ledger of the first topic.
pub const TOPIC: FileId = FileId { part: 1, row: 2 };

/// An entry: its kind, the least significant number of its transaction, and a part or the byte of a body where it has one.
pub type Short = (u8, u8, u8);

pub fn txn(least: u64) -> TxnId {
    TxnId { most: 0, least }
}

/// A disk on which a file has these bytes, and some calls fail.
pub fn disk_of(
    alloc: Global,
    file: FileId,
    bytes: &[u8],
    faults: &[FaultAt],
) -> Result<MemDisk, AllocError> {
    let mut disk = MemDisk::new(alloc, faults)?;
    disk.put_file(file, bytes)?;
    Ok(disk)
}

/// A frame up to the number of its transaction, for a record of so many bytes.
fn put_head(bytes: &mut Vec<u8>, size: u8, kind: u8, txn: u8) -> Result<(), AllocError>
    requires { size ≤ 26 }
{
    bytes.extend_from_slice(&[1, 0, 0, 0, size + 2, 0, size, 1, kind])?;
    bytes.extend_from_slice(&[0; 15])?;
    bytes.push(txn)?;
    Ok(())
}

/// The file of a coordinator's log. Kind 1 is a new transaction, with a deadline of 9; 2 adds a part to one; 3 is committing,
/// 4 committed, 5 aborting and 6 aborted.
pub fn log_file(alloc: Global, entries: &[Short]) -> Result<Vec<u8>, AllocError> {
    let mut bytes = Vec::new(alloc);
    for (kind, txn, part) in entries {
        match *kind {
            1 => {
                put_head(&mut bytes, 26, 1, *txn)?;
                bytes.extend_from_slice(&[0, 0, 0, 0, 0, 0, 0, 9])?;
            }
            2 => {
                put_head(&mut bytes, 22, 2, *txn)?;
                bytes.extend_from_slice(&[0, 0, 0, *part])?;
            }
            kind => put_head(&mut bytes, 18, kind, *txn)?,
        }
    }
    Ok(bytes)
}

/// The file of a topic's ledger. Kind 1 is a plain message, and 2 one of a transaction, each with one byte; 3 is a commit
/// marker, and 4 an abort marker.
pub fn topic_file(alloc: Global, entries: &[Short]) -> Result<Vec<u8>, AllocError> {
    let mut bytes = Vec::new(alloc);
    for (kind, txn, body) in entries {
        match *kind {
            1 => bytes.extend_from_slice(&[1, 0, 0, 0, 5, 0, 3, 1, 1, *body])?,
            2 => {
                put_head(&mut bytes, 19, 2, *txn)?;
                bytes.push(*body)?;
            }
            kind => put_head(&mut bytes, 18, kind, *txn)?,
        }
    }
    Ok(bytes)
}
