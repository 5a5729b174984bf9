//! Folders that are opened for reading alone.
use crate::made::{done, folder, folder_to_read, has, ledger, write};
use std::{fs, io};
use txn_base::Disk;

/// It is read while another disk holds it, and nothing of it is written.
pub fn folder_for_reading(rt: HostRuntime) -> io::Result<bool> {
    let mut held = folder(rt, "read", 1)?;
    write(&mut held, ledger(1), b"first")?;
    done(held.sync(ledger(1)))?;
    let mut disk = folder_to_read(rt, "read")?;
    let refused = disk.write_at(ledger(1), 0, b"x").is_err()
        && disk.resize(ledger(1), 0).is_err()
        && disk.resize(ledger(2), 1).is_err()
        && disk.sync(ledger(1)).is_err();
    let empty = matches!(disk.size(ledger(2)), Ok(0)) && !fs::exists(&rt, "read/p02-r0000000002")?;
    let read = has(rt, &mut disk, ledger(1), 0, b"first")?;
    Ok(refused && empty && read && has(rt, &mut held, ledger(1), 0, b"first")?)
}

/// It is empty, and isn't made.
pub fn missing_folder(rt: HostRuntime) -> io::Result<bool> {
    let mut disk = folder_to_read(rt, "missing")?;
    let empty = matches!(disk.size(ledger(1)), Ok(0)) && disk.resize(ledger(1), 1).is_err();
    Ok(empty && !fs::exists(&rt, "missing")?)
}
