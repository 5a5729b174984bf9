//! More files than may be open.
use crate::made::{done, folder, has, ledger, write};
use std::{fs, io};
use txn_base::Disk;

/// Ten files are written and read back, forwards and backwards, and no more than two of them are open then.
pub fn many_files(rt: HostRuntime) -> io::Result<bool> {
    let mut disk = folder(rt, "many", 2)?;
    let before = open_now(rt)?;
    for part in 0..10u8 {
        write(&mut disk, ledger(part as u32), &[part; 100])?;
        done(disk.sync(ledger(part as u32)))?;
    }
    let mut all = true;
    for part in (0..10u8).chain((0..10u8).rev()) {
        all = has(rt, &mut disk, ledger(part as u32), 90, &[part; 10])? && all;
    }
    // The folder itself is open too.
    Ok(all && open_now(rt)? == before.saturating_add(3))
}

/// A file is closed for another one before it was brought to the disk, and has its bytes afterwards.
pub fn unsynced_file(rt: HostRuntime) -> io::Result<bool> {
    let mut disk = folder(rt, "unsynced", 1)?;
    write(&mut disk, ledger(1), b"first")?;
    write(&mut disk, ledger(2), b"second")?;
    Ok(has(rt, &mut disk, ledger(1), 0, b"first")? && has(rt, &mut disk, ledger(2), 0, b"second")?)
}

/// How many descriptors this program has.
fn open_now(rt: HostRuntime) -> io::Result<usize> {
    Ok(fs::read_dir(&rt, "/proc/self/fd")?.count())
}
