//! Reads behind each other, and what is read ahead for them.
use crate::made::{counting, done, folder, has, ledger, write};
use std::io;
use txn_base::Disk;
use txn_files::FolderDisk;

/// A large file is read in small pieces, with gaps and backwards too.
pub fn pieces(rt: HostRuntime) -> io::Result<bool> {
    let bytes = counting(rt, 200_000)?;
    let mut disk = folder(rt, "pieces", 4)?;
    write(&mut disk, ledger(1), &bytes)?;
    let mut all = true;
    for at in (0..1_999u64).chain(1_500..1_999) {
        all = has_its_bytes(rt, &mut disk, &bytes, at.saturating_mul(100), 93)? && all;
    }
    let past = disk.read(ledger(1), 199_990, &mut [0; 11]).is_err();
    Ok(all && past && has_its_bytes(rt, &mut disk, &bytes, 199_990, 10)?)
}

/// Bytes that are written inside what was read ahead are those that are read next.
pub fn rewritten_bytes(rt: HostRuntime) -> io::Result<bool> {
    let bytes = counting(rt, 1_000)?;
    let mut disk = folder(rt, "rewritten", 4)?;
    write(&mut disk, ledger(1), &bytes)?;
    let before = has_its_bytes(rt, &mut disk, &bytes, 0, 100)?
        && has_its_bytes(rt, &mut disk, &bytes, 100, 100)?;
    done(disk.write_at(ledger(1), 210, &[255; 10]))?;
    let written = has(rt, &mut disk, ledger(1), 210, &[255; 10])?;
    Ok(before && written && has_its_bytes(rt, &mut disk, &bytes, 220, 100)?)
}

/// After a change of size a read past it fails, and bytes that come back are zeros.
pub fn grown_files(rt: HostRuntime) -> io::Result<bool> {
    let bytes = counting(rt, 1_000)?;
    let mut disk = folder(rt, "grown", 4)?;
    write(&mut disk, ledger(1), &bytes)?;
    let before = has_its_bytes(rt, &mut disk, &bytes, 0, 100)?
        && has_its_bytes(rt, &mut disk, &bytes, 100, 100)?;
    done(disk.resize(ledger(1), 250))?;
    let past = disk.read(ledger(1), 200, &mut [0; 51]).is_err();
    let last = has_its_bytes(rt, &mut disk, &bytes, 200, 50)?;
    done(disk.resize(ledger(1), 260))?;
    Ok(before && past && last && has(rt, &mut disk, ledger(1), 250, &[0; 10])?)
}

/// Whether the file has these bytes at an offset.
fn has_its_bytes(
    rt: HostRuntime,
    disk: &mut FolderDisk<HostRuntime>,
    bytes: &[u8],
    offset: u64,
    count: usize,
) -> io::Result<bool> {
    let Ok(from) = usize::try_from(offset) else {
        return Ok(false);
    };
    match bytes.get(from..from.saturating_add(count)) {
        Some(wanted) => has(rt, disk, ledger(1), offset, wanted),
        None => Ok(false),
    }
}
