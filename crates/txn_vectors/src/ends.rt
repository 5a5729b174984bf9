//! Records of a snapshot as a line has them.
use crate::wrong::Wrong;
use std::alloc::Global;
use txn_base::Bytes;

/// A record of so many commits, of the transactions from this one on.
pub fn ends_record(alloc: Global, first: u64, count: u64) -> Result<Bytes, Wrong> {
    let Ok(told) = u16::try_from(count) else {
        return Err(Wrong::Line("two bytes hold less"));
    };
    let mut out = Bytes::from_slice(alloc, &[1, 2])?;
    out.append(&told.to_be_bytes())?;
    for i in 0..count {
        out.append(&[0; 8])?;
        out.append(&first.wrapping_add(i).to_be_bytes())?;
        out.append(&[1])?;
    }
    Ok(out)
}

/// A head that tells of 9,000 entries, a limit of 8,000 and so many ends.
pub fn head_record(alloc: Global, ends: u64) -> Result<Bytes, Wrong> {
    let mut out = Bytes::from_slice(alloc, &[1, 1])?;
    for number in [9_000, 8_000, ends] {
        out.append(&number.to_be_bytes())?;
    }
    Ok(out)
}
