//! A change of a file that a crash may undo or cut short.
ghost use Rattle.std.specs.Prelude.{◌≡◌, ◌+◌, ◌≤◌, length, OnOk};
ghost use Rattle.txn_base.specs.Disk.{overwritten};
ghost use Rattle.txn_memdisk.specs.Change.{undo_one, bytes_put_back, undone, made, filled, replayed, changes_of};

use std::alloc::{AllocError, Global};

/// What a call did to a file: its size was set, or bytes in a range were written.
#[derive(Clone, Copy)]
pub enum Change {
    Sized { size: u64 },
    Written { offset: u64, count: u64 },
}

/// What undoes a change: the size before it and the bytes that it cut off, or bytes that it wrote over.
#[derive(Drop)]
pub enum Undo {
    Size { before: u64, cut: Vec<u8> },
    Bytes { offset: u64, old: Vec<u8> },
}

/// A change since the last sync of its file.
#[derive(Drop)]
pub struct Pending {
    pub change: Change,
    pub undo: Undo,
}

/// Writes bytes at an offset.
pub fn write_over(bytes: &mut [u8], offset: usize, more: &[u8])
    requires { offset + length more.now ≤ length bytes.old }
    ensures { bytes.new ≡ overwritten offset more.now bytes.old }
{
    bytes[offset..offset + more.len()].copy_from_slice(more);
}

/// Puts bytes at an offset, as far as they lie within.
fn put_back(bytes: &mut [u8], offset: usize, old: &[u8])
    ensures { bytes.new ≡ bytes_put_back offset old.now bytes.old }
{
    let start = offset.min(bytes.len());
    let count = old.len().min(bytes.len() - start);
    bytes[start..start + count].copy_from_slice(&old[..count]);
}

/// Fills a range with a byte, as far as it lies within.
fn fill(bytes: &mut [u8], offset: usize, count: usize, byte: u8)
    ensures { bytes.new ≡ filled offset count byte bytes.old }
{
    let start = offset.min(bytes.len());
    let count = count.min(bytes.len() - start);
    bytes[start..start + count].fill(byte);
}

fn undo_one(bytes: &mut Vec<u8>, undo: &Undo) -> Result<(), AllocError>
    ensures { OnOk result (bytes.new.items ≡ undo_one undo.now bytes.old.items) }
{
    match undo {
        Undo::Size { before, cut } => {
            bytes.truncate(*before as usize);
            bytes.extend_from_slice(cut)?;
        }
        Undo::Bytes { offset, old } => put_back(bytes, *offset as usize, old),
    }
    Ok(())
}

/// Undoes the changes, the last of them first.
pub fn undo_all(bytes: &mut Vec<u8>, pending: &[Pending]) -> Result<(), AllocError>
    ensures { OnOk result (bytes.new.items ≡ undone pending.now bytes.old.items) }
{
    for i in (0..pending.len()).rev() {
        undo_one(bytes, &pending[i].undo)?;
    }
    Ok(())
}

fn make(bytes: &mut Vec<u8>, change: Change, byte: u8) -> Result<(), AllocError>
    ensures { OnOk result (bytes.new.items ≡ made byte change bytes.old.items) }
{
    match change {
        Change::Sized { size } => bytes.resize(size as usize, 0)?,
        Change::Written { offset, count } => fill(bytes, offset as usize, count as usize, byte),
    }
    Ok(())
}

/// Makes the changes, the first of them first, with this byte in each range that was written.
pub fn replay(bytes: &mut Vec<u8>, pending: &[Pending], byte: u8) -> Result<(), AllocError>
    ensures { OnOk result (bytes.new.items ≡ replayed byte (changes_of pending.now) bytes.old.items) }
{
    for one in pending {
        make(bytes, one.change, byte)?;
    }
    Ok(())
}
