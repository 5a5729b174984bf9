//! The frames of a file, from its start to an end or a closed gate.
ghost use Rattle.std.specs.Prelude.{◌≡◌, ◌-◌, ◌^◌, ◌≤◌, ℕ, Err, length, drop, IfOk, OnOk};
ghost use Rattle.txn_base.specs.Disk.{Same};
ghost use Rattle.txn_base.specs.Frames.{IsDamagedAt};
ghost use Rattle.txn_base.specs.Moves.{After, FaultsIn};
ghost use Rattle.txn_ledger.specs.Found.{IsHead, FitsIn, IsPiece};
ghost use Rattle.txn_ledger.specs.Ledger.{StandsIn};
ghost use Rattle.txn_ledger.specs.Tied.{IsScanned};

use crate::OpenError;
use crate::found::Found;
use crate::parse::{HEAD, Head, head_of};
use crate::window::Window;
use std::alloc::Global;
use std::cmp::min;
use txn_base::{Disk, FileId};

/// What stands behind the frames so far.
fn read_head<D: Disk>(
    disk: &mut D,
    file: FileId,
    size: u64,
    window: &mut Window,
    end: u64,
) -> Result<Head, OpenError>
    requires size { D.tells → size ≡ length (D.seen disk.old file) }
    requires bound { size ≤ 2 ^ 50 }
    requires within { end ≤ size }
    requires piece { IsPiece D.tells (D.seen disk.old file) size window.old.at window.old.bytes.items }
    ensures head { D.tells → IfOk result (λ head. IsHead (drop end (D.seen disk.old file)) head) }
    ensures fits { IfOk result (λ head. FitsIn (size - end) head) }
    ensures piece { OnOk result (IsPiece D.tells (D.seen disk.old file) size window.new.at window.new.bytes.items) }
    ensures not_damaged { (entry : ℕ) → result ≡ Err (OpenError.Damaged entry) → ⊥ }
    ensures seen { D.seen disk.new ≡ D.seen disk.old }
    ensures images { After D.Disk Same disk.old disk.new }
    ensures cause { FaultsIn D.Disk file.part disk.old disk.new (result ≡ Err OpenError.Fault) }
    ensures writes { D.writes disk.new ≡ D.writes disk.old }
{
    let left = size - end;
    let count = min(HEAD as u64, left);
    window.fill(disk, file, size, end, count)?;
    Ok(head_of(window.slice(end, count), left))
}

/// Reads the frames of a file of this size up to its end or a closed gate.
pub fn scan<D: Disk>(
    alloc: Global,
    disk: &mut D,
    file: FileId,
    size: u64,
) -> Result<Found, OpenError>
    requires size { D.tells → size ≡ length (D.seen disk.old file) }
    requires bound { size ≤ 2 ^ 50 }
    ensures key { IfOk result (λ found. found.carrier.content.key ≡ file) }
    ensures scanned { IfOk result (λ found. IsScanned found.carrier.content found.end found.positions.items) }
    ensures within { IfOk result (λ found. found.end ≤ size) }
    ensures told { D.tells → IfOk result (λ found. StandsIn file (D.seen disk.old) found.carrier.content.batches) }
    ensures damaged { (entry : ℕ) → result ≡ Err (OpenError.Damaged entry) → D.tells → IsDamagedAt (D.seen disk.old file) entry }
    ensures seen { D.seen disk.new ≡ D.seen disk.old }
    ensures images { After D.Disk Same disk.old disk.new }
    ensures cause { FaultsIn D.Disk file.part disk.old disk.new (result ≡ Err OpenError.Fault) }
    ensures writes { D.writes disk.new ≡ D.writes disk.old }
{
    let mut found = Found::new(alloc, file);
    let mut window = Window::new(alloc);
    loop {
        match read_head(disk, file, size, &mut window, found.end)? {
            Head::End => return Ok(found),
            Head::NoFrame => {
                return Err(OpenError::Damaged {
                    entry: found.positions.len() as u64,
                });
            }
            Head::Body { len } => {
                let from = found.end + HEAD as u64;
                window.fill(disk, file, size, from, len as u64)?;
                found.add_frame(window.slice(from, len as u64))?;
            }
        }
    }
}
