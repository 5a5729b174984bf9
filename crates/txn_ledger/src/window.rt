//! A piece of a file that is read front to back.
ghost use Rattle.std.specs.Prelude.{◌≡◌, ◌+◌, ◌^◌, ◌≤◌, ◌↔◌, ℕ, List, Err, length, take, drop, OnOk, IsTrue};
ghost use Rattle.txn_base.specs.Disk.{Same};
ghost use Rattle.txn_base.specs.Moves.{After, FaultsIn};
ghost use Rattle.txn_ledger.specs.Found.{IsPiece};

use crate::OpenError;
use std::alloc::Global;
use std::cmp::{max, min};
use txn_base::{Disk, FileId};

/// How many bytes are read at a time, where so many are left.
const PIECE: u64 = 65536;

/// Bytes of a file, from an offset on.
#[derive(Drop)]
pub struct Window {
    pub at: u64,
    pub bytes: Vec<u8>,
}

impl Window {
    pub fn new(alloc: Global) -> Window
        ensures at { result.at ≡ 0 }
        ensures bytes { length result.bytes.items ≡ 0 }
    {
        Window {
            at: 0,
            bytes: Vec::new(alloc),
        }
    }

    /// So many bytes from there on stand in the window.
    fn holds(&self, from: u64, count: u64) -> bool
        requires bound { from + count ≤ 2 ^ 50 }
        requires end { self.now.at + length self.now.bytes.items ≤ 2 ^ 50 }
        ensures { IsTrue result ↔ ((self.now.at ≤ from) × (from + count ≤ self.now.at + length self.now.bytes.items)) }
    {
        self.at <= from && from + count <= self.at + self.bytes.len() as u64
    }

    /// Makes so many bytes from there on stand in the window, by one read where they don't yet.
    pub fn fill<D: Disk>(
        &mut self,
        disk: &mut D,
        file: FileId,
        size: u64,
        from: u64,
        count: u64,
    ) -> Result<(), OpenError>
        requires size { D.tells → size ≡ length (D.seen disk.old file) }
        requires bound { size ≤ 2 ^ 50 }
        requires within { from + count ≤ size }
        requires piece { IsPiece D.tells (D.seen disk.old file) size self.old.at self.old.bytes.items }
        ensures piece { OnOk result (IsPiece D.tells (D.seen disk.old file) size self.new.at self.new.bytes.items) }
        ensures front { OnOk result (self.new.at ≤ from) }
        ensures back { OnOk result (from + count ≤ self.new.at + length self.new.bytes.items) }
        ensures not_damaged { (entry : ℕ) → result ≡ Err (OpenError.Damaged entry) → ⊥ }
        ensures seen { D.seen disk.new ≡ D.seen disk.old }
        ensures images { After D.Disk Same disk.old disk.new }
        ensures cause { FaultsIn D.Disk file.part disk.old disk.new (result ≡ Err OpenError.Fault) }
        ensures writes { D.writes disk.new ≡ D.writes disk.old }
    {
        if self.holds(from, count) {
            return Ok(());
        }
        let len = max(count, min(size - from, PIECE));
        self.bytes.resize(len as usize, 0)?;
        disk.read(file, from, &mut self.bytes)?;
        self.at = from;
        Ok(())
    }

    /// So many bytes from there on.
    pub fn slice(&self, from: u64, count: u64) -> &[u8]
        requires front { self.now.at ≤ from }
        requires back { from + count ≤ self.now.at + length self.now.bytes.items }
        ensures len { length result.now ≡ count }
        ensures bytes { (file : List ℕ) → self.now.bytes.items ≡ take (length self.now.bytes.items) (drop self.now.at file) → result.now ≡ take count (drop from file) }
    {
        let behind = self.bytes.as_slice().split_at((from - self.at) as usize).1;
        behind.split_at(count as usize).0
    }
}
