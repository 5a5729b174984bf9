//! How many calls of a disk have failed.
ghost use Rattle.std.specs.Prelude.{◌≡◌, ◌<◌, ◌≤◌, ℕ};
ghost use Rattle.txn_base.specs.FaultCounts.{part_count};
ghost use Rattle.txn_base.specs.Outside.{counted};

use crate::failed::Failed;

/// The failed calls: all of them, and by the part of the file. The parts from 128 on share one count. A count stands still
/// at its type's end.
#[derive(Drop)]
pub struct FaultCounts {
    pub all: u64,
    pub parts: [u64; 128],
    pub beyond: u64,
}

impl FaultCounts {
    /// None has failed.
    pub fn new() -> Self
        ensures all { result.all ≡ 0 }
        ensures parts { (p : ℕ) → part_count result p ≡ 0 }
    {
        FaultCounts {
            all: 0,
            parts: [0; 128],
            beyond: 0,
        }
    }

    /// Counts a failed call on a file of this part.
    pub fn rise(&mut self, part: u32) -> Failed
        ensures all { self.new.all ≡ counted 1 self.old.all }
        ensures later { self.old.all ≤ self.new.all }
        ensures part { part_count self.new part ≡ counted 1 (part_count self.old part) }
        ensures parts_later { (p : ℕ) → part_count self.old p ≤ part_count self.new p }
        ensures others { (p : ℕ) → p < 128 → (p ≡ part → ⊥) → part_count self.new p ≡ part_count self.old p }
    {
        self.all = self.all.saturating_add(1);
        if part < 128 {
            let at = part as usize;
            self.parts[at] = self.parts[at].saturating_add(1);
        } else {
            self.beyond = self.beyond.saturating_add(1);
        }
        Failed
    }
}
