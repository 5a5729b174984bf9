//! A disk of many files: what a read gives, and what a crash may leave.
ghost use Rattle.std.specs.Prelude.{◌≡◌, ◌+◌, ◌^◌, ◌≤◌, List, ℕ, length, take, drop, IfOk, OnOk, OnErr};
ghost use Rattle.txn_base.specs.declared.file_id.FileId.{FileId};
ghost use Rattle.txn_base.specs.Disk.{Files, Same, Elsewhere, Changes, Torn, OldOrResized, overwritten, resized, mixed, Since, Only, HasPartCause};
ghost use Rattle.txn_base.specs.Outside.{counted};

use crate::failed::Failed;
use crate::file_id::FileId;

/// A disk of files. What it holds is told by one in memory and not by a real one; clauses on content hold where it is
/// told. A failed call may have done its work or not.
pub trait Disk {
    /// What the disk holds is told. No call changes that.
    ghost tells: { Type 0 };

    /// What a read of each file gives. A file that was never written is empty.
    ghost seen: { Self → Files };

    /// A crash at this moment may leave these files.
    ghost image: { Self → Files → Type 0 };

    /// The moment, as a number that doesn't fall.
    ghost moment: { Self → ℕ };

    /// A crash at some moment from that one on, during a call or between two, might have left these files.
    ghost left_since: { Self → ℕ → Files → Type 0 };

    /// How many calls have failed.
    ghost faults: { Self → ℕ };

    /// How many calls on files of that part have failed. The parts from 128 on may share one count.
    ghost part_faults: { Self → ℕ → ℕ };

    /// How many calls there have been.
    ghost calls: { Self → ℕ };

    /// How many of them were to write or to sync: all but those of `size` and `read`.
    ghost writes: { Self → ℕ };

    /// The size of a file, 0 for one that was never written. A size past 2^50 is a failure.
    fn size(&mut self, file: FileId) -> Result<u64, Failed>
        ensures size { tells → IfOk result (λ n. n ≡ length (seen self.old file)) }
        ensures bound { IfOk result (λ n. n ≤ 2 ^ 50) }
        ensures seen { seen self.new ≡ seen self.old }
        ensures images { Since moment image left_since Same self.old self.new }
        ensures cause { HasPartCause file.part (faults self.old) (faults self.new) (part_faults self.old) (part_faults self.new) result }
        ensures calls { calls self.new ≡ counted 1 (calls self.old) }
        ensures writes { writes self.new ≡ writes self.old };

    /// Reads the whole piece, within the size.
    fn read(&mut self, file: FileId, offset: u64, into: &mut [u8]) -> Result<(), Failed>
        requires { tells → offset + length into.old ≤ length (seen self.old file) }
        ensures read { tells → OnOk result (into.new ≡ take (length into.old) (drop offset (seen self.old file))) }
        ensures seen { seen self.new ≡ seen self.old }
        ensures images { Since moment image left_since Same self.old self.new }
        ensures cause { HasPartCause file.part (faults self.old) (faults self.new) (part_faults self.old) (part_faults self.new) result }
        ensures calls { calls self.new ≡ counted 1 (calls self.old) }
        ensures writes { writes self.new ≡ writes self.old };

    /// Writes within the size. Until a sync of the file succeeds, a crash may leave any bytes in the range, and so does a call
    /// that fails, as the file reads.
    fn write_at(&mut self, file: FileId, offset: u64, bytes: &[u8]) -> Result<(), Failed>
        requires { tells → offset + length bytes.now ≤ length (seen self.old file) }
        ensures written { tells → OnOk result (seen self.new file ≡ overwritten offset bytes.now (seen self.old file)) }
        ensures torn { tells → OnErr result (Torn offset (length bytes.now) (seen self.old file) (seen self.new file)) }
        ensures others { Elsewhere file (seen self.old) (seen self.new) }
        ensures images { Since moment image left_since (Changes file (Torn offset (length bytes.now))) self.old self.new }
        ensures cause { HasPartCause file.part (faults self.old) (faults self.new) (part_faults self.old) (part_faults self.new) result }
        ensures calls { calls self.new ≡ counted 1 (calls self.old) }
        ensures writes { writes self.new ≡ counted 1 (writes self.old) };

    /// Sets the size, at most 2^50. Added bytes are zero. Until a sync of the file succeeds, a crash leaves the size
    /// before or after, and so does a call that fails, as the file reads.
    fn resize(&mut self, file: FileId, size: u64) -> Result<(), Failed>
        ensures bound { OnOk result (size ≤ 2 ^ 50) }
        ensures resized { tells → OnOk result (seen self.new file ≡ resized size (seen self.old file)) }
        ensures sized { tells → OnErr result (OldOrResized size (seen self.old file) (seen self.new file)) }
        ensures others { Elsewhere file (seen self.old) (seen self.new) }
        ensures images { Since moment image left_since (Changes file (OldOrResized size)) self.old self.new }
        ensures cause { HasPartCause file.part (faults self.old) (faults self.new) (part_faults self.old) (part_faults self.new) result }
        ensures calls { calls self.new ≡ counted 1 (calls self.old) }
        ensures writes { writes self.new ≡ counted 1 (writes self.old) };

    /// After it, a crash leaves of this file what a read gives.
    fn sync(&mut self, file: FileId) -> Result<(), Failed>
        ensures durable { OnOk result (Only file (seen self.old file) (image self.new)) }
        ensures seen { seen self.new ≡ seen self.old }
        ensures images { Since moment image left_since Same self.old self.new }
        ensures cause { HasPartCause file.part (faults self.old) (faults self.new) (part_faults self.old) (part_faults self.new) result }
        ensures calls { calls self.new ≡ counted 1 (calls self.old) }
        ensures writes { writes self.new ≡ counted 1 (writes self.old) };

    /// The disk as it reads is one of its images.
    ghost seen_is_image: { (disk : Self) → tells → image disk (seen disk) };

    /// Only a disk that tells has images.
    ghost image_is_told: { (disk : Self) (c : Files) → image disk c → tells };

    /// What a crash leaves of one file doesn't depend on what it leaves of the others.
    ghost independent: { (disk : Self) (c d : Files) (file : FileId) → image disk c → image disk d → image disk (mixed file c d) };

    /// This moment is one of those since an earlier one.
    ghost counts_now: { (disk : Self) (t : ℕ) (c : Files) → t ≤ moment disk → image disk c → left_since disk t c };

    /// Since this moment there is no other.
    ghost only_now: { (disk : Self) (c : Files) → left_since disk (moment disk) c → image disk c };
}
