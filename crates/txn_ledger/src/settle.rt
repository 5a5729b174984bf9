//! What became of a batch whose append failed. The carrier tells the clauses which it is.
ghost use Rattle.std.specs.Prelude.{◌≡◌, ◌+◌, ◌^◌, ◌<◌, ◌≤◌, Ok, length, IfOk, OnOk, OnErr};
ghost use Rattle.txn_base.specs.Content.{IsInFlight, Settles};
ghost use Rattle.txn_base.specs.Disk.{Same, Elsewhere, Changes, OldOrResized, resized, Only};
ghost use Rattle.txn_base.specs.Frames.{frames};
ghost use Rattle.txn_base.specs.Moves.{After, FailsIn};
ghost use Rattle.txn_base.specs.Outside.{counted};
ghost use Rattle.txn_ledger.specs.Gate.{IsBehind, HasFrame};
ghost use Rattle.txn_ledger.specs.Ledger.{IsFile, StandsIn, Stored};
ghost use Rattle.txn_ledger.specs.Log.{settled_as};
ghost use Rattle.txn_ledger.specs.Tied.{IsSent};

use crate::Settled;
use txn_base::{ContentCarrier, Disk, Failed, FileId};

/// What stands behind the settled frames, where a frame of so many bytes was sent there: that frame behind an open gate and
/// no more, the same and more, or no such frame.
#[derive(Clone, Copy)]
pub enum Behind {
    Frame,
    More,
    NoFrame,
}

fn look_behind<D: Disk>(disk: &mut D, file: FileId, end: u64, sent: u64) -> Result<Behind, Failed>
    requires some { 1 ≤ sent }
    requires room { end + sent < 2 ^ 64 }
    ensures found { D.tells → IfOk result (λ behind. IsBehind end sent (D.seen disk.old file) behind) }
    ensures bound { IfOk result (λ behind. HasFrame behind → end + sent ≤ 2 ^ 50) }
    ensures seen { D.seen disk.new ≡ D.seen disk.old }
    ensures images { After D.Disk Same disk.old disk.new }
    ensures cause { FailsIn D.Disk file.part disk.old disk.new result }
    ensures few { D.calls disk.new ≤ counted 2 (D.calls disk.old) }
{
    let size = disk.size(file)?;
    if size < end + sent {
        return Ok(Behind::NoFrame);
    }
    let mut gate = [0];
    disk.read(file, end, &mut gate)?;
    if gate[0] != 1 {
        return Ok(Behind::NoFrame);
    }
    if end + sent < size {
        return Ok(Behind::More);
    }
    Ok(Behind::Frame)
}

/// Cuts a file.
pub fn cut<D: Disk>(disk: &mut D, file: FileId, end: u64) -> Result<(), Failed>
    ensures images { After D.Disk (Changes file (OldOrResized end)) disk.old disk.new }
    ensures done { OnOk result (D.tells → Only file (resized end (D.seen disk.old file)) (D.image disk.new)) }
    ensures cut { D.tells → OnOk result (D.seen disk.new file ≡ resized end (D.seen disk.old file)) }
    ensures others { Elsewhere file (D.seen disk.old) (D.seen disk.new) }
    ensures cause { FailsIn D.Disk file.part disk.old disk.new result }
    ensures few { D.calls disk.new ≤ counted 2 (D.calls disk.old) }
    ensures writes { D.writes disk.new ≤ counted 2 (D.writes disk.old) }
{
    disk.resize(file, end)?;
    disk.sync(file)?;
    Ok(())
}

/// Finds out what became of the batch in flight, and cuts off what stands behind the frames that count.
pub fn find_out<D: Disk>(
    disk: &mut D,
    carrier: &ContentCarrier,
    file: FileId,
    end: u64,
    sent: u64,
) -> Result<Settled, Failed>
    requires in_flight { IsInFlight carrier.now.content.standing }
    requires file { file ≡ carrier.now.content.key }
    requires ends { end ≡ length (frames carrier.now.content.batches) }
    requires bound { end ≤ 2 ^ 50 }
    requires sent { IsSent carrier.now.content.standing sent }
    requires backed { Stored (D.image disk.old) carrier.now.content }
    ensures ok { IfOk result (λ settled. Stored (D.image disk.new) (settled_as settled carrier.now.content)) }
    ensures err { OnErr result (Stored (D.image disk.new) carrier.now.content) }
    ensures found { D.tells → IfOk result (λ settled. StandsIn carrier.now.content.key (D.seen disk.old) (settled_as settled carrier.now.content).batches) }
    ensures bound { result ≡ Ok Settled.Kept → end + sent ≤ 2 ^ 50 }
    ensures images { After D.Disk (Settles IsFile StandsIn carrier.now.content) disk.old disk.new }
    ensures others { Elsewhere carrier.now.content.key (D.seen disk.old) (D.seen disk.new) }
    ensures cause { FailsIn D.Disk carrier.now.content.key.part disk.old disk.new result }
    ensures few { D.calls disk.new ≤ counted 5 (D.calls disk.old) }
{
    disk.sync(file)?;
    match look_behind(disk, file, end, sent)? {
        Behind::NoFrame => {
            cut(disk, file, end)?;
            Ok(Settled::Dropped)
        }
        Behind::More => {
            cut(disk, file, end + sent)?;
            Ok(Settled::Kept)
        }
        Behind::Frame => Ok(Settled::Kept),
    }
}
