//! A batch behind the others. The carrier tells the clauses which batches there are.
ghost use Rattle.std.specs.Prelude.{◌≡◌, ◌+◌, ◌^◌, ◌<◌, ◌≤◌, ◌∷◌, length, drop, OnOk, OnErr};
ghost use Rattle.txn_base.specs.Bytes.{contents_of};
ghost use Rattle.txn_base.specs.Content.{settled, landed, begun, Appends};
ghost use Rattle.txn_base.specs.Disk.{Files, Elsewhere, Changes};
ghost use Rattle.txn_base.specs.Outside.{counted};
ghost use Rattle.txn_base.specs.Frames.{IsBatch, behind_gate, frame, frames};
ghost use Rattle.txn_base.specs.Moves.{After, FailsIn};
ghost use Rattle.txn_ledger.specs.Gate.{IsClosedAt, MayOpen};
ghost use Rattle.txn_ledger.specs.Ledger.{IsFile, StandsIn, Stored};

use crate::gate::open_gate;
use crate::stage::stage;
use txn_base::{Bytes, ContentCarrier, Disk, Failed, FileId};

/// Writes a frame behind the end. A crash leaves all of it or none.
fn write_frame<D: Disk>(disk: &mut D, file: FileId, end: u64, tail: &[u8]) -> Result<(), Failed>
    requires some { 1 ≤ length tail.now }
    requires room { end + 1 + length tail.now < 2 ^ 64 }
    requires closed { (c : Files) → D.image disk.old c → IsClosedAt end (c file) }
    ensures images { After D.Disk (Changes file (MayOpen end tail.now)) disk.old disk.new }
    ensures opened { OnOk result ((c : Files) → D.image disk.new c → drop end (c file) ≡ 1 ∷ tail.now) }
    ensures others { Elsewhere file (D.seen disk.old) (D.seen disk.new) }
    ensures bound { OnOk result (end + 1 + length tail.now ≤ 2 ^ 50) }
    ensures cause { FailsIn D.Disk file.part disk.old disk.new result }
    ensures calls { OnOk result (D.calls disk.new ≡ counted 5 (D.calls disk.old)) }
    ensures few { D.calls disk.new ≤ counted 5 (D.calls disk.old) }
{
    stage(disk, file, end, tail)?;
    open_gate(disk, file, end)?;
    Ok(())
}

/// Writes a batch behind the others.
pub fn write_batch<D: Disk>(
    disk: &mut D,
    carrier: &ContentCarrier,
    file: FileId,
    end: u64,
    batch: &[Bytes],
    tail: &[u8],
) -> Result<(), Failed>
    requires settled { carrier.now.content.standing ≡ settled }
    requires file { file ≡ carrier.now.content.key }
    requires ends { end ≡ length (frames carrier.now.content.batches) }
    requires bound { end ≤ 2 ^ 50 }
    requires batch { IsBatch (contents_of batch.now) }
    requires tail { tail.now ≡ behind_gate (contents_of batch.now) }
    requires backed { Stored (D.image disk.old) carrier.now.content }
    ensures ok { OnOk result (Stored (D.image disk.new) (landed carrier.now.content (contents_of batch.now))) }
    ensures err { OnErr result (Stored (D.image disk.new) (begun carrier.now.content (contents_of batch.now))) }
    ensures images { After D.Disk (Appends IsFile StandsIn carrier.now.content (contents_of batch.now)) disk.old disk.new }
    ensures bound { OnOk result (end + length (frame (contents_of batch.now)) ≤ 2 ^ 50) }
    ensures others { Elsewhere carrier.now.content.key (D.seen disk.old) (D.seen disk.new) }
    ensures cause { FailsIn D.Disk carrier.now.content.key.part disk.old disk.new result }
    ensures calls { OnOk result (D.calls disk.new ≡ counted 5 (D.calls disk.old)) }
    ensures few { D.calls disk.new ≤ counted 5 (D.calls disk.old) }
{
    write_frame(disk, file, end, tail)?;
    Ok(())
}
