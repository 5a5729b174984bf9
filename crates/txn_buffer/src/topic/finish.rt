//! Ending a transaction in a topic.
ghost use Rattle.txn_ledger.specs.Reading.{IsBackedOn};
ghost use Rattle.std.specs.Prelude.{◌≡◌, ◌≤◌, [], ◌∷◌, None, Some, IsTrue, IsOk, OnOk, OnErr};
ghost use Rattle.txn_base.specs.declared.file_id.FileId.{FileId};
ghost use Rattle.txn_base.specs.Content.{Appends};
ghost use Rattle.txn_base.specs.Decoded.{topic_entry_of};
ghost use Rattle.txn_base.specs.Disk.{ChangesOnly};
ghost use Rattle.txn_base.specs.Records.{topic_record};
ghost use Rattle.txn_base.specs.Room.{capacity};
ghost use Rattle.txn_base.specs.Moves.{After, FailsIn};
ghost use Rattle.txn_model.specs.Skeletons.{topic_skeletons};
ghost use Rattle.txn_model.specs.Topic.{marker_of};
ghost use Rattle.txn_records.specs.Topics.{marker_entry};
ghost use Rattle.txn_buffer.specs.Ending.{IsNoneOr, with_reserved};
ghost use Rattle.txn_buffer.specs.Record.{IsInGrammar};
ghost use Rattle.txn_buffer.specs.View.{IsFrontOf, topic_batch, with_entries, with_failed_entries};

use crate::front::Front;
use crate::record::TopicRecord;
use crate::topic::Topic;
use std::alloc::AllocError;
use std::slice;
use txn_base::{Bytes, CoreEntry, Decision, Disk, Failed, TxnId};
use txn_ledger::RecordLog;
use txn_records::put_marker;

/// The bytes of a marker's record.
const RECORD: usize = 18;

/// The bytes of the frame of one marker.
const FRAME: usize = 25;

impl<R: RecordLog> Topic<R> {
    /// Takes the memory of the end of one transaction, whichever it is. Other calls keep it.
    pub fn reserve_end(&mut self) -> Result<(), AllocError>
        requires { IsTrue self.old.whole }
        ensures ok { OnOk result (self.new ≡ with_reserved self.old 1) }
        ensures err { OnErr result (self.new ≡ self.old) }
    {
        self.log.reserve(1, FRAME)?;
        self.marker.reserve(RECORD)?;
        self.front.reserve_ends(1)?;
        self.reserved = 1;
        Ok(())
    }

    /// Ends a transaction by its marker, in room that was reserved. Where the marker stands nothing is written.
    pub fn finish<D: Disk>(
        &mut self,
        disk: &mut D,
        txn: TxnId,
        decision: Decision,
    ) -> Result<(), Failed>
        requires whole { IsTrue self.old.whole }
        requires reserved { self.old.reserved ≡ 1 }
        requires decision { IsNoneOr decision (marker_of (topic_skeletons self.old.front) txn) }
        requires backed { IsBackedOn R.RecordLog D.Disk disk.old self.old.content }
        ensures stood { marker_of (topic_skeletons self.old.front) txn ≡ Some decision →
            IsOk result × (self.new ≡ self.old) × (disk.new ≡ disk.old) }
        ensures ok { OnOk result (marker_of (topic_skeletons self.old.front) txn ≡ None →
            self.new ≡ with_entries self.old (marker_entry txn decision ∷ []) 0) }
        ensures stands { OnOk result (marker_of
            (topic_skeletons self.new.front) txn ≡ Some decision) }
        ensures err { OnErr result (self.new ≡ with_failed_entries self.old
            (marker_entry txn decision ∷ [])) }
        ensures tied { IsFrontOf self.old → IsFrontOf self.new }
        ensures backed { IsBackedOn R.RecordLog D.Disk disk.new self.new.content }
        ensures images { After D.Disk (Appends R.mine R.stands self.old.content
            (topic_batch (marker_entry txn decision ∷ []))) disk.old disk.new }
        ensures others { ChangesOnly (R.mine self.old.content.key) (D.seen disk.old)
            (D.seen disk.new) }
        ensures cause { FailsIn D.Disk self.old.content.key.part disk.old disk.new result }
    {
        if self.front.marker(txn).is_some() {
            return Ok(());
        }
        self.add_marker(disk, txn, decision)
    }

    fn add_marker<D: Disk>(
        &mut self,
        disk: &mut D,
        txn: TxnId,
        decision: Decision,
    ) -> Result<(), Failed>
        requires whole { IsTrue self.old.whole }
        requires reserved { self.old.reserved ≡ 1 }
        requires unmarked { marker_of (topic_skeletons self.old.front) txn ≡ None }
        requires backed { IsBackedOn R.RecordLog D.Disk disk.old self.old.content }
        ensures ok { OnOk result (self.new ≡ with_entries self.old
            (marker_entry txn decision ∷ []) 0) }
        ensures err { OnErr result (self.new ≡ with_failed_entries self.old
            (marker_entry txn decision ∷ [])) }
        ensures tied { IsFrontOf self.old → IsFrontOf self.new }
        ensures backed { IsBackedOn R.RecordLog D.Disk disk.new self.new.content }
        ensures images { After D.Disk (Appends R.mine R.stands self.old.content
            (topic_batch (marker_entry txn decision ∷ []))) disk.old disk.new }
        ensures others { ChangesOnly (R.mine self.old.content.key) (D.seen disk.old)
            (D.seen disk.new) }
        ensures cause { FailsIn D.Disk self.old.content.key.part disk.old disk.new result }
    {
        let kind = CoreEntry::Marker { txn, decision };
        write_marker(txn, decision, &mut self.marker);
        if self
            .log
            .append(disk, slice::from_ref(&self.marker))
            .is_err()
        {
            self.whole = false;
            self.front = Front::new(self.alloc);
            self.marker.clear();
            self.reserved = 0;
            return Err(Failed);
        }
        // The log counts one record more, so that count fits.
        let _ = self.log.len();
        self.front.add(&TopicRecord::of(&self.marker, kind));
        self.marker.clear();
        self.reserved = 0;
        Ok(())
    }
}

/// Writes the record of a marker into room that is there.
fn write_marker(txn: TxnId, decision: Decision, out: &mut Bytes)
    requires empty { out.old.bytes ≡ [] }
    requires room { RECORD ≤ out.old.room }
    ensures bytes { out.new.bytes ≡ topic_record (marker_entry txn decision) }
    ensures entry { topic_entry_of out.new.bytes ≡ marker_entry txn decision }
    ensures grammar { IsInGrammar out.new.bytes }
    ensures kept { capacity out.old ≤ capacity out.new }
{
    put_marker(txn, decision, out);
}
