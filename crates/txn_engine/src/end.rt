//! The end of a transaction, in two phases: its decision is logged, then each of its parts gets its marker, and then it is
//! closed.
ghost use Rattle.std.specs.Prelude.{◌≡◌, ◌≤◌, ◌<◌, ◌+◌, ℕ, [], ◌∷◌, length, true, false, None, Some, is_none, is_some, slice_index_or, IsTrue, IsOk, IsErr, IfErr, IfSome, OnOk, OnErr, Err};
ghost use Rattle.txn_base.specs.Content.{Appends, settled};
ghost use Rattle.txn_base.specs.Disk.{Elsewhere};
ghost use Rattle.txn_base.specs.Moves.{After, FaultsIn, RoseIn};
ghost use Rattle.txn_base.specs.declared.reply.Reply.TheVariants as reply;
ghost use Rattle.txn_base.specs.declared.reply.Why.TheVariants as why;
ghost use Rattle.txn_buffer.specs.View.{TopicView, IsFrontOf, topic_batch, with_entries, with_failed_entries};
ghost use Rattle.txn_ledger.specs.Ledger.{StandsIn, IsFile, Stored};
ghost use Rattle.txn_records.specs.Topics.{marker_entry};
ghost use Rattle.txn_engine.specs.Causes.{TellsEarly};
ghost use Rattle.txn_engine.specs.Damage.{is_damage};
ghost use Rattle.txn_engine.specs.Ending.{end_request, IsSameBut, AreReady, IsReady, IsMarked, AreMarked, IsElsewhere, IsTellableEnd, IsGranted};
ghost use Rattle.txn_engine.specs.Faults.{stuck_name, fault_name, RoseByName};
ghost use Rattle.txn_engine.specs.Kept.{IsEngine};
ghost use Rattle.txn_engine.specs.Refusals.{coord_refusal};
ghost use Rattle.txn_engine.specs.Table.{table_of, world_of};
ghost use Rattle.txn_engine.specs.Told.{IsTellable, EngineGoesOn, MayTellOn};
ghost use Rattle.txn_engine.specs.View.{IsWhole, IsTied, IsBacked, IsWholeAt};
ghost use Rattle.txn_model.specs.Coord.{decision_of, closing_of, parts_of, closed, deciding};
ghost use Rattle.txn_model.specs.Deadlines.{is_closed};
ghost use Rattle.txn_model.specs.Drive.{MarksAll, StopsWithin, Drives};
ghost use Rattle.txn_model.specs.Replies.{is_fault, is_stopped};
ghost use Rattle.txn_model.specs.Skeletons.{coord_skeletons, topic_skeletons};
ghost use Rattle.txn_model.specs.Table.{marker_batch, marked, with_failed_batch, decision_batch, closing_batch, with_batch};
ghost use Rattle.txn_model.specs.Topic.{marker_of};
ghost use Rattle.txn_model.specs.World.{part_skeletons};

use crate::engine::{COORDINATOR, Engine};
use crate::publish::has_part;
use crate::refusals::coord_refusal;
use std::alloc::AllocError;
use txn_base::{
    Decision, Disk, Failed, Outcome, Refusal, Reply, Status, Stuck, TextRoom, TxnId, Why,
};
use txn_buffer::Topic;
use txn_coordinator::CoordError;
use txn_ledger::Ledger;

/// The most bytes of a part's name.
const NAME: usize = 201;

impl Engine {
    /// Ends a transaction by this decision, or goes on with an end by the same one. All memory of the line is taken before
    /// its first write.
    pub(crate) fn end<D: Disk>(&mut self, disk: &mut D, txn: TxnId, decision: Decision) -> Reply
        requires whole { IsWhole self.old }
        requires backed { IsBacked (D.image disk.old) self.old }
        ensures told { D.tells → IsTied self.old → (now : ℕ) →
            MayTellOn D.Disk disk.old disk.new self.old
            (end_request decision txn) now result self.new }
        ensures tellable { IsTellable result }
        ensures early { TellsEarly self.old.limits (world_of self.old)
            (end_request decision txn) result }
        ensures undamaged { is_damage result ≡ false }
        ensures named { IfSome (fault_name result)
            (RoseByName self.old.names (RoseIn D.Disk disk.old disk.new)) }
        ensures limits { self.new.limits ≡ self.old.limits }
        ensures goes { EngineGoesOn D.Disk
            (is_fault result ≡ true) self.old self.new disk.old disk.new }
    {
        if txn.most != 0 {
            return Reply::No(Refusal::UnknownCoordinator { number: txn.most });
        }
        let Ok(room) = TextRoom::new(self.alloc, NAME) else {
            return Reply::No(Refusal::NoMemory);
        };
        if self.reserve(txn).is_err() {
            return Reply::No(Refusal::NoMemory);
        }
        self.decide_and_drive(disk, txn, decision, room)
    }

    /// The same, where the memory of the line was taken.
    fn decide_and_drive<D: Disk>(
        &mut self,
        disk: &mut D,
        txn: TxnId,
        decision: Decision,
        room: TextRoom,
    ) -> Reply
        requires own { txn.most ≡ 0 }
        requires room { NAME ≤ room }
        requires ready { IsReady txn self.old }
        requires whole { IsWhole self.old }
        requires backed { IsBacked (D.image disk.old) self.old }
        ensures told { D.tells → IsTied self.old → (now : ℕ) →
            MayTellOn D.Disk disk.old disk.new self.old
            (end_request decision txn) now result self.new }
        ensures tellable { IsTellable result }
        ensures undamaged { is_damage result ≡ false }
        ensures named { IfSome (fault_name result)
            (RoseByName self.old.names (RoseIn D.Disk disk.old disk.new)) }
        ensures limits { self.new.limits ≡ self.old.limits }
        ensures goes { EngineGoesOn D.Disk
            (is_fault result ≡ true) self.old self.new disk.old disk.new }
    {
        match self.decide(disk, txn, decision) {
            Ok(_) => Reply::Ended {
                decision,
                outcome: self.drive(disk, txn, decision, room),
            },
            Err(error) => Reply::No(coord_refusal(error, room)),
        }
    }

    /// Logs the decision, where the transaction is open. Where it isn't refused, the transaction has this decision then.
    fn decide<D: Disk>(
        &mut self,
        disk: &mut D,
        txn: TxnId,
        decision: Decision,
    ) -> Result<Status, CoordError>
        requires own { txn.most ≡ 0 }
        requires whole { IsTrue self.old.coord.whole }
        requires backed { IsBacked (D.image disk.old) self.old }
        ensures refused { D.tells → IsTied self.old →
            IfErr result (λ e. (now : ℕ) →
            MayTellOn D.Disk disk.old disk.new self.old (end_request decision txn) now
            (reply.No (coord_refusal e)) self.new) }
        ensures granted { D.tells → IsTied self.old →
            OnOk result (IsGranted self.old.limits (table_of self.old) (end_request decision txn)) }
        ensures settled { D.tells → IsTied self.old →
            OnOk result (table_of self.new ≡ with_batch
            (decision_batch (table_of self.old) txn decision) (table_of self.old)) }
        ensures rose { result ≡ Err CoordError.Fault → RoseIn D.Disk disk.old disk.new 0 }
        ensures decided { OnOk result (decision_of
            (coord_skeletons self.new.coord.front) txn ≡ Some decision) }
        ensures whole { OnOk result (IsTrue self.new.coord.whole) }
        ensures ready { IsReady txn self.old → OnOk result (IsReady txn self.new) }
        ensures limits { self.new.limits ≡ self.old.limits }
        ensures goes { EngineGoesOn D.Disk
            (result ≡ Err CoordError.Fault) self.old self.new disk.old disk.new }
    {
        self.coordinator.decide(disk, txn, decision)
    }

    /// Gives each part of a decided transaction its marker, in order of number, and closes it.
    fn drive<D: Disk>(
        &mut self,
        disk: &mut D,
        txn: TxnId,
        decision: Decision,
        room: TextRoom,
    ) -> Outcome
        requires decided { decision_of (coord_skeletons self.old.coord.front) txn ≡ Some decision }
        requires room { NAME ≤ room }
        requires ready { IsReady txn self.old }
        requires whole { IsWhole self.old }
        requires backed { IsBacked (D.image disk.old) self.old }
        ensures told { D.tells → IsTied self.old →
            Drives (RoseIn D.Disk disk.old disk.new) txn (table_of self.old) result
            (table_of self.new) }
        ensures tellable { IsTellableEnd result }
        ensures named { IfSome (stuck_name result.stuck)
            (RoseByName self.old.names (RoseIn D.Disk disk.old disk.new)) }
        ensures limits { self.new.limits ≡ self.old.limits }
        ensures goes { EngineGoesOn D.Disk
            (is_stopped result.stuck ≡ true) self.old self.new disk.old disk.new }
    {
        if self.is_closed(txn) {
            return Outcome {
                status: closed(decision),
                stuck: None,
            };
        }
        if let Err(at) = self.mark_all(disk, txn, decision) {
            return stuck(decision, self.names[at].as_str(), room);
        }
        if self.close(disk, txn).is_err() {
            return stuck(decision, COORDINATOR, room);
        }
        Outcome {
            status: closed(decision),
            stuck: None,
        }
    }

    /// Closes a decided transaction, each part of which has its marker.
    fn close<D: Disk>(&mut self, disk: &mut D, txn: TxnId) -> Result<(), Failed>
        requires decided { is_some (decision_of (coord_skeletons self.old.coord.front) txn) ≡ true }
        requires unclosed { closing_of (coord_skeletons self.old.coord.front) txn ≡ None }
        requires marked { AreMarked txn self.old (length self.old.topics) }
        requires reserved { self.old.coord.reserved ≡ 1 }
        requires whole { IsTrue self.old.coord.whole }
        requires backed { IsBacked (D.image disk.old) self.old }
        ensures ok { (d : Decision) →
            decision_of (coord_skeletons self.old.coord.front) txn ≡ Some d → D.tells →
            IsTied self.old → OnOk result (table_of self.new ≡ with_batch (closing_batch txn d)
            (table_of self.old)) }
        ensures err { (d : Decision) →
            decision_of (coord_skeletons self.old.coord.front) txn ≡ Some d → D.tells →
            IsTied self.old → OnErr result (table_of self.new ≡ with_failed_batch
            (closing_batch txn d) 0 (table_of self.old)) }
        ensures rose { OnErr result (RoseIn D.Disk disk.old disk.new 0) }
        ensures limits { self.new.limits ≡ self.old.limits }
        ensures goes { EngineGoesOn D.Disk (IsErr result) self.old self.new disk.old disk.new }
    {
        self.coordinator.close(disk, txn)
    }

    /// Gives each part of a transaction its marker, in order of number, but for those that have one. Err tells the index of
    /// the topic whose append failed.
    fn mark_all<D: Disk>(
        &mut self,
        disk: &mut D,
        txn: TxnId,
        decision: Decision,
    ) -> Result<(), usize>
        requires decided { decision_of (coord_skeletons self.old.coord.front) txn ≡ Some decision }
        requires ready { AreReady txn self.old (length self.old.topics) }
        requires whole { IsWhole self.old }
        requires backed { IsBacked (D.image disk.old) self.old }
        ensures ok { D.tells → IsTied self.old →
            OnOk result (MarksAll txn decision (parts_of (coord_skeletons self.old.coord.front) txn)
            (table_of self.old) (table_of self.new)) }
        ensures err { D.tells → IsTied self.old →
            IfErr result (λ at. StopsWithin (RoseIn D.Disk disk.old disk.new) txn decision
            (parts_of (coord_skeletons self.old.coord.front) txn) (1 + at)
            (table_of self.old) why.Fault (table_of self.new)) }
        ensures within { IfErr result (λ at. at < length self.old.names) }
        ensures rose { IfErr result (λ at. RoseIn D.Disk disk.old disk.new (1 + at)) }
        ensures coord { self.new.coord ≡ self.old.coord }
        ensures marked { OnOk result (AreMarked txn self.new (length self.new.topics)) }
        ensures limits { self.new.limits ≡ self.old.limits }
        ensures goes { EngineGoesOn D.Disk (IsErr result) self.old self.new disk.old disk.new }
    {
        let parts = self.coordinator.parts(txn);
        let mut at = 0;
        while at < self.topics.len() {
            if has_part(parts, at + 1) && self.mark(disk, at, txn, decision).is_err() {
                return Err(at);
            }
            at += 1;
        }
        Ok(())
    }

    /// Gives the topic at an index its marker, where it has none.
    fn mark<D: Disk>(
        &mut self,
        disk: &mut D,
        at: usize,
        txn: TxnId,
        decision: Decision,
    ) -> Result<(), Failed>
        requires below { at < length self.old.topics }
        requires decided { decision_of (coord_skeletons self.old.coord.front) txn ≡ Some decision }
        requires reserved { (t : TopicView) → (slice_index_or self.old.topics at t).reserved ≡ 1 }
        requires log { IsTrue self.old.coord.whole }
        requires whole { IsWholeAt self.old at }
        requires backed { IsBacked (D.image disk.old) self.old }
        ensures ok { D.tells → IsTied self.old →
            OnOk result (table_of self.new ≡ marked txn decision (1 + at) (table_of self.old)) }
        ensures err { D.tells → IsTied self.old →
            OnErr result ((is_none (marker_of
            (part_skeletons (table_of self.old).world (1 + at)) txn) ≡ true)
            × (table_of self.new ≡ with_failed_batch
            (marker_batch (table_of self.old) txn decision (1 + at)) (1 + at)
            (table_of self.old))) }
        ensures rose { OnErr result (RoseIn D.Disk disk.old disk.new (1 + at)) }
        ensures marked { OnOk result (IsMarked txn self.new at) }
        ensures elsewhere { IsElsewhere at self.old self.new }
        ensures goes { EngineGoesOn D.Disk (IsErr result) self.old self.new disk.old disk.new }
    {
        mark_topic(&mut self.topics[at], disk, txn, decision)
    }

    /// Takes the memory of an end at each part of a transaction, and of its close.
    fn reserve(&mut self, txn: TxnId) -> Result<(), AllocError>
        requires whole { IsWhole self.old }
        ensures same { IsSameBut self.old self.new }
        ensures ready { OnOk result (IsReady txn self.new) }
    {
        let parts = self.coordinator.parts(txn);
        let mut at = 0;
        while at < self.topics.len() {
            if has_part(parts, at + 1) {
                self.reserve_at(at)?;
            }
            at += 1;
        }
        self.coordinator.reserve_close()
    }

    /// Takes the memory of an end at the topic at an index.
    fn reserve_at(&mut self, at: usize) -> Result<(), AllocError>
        requires below { at < length self.old.topics }
        requires whole { IsWhole self.old }
        ensures same { IsSameBut self.old self.new }
        ensures reserved { OnOk result ((t : TopicView) →
            (slice_index_or self.new.topics at t).reserved ≡ 1) }
        ensures elsewhere { IsElsewhere at self.old self.new }
    {
        self.topics[at].reserve_end()
    }

    /// It is closed. The further clause says what always holds of an engine.
    fn is_closed(&self, txn: TxnId) -> bool
        ensures value { result ≡ is_some (closing_of (coord_skeletons self.now.coord.front) txn) }
        ensures kept { IsEngine self.now }
    {
        is_closed(self.coordinator.status(txn))
    }
}

/// Gives a topic its marker of a transaction, where it has none.
fn mark_topic<D: Disk>(
    topic: &mut Topic<Ledger>,
    disk: &mut D,
    txn: TxnId,
    decision: Decision,
) -> Result<(), Failed>
    requires whole { IsTrue topic.old.whole }
    requires reserved { topic.old.reserved ≡ 1 }
    requires settled { topic.old.content.standing ≡ settled }
    requires backed { Stored (D.image disk.old) topic.old.content }
    ensures stood { is_some (marker_of (topic_skeletons topic.old.front) txn) ≡ true →
        IsOk result × (topic.new ≡ topic.old) × (disk.new ≡ disk.old) }
    ensures ok { OnOk result (marker_of (topic_skeletons topic.old.front) txn ≡ None →
        topic.new ≡ with_entries topic.old (marker_entry txn decision ∷ []) 0) }
    ensures stands { OnOk result (is_some
        (marker_of (topic_skeletons topic.new.front) txn) ≡ true) }
    ensures err { OnErr result ((marker_of (topic_skeletons topic.old.front) txn ≡ None)
        × (topic.new ≡ with_failed_entries topic.old (marker_entry txn decision ∷ []))) }
    ensures tied { IsFrontOf topic.old → IsFrontOf topic.new }
    ensures backed { Stored (D.image disk.new) topic.new.content }
    ensures images { After D.Disk (Appends IsFile StandsIn topic.old.content
        (topic_batch (marker_entry txn decision ∷ []))) disk.old disk.new }
    ensures others { Elsewhere topic.old.content.key (D.seen disk.old) (D.seen disk.new) }
    ensures cause { FaultsIn D.Disk topic.old.content.key.part disk.old disk.new (IsErr result) }
{
    if topic.marker(txn).is_some() {
        return Ok(());
    }
    topic.finish(disk, txn, decision)
}

/// It is the status of a transaction that is closed.
fn is_closed(status: Option<Status>) -> bool
    ensures { result ≡ is_closed status }
{
    matches!(status, Some(Status::Committed | Status::Aborted))
}

/// The status of a transaction that was closed by this decision.
fn closed(decision: Decision) -> Status
    ensures { result ≡ closed decision }
{
    match decision {
        Decision::Commit => Status::Committed,
        Decision::Abort => Status::Aborted,
    }
}

/// The status of a transaction that is decided so and not closed.
fn deciding(decision: Decision) -> Status
    ensures { result ≡ deciding decision }
{
    match decision {
        Decision::Commit => Status::Committing,
        Decision::Abort => Status::Aborting,
    }
}

/// An end that a fault of this part stopped, with the part's name in room that was taken before.
fn stuck(decision: Decision, part: &str, room: TextRoom) -> Outcome
    requires { length part.now ≤ room }
    ensures { result ≡ record {
      status = deciding decision;
      stuck = Some
          (record { part = part.now; why = why.Fault });
    } }
{
    Outcome {
        status: deciding(decision),
        stuck: Some(Stuck {
            part: room.fill(part),
            why: Why::Fault,
        }),
    }
}
