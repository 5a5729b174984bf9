//! Beginning a transaction, adding a part to one, and its status.
ghost use Rattle.std.specs.Prelude.{◌≡◌, ◌≤◌, ℕ, true, false, None, IfSome, IsTrue};
ghost use Rattle.txn_base.specs.Moves.{RoseIn};
ghost use Rattle.txn_base.specs.declared.request.Request.TheVariants as request;
ghost use Rattle.txn_engine.specs.Causes.{TellsEarly};
ghost use Rattle.txn_engine.specs.Damage.{is_damage};
ghost use Rattle.txn_engine.specs.Faults.{fault_name, RoseByName};
ghost use Rattle.txn_engine.specs.Refusals.{begun_reply, added_reply};
ghost use Rattle.txn_engine.specs.Table.{world_of};
ghost use Rattle.txn_engine.specs.Told.{MayTell, IsTellable, EngineGoesOn, MayTellOn};
ghost use Rattle.txn_engine.specs.View.{IsTied, IsBacked};
ghost use Rattle.txn_model.specs.EarlyRows.{is_bad_timeout};
ghost use Rattle.txn_model.specs.Replies.{is_fault};

use crate::engine::{COORDINATOR, Engine};
use crate::names::{part_of, unknown_part};
use crate::refusals::coord_refusal;
use txn_base::{Disk, Refusal, Reply, Text, TextRoom, TxnId};
use txn_coordinator::CoordError;

/// Moments past this one count as it.
const LAST: u64 = 1 << 62;

impl Engine {
    /// Begins a transaction at this moment, which counts from then on as told, also where it is refused.
    pub(crate) fn begin<D: Disk>(&mut self, disk: &mut D, now: u64, timeout: u64) -> Reply
        requires whole { IsTrue self.old.coord.whole }
        requires backed { IsBacked (D.image disk.old) self.old }
        ensures told { D.tells → IsTied self.old →
            MayTellOn D.Disk disk.old disk.new self.old (request.New timeout) now result self.new }
        ensures tellable { IsTellable result }
        ensures early { TellsEarly self.old.limits (world_of self.old)
            (request.New timeout) result }
        ensures undamaged { is_damage result ≡ false }
        ensures named { IfSome (fault_name result)
            (RoseByName self.old.names (RoseIn D.Disk disk.old disk.new)) }
        ensures limits { self.new.limits ≡ self.old.limits }
        ensures goes { EngineGoesOn D.Disk
            (is_fault result ≡ true) self.old self.new disk.old disk.new }
    {
        self.latest = self.latest.max(now.min(LAST));
        if is_bad_timeout(timeout) {
            return Reply::No(Refusal::BadTimeout);
        }
        let Ok(room) = TextRoom::new(self.alloc, COORDINATOR.len()) else {
            return Reply::No(Refusal::NoMemory);
        };
        // The next number is a count, so it fits.
        let _count = self.coordinator.count();
        let begun = self.coordinator.begin(disk, self.latest, timeout);
        begun_reply(begun, room)
    }

    /// Adds a part to an open transaction.
    pub(crate) fn add<D: Disk>(&mut self, disk: &mut D, txn: TxnId, part: &Text) -> Reply
        requires whole { IsTrue self.old.coord.whole }
        requires backed { IsBacked (D.image disk.old) self.old }
        ensures told { D.tells → IsTied self.old → (now : ℕ) →
            MayTellOn D.Disk disk.old disk.new self.old
            (request.Add txn part.now) now result self.new }
        ensures tellable { IsTellable result }
        ensures early { TellsEarly self.old.limits (world_of self.old)
            (request.Add txn part.now) result }
        ensures undamaged { is_damage result ≡ false }
        ensures named { IfSome (fault_name result)
            (RoseByName self.old.names (RoseIn D.Disk disk.old disk.new)) }
        ensures limits { self.new.limits ≡ self.old.limits }
        ensures goes { EngineGoesOn D.Disk
            (is_fault result ≡ true) self.old self.new disk.old disk.new }
    {
        let Some(number) = part_of(&self.names, part) else {
            return unknown_part(part);
        };
        if txn.most != 0 {
            return Reply::No(Refusal::UnknownCoordinator { number: txn.most });
        }
        let Ok(room) = TextRoom::new(self.alloc, COORDINATOR.len()) else {
            return Reply::No(Refusal::NoMemory);
        };
        let added = self.coordinator.add(disk, txn, number as u32);
        added_reply(added, room)
    }

    /// How far a transaction is.
    pub(crate) fn status(&self, txn: TxnId) -> Reply
        requires whole { IsTrue self.now.coord.whole }
        ensures told { (before now : ℕ) (parts_before parts_now : ℕ → ℕ) → IsTied self.now →
            (moment : ℕ) → MayTell before now parts_before parts_now self.now
            (request.Status txn) moment result self.now }
        ensures tellable { IsTellable result }
        ensures early { TellsEarly self.now.limits (world_of self.now) (request.Status txn) result }
        ensures undamaged { is_damage result ≡ false }
        ensures unnamed { fault_name result ≡ None }
        ensures no_fault { is_fault result ≡ false }
    {
        let found = self.coordinator.status(txn);
        if txn.most != 0 {
            return Reply::No(Refusal::UnknownCoordinator { number: txn.most });
        }
        match found {
            Some(status) => Reply::Status { status },
            None => Reply::No(Refusal::NotFound),
        }
    }
}

/// What is told of a transaction that was begun or not.
fn begun_reply(begun: Result<TxnId, CoordError>, room: TextRoom) -> Reply
    requires { 12 ≤ room }
    ensures { result ≡ begun_reply begun }
{
    match begun {
        Ok(txn) => Reply::New { txn },
        Err(error) => Reply::No(coord_refusal(error, room)),
    }
}

/// What is told of a part that was added or not.
fn added_reply(added: Result<(), CoordError>, room: TextRoom) -> Reply
    requires { 12 ≤ room }
    ensures { result ≡ added_reply added }
{
    match added {
        Ok(()) => Reply::Add,
        Err(error) => Reply::No(coord_refusal(error, room)),
    }
}

/// A timeout outside 1 ms to a day.
fn is_bad_timeout(timeout: u64) -> bool
    ensures { result ≡ is_bad_timeout timeout }
{
    timeout < 1 || 86_400_000 < timeout
}
