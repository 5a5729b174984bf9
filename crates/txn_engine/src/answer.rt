//! The answer to one request.
ghost use Rattle.std.specs.Prelude.{◌≡◌, ◌⊎◌, ℕ, List, true, false, length, Some, IfSome};
ghost use Rattle.txn_base.specs.Disk.{Files};
ghost use Rattle.txn_base.specs.Moves.{RoseIn};
ghost use Rattle.txn_base.specs.declared.reply.Reply.TheVariants as reply;
ghost use Rattle.txn_base.specs.declared.reply.Refusal.TheVariants as no;
ghost use Rattle.txn_base.specs.declared.reply.Refusal.{Refusal};
ghost use Rattle.txn_engine.specs.Causes.{first_refusal, IsByRow, TellsEarly};
ghost use Rattle.txn_engine.specs.Damage.{IsDamageIn};
ghost use Rattle.txn_engine.specs.Faults.{fault_name, RoseByName};
ghost use Rattle.txn_engine.specs.Kept.{IsEngine};
ghost use Rattle.txn_engine.specs.Table.{table_of, world_of};
ghost use Rattle.txn_engine.specs.Told.{IsAsked, IsTellable, EngineGoesOn};
ghost use Rattle.txn_engine.specs.View.{IsWhole, IsTied, IsBacked};
ghost use Rattle.txn_model.specs.declared.world.World.{World};
ghost use Rattle.txn_model.specs.Answers.{AnswersAt, moved};
ghost use Rattle.txn_model.specs.Replies.{is_fault};
ghost use Rattle.txn_model.specs.Sound.{StandsFor, StandsForKept};
ghost use Rattle.txn_wire.specs.Short.{is_long};

use crate::engine::Engine;
use std::sync::ledger;
use txn_base::{Decision, Disk, Refusal, Reply, Request, Steps};

impl Engine {
    /// The reply to one request at this moment, which is read of a `new` alone. Every part is rebuilt at the call; where
    /// afterwards one isn't, a fault was told, and it stays so.
    pub fn answer<D: Disk, L: ledger::Ledger>(
        &mut self,
        disk: &mut D,
        now: u64,
        request: &Request,
        steps: &mut Steps<L>,
    ) -> Reply
        requires whole { IsWhole self.old }
        requires asked { IsAsked request.now }
        requires backed { IsBacked (D.image disk.old) self.old }

        // The reply is one of the table's, and leaves its state.
        ensures answers { D.tells → IsTied self.old →
            AnswersAt self.old.limits (RoseIn D.Disk disk.old disk.new)
            (table_of self.old) request.now now result (table_of self.new) }
        ensures instead { D.tells → IsTied self.old → is_long result ≡ true →
            AnswersAt self.old.limits (RoseIn D.Disk disk.old disk.new)
            (table_of self.old) request.now now (reply.No no.NoMemory) (table_of self.new) }

        // A refusal by a row is told where that row is the first that comes, and nowhere else. Want of memory may be told in its
        // place.
        ensures rows { D.tells → IsTied self.old → (row : Refusal) → IsByRow row →
            result ≡ reply.No row →
            first_refusal self.old.limits (moved request.now now
            (table_of self.old)) request.now ≡ Some row }
        ensures causes { D.tells → IsTied self.old → (row : Refusal) →
            first_refusal self.old.limits (moved request.now now
            (table_of self.old)) request.now ≡ Some row →
            (result ≡ reply.No row) ⊎ (result ≡ reply.No no.NoMemory) }

        // So it is on any disk where that row looks at the request and the names alone.
        ensures early { TellsEarly self.old.limits (world_of self.old) request.now result }

        // A refusal but for a fault adds no entry: at most the moment of the line counts as told.
        ensures unchanged { D.tells → IsTied self.old → (row : Refusal) → result ≡ reply.No row →
            is_fault result ≡ false →
            table_of self.new ≡ moved request.now now (table_of self.old) }

        // Damage is told of the topic that the request reads, of a record that the read comes by.
        ensures damaged { (part : List ℕ) (place : ℕ) → result ≡ reply.No (no.Damaged part place) →
            IsDamageIn D.tells self.old request.now part place }

        // A fault names the coordinator or the part whose count rose.
        ensures named { IfSome (fault_name result)
            (RoseByName self.old.names (RoseIn D.Disk disk.old disk.new)) }

        ensures tellable { IsTellable result }
        ensures limits { self.new.limits ≡ self.old.limits }
        ensures kept { IsEngine self.new }

        // What was rebuilt stays so, or a fault is told. Whatever world each image at the call extends soundly, each image at any
        // moment since does; no file but the ledgers of these parts changes, as it reads and in each image; and the counts rose
        // where a fault is told.
        ensures goes { EngineGoesOn D.Disk
            (is_fault result ≡ true) self.old self.new disk.old disk.new }

        // Whatever a stop leaves afterwards is what the table keeps of one: each batch in flight whole or not at all.
        ensures leaves { (c : Files) (w : World) → D.image disk.new c →
            StandsFor self.new.names c w →
            StandsForKept self.new.names c (table_of self.new).world (table_of self.new).flights }
    {
        let reply = self.reply_to(disk, now, request, steps);
        self.kept();
        reply
    }

    /// The same, without what always holds of an engine.
    fn reply_to<D: Disk, L: ledger::Ledger>(
        &mut self,
        disk: &mut D,
        now: u64,
        request: &Request,
        steps: &mut Steps<L>,
    ) -> Reply
        requires whole { IsWhole self.old }
        requires asked { IsAsked request.now }
        requires backed { IsBacked (D.image disk.old) self.old }

        ensures answers { D.tells → IsTied self.old →
            AnswersAt self.old.limits (RoseIn D.Disk disk.old disk.new)
            (table_of self.old) request.now now result (table_of self.new) }
        ensures instead { D.tells → IsTied self.old → is_long result ≡ true →
            AnswersAt self.old.limits (RoseIn D.Disk disk.old disk.new)
            (table_of self.old) request.now now (reply.No no.NoMemory) (table_of self.new) }
        ensures damaged { (part : List ℕ) (place : ℕ) → result ≡ reply.No (no.Damaged part place) →
            IsDamageIn D.tells self.old request.now part place }
        ensures named { IfSome (fault_name result)
            (RoseByName self.old.names (RoseIn D.Disk disk.old disk.new)) }
        ensures early { TellsEarly self.old.limits (world_of self.old) request.now result }
        ensures tellable { IsTellable result }
        ensures limits { self.new.limits ≡ self.old.limits }
        ensures goes { EngineGoesOn D.Disk
            (is_fault result ≡ true) self.old self.new disk.old disk.new }
    {
        self.kept();
        match request {
            Request::New { timeout } => self.begin(disk, now, *timeout),
            Request::Add { txn, part } => self.add(disk, *txn, part),
            Request::Publish { topic, txn, bodies } => self.publish(disk, topic, *txn, bodies),
            Request::Read { topic, first, max } => self.read(disk, topic, *first, *max, steps),
            Request::Commit { txn } => self.end(disk, *txn, Decision::Commit),
            Request::Abort { txn } => self.end(disk, *txn, Decision::Abort),
            Request::Status { txn } => self.status(*txn),
            _ => Reply::No(Refusal::BadLine),
        }
    }
}
