//! Reading visible messages of a topic.
ghost use Rattle.std.specs.Prelude.{◌≡◌, ◌≤◌, ℕ, List, true, IfSome};
ghost use Rattle.txn_base.specs.Moves.{RoseIn};
ghost use Rattle.txn_base.specs.declared.request.Request.TheVariants as request;
ghost use Rattle.txn_base.specs.declared.reply.Reply.TheVariants as reply;
ghost use Rattle.txn_base.specs.declared.reply.Refusal.TheVariants as no;
ghost use Rattle.txn_engine.specs.Causes.{TellsEarly};
ghost use Rattle.txn_engine.specs.Damage.{IsDamageIn};
ghost use Rattle.txn_engine.specs.Faults.{fault_name, RoseByName};
ghost use Rattle.txn_engine.specs.Table.{world_of};
ghost use Rattle.txn_engine.specs.Told.{IsTellable, EngineGoesOn, MayTellOn};
ghost use Rattle.txn_engine.specs.View.{IsTied, IsBacked, IsWholeTopic};
ghost use Rattle.txn_model.specs.Replies.{is_fault};

use crate::engine::Engine;
use crate::names::{part_of, unknown_part};
use std::sync::ledger;
use txn_base::{Disk, Refusal, Reply, Steps, Text, TextRoom};
use txn_buffer::TopicError;

impl Engine {
    /// Reads visible messages. A failed read changes nothing.
    pub(crate) fn read<D: Disk, L: ledger::Ledger>(
        &self,
        disk: &mut D,
        topic: &Text,
        first: u64,
        max: u64,
        steps: &mut Steps<L>,
    ) -> Reply
        requires whole { IsWholeTopic self.now topic.now }
        requires some { 1 ≤ max }
        requires backed { IsBacked (D.image disk.old) self.now }
        ensures told { D.tells → IsTied self.now → (now : ℕ) →
            MayTellOn D.Disk disk.old disk.new self.now
            (request.Read topic.now first max) now result self.now }
        ensures tellable { IsTellable result }
        ensures early { TellsEarly self.now.limits (world_of self.now)
            (request.Read topic.now first max) result }
        ensures damaged { (part : List ℕ) (place : ℕ) → result ≡ reply.No (no.Damaged part place) →
            IsDamageIn D.tells self.now (request.Read topic.now first max) part place }
        ensures named { IfSome (fault_name result)
            (RoseByName self.now.names (RoseIn D.Disk disk.old disk.new)) }
        ensures goes { EngineGoesOn D.Disk
            (is_fault result ≡ true) self.now self.now disk.old disk.new }
    {
        let Some(number) = part_of(&self.names, topic) else {
            return unknown_part(topic);
        };
        let Ok(room) = TextRoom::new(self.alloc, topic.len()) else {
            return Reply::No(Refusal::NoMemory);
        };
        let part = &self.topics[number - 1];
        let limit = part.limit();
        match part.read(disk, first, max, steps) {
            Ok(messages) => Reply::Read { limit, messages },
            Err(TopicError::Damaged { place }) => Reply::No(Refusal::Damaged {
                part: room.fill(topic.as_str()),
                place,
            }),
            Err(TopicError::Fault) => Reply::No(Refusal::Fault {
                part: room.fill(topic.as_str()),
            }),
            Err(TopicError::NoMemory) => Reply::No(Refusal::NoMemory),
            Err(TopicError::Full { .. }) => unreachable!(),
        }
    }
}
