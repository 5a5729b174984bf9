//! Publishing messages to a topic.
ghost use Rattle.std.specs.Prelude.{◌≡◌, ◌⊎◌, ◌≤◌, ◌<◌, ◌+◌, ◌↔◌, nat_lt, ℕ, IsTrue, All, IsUtf8, Option, Err, length, true, false, IfOk, IfSome, OnOk, MatchOption};
ghost use Rattle.std.specs.Int.{bit_at};
ghost use Rattle.std.specs.List.{list_any};
ghost use Rattle.txn_base.specs.Bytes.{contents_of};
ghost use Rattle.txn_base.specs.Content.{Appends};
ghost use Rattle.txn_base.specs.Disk.{Elsewhere};
ghost use Rattle.txn_base.specs.Moves.{FaultsIn, RoseIn, After};
ghost use Rattle.txn_base.specs.declared.request.Request.TheVariants as request;
ghost use Rattle.txn_buffer.specs.Adding.{AreBodies, messages_of, IsUnmarked};
ghost use Rattle.txn_buffer.specs.View.{IsFrontOf, topic_batch, topic_total, with_entries, with_failed_entries};
ghost use Rattle.txn_ledger.specs.Ledger.{StandsIn, IsFile, Stored};
ghost use Rattle.std.specs.Prelude.{◌-◌, slice_index_or};
ghost use Rattle.txn_buffer.specs.View.{TopicView};
ghost use Rattle.txn_engine.specs.Causes.{TellsEarly};
ghost use Rattle.txn_engine.specs.Damage.{is_damage};
ghost use Rattle.txn_engine.specs.Faults.{fault_name, RoseByName};
ghost use Rattle.txn_engine.specs.Publishing.{foreign, why_not_in, why_refusal, publish_reply};
ghost use Rattle.txn_model.specs.Skeletons.{coord_skeletons, topic_skeletons};
ghost use Rattle.txn_engine.specs.Table.{world_of};
ghost use Rattle.txn_engine.specs.Told.{IsTellable, EngineGoesOn, MayTellOn};
ghost use Rattle.txn_engine.specs.View.{IsTied, IsBacked, UsesLog, IsWholeTopic};
ghost use Rattle.txn_model.specs.EarlyRows.{are_too_big};
ghost use Rattle.txn_model.specs.Replies.{is_fault};

use crate::engine::Engine;
use crate::names::{part_of, unknown_part};
use std::alloc::{AllocError, Global};
use txn_base::{Bytes, Disk, Limits, Refusal, Reply, Status, Text, TextRoom, Texts, TxnId, What};
use txn_buffer::{Topic, TopicError};
use txn_ledger::Ledger;

impl Engine {
    /// Publishes messages as one batch, in a transaction or in none. All memory of the line is taken before its first write.
    pub(crate) fn publish<D: Disk>(
        &mut self,
        disk: &mut D,
        topic: &Text,
        txn: Option<TxnId>,
        bodies: &Texts,
    ) -> Reply
        requires log { UsesLog self.old txn }
        requires whole { IsWholeTopic self.old topic.now }
        requires some { 1 ≤ length bodies.now }
        requires backed { IsBacked (D.image disk.old) self.old }
        ensures told { D.tells → IsTied self.old → (now : ℕ) →
            MayTellOn D.Disk disk.old disk.new self.old
            (request.Publish topic.now txn bodies.now) now result self.new }
        ensures tellable { IsTellable result }
        ensures early { TellsEarly self.old.limits (world_of self.old)
            (request.Publish topic.now txn bodies.now) result }
        ensures undamaged { is_damage result ≡ false }
        ensures named { IfSome (fault_name result)
            (RoseByName self.old.names (RoseIn D.Disk disk.old disk.new)) }
        ensures limits { self.new.limits ≡ self.old.limits }
        ensures goes { EngineGoesOn D.Disk
            (is_fault result ≡ true) self.old self.new disk.old disk.new }
    {
        let Some(number) = part_of(&self.names, topic) else {
            return unknown_part(topic);
        };
        if let Some(number) = foreign(txn) {
            return Reply::No(Refusal::UnknownCoordinator { number });
        }
        if are_too_big(&self.limits, bodies.as_slice()) {
            return Reply::No(Refusal::TooBig);
        }
        let Ok(room) = TextRoom::new(self.alloc, topic.len()) else {
            return Reply::No(Refusal::NoMemory);
        };
        let Ok(messages) = bytes_of(self.alloc, bodies.as_slice()) else {
            return Reply::No(Refusal::NoMemory);
        };
        if let Some(why) = self.why_not(txn, number) {
            return Reply::No(why_refusal(why, topic, room));
        }
        let published = add_messages(&mut self.topics[number - 1], disk, txn, &messages);
        publish_reply(published, bodies.len() as u64, topic, room)
    }
}

/// What is told of messages that were published or not, with the name of the topic in room that was taken before.
fn publish_reply(
    published: Result<u64, TopicError>,
    count: u64,
    topic: &Text,
    room: TextRoom,
) -> Reply
    requires { length topic.now ≤ room }
    ensures { result ≡ publish_reply topic.now count published }
{
    match published {
        Ok(place) => Reply::Publish { place, count },
        Err(TopicError::Full { count }) => Reply::No(Refusal::Full {
            what: What::Log,
            count,
        }),
        Err(TopicError::Damaged { place }) => Reply::No(Refusal::Damaged {
            part: room.fill(topic.as_str()),
            place,
        }),
        Err(TopicError::Fault) => Reply::No(Refusal::Fault {
            part: room.fill(topic.as_str()),
        }),
        Err(TopicError::NoMemory) => Reply::No(Refusal::NoMemory),
    }
}

/// What is told where a publish is refused by its transaction.
fn why_refusal(why: WhyNot, topic: &Text, room: TextRoom) -> Refusal
    requires { length topic.now ≤ room }
    ensures { result ≡ why_refusal topic.now why }
{
    match why {
        WhyNot::NotFound => Refusal::NotFound,
        WhyNot::NotOpen { status } => Refusal::NotOpen { status },
        WhyNot::NotRegistered => Refusal::NotRegistered {
            part: room.fill(topic.as_str()),
        },
    }
}

/// Why a publish in a transaction is refused.
#[derive(Clone, Copy, PartialEq, Eq)]
pub enum WhyNot {
    NotFound,
    NotOpen { status: Status },
    NotRegistered,
}

impl Engine {
    /// Why a publish to the part of this number is refused by its transaction, where it has one.
    fn why_not(&self, txn: Option<TxnId>, part: usize) -> Option<WhyNot>
        requires least { 1 ≤ part }
        requires most { part ≤ length (self.now).names }
        requires few { part < 64 }
        ensures { (t : TopicView) →
            result ≡ why_not_in (coord_skeletons self.now.coord.front)
            (topic_skeletons (slice_index_or self.now.topics (part - 1) t).front) part txn }
    {
        let txn = txn?;
        let topic = &self.topics[part - 1];
        let ended = topic.marker(txn).is_some();
        match self.coordinator.status(txn) {
            None => Some(WhyNot::NotFound),
            Some(Status::Open) if !ended => {
                if has_part(self.coordinator.parts(txn), part) {
                    return None;
                }
                Some(WhyNot::NotRegistered)
            }
            Some(status) => Some(WhyNot::NotOpen { status }),
        }
    }
}

/// The number of the coordinator of a transaction, where that isn't 0.
fn foreign(txn: Option<TxnId>) -> Option<u64>
    ensures { result ≡ foreign txn }
{
    match txn {
        Some(txn) if txn.most != 0 => Some(txn.most),
        _ => None,
    }
}

/// Adds messages of a transaction or of none to a topic.
fn add_messages<D: Disk>(
    topic: &mut Topic<Ledger>,
    disk: &mut D,
    txn: Option<TxnId>,
    bodies: &[Bytes],
) -> Result<u64, TopicError>
    requires whole { IsTrue topic.old.whole }
    requires unmarked { IsUnmarked topic.old.front txn }
    requires bodies { AreBodies topic.old.limits (contents_of bodies.now) }
    requires backed { Stored (D.image disk.old) topic.old.content }
    ensures first { IfOk result (λ place. place ≡ topic_total topic.old) }
    ensures ok { OnOk result (topic.new ≡ with_entries topic.old
        (messages_of txn (contents_of bodies.now)) topic.old.reserved) }
    ensures full { (result ≡ Err (TopicError.Full (topic_total topic.old))) ↔
        (topic.old.limits.log < topic_total topic.old + length bodies.now) }
    ensures count { (count : ℕ) → result ≡ Err (TopicError.Full count) →
        count ≡ topic_total topic.old }
    ensures not_damaged { (place : ℕ) → result ≡ Err (TopicError.Damaged place) → ⊥ }
    ensures fault { result ≡ Err TopicError.Fault →
        topic.new ≡ with_failed_entries topic.old (messages_of txn (contents_of bodies.now)) }
    ensures refused { (count : ℕ) → result ≡ Err (TopicError.Full count) →
        (topic.new ≡ topic.old) × (disk.new ≡ disk.old) }
    ensures no_memory { result ≡ Err TopicError.NoMemory →
        (topic.new ≡ topic.old) × (disk.new ≡ disk.old) }
    ensures tied { IsFrontOf topic.old → IsFrontOf topic.new }
    ensures backed { Stored (D.image disk.new) topic.new.content }
    ensures images { After D.Disk (Appends IsFile StandsIn topic.old.content
        (topic_batch (messages_of txn (contents_of bodies.now)))) disk.old disk.new }
    ensures others { Elsewhere topic.old.content.key (D.seen disk.old) (D.seen disk.new) }
    ensures cause { FaultsIn D.Disk topic.old.content.key.part disk.old disk.new
        (result ≡ Err TopicError.Fault) }
{
    match txn {
        None => topic.publish(disk, bodies),
        Some(txn) => topic.publish_in(disk, txn, bodies),
    }
}

/// Whether there are too many messages, or one is too long.
fn are_too_big(limits: &Limits, bodies: &[Text]) -> bool
    ensures { result ≡ are_too_big limits.now bodies.now }
{
    if bodies.len() as u64 > limits.batch {
        return true;
    }
    any_too_long(limits.message, bodies)
}

fn any_too_long(most: u64, bodies: &[Text]) -> bool
    ensures { result ≡ list_any (λ body. nat_lt most (length body)) bodies.now }
{
    bodies.iter().any(|body| body.len() as u64 > most)
}

/// Copies of the texts, as bytes.
fn bytes_of(alloc: Global, texts: &[Text]) -> Result<Vec<Bytes>, AllocError>
    ensures copies { IfOk result (λ all. contents_of all.items ≡ texts.now) }
    ensures texts { IfOk result (λ all. All IsUtf8 texts.now) }
{
    let mut all = Vec::new(alloc);
    for text in texts {
        let body = text.as_str();
        all.push(Bytes::from_slice(alloc, body.as_bytes())?)?;
    }
    Ok(all)
}

/// Whether the part of this number, from 1 to 62, is one of these parts.
pub(crate) fn has_part(parts: u64, part: usize) -> bool
    requires { part < 64 }
    ensures { IsTrue result ↔ (bit_at parts part ≡ 1) }
{
    (parts >> part) & 1 == 1
}
