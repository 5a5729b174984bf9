//! The topics, opened and rebuilt one after another.
ghost use Rattle.std.specs.Prelude.{◌≡◌, ◌≤◌, ◌<◌, ℕ, Err, length, All, IfOk, IsTrue};
ghost use Rattle.txn_base.specs.Disk.{Elsewhere, Changes};
ghost use Rattle.txn_base.specs.Limits.{InRange};
ghost use Rattle.txn_base.specs.Moves.{After, FaultsIn};
ghost use Rattle.txn_base.specs.declared.file_id.FileId.{FileId};
ghost use Rattle.txn_buffer.specs.View.{topic_total};
ghost use Rattle.txn_ledger.specs.Found.{KeepsDamaged, KeepsFile};
ghost use Rattle.txn_ledger.specs.Ledger.{Stored};
ghost use Rattle.txn_model.specs.Sound.{ledger_file};
ghost use Rattle.txn_model.specs.Topic.{TopicLawful};
ghost use Rattle.txn_engine.specs.Files.{OnlyLedgers};
ghost use Rattle.txn_engine.specs.Kept.{IsTopic, AreTopics};
ghost use Rattle.txn_engine.specs.Opening.{IsTopicOf, IsDamagedTopic, IsFirstDamagedTopic, KeepsFiles, KeepsAllDamaged};
ghost use Rattle.txn_engine.specs.Told.{FaultsWithin};

use crate::opening::EngineError;
use crate::opening::unopened::{unmended, unopened};
use std::alloc::Global;
use std::sync::ledger;
use txn_base::{Disk, FileId, Limits, PartState, Steps};
use txn_buffer::Topic;
use txn_ledger::Ledger;

/// Opens the ledgers of so many topics, which are numbered from 1, and replays all of each before the next is opened.
pub fn open_topics<D: Disk, L: ledger::Ledger>(
    alloc: Global,
    named: u32,
    limits: &Limits,
    disk: &mut D,
    steps: &mut Steps<L>,
) -> Result<Vec<Topic<Ledger>>, EngineError>
    requires named { named ≤ 62 }
    requires limits { InRange limits.now }
    ensures opened { IfOk result (λ topics. AreTopics limits.now 1 topics.items
        × (length topics.items ≡ named) × All (λ t. IsTrue t.whole) topics.items) }
    ensures backed { IfOk result (λ topics. All
        (λ t. Stored (D.image disk.new) t.content) topics.items) }
    ensures told { D.tells →
        IfOk result (λ topics. All (λ t. IsTopicOf t
        (D.seen disk.old t.content.key)) topics.items) }
    ensures damaged { (file : FileId) (entry : ℕ) → result ≡ Err (EngineError.Damaged file entry) →
        IsFirstDamagedTopic named D.tells (D.seen disk.old) file entry }
    ensures uncut { D.tells → KeepsAllDamaged (D.seen disk.old) (D.seen disk.new) }
    ensures images { After D.Disk KeepsFiles disk.old disk.new }
    ensures elsewhere { After D.Disk (OnlyLedgers named) disk.old disk.new }
    ensures others { OnlyLedgers named (D.seen disk.old) (D.seen disk.new) }
    ensures cause { FaultsWithin D.Disk named disk.old disk.new (result ≡ Err EngineError.Fault) }
{
    let Ok(mut topics) = Vec::with_capacity(alloc, named as usize) else {
        return Err(EngineError::NoMemory);
    };
    for index in 0..named {
        let topic = open_topic(alloc, index + 1, limits, disk, steps)?;
        topics.push_reserved(topic);
    }
    Ok(topics)
}

/// Opens the ledger of a topic, and replays all of it.
fn open_topic<D: Disk, L: ledger::Ledger>(
    alloc: Global,
    part: u32,
    limits: &Limits,
    disk: &mut D,
    steps: &mut Steps<L>,
) -> Result<Topic<Ledger>, EngineError>
    requires limits { InRange limits.now }
    ensures opened { IfOk result (λ t. IsTopic limits.now part t × IsTrue t.whole) }
    ensures backed { IfOk result (λ t. Stored (D.image disk.new) t.content) }
    ensures told { D.tells → IfOk result (λ t. IsTopicOf t (D.seen disk.old (ledger_file part))) }
    ensures damaged { (file : FileId) (entry : ℕ) → result ≡ Err (EngineError.Damaged file entry) →
        (file ≡ ledger_file part) × (D.tells →
        IsDamagedTopic (D.seen disk.old (ledger_file part)) entry) }
    ensures uncut { D.tells →
        KeepsDamaged (D.seen disk.old (ledger_file part)) (D.seen disk.new (ledger_file part)) }
    ensures images { After D.Disk (Changes (ledger_file part) KeepsFile) disk.old disk.new }
    ensures others { Elsewhere (ledger_file part) (D.seen disk.old) (D.seen disk.new) }
    ensures cause { FaultsIn D.Disk part disk.old disk.new (result ≡ Err EngineError.Fault) }
{
    let file = FileId { part, row: 2 };
    let log = match Ledger::open_file(alloc, disk, file) {
        Ok(log) => log,
        Err(error) => return Err(unopened(file, error)),
    };
    let Ok(mut topic) = Topic::over(alloc, log, part, limits) else {
        return Err(EngineError::NoMemory);
    };
    while !is_whole(&topic) {
        if let Err(error) = topic.mend_step(disk, steps) {
            return Err(unmended(file, error));
        }
    }
    Ok(topic)
}

/// All of its ledger is replayed.
fn is_whole(topic: &Topic<Ledger>) -> bool
    ensures whole { result ≡ topic.now.whole }
    ensures lawful { TopicLawful topic.now.front }
    ensures within { length topic.now.front ≤ topic_total topic.now }
    ensures all { IsTrue topic.now.whole → length topic.now.front ≡ topic_total topic.now }
{
    matches!(topic.state(), PartState::Whole)
}
