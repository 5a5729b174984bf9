//! The text of a reply, as the JSON library writes it.
ghost use Rattle.std.specs.Prelude.{◌≡◌, IfOk, Option, Some, None, codes};
ghost use Rattle.serde_json.specs.Data.{array, object, no_members};
ghost use Rattle.serde_json.specs.View.{view};
ghost use Rattle.txn_wire.specs.Replies.{done, driven_members, id_data, messages_data, message_data, num, reply_data, text_of, why_word, word};

use crate::refusals::refusal_value;
use crate::words::{decision_word, status_word, why_word};
use serde_json::{Value, json};
use std::alloc::{AllocError, Global};
use txn_base::{Bytes, Decision, Driven, Message, Outcome, Reply, Stuck, TxnId};

/// The text of a reply, with its newline.
pub fn reply_text(alloc: Global, reply: &Reply) -> Result<Bytes, AllocError>
    ensures { IfOk result (λ b. b.bytes ≡ text_of reply.now) }
{
    let value = reply_value(alloc, reply)?;
    let mut text = value.to_vec(alloc)?;
    text.push(b'\n')?;
    Ok(Bytes::from_vec(text))
}

// A table of the replies.
fn reply_value(alloc: Global, reply: &Reply) -> Result<Value, AllocError>
    ensures { IfOk result (λ v. view v ≡ reply_data reply.now) }
{
    match reply {
        Reply::New { txn } => new_value(alloc, *txn),
        Reply::Add => done_value(alloc, "add"),
        Reply::Publish { place, count } => publish_value(alloc, *place, *count),
        Reply::Ack => done_value(alloc, "ack"),
        Reply::AckUpTo => done_value(alloc, "ack_upto"),
        Reply::Ended { decision, outcome } => ended_value(alloc, *decision, outcome),
        Reply::Status { status } => {
            json!(in alloc; {"ok": "status", "status": status_word(*status)})
        }
        Reply::Read { limit, messages } => read_value(alloc, *limit, messages.as_slice()),
        Reply::Receive { messages } => receive_value(alloc, messages.as_slice()),
        Reply::Redeliver => done_value(alloc, "redeliver"),
        Reply::Tick { now, left, drove } => tick_value(alloc, *now, *left, drove),
        Reply::Stop => done_value(alloc, "stop"),
        Reply::No(refusal) => refusal_value(alloc, refusal),
    }
}

fn done_value(alloc: Global, name: &str) -> Result<Value, AllocError>
    ensures { IfOk result (λ v. view v ≡ done name.now) }
{
    json!(in alloc; {"ok": name})
}

pub(crate) fn id_value(alloc: Global, txn: TxnId) -> Result<Value, AllocError>
    ensures { IfOk result (λ v. view v ≡ id_data txn) }
{
    json!(in alloc; [txn.most, txn.least])
}

fn new_value(alloc: Global, txn: TxnId) -> Result<Value, AllocError>
    ensures { IfOk result (λ v. view v ≡ reply_data (Reply.New txn)) }
{
    let txn = id_value(alloc, txn)?;
    json!(in alloc; {"ok": "new", "txn": txn})
}

fn publish_value(alloc: Global, place: u64, count: u64) -> Result<Value, AllocError>
    ensures { IfOk result (λ v. view v ≡ reply_data (Reply.Publish place count)) }
{
    json!(in alloc; {"at": place, "count": count, "ok": "publish"})
}

fn ended_value(alloc: Global, decision: Decision, outcome: &Outcome) -> Result<Value, AllocError>
    ensures { IfOk result (λ v. view v ≡ reply_data (Reply.Ended decision outcome.now)) }
{
    let ok = decision_word(decision);
    let status = status_word(outcome.status);
    match &outcome.stuck {
        None => json!(in alloc; {"ok": ok, "status": status}),
        Some(stuck) => stuck_value(alloc, ok, status, stuck),
    }
}

fn stuck_value(alloc: Global, ok: &str, status: &str, stuck: &Stuck) -> Result<Value, AllocError>
    ensures { IfOk result (λ v. view v ≡ object (word (codes "ok") ok.now
        (word (codes "part") stuck.now.part (word (codes "status") status.now
        (word (codes "why") (why_word stuck.now.why) no_members))))) }
{
    let part = stuck.part.as_str();
    let why = why_word(stuck.why);
    json!(in alloc; {"ok": ok, "part": part, "status": status, "why": why})
}

fn read_value(alloc: Global, limit: u64, messages: &[Message]) -> Result<Value, AllocError>
    ensures { IfOk result (λ v. view v ≡ reply_data (Reply.Read limit messages.now)) }
{
    let messages = messages_value(alloc, messages)?;
    json!(in alloc; {"limit": limit, "messages": messages, "ok": "read"})
}

fn receive_value(alloc: Global, messages: &[Message]) -> Result<Value, AllocError>
    ensures { IfOk result (λ v. view v ≡ reply_data (Reply.Receive messages.now)) }
{
    let messages = messages_value(alloc, messages)?;
    json!(in alloc; {"messages": messages, "ok": "receive"})
}

fn messages_value(alloc: Global, messages: &[Message]) -> Result<Value, AllocError>
    ensures { IfOk result (λ v. view v ≡ array (messages_data messages.now)) }
{
    let mut items = Vec::new(alloc);
    for message in messages {
        items.push(message_value(alloc, message)?)?;
    }
    Ok(Value::Array(items))
}

fn message_value(alloc: Global, message: &Message) -> Result<Value, AllocError>
    ensures { IfOk result (λ v. view v ≡ message_data message.now) }
{
    json!(in alloc; [message.place, message.body.as_str()])
}

fn tick_value(
    alloc: Global,
    now: u64,
    left: u64,
    drove: &Option<Driven>,
) -> Result<Value, AllocError>
    ensures { IfOk result (λ v. view v ≡ reply_data (Reply.Tick now left drove.now)) }
{
    match drove {
        None => json!(in alloc; {"left": left, "now": now, "ok": "tick"}),
        Some(driven) => driven_value(alloc, now, left, driven),
    }
}

fn driven_value(alloc: Global, now: u64, left: u64, driven: &Driven) -> Result<Value, AllocError>
    ensures { IfOk result (λ v. view v ≡ reply_data (Reply.Tick now left (Some driven.now))) }
{
    match &driven.outcome.stuck {
        None => drove_value(alloc, now, left, driven),
        Some(stuck) => drove_stuck_value(alloc, now, left, driven, stuck),
    }
}

fn drove_value(alloc: Global, now: u64, left: u64, driven: &Driven) -> Result<Value, AllocError>
    ensures { IfOk result (λ v. view v ≡ object (num (codes "left") left (num (codes "now") now
        (word (codes "ok") (codes "tick") (driven_members driven.now.txn driven.now.outcome.status None))))) }
{
    let txn = id_value(alloc, driven.txn)?;
    let status = status_word(driven.outcome.status);
    json!(in alloc; {"left": left, "now": now, "ok": "tick", "status": status, "txn": txn})
}

fn drove_stuck_value(
    alloc: Global,
    now: u64,
    left: u64,
    driven: &Driven,
    stuck: &Stuck,
) -> Result<Value, AllocError>
    ensures { IfOk result (λ v. view v ≡ object (num (codes "left") left (num (codes "now") now
        (word (codes "ok") (codes "tick") (driven_members driven.now.txn driven.now.outcome.status (Some stuck.now)))))) }
{
    let txn = id_value(alloc, driven.txn)?;
    let status = status_word(driven.outcome.status);
    let part = stuck.part.as_str();
    let why = why_word(stuck.why);
    json!(in alloc; {"left": left, "now": now, "ok": "tick", "part": part, "status": status, "txn": txn, "why": why})
}
