//! The objects that tell of refusals.
ghost use Rattle.std.specs.Prelude.{◌≡◌, IfOk, codes};
ghost use Rattle.serde_json.specs.Data.{object, no_members};
ghost use Rattle.serde_json.specs.View.{view};
ghost use Rattle.txn_wire.specs.Replies.{refused, refusal_data, word};

use crate::replies::id_value;
use crate::words::{status_word, what_word};
use serde_json::{Value, json};
use std::alloc::{AllocError, Global};
use txn_base::{Refusal, Status, Text, TxnId, What};

// A table of the refusals.
pub(crate) fn refusal_value(alloc: Global, refusal: &Refusal) -> Result<Value, AllocError>
    ensures { IfOk result (λ v. view v ≡ refusal_data refusal.now) }
{
    match refusal {
        Refusal::TooLong => refused_value(alloc, "too_long"),
        Refusal::BadLine => refused_value(alloc, "bad_line"),
        Refusal::BadTimeout => refused_value(alloc, "bad_timeout"),
        Refusal::BadPlaces => refused_value(alloc, "bad_places"),
        Refusal::TooBig => refused_value(alloc, "too_big"),
        Refusal::NoMemory => refused_value(alloc, "no_memory"),
        Refusal::NotFound => refused_value(alloc, "not_found"),
        Refusal::Empty => refused_value(alloc, "empty"),
        Refusal::UnknownPart { name } => name_value(alloc, "unknown_part", name),
        Refusal::WrongKind { name } => name_value(alloc, "wrong_kind", name),
        Refusal::UnknownCoordinator { number } => unknown_coordinator_value(alloc, *number),
        Refusal::NotOpen { status } => not_open_value(alloc, *status),
        Refusal::NotRegistered { part } => part_value(alloc, "not_registered", part),
        Refusal::Fault { part } => part_value(alloc, "fault", part),
        Refusal::Recovering { part, at, total } => recovering_value(alloc, part, *at, *total),
        Refusal::Damaged { part, place } => damaged_value(alloc, part, *place),
        Refusal::Unread { place, limit } => unread_value(alloc, *place, *limit),
        Refusal::AlreadyAcked { place } => already_acked_value(alloc, *place),
        Refusal::Conflict { place, holder } => conflict_value(alloc, *place, *holder),
        Refusal::Full { what, count } => full_value(alloc, *what, *count),
    }
}

fn refused_value(alloc: Global, name: &str) -> Result<Value, AllocError>
    ensures { IfOk result (λ v. view v ≡ refused name.now) }
{
    json!(in alloc; {"no": name})
}

fn name_value(alloc: Global, no: &str, name: &Text) -> Result<Value, AllocError>
    ensures { IfOk result (λ v. view v
        ≡ object (word (codes "name") name.now (word (codes "no") no.now no_members))) }
{
    json!(in alloc; {"name": name.as_str(), "no": no})
}

fn unknown_coordinator_value(alloc: Global, number: u64) -> Result<Value, AllocError>
    ensures { IfOk result (λ v. view v ≡ refusal_data (Refusal.UnknownCoordinator number)) }
{
    json!(in alloc; {"no": "unknown_coordinator", "number": number})
}

fn not_open_value(alloc: Global, status: Status) -> Result<Value, AllocError>
    ensures { IfOk result (λ v. view v ≡ refusal_data (Refusal.NotOpen status)) }
{
    json!(in alloc; {"no": "not_open", "status": status_word(status)})
}

fn part_value(alloc: Global, no: &str, part: &Text) -> Result<Value, AllocError>
    ensures { IfOk result (λ v. view v
        ≡ object (word (codes "no") no.now (word (codes "part") part.now no_members))) }
{
    json!(in alloc; {"no": no, "part": part.as_str()})
}

fn recovering_value(alloc: Global, part: &Text, at: u64, total: u64) -> Result<Value, AllocError>
    ensures { IfOk result (λ v. view v ≡ refusal_data (Refusal.Recovering part.now at total)) }
{
    json!(in alloc; {"at": at, "no": "recovering", "of": total, "part": part.as_str()})
}

fn damaged_value(alloc: Global, part: &Text, place: u64) -> Result<Value, AllocError>
    ensures { IfOk result (λ v. view v ≡ refusal_data (Refusal.Damaged part.now place)) }
{
    json!(in alloc; {"no": "damaged", "part": part.as_str(), "place": place})
}

fn unread_value(alloc: Global, place: u64, limit: u64) -> Result<Value, AllocError>
    ensures { IfOk result (λ v. view v ≡ refusal_data (Refusal.Unread place limit)) }
{
    json!(in alloc; {"limit": limit, "no": "unread", "place": place})
}

fn already_acked_value(alloc: Global, place: u64) -> Result<Value, AllocError>
    ensures { IfOk result (λ v. view v ≡ refusal_data (Refusal.AlreadyAcked place)) }
{
    json!(in alloc; {"no": "already_acked", "place": place})
}

fn conflict_value(alloc: Global, place: u64, holder: TxnId) -> Result<Value, AllocError>
    ensures { IfOk result (λ v. view v ≡ refusal_data (Refusal.Conflict place holder)) }
{
    let by = id_value(alloc, holder)?;
    json!(in alloc; {"by": by, "no": "conflict", "place": place})
}

fn full_value(alloc: Global, what: What, count: u64) -> Result<Value, AllocError>
    ensures { IfOk result (λ v. view v ≡ refusal_data (Refusal.Full what count)) }
{
    json!(in alloc; {"count": count, "no": "full", "what": what_word(what)})
}
