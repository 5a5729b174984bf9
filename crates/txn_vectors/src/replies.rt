//! Replies as texts.
use crate::refusals::refusal_of;
use crate::short::is_short;
use crate::text::{number, one_line, words_of};
use crate::values::{decision_of, messages_of, outcome_of, status_of, txn_of};
use crate::wrong::Wrong;
use std::alloc::Global;
use txn_base::{Bytes, Driven, Refusal, Reply};
use txn_wire::{NO_MEMORY_TEXT, is_long, no_memory_text, put_short, reply_text};

/// The text of a reply, without its newline. One that is long is told as `long`. One that isn't is also put into room, behind
/// another.
pub fn told(alloc: Global, words: &str) -> Result<String, Wrong> {
    let reply = reply_of(alloc, &words_of(alloc, words)?)?;
    let bytes = reply_text(alloc, &reply)?;
    if !is_long(&reply) {
        see_short(alloc, &reply, bytes.as_slice())?;
    }
    let kind = if is_long(&reply) { "long " } else { "" };
    let Ok(text) = str::from_utf8(bytes.as_slice()) else {
        return Err(Wrong::Line("the text isn't UTF-8"));
    };
    let Some(line) = text.strip_suffix("\n") else {
        return Err(Wrong::Line("the text has no newline"));
    };
    Ok(format!(in alloc; "{kind}{line}")?)
}

/// A short text is put behind another as it is told.
fn see_short(alloc: Global, reply: &Reply, text: &[u8]) -> Result<(), Wrong> {
    if !is_short(reply) {
        return Err(Wrong::Line("a part has no part's name"));
    }
    let mut out = Bytes::new(alloc);
    out.reserve(1024)?;
    put_short(&Reply::No(Refusal::NoMemory), &mut out);
    put_short(reply, &mut out);
    match out.as_slice().strip_prefix(NO_MEMORY_TEXT.as_bytes()) {
        Some(put) => {
            if put == text {
                Ok(())
            } else {
                Err(Wrong::Line("another text is put"))
            }
        }
        None => Err(Wrong::Line("the text before it is another")),
    }
}

/// How many bytes the text of a reply has, with its newline.
pub fn size_told(alloc: Global, words: &str) -> Result<String, Wrong> {
    let reply = reply_of(alloc, &words_of(alloc, words)?)?;
    let size = reply_text(alloc, &reply)?.len();
    Ok(format!(in alloc; "{size}")?)
}

/// The text for want of memory.
pub fn constant_told(alloc: Global) -> Result<String, Wrong> {
    Ok(one_line(alloc, no_memory_text())?)
}

/// The reply of these words.
fn reply_of(alloc: Global, words: &[String]) -> Result<Reply, Wrong> {
    let [kind, rest @ ..] = words else {
        return Err(Wrong::Line("no such reply"));
    };
    match kind.as_str() {
        "commit" | "abort" => Ok(Reply::Ended {
            decision: decision_of(kind.as_str())?,
            outcome: outcome_of(alloc, rest)?,
        }),
        "receive" => Ok(Reply::Receive {
            messages: messages_of(alloc, rest)?,
        }),
        "read" => read_of(alloc, rest),
        "tick" => tick_of(alloc, rest),
        "no" => {
            let [why, rest @ ..] = rest else {
                return Err(Wrong::Line("no such refusal"));
            };
            Ok(Reply::No(refusal_of(alloc, why.as_str(), rest)?))
        }
        kind => plain_of(kind, rest),
    }
}

fn plain_of(kind: &str, words: &[String]) -> Result<Reply, Wrong> {
    match (kind, words) {
        ("new", [most, least]) => Ok(Reply::New {
            txn: txn_of(most.as_str(), least.as_str())?,
        }),
        ("add", []) => Ok(Reply::Add),
        ("publish", [place, count]) => Ok(Reply::Publish {
            place: number(place.as_str())?,
            count: number(count.as_str())?,
        }),
        ("ack", []) => Ok(Reply::Ack),
        ("ack_upto", []) => Ok(Reply::AckUpTo),
        ("status", [status]) => Ok(Reply::Status {
            status: status_of(status.as_str())?,
        }),
        ("redeliver", []) => Ok(Reply::Redeliver),
        ("stop", []) => Ok(Reply::Stop),
        _ => Err(Wrong::Line("no such reply")),
    }
}

fn read_of(alloc: Global, words: &[String]) -> Result<Reply, Wrong> {
    let [limit, messages @ ..] = words else {
        return Err(Wrong::Line("no limit"));
    };
    let limit = number(limit.as_str())?;
    let messages = messages_of(alloc, messages)?;
    Ok(Reply::Read { limit, messages })
}

fn tick_of(alloc: Global, words: &[String]) -> Result<Reply, Wrong> {
    match words {
        [now, left] => {
            let now = number(now.as_str())?;
            let left = number(left.as_str())?;
            let drove = None;
            Ok(Reply::Tick { now, left, drove })
        }
        [now, left, most, least, outcome @ ..] => {
            let now = number(now.as_str())?;
            let left = number(left.as_str())?;
            let txn = txn_of(most.as_str(), least.as_str())?;
            let outcome = outcome_of(alloc, outcome)?;
            let drove = Some(Driven { txn, outcome });
            Ok(Reply::Tick { now, left, drove })
        }
        _ => Err(Wrong::Line("no such tick")),
    }
}
