//! The values that a reply is made of.
use crate::text::{number, text_bytes};
use crate::wrong::Wrong;
use std::alloc::Global;
use txn_base::{Decision, Message, Messages, Outcome, Status, Stuck, Text, TxnId, What, Why};

pub fn txn_of(most: &str, least: &str) -> Result<TxnId, Wrong> {
    let most = number(most)?;
    let least = number(least)?;
    Ok(TxnId { most, least })
}

pub fn text_of(alloc: Global, word: &str) -> Result<Text, Wrong> {
    let bytes = text_bytes(alloc, word)?;
    let Ok(text) = str::from_utf8(&bytes) else {
        return Err(Wrong::Line("a text is wanted"));
    };
    Ok(Text::from_str(alloc, text)?)
}

pub fn status_of(word: &str) -> Result<Status, Wrong> {
    match word {
        "open" => Ok(Status::Open),
        "committing" => Ok(Status::Committing),
        "committed" => Ok(Status::Committed),
        "aborting" => Ok(Status::Aborting),
        "aborted" => Ok(Status::Aborted),
        _ => Err(Wrong::Line("no such status")),
    }
}

pub fn decision_of(word: &str) -> Result<Decision, Wrong> {
    match word {
        "commit" => Ok(Decision::Commit),
        "abort" => Ok(Decision::Abort),
        _ => Err(Wrong::Line("no such decision")),
    }
}

pub fn what_of(word: &str) -> Result<What, Wrong> {
    match word {
        "transactions" => Ok(What::Transactions),
        "log" => Ok(What::Log),
        "held" => Ok(What::Held),
        _ => Err(Wrong::Line("no such bound")),
    }
}

fn why_of(word: &str) -> Result<Why, Wrong> {
    match word {
        "fault" => Ok(Why::Fault),
        "recovering" => Ok(Why::Recovering),
        "memory" => Ok(Why::Memory),
        _ => Err(Wrong::Line("no such cause")),
    }
}

/// A status; and behind it the part at which the drive stopped, and why, where it did.
pub fn outcome_of(alloc: Global, words: &[String]) -> Result<Outcome, Wrong> {
    match words {
        [status] => Ok(Outcome {
            status: status_of(status.as_str())?,
            stuck: None,
        }),
        [status, part, why] => {
            let status = status_of(status.as_str())?;
            let why = why_of(why.as_str())?;
            let part = text_of(alloc, part.as_str())?;
            let stuck = Some(Stuck { part, why });
            Ok(Outcome { status, stuck })
        }
        _ => Err(Wrong::Line("no such outcome")),
    }
}

/// Messages, each a place and a body.
pub fn messages_of(alloc: Global, words: &[String]) -> Result<Messages, Wrong> {
    let mut messages = Messages::new(alloc);
    let mut place = None;
    for word in words {
        match place {
            None => place = Some(number(word.as_str())?),
            Some(place_of) => {
                let body = text_of(alloc, word.as_str())?;
                messages.push(Message {
                    place: place_of,
                    body,
                })?;
                place = None;
            }
        }
    }
    Ok(messages)
}
