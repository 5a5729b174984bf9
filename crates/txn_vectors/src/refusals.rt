//! Refusals as a line has them.
use crate::text::number;
use crate::values::{status_of, text_of, txn_of, what_of};
use crate::wrong::Wrong;
use std::alloc::Global;
use txn_base::Refusal;

/// The refusal of these words.
pub fn refusal_of(alloc: Global, why: &str, words: &[String]) -> Result<Refusal, Wrong> {
    match words {
        [] => bare(why),
        [word] => with_word(alloc, why, word.as_str()),
        [first, second] => with_two(alloc, why, first.as_str(), second.as_str()),
        [first, second, third] => {
            with_three(alloc, why, first.as_str(), second.as_str(), third.as_str())
        }
        _ => Err(Wrong::Line("no such refusal")),
    }
}

fn bare(why: &str) -> Result<Refusal, Wrong> {
    match why {
        "too_long" => Ok(Refusal::TooLong),
        "bad_line" => Ok(Refusal::BadLine),
        "bad_timeout" => Ok(Refusal::BadTimeout),
        "bad_places" => Ok(Refusal::BadPlaces),
        "too_big" => Ok(Refusal::TooBig),
        "no_memory" => Ok(Refusal::NoMemory),
        "not_found" => Ok(Refusal::NotFound),
        "empty" => Ok(Refusal::Empty),
        _ => Err(Wrong::Line("no such refusal")),
    }
}

fn with_word(alloc: Global, why: &str, word: &str) -> Result<Refusal, Wrong> {
    match why {
        "unknown_part" => Ok(Refusal::UnknownPart {
            name: text_of(alloc, word)?,
        }),
        "wrong_kind" => Ok(Refusal::WrongKind {
            name: text_of(alloc, word)?,
        }),
        "unknown_coordinator" => Ok(Refusal::UnknownCoordinator {
            number: number(word)?,
        }),
        "not_open" => Ok(Refusal::NotOpen {
            status: status_of(word)?,
        }),
        "not_registered" => Ok(Refusal::NotRegistered {
            part: text_of(alloc, word)?,
        }),
        "fault" => Ok(Refusal::Fault {
            part: text_of(alloc, word)?,
        }),
        "already_acked" => Ok(Refusal::AlreadyAcked {
            place: number(word)?,
        }),
        _ => Err(Wrong::Line("no such refusal")),
    }
}

fn with_two(alloc: Global, why: &str, first: &str, second: &str) -> Result<Refusal, Wrong> {
    match why {
        "damaged" => Ok(Refusal::Damaged {
            part: text_of(alloc, first)?,
            place: number(second)?,
        }),
        "unread" => Ok(Refusal::Unread {
            place: number(first)?,
            limit: number(second)?,
        }),
        "full" => Ok(Refusal::Full {
            what: what_of(first)?,
            count: number(second)?,
        }),
        _ => Err(Wrong::Line("no such refusal")),
    }
}

fn with_three(
    alloc: Global,
    why: &str,
    first: &str,
    second: &str,
    third: &str,
) -> Result<Refusal, Wrong> {
    match why {
        "recovering" => Ok(Refusal::Recovering {
            part: text_of(alloc, first)?,
            at: number(second)?,
            total: number(third)?,
        }),
        "conflict" => Ok(Refusal::Conflict {
            place: number(first)?,
            holder: txn_of(second, third)?,
        }),
        _ => Err(Wrong::Line("no such refusal")),
    }
}
