//! Records, read and written again, and written.
use crate::bytes::{bytes_of, hex_of};
use crate::text::number;
use crate::wrong::Wrong;
use std::alloc::Global;
use txn_base::{Bytes, CoordEntry, Decision, TxnId};
use txn_records::{
    RecordError, is_snapshot_record, marker_record, opened_record, plain_record, put_coord,
    read_ack, read_coord, read_name, read_topic, topic_skeleton_of, write_ack, write_coord,
    write_name, write_topic,
};

/// The ledgers that a record is of.
#[derive(Clone, Copy)]
pub enum Kind {
    Name,
    Coord,
    Topic,
    Ack,
    Snapshot,
}

/// What a record is told as, or what a writer gives.
pub fn told(alloc: Global, kind: &str, rest: &str) -> Result<String, Wrong> {
    match kind {
        "name" => record_told(alloc, Kind::Name, rest),
        "coord" => record_told(alloc, Kind::Coord, rest),
        "topic" => record_told(alloc, Kind::Topic, rest),
        "ack" => record_told(alloc, Kind::Ack, rest),
        "snapshot" => record_told(alloc, Kind::Snapshot, rest),
        "entry" => {
            let entry = read_coord(&bytes_of(alloc, rest)?);
            Ok(format!(in alloc; "{entry:?}")?)
        }
        "skeleton" => {
            let skeleton = topic_skeleton_of(&bytes_of(alloc, rest)?);
            Ok(format!(in alloc; "{skeleton:?}")?)
        }
        _ => {
            let record = written(alloc, kind, rest)?;
            Ok(hex_of(alloc, record.as_slice())?)
        }
    }
}

/// What a writer gives.
fn written(alloc: Global, kind: &str, rest: &str) -> Result<Bytes, Wrong> {
    match kind {
        "plain" => Ok(plain_record(alloc, &bytes_of(alloc, rest)?)?),
        "opened" => {
            let (txn, body) = txn_before(rest)?;
            Ok(opened_record(alloc, txn, &bytes_of(alloc, body)?)?)
        }
        "commit" => Ok(marker_record(alloc, txn_before(rest)?.0, Decision::Commit)?),
        "abort" => Ok(marker_record(alloc, txn_before(rest)?.0, Decision::Abort)?),
        "new" => {
            let (txn, deadline) = txn_before(rest)?;
            let deadline = number(deadline)?;
            let mut out = Bytes::new(alloc);
            out.reserve(26)?;
            put_coord(&CoordEntry::New { txn, deadline }, &mut out);
            Ok(out)
        }
        _ => Err(Wrong::Line("no such line")),
    }
}

/// A transaction's number, as `[0,0]`, and the rest behind the space.
fn txn_before(words: &str) -> Result<(TxnId, &str), Wrong> {
    let (word, rest) = words.split_once(' ').unwrap_or((words, ""));
    let numbers = word
        .strip_prefix("[")
        .and_then(|inside| inside.strip_suffix("]"))
        .and_then(|inside| inside.split_once(','));
    let Some((most, least)) = numbers else {
        return Err(Wrong::Line("a transaction is wanted"));
    };
    let (most, least) = (number(most)?, number(least)?);
    Ok((TxnId { most, least }, rest))
}

/// How a record is read; and where it is one, how it is with another version or kind, and with a byte behind it.
fn record_told(alloc: Global, kind: Kind, rest: &str) -> Result<String, Wrong> {
    let bytes = bytes_of(alloc, rest)?;
    let found = again(alloc, kind, &bytes)?;
    if found == "none" {
        return Ok(String::from_str(alloc, found)?);
    }
    let heads = heads_told(alloc, kind, &bytes)?;
    let longer = again(alloc, kind, &longer(alloc, &bytes)?)?;
    Ok(format!(in alloc; "{found}, heads {heads}, longer {longer}")?)
}

/// How a record is read with the versions 0, 2 and 255, and with the kinds 0, the one past the last of its ledger, and 255:
/// as none of them should be.
fn heads_told(alloc: Global, kind: Kind, record: &[u8]) -> Result<&'static str, Wrong> {
    let mut told = "none";
    for bad in &with_bad_heads(alloc, record, past_last(kind))? {
        let found = again(alloc, kind, bad)?;
        if found != "none" {
            told = found;
        }
    }
    Ok(told)
}

/// The kind past the last one of a ledger's records.
fn past_last(kind: Kind) -> u8 {
    match kind {
        Kind::Name => 3,
        Kind::Coord => 7,
        Kind::Topic => 5,
        Kind::Ack => 7,
        Kind::Snapshot => 3,
    }
}

/// The record with versions beside 1, and with kinds that no record of its ledger has.
pub fn with_bad_heads(alloc: Global, record: &[u8], past_last: u8) -> Result<Vec<Vec<u8>>, Wrong> {
    let mut found = Vec::new(alloc);
    let [version, kind, fields @ ..] = record else {
        return Err(Wrong::Line("a record has a head"));
    };
    for (version, kind) in [
        (0, *kind),
        (2, *kind),
        (255, *kind),
        (*version, 0),
        (*version, past_last),
        (*version, 255),
    ] {
        let mut bytes = Vec::from_slice(alloc, &[version, kind])?;
        bytes.extend_from_slice(fields)?;
        found.push(bytes)?;
    }
    Ok(found)
}

/// The record with a byte behind it.
pub fn longer(alloc: Global, record: &[u8]) -> Result<Vec<u8>, Wrong> {
    let mut bytes = Vec::from_slice(alloc, record)?;
    bytes.push(0)?;
    Ok(bytes)
}

/// `back` where what is read of these bytes is written as the same bytes, and `none` where they are outside the grammar. A
/// record of a snapshot is only read: `one`.
pub fn again(alloc: Global, kind: Kind, bytes: &[u8]) -> Result<&'static str, Wrong> {
    let found = match kind {
        Kind::Name => name_again(alloc, bytes)?,
        Kind::Coord => match read_coord(bytes) {
            Some(entry) => Some(write_coord(alloc, &entry)?),
            None => None,
        },
        Kind::Topic => topic_again(alloc, bytes)?,
        Kind::Ack => ack_again(alloc, bytes)?,
        Kind::Snapshot => return Ok(if is_snapshot_record(bytes) {
            "one"
        } else {
            "none"
        }),
    };
    Ok(match found {
        Some(record) => {
            if record.as_slice() == bytes {
                "back"
            } else {
                "another"
            }
        }
        None => "none",
    })
}

fn name_again(alloc: Global, bytes: &[u8]) -> Result<Option<Bytes>, Wrong> {
    match read_name(alloc, bytes) {
        Ok(name) => Ok(Some(write_name(alloc, &name)?)),
        Err(error) => refused(error),
    }
}

/// Both readings of a topic's record take these bytes or neither.
fn topic_again(alloc: Global, bytes: &[u8]) -> Result<Option<Bytes>, Wrong> {
    let skeleton = topic_skeleton_of(bytes);
    match read_topic(alloc, bytes) {
        Ok(entry) => {
            if skeleton.is_none() {
                return Err(Wrong::Line("it has no skeleton"));
            }
            Ok(Some(write_topic(alloc, &entry)?))
        }
        Err(error) => {
            if skeleton.is_some() {
                return Err(Wrong::Line("it has a skeleton"));
            }
            refused(error)
        }
    }
}

fn ack_again(alloc: Global, bytes: &[u8]) -> Result<Option<Bytes>, Wrong> {
    match read_ack(alloc, bytes) {
        Ok(entry) => Ok(Some(write_ack(alloc, &entry)?)),
        Err(error) => refused(error),
    }
}

/// There is none, unless memory was wanting.
fn refused(error: RecordError) -> Result<Option<Bytes>, Wrong> {
    match error {
        RecordError::Bad => Ok(None),
        RecordError::NoMemory => Err(Wrong::NoMemory),
    }
}
