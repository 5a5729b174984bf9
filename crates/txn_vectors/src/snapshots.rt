//! Records of a snapshot, each by itself and in a whole batch.
use crate::ends::{ends_record, head_record};
use crate::records::{Kind, again, longer, with_bad_heads};
use crate::text::{first_word, number};
use crate::wrong::Wrong;
use std::alloc::Global;
use txn_base::Bytes;
use txn_records::{RecordError, ends_count, read_snapshot, write_ends, write_head};

/// How a record of so many ends is read, from a transaction on, and its length.
pub fn ends_told(alloc: Global, words: &str) -> Result<String, Wrong> {
    let (first, count) = first_word(words);
    let record = ends_record(alloc, number(first)?, number(count)?)?;
    let told = again(alloc, Kind::Snapshot, record.as_slice())?;
    let length = record.len();
    Ok(format!(in alloc; "{told} of {length} bytes")?)
}

/// A batch: how many ends its head tells, and how many each of its records of ends has, as `3000` or `3000*63`. They are of
/// one transaction after another.
fn batch_of(alloc: Global, words: &str) -> Result<Vec<Bytes>, Wrong> {
    let (total, counts) = first_word(words);
    let mut batch = Vec::new(alloc);
    batch.push(head_record(alloc, number(total)?)?)?;
    let mut first = 0u64;
    for word in counts.split_whitespace() {
        let (count, times) = word.split_once('*').unwrap_or((word, "1"));
        let count = number(count)?;
        for _ in 0..number(times)? {
            batch.push(ends_record(alloc, first, count)?)?;
            first = first.wrapping_add(count);
        }
    }
    Ok(batch)
}

/// How a batch is read, and how many records it has.
pub fn batch_told(alloc: Global, words: &str) -> Result<String, Wrong> {
    let batch = match words {
        "" => Vec::new(alloc),
        "descending" => {
            let mut batch = Vec::new(alloc);
            batch.push(head_record(alloc, 2)?)?;
            batch.push(ends_record(alloc, u64::MAX, 2)?)?;
            batch
        }
        _ => batch_of(alloc, words)?,
    };
    let told = batch_again(alloc, &batch)?;
    let count = batch.len();
    Ok(format!(in alloc; "{told} of {count} records")?)
}

/// `back` where what a batch reads as is written as the same batch, and `none` where it is that of no snapshot.
fn batch_again(alloc: Global, batch: &[Bytes]) -> Result<&'static str, Wrong> {
    let snap = match read_snapshot(alloc, batch) {
        Ok(snap) => snap,
        Err(RecordError::Bad) => return Ok("none"),
        Err(RecordError::NoMemory) => return Err(Wrong::NoMemory),
    };
    let count = ends_count(&snap);
    let mut same = batch.len() as u64 == count.saturating_add(1);
    if let Some(head) = batch.first() {
        same = same && write_head(alloc, &snap)?.as_slice() == head.as_slice();
    }
    for piece in 0..count {
        let ends = write_ends(alloc, &snap, piece)?;
        same = same
            && match batch.get(piece as usize + 1) {
                Some(record) => record.as_slice() == ends.as_slice(),
                None => false,
            };
    }
    Ok(if same { "back" } else { "another" })
}

/// How a batch is read with its record at a place spoiled, and how that is read by itself: with bad versions and kinds, and
/// with a byte behind it.
pub fn spoiled_told(alloc: Global, words: &str) -> Result<String, Wrong> {
    let (place, words) = first_word(words);
    let batch = batch_of(alloc, words)?;
    let place = number(place)?;
    let Some(record) = batch.get(place as usize) else {
        return Err(Wrong::Line("no such record"));
    };
    let mut found = with_bad_heads(alloc, record.as_slice(), 3)?;
    found.push(longer(alloc, record.as_slice())?)?;
    let mut alone = "none";
    let mut inside = "none";
    for bad in &found {
        if again(alloc, Kind::Snapshot, bad)? != "none" {
            alone = "one";
        }
        if batch_again(alloc, &with_record(alloc, &batch, place, bad)?)? != "none" {
            inside = "one";
        }
    }
    let count = found.len();
    Ok(format!(in alloc; "{alone} alone, {inside} in the batch, of {count}")?)
}

/// The batch with another record at a place.
fn with_record(
    alloc: Global,
    batch: &[Bytes],
    place: u64,
    bytes: &[u8],
) -> Result<Vec<Bytes>, Wrong> {
    let mut out = Vec::new(alloc);
    for (i, record) in batch.iter().enumerate() {
        let kept = if i as u64 == place {
            bytes
        } else {
            record.as_slice()
        };
        out.push(Bytes::from_slice(alloc, kept)?)?;
    }
    Ok(out)
}
