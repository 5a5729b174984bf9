//! The rules, read plainly: each a loop over lists, or a look whether an entry is there.
use std::alloc::{AllocError, Global};
use txn_base::{CoreEntry, Decision, TxnId};

/// The list at a position, empty where there is none.
pub fn list_at(lists: &[Vec<CoreEntry>], part: u32) -> &[CoreEntry] {
    match lists.get(part as usize) {
        Some(list) => list.as_slice(),
        None => &[],
    }
}

fn marker(txn: TxnId, decision: Decision) -> CoreEntry {
    CoreEntry::Marker { txn, decision }
}

fn decided(txn: TxnId, decision: Decision) -> CoreEntry {
    match decision {
        Decision::Commit => CoreEntry::Committing { txn },
        Decision::Abort => CoreEntry::Aborting { txn },
    }
}

/// How many transactions were begun.
pub fn count_begun(log: &[CoreEntry]) -> u64 {
    let mut count = 0_u64;
    for entry in log {
        if matches!(entry, CoreEntry::New { .. }) {
            count = count.saturating_add(1);
        }
    }
    count
}

/// The transaction was begun, and isn't decided.
fn is_open(log: &[CoreEntry], txn: TxnId) -> bool {
    log.contains(&CoreEntry::New { txn })
        && !log.contains(&decided(txn, Decision::Commit))
        && !log.contains(&decided(txn, Decision::Abort))
}

/// The list has a marker of the transaction, of whichever decision.
fn is_ended(list: &[CoreEntry], txn: TxnId) -> bool {
    list.contains(&marker(txn, Decision::Commit)) || list.contains(&marker(txn, Decision::Abort))
}

/// Behind a lawful log, the entry is allowed.
fn log_allows(log: &[CoreEntry], entry: CoreEntry) -> bool {
    match entry {
        CoreEntry::New { txn } => txn.most == 0 && txn.least == count_begun(log),
        CoreEntry::AddPart { txn, part } => {
            is_open(log, txn) && part != 0 && part < 63 && !log.contains(&entry)
        }
        CoreEntry::Committing { txn } => is_open(log, txn),
        CoreEntry::Aborting { txn } => is_open(log, txn),
        CoreEntry::Committed { txn } => {
            log.contains(&CoreEntry::Committing { txn }) && !log.contains(&entry)
        }
        CoreEntry::Aborted { txn } => {
            log.contains(&CoreEntry::Aborting { txn }) && !log.contains(&entry)
        }
        CoreEntry::Plain => false,
        CoreEntry::Inside { .. } => false,
        CoreEntry::Marker { .. } => false,
    }
}

/// Behind the list of a part other than the coordinator, the entry is allowed.
fn part_allows(list: &[CoreEntry], entry: CoreEntry) -> bool {
    match entry {
        CoreEntry::Plain => true,
        CoreEntry::Inside { txn } => !is_ended(list, txn),
        CoreEntry::Marker { txn, .. } => !is_ended(list, txn),
        _ => false,
    }
}

/// The list of the part is lawful by itself.
pub fn is_lawful(alloc: Global, part: u32, list: &[CoreEntry]) -> Result<bool, AllocError> {
    let mut before = Vec::new(alloc);
    for entry in list {
        let allowed = match part {
            0 => log_allows(before.as_slice(), *entry),
            _ => part_allows(before.as_slice(), *entry),
        };
        if !allowed {
            return Ok(false);
        }
        before.push(*entry)?;
    }
    Ok(true)
}

/// Each part that the log gives the transaction has the marker of this decision.
fn is_finished(lists: &[Vec<CoreEntry>], txn: TxnId, decision: Decision) -> bool {
    for entry in list_at(lists, 0) {
        if let CoreEntry::AddPart { txn: other, part } = entry {
            if *other == txn && !list_at(lists, *part).contains(&marker(txn, decision)) {
                return false;
            }
        }
    }
    true
}

/// What an entry of the part needs of the other lists is there.
pub fn is_backed(lists: &[Vec<CoreEntry>], part: u32, entry: CoreEntry) -> bool {
    match entry {
        CoreEntry::Inside { txn } => {
            list_at(lists, 0).contains(&CoreEntry::AddPart { txn, part })
        }
        CoreEntry::Marker { txn, decision } => list_at(lists, 0).contains(&decided(txn, decision)),
        CoreEntry::Committed { txn } => is_finished(lists, txn, Decision::Commit),
        CoreEntry::Aborted { txn } => is_finished(lists, txn, Decision::Abort),
        _ => true,
    }
}

/// Among the lists of these parts, one isn't lawful by itself, or the others don't give what an entry needs.
pub fn is_violated(alloc: Global, lists: &[Vec<CoreEntry>]) -> Result<bool, AllocError> {
    let mut part = 0_u32;
    for list in lists {
        if !is_lawful(alloc, part, list.as_slice())? {
            return Ok(true);
        }
        for entry in list {
            if !is_backed(lists, part, *entry) {
                return Ok(true);
            }
        }
        part = part.saturating_add(1);
    }
    Ok(false)
}

/// The visible places of a list from one on: of those before the first message of a transaction without a marker, the plain
/// messages and those of a transaction with a commit marker.
pub fn visible_from(alloc: Global, list: &[CoreEntry], first: u64) -> Result<Vec<u64>, AllocError> {
    let mut places = Vec::new(alloc);
    let mut place = 0_u64;
    for entry in list {
        let shown = match entry {
            CoreEntry::Plain => true,
            CoreEntry::Inside { txn } => {
                if !is_ended(list, *txn) {
                    return Ok(places);
                }
                list.contains(&marker(*txn, Decision::Commit))
            }
            _ => false,
        };
        if shown && place >= first {
            places.push(place)?;
        }
        place = place.saturating_add(1);
    }
    Ok(places)
}
