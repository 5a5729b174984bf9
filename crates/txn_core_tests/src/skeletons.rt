//! What is kept of each entry: its kind, its transaction, and the part that it adds.
use crate::start::numbered;
use std::alloc::{AllocError, Global};
use txn_base::{AckEntry, Bytes, CoordEntry, CoreEntry, Decision, Places, TopicEntry};
use txn_core::{Skeletons, of_ack, of_coord, of_topic};

/// The entries of each kind, in the lists of the coordinator, a topic and a subscription, are kept as they should be.
pub fn skeletons_of_each_entry(alloc: Global) -> Result<bool, AllocError> {
    let mut lists = Skeletons::new(alloc, 2)?;
    for part in 0..3_u32 {
        push_all(alloc, &mut lists, part)?;
    }
    let txn = numbered(5);
    let commit = CoreEntry::Marker {
        txn,
        decision: Decision::Commit,
    };
    let abort = CoreEntry::Marker {
        txn,
        decision: Decision::Abort,
    };
    let log = [
        CoreEntry::New { txn },
        CoreEntry::AddPart { txn, part: 7 },
        CoreEntry::Committing { txn },
        CoreEntry::Committed { txn },
        CoreEntry::Aborting { txn },
        CoreEntry::Aborted { txn },
    ];
    let topic = [CoreEntry::Plain, CoreEntry::Inside { txn }, commit, abort];
    let sub = [
        CoreEntry::Plain,
        CoreEntry::Plain,
        CoreEntry::Inside { txn },
        CoreEntry::Inside { txn },
        commit,
        abort,
    ];
    Ok(
        has_list(&lists, 0, log.as_slice())
            && has_list(&lists, 1, topic.as_slice())
            && has_list(&lists, 2, sub.as_slice())
            && lists.as_slice().len() == 3,
    )
}

fn has_list(lists: &Skeletons, part: usize, wanted: &[CoreEntry]) -> bool {
    match lists.as_slice().get(part) {
        Some(list) => list.as_slice() == wanted,
        None => false,
    }
}

/// Adds the skeletons of one entry of each kind to the list of the part.
fn push_all(alloc: Global, lists: &mut Skeletons, part: u32) -> Result<(), AllocError> {
    let entries = match part {
        0 => log_skeletons(alloc)?,
        1 => topic_skeletons(alloc)?,
        _ => sub_skeletons(alloc)?,
    };
    for entry in entries.as_slice() {
        if (part as usize) < lists.as_slice().len() {
            lists.push(part, *entry)?;
        }
    }
    Ok(())
}

fn log_skeletons(alloc: Global) -> Result<Vec<CoreEntry>, AllocError> {
    let txn = numbered(5);
    let entries = vec![in alloc;
        of_coord(&CoordEntry::New {
            txn,
            deadline: 60_000
        }),
        of_coord(&CoordEntry::AddPart { txn, part: 7 }),
        of_coord(&CoordEntry::Committing { txn }),
        of_coord(&CoordEntry::Committed { txn }),
        of_coord(&CoordEntry::Aborting { txn }),
        of_coord(&CoordEntry::Aborted { txn }),
    ]?;
    Ok(entries)
}

fn topic_skeletons(alloc: Global) -> Result<Vec<CoreEntry>, AllocError> {
    let txn = numbered(5);
    let plain = TopicEntry::Plain {
        body: Bytes::from_slice(alloc, b"a")?,
    };
    let opened = TopicEntry::Opened {
        txn,
        body: Bytes::from_slice(alloc, b"b")?,
    };
    let entries = vec![in alloc;
        of_topic(&plain),
        of_topic(&opened),
        of_topic(&TopicEntry::Commit { txn }),
        of_topic(&TopicEntry::Abort { txn }),
    ]?;
    Ok(entries)
}

fn sub_skeletons(alloc: Global) -> Result<Vec<CoreEntry>, AllocError> {
    let txn = numbered(5);
    let mut places = Places::new(alloc);
    places.push(3)?;
    let hold = AckEntry::Hold { txn, places };
    let plain = AckEntry::Plain {
        places: Places::new(alloc),
    };
    let entries = vec![in alloc;
        of_ack(&plain),
        of_ack(&AckEntry::PlainUpTo { place: 3 }),
        of_ack(&hold),
        of_ack(&AckEntry::HoldUpTo { txn, place: 3 }),
        of_ack(&AckEntry::Commit { txn }),
        of_ack(&AckEntry::Abort { txn }),
    ]?;
    Ok(entries)
}
