//! The plain model of a topic.
use super::files::txn;
use std::alloc::AllocError;
use txn_base::{Bytes, Decision, TopicEntry};
use txn_model::{limit_of, marker_of, visible_of};

/// The list that a commit leaves: a message of a transaction, a plain one, and the commit marker.
#[test]
fn plain_model_on_a_committed_transaction(rt: HostRuntime) -> Result<(), AllocError> {
    let alloc = rt.alloc();
    let b = Bytes::from_slice(alloc, "b".as_bytes())?;
    let c = Bytes::from_slice(alloc, "c".as_bytes())?;
    let opened = TopicEntry::Opened {
        txn: txn(0),
        body: b,
    };
    let list = vec![in alloc;
        opened,
        TopicEntry::Plain { body: c },
        TopicEntry::Commit { txn: txn(0) },
    ]?;

    assert_eq!(rt; limit_of(list.as_slice()), 3);
    assert_eq!(rt; marker_of(list.as_slice(), txn(0)), Some(Decision::Commit));
    let visible = visible_of(alloc, list.as_slice())?;
    assert_eq!(rt; visible.len(), 2);
    for message in visible.as_slice() {
        let told = format!(in alloc; "{} {}", message.place, message.body.as_str())?;
        assert_eq!(rt;
            told.as_str(),
            if message.place == 0 { "0 b" } else { "1 c" }
        );
    }
    Ok(())
}
