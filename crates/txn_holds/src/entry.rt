//! The entries of a subscription, which are kept for clauses alone.
ghost use Rattle.std.specs.Prelude.{◌≡◌, [], ◌∷◌, ◌++◌, Some};
ghost use Rattle.txn_holds.specs.Holds.{entries_in};
ghost use Rattle.txn_base.specs.Records.{IsAckEntry};
ghost use Rattle.txn_model.specs.Table.{ack_marker};
ghost use Rattle.txn_model.specs.Skeletons.{same_txn};

use txn_base::{AckEntry, ContentCarrier, Decision, ReadsContent, TxnId};

/// The entry stands behind the others.
struct Added;

impl<'a, 'b> ReadsContent<(&'a ContentCarrier, &'b AckEntry)> for Added {
    ghost use Rattle.std.specs.Prelude.{[], ◌∷◌};
    ghost use Rattle.txn_base.specs.Content.{landed};
    ghost use Rattle.txn_base.specs.Records.{ack_record};

    ghost content = { λ x. landed x.0.now.content (ack_record x.1.now ∷ []) };
}

/// These entries, and one behind them.
pub fn with_entry(front: &ContentCarrier, entry: &AckEntry) -> ContentCarrier
    requires { IsAckEntry entry.now }
    ensures { entries_in result.content ≡ entries_in front.now.content ++ entry.now ∷ [] }
{
    ContentCarrier::of::<(&ContentCarrier, &AckEntry), Added>(&(front, entry))
}

/// The marker that ends a transaction.
pub fn marker(txn: TxnId, decision: Decision) -> AckEntry
    ensures { result ≡ ack_marker txn decision }
{
    match decision {
        Decision::Commit => AckEntry::Commit { txn },
        Decision::Abort => AckEntry::Abort { txn },
    }
}

/// Both are the same transaction.
pub fn is_same(x: TxnId, y: TxnId) -> bool
    ensures { result ≡ same_txn x y }
{
    x.most == y.most && x.least == y.least
}
