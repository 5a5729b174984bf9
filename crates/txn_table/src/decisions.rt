//! What a status tells: a decision, and whether it is closed.
ghost use Rattle.std.specs.Prelude.{◌≡◌, Some};
ghost use Rattle.txn_model.specs.Deadlines.{is_closed};
ghost use Rattle.txn_table.specs.Table.{decision_in};

use txn_base::{Decision, Status};

/// The decision that a status tells.
pub fn decision_in(status: Option<Status>) -> Option<Decision>
    ensures { result ≡ decision_in status }
{
    match status? {
        Status::Open => None,
        Status::Committing => Some(Decision::Commit),
        Status::Committed => Some(Decision::Commit),
        Status::Aborting => Some(Decision::Abort),
        Status::Aborted => Some(Decision::Abort),
    }
}

/// A status of a transaction that is closed.
pub fn is_closed(status: Status) -> bool
    ensures { result ≡ is_closed (Some status) }
{
    match status {
        Status::Committed => true,
        Status::Aborted => true,
        Status::Open => false,
        Status::Committing => false,
        Status::Aborting => false,
    }
}
