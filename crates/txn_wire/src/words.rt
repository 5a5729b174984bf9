//! The words of a decision, a status, why a drive stopped, and what is full.
ghost use Rattle.std.specs.Prelude.{◌≡◌};
ghost use Rattle.txn_wire.specs.Replies.{decision_word, status_word, why_word, what_word};

use txn_base::{Decision, Status, What, Why};

pub(crate) fn decision_word(decision: Decision) -> &'static str
    ensures { result.now ≡ decision_word decision }
{
    match decision {
        Decision::Commit => "commit",
        Decision::Abort => "abort",
    }
}

pub(crate) fn status_word(status: Status) -> &'static str
    ensures { result.now ≡ status_word status }
{
    match status {
        Status::Open => "open",
        Status::Committing => "committing",
        Status::Committed => "committed",
        Status::Aborting => "aborting",
        Status::Aborted => "aborted",
    }
}

pub(crate) fn why_word(why: Why) -> &'static str
    ensures { result.now ≡ why_word why }
{
    match why {
        Why::Fault => "fault",
        Why::Recovering => "recovering",
        Why::Memory => "memory",
    }
}

pub(crate) fn what_word(what: What) -> &'static str
    ensures { result.now ≡ what_word what }
{
    match what {
        What::Transactions => "transactions",
        What::Log => "log",
        What::Held => "held",
    }
}
