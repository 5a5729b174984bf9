//! What a coordinator refuses, but for want of memory or a fault.
ghost use Rattle.std.specs.Prelude.{◌≡◌, ◌≤◌, ◌<◌, IfNone};
ghost use Rattle.txn_model.specs.LateRows.{opposes};
ghost use Rattle.txn_coordinator.specs.Calls.{begin_refusal, window_refusal, log_refusal, add_refusal, decide_refusal};

use crate::coordinator::Coordinator;
use crate::error::CoordError;
use txn_base::{Decision, Status, TxnId, What};
use txn_ledger::RecordLog;

impl<R: RecordLog> Coordinator<R> {
    /// Why no transaction can be begun now.
    pub(crate) fn begin_refusal(&self, timeout: u64) -> Option<CoordError>
        ensures refusal { result ≡ begin_refusal self.now timeout }
        ensures timeout { IfNone result (timeout ≤ 86400000) }
    {
        if timeout < 1 || 86_400_000 < timeout {
            return Some(CoordError::BadTimeout);
        }
        self.window_refusal().or(self.log_refusal())
    }

    /// The refusal where there are as many transactions since the opening as the window has room for.
    fn window_refusal(&self) -> Option<CoordError>
        ensures { result ≡ window_refusal self.now }
    {
        let count = self.rebuilt.table.count().saturating_sub(self.opened_low);
        if self.limits.window <= count {
            return Some(CoordError::Full {
                what: What::Transactions,
                count,
            });
        }
        None
    }

    /// The refusal where the log has no room for what clients add.
    fn log_refusal(&self) -> Option<CoordError>
        ensures { result ≡ log_refusal self.now }
    {
        let count = self.log.len();
        if self.limits.log <= count {
            return Some(CoordError::Full {
                what: What::Log,
                count,
            });
        }
        None
    }

    /// Why a part can't be added.
    pub(crate) fn add_refusal(&self, txn: TxnId, part: u32) -> Option<CoordError>
        requires { part < 64 }
        ensures { result ≡ add_refusal self.now txn part }
    {
        match self.rebuilt.table.status(txn) {
            None => Some(CoordError::NotFound),
            Some(Status::Open) => {
                if self.rebuilt.table.has_part(txn, part) {
                    return None;
                }
                self.log_refusal()
            }
            Some(status) => Some(CoordError::NotOpen { status }),
        }
    }

    /// Why a transaction can't be decided so.
    pub(crate) fn decide_refusal(&self, txn: TxnId, decision: Decision) -> Option<CoordError>
        ensures { result ≡ decide_refusal self.now txn decision }
    {
        match self.rebuilt.table.status(txn) {
            None => Some(CoordError::NotFound),
            Some(status) => {
                if opposes(decision, status) {
                    return Some(CoordError::NotOpen { status });
                }
                None
            }
        }
    }
}

/// A status that forbids this end.
fn opposes(decision: Decision, status: Status) -> bool
    ensures { result ≡ opposes decision status }
{
    match (decision, status) {
        (Decision::Commit, Status::Aborting) => true,
        (Decision::Commit, Status::Aborted) => true,
        (Decision::Abort, Status::Committing) => true,
        (Decision::Abort, Status::Committed) => true,
        (_, _) => false,
    }
}
