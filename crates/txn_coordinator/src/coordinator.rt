//! The coordinator: a log of entries, and the table that was rebuilt from it.
ghost use Rattle.std.specs.Prelude.{◌≡◌, ◌≤◌, ◌↔◌, ℕ, List, length, All, IsTrue, IfOk, if◌then◌else◌};
ghost use Rattle.std.specs.Int.{bit_at};
ghost use Rattle.txn_base.specs.Content.{settled};
ghost use Rattle.txn_base.specs.Limits.{InRange};
ghost use Rattle.txn_base.specs.Records.{IsCoordEntry};
ghost use Rattle.txn_model.specs.Skeletons.{coord_skeletons};
ghost use Rattle.txn_model.specs.Coord.{CoordLawful, count_new, status_of, in_parts, decision_of};
ghost use Rattle.txn_model.specs.Deadlines.{low_of, first_undriven};
ghost use Rattle.txn_coordinator.specs.View.{coord_total, state_of, first_view};

use crate::log_entry::RECORD;
use crate::replay::NamedTable;
use std::alloc::{AllocError, Global};
use std::marker::Model;
use txn_base::{Bytes, Decision, Limits, PartState, Status, TxnId};
use txn_ledger::RecordLog;
use txn_table::Table;

mod changes;
mod mend;
mod refusals;

/// Gives numbers to transactions, adds parts to them, and decides how they end. It keeps a log, and beside it the table
/// that was rebuilt from the log's records or changed with each one that was added since.
#[derive(Drop)]
pub struct Coordinator<R: RecordLog> {
    alloc: Global,
    log: R,
    rebuilt: NamedTable,
    /// Room for the record that is on its way to the log.
    bytes: Bytes,
    limits: Limits,
    /// How many records the table stands for.
    at: u64,
    /// These are all of the log's.
    whole: bool,
    /// There is room for a close.
    reserved: bool,
    /// The low watermark when it was whole for the first time.
    opened_low: u64,
    was_whole: bool,
}

impl<R: RecordLog> Model for Coordinator<R> {
    ghost use Rattle.txn_coordinator.specs.View.{CoordView, CoordinatorInvariant};

    ghost Value = { CoordView };

    ghost use Rattle.std.specs.Prelude.{if◌then◌else◌};
    ghost use Rattle.txn_base.specs.Room.{capacity};

    ghost view = { λ c. record { content = R.content c.log; front = c.rebuilt.table.front; whole = c.whole; reserved = if c.reserved then 1 else 0; opened_low = c.opened_low; was_whole = c.was_whole; limits = c.limits; named = c.rebuilt.named } };

    ghost invariant = { λ c. CoordinatorInvariant c.rebuilt.named (R.content c.log) c.rebuilt.table.front c.at c.whole c.was_whole c.reserved (R.spare c.log) (R.room c.log) (capacity c.bytes) };
}

impl<R: RecordLog + Drop> Coordinator<R> {
    /// A coordinator of whose log nothing was replayed yet, where each part from 1 to 62 may have a name.
    pub fn over(alloc: Global, log: R, limits: &Limits) -> Result<Coordinator<R>, AllocError>
        requires { InRange limits.now }
        ensures { IfOk result (λ c. c ≡ first_view 62 (R.content log) limits.now) }
    {
        Self::over_named(alloc, log, limits, 62)
    }

    /// The same where the parts from 1 to `named` have a name, which is at most 62.
    pub fn over_named(
        alloc: Global,
        log: R,
        limits: &Limits,
        named: u32,
    ) -> Result<Coordinator<R>, AllocError>
        requires limits { InRange limits.now }
        requires named { named ≤ 62 }
        ensures { IfOk result (λ c. c ≡ first_view named (R.content log) limits.now) }
    {
        let mut bytes = Bytes::new(alloc);
        bytes.reserve(RECORD)?;
        Ok(Coordinator {
            alloc,
            log,
            rebuilt: NamedTable {
                table: Table::new(alloc),
                named,
            },
            bytes,
            limits: *limits,
            at: 0,
            whole: false,
            reserved: false,
            opened_low: 0,
            was_whole: false,
        })
    }
}

impl<R: RecordLog> Coordinator<R> {
    /// How far a transaction is. None where there is no such transaction.
    pub fn status(&self, txn: TxnId) -> Option<Status>
        ensures { result ≡ status_of (coord_skeletons self.now.front) txn }
    {
        self.rebuilt.table.status(txn)
    }

    /// The parts of a transaction: bit p stands for part p.
    pub fn parts(&self, txn: TxnId) -> u64
        ensures { (p : ℕ) → bit_at result p ≡ (if in_parts
            (coord_skeletons self.now.front) txn p then 1 else 0) }
    {
        self.rebuilt.table.parts(txn)
    }

    /// How a transaction is to end, if that is decided.
    pub fn decision(&self, txn: TxnId) -> Option<Decision>
        ensures { result ≡ decision_of (coord_skeletons self.now.front) txn }
    {
        self.rebuilt.table.decision(txn)
    }

    /// The least numbered transaction that is decided and not closed.
    pub fn first_undriven(&self) -> Option<TxnId>
        ensures { result ≡ first_undriven self.now.front }
    {
        self.rebuilt.table.first_undriven()
    }

    /// How many transactions were begun.
    pub fn count(&self) -> u64
        ensures { result ≡ count_new (coord_skeletons self.now.front) }
    {
        self.rebuilt.table.count()
    }

    /// The low watermark: the least number of a transaction that isn't closed, or their count.
    pub fn low(&self) -> u64
        ensures { result ≡ low_of self.now.front }
    {
        self.rebuilt.table.low()
    }

    /// The number of records in its log.
    pub fn len(&self) -> u64
        ensures { result ≡ coord_total self.now }
    {
        self.log.len()
    }

    /// The log holds no batch of which nobody knows whether it stands there.
    pub fn is_settled(&self) -> bool
        ensures { IsTrue result ↔ (self.now.content.standing ≡ settled) }
    {
        self.log.is_settled()
    }

    /// How far it is.
    pub fn state(&self) -> PartState
        ensures state { result ≡ state_of self.now }
        ensures entries { All IsCoordEntry self.now.front }
        ensures lawful { CoordLawful self.now.named (coord_skeletons self.now.front) }
        ensures within { length self.now.front ≤ coord_total self.now }
        ensures whole { IsTrue self.now.whole → length self.now.front ≡ coord_total self.now }
        ensures settled { IsTrue self.now.whole → self.now.content.standing ≡ settled }
        ensures opened { IsTrue self.now.whole → IsTrue self.now.was_whole }
        ensures reserved { self.now.reserved ≤ 1 }
        ensures named { self.now.named ≤ 62 }
    {
        let _count = self.rebuilt.table.count();
        if self.whole {
            return PartState::Whole;
        }
        PartState::Mending {
            at: self.at,
            total: self.log.len(),
        }
    }
}
