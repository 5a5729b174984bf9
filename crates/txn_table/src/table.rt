//! The transactions of a coordinator's entries, by number.
ghost use Rattle.std.specs.Prelude.{◌≡◌, ◌≤◌, ◌<◌, ◌+◌, ◌^◌, ℕ, [], ◌∷◌, ◌++◌, true, count_by, OnOk};
ghost use Rattle.txn_base.specs.Records.{IsCoordEntry};
ghost use Rattle.txn_model.specs.Skeletons.{coord_skeletons};
ghost use Rattle.txn_model.specs.Coord.{count_new, status_of, in_parts, decision_of};
ghost use Rattle.txn_model.specs.Deadlines.{transactions, low_of, first_undriven};
ghost use Rattle.txn_table.specs.Table.{IsRowOf, AreEntries, ArePartsOf, is_new_entry, is_undriven_in, may_follow};

use crate::decisions::decision_in;
use crate::row::{Row, passed, write_row};
use crate::undriven::keep_undriven;
use std::alloc::{AllocError, Global};
use std::collections::VecDeque;
use std::marker::Model;
use txn_base::{ContentCarrier, CoordEntry, Decision, FileId, ReadsContent, Status, TxnId};

/// The transactions of a coordinator's entries. The entries themselves are kept for clauses alone. What is asked of it is kept
/// with each entry and not searched: the low watermark, and the numbers of the transactions that are decided and not closed.
#[derive(Drop)]
pub struct Table {
    rows: Vec<Row>,
    low: usize,
    undriven: VecDeque<u64>,
    front: ContentCarrier,
}

impl Model for Table {
    ghost use Rattle.std.specs.Prelude.{vec_len, vec_capacity, ◌-◌, min};
    ghost use Rattle.std.specs.VecDeque.{deque_capacity};
    ghost use Rattle.txn_base.specs.Decoded.{coord_entries};
    ghost use Rattle.txn_table.specs.Table.{TableView, Keeps};

    ghost Value = { TableView };

    ghost view = { λ t. record { front = coord_entries t.front.content.batches; room = min (vec_capacity t.rows) (deque_capacity t.undriven) - vec_len t.rows } };

    ghost invariant = { λ t. Keeps t.rows.items t.low t.undriven.items (deque_capacity t.undriven) (coord_entries t.front.content.batches) };
}

/// The entry stands behind the others.
struct Added;

impl<'a, 'b> ReadsContent<(&'a ContentCarrier, &'b CoordEntry)> for Added {
    ghost use Rattle.std.specs.Prelude.{[], ◌∷◌};
    ghost use Rattle.txn_base.specs.Content.{landed};
    ghost use Rattle.txn_base.specs.Records.{coord_record};

    ghost content = { λ x. landed x.0.now.content (coord_record x.1.now ∷ []) };
}

impl Table {
    /// No transactions.
    pub fn new(alloc: Global) -> Table
        ensures { result.front ≡ [] }
    {
        Table {
            rows: Vec::new(alloc),
            low: 0,
            undriven: VecDeque::new(alloc),
            front: ContentCarrier::empty(FileId { part: 0, row: 0 }),
        }
    }

    /// Forgets all transactions.
    pub fn clear(&mut self)
        ensures { self.new.front ≡ [] }
    {
        self.rows.clear();
        self.low = 0;
        self.undriven.clear();
        self.front = ContentCarrier::empty(FileId { part: 0, row: 0 });
    }

    /// Makes room for so many transactions more.
    pub fn reserve(&mut self, count: usize) -> Result<(), AllocError>
        ensures front { self.new.front ≡ self.old.front }
        ensures room { OnOk result (count ≤ self.new.room) }
    {
        self.rows.reserve(count)?;
        let wanted = self.rows.len() + count;
        self.undriven
            .reserve(wanted.saturating_sub(self.undriven.len()))
    }

    /// The row of a transaction.
    pub fn row(&self, txn: TxnId) -> Option<Row>
        ensures { IsRowOf self.now.front txn result }
    {
        let rows = self.rows.as_slice();
        if txn.most > 0 || txn.least >= rows.len() as u64 {
            return None;
        }
        Some(rows[txn.least as usize])
    }

    /// How far a transaction is. None where there is no such transaction.
    pub fn status(&self, txn: TxnId) -> Option<Status>
        ensures { result ≡ status_of (coord_skeletons self.now.front) txn }
    {
        let row = self.row(txn)?;
        Some(row.status)
    }

    /// The parts of a transaction: bit p stands for part p.
    pub fn parts(&self, txn: TxnId) -> u64
        ensures { ArePartsOf self.now.front txn result }
    {
        match self.row(txn) {
            Some(row) => row.parts,
            None => 0,
        }
    }

    /// How many transactions were begun.
    pub fn count(&self) -> u64
        ensures count { result ≡ count_new (coord_skeletons self.now.front) }
        ensures few { result < 2 ^ 63 }
        ensures kept { AreEntries self.now.front }
    {
        self.rows.len() as u64
    }

    /// Whether a transaction has this part.
    pub fn has_part(&self, txn: TxnId, part: u32) -> bool
        requires { part < 64 }
        ensures { result ≡ in_parts (coord_skeletons self.now.front) txn part }
    {
        let parts = self.parts(txn);
        (parts >> part) & 1 == 1
    }

    /// How a transaction is to end, if that is decided.
    pub fn decision(&self, txn: TxnId) -> Option<Decision>
        ensures { result ≡ decision_of (coord_skeletons self.now.front) txn }
    {
        let _ = &self.rows;
        decision_in(self.status(txn))
    }

    /// The low watermark.
    pub fn low(&self) -> u64
        ensures { result ≡ low_of self.now.front }
    {
        self.low as u64
    }

    /// The least numbered transaction that is decided and not closed.
    pub fn first_undriven(&self) -> Option<TxnId>
        ensures { result ≡ first_undriven self.now.front }
    {
        let number = *self.undriven.front()?;
        Some(TxnId {
            most: 0,
            least: number,
        })
    }

    /// How many transactions are decided and not closed.
    pub fn undriven_count(&self) -> u64
        ensures { result ≡ count_by (is_undriven_in self.now.front) (transactions self.now.front) }
    {
        self.undriven.len() as u64
    }

    /// Adds an entry. It takes no memory.
    pub fn apply(&mut self, entry: CoordEntry)
        requires fits { IsCoordEntry entry }
        requires allowed { may_follow 62 self.old.front entry ≡ true }
        requires room { is_new_entry entry ≡ true → 1 ≤ self.old.room }
        ensures front { self.new.front ≡ self.old.front ++ entry ∷ [] }
        ensures room { self.old.room ≤ self.new.room + 1 }
    {
        keep_undriven(&mut self.undriven, &entry);
        write_row(&mut self.rows, &entry);
        self.low = passed(self.rows.as_slice(), self.low);
        self.front = ContentCarrier::of::<(&ContentCarrier, &CoordEntry), Added>(&(
            &self.front,
            &entry,
        ));
    }
}
