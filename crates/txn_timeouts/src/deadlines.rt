//! Deadlines in a queue, the earliest first.
ghost use Rattle.std.specs.Prelude.{true, false, ◌≡◌, ◌<◌, ◌≤◌, ◌+◌, ℕ, [], ◌∷◌, length, Contains, IsPermutation, OnOk, OnErr, IfOk, IfErr, count_by};
ghost use Rattle.txn_timeouts.specs.Due.{IsAt, IsWith, IsGapFor, IsInOrder, IsFirstDue, is_due};

use std::alloc::{AllocError, Global};
use std::collections::VecDeque;
use std::marker::Model;

/// The deadlines of transactions of one coordinator, in milliseconds, each with the transaction's number there. Where one
/// stands is found by halving; the deadlines of the nearer end move one place when one comes or goes.
#[derive(Drop)]
pub struct Deadlines {
    items: VecDeque<(u64, u64)>,
}

impl Model for Deadlines {
    ghost use Rattle.std.specs.Prelude.{◌-◌};
    ghost use Rattle.std.specs.VecDeque.{deque_len, deque_capacity};
    ghost use Rattle.txn_timeouts.specs.Due.{DeadlinesView, IsInOrder};

    ghost Value = { DeadlinesView };

    ghost view = { λ d. record { items = d.items.items; room = deque_capacity d.items - deque_len d.items } };

    ghost invariant = { λ d. IsInOrder d.items.items };
}

impl Deadlines {
    /// No deadlines. It takes no memory.
    pub fn new(alloc: Global) -> Deadlines
        ensures { result.items ≡ [] }
    {
        Deadlines {
            items: VecDeque::new(alloc),
        }
    }

    /// Forgets all of them. It takes no memory.
    pub fn clear(&mut self)
        ensures items { self.new.items ≡ [] }
        ensures room { self.old.room ≤ self.new.room }
    {
        self.items.clear();
    }

    /// Takes room for so many more.
    pub fn reserve(&mut self, more: usize) -> Result<(), AllocError>
        ensures items { self.new.items ≡ self.old.items }
        ensures ok { OnOk result (more ≤ self.new.room) }
        ensures err { OnErr result (self.old.room < more) }
        ensures room { self.old.room ≤ self.new.room }
    {
        self.items.reserve(more)
    }

    /// Adds the deadline of a transaction, and takes memory for it where there is no room.
    pub fn add(&mut self, deadline: u64, number: u64) -> Result<(), AllocError>
        requires fresh { Contains self.old.items (deadline, number) → ⊥ }
        ensures ok { OnOk result (IsWith (deadline, number) self.old.items self.new.items) }
        ensures err { OnErr result (self.new.items ≡ self.old.items) }
        ensures full { OnErr result (self.old.room ≡ 0) }
    {
        self.reserve(1)?;
        self.put(deadline, number);
        Ok(())
    }

    /// Adds the deadline of a transaction in room that is there. It takes no memory.
    pub fn put(&mut self, deadline: u64, number: u64)
        requires room { 0 < self.old.room }
        requires fresh { Contains self.old.items (deadline, number) → ⊥ }
        ensures items { IsWith (deadline, number) self.old.items self.new.items }
        ensures room { self.old.room ≤ self.new.room + 1 }
    {
        let at = match self.search(deadline, number) {
            Ok(at) => at,
            Err(at) => at,
        };
        let _ = self.items.insert(at, (deadline, number));
    }

    /// Takes the deadline of a transaction out. It takes no memory.
    pub fn drop_txn(&mut self, deadline: u64, number: u64)
        requires { Contains self.old.items (deadline, number) }
        ensures items { IsPermutation self.old.items ((deadline, number) ∷ self.new.items) }
        ensures room { self.new.room ≡ self.old.room + 1 }
    {
        if let Ok(at) = self.search(deadline, number) {
            let _ = self.items.remove(at);
        }
    }

    /// Whether this deadline of this transaction is there.
    pub fn contains(&self, deadline: u64, number: u64) -> bool
        ensures there { result ≡ true → Contains self.now.items (deadline, number) }
        ensures absent { result ≡ false → Contains self.now.items (deadline, number) → ⊥ }
    {
        match self.search(deadline, number) {
            Ok(_) => true,
            Err(_) => false,
        }
    }

    // Where a deadline stands, or where it would go.
    fn search(&self, deadline: u64, number: u64) -> Result<usize, usize>
        ensures found { IfOk result (IsAt self.now.items (deadline, number)) }
        ensures absent { IfErr result (IsGapFor self.now.items (deadline, number)) }
    {
        self.items.binary_search(&(deadline, number))
    }

    /// The number of the transaction with the least deadline that is at most this moment, and of these the least number.
    pub fn first_due(&self, now: u64) -> Option<u64>
        ensures { IsFirstDue now self.now.items result }
    {
        let (deadline, number) = *self.items.front()?;
        if deadline <= now { Some(number) } else { None }
    }

    /// How many deadlines are at most this moment.
    pub fn due_count(&self, now: u64) -> usize
        ensures { result ≡ count_by (is_due now) self.now.items }
    {
        self.items.partition_point(
            |item: &(u64, u64)| -> bool
                ensures { result ≡ is_due now item.now }
            { item.0 <= now },
        )
    }

    /// How many deadlines there are.
    pub fn len(&self) -> usize
        ensures len { result ≡ length self.now.items }
        ensures order { IsInOrder self.now.items }
    {
        self.items.len()
    }
}
