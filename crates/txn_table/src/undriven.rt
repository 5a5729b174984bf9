//! The numbers of the transactions that are decided and not closed, in order.
ghost use Rattle.std.specs.Prelude.{◌≡◌, ◌<◌, ◌≤◌, length, Contains, IfOk, IfErr};
ghost use Rattle.std.specs.VecDeque.{deque_capacity};
ghost use Rattle.txn_table.specs.Table.{IsGap, IsKept, IsPlace, IsPut, IsReady, IsTaken, Rises};

use std::collections::VecDeque;
use txn_base::CoordEntry;

/// Keeps the numbers with one entry more: a decision puts the number of its transaction, and a closing takes it out.
pub fn keep_undriven(numbers: &mut VecDeque<u64>, entry: &CoordEntry)
    requires order { Rises numbers.old.items }
    requires ready { IsReady entry.now numbers.old.items (deque_capacity numbers.old) }
    ensures numbers { IsKept entry.now numbers.old.items numbers.new.items }
    ensures capacity { deque_capacity numbers.old ≤ deque_capacity numbers.new }
{
    match entry {
        CoordEntry::New { .. } => {}
        CoordEntry::AddPart { .. } => {}
        CoordEntry::Committing { txn } => put(numbers, txn.least),
        CoordEntry::Committed { txn } => take(numbers, txn.least),
        CoordEntry::Aborting { txn } => put(numbers, txn.least),
        CoordEntry::Aborted { txn } => take(numbers, txn.least),
    }
}

/// Puts a number where it belongs, in room that is there.
fn put(numbers: &mut VecDeque<u64>, number: u64)
    requires order { Rises numbers.old.items }
    requires fresh { Contains numbers.old.items number → ⊥ }
    requires room { length numbers.old.items < deque_capacity numbers.old }
    ensures numbers { IsPut number numbers.old.items numbers.new.items }
    ensures capacity { deque_capacity numbers.old ≤ deque_capacity numbers.new }
{
    if let Err(at) = search(numbers, number) {
        let _ = numbers.insert(at, number);
    }
}

/// Takes a number out.
fn take(numbers: &mut VecDeque<u64>, number: u64)
    requires order { Rises numbers.old.items }
    requires there { Contains numbers.old.items number }
    ensures numbers { IsTaken number numbers.old.items numbers.new.items }
    ensures capacity { deque_capacity numbers.old ≤ deque_capacity numbers.new }
{
    if let Ok(at) = search(numbers, number) {
        let _ = numbers.remove(at);
    }
}

/// Where a number stands, or where it would go.
fn search(numbers: &VecDeque<u64>, number: u64) -> Result<usize, usize>
    requires { Rises numbers.now.items }
    ensures found { IfOk result (IsPlace numbers.now.items number) }
    ensures absent { IfErr result (IsGap numbers.now.items number) }
{
    numbers.binary_search(&number)
}
