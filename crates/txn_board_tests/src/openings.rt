//! Boards of lists at the bounds.
ghost use Rattle.std.specs.Prelude.{◌≡◌, ◌≤◌, ◌<◌, [], length};
ghost use Rattle.txn_board.specs.Rows.{opening_view};

use crate::story::Untold;
use std::alloc::{AllocError, Global};
use std::marker::Brand;
use txn_base::{CoreEntry, Decision, Status, TxnId};
use txn_board::{Board, BoardSeat, Naming, Opened, Seats};
use txn_core::Skeletons;

/// What a board told right after it was opened: statuses of transactions by their number, whether part 62 is one of the first
/// one's, and which of its parts are done.
#[derive(Debug, Drop)]
pub struct Found {
    pub first: Option<Status>,
    pub third: Option<Status>,
    pub fourth: Option<Status>,
    pub last: Option<Status>,
    pub past: Option<Status>,
    pub part: bool,
    pub done: u64,
}

fn numbered(least: u64) -> TxnId {
    TxnId { most: 0, least }
}

/// An entry more in the list of a part.
fn add(lists: &mut Skeletons, part: u32, entry: CoreEntry) -> Result<(), AllocError>
    requires { part < length lists.old }
    ensures { length lists.new ≡ length lists.old }
{
    lists.push(part, entry)
}

/// A transaction is begun, gets a part, is committed, and the part ends it.
fn end(lists: &mut Skeletons, txn: u64, part: u32) -> Result<(), AllocError>
    requires log { 0 < length lists.old }
    requires part { part < length lists.old }
    ensures { length lists.new ≡ length lists.old }
{
    let txn = numbered(txn);
    add(lists, 0, CoreEntry::New { txn })?;
    add(lists, 0, CoreEntry::AddPart { txn, part })?;
    add(lists, 0, CoreEntry::Committing { txn })?;
    let decision = Decision::Commit;
    add(lists, part, CoreEntry::Marker { txn, decision })
}

/// So many transactions are begun.
fn begin(lists: &mut Skeletons, count: u64) -> Result<(), AllocError>
    requires { 0 < length lists.old }
    ensures { length lists.new ≡ length lists.old }
{
    for txn in 0..count {
        let txn = numbered(txn);
        add(lists, 0, CoreEntry::New { txn })?;
    }
    Ok(())
}

/// The seat of the coordinator.
fn deal_first<N: Naming>(board: &Board<Untold, N>, seats: &mut Seats<N>) -> BoardSeat<N>
    requires all { seats.old ≡ opening_view N.lists }
    requires log { 0 < length N.lists }
{
    board.deal(seats)
}

fn ask<N: Naming>(opened: Opened<Untold>) -> Found
    requires table { opened.table.shared.table_id ≡ N.table }
    requires lists { opened.table.shared.key ≡ N.lists }
    requires log { 0 < length N.lists }
{
    let (board, mut seats) = opened.named::<N>();
    let mut seat = deal_first(&board, &mut seats);
    Found {
        first: board.status(&mut seat, 0),
        third: board.status(&mut seat, 2),
        fourth: board.status(&mut seat, 3),
        last: board.status(&mut seat, 65_535),
        past: board.status(&mut seat, 65_536),
        part: board.registered(&mut seat, 0, 62),
        done: board.done(&mut seat, 0),
    }
}

/// A board of 63 lists, in the last of which the first transaction has its marker.
pub fn many_lists(alloc: Global) -> Result<Found, AllocError> {
    let mut lists = Skeletons::new(alloc, 62)?;
    end(&mut lists, 0, 62)?;
    let opened = Opened::<Untold>::of_lists(alloc, &lists)?;
    Ok(ask::<Brand>(opened))
}

/// A board whose first three transactions are closed, and the fourth is open.
pub fn low_three(alloc: Global) -> Result<Found, AllocError> {
    let mut lists = Skeletons::new(alloc, 1)?;
    end(&mut lists, 0, 1)?;
    end(&mut lists, 1, 1)?;
    end(&mut lists, 2, 1)?;
    add(&mut lists, 0, CoreEntry::Committed { txn: numbered(0) })?;
    add(&mut lists, 0, CoreEntry::Committed { txn: numbered(1) })?;
    add(&mut lists, 0, CoreEntry::Committed { txn: numbered(2) })?;
    add(&mut lists, 0, CoreEntry::New { txn: numbered(3) })?;
    let opened = Opened::<Untold>::of_lists(alloc, &lists)?;
    Ok(ask::<Brand>(opened))
}

/// A board whose window is full of open transactions.
pub fn full_window(alloc: Global) -> Result<Found, AllocError> {
    let mut lists = Skeletons::new(alloc, 1)?;
    begin(&mut lists, 65_536)?;
    let opened = Opened::<Untold>::of_lists(alloc, &lists)?;
    Ok(ask::<Brand>(opened))
}
