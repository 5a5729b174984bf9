//! The boards and what is asked of them.
ghost use Rattle.std.specs.Prelude.{◌≡◌, ◌<◌, [], ◌∷◌, length};
ghost use Rattle.txn_board.specs.Rows.{IsOfPart, opening_view};
ghost use Rattle.txn_board_tests.specs.Sure.{Rests};

use std::alloc::{AllocError, Global};
use std::marker::Brand;
use txn_base::{CoreEntry, Decision, Status, TxnId};
use txn_board::{Board, BoardSeat, Naming, Opened, OwnStart, Promise, Seats};
use txn_core::Skeletons;

/// What a disk that tells nothing promises: each call of a board is then allowed, and its answers are as they are.
pub struct Untold;

impl Promise for Untold {
    ghost made = { ⊥ };
}

/// What was told in turn.
#[derive(Debug, Drop)]
pub struct Told {
    pub unborn: Option<Status>,
    pub begun: Option<Status>,
    pub stranger: bool,
    pub added: bool,
    pub early: Option<Decision>,
    pub decided: Option<Status>,
    pub unmarked: Result<(), u32>,
    pub marker: Option<Decision>,
    pub closing: Result<(), u32>,
    pub closed: Option<Status>,
    pub done: u64,
    pub earlier: Option<Status>,
    pub earlier_done: u64,
    pub past: Option<Status>,
}

/// A transaction is begun, gets its part, is decided, and its part ends it.
fn commit<N: Naming>(
    board: &Board<Untold, N>,
    coord: &mut BoardSeat<N>,
    part: &mut BoardSeat<N>,
    reader: &mut BoardSeat<N>,
    txn: u64,
) -> Told
    requires { txn < 1000 }
{
    let unborn = board.status(reader, txn);
    board.start_own(coord, OwnStart::New { txn });
    board.settle_reg(coord, txn, 0);
    let begun = board.status(reader, txn);
    let stranger = board.start_in(part, txn, 1);
    board.start_own(coord, OwnStart::AddPart { txn, part: 1 });
    board.settle_reg(coord, txn, 1);
    let added = board.registered(reader, txn, 1) && board.start_in(part, txn, 1);
    board.settle_own(part);
    let early = board.start_marker(part, txn);
    board.start_own(
        coord,
        OwnStart::Decide {
            txn,
            decision: Decision::Commit,
        },
    );
    board.settle_dec(coord, txn, Decision::Commit);
    let decided = board.status(reader, txn);
    let unmarked = board.start_close(coord, txn);
    let marker = board.start_marker(part, txn);
    board.settle_done(part, txn);
    let closing = board.start_close(coord, txn);
    board.settle_done(coord, txn);
    let closed = board.status(reader, txn);
    let done = board.done(reader, txn);
    let earlier = board.status(reader, 0);
    let earlier_done = board.done(reader, 0);
    let past = board.status(reader, txn + 65_536);
    Told {
        unborn,
        begun,
        stranger,
        added,
        early,
        decided,
        unmarked,
        marker,
        closing,
        closed,
        done,
        earlier,
        earlier_done,
        past,
    }
}

/// The seats of the two parts.
pub fn deal_parts<N: Naming>(
    board: &Board<Untold, N>,
    seats: &mut Seats<N>,
) -> (BoardSeat<N>, BoardSeat<N>)
    requires all { seats.old ≡ opening_view N.lists }
    requires two { length N.lists ≡ 2 }
    ensures coord { IsOfPart 0 result.0 }
    ensures part { IsOfPart 1 result.1 }
    ensures rest { seats.new.rows ≡ [] }
{
    let coord = board.deal(seats);
    let part = board.deal(seats);
    (coord, part)
}

/// The seats of the two parts of empty lists.
pub fn deal_empty<T: Promise, N: Naming>(
    board: &Board<T, N>,
    seats: &mut Seats<N>,
) -> (BoardSeat<N>, BoardSeat<N>)
    requires all { seats.old ≡ opening_view N.lists }
    requires lists { N.lists ≡ [] ∷ [] ∷ [] }
    ensures coord { Rests 0 [] result.0 }
    ensures part { Rests 1 [] result.1 }
    ensures rest { seats.new.rows ≡ [] }
{
    let coord = board.deal(seats);
    let part = board.deal(seats);
    (coord, part)
}

/// Another seat of a reader.
pub fn split<N: Naming>(board: &Board<Untold, N>, seat: &mut BoardSeat<N>) -> BoardSeat<N>
    requires { seat.old.rows ≡ [] }
    ensures { seat.new.rows ≡ [] }
{
    board.split(seat)
}

/// Deals the seats of a board of one part beside the coordinator, and commits a transaction.
fn with_board<N: Naming>(opened: Opened<Untold>, txn: u64) -> Told
    requires table { opened.table.shared.table_id ≡ N.table }
    requires lists { opened.table.shared.key ≡ N.lists }
    requires two { length N.lists ≡ 2 }
    requires small { txn < 1000 }
{
    let (board, mut seats) = opened.named::<N>();
    let (mut coord, mut part) = deal_parts(&board, &mut seats);
    let mut reader = seats.readers();
    commit(&board, &mut coord, &mut part, &mut reader, txn)
}

/// A board of empty lists, and its first transaction.
pub fn open_board(alloc: Global) -> Result<Told, AllocError> {
    let lists = Skeletons::new(alloc, 1)?;
    let opened = Opened::<Untold>::of_lists(alloc, &lists)?;
    Ok(with_board::<Brand>(opened, 0))
}

/// A board whose log has a closed transaction, so that the next one is the first of the window.
pub fn closed_board(alloc: Global) -> Result<Told, AllocError> {
    let txn = TxnId { most: 0, least: 0 };
    let mut lists = Skeletons::new(alloc, 1)?;
    lists.push(0, CoreEntry::New { txn })?;
    lists.push(0, CoreEntry::AddPart { txn, part: 1 })?;
    lists.push(0, CoreEntry::Aborting { txn })?;
    lists.push(
        1,
        CoreEntry::Marker {
            txn,
            decision: Decision::Abort,
        },
    )?;
    lists.push(0, CoreEntry::Aborted { txn })?;
    let opened = Opened::<Untold>::of_lists(alloc, &lists)?;
    Ok(with_board::<Brand>(opened, 1))
}
