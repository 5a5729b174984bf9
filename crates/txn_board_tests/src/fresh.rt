//! Seats that make one call, or that ask one thing.
ghost use Rattle.std.specs.Prelude.{◌≡◌, length};

use crate::story::{Untold, deal_parts, split};
use std::alloc::{AllocError, Global};
use std::marker::Brand;
use txn_base::{Decision, Status};
use txn_board::{Board, BoardSeat, Naming, Opened, OwnStart};
use txn_core::Skeletons;

/// What seats were told at the first call of each, of a transaction that the coordinator's seat had decided: a part, and once
/// the transaction was closed four readers.
#[derive(Debug, Drop)]
pub struct Fresh {
    pub inside: Option<bool>,
    pub marker: Option<Decision>,
    pub status: Option<Status>,
    pub decision: Option<Decision>,
    pub registered: bool,
    pub done: u64,
}

/// What four readers were told, each of one thing alone: right before an entry settled, and right after. They are asked of the
/// part, of the decision, of the marker, and of the closing.
#[derive(Debug, Drop)]
pub struct Turned {
    pub stranger: bool,
    pub added: bool,
    pub undecided: Option<Decision>,
    pub decided: Option<Decision>,
    pub unmarked: u64,
    pub marked: u64,
    pub unclosed: u64,
    pub closed: u64,
}

/// The coordinator begins a transaction and gives it the part.
fn begin<N: Naming>(board: &Board<Untold, N>, coord: &mut BoardSeat<N>) {
    board.start_own(coord, OwnStart::New { txn: 0 });
    board.settle_reg(coord, 0, 0);
    board.start_own(coord, OwnStart::AddPart { txn: 0, part: 1 });
    board.settle_reg(coord, 0, 1);
}

/// The coordinator decides it.
fn decide<N: Naming>(board: &Board<Untold, N>, coord: &mut BoardSeat<N>) {
    let decision = Decision::Commit;
    board.start_own(coord, OwnStart::Decide { txn: 0, decision });
    board.settle_dec(coord, 0, decision);
}

/// The part's first call is the start of a message, or that of the marker; then the transaction is closed, and each reader
/// asks once.
fn ask_fresh<N: Naming>(opened: Opened<Untold>, message: bool) -> Fresh
    requires table { opened.table.shared.table_id ≡ N.table }
    requires lists { opened.table.shared.key ≡ N.lists }
    requires two { length N.lists ≡ 2 }
{
    let (board, mut seats) = opened.named::<N>();
    let (mut coord, mut part) = deal_parts(&board, &mut seats);
    let mut first = seats.readers();
    begin(&board, &mut coord);
    decide(&board, &mut coord);
    let mut inside = None;
    if message {
        inside = Some(board.start_in(&mut part, 0, 1));
        board.settle_own(&mut part);
    }
    let marker = board.start_marker(&mut part, 0);
    board.settle_done(&mut part, 0);
    let _ = board.start_close(&mut coord, 0);
    board.settle_done(&mut coord, 0);
    let mut second = split(&board, &mut first);
    let mut third = split(&board, &mut first);
    let mut fourth = split(&board, &mut first);
    Fresh {
        inside,
        marker,
        status: board.status(&mut first, 0),
        decision: board.decision(&mut second, 0),
        registered: board.registered(&mut third, 0, 1),
        done: board.done(&mut fourth, 0),
    }
}

/// Whether the part is one of the transaction's, by a reader that asks nothing else, before it settles and after.
fn turn_part<N: Naming>(
    board: &Board<Untold, N>,
    coord: &mut BoardSeat<N>,
    reader: &mut BoardSeat<N>,
) -> (bool, bool) {
    board.start_own(coord, OwnStart::New { txn: 0 });
    board.settle_reg(coord, 0, 0);
    board.start_own(coord, OwnStart::AddPart { txn: 0, part: 1 });
    let stranger = board.registered(reader, 0, 1);
    board.settle_reg(coord, 0, 1);
    (stranger, board.registered(reader, 0, 1))
}

/// The same of the decision.
fn turn_decision<N: Naming>(
    board: &Board<Untold, N>,
    coord: &mut BoardSeat<N>,
    reader: &mut BoardSeat<N>,
) -> (Option<Decision>, Option<Decision>) {
    let decision = Decision::Commit;
    board.start_own(coord, OwnStart::Decide { txn: 0, decision });
    let undecided = board.decision(reader, 0);
    board.settle_dec(coord, 0, decision);
    (undecided, board.decision(reader, 0))
}

/// The same of what is done, where the marker of a part settles that started, or the coordinator's closing.
fn turn_done<N: Naming>(
    board: &Board<Untold, N>,
    seat: &mut BoardSeat<N>,
    reader: &mut BoardSeat<N>,
) -> (u64, u64) {
    let before = board.done(reader, 0);
    board.settle_done(seat, 0);
    (before, board.done(reader, 0))
}

fn ask_turned<N: Naming>(opened: Opened<Untold>) -> Turned
    requires table { opened.table.shared.table_id ≡ N.table }
    requires lists { opened.table.shared.key ≡ N.lists }
    requires two { length N.lists ≡ 2 }
{
    let (board, mut seats) = opened.named::<N>();
    let (mut coord, mut part) = deal_parts(&board, &mut seats);
    let mut first = seats.readers();
    let mut second = split(&board, &mut first);
    let mut third = split(&board, &mut first);
    let mut fourth = split(&board, &mut first);
    let (stranger, added) = turn_part(&board, &mut coord, &mut first);
    let (undecided, decided) = turn_decision(&board, &mut coord, &mut second);
    let _ = board.start_marker(&mut part, 0);
    let (unmarked, marked) = turn_done(&board, &mut part, &mut third);
    let _ = board.start_close(&mut coord, 0);
    let (unclosed, closed) = turn_done(&board, &mut coord, &mut fourth);
    Turned {
        stranger,
        added,
        undecided,
        decided,
        unmarked,
        marked,
        unclosed,
        closed,
    }
}

/// A board of empty lists, whose first transaction gets its part and its decision by the coordinator's calls.
pub fn fresh_seats(alloc: Global, message: bool) -> Result<Fresh, AllocError> {
    let lists = Skeletons::new(alloc, 1)?;
    let opened = Opened::<Untold>::of_lists(alloc, &lists)?;
    Ok(ask_fresh::<Brand>(opened, message))
}

/// A board of empty lists, whose first transaction goes from its beginning to its close.
pub fn turned_answers(alloc: Global) -> Result<Turned, AllocError> {
    let lists = Skeletons::new(alloc, 1)?;
    let opened = Opened::<Untold>::of_lists(alloc, &lists)?;
    Ok(ask_turned::<Brand>(opened))
}
