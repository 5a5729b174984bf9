//! A board that rests on no promise: each condition of its calls is shown.
ghost use Rattle.std.specs.Prelude.{◌≡◌, [], ◌∷◌, true, IfSome};
ghost use Rattle.txn_board_tests.specs.Sure.{decided_log, closed_log, sent, marked, Rests};

use crate::story::deal_empty;
use std::alloc::{AllocError, Global};
use std::marker::Brand;
use txn_base::Decision;
use txn_board::{Board, BoardSeat, Naming, Opened, OwnStart, Surely};
use txn_core::Skeletons;

/// The first transaction of empty lists is begun, gets its part and is decided.
fn decide<N: Naming>(board: &Board<Surely, N>, coord: &mut BoardSeat<N>)
    requires lists { N.lists ≡ [] ∷ [] ∷ [] }
    requires seat { Rests 0 [] coord.old }
    ensures { Rests 0 decided_log coord.new }
{
    board.start_own(coord, OwnStart::New { txn: 0 });
    board.settle_reg(coord, 0, 0);
    board.start_own(coord, OwnStart::AddPart { txn: 0, part: 1 });
    board.settle_reg(coord, 0, 1);
    board.start_own(
        coord,
        OwnStart::Decide {
            txn: 0,
            decision: Decision::Commit,
        },
    );
    board.settle_dec(coord, 0, Decision::Commit);
}

/// The part sends a message of it, which settles.
fn send<N: Naming>(board: &Board<Surely, N>, part: &mut BoardSeat<N>) -> bool
    requires lists { N.lists ≡ [] ∷ [] ∷ [] }
    requires seat { Rests 1 [] part.old }
    ensures { result ≡ true → Rests 1 sent part.new }
{
    if !board.start_in(part, 0, 1) {
        return false;
    }
    board.settle_own(part);
    true
}

/// One more is lost.
fn lose<N: Naming>(board: &Board<Surely, N>, part: &mut BoardSeat<N>) -> bool
    requires lists { N.lists ≡ [] ∷ [] ∷ [] }
    requires seat { Rests 1 sent part.old }
    ensures { result ≡ true → Rests 1 sent part.new }
{
    if !board.start_in(part, 0, 1) {
        return false;
    }
    board.drop_flight(part);
    true
}

/// The part ends it by the decision that it reads.
fn mark<N: Naming>(board: &Board<Surely, N>, part: &mut BoardSeat<N>) -> Option<Decision>
    requires lists { N.lists ≡ [] ∷ [] ∷ [] }
    requires seat { Rests 1 sent part.old }
    ensures { IfSome result (λ d. Rests 1 (marked d) part.new) }
{
    let decision = board.start_marker(part, 0)?;
    board.settle_done(part, 0);
    Some(decision)
}

/// The coordinator closes it, where its part has the marker.
fn close<N: Naming>(board: &Board<Surely, N>, coord: &mut BoardSeat<N>) -> bool
    requires lists { N.lists ≡ [] ∷ [] ∷ [] }
    requires seat { Rests 0 decided_log coord.old }
    ensures { result ≡ true → Rests 0 closed_log coord.new }
{
    if board.start_close(coord, 0).is_err() {
        return false;
    }
    board.settle_done(coord, 0);
    true
}

/// The rows of both close the board.
fn finish<N: Naming>(
    board: Board<Surely, N>,
    mut coord: BoardSeat<N>,
    part: BoardSeat<N>,
    decision: Decision,
)
    requires lists { N.lists ≡ [] ∷ [] ∷ [] }
    requires coord { Rests 0 closed_log coord }
    requires part { Rests 1 (marked decision) part }
{
    board.join(&mut coord, part);
    board.close_with(coord);
}

/// The transaction goes from its beginning to its end, and its board is closed.
fn decision_at<N: Naming>(opened: Opened<Surely>) -> Option<Decision>
    requires table { opened.table.shared.table_id ≡ N.table }
    requires key { opened.table.shared.key ≡ N.lists }
    requires lists { N.lists ≡ [] ∷ [] ∷ [] }
{
    let (board, mut seats) = opened.named::<N>();
    let (mut coord, mut part) = deal_empty(&board, &mut seats);
    decide(&board, &mut coord);
    if !send(&board, &mut part) {
        return None;
    }
    if !lose(&board, &mut part) {
        return None;
    }
    let decision = mark(&board, &mut part)?;
    if !close(&board, &mut coord) {
        return None;
    }
    finish(board, coord, part, decision);
    Some(decision)
}

/// The decision by which the transaction ended.
pub fn sure_board(alloc: Global) -> Result<Option<Decision>, AllocError> {
    let lists = Skeletons::new(alloc, 1)?;
    let opened = Opened::<Surely>::of_lists(alloc, &lists)?;
    Ok(decision_at::<Brand>(opened))
}
