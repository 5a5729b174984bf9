//! Threads of two parts and of two readers at one board.
ghost use Rattle.std.specs.Prelude.{◌≡◌, ◌<◌, ◌≤◌, suc, true, [], ◌∷◌};
ghost use Rattle.txn_board.specs.Calls.{inside_where, marker_where};
ghost use Rattle.txn_board_tests.specs.Sure.{Rests, IsFlying};
ghost use Rattle.txn_board_tests.specs.Taken.{decision_at, decided_up_to, closing_if, closed_up_to, sent_up_to, ended_up_to};

use crate::story::{Untold, deal_empty};
use std::marker::Brand;
use std::sync::Wait;
use std::thread::{self, Threads};
use txn_base::{Decision, Status};
use txn_board::{Board, BoardSeat, Naming, Opened, OwnStart};
use txn_core::Skeletons;

/// How many transactions the threads take through.
const COUNT: u64 = 10_000;

/// A seat that a thread gives back, and whether all that it was told was right.
#[derive(Drop)]
struct Worked<N: Naming> {
    seat: BoardSeat<N>,
    right: bool,
}

/// What the coordinator decides of a transaction.
fn decision_for(txn: u64) -> Decision
    ensures { result ≡ decision_at txn }
{
    if txn % 3 == 0 {
        return Decision::Abort;
    }
    Decision::Commit
}

/// Whether a status may be told of a transaction.
fn is_right(status: Option<Status>, txn: u64) -> bool {
    match status {
        None | Some(Status::Open) => true,
        Some(Status::Committing) | Some(Status::Committed) => decision_for(txn) == Decision::Commit,
        Some(Status::Aborting) | Some(Status::Aborted) => decision_for(txn) == Decision::Abort,
    }
}

/// How far a transaction is by its status, which never falls.
fn stage(status: Option<Status>) -> u64 {
    match status {
        None => 0,
        Some(Status::Open) => 1,
        Some(Status::Committing) | Some(Status::Aborting) => 2,
        Some(Status::Committed) | Some(Status::Aborted) => 3,
    }
}

/// The coordinator begins a transaction, adds its part and decides.
fn decide_one<N: Naming>(board: &Board<Untold, N>, seat: &mut BoardSeat<N>, txn: u64)
    requires { Rests 0 (decided_up_to txn) seat.old }
    ensures { Rests 0 (decided_up_to (suc txn)) seat.new }
{
    board.start_own(seat, OwnStart::New { txn });
    board.settle_reg(seat, txn, 0);
    board.start_own(seat, OwnStart::AddPart { txn, part: 1 });
    board.settle_reg(seat, txn, 1);
    let decision = decision_for(txn);
    board.start_own(seat, OwnStart::Decide { txn, decision });
    board.settle_dec(seat, txn, decision);
}

/// The coordinator starts a closing, where the part has the marker.
fn starts_closing<N: Naming>(
    board: &Board<Untold, N>,
    seat: &mut BoardSeat<N>,
    txn: u64,
    count: u64,
) -> bool
    requires lists { N.lists ≡ [] ∷ [] ∷ [] }
    requires one { txn < count }
    requires few { count ≤ 65536 }
    requires seat { Rests 0 (closed_up_to count txn) seat.old }
    ensures { IsFlying 0 (closed_up_to count txn) (closing_if result txn) seat.new }
{
    match board.start_close(seat, txn) {
        Ok(()) => true,
        Err(_) => false,
    }
}

/// The coordinator closes a transaction once its part has the marker.
fn close_one<R: Wait, N: Naming>(
    rt: &R,
    board: &Board<Untold, N>,
    seat: &mut BoardSeat<N>,
    txn: u64,
    count: u64,
)
    requires lists { N.lists ≡ [] ∷ [] ∷ [] }
    requires one { txn < count }
    requires few { count ≤ 65536 }
    requires seat { Rests 0 (closed_up_to count txn) seat.old }
    ensures { Rests 0 (closed_up_to count (suc txn)) seat.new }
{
    for _ in rt.forever() {
        if starts_closing(board, seat, txn, count) {
            break;
        }
    }
    board.settle_done(seat, txn);
}

/// The coordinator's thread, of so many transactions.
fn coordinate<R: Wait, N: Naming>(
    rt: &R,
    board: &Board<Untold, N>,
    mut seat: BoardSeat<N>,
    count: u64,
) -> BoardSeat<N>
    requires lists { N.lists ≡ [] ∷ [] ∷ [] }
    requires few { count ≤ 65536 }
    requires seat { Rests 0 [] seat }
    ensures { Rests 0 (closed_up_to count count) result }
{
    let mut begun = 0;
    while begun < count {
        decide_one(board, &mut seat, begun);
        begun += 1;
    }
    let mut closed = 0;
    while closed < count {
        close_one(rt, board, &mut seat, closed, count);
        closed += 1;
    }
    seat
}

/// The part starts a message, where it is registered.
fn starts_message<N: Naming>(board: &Board<Untold, N>, seat: &mut BoardSeat<N>, txn: u64) -> bool
    requires lists { N.lists ≡ [] ∷ [] ∷ [] }
    requires few { txn < 65536 }
    requires seat { Rests 1 (ended_up_to txn) seat.old }
    ensures { IsFlying 1 (ended_up_to txn) (inside_where result txn 1) seat.new }
{
    board.start_in(seat, txn, 1)
}

/// The part takes a message of a transaction once it is registered.
fn send_one<R: Wait, N: Naming>(rt: &R, board: &Board<Untold, N>, seat: &mut BoardSeat<N>, txn: u64)
    requires lists { N.lists ≡ [] ∷ [] ∷ [] }
    requires few { txn < 65536 }
    requires seat { Rests 1 (ended_up_to txn) seat.old }
    ensures { Rests 1 (sent_up_to txn) seat.new }
{
    for _ in rt.forever() {
        if starts_message(board, seat, txn) {
            break;
        }
    }
    board.settle_own(seat);
}

/// The part starts the marker, where the transaction is decided.
fn starts_marker<N: Naming>(
    board: &Board<Untold, N>,
    seat: &mut BoardSeat<N>,
    txn: u64,
) -> Option<Decision>
    requires lists { N.lists ≡ [] ∷ [] ∷ [] }
    requires few { txn < 65536 }
    requires seat { Rests 1 (sent_up_to txn) seat.old }
    ensures { IsFlying 1 (sent_up_to txn) (marker_where txn result) seat.new }
{
    board.start_marker(seat, txn)
}

/// The part takes the marker once the transaction is decided: by what the coordinator decided.
fn mark_one<R: Wait, N: Naming>(
    rt: &R,
    board: &Board<Untold, N>,
    seat: &mut BoardSeat<N>,
    txn: u64,
) -> bool
    requires lists { N.lists ≡ [] ∷ [] ∷ [] }
    requires few { txn < 65536 }
    requires seat { Rests 1 (sent_up_to txn) seat.old }
    ensures { result ≡ true → Rests 1 (ended_up_to (suc txn)) seat.new }
{
    for _ in rt.forever() {
        if let Some(decision) = starts_marker(board, seat, txn) {
            board.settle_done(seat, txn);
            return decision == decision_for(txn);
        }
    }
    false
}

/// A part takes a message of a transaction, and its marker.
fn end_one<R: Wait, N: Naming>(
    rt: &R,
    board: &Board<Untold, N>,
    seat: &mut BoardSeat<N>,
    txn: u64,
) -> bool
    requires lists { N.lists ≡ [] ∷ [] ∷ [] }
    requires few { txn < 65536 }
    requires seat { Rests 1 (ended_up_to txn) seat.old }
    ensures { result ≡ true → Rests 1 (ended_up_to (suc txn)) seat.new }
{
    send_one(rt, board, seat, txn);
    mark_one(rt, board, seat, txn)
}

/// The part's thread, of so many transactions.
fn take_part<R: Wait, N: Naming>(
    rt: &R,
    board: &Board<Untold, N>,
    mut seat: BoardSeat<N>,
    count: u64,
) -> Worked<N>
    requires lists { N.lists ≡ [] ∷ [] ∷ [] }
    requires few { count ≤ 65536 }
    requires seat { Rests 1 [] seat }
    ensures { result.right ≡ true → Rests 1 (ended_up_to count) result.seat }
{
    let mut ended = 0;
    while ended < count {
        if !end_one(rt, board, &mut seat, ended) {
            return Worked { seat, right: false };
        }
        ended += 1;
    }
    Worked { seat, right: true }
}

/// Whether a closed transaction is told as it was decided, with its part and its marker.
fn is_closed<N: Naming>(board: &Board<Untold, N>, reader: &mut BoardSeat<N>, txn: u64) -> bool {
    let status = board.status(reader, txn);
    stage(status) == 3
        && is_right(status, txn)
        && board.decision(reader, txn) == Some(decision_for(txn))
        && board.registered(reader, txn, 1)
        && !board.registered(reader, txn, 2)
        && board.done(reader, txn) == 3
}

/// A reader follows a transaction until it is closed: no status is behind the one before, and each fits the decision.
fn follow_one<R: Wait, N: Naming>(
    rt: &R,
    board: &Board<Untold, N>,
    reader: &mut BoardSeat<N>,
    txn: u64,
) -> bool {
    let mut right = true;
    let mut last = 0;
    for _ in rt.forever() {
        let status = board.status(reader, txn);
        let now = stage(status);
        right = right && last <= now && is_right(status, txn);
        last = now;
        if now == 3 {
            break;
        }
    }
    is_closed(board, reader, txn) && right
}

/// A reader's thread, of so many transactions.
fn follow<R: Wait, N: Naming>(
    rt: &R,
    board: &Board<Untold, N>,
    mut seat: BoardSeat<N>,
    count: u64,
) -> Worked<N> {
    let mut right = true;
    for txn in 0..count {
        right = follow_one(rt, board, &mut seat, txn) && right;
    }
    Worked { seat, right }
}

/// Whether each of the transactions is closed as it was decided, and none was begun behind them.
fn are_closed<N: Naming>(board: &Board<Untold, N>, reader: &mut BoardSeat<N>, count: u64) -> bool {
    let mut right = stage(board.status(reader, count)) == 0;
    for txn in 0..count {
        right = is_closed(board, reader, txn) && right;
    }
    right
}

/// Joins the seats of the two parts, whose rows are the lists of so many transactions, and closes the board with them.
fn close<N: Naming>(
    board: Board<Untold, N>,
    mut coord: BoardSeat<N>,
    part: BoardSeat<N>,
    count: u64,
)
    requires lists { N.lists ≡ [] ∷ [] ∷ [] }
    requires coord { Rests 0 (closed_up_to count count) coord }
    requires part { Rests 1 (ended_up_to count) part }
{
    let _ = count;
    board.join(&mut coord, part);
    board.close_with(coord);
}

/// The four threads at a board of one part beside the coordinator; once they are joined, the parts' seats close it. Whether all
/// were told what is right: then the rows are those of so many transactions.
fn work<R: Threads + Wait + Sync, N: Naming + Send + Sync>(
    rt: &R,
    opened: Opened<Untold>,
    count: u64,
) -> bool
    requires table { opened.table.shared.table_id ≡ N.table }
    requires key { opened.table.shared.key ≡ N.lists }
    requires lists { N.lists ≡ [] ∷ [] ∷ [] }
    requires few { count ≤ 65536 }
{
    let (board, mut seats) = opened.named::<N>();
    let (coord, part) = deal_empty(&board, &mut seats);
    let mut first = seats.readers();
    let second = board.split(&mut first);
    let shared = &board;
    let (parts, readers) = thread::join(
        rt,
        move ||
            requires lists { N.lists ≡ [] ∷ [] ∷ [] }
            requires few { count ≤ 65536 }
            requires rows { Rests 0 [] coord × Rests 1 [] part }
        {
            thread::join(
                rt,
                move || coordinate(rt, shared, coord, count),
                move || take_part(rt, shared, part, count),
            )
        },
        move || {
            thread::join(
                rt,
                move || follow(rt, shared, first, count),
                move || follow(rt, shared, second, count),
            )
        },
    );
    let (coord, part) = parts;
    let (first, second) = readers;
    let Worked {
        seat: mut reader,
        right,
    } = first;
    if !right || !second.right || !part.right || !are_closed(&board, &mut reader, count) {
        return false;
    }
    close(board, coord, part.seat, count);
    true
}

#[test]
fn parts_and_readers_share_a_board(rt: HostRuntime) {
    let lists = Skeletons::new(rt.alloc(), 1);
    let Ok(lists) = lists else {
        panic!(rt; "no memory");
    };
    let Ok(opened) = Opened::<Untold>::of_lists(rt.alloc(), &lists) else {
        panic!(rt; "no memory");
    };
    assert!(rt; work::<HostRuntime, Brand>(&rt, opened, COUNT));
}
