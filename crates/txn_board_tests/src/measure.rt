//! What `bench/board.py` measures: so many reads of a status, or starts and settles, by each of some threads; or so many
//! transactions by one thread beside some that read until it is done.
ghost use Rattle.std.specs.Prelude.{◌≡◌, length};

use crate::story::{Untold, deal_parts, split};
use std::alloc::{AllocError, Global};
use std::marker::Brand;
use std::thread::{self, Threads};
use txn_base::{Decision, Status};
use txn_board::{Board, BoardSeat, Naming, Opened, OwnStart, WINDOW};
use txn_core::Skeletons;

/// What is counted: reads of a status, starts of a message, or transactions beside readers.
#[derive(Clone, Copy, PartialEq, Eq)]
pub enum Kind {
    Reads,
    Steps,
    Beside,
}

/// What each thread does, and how often; beside readers, how many of these there are.
#[derive(Clone, Copy)]
pub struct Work {
    pub kind: Kind,
    pub threads: u64,
    pub rounds: u64,
}

/// How many of what was asked, and how many reads beside.
pub struct Counted {
    pub count: u64,
    pub beside: u64,
}

/// The transaction that is begun once the thread that the others read beside is done.
const LAST: u64 = WINDOW - 1;

/// How often a reader beside looks whether it is.
const EACH: u64 = 1024;

/// Takes a transaction to its end, with the one part.
fn commit<N: Naming>(
    board: &Board<Untold, N>,
    coord: &mut BoardSeat<N>,
    part: &mut BoardSeat<N>,
    txn: u64,
) {
    let decision = Decision::Commit;
    board.start_own(coord, OwnStart::New { txn });
    board.settle_reg(coord, txn, 0);
    board.start_own(coord, OwnStart::AddPart { txn, part: 1 });
    board.settle_reg(coord, txn, 1);
    board.start_own(coord, OwnStart::Decide { txn, decision });
    board.settle_dec(coord, txn, decision);
    let _ = board.start_marker(part, txn);
    board.settle_done(part, txn);
    let _ = board.start_close(coord, txn);
    board.settle_done(coord, txn);
}

/// Reads statuses all over the window, and counts those that are committed.
fn read<N: Naming>(
    board: &Board<Untold, N>,
    mut seat: BoardSeat<N>,
    rounds: u64,
    first: u64,
) -> u64 {
    let mut txn = first;
    let mut committed = 0u64;
    for _ in 0..rounds {
        txn = txn.wrapping_mul(25_173).wrapping_add(13_849) % WINDOW;
        if let Some(Status::Committed) = board.status(&mut seat, txn) {
            committed = committed.wrapping_add(1);
        }
    }
    committed
}

/// Reads statuses until the last transaction is begun, and counts those that are committed.
fn read_on<N: Naming>(board: &Board<Untold, N>, mut seat: BoardSeat<N>, first: u64) -> u64 {
    let mut txn = first;
    let mut committed = 0u64;
    for round in 0..u64::MAX {
        if round % EACH == 0 && board.status(&mut seat, LAST).is_some() {
            break;
        }
        txn = txn.wrapping_mul(25_173).wrapping_add(13_849) % LAST;
        if let Some(Status::Committed) = board.status(&mut seat, txn) {
            committed = committed.wrapping_add(1);
        }
    }
    committed
}

/// Takes transactions all over the window to their ends again, so often, and then begins the last.
fn commit_on<N: Naming>(
    board: &Board<Untold, N>,
    seats: (BoardSeat<N>, BoardSeat<N>),
    rounds: u64,
) -> u64 {
    let (mut coord, mut part) = seats;
    let mut txn = 0u64;
    for _ in 0..rounds {
        txn = txn.wrapping_mul(25_173).wrapping_add(13_849) % LAST;
        commit(board, &mut coord, &mut part, txn);
    }
    board.start_own(&mut coord, OwnStart::New { txn: LAST });
    board.settle_reg(&mut coord, LAST, 0);
    rounds
}

/// Starts a plain message and settles it, so often.
fn step<N: Naming>(board: &Board<Untold, N>, mut seat: BoardSeat<N>, rounds: u64) -> u64 {
    for _ in 0..rounds {
        board.start_own(&mut seat, OwnStart::Plain { count: 1 });
        board.settle_own(&mut seat);
    }
    rounds
}

fn read_by<R: Threads + Sync, N: Naming + Send + Sync>(
    rt: &R,
    board: &Board<Untold, N>,
    seats: (BoardSeat<N>, BoardSeat<N>),
    threads: u64,
    rounds: u64,
) -> u64 {
    let (first, second) = seats;
    if threads < 2 {
        return read(board, first, rounds, threads);
    }
    let (a, b) = thread::join(
        rt,
        move || read(board, first, rounds, 1),
        move || read(board, second, rounds, 2),
    );
    a.wrapping_add(b)
}

fn step_by<R: Threads + Sync, N: Naming + Send + Sync>(
    rt: &R,
    board: &Board<Untold, N>,
    seats: (BoardSeat<N>, BoardSeat<N>),
    threads: u64,
    rounds: u64,
) -> u64 {
    let (first, second) = seats;
    if threads < 2 {
        return step(board, first, rounds);
    }
    let (a, b) = thread::join(
        rt,
        move || step(board, first, rounds),
        move || step(board, second, rounds),
    );
    a.wrapping_add(b)
}

fn read_on_by<R: Threads + Sync, N: Naming + Send + Sync>(
    rt: &R,
    board: &Board<Untold, N>,
    seats: (BoardSeat<N>, BoardSeat<N>),
    threads: u64,
) -> u64 {
    let (first, second) = seats;
    if threads == 0 {
        return 0;
    }
    if threads < 2 {
        return read_on(board, first, 1);
    }
    let (a, b) = thread::join(
        rt,
        move || read_on(board, first, 1),
        move || read_on(board, second, 2),
    );
    a.wrapping_add(b)
}

/// Four readers' seats, in pairs.
#[derive(Drop)]
struct Readers<N: Naming> {
    some: (BoardSeat<N>, BoardSeat<N>),
    more: (BoardSeat<N>, BoardSeat<N>),
}

fn read_all<R: Threads + Sync, N: Naming + Send + Sync>(
    rt: &R,
    board: &Board<Untold, N>,
    readers: Readers<N>,
    threads: u64,
    rounds: u64,
) -> u64 {
    let Readers { some, more } = readers;
    if threads <= 2 {
        return read_by(rt, board, some, threads, rounds);
    }
    let rest = threads - 2;
    let (a, b) = thread::join(
        rt,
        move || read_by(rt, board, some, 2, rounds),
        move || read_by(rt, board, more, rest, rounds),
    );
    a.wrapping_add(b)
}

fn commit_beside<R: Threads + Sync, N: Naming + Send + Sync>(
    rt: &R,
    board: &Board<Untold, N>,
    parts: (BoardSeat<N>, BoardSeat<N>),
    readers: Readers<N>,
    asked: Work,
) -> Counted {
    let Readers { some, more } = readers;
    let Work {
        kind: _,
        threads,
        rounds,
    } = asked;
    let (count, (a, b)) = thread::join(
        rt,
        move || commit_on(board, parts, rounds),
        move || {
            thread::join(
                rt,
                move || read_on_by(rt, board, some, threads.min(2)),
                move || read_on_by(rt, board, more, threads.saturating_sub(2)),
            )
        },
    );
    let beside = a.wrapping_add(b);
    Counted { count, beside }
}

fn work_at<R: Threads + Sync, N: Naming + Send + Sync>(
    rt: &R,
    opened: Opened<Untold>,
    asked: Work,
) -> Counted
    requires table { opened.table.shared.table_id ≡ N.table }
    requires lists { opened.table.shared.key ≡ N.lists }
    requires two { length N.lists ≡ 2 }
{
    let (board, mut seats) = opened.named::<N>();
    let (mut coord, mut part) = deal_parts(&board, &mut seats);
    let mut first = seats.readers();
    let last = if asked.kind == Kind::Beside {
        LAST
    } else {
        WINDOW
    };
    for txn in 0..last {
        commit(&board, &mut coord, &mut part, txn);
    }
    let second = split(&board, &mut first);
    let third = split(&board, &mut first);
    let fourth = split(&board, &mut first);
    let readers = Readers {
        some: (first, second),
        more: (third, fourth),
    };
    let Work {
        kind,
        threads,
        rounds,
    } = asked;
    match kind {
        Kind::Reads => Counted {
            count: read_all(rt, &board, readers, threads, rounds),
            beside: 0,
        },
        Kind::Steps => Counted {
            count: step_by(rt, &board, (coord, part), threads, rounds),
            beside: 0,
        },
        Kind::Beside => commit_beside(rt, &board, (coord, part), readers, asked),
    }
}

/// How many were committed of those that were read, how many were started, or how many transactions were taken to their ends.
pub fn measure<R: Threads + Sync>(
    rt: &R,
    alloc: Global,
    asked: Work,
) -> Result<Counted, AllocError> {
    let lists = Skeletons::new(alloc, 1)?;
    let opened = Opened::<Untold>::of_lists(alloc, &lists)?;
    Ok(work_at::<R, Brand>(rt, opened, asked))
}
