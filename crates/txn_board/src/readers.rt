//! What a seat reads off the words.
ghost use Rattle.std.specs.Prelude.{◌≡◌, true, Some};
ghost use Rattle.txn_board.specs.declared.words.Word.TheVariants.{Registered};
ghost use Rattle.txn_board.specs.Calls.{start_place};
ghost use Rattle.txn_board.specs.Rule.{IsTold};
ghost use Rattle.txn_board.specs.Seen.{status_by, decision_by, StatusIsRead, StatusIsTold, DecisionIsRead, PartIsRead, DoneIsRead};
ghost use Rattle.txn_board.specs.Seen.{IsStatusIn, IsDecisionIn, IsRegisteredIn, IsDoneIn};

use crate::board::{Board, BoardSeat, Naming, Promise};
use crate::words::{Word, is_bit_set};
use txn_base::{Decision, Status};

fn status_told(commit: bool, abort: bool, closed: bool) -> Option<Status>
    ensures { result ≡ status_by true commit abort closed }
{
    if commit {
        if closed {
            return Some(Status::Committed);
        }
        return Some(Status::Committing);
    }
    if abort {
        if closed {
            return Some(Status::Aborted);
        }
        return Some(Status::Aborting);
    }
    Some(Status::Open)
}

/// The decision that a word has.
pub(crate) fn decision_told(commit: bool, abort: bool) -> Option<Decision>
    ensures { result ≡ decision_by commit abort }
{
    if commit {
        return Some(Decision::Commit);
    }
    if abort {
        return Some(Decision::Abort);
    }
    None
}

impl<T: Promise, N: Naming> Board<T, N> {
    /// The status of a transaction; none where it isn't begun, and past the window.
    #[inline(always)]
    pub fn status(&self, seat: &mut BoardSeat<N>, txn: u64) -> Option<Status>
        ensures read { StatusIsRead T.made N.lists txn result seat.old seat.new }
        ensures told { IsTold T.made N.lists txn seat.old seat.new (IsStatusIn txn result) }
    {
        match self.place(txn, Word::Registered) {
            Some(first) => self.status_at(seat, txn, first),
            None => self.status_by_word(seat, txn),
        }
    }

    /// In the window, by the place of the transaction's first word.
    fn status_at(&self, seat: &mut BoardSeat<N>, txn: u64, first: usize) -> Option<Status>
        requires { start_place N.lists txn Registered ≡ Some first }
        ensures { StatusIsTold T.made N.lists txn result seat.old seat.new }
    {
        let reg = self.look_at(seat, txn, Word::Registered, first);
        if !is_bit_set(reg, 0) {
            return None;
        }
        let dec = self.look_at(seat, txn, Word::Decided, first);
        let commit = is_bit_set(dec, 0);
        let abort = is_bit_set(dec, 1);
        if !commit && !abort {
            return Some(Status::Open);
        }
        let done = self.look_at(seat, txn, Word::Done, first);
        status_told(commit, !commit, is_bit_set(done, 0))
    }

    /// Anywhere, each word by itself.
    fn status_by_word(&self, seat: &mut BoardSeat<N>, txn: u64) -> Option<Status>
        ensures { StatusIsTold T.made N.lists txn result seat.old seat.new }
    {
        let reg = self.look(seat, txn, Word::Registered);
        if !is_bit_set(reg, 0) {
            return None;
        }
        let dec = self.look(seat, txn, Word::Decided);
        let commit = is_bit_set(dec, 0);
        let abort = is_bit_set(dec, 1);
        if !commit && !abort {
            return Some(Status::Open);
        }
        let done = self.look(seat, txn, Word::Done);
        status_told(commit, abort, is_bit_set(done, 0))
    }

    /// The decision of a transaction; none where there is none yet, and past the window.
    pub fn decision(&self, seat: &mut BoardSeat<N>, txn: u64) -> Option<Decision>
        ensures read { DecisionIsRead T.made N.lists txn result seat.old seat.new }
        ensures told { IsTold T.made N.lists txn seat.old seat.new (IsDecisionIn txn result) }
    {
        let dec = self.look(seat, txn, Word::Decided);
        decision_told(is_bit_set(dec, 0), is_bit_set(dec, 1))
    }

    /// Whether a part, from 1 to 63, is one of a transaction's.
    pub fn registered(&self, seat: &mut BoardSeat<N>, txn: u64, part: u32) -> bool
        ensures read { PartIsRead T.made N.lists txn part result seat.old seat.new }
        ensures told { IsTold T.made N.lists txn seat.old seat.new
            (IsRegisteredIn txn part result) }
    {
        let reg = self.look(seat, txn, Word::Registered);
        part >= 1 && part < 64 && is_bit_set(reg, part)
    }

    /// Which parts have a marker of a transaction, bit by bit, and in bit 0 whether it is closed.
    pub fn done(&self, seat: &mut BoardSeat<N>, txn: u64) -> u64
        ensures read { DoneIsRead T.made N.lists txn result seat.old seat.new }
        ensures told { IsTold T.made N.lists txn seat.old seat.new (IsDoneIn txn result) }
    {
        self.look(seat, txn, Word::Done)
    }
}
