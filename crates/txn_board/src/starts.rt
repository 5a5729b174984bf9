//! The steps at which a part starts entries.
ghost use Rattle.std.specs.Prelude.{◌≡◌, ◌<◌, ◌*◌, false, ℕ, Some, None};
ghost use Rattle.std.specs.Result.{result_err};
ghost use Rattle.txn_board.specs.Words.{window};
ghost use Rattle.txn_board.specs.Rows.{parts_in, loaded};
ghost use Rattle.txn_board.specs.Rule.{Found, ShowsOn};
ghost use Rattle.txn_board.specs.Calls.{MayStart, MayStartIn, MayClose, IsOwnIn, Turns, own_entries, start_where, row_step};
ghost use Rattle.txn_board.specs.Calls.{AllowsStep, start_place, bit_found, first_missing, MayMark};
ghost use Rattle.txn_board.specs.Calls.{StartsInsideWithin, StartsMarkerWithin, StartsClosingWithin, NothingOutside};

use crate::board::{Board, BoardSeat, Looks, Naming, Promise};
use crate::fill::WINDOW;
use crate::readers::decision_told;
use crate::view::View;
use crate::words::{OwnStart, RowStep, Word, is_bit_set, offset_of};
use atomic_table::Play;
use std::marker::{Brand, PhantomData};
use txn_base::Decision;

/// What a load makes of a view, by the value that it showed.
pub trait Stepping {
    ghost use Rattle.std.specs.Prelude.{ℕ};
    ghost use Rattle.txn_board.specs.declared.view.View.{View};

    ghost next: { ℕ → View };
}

impl Stepping for Brand {
    ghost use Rattle.txn_board.specs.Rows.{spent_view};

    ghost next = { λ n. spent_view };
}

/// A load at which a row changes so, and which tells what a plain one does.
pub struct Begins<T: Promise, N: Naming, E: Stepping> {
    of: PhantomData<(T, N, E)>,
}

impl<T: Promise, N: Naming, E: Stepping> Play<u8, View> for Begins<T, N, E> {
    ghost use Rattle.std.specs.Prelude.{◌≡◌};
    ghost use Rattle.txn_board.specs.Rows.{loaded};
    ghost use Rattle.txn_board.specs.Rule.{Found, ShowsOn};

    ghost then = { λ s me n w. (w ≡ (loaded s.word n (E.next n), me.1)) × (T.made → Found N.lists s.word n me.0) × ShowsOn s.word n me.0.loads };
}

fn found(part: Option<u32>, word: u64) -> bool
    ensures { result ≡ bit_found part word }
{
    match part {
        Some(bit) => bit < 64 && is_bit_set(word, bit),
        None => false,
    }
}

impl<T: Promise, N: Naming> Board<T, N> {
    /// Loads a word, and changes the seat's row by its value.
    pub(crate) fn step<E: Stepping>(
        &self,
        seat: &mut BoardSeat<N>,
        place: usize,
        step: RowStep,
    ) -> u64
        requires place { place < 3 * window }
        requires next { (n : ℕ) → row_step step seat.old n ≡ E.next n }
        requires allowed { T.made → (id : ℕ) → AllowsStep N.lists id seat.old place step }
        ensures view { seat.new ≡ loaded place result (row_step step seat.old result) }
        ensures found { T.made → Found N.lists place result seat.old }
        ensures grows { ShowsOn place result seat.old.loads }
    {
        let _ = step;
        self.table
            .shared
            .load::<Begins<T, N, E>>(&mut seat.seat, place)
    }

    /// The place of a word of a transaction, in the window.
    pub(crate) fn place(&self, txn: u64, word: Word) -> Option<usize>
        ensures { result ≡ start_place N.lists txn word }
    {
        if txn < self.low {
            return None;
        }
        let at = txn - self.low;
        if at >= WINDOW {
            return None;
        }
        Some((3 * at + offset_of(word)) as usize)
    }

    /// A part starts entries that ask nothing of other lists.
    pub fn start_own(&self, seat: &mut BoardSeat<N>, own: OwnStart)
        requires row { T.made → MayStart (parts_in N.lists) (own_entries own) seat.old }
        requires window { T.made → IsOwnIn N.lists own }
        ensures { Turns T.made N.lists (start_where (own_entries own) seat.old) seat.old seat.new }
    {
        self.step::<Brand>(seat, 0, RowStep::Own { own });
    }

    /// A part starts so many messages of a transaction, or a hold. Where the part isn't registered, or the transaction isn't in
    /// the window, nothing starts, and the answer is false.
    pub fn start_in(&self, seat: &mut BoardSeat<N>, txn: u64, count: u64) -> bool
        requires { T.made → MayStartIn (parts_in N.lists) txn count seat.old }
        ensures within { StartsInsideWithin T.made N.lists txn count result seat.old seat.new }
        ensures outside { NothingOutside N.lists txn (result ≡ false) seat.old seat.new }
    {
        let Some(place) = self.place(txn, Word::Registered) else {
            return false;
        };
        let part = seat.part;
        let reg = self.step::<Brand>(seat, place, RowStep::Inside { txn, count, part });
        found(part, reg)
    }

    /// A part starts the marker of a transaction, where that is decided. Where it isn't, or isn't in the window, nothing starts.
    pub fn start_marker(&self, seat: &mut BoardSeat<N>, txn: u64) -> Option<Decision>
        requires { T.made → MayMark (parts_in N.lists) txn seat.old }
        ensures within { StartsMarkerWithin T.made N.lists txn result seat.old seat.new }
        ensures outside { NothingOutside N.lists txn (result ≡ None) seat.old seat.new }
    {
        let place = self.place(txn, Word::Decided)?;
        let dec = self.step::<Brand>(seat, place, RowStep::Marker { txn });
        decision_told(is_bit_set(dec, 0), is_bit_set(dec, 1))
    }

    /// The coordinator starts the closing of a transaction, where each of its parts has the marker. The error is the least part
    /// that has none, and nothing starts; it is 0 where the transaction isn't in the window.
    pub fn start_close(&self, seat: &mut BoardSeat<N>, txn: u64) -> Result<(), u32>
        requires { T.made → MayClose (parts_in N.lists) txn seat.old }
        ensures within { StartsClosingWithin T.made N.lists txn
            (result_err result) seat.old seat.new }
        ensures outside { NothingOutside N.lists txn
            (result_err result ≡ Some 0) seat.old seat.new }
    {
        let Some(registered) = self.place(txn, Word::Registered) else {
            return Err(0);
        };
        let Some(done) = self.place(txn, Word::Done) else {
            return Err(0);
        };
        let reg = self
            .table
            .shared
            .load::<Looks<T, N>>(&mut seat.seat, registered);
        let done = self.step::<Brand>(seat, done, RowStep::Close { txn, reg });
        match missing_part(reg, done) {
            Some(part) => Err(part),
            None => Ok(()),
        }
    }
}

/// The least part whose bit is in the first word and not in the other.
fn missing_part(reg: u64, done: u64) -> Option<u32>
    ensures { result ≡ first_missing reg done }
{
    let mut part = 1;
    while part < 64 {
        if is_bit_set(reg, part) && !is_bit_set(done, part) {
            return Some(part);
        }
        part += 1;
    }
    None
}
