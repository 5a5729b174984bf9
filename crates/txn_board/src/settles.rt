//! The steps at which entries settle, or are lost.
ghost use Rattle.std.specs.Prelude.{◌≡◌, ◌<◌, ◌*◌, ◌++◌, ◌∷◌, [], ℕ, List, length, slice_index, slice_set, IfSome};
ghost use Rattle.std.specs.Int.Bits.{bit_or};
ghost use Rattle.txn_model.specs.Coord.{decision_skeleton};
ghost use Rattle.txn_model.specs.Deadlines.{txn as txn_of};
ghost use Rattle.txn_board.specs.declared.words.Mark.{Mark};
ghost use Rattle.txn_board.specs.Words.{window, with_mark};
ghost use Rattle.txn_board.specs.Rows.{low_in, settle_view, drop_view};
ghost use Rattle.txn_board.specs.Calls.{IsSettling, IsSetting, IsSettlingOwn, IsEnding, MayDrop, Turns, Settled, reg_entry, ending_mark};

use crate::board::{Board, BoardSeat, Naming, Promise};
use crate::fill::WINDOW;
use crate::view::View;
use crate::words::{Mark, RowStep, Word, mark_of, mask_of, offset_of};
use atomic_table::Play;
use std::marker::{Brand, PhantomData};
use txn_base::{CoreEntry, Decision, TxnId};

/// The first entry in flight settles. Where the promise is made, the rule held of the board before, and holds of it since.
pub struct Settles<T: Promise, N: Naming> {
    of: PhantomData<(T, N)>,
}

impl<T: Promise, N: Naming> Play<u8, View> for Settles<T, N> {
    ghost use Rattle.std.specs.Prelude.{◌≡◌};
    ghost use Rattle.txn_board.specs.Calls.{Settled};

    ghost then = { λ s me n w. Settled T.made N.lists me.0 w.0 × (w.1 ≡ me.1) };
}

impl<T: Promise, N: Naming> Board<T, N> {
    /// The place of a word in the window and what is set there for a mark; nothing of word 0 where the mark has no word.
    fn bit_of(&self, mark: Option<Mark>) -> (usize, u64)
        requires { IfSome mark (λ m. m.bit < 64) }
        ensures place { result.0 < 3 * window }
        ensures bits { (words : List ℕ) → length words ≡ 3 * window →
            slice_set words result.0 (bit_or (slice_index words result.0) result.1) ≡ with_mark
            (low_in N.lists) window mark words }
    {
        let Some(mark) = mark else {
            return (0, 0);
        };
        if mark.txn < self.low {
            return (0, 0);
        }
        let at = mark.txn - self.low;
        if at >= WINDOW {
            return (0, 0);
        }
        ((3 * at + offset_of(mark.word)) as usize, mask_of(mark.bit))
    }

    /// The first entry in flight settles, and its bit is set.
    fn settle(&self, seat: &mut BoardSeat<N>, mark: Option<Mark>)
        requires bit { IfSome mark (λ m. m.bit < 64) }
        requires first { T.made → IsSetting mark seat.old }
        ensures { Settled T.made N.lists seat.old seat.new }
    {
        let (place, mask) = self.bit_of(mark);
        self.table
            .shared
            .fetch_or::<Settles<T, N>>(&mut seat.seat, place, mask);
    }

    /// The first message or hold in flight settles.
    pub fn settle_own(&self, seat: &mut BoardSeat<N>)
        requires { T.made → IsSettlingOwn seat.old }
        ensures { Turns T.made N.lists (settle_view seat.old) seat.old seat.new }
    {
        self.step::<Brand>(seat, 0, RowStep::Settle);
    }

    /// What is in flight is lost, where it isn't sure to stay.
    pub fn drop_flight(&self, seat: &mut BoardSeat<N>)
        requires { T.made → MayDrop seat.old }
        ensures { Turns T.made N.lists (drop_view seat.old) seat.old seat.new }
    {
        self.step::<Brand>(seat, 0, RowStep::Lose);
    }

    /// The `New` in flight settles, for part 0, or the `AddPart` of another part.
    pub fn settle_reg(&self, seat: &mut BoardSeat<N>, txn: u64, part: u32)
        requires { T.made → IsSettling 0 (reg_entry txn part) seat.old }
        ensures { Settled T.made N.lists seat.old seat.new }
    {
        let txn = TxnId {
            most: 0,
            least: txn,
        };
        let entry = if part == 0 {
            CoreEntry::New { txn }
        } else {
            CoreEntry::AddPart { txn, part }
        };
        self.settle_entry(seat, entry);
    }

    /// The decision in flight settles.
    pub fn settle_dec(&self, seat: &mut BoardSeat<N>, txn: u64, decision: Decision)
        requires { T.made → IsSettling 0 (decision_skeleton (txn_of txn) decision) seat.old }
        ensures { Settled T.made N.lists seat.old seat.new }
    {
        let txn = TxnId {
            most: 0,
            least: txn,
        };
        let entry = match decision {
            Decision::Commit => CoreEntry::Committing { txn },
            Decision::Abort => CoreEntry::Aborting { txn },
        };
        self.settle_entry(seat, entry);
    }

    /// The marker in flight settles, or for the coordinator the closing.
    pub fn settle_done(&self, seat: &mut BoardSeat<N>, txn: u64)
        requires { T.made → IsEnding txn seat.old }
        ensures { Settled T.made N.lists seat.old seat.new }
    {
        let mark = ending_mark(seat.part, txn);
        self.settle(seat, mark);
    }

    /// An entry of the coordinator settles.
    fn settle_entry(&self, seat: &mut BoardSeat<N>, entry: CoreEntry)
        requires { T.made → IsSettling 0 entry seat.old }
        ensures { Settled T.made N.lists seat.old seat.new }
    {
        let mark = mark_of(0, entry);
        self.settle(seat, mark);
    }
}

/// The bit of the marker of a part, or of the coordinator's closing.
fn ending_mark(part: Option<u32>, txn: u64) -> Option<Mark>
    ensures exact { result ≡ ending_mark part txn }
    ensures bit { IfSome result (λ m. m.bit < 64) }
{
    let Some(bit) = part else {
        return None;
    };
    if bit >= 64 {
        return None;
    }
    Some(Mark {
        txn,
        word: Word::Done,
        bit,
    })
}
