//! The board, its seats, and the calls that read.
ghost use Rattle.std.specs.Prelude.{◌≡◌, ℕ, ◌<◌, ◌≤◌, ◌+◌, ◌-◌, ◌*◌, [], ◌∷◌, ◌++◌, List, length, IfOk, Bool, Option, Some, None};
ghost use Rattle.txn_base.specs.declared.core_entry.CoreEntry.{CoreEntry};
ghost use Rattle.txn_model.specs.Coord.{count_new};
ghost use Rattle.txn_core.specs.Together.{AreLawful};
ghost use Rattle.txn_board.specs.declared.view.Load.{Load};
ghost use Rattle.txn_board.specs.declared.words.Word.TheVariants.{Registered, Decided, Done};
ghost use Rattle.txn_board.specs.Words.{window, WordsSay};
ghost use Rattle.txn_board.specs.Rows.{parts_in, list_in, low_in, opening_view, rest_view, dealt_view, joined_view, kept_rows, HasSeatRow, AreFrom, IsNumberOf, with_loads, spent_view};
ghost use Rattle.txn_board.specs.Calls.{start_place};
ghost use Rattle.txn_board.specs.Seen.{looked, Looked};

use crate::fill::{WINDOW, words_of_lists};
use crate::view::View;
use crate::words::{Word, is_bit_set, offset_of};
use atomic_table::{Join, Play, Seat, Split, Table, TableRule};
use std::alloc::{AllocError, Global};
use std::marker::{Brand, Model, PhantomData};
use txn_base::{Decision, Status};
use txn_core::Skeletons;

/// What all that is said of a board's rows rests on, as that a disk tells what it holds.
pub trait Promise {
    ghost made: { Type 0 };
}

/// It rests on nothing.
pub struct Surely;

impl Promise for Surely {
    ghost made = { Unit {0} };
}

/// The rule of the board, where the promise is made; and whatever is promised, that each load still holds.
pub struct Law<T: Promise> {
    of: PhantomData<T>,
}

impl<T: Promise> TableRule<u8, View, Skeletons> for Law<T> {
    ghost use Rattle.txn_board.specs.Rule.{Holds, KeepLoads};
    ghost use Rattle.txn_board.specs.Rows.{opening_view};

    ghost holds = { λ lists s. KeepLoads s × (T.made → Holds lists s) };

    ghost first = { opening_view };
}

/// A plain load. Where the promise is made, its value stood at that place; in any case it shows what earlier ones showed there.
pub struct Looks<T: Promise, N: Naming> {
    of: PhantomData<(T, N)>,
}

impl<T: Promise, N: Naming> Play<u8, View> for Looks<T, N> {
    ghost use Rattle.std.specs.Prelude.{◌≡◌};
    ghost use Rattle.txn_board.specs.Rows.{loaded};
    ghost use Rattle.txn_board.specs.Rule.{Found, ShowsOn};

    ghost then = { λ s me n w. (w ≡ (loaded s.word n me.0, me.1)) × (T.made → Found N.lists s.word n me.0) × ShowsOn s.word n me.0.loads };
}

/// The first row of a view goes to a seat of its own.
pub struct Deals;

impl Split<View> for Deals {
    ghost use Rattle.txn_board.specs.Rows.{rest_view, dealt_view};

    ghost left = { rest_view };

    ghost right = { dealt_view };
}

/// Two seats in one.
pub struct Joins;

impl Join<View> for Joins {
    ghost use Rattle.txn_board.specs.Rows.{joined_view, spent_view};

    ghost both = { joined_view };

    ghost spent = { spent_view };
}

/// Which board it is, and the lists that it was opened with.
pub trait Naming {
    ghost use Rattle.std.specs.Prelude.{List};
    ghost use Rattle.atomic_table.specs.Seated.{TableId};
    ghost use Rattle.txn_base.specs.declared.core_entry.CoreEntry.{CoreEntry};

    ghost table: { TableId };

    ghost lists: { List (List CoreEntry) };
}

impl Naming for Brand {
    ghost use Rattle.std.specs.Prelude.{[]};

    ghost table = { record { words = 0; slots = 0; views_name = 0; atom = 0; block = 0; offset = 0; slot_names = [] } };

    ghost lists = { [] };
}

/// A board with the seat of all parts, which has no name yet.
#[derive(Drop)]
pub struct Opened<T: Promise> {
    table: Table<u8, View, Skeletons, Law<T>, Global>,
    seat: Seat<u8, View>,
    fixed: Vec<u64>,
    low: u64,
    pub ghost seat_fits: { seat.table_id ≡ table.shared.table_id },
    pub ghost count: { table.shared.table_id.words ≡ 3 * window },
    pub ghost no_slot: { table.shared.table_id.slots ≡ 0 },
    pub ghost seat_is: { seat.me ≡ (opening_view table.shared.key, []) },
    pub ghost few: { length table.shared.key ≤ 63 },
    pub ghost low_is: { low ≡ low_in table.shared.key },
    pub ghost fixed_says: { WordsSay 0 low fixed.items (list_in table.shared.key) },
}

impl<T: Promise> Opened<T> {
    /// A board whose words say what these lists say, that of part p at position p. It keeps 24 bytes for each transaction of
    /// the window and for each below it. While it makes them it takes that twice, and 24 for each past those below it that the
    /// log begins.
    pub fn of_lists(alloc: Global, lists: &Skeletons) -> Result<Opened<T>, AllocError>
        requires log { 1 ≤ length lists.now }
        requires few { length lists.now ≤ 63 }
        requires lawful { T.made → AreLawful (parts_in lists.now) (list_in lists.now) }
        requires window { T.made → count_new (list_in lists.now 0) ≤ low_in lists.now + window }
        ensures { IfOk result (λ o. o.table.shared.key ≡ lists.now) }
    {
        let (mut fixed, low) = words_of_lists(alloc, lists.as_slice())?;
        let words = fixed
            .as_slice()
            .split_at(3 * low as usize)
            .1
            .split_at(3 * WINDOW as usize)
            .0;
        let (table, seat) = Table::<u8, View, Skeletons, Law<T>, Global>::of_words(
            alloc, words, lists,
        )?;
        fixed.truncate(3 * low as usize);
        fixed.shrink_to_fit();
        Ok(Opened {
            table,
            seat,
            fixed,
            low,
        })
    }
}

impl<T: Promise> Opened<T> {
    /// The board under a name, and the seats of its parts.
    pub fn named<N: Naming>(self) -> (Board<T, N>, Seats<N>)
        requires table { self.table.shared.table_id ≡ N.table }
        requires lists { self.table.shared.key ≡ N.lists }
        ensures { result.1 ≡ opening_view N.lists }
    {
        let Opened {
            table,
            seat,
            fixed,
            low,
        } = self;
        (
            Board {
                table,
                fixed,
                low,
                of: PhantomData,
            },
            Seats {
                seat,
                next: 0,
                of: PhantomData,
            },
        )
    }
}

/// The words, and what they said at the opening of each transaction below the low watermark.
#[derive(Drop)]
pub struct Board<T: Promise, N: Naming> {
    pub(crate) table: Table<u8, View, Skeletons, Law<T>, Global>,
    fixed: Vec<u64>,
    pub(crate) low: u64,
    of: PhantomData<N>,
    pub ghost named: { table.shared.table_id ≡ N.table },
    pub ghost count: { table.shared.table_id.words ≡ 3 * window },
    pub ghost no_slot: { table.shared.table_id.slots ≡ 0 },
    pub ghost lists_are: { table.shared.key ≡ N.lists },
    pub ghost low_is: { low ≡ low_in N.lists },
    pub ghost fixed_says: { WordsSay 0 low fixed.items (list_in N.lists) },
}

/// The seats that weren't dealt yet: one for each part in order, and behind them one for readers. Contracts see the view of
/// all their rows.
#[derive(Drop)]
pub struct Seats<N: Naming> {
    seat: Seat<u8, View>,
    next: u32,
    of: PhantomData<N>,
}

impl<N: Naming> Model for Seats<N> {
    ghost use Rattle.std.specs.Prelude.{◌≡◌, ◌≤◌, ◌+◌, [], length};
    ghost use Rattle.txn_board.specs.declared.view.View.{View};
    ghost use Rattle.txn_board.specs.Rows.{AreFrom};

    ghost Value = { View };

    ghost view = { λ s. s.seat.me.0 };

    ghost invariant = { λ s. (s.seat.table_id ≡ N.table) × (s.seat.me.1 ≡ []) × AreFrom s.next s.seat.me.0.rows × (s.next + length s.seat.me.0.rows ≤ 63) };
}

/// What a part's thread, or a reader's, steps with. Contracts see it as its view.
#[derive(Drop)]
pub struct BoardSeat<N: Naming> {
    pub(crate) seat: Seat<u8, View>,
    pub(crate) part: Option<u32>,
    of: PhantomData<N>,
}

impl<N: Naming> Model for BoardSeat<N> {
    ghost use Rattle.std.specs.Prelude.{◌≡◌, []};
    ghost use Rattle.txn_board.specs.declared.view.View.{View};
    ghost use Rattle.txn_board.specs.Rows.{IsNumberOf};

    ghost Value = { View };

    ghost view = { λ s. s.seat.me.0 };

    ghost invariant = { λ s. (s.seat.table_id ≡ N.table) × (s.seat.me.1 ≡ []) × IsNumberOf s.part s.seat.me.0.rows };
}

impl<N: Naming> Seats<N> {
    /// The seat of readers, once each part's is dealt.
    pub fn readers(self) -> BoardSeat<N>
        requires { self.rows ≡ [] }
        ensures { result ≡ self }
    {
        let Seats {
            seat,
            next: _,
            of: _,
        } = self;
        BoardSeat {
            seat,
            part: None,
            of: PhantomData,
        }
    }
}

impl<T: Promise, N: Naming> Board<T, N> {
    /// The seat of the next part.
    pub fn deal(&self, seats: &mut Seats<N>) -> BoardSeat<N>
        requires { 0 < length seats.old.rows }
        ensures left { seats.new ≡ rest_view seats.old }
        ensures right { result ≡ dealt_view seats.old }
    {
        let part = seats.next;
        let seat = self.table.shared.split_seat::<Deals>(&mut seats.seat);
        seats.next = part + 1;
        BoardSeat {
            seat,
            part: Some(part),
            of: PhantomData,
        }
    }

    /// Another seat for readers, which has no load yet.
    pub fn split(&self, seat: &mut BoardSeat<N>) -> BoardSeat<N>
        requires { seat.old.rows ≡ [] }
        ensures left { seat.new ≡ seat.old }
        ensures right { result ≡ spent_view }
    {
        let seat = self.table.shared.split_seat::<Deals>(&mut seat.seat);
        BoardSeat {
            seat,
            part: None,
            of: PhantomData,
        }
    }

    /// Takes in the rows of another seat.
    pub fn join(&self, seat: &mut BoardSeat<N>, other: BoardSeat<N>)
        ensures { seat.new ≡ joined_view seat.old other }
    {
        let BoardSeat {
            seat: taken,
            part,
            of: _,
        } = other;
        self.table.shared.join_seat::<Joins>(&mut seat.seat, taken);
        seat.part = seat.part.or(part);
    }

    /// Ends the board. By the rows of a seat that has every part's, the lists are lawful together, whichever parts keep what
    /// they have in flight.
    pub fn close_with(self, seat: BoardSeat<N>)
        requires { (p : ℕ) → p < length N.lists → HasSeatRow p seat.rows }
        ensures { T.made → (stays : ℕ → Bool) →
            AreLawful (parts_in N.lists) (kept_rows seat.rows stays) }
    {
        let Board {
            table,
            fixed: _,
            low: _,
            of: _,
        } = self;
        let BoardSeat {
            seat,
            part: _,
            of: _,
        } = seat;
        table.close_with(seat).free();
    }

    /// The word of a transaction: below the low watermark as it was at the opening, in the window by a load, past it 0.
    pub(crate) fn look(&self, seat: &mut BoardSeat<N>, txn: u64, word: Word) -> u64
        ensures view { seat.new ≡ with_loads (looked N.lists txn word result) seat.old }
        ensures told { Looked T.made N.lists txn word result seat.old }
    {
        if txn < self.low {
            return self.fixed[(3 * txn + offset_of(word)) as usize];
        }
        let at = txn - self.low;
        if at >= WINDOW {
            return 0;
        }
        self.table
            .shared
            .load::<Looks<T, N>>(&mut seat.seat, (3 * at + offset_of(word)) as usize)
    }

    /// The same of a transaction of the window, whose first word has this place.
    pub(crate) fn look_at(&self, seat: &mut BoardSeat<N>, txn: u64, word: Word, first: usize) -> u64
        requires { start_place N.lists txn Registered ≡ Some first }
        ensures view { seat.new ≡ with_loads (looked N.lists txn word result) seat.old }
        ensures told { Looked T.made N.lists txn word result seat.old }
    {
        self.table
            .shared
            .load::<Looks<T, N>>(&mut seat.seat, first + offset_of(word) as usize)
    }
}
