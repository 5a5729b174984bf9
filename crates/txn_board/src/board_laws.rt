//! Laws of the board. Each function does nothing, and its contract is the law.
ghost use Rattle.std.specs.Prelude.{◌≡◌, ◌≤◌, ◌+◌, ℕ, List, [], Some, is_some, replicate};
ghost use mathlib.Core.List.{IsPrefix};
ghost use Rattle.atomic_table.specs.Table.{State, opening};
ghost use Rattle.txn_base.specs.declared.txn.Decision.TheVariants.{Commit, Abort};
ghost use Rattle.txn_base.specs.declared.txn.Status.{Status};
ghost use Rattle.txn_base.specs.declared.core_entry.CoreEntry.{CoreEntry};
ghost use Rattle.txn_base.specs.declared.entry.CoordEntry.{CoordEntry};
ghost use Rattle.txn_model.specs.Skeletons.{coord_skeletons};
ghost use Rattle.txn_model.specs.Coord.{CoordLawful, has_new, in_parts, status_of, decision_of, closing_of};
ghost use Rattle.txn_model.specs.Topic.{marker_of};
ghost use Rattle.txn_model.specs.Deadlines.{low_of};
ghost use Rattle.txn_core.specs.Steps.{is_decision, settled_of};
ghost use Rattle.txn_core.specs.Kept.{CoreInvariant};
ghost use Rattle.txn_board.specs.declared.view.View.{View};
ghost use Rattle.txn_board.specs.declared.words.Word.{Word};
ghost use Rattle.txn_board.specs.declared.words.Word.TheVariants.{Registered, Decided, Done};
ghost use Rattle.txn_board.specs.Words.{window, IsIn, word_at, WordsSay, tells, low_of_log};
ghost use Rattle.txn_board.specs.Rows.{parts_in, list_in, low_in, opening_view};
ghost use Rattle.txn_board.specs.Rule.{CanOpenBoard, Holds, AtEachMoment, OfEachView, OfEachLoad, OpensBy, RowsAreCores, HaveSeats, SeatsAreApart, RowsAreApart};
ghost use Rattle.txn_board.specs.Rule.{IsSettledBelow, FitsWindow, LoadsStay, TwoBitsDecide, DecisionsAreWhole, IsUnclosed};
ghost use Rattle.txn_board.specs.Calls.{IsOfRow, SettlesByStep, DropsByStep, StartsByStep, InsideByStep, MarkerByStep, CloseByStep};
ghost use Rattle.txn_board.specs.Seen.{OfAnyLists, OfLawfulLogs, ToldWithin, status_told, decision_told, IsWordIn, IsStatusIn};

use crate::board::Promise;

/// The bits stand for what the lists say: that a transaction is begun, its parts, its decision, its closing and its markers. So
/// they make its status.
pub fn bits_are_what_the_lists_say()
    ensures begun { OfAnyLists (λ lists x. tells lists x Registered 0 ≡ has_new (lists 0) x) }
    ensures parts { OfAnyLists (λ lists x. (p : ℕ) →
        tells lists x Registered (p + 1) ≡ in_parts (lists 0) x (p + 1)) }
    ensures commit { OfLawfulLogs (λ lists x. tells lists x Decided 0 ≡ is_decision
        (decision_of (lists 0) x) Commit) }
    ensures abort { OfLawfulLogs (λ lists x. tells lists x Decided 1 ≡ is_decision
        (decision_of (lists 0) x) Abort) }
    ensures closed { OfAnyLists (λ lists x. tells lists x Done 0 ≡ is_some
        (closing_of (lists 0) x)) }
    ensures marked { OfAnyLists (λ lists x. (p : ℕ) →
        tells lists x Done (p + 1) ≡ is_some (marker_of (lists (p + 1)) x)) }
    ensures status { OfLawfulLogs (λ lists x. status_told lists x ≡ status_of (lists 0) x) }
    ensures decision { OfLawfulLogs (λ lists x. decision_told lists x ≡ decision_of (lists 0) x) }
{}

/// Under the rule the state keeps what every step of the core keeps, and each of its lists begins with that of the opening.
pub fn the_rule_has_a_core()
    ensures kept { AtEachMoment (λ lists s c. CoreInvariant (parts_in lists) c) }
    ensures longer { AtEachMoment (λ lists s c. (p : ℕ) →
        IsPrefix (list_in lists p) (settled_of c p)) }
{}

/// What the rule says between any two steps: of the words; of the rows, each part's in one seat; of the transactions below the
/// window and of those that are begun; and of the loads: their bits stay, and those of a decision show nothing or all of it.
pub fn the_rule_in_full()
    ensures words { AtEachMoment (λ lists s c. WordsSay (low_in lists) window s.words
        (settled_of c)) }
    ensures two_bits { AtEachMoment (λ lists s c. TwoBitsDecide lists s) }
    ensures rows { AtEachMoment (λ lists s c. RowsAreCores lists s c) }
    ensures seated { AtEachMoment (λ lists s c. HaveSeats lists s) }
    ensures apart { AtEachMoment (λ lists s c. SeatsAreApart s) }
    ensures once { AtEachMoment (λ lists s c. RowsAreApart s) }
    ensures below { AtEachMoment (λ lists s c. IsSettledBelow lists c) }
    ensures fits { AtEachMoment (λ lists s c. FitsWindow lists c) }
    ensures loads { AtEachMoment (λ lists s c. LoadsStay s) }
    ensures whole { AtEachMoment (λ lists s c. DecisionsAreWhole lists s) }
{}

/// A seat's row changes by a step of the core: where its first entry settles, where its flight is lost, and where it starts
/// entries that the other lists allow.
pub fn rows_change_by_core_steps()
    ensures settle { OfEachView SettlesByStep }
    ensures drop { OfEachView DropsByStep }
    ensures start { OfEachView StartsByStep }
{}

/// A start that loads words of its transaction is an allowed step of the core, on a board of the rule where a seat had the view
/// of its last load: of messages or a hold, of a marker, of a closing.
pub fn starts_are_core_steps<T: Promise>()
    ensures inside { InsideByStep T.made }
    ensures marker { MarkerByStep T.made }
    ensures close { CloseByStep T.made }
{}

/// The low watermark is the coordinator's, and a transaction that has a status and isn't closed lies in the window.
pub fn the_watermark_is_the_coordinators()
    ensures low { (n : ℕ) (c : List CoordEntry) → CoordLawful n (coord_skeletons c) →
        low_of_log (coord_skeletons c) ≡ low_of c }
    ensures unclosed { AtEachMoment (λ lists s c. (x : ℕ) (st : Status) → IsStatusIn x (Some st) c →
        IsUnclosed st → IsIn (low_in lists) window x) }
{}

/// A transaction of which a reader is told a status that isn't closed lies in the window.
pub fn an_open_one_lies_in_the_window<T: Promise>()
    ensures { (lists : List (List CoreEntry)) (x : ℕ) (st : Status) → CanOpenBoard lists →
        IsUnclosed st → ToldWithin T.made lists x st }
{}

/// A load of a word in the window shows what the lists said on a board of the rule where a seat had the view of that load; and
/// where that is the list of the seat's own part, what its row says.
pub fn a_load_shows_the_lists()
    ensures bits { OfEachLoad (λ x w n v c. IsWordIn x w n c) }
    ensures row { OfEachLoad (λ x w n v c. IsOfRow x w n v) }
{}

/// Lists that are lawful together open a board whose words say what they say; so do empty ones.
pub fn lawful_lists_open_a_board()
    ensures rule { OpensBy (λ lists words. Holds lists (opening words [] (opening_view lists))) }
    ensures empty { (n : ℕ) → n ≤ 62 → CanOpenBoard (replicate (n + 1) []) }
{}
