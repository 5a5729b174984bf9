//! Shared words that say of each transaction which parts it has, how it is decided and which parts are done; and seats whose
//! views are rows of the core.
#![tactic(auto)]

mod board;
mod board_laws;
mod fill;
mod readers;
mod settles;
mod starts;
mod view;
mod words;

pub use board::{
    Board, BoardSeat, Deals, Joins, Law, Looks, Naming, Opened, Promise, Seats, Surely,
};
pub use board_laws::{
    a_load_shows_the_lists, an_open_one_lies_in_the_window, bits_are_what_the_lists_say,
    lawful_lists_open_a_board, rows_change_by_core_steps, starts_are_core_steps,
    the_rule_has_a_core, the_rule_in_full, the_watermark_is_the_coordinators,
};
pub use fill::WINDOW;
pub use settles::Settles;
pub use starts::{Begins, Stepping};
pub use view::{Load, SeatRow, View};
pub use words::{Mark, OwnStart, Word};
