//! The transactions of a coordinator's entries, by number.
#![tactic(auto)]

mod ahead;
mod decisions;
mod row;
mod table;
mod undriven;

pub use row::Row;
pub use table::Table;
