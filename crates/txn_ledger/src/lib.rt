//! A list of records on a disk: each batch of them stands there as a whole or not at all.
#![tactic(auto)]

mod encode;
mod error;
mod found;
mod gate;
mod get;
mod ledger;
mod log;
mod open;
mod parse;
mod position;
mod scan;
mod settle;
mod stage;
mod state;
mod window;
mod write;

pub use error::OpenError;
pub use ledger::Ledger;
pub use log::{GetError, RecordLog, Settled};
