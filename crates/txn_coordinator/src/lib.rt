//! The coordinator: the part that gives numbers to transactions, adds parts to them and decides how they end.
#![tactic(auto)]

mod coordinator;
mod decisions;
mod error;
mod log_entry;
mod replay;

pub use coordinator::Coordinator;
pub use error::CoordError;
