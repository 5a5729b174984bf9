//! The deadlines of open transactions, in their order.
#![tactic(auto)]

mod deadlines;

pub use deadlines::Deadlines;
