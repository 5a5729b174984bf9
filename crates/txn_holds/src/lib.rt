//! What a subscription knows of acknowledged places.
#![tactic(auto)]

mod entry;
mod holds;
mod rows;
mod spans;
mod taken;

pub use holds::Holds;
