//! A topic's transaction buffer: its messages and markers in a ledger, and what is kept of them.
#![tactic(auto)]

mod batch;
mod error;
mod front;
mod record;
mod replay;
mod slice;
mod topic;

pub use error::TopicError;
pub use topic::Topic;
