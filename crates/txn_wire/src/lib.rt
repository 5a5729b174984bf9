//! Lines as requests, and replies as text.
#![tactic(auto)]

mod error;
mod forms;
mod lines;
mod refusals;
mod replies;
mod short;
mod short_pieces;
mod short_refusals;
mod short_replies;
mod values;
mod words;

pub use error::WireError;
pub use lines::read_request;
pub use replies::reply_text;
pub use short::{NO_MEMORY_TEXT, is_long, no_memory_text, put_short};
