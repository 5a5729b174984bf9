//! Lines in, replies out, over the files of a disk.
#![tactic(auto)]

mod ending;
mod lines;
mod partial_line;
mod program;
mod put;
mod room;
mod status;
mod words;

pub use lines::Stop;
pub use partial_line::PartialLine;
pub use program::run;
pub use put::{put_reply, with_room};
pub use status::RunStatus;
pub use words::topic_of;
