//! What the files of stories say: stories with their cases, words, the bytes of texts and files, limits, faults, crashes, and runs
//! as they are asked for. It runs nothing, and compares nothing but a reply that it writes with the same one as it was read.
#![tactic(auto)]

mod bounds;
mod frames;
mod names;
mod page;
mod script;
mod story;
mod text;
mod wrong;

pub use bounds::{checked, lower};
pub use frames::{file_bytes, file_line};
pub use names::{CHOICES, LOG, TOPIC, choices_of, fault_of, file_of};
pub use page::Page;
pub use script::Script;
pub use story::{Story, filled, is_head, name_of};
pub use text::{first_word, hex_of, lines_in, number, put_ended, told};
pub use wrong::Wrong;
