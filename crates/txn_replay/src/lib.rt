//! How a part is rebuilt from the records of its log: what was in flight is settled, and records are taken one after another.
#![tactic(auto)]

mod grammar;
mod replays;
mod settle;
mod stages;

pub use grammar::Grammar;
pub use replays::{Replays, replay_to};
pub use settle::settle_log;
pub use stages::{Stages, replay_step, replay_whole};
