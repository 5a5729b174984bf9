//! All parts of a disk together, and the answer to one request.
#![tactic(auto)]

mod answer;
mod begin;
mod end;
mod engine;
mod names;
mod opening;
mod publish;
mod read;
mod refusals;

pub use engine::Engine;
pub use opening::EngineError;
