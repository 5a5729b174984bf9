//! The outside in memory, for tests: a disk that fails where it is told to and can crash, a source, a sink and a clock.
#![tactic(auto)]

mod change;
mod clock;
mod countdown;
mod crash;
mod disk;
mod fault;
mod file;
mod files;
mod sink;
mod source;

pub use clock::ListClock;
pub use crash::Choice;
pub use disk::MemDisk;
pub use fault::{FaultAt, Op};
pub use sink::MemSink;
pub use source::MemSource;
