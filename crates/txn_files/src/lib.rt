//! The real outside: the files of a folder, standard input and output, and the system's clock.
#![tactic(auto)]

mod clock;
mod disk;
mod file;
mod files;
mod folder;
mod open_files;
mod read_ahead;
mod readiness;
mod streams;

pub use clock::SystemClock;
pub use disk::FolderDisk;
pub use open_files::OPEN_FILES;
pub use streams::{Input, Output};
