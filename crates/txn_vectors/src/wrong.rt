//! Why a line isn't told.
use std::alloc::{AllocError, AllocFailed};

/// Why a line isn't told.
#[derive(Clone, Copy)]
pub enum Wrong {
    NoMemory,
    /// It can't be read.
    Line(&'static str),
}

impl From<AllocError> for Wrong {
    fn from(_: AllocError) -> Wrong {
        Wrong::NoMemory
    }
}

impl<T: Drop> From<AllocFailed<T>> for Wrong {
    fn from(_: AllocFailed<T>) -> Wrong {
        Wrong::NoMemory
    }
}
