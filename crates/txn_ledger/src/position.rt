//! Where a record stands in its file.

/// The offset of a record's first byte, behind its length, and its length in bytes.
#[derive(Clone, Copy, PartialEq, Eq)]
pub struct Position {
    pub offset: u64,
    pub len: u16,
}
