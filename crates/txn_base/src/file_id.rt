//! The name of a file on a disk.

/// The name of a file: a part's number, and a row among the files of that part. Row 2 of a part is its ledger, rows 0
/// and 1 of a topic are its snapshot files.
#[derive(Clone, Copy, PartialEq, Eq, Hash)]
pub struct FileId {
    pub part: u32,
    pub row: u32,
}
