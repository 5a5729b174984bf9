//! What an audit of the files may find.
use crate::file_id::FileId;

/// The rule that a file breaks: of a list by itself, up to `Snapshot`, or of the lists together.
#[derive(Clone, Copy, PartialEq, Eq)]
pub enum Law {
    Frame,
    Entry,
    Catalog,
    Coord,
    Topic,
    Ack,
    Snapshot,
    Registered,
    Decided,
    Closed,
}

/// The first rule that is broken, and where: a file, and the number of an entry in its part's list.
#[derive(Clone, Copy, PartialEq, Eq)]
pub struct Finding {
    pub law: Law,
    pub file: FileId,
    pub entry: u64,
}
