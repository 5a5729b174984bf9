//! Why words are no command line.
use crate::text::Text;

/// Why words are no command line: no command and its words, a name without the form of one, a subscription whose
/// topic isn't there, or more names than the catalog may have.
#[derive(Drop)]
pub enum Usage {
    Words,
    BadName { word: Text },
    OrphanSub { word: Text },
    TooMany { count: u64 },
}
