//! What a seat knows. No value of these is made.
use std::collections::LinkedList;
use txn_core::CoreRow;

/// A part, and what it has settled and has in flight.
pub struct SeatRow {
    pub part: u32,
    pub row: CoreRow,
}

/// A load that a seat made: the place of the word, and its value then.
pub struct Load {
    pub place: u64,
    pub value: u64,
}

/// The rows of the parts that a seat speaks for, and its loads in order.
pub struct View {
    pub rows: LinkedList<SeatRow>,
    pub loads: LinkedList<Load>,
}
