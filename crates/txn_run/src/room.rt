//! The room that a run takes before its first line.
ghost use Rattle.std.specs.Prelude.{◌≡◌, ◌≤◌, [], length, IfOk};
ghost use Rattle.txn_base.specs.Room.{capacity};
ghost use Rattle.txn_run.specs.Going.{IsLineSoFar};

use crate::partial_line::PartialLine;
use crate::put::{SHORT, with_room};
use std::alloc::{AllocError, Global};
use txn_base::Bytes;

/// How many bytes are taken at most at once.
pub const CHUNK: usize = 4096;

/// The room that a run takes before its first line.
#[derive(Drop)]
pub struct Room {
    pub chunk: Vec<u8>,
    pub pending: PartialLine,
    pub out: Bytes,
}

/// The room for lines of at most so many bytes.
pub fn room_for(alloc: Global, line: u64) -> Result<Room, AllocError>
    ensures { IfOk result (λ r. (length r.chunk.items ≡ 4096) × IsLineSoFar line r.pending []
        × (line ≤ capacity r.pending.line) × (512 ≤ capacity r.out)) }
{
    let chunk = vec![in alloc; 0u8; CHUNK]?;
    let piece = with_room(alloc, line as usize)?;
    let out = with_room(alloc, SHORT)?;
    Ok(Room {
        chunk,
        pending: PartialLine {
            line: piece,
            long: false,
        },
        out,
    })
}
