//! What a client is told where a part refuses.
ghost use Rattle.std.specs.Prelude.{◌≡◌, ◌≤◌, length};
ghost use Rattle.txn_engine.specs.Refusals.{coord_refusal};

use crate::engine::COORDINATOR;
use txn_base::{Refusal, TextRoom};
use txn_coordinator::CoordError;

/// What is told of a refusal of the coordinator, with the name of the part in room that was taken before.
pub fn coord_refusal(error: CoordError, room: TextRoom) -> Refusal
    requires { 12 ≤ room }
    ensures { result ≡ coord_refusal error }
{
    match error {
        CoordError::NotFound => Refusal::NotFound,
        CoordError::NotOpen { status } => Refusal::NotOpen { status },
        CoordError::BadTimeout => Refusal::BadTimeout,
        CoordError::Full { what, count } => Refusal::Full { what, count },
        CoordError::Fault => Refusal::Fault {
            part: room.fill(COORDINATOR),
        },
        CoordError::NoMemory => Refusal::NoMemory,
    }
}
