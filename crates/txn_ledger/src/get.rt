//! A record of a file.
ghost use Rattle.std.specs.Prelude.{◌≡◌, ◌+◌, ◌≤◌, Err, take, drop, length, IfOk};
ghost use Rattle.txn_base.specs.Disk.{Same};
ghost use Rattle.txn_base.specs.Moves.{After, FaultsIn};

use crate::GetError;
use crate::position::Position;
use std::alloc::Global;
use txn_base::{Bytes, Disk, FileId};

/// The bytes at a position of the file, in one read.
pub fn read_record<D: Disk>(
    alloc: Global,
    disk: &mut D,
    file: FileId,
    position: Position,
) -> Result<Bytes, GetError>
    requires within { D.tells → position.offset + position.len ≤ length (D.seen disk.old file) }
    ensures found { D.tells → IfOk result (λ bytes. bytes.bytes ≡ take position.len (drop position.offset (D.seen disk.old file))) }
    ensures seen { D.seen disk.new ≡ D.seen disk.old }
    ensures images { After D.Disk Same disk.old disk.new }
    ensures cause { FaultsIn D.Disk file.part disk.old disk.new (result ≡ Err GetError.Fault) }
    ensures calls { D.calls disk.new ≤ D.calls disk.old + 1 }
    ensures writes { D.writes disk.new ≡ D.writes disk.old }
{
    let mut bytes = Vec::new(alloc);
    bytes.resize(position.len as usize, 0)?;
    disk.read(file, position.offset, &mut bytes)?;
    Ok(Bytes::from_vec(bytes))
}
