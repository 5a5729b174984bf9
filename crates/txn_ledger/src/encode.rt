//! The bytes of a batch, in room that was reserved.
ghost use Rattle.std.specs.Prelude.{◌≡◌, ◌+◌, ◌^◌, ◌<◌, ◌≤◌, [], ◌∷◌, ◌++◌, length, vec_len, vec_capacity, All};
ghost use Rattle.txn_base.specs.Bytes.{contents_of};
ghost use Rattle.txn_base.specs.Frames.{IsRecord, record_bytes, body_of, behind_gate};
ghost use Rattle.txn_base.specs.Room.{capacity};
ghost use Rattle.txn_ledger.specs.Positions.{positions_of};

use crate::position::Position;
use txn_base::Bytes;

/// Adds a record with its length before it.
fn put_record(out: &mut Bytes, bytes: &[u8])
    requires small { length bytes.now < 2 ^ 16 }
    requires room { length bytes.now + 2 ≤ out.old.room }
    ensures bytes { out.new.bytes ≡ out.old.bytes ++ record_bytes bytes.now }
    ensures kept { capacity out.old ≤ capacity out.new }
{
    out.put(&(bytes.len() as u16).to_be_bytes());
    out.put(bytes);
}

fn body_len(batch: &[Bytes]) -> u32
    requires { length (body_of (contents_of batch.now)) < 2 ^ 32 }
    ensures { result ≡ length (body_of (contents_of batch.now)) }
{
    let mut len = 0u32;
    for item in batch {
        len += item.len() as u32 + 2;
    }
    len
}

/// All of a batch's frame but the gate byte.
pub fn encode(out: &mut Bytes, batch: &[Bytes])
    requires each { All IsRecord (contents_of batch.now) }
    requires small { length (body_of (contents_of batch.now)) < 2 ^ 32 }
    requires room { length (behind_gate (contents_of batch.now)) ≤ capacity out.old }
    ensures bytes { out.new.bytes ≡ behind_gate (contents_of batch.now) }
    ensures kept { capacity out.old ≤ capacity out.new }
{
    out.clear();
    out.put(&body_len(batch).to_be_bytes());
    for item in batch {
        put_record(out, item.as_slice());
    }
}

/// Adds a position where there is room.
fn put_position(positions: &mut Vec<Position>, position: Position)
    requires { vec_len positions.old < vec_capacity positions.old }
    ensures items { positions.new.items ≡ positions.old.items ++ position ∷ [] }
    ensures len { vec_len positions.new ≡ vec_len positions.old + 1 }
    ensures kept { vec_capacity positions.old ≤ vec_capacity positions.new }
{
    let _ = positions.push(position);
}

/// Adds the positions of a batch's records, the first of which has its length at this offset.
pub fn add_positions(positions: &mut Vec<Position>, from: u64, batch: &[Bytes])
    requires bound { from + length (body_of (contents_of batch.now)) < 2 ^ 63 }
    requires each { All IsRecord (contents_of batch.now) }
    requires room { vec_len positions.old + length batch.now ≤ vec_capacity positions.old }
    ensures items { positions.new.items ≡ positions.old.items ++ positions_of from (contents_of batch.now) }
    ensures len { vec_len positions.new ≡ vec_len positions.old + length batch.now }
    ensures kept { vec_capacity positions.old ≤ vec_capacity positions.new }
{
    let mut at = from;
    for item in batch {
        let len = item.len() as u16;
        put_position(
            positions,
            Position {
                offset: at + 2,
                len,
            },
        );
        at += len as u64 + 2;
    }
}
