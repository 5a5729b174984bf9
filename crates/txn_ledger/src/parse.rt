//! The frame that some bytes begin with.
ghost use Rattle.std.specs.Prelude.{◌≡◌, ◌+◌, ◌^◌, ◌<◌, ◌≤◌, ◌++◌, List, ℕ, Ok, min, length, take, vec_len, IfOk, IfSome, IfNone, true, false};
ghost use Rattle.txn_base.specs.Frames.{Batch, Record, IsRecord, IsBatch, record_bytes, body_of};
ghost use Rattle.txn_ledger.specs.Bodies.{batch_in};
ghost use Rattle.txn_ledger.specs.Found.{IsHead, FitsIn};
ghost use Rattle.txn_ledger.specs.Positions.{positions_of};

use crate::position::Position;
use byteorder::{BigEndian, ByteOrder};
use std::alloc::AllocError;

/// What stands in a frame's place: a gate that is open and the length of a body, an end or a gate that is closed, or an
/// open gate that begins no frame.
#[derive(Clone, Copy, PartialEq, Eq)]
pub enum Head {
    Body { len: u32 },
    End,
    NoFrame,
}

/// The bytes before a body: the gate, and a length of four bytes.
pub const HEAD: usize = 5;

/// The longest body: 64 records of 65,535 bytes with their lengths.
const MAX_BODY: u32 = 64 * 65537;

/// What stands there, by the first bytes of those that are left.
pub fn head_of(head: &[u8], left: u64) -> Head
    requires { length head.now ≡ min 5 left }
    ensures head { (rest : List ℕ) → length rest ≡ left → head.now ≡ take 5 rest → IsHead rest result }
    ensures fits { FitsIn left result }
{
    if head.is_empty() {
        return Head::End;
    }
    if head[0] != 1 {
        return Head::End;
    }
    if head.len() < HEAD {
        return Head::NoFrame;
    }
    let len = BigEndian::read_u32(head.split_at(1).1);
    if len > MAX_BODY {
        return Head::NoFrame;
    }
    if left - (HEAD as u64) < len as u64 {
        return Head::NoFrame;
    }
    Head::Body { len }
}

/// The length of the record that stands first, and what stands behind it.
fn first_record(rest: &[u8]) -> Option<(u16, &[u8])>
    ensures some { IfSome result (λ p. (bytes : Record) × IsRecord bytes × (p.0 ≡ length bytes) × (rest.now ≡ record_bytes bytes ++ p.1.now)) }
    ensures none { IfNone result ((bytes : Record) (after : List ℕ) → IsRecord bytes → rest.now ≡ record_bytes bytes ++ after → ⊥) }
{
    if rest.len() < 2 {
        return None;
    }
    let len = BigEndian::read_u16(rest);
    let behind = rest.split_at(2).1;
    if len < 2 {
        return None;
    }
    if behind.len() < len as usize {
        return None;
    }
    Some((len, behind.split_at(len as usize).1))
}

/// Adds the positions of a body's records, the first of which has its length at this offset. Answers whether the body
/// is that of a batch.
pub fn add_records(
    positions: &mut Vec<Position>,
    from: u64,
    body: &[u8],
) -> Result<bool, AllocError>
    requires bound { from + length body.now ≤ 2 ^ 50 }
    ensures batch { IfOk result (λ is. is ≡ true → IsBatch (batch_in body.now)) }
    ensures filled { IfOk result (λ is. is ≡ true → body.now ≡ body_of (batch_in body.now)) }
    ensures positions { IfOk result (λ is. is ≡ true → positions.new.items ≡ positions.old.items ++ positions_of from (batch_in body.now)) }
    ensures none { IfOk result (λ is. is ≡ false → (batch : Batch) → IsBatch batch → body.now ≡ body_of batch → ⊥) }
{
    let mut rest = body;
    let mut at = from;
    let mut count = 0usize;
    while !rest.is_empty() {
        if count == 64 {
            return Ok(false);
        }
        let Some((len, after)) = first_record(rest) else {
            return Ok(false);
        };
        positions.push(Position {
            offset: at + 2,
            len,
        })?;
        at += len as u64 + 2;
        count += 1;
        rest = after;
    }
    Ok(count > 0)
}
