//! The records of the coordinator's log.
ghost use Rattle.std.specs.Prelude.{◌≡◌, ◌≤◌, ◌+◌, ◌∷◌, ◌++◌, IfOk, IfSome, IfNone};
ghost use Rattle.txn_base.specs.declared.entry.CoordEntry.{CoordEntry};
ghost use Rattle.txn_base.specs.Decoded.{coord_entry_of};
ghost use Rattle.txn_base.specs.Records.{IsCoordEntry, IsCoordRecord, coord_record};
ghost use Rattle.txn_base.specs.Room.{capacity};

use crate::fields::{
    only_txn, only_u32, only_u64, put_named, put_u32, put_u64, take_head, take_txn,
};
use std::alloc::{AllocError, Global};
use txn_base::{Bytes, CoordEntry};

/// Adds the record of an entry into the free room. It takes no memory.
pub fn put_coord(entry: &CoordEntry, out: &mut Bytes)
    requires { 26 ≤ out.old.room }
    ensures bytes { out.new.bytes ≡ out.old.bytes ++ coord_record entry.now }
    ensures room { out.old.room ≤ out.new.room + 26 }
    ensures kept { capacity out.old ≤ capacity out.new }
{
    match entry {
        CoordEntry::New { txn, deadline } => {
            put_named(out, 1, *txn);
            put_u64(out, *deadline);
        }
        CoordEntry::AddPart { txn, part } => {
            put_named(out, 2, *txn);
            put_u32(out, *part);
        }
        CoordEntry::Committing { txn } => put_named(out, 3, *txn),
        CoordEntry::Committed { txn } => put_named(out, 4, *txn),
        CoordEntry::Aborting { txn } => put_named(out, 5, *txn),
        CoordEntry::Aborted { txn } => put_named(out, 6, *txn),
    }
}

/// The record of an entry.
pub fn write_coord(alloc: Global, entry: &CoordEntry) -> Result<Bytes, AllocError>
    requires { IsCoordEntry entry.now }
    ensures written { IfOk result (λ b. IsCoordRecord b.bytes entry.now) }
    ensures entry { IfOk result (λ b. coord_entry_of b.bytes ≡ entry.now) }
{
    let mut out = Bytes::new(alloc);
    out.reserve(26)?;
    put_coord(entry, &mut out);
    Ok(out)
}

/// The entry of a record. None exactly where the bytes aren't in the grammar.
pub fn read_coord(bytes: &[u8]) -> Option<CoordEntry>
    ensures read { IfSome result (λ entry. IsCoordRecord bytes.now entry) }
    ensures entry { IfSome result (λ entry. entry ≡ coord_entry_of bytes.now) }
    ensures none { IfNone result ((entry : CoordEntry) → IsCoordRecord bytes.now entry → ⊥) }
{
    let entry = read_fields(bytes)?;
    Some(entry)
}

/// The same, by its kind.
fn read_fields(bytes: &[u8]) -> Option<CoordEntry>
    ensures some { IfSome result (λ entry. IsCoordRecord bytes.now entry) }
    ensures none { IfNone result ((entry : CoordEntry) → IsCoordRecord bytes.now entry → ⊥) }
{
    let (kind, rest) = take_head(bytes)?;
    match kind {
        1 => read_new(rest),
        2 => read_add_part(rest),
        3 => Some(CoordEntry::Committing {
            txn: only_txn(rest)?,
        }),
        4 => Some(CoordEntry::Committed {
            txn: only_txn(rest)?,
        }),
        5 => Some(CoordEntry::Aborting {
            txn: only_txn(rest)?,
        }),
        6 => Some(CoordEntry::Aborted {
            txn: only_txn(rest)?,
        }),
        _ => None,
    }
}

/// A new transaction, in the fields of its record.
fn read_new(rest: &[u8]) -> Option<CoordEntry>
    ensures some { IfSome result (λ entry. IsCoordRecord (1 ∷ 1 ∷ rest.now) entry) }
    ensures none { IfNone result ((entry : CoordEntry) → IsCoordRecord (1 ∷ 1 ∷ rest.now) entry → ⊥) }
{
    let (txn, field) = take_txn(rest)?;
    let deadline = only_u64(field)?;
    Some(CoordEntry::New { txn, deadline })
}

/// A part that is added, in the fields of its record.
fn read_add_part(rest: &[u8]) -> Option<CoordEntry>
    ensures some { IfSome result (λ entry. IsCoordRecord (1 ∷ 2 ∷ rest.now) entry) }
    ensures none { IfNone result ((entry : CoordEntry) → IsCoordRecord (1 ∷ 2 ∷ rest.now) entry → ⊥) }
{
    let (txn, field) = take_txn(rest)?;
    let part = only_u32(field)?;
    if part < 1 || part > 62 {
        return None;
    }
    Some(CoordEntry::AddPart { txn, part })
}
