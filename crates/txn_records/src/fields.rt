//! The fields of records: numbers of 16, 32 and 64 bits and transactions, big-endian.
ghost use Rattle.std.specs.Prelude.{◌≡◌, ◌<◌, ◌≤◌, ◌+◌, ◌^◌, ◌++◌, ℕ, List, [], ◌∷◌, length, drop, IfSome, IfNone};
ghost use Rattle.byteorder.specs.Endian.{big_bytes};
ghost use Rattle.txn_base.specs.declared.txn.TxnId.{TxnId};
ghost use Rattle.txn_base.specs.Room.{capacity};
ghost use Rattle.txn_base.specs.Records.{IsTxnId, IsWord, txn_bytes};

use byteorder::{BigEndian, ByteOrder};
use txn_base::{Bytes, TxnId};

/// Adds a number of 64 bits into the free room.
pub fn put_u64(out: &mut Bytes, n: u64)
    requires { 8 ≤ out.old.room }
    ensures bytes { out.new.bytes ≡ out.old.bytes ++ big_bytes 8 n }
    ensures room { out.old.room ≤ out.new.room + 8 }
    ensures kept { capacity out.old ≤ capacity out.new }
{
    let mut field = [0; 8];
    BigEndian::write_u64(&mut field, n);
    out.put(&field);
}

/// Adds a number of 16 bits into the free room.
pub fn put_u16(out: &mut Bytes, n: u16)
    requires { 2 ≤ out.old.room }
    ensures bytes { out.new.bytes ≡ out.old.bytes ++ big_bytes 2 n }
    ensures room { out.old.room ≤ out.new.room + 2 }
    ensures kept { capacity out.old ≤ capacity out.new }
{
    let mut field = [0; 2];
    BigEndian::write_u16(&mut field, n);
    out.put(&field);
}

/// Adds a number of 32 bits into the free room.
pub fn put_u32(out: &mut Bytes, n: u32)
    requires { 4 ≤ out.old.room }
    ensures bytes { out.new.bytes ≡ out.old.bytes ++ big_bytes 4 n }
    ensures room { out.old.room ≤ out.new.room + 4 }
    ensures kept { capacity out.old ≤ capacity out.new }
{
    let mut field = [0; 4];
    BigEndian::write_u32(&mut field, n);
    out.put(&field);
}

/// Adds a transaction into the free room.
pub fn put_txn(out: &mut Bytes, txn: TxnId)
    requires { 16 ≤ out.old.room }
    ensures bytes { out.new.bytes ≡ out.old.bytes ++ txn_bytes txn }
    ensures room { out.old.room ≤ out.new.room + 16 }
    ensures kept { capacity out.old ≤ capacity out.new }
    ensures fits { IsTxnId txn }
{
    put_u64(out, txn.most);
    put_u64(out, txn.least);
}

/// Adds the version 1 and the kind of a record into the free room.
pub fn put_head(out: &mut Bytes, kind: u8)
    requires { 2 ≤ out.old.room }
    ensures bytes { out.new.bytes ≡ out.old.bytes ++ 1 ∷ kind ∷ [] }
    ensures room { out.old.room ≤ out.new.room + 2 }
    ensures kept { capacity out.old ≤ capacity out.new }
{
    out.put_byte(1);
    out.put_byte(kind);
}

/// Adds the front of a record that names a transaction into the free room.
pub fn put_named(out: &mut Bytes, kind: u8, txn: TxnId)
    requires { 18 ≤ out.old.room }
    ensures bytes { out.new.bytes ≡ out.old.bytes ++ 1 ∷ kind ∷ txn_bytes txn }
    ensures room { out.old.room ≤ out.new.room + 18 }
    ensures kept { capacity out.old ≤ capacity out.new }
    ensures fits { IsTxnId txn }
{
    put_head(out, kind);
    put_txn(out, txn);
}

/// The kind of a record of version 1, and its fields. None where fewer than two bytes or another version stand there.
pub fn take_head(bytes: &[u8]) -> Option<(u8, &[u8])>
    ensures some { IfSome result (λ p. bytes.now ≡ 1 ∷ p.0 ∷ p.1.now) }
    ensures none { IfNone result ((kind : ℕ) (rest : List ℕ) → bytes.now ≡ 1 ∷ kind ∷ rest → ⊥) }
{
    if bytes.len() < 2 || bytes[0] != 1 {
        return None;
    }
    Some((bytes[1], &bytes[2..]))
}

/// The transaction at the front, and what stands behind it. None where there are fewer than 16 bytes.
pub fn take_txn(bytes: &[u8]) -> Option<(TxnId, &[u8])>
    ensures some { IfSome result (λ p. bytes.now ≡ txn_bytes p.0 ++ p.1.now) }
    ensures id { IfSome result (λ p. IsTxnId p.0) }
    ensures rest { IfSome result (λ p. p.1.now ≡ drop 16 bytes.now) }
    ensures none { IfNone result (length bytes.now < 16) }
{
    if bytes.len() < 16 {
        return None;
    }
    let most = BigEndian::read_u64(bytes);
    let least = BigEndian::read_u64(&bytes[8..]);
    Some((TxnId { most, least }, &bytes[16..]))
}

/// The number of 64 bits at the front, and what stands behind it. None where there are fewer than 8 bytes.
pub fn take_u64(bytes: &[u8]) -> Option<(u64, &[u8])>
    ensures some { IfSome result (λ p. bytes.now ≡ big_bytes 8 p.0 ++ p.1.now) }
    ensures fits { IfSome result (λ p. IsWord p.0) }
    ensures none { IfNone result (length bytes.now < 8) }
{
    if bytes.len() < 8 {
        return None;
    }
    let (front, rest) = bytes.split_at(8);
    Some((BigEndian::read_u64(front), rest))
}

/// The transaction that these bytes are.
pub fn only_txn(bytes: &[u8]) -> Option<TxnId>
    ensures some { IfSome result (λ txn. (bytes.now ≡ txn_bytes txn) × IsTxnId txn) }
    ensures none { IfNone result ((txn : TxnId) → bytes.now ≡ txn_bytes txn → ⊥) }
{
    let (txn, after) = take_txn(bytes)?;
    if after.len() > 0 {
        return None;
    }
    Some(txn)
}

/// The number of 64 bits that these bytes are.
pub fn only_u64(bytes: &[u8]) -> Option<u64>
    ensures some { IfSome result (λ n. (bytes.now ≡ big_bytes 8 n) × IsWord n) }
    ensures none { IfNone result ((n : ℕ) → bytes.now ≡ big_bytes 8 n → ⊥) }
{
    if bytes.len() != 8 {
        return None;
    }
    Some(BigEndian::read_u64(bytes))
}

/// The number of 32 bits that these bytes are.
pub fn only_u32(bytes: &[u8]) -> Option<u32>
    ensures some { IfSome result (λ n. (bytes.now ≡ big_bytes 4 n) × (n < 2 ^ 32)) }
    ensures none { IfNone result ((n : ℕ) → bytes.now ≡ big_bytes 4 n → ⊥) }
{
    if bytes.len() != 4 {
        return None;
    }
    Some(BigEndian::read_u32(bytes))
}
