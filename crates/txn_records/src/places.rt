//! A list of places in a record: their count in 16 bits, and each in 64.
ghost use Rattle.std.specs.Prelude.{◌≡◌, ◌<◌, ◌≤◌, ◌+◌, ◌*◌, ◌↔◌, ◌++◌, ℕ, List, IsTrue, length, IfOk, IfSome, IfNone, Err, All};
ghost use Rattle.std.specs.List.{flat_map};
ghost use Rattle.std.specs.List.Sorted.{IsStrictlyIncreasing};
ghost use Rattle.byteorder.specs.Endian.{big_bytes};
ghost use Rattle.txn_base.specs.Records.{IsWord, ArePlaces, places_bytes};
ghost use Rattle.txn_base.specs.Room.{capacity};

use crate::error::RecordError;
use crate::fields::{put_u16, put_u64};
use byteorder::{BigEndian, ByteOrder};
use std::alloc::{AllocError, Global};
use txn_base::{Bytes, Places};

/// Adds a list of places into the free room.
pub fn put_places(out: &mut Bytes, places: &[u64])
    requires few { length places.now ≤ 256 }
    requires room { 2 + 8 * length places.now ≤ out.old.room }
    ensures bytes { out.new.bytes ≡ out.old.bytes ++ places_bytes places.now }
    ensures kept { capacity out.old ≤ capacity out.new }
{
    put_u16(out, places.len() as u16);
    for place in places {
        put_u64(out, *place);
    }
}

/// The list of places that these bytes are: 1 to 256 of them, ascending. `Bad` exactly where they are none.
pub fn read_places(alloc: Global, bytes: &[u8]) -> Result<Places, RecordError>
    ensures bytes { IfOk result (λ places. bytes.now ≡ places_bytes places) }
    ensures form { IfOk result (λ places. ArePlaces places) }
    ensures bad { result ≡ Err RecordError.Bad → (places : List ℕ) → ArePlaces places → bytes.now ≡ places_bytes places → ⊥ }
{
    let Some((count, words)) = take_count(bytes) else {
        return Err(RecordError::Bad);
    };
    let Ok(places) = decoded(alloc, count, words) else {
        return Err(RecordError::NoMemory);
    };
    if !is_ascending(places.as_slice()) {
        return Err(RecordError::Bad);
    }
    Ok(places)
}

/// So many numbers of 64 bits.
fn decoded(alloc: Global, count: usize, words: &[u8]) -> Result<Places, AllocError>
    requires { length words.now ≡ 8 * count }
    ensures words { IfOk result (λ places. words.now ≡ flat_map (big_bytes 8) places) }
    ensures count { IfOk result (λ places. length places ≡ count) }
    ensures fit { IfOk result (λ places. All IsWord places) }
{
    let mut places = vec![in alloc; 0; count]?;
    decode(words, &mut places);
    Ok(Places::from_vec(places))
}

/// Reads the numbers of 64 bits that the bytes are.
fn decode(words: &[u8], into: &mut [u64])
    requires { length words.now ≡ 8 * length into.old }
    ensures words { words.now ≡ flat_map (big_bytes 8) into.new }
    ensures fit { All IsWord into.new }
{
    BigEndian::read_u64_into(words, into);
}

/// A count from 1 to 256, and behind it 8 bytes for each.
#[tactic(auto, using(crate::proofs::PlaceLists::places_length, crate::proofs::PlaceLists::places_count))]
fn take_count(bytes: &[u8]) -> Option<(usize, &[u8])>
    ensures some { IfSome result (λ p. bytes.now ≡ big_bytes 2 p.0 ++ p.1.now) }
    ensures count { IfSome result (λ p. (1 ≤ p.0) × (p.0 ≤ 256)) }
    ensures words { IfSome result (λ p. length p.1.now ≡ 8 * p.0) }
    ensures none { IfNone result ((places : List ℕ) → ArePlaces places → bytes.now ≡ places_bytes places → ⊥) }
{
    if bytes.len() < 2 {
        return None;
    }
    let count = BigEndian::read_u16(bytes) as usize;
    if count < 1 || count > 256 {
        return None;
    }
    if bytes.len() != 8 * count + 2 {
        return None;
    }
    Some((count, &bytes[2..]))
}

fn is_ascending(places: &[u64]) -> bool
    ensures { IsTrue result ↔ IsStrictlyIncreasing places.now }
{
    for i in 1..places.len() {
        if places[i] <= places[i - 1] {
            return false;
        }
    }
    true
}
