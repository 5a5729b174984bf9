//! The records of the catalog, one name each.
ghost use Rattle.std.specs.Prelude.{◌≡◌, ℕ, List, true, if◌then◌else◌, IfOk, IfSome, IfNone};
ghost use Rattle.std.specs.List.{list_all};
ghost use Rattle.txn_base.specs.Decoded.{name_of_record};
ghost use Rattle.txn_base.specs.Names.{is_name_byte as is_byte_of_name, is_topic_name as is_name_of_topic, is_sub, is_name as has_form};
ghost use Rattle.txn_base.specs.Records.{IsNameRecord};

use crate::error::RecordError;
use crate::fields::{put_head, take_head};
use std::alloc::{AllocError, Global};
use txn_base::{Bytes, Text};

/// Whether a text has the form of a name: that of a topic, or of a subscription, which is a topic's name, `/` and a
/// second name of the same form.
pub fn is_name(name: &str) -> bool
    ensures { result ≡ has_form name.now }
{
    match name.split_once('/') {
        Some((topic, second)) => is_topic_name(topic) && is_topic_name(second),
        None => is_topic_name(name),
    }
}

/// Whether a text has the form of a topic's name: 1 to 100 bytes out of letters, digits and `-._`, the first of which
/// isn't `-`.
#[tactic(auto, using(crate::proofs::Catalog::dash_first, crate::proofs::Catalog::topic_form))]
fn is_topic_name(name: &str) -> bool
    ensures { result ≡ is_name_of_topic name.now }
{
    let bytes = name.as_bytes();
    if bytes.len() < 1 || bytes.len() > 100 {
        return false;
    }
    if bytes[0] == b'-' {
        return false;
    }
    are_name_bytes(bytes)
}

fn are_name_bytes(bytes: &[u8]) -> bool
    ensures { result ≡ list_all is_byte_of_name bytes.now }
{
    bytes.iter().all(|byte| is_name_byte(*byte))
}

fn is_name_byte(byte: u8) -> bool
    ensures { result ≡ is_byte_of_name byte }
{
    match byte {
        b'0'..=b'9' | b'A'..=b'Z' | b'a'..=b'z' | b'-' | b'.' | b'_' => true,
        _ => false,
    }
}

/// The kind of a name's record: 2 of a subscription, 1 of a topic.
fn kind_of(name: &str) -> u8
    ensures { result ≡ (if is_sub name.now then 2 else 1) }
{
    if name.as_bytes().contains(&b'/') {
        2
    } else {
        1
    }
}

/// The record of a name.
pub fn write_name(alloc: Global, name: &Text) -> Result<Bytes, AllocError>
    requires { has_form name.now ≡ true }
    ensures written { IfOk result (λ b. IsNameRecord b.bytes name.now) }
    ensures name { IfOk result (λ b. name_of_record b.bytes ≡ name.now) }
{
    let bytes = name.as_bytes();
    let mut out = Bytes::new(alloc);
    out.reserve(bytes.len() + 2)?;
    put_head(&mut out, kind_of(name.as_str()));
    out.put(bytes);
    Ok(out)
}

/// The name of a record, where it stands. None exactly where the bytes aren't in the grammar.
fn name_in_place(bytes: &[u8]) -> Option<&str>
    ensures some { IfSome result (λ name. IsNameRecord bytes.now name.now) }
    ensures none { IfNone result ((name : List ℕ) → IsNameRecord bytes.now name → ⊥) }
{
    let (kind, rest) = take_head(bytes)?;
    let Ok(name) = str::from_utf8(rest) else {
        return None;
    };
    if kind != kind_of(name) || !is_name(name) {
        return None;
    }
    Some(name)
}

/// The name of a record. `Bad` exactly where the bytes aren't in the grammar; `NoMemory` is want of memory for the name.
pub fn read_name(alloc: Global, bytes: &[u8]) -> Result<Text, RecordError>
    ensures read { IfOk result (λ name. IsNameRecord bytes.now name) }
    ensures name { IfOk result (λ name. name ≡ name_of_record bytes.now) }
    ensures bad { result ≡ Err RecordError.Bad → (name : List ℕ) → IsNameRecord bytes.now name → ⊥ }
{
    let Some(name) = name_in_place(bytes) else {
        return Err(RecordError::Bad);
    };
    match Text::from_str(alloc, name) {
        Ok(text) => Ok(text),
        Err(_) => Err(RecordError::NoMemory),
    }
}
