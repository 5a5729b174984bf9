//! What stands in a value that was read.
ghost use Rattle.std.specs.Prelude.{◌≡◌, option_map};
ghost use Rattle.serde_json.specs.View.{view, items_view};
ghost use Rattle.txn_wire.specs.Lines.{Gives};
ghost use Rattle.txn_wire.specs.Values.{text_at, number_at, whole_of, keys, count, id_of, id_at, id_if, keys_beside, texts_of, numbers_of, bodies_of, places_of};

use crate::error::WireError;
use serde_json::Value;
use std::alloc::Global;
use txn_base::{Places, Text, Texts, TxnId};

pub(crate) fn text_at<'v>(value: &'v Value, name: &str) -> Option<&'v str>
    ensures { option_map (λ t. t.now) result ≡ text_at name.now (view value.now) }
{
    match value.get(name) {
        Some(found) => found.as_str(),
        None => None,
    }
}

pub(crate) fn own_text_at(alloc: Global, value: &Value, name: &str) -> Result<Text, WireError>
    ensures { Gives (λ t. t) result (text_at name.now (view value.now)) }
{
    match text_at(value, name) {
        Some(text) => Ok(Text::from_str(alloc, text)?),
        None => Err(WireError::BadLine),
    }
}

fn number_of(value: &Value) -> Result<u64, WireError>
    ensures { Gives (λ n. n) result (whole_of (view value.now)) }
{
    match value.as_u64() {
        Some(number) => Ok(number),
        None => Err(WireError::BadLine),
    }
}

pub(crate) fn number_at(value: &Value, name: &str) -> Result<u64, WireError>
    ensures { Gives (λ n. n) result (number_at name.now (view value.now)) }
{
    match value.get(name) {
        Some(found) => number_of(found),
        None => Err(WireError::BadLine),
    }
}

#[tactic(auto, using(crate::proofs::Views::counts))]
pub(crate) fn count_keys(value: &Value) -> usize
    ensures { result ≡ keys (view value.now) }
{
    match value.as_object() {
        Some(map) => map.len(),
        None => 0,
    }
}

#[tactic(auto, using(crate::proofs::Views::counts))]
fn count(value: &Value) -> usize
    ensures { result ≡ count (view value.now) }
{
    match value.as_array() {
        Some(items) => items.len(),
        None => 0,
    }
}

fn id_of(value: &Value) -> Result<TxnId, WireError>
    ensures { Gives (λ t. t) result (id_of (view value.now)) }
{
    let Some(first) = value.get(0usize) else {
        return Err(WireError::BadLine);
    };
    let Some(second) = value.get(1usize) else {
        return Err(WireError::BadLine);
    };
    let most = number_of(first)?;
    let least = number_of(second)?;
    if count(value) != 2 {
        return Err(WireError::BadLine);
    }
    Ok(TxnId { most, least })
}

pub(crate) fn id_at(value: &Value, name: &str) -> Result<TxnId, WireError>
    ensures { Gives (λ t. t) result (id_at name.now (view value.now)) }
{
    match value.get(name) {
        Some(found) => id_of(found),
        None => Err(WireError::BadLine),
    }
}

pub(crate) fn id_if(value: Option<&Value>) -> Result<Option<TxnId>, WireError>
    ensures { Gives (λ t. t) result (id_if (option_map (λ v. view v.now) value.entry)) }
{
    match value {
        Some(value) => Ok(Some(id_of(value)?)),
        None => Ok(None),
    }
}

pub(crate) fn keys_beside(txn: &Option<TxnId>) -> usize
    ensures { result ≡ keys_beside txn.now }
{
    if txn.is_some() { 4 } else { 3 }
}

fn texts_of(alloc: Global, items: &[Value]) -> Result<Texts, WireError>
    ensures { Gives (λ t. t) result (texts_of (items_view items.now)) }
{
    let mut texts = Texts::new(alloc);
    for item in items {
        match item.as_str() {
            Some(text) => texts.push(Text::from_str(alloc, text)?)?,
            None => return Err(WireError::BadLine),
        }
    }
    Ok(texts)
}

fn numbers_of(alloc: Global, items: &[Value]) -> Result<Places, WireError>
    ensures { Gives (λ p. p) result (numbers_of (items_view items.now)) }
{
    let mut places = Places::new(alloc);
    for item in items {
        places.push(number_of(item)?)?;
    }
    Ok(places)
}

pub(crate) fn places_of(alloc: Global, value: &Value) -> Result<Places, WireError>
    ensures { Gives (λ p. p) result (places_of (view value.now)) }
{
    match value.as_array() {
        Some(items) => numbers_of(alloc, items.as_slice()),
        None => Err(WireError::BadLine),
    }
}

pub(crate) fn bodies_of(alloc: Global, value: &Value) -> Result<Texts, WireError>
    ensures { Gives (λ t. t) result (bodies_of (view value.now)) }
{
    if let Some(text) = value.as_str() {
        let mut bodies = Texts::new(alloc);
        bodies.push(Text::from_str(alloc, text)?)?;
        return Ok(bodies);
    }
    let Some(items) = value.as_array() else {
        return Err(WireError::BadLine);
    };
    if items.is_empty() {
        Err(WireError::BadLine)
    } else {
        texts_of(alloc, items.as_slice())
    }
}
