//! The request of each form.
ghost use Rattle.serde_json.specs.View.{view};
ghost use Rattle.std.specs.Prelude.{option_map};
ghost use Rattle.txn_wire.specs.Lines.{Gives};
ghost use Rattle.txn_wire.specs.Forms.{new_of, add_of, publish_of, ack_of, ack_upto_of, only_txn_of, read_of, receive_of, redeliver_of, bare_of};

use crate::error::WireError;
use crate::values::{
    bodies_of, count_keys, id_at, id_if, keys_beside, number_at, own_text_at, places_of,
};
use serde_json::Value;
use std::alloc::Global;
use txn_base::{Request, TxnId};

#[tactic(auto, unfolding(crate::specs::Forms::new_of))]
pub(crate) fn new_request(value: &Value) -> Result<Request, WireError>
    ensures { Gives (λ r. r) result (new_of (view value.now)) }
{
    let timeout = number_at(value, "timeout")?;
    if count_keys(value) != 2 {
        return Err(WireError::BadLine);
    }
    Ok(Request::New { timeout })
}

#[tactic(auto, unfolding(crate::specs::Forms::add_of))]
pub(crate) fn add_request(alloc: Global, value: &Value) -> Result<Request, WireError>
    ensures { Gives (λ r. r) result (add_of (view value.now)) }
{
    let txn = id_at(value, "txn")?;
    let part = own_text_at(alloc, value, "part")?;
    if count_keys(value) != 3 {
        return Err(WireError::BadLine);
    }
    Ok(Request::Add { txn, part })
}

#[tactic(auto, unfolding(crate::specs::Forms::publish_of))]
pub(crate) fn publish_request(alloc: Global, value: &Value) -> Result<Request, WireError>
    ensures { Gives (λ r. r) result (publish_of (view value.now)) }
{
    let topic = own_text_at(alloc, value, "topic")?;
    let Some(given) = value.get("data") else {
        return Err(WireError::BadLine);
    };
    let bodies = bodies_of(alloc, given)?;
    let txn = id_if(value.get("txn"))?;
    if count_keys(value) != keys_beside(&txn) {
        return Err(WireError::BadLine);
    }
    Ok(Request::Publish { topic, txn, bodies })
}

#[tactic(auto, unfolding(crate::specs::Forms::ack_of))]
pub(crate) fn ack_request(alloc: Global, value: &Value) -> Result<Request, WireError>
    ensures { Gives (λ r. r) result (ack_of (view value.now)) }
{
    let sub = own_text_at(alloc, value, "sub")?;
    let Some(given) = value.get("places") else {
        return Err(WireError::BadLine);
    };
    let places = places_of(alloc, given)?;
    let txn = id_if(value.get("txn"))?;
    if count_keys(value) != keys_beside(&txn) {
        return Err(WireError::BadLine);
    }
    Ok(Request::Ack { sub, txn, places })
}

#[tactic(auto, unfolding(crate::specs::Forms::ack_upto_of))]
pub(crate) fn ack_upto_request(alloc: Global, value: &Value) -> Result<Request, WireError>
    ensures { Gives (λ r. r) result (ack_upto_of (view value.now)) }
{
    let sub = own_text_at(alloc, value, "sub")?;
    let place = number_at(value, "place")?;
    let txn = id_if(value.get("txn"))?;
    if count_keys(value) != keys_beside(&txn) {
        return Err(WireError::BadLine);
    }
    Ok(Request::AckUpTo { sub, txn, place })
}

#[tactic(auto, unfolding(crate::specs::Forms::only_txn_of))]
fn only_txn(value: &Value) -> Result<TxnId, WireError>
    ensures { Gives (λ t. t) result (only_txn_of (view value.now)) }
{
    let txn = id_at(value, "txn")?;
    if count_keys(value) != 2 {
        return Err(WireError::BadLine);
    }
    Ok(txn)
}

pub(crate) fn commit_request(value: &Value) -> Result<Request, WireError>
    ensures { Gives (λ r. r) result (option_map (λ t. Request.Commit t) (only_txn_of (view value.now))) }
{
    let txn = only_txn(value)?;
    Ok(Request::Commit { txn })
}

pub(crate) fn abort_request(value: &Value) -> Result<Request, WireError>
    ensures { Gives (λ r. r) result (option_map (λ t. Request.Abort t) (only_txn_of (view value.now))) }
{
    let txn = only_txn(value)?;
    Ok(Request::Abort { txn })
}

pub(crate) fn status_request(value: &Value) -> Result<Request, WireError>
    ensures { Gives (λ r. r) result (option_map (λ t. Request.Status t) (only_txn_of (view value.now))) }
{
    let txn = only_txn(value)?;
    Ok(Request::Status { txn })
}

#[tactic(auto, unfolding(crate::specs::Forms::read_of))]
pub(crate) fn read_topic_request(alloc: Global, value: &Value) -> Result<Request, WireError>
    ensures { Gives (λ r. r) result (read_of (view value.now)) }
{
    let topic = own_text_at(alloc, value, "topic")?;
    let first = number_at(value, "from")?;
    let max = number_at(value, "max")?;
    if count_keys(value) != 4 || max == 0 {
        return Err(WireError::BadLine);
    }
    Ok(Request::Read { topic, first, max })
}

#[tactic(auto, unfolding(crate::specs::Forms::receive_of))]
pub(crate) fn receive_request(alloc: Global, value: &Value) -> Result<Request, WireError>
    ensures { Gives (λ r. r) result (receive_of (view value.now)) }
{
    let sub = own_text_at(alloc, value, "sub")?;
    let max = number_at(value, "max")?;
    if count_keys(value) != 3 || max == 0 {
        return Err(WireError::BadLine);
    }
    Ok(Request::Receive { sub, max })
}

#[tactic(auto, unfolding(crate::specs::Forms::redeliver_of))]
pub(crate) fn redeliver_request(alloc: Global, value: &Value) -> Result<Request, WireError>
    ensures { Gives (λ r. r) result (redeliver_of (view value.now)) }
{
    let sub = own_text_at(alloc, value, "sub")?;
    if count_keys(value) != 2 {
        return Err(WireError::BadLine);
    }
    Ok(Request::Redeliver { sub })
}

#[tactic(auto, unfolding(crate::specs::Forms::bare_of))]
pub(crate) fn bare_request(form: Request, value: &Value) -> Result<Request, WireError>
    ensures { Gives (λ r. r) result (bare_of form (view value.now)) }
{
    if count_keys(value) != 1 {
        return Err(WireError::BadLine);
    }
    Ok(form)
}
