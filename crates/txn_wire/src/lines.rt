//! The request of a line.
ghost use Rattle.serde_json.specs.View.{view};
ghost use Rattle.std.specs.Prelude.{IfOk};
ghost use Rattle.txn_wire.specs.Lines.{Gives, AsksForSome, form_of, request_of_data, request_of};

use crate::error::WireError;
use crate::forms::{
    abort_request, ack_request, ack_upto_request, add_request, bare_request, commit_request,
    new_request, publish_request, read_topic_request, receive_request, redeliver_request,
    status_request,
};
use crate::values::text_at;
use serde_json::Value;
use std::alloc::Global;
use txn_base::Request;

/// The request that a line is: a publish of at least one text, a read or a receive of at least one message, or one of the
/// other forms. `BadLine` exactly where it is none.
#[tactic(auto, unfolding(crate::specs::Lines::request_of))]
pub fn read_request(alloc: Global, line: &[u8]) -> Result<Request, WireError>
    ensures request { Gives (λ r. r) result (request_of line.now) }
    ensures some { IfOk result AsksForSome }
{
    match Value::from_slice(alloc, line) {
        Ok(value) => request_of_value(alloc, &value),
        Err(e) => {
            if e.is_memory() {
                Err(WireError::NoMemory)
            } else {
                Err(WireError::BadLine)
            }
        }
    }
}

#[tactic(auto, unfolding(crate::specs::Lines::request_of_data))]
fn request_of_value(alloc: Global, value: &Value) -> Result<Request, WireError>
    ensures { Gives (λ r. r) result (request_of_data (view value.now)) }
{
    match text_at(value, "do") {
        Some(name) => request_of_form(alloc, name, value),
        None => Err(WireError::BadLine),
    }
}

// A table of the forms, a line for each.
#[tactic(auto, unfolding(crate::specs::Lines::form_of))]
fn request_of_form(alloc: Global, name: &str, value: &Value) -> Result<Request, WireError>
    ensures { Gives (λ r. r) result (form_of name.now (view value.now)) }
{
    if name == "new" {
        new_request(value)
    } else if name == "add" {
        add_request(alloc, value)
    } else if name == "publish" {
        publish_request(alloc, value)
    } else if name == "ack" {
        ack_request(alloc, value)
    } else if name == "ack_upto" {
        ack_upto_request(alloc, value)
    } else if name == "commit" {
        commit_request(value)
    } else if name == "abort" {
        abort_request(value)
    } else if name == "status" {
        status_request(value)
    } else if name == "read" {
        read_topic_request(alloc, value)
    } else if name == "receive" {
        receive_request(alloc, value)
    } else if name == "redeliver" {
        redeliver_request(alloc, value)
    } else if name == "tick" {
        bare_request(Request::Tick, value)
    } else if name == "stop" {
        bare_request(Request::Stop, value)
    } else {
        Err(WireError::BadLine)
    }
}
