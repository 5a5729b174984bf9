//! Lines as requests.
use crate::text::text_bytes;
use crate::wrong::Wrong;
use std::alloc::Global;
use txn_wire::{WireError, read_request};

/// The request that a line is, or `none`.
pub fn told(alloc: Global, line: &str) -> Result<String, Wrong> {
    match read_request(alloc, &text_bytes(alloc, line)?) {
        Ok(request) => Ok(format!(in alloc; "{request:?}")?),
        Err(WireError::BadLine) => Ok(String::from_str(alloc, "none")?),
        Err(WireError::NoMemory) => Err(Wrong::NoMemory),
    }
}
