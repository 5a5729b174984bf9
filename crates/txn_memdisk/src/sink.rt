//! A sink that keeps what was put.
ghost use Rattle.std.specs.Prelude.{◌≡◌, ◌==◌, ◌&&◌, ◌≤◌, ◌<◌, nat_lt, if◌then◌else◌, MatchResult, [], Some, None, length, min, true, false, IfOk, OnOk};
ghost use Rattle.std.specs.Io.KnownBytes.{WriteAppends};
ghost use Rattle.txn_base.specs.Outside.{HasCause, Rose};
ghost use Rattle.txn_base.specs.Outside.{counted};
ghost use Rattle.txn_memdisk.specs.Countdown.{is_listed, counted_down};

use crate::countdown::fires;
use std::alloc::{AllocError, Global};
use std::marker::Model;
use txn_base::{Failed, Sink};

/// A sink that keeps what was put. The calls that it was told to fail fail, and those that find no memory.
#[derive(Drop)]
pub struct MemSink {
    bytes: Vec<u8>,
    most: usize,
    waits: Vec<u64>,
    faults: u64,
}

impl Model for MemSink {
    ghost use Rattle.txn_memdisk.specs.Streams.{SinkState};

    ghost Value = { SinkState };

    ghost view = { λ s. record { held = s.bytes.items; most = s.most; waits = s.waits.items; faults = s.faults } };
}

impl MemSink {
    /// An empty sink that takes at most `most` bytes a call, and where that is 0 has a fault at each. `faults` are the
    /// numbers of the calls that fail, counted from 1.
    pub fn new(alloc: Global, most: usize, faults: &[u64]) -> Result<MemSink, AllocError>
        ensures { IfOk result (λ s. s ≡ record { held = []; most = most; waits = faults.now; faults = 0 }) }
    {
        let waits = faults.to_vec(alloc)?;
        Ok(MemSink {
            bytes: Vec::new(alloc),
            most,
            waits,
            faults: 0,
        })
    }

    /// All that was put.
    pub fn bytes(&self) -> &[u8]
        ensures { result.now ≡ self.now.held }
    {
        self.bytes.as_slice()
    }
}

impl Sink for MemSink {
    ghost held = { λ s. Some s.held };

    ghost faults = { λ s. s.faults };

    ghost rest = { λ s. (None, 0) };

    fn put(&mut self, bytes: &[u8]) -> Result<usize, Failed>
        ensures bound { IfOk result (λ n. n ≤ length bytes.now) }
        ensures bytes { WriteAppends (Some self.old.held) (Some self.new.held) result bytes.now }
        ensures none { IfOk result (λ n. n ≡ 0 → 0 < length bytes.now → Rose self.old.faults self.new.faults) }
        ensures cause { HasCause self.old.faults self.new.faults result }
        ensures count { IfOk result (λ n. n ≡ min (length bytes.now) self.old.most) }
        ensures faults { MatchResult result (λ n. self.new.faults ≡ (if n == 0 && nat_lt 0 (length bytes.now) then counted 1 self.old.faults else self.old.faults)) (λ e. self.new.faults ≡ counted 1 self.old.faults) }
        ensures listed { OnOk result (is_listed self.old.waits ≡ false) }
        ensures counted { self.new.waits ≡ counted_down self.old.waits }
        ensures most { self.new.most ≡ self.old.most }
    {
        if fires(&mut self.waits) {
            self.faults = self.faults.saturating_add(1);
            return Err(Failed);
        }
        let count = bytes.len().min(self.most);
        if self.bytes.extend_from_slice(&bytes[..count]).is_err() {
            self.faults = self.faults.saturating_add(1);
            return Err(Failed);
        }
        if count == 0 && !bytes.is_empty() {
            self.faults = self.faults.saturating_add(1);
        }
        Ok(count)
    }
}
