//! A source over bytes in memory.
ghost use Rattle.std.specs.Prelude.{◌≡◌, ◌≤◌, Some, None, ◌<◌, length, min, true, false, IfOk, MatchResult};
ghost use Rattle.std.specs.Io.KnownBytes.{ReadConsumes};
ghost use Rattle.txn_base.specs.Outside.{HasCause};
ghost use Rattle.txn_base.specs.Outside.{counted};
ghost use Rattle.txn_memdisk.specs.Countdown.{is_listed, counted_down};

use crate::countdown::fires;
use std::alloc::{AllocError, Global};
use std::marker::Model;
use txn_base::{Bytes, Failed, Source};

/// A source over bytes in memory. The calls that it was told to fail fail, and no other.
#[derive(Drop)]
pub struct MemSource {
    bytes: Bytes,
    at: usize,
    most: usize,
    waits: Vec<u64>,
    faults: u64,
}

impl Model for MemSource {
    ghost use Rattle.std.specs.Prelude.{◌<◌, ◌≤◌, length, drop};
    ghost use Rattle.txn_memdisk.specs.Streams.{SourceState};

    ghost Value = { SourceState };

    ghost view = { λ s. record { left = drop s.at s.bytes.bytes; most = s.most; waits = s.waits.items; faults = s.faults } };

    ghost invariant = { λ s. (s.at ≤ length s.bytes.bytes) × (0 < s.most) };
}

impl MemSource {
    /// A source of these bytes, which gives at most `most` of them a call. `faults` are the numbers of the calls that
    /// fail, counted from 1.
    pub fn new(
        alloc: Global,
        bytes: Bytes,
        most: usize,
        faults: &[u64],
    ) -> Result<MemSource, AllocError>
        requires { 0 < most }
        ensures { IfOk result (λ s. s ≡ record { left = bytes.bytes; most = most; waits = faults.now; faults = 0 }) }
    {
        let waits = faults.to_vec(alloc)?;
        Ok(MemSource {
            bytes,
            at: 0,
            most,
            waits,
            faults: 0,
        })
    }
}

impl Source for MemSource {
    ghost left = { λ s. Some s.left };

    ghost faults = { λ s. s.faults };

    ghost rest = { λ s. (None, 0) };

    fn take(&mut self, into: &mut [u8]) -> Result<usize, Failed>
        ensures bound { IfOk result (λ n. n ≤ length into.new) }
        ensures bytes { ReadConsumes (Some self.old.left) (Some self.new.left) result into.new }
        ensures cause { HasCause self.old.faults self.new.faults result }
        ensures count { IfOk result (λ n. n ≡ min (min (length into.new) self.old.most) (length self.old.left)) }
        ensures faults { MatchResult result (λ n. self.new.faults ≡ self.old.faults) (λ e. self.new.faults ≡ counted 1 self.old.faults) }
        ensures listed { MatchResult result (λ n. is_listed self.old.waits ≡ false) (λ e. is_listed self.old.waits ≡ true) }
        ensures counted { self.new.waits ≡ counted_down self.old.waits }
        ensures most { self.new.most ≡ self.old.most }
    {
        if fires(&mut self.waits) {
            self.faults = self.faults.saturating_add(1);
            return Err(Failed);
        }
        let left = &self.bytes.as_slice()[self.at..];
        let count = into.len().min(self.most).min(left.len());
        into[..count].copy_from_slice(&left[..count]);
        self.at += count;
        Ok(count)
    }
}
