//! Standard input and output, or any reader and writer, as the source and the sink of a run.
ghost use Rattle.std.specs.Prelude.{◌≡◌, ◌<◌, ◌≤◌, None, length, IfSome};

use crate::readiness::{until_readable, until_writable};
use std::alloc::Global;
use std::io::{ErrorKind, Read, Write};
use std::net::Net;
use std::os::fd::AsRawFd;
use txn_base::{Failed, Sink, Source};

/// A reader, with the count of its failed calls. What it has left isn't told.
#[derive(Drop)]
pub struct Input<R: Read + AsRawFd + Drop, N: Net + Drop> {
    alloc: Global,
    net: N,
    reader: R,
    faults: u64,
}

impl<R: Read + AsRawFd + Drop, N: Net + Drop> Input<R, N> {
    pub fn new(alloc: Global, net: N, reader: R) -> Self {
        Input {
            alloc,
            net,
            reader,
            faults: 0,
        }
    }
}

impl<R: Read + AsRawFd + Drop, N: Net + Drop> Source for Input<R, N> {
    ghost left = { λ input. None };

    ghost faults = { λ input. input.faults };

    ghost rest = { λ input. (None, 0) };

    /// Reads straight into the piece, as much as there is.
    fn take(&mut self, into: &mut [u8]) -> Result<usize, Failed> {
        match read_some(self.alloc, &self.net, &mut self.reader, into) {
            Some(count) => Ok(count),
            None => {
                self.faults = self.faults.saturating_add(1);
                Err(Failed)
            }
        }
    }
}

/// A writer, with the count of its failed calls. What it was given isn't told.
#[derive(Drop)]
pub struct Output<W: Write + AsRawFd + Drop, N: Net + Drop> {
    alloc: Global,
    net: N,
    writer: W,
    faults: u64,
}

impl<W: Write + AsRawFd + Drop, N: Net + Drop> Output<W, N> {
    pub fn new(alloc: Global, net: N, writer: W) -> Self {
        Output {
            alloc,
            net,
            writer,
            faults: 0,
        }
    }
}

impl<W: Write + AsRawFd + Drop, N: Net + Drop> Sink for Output<W, N> {
    ghost held = { λ output. None };

    ghost faults = { λ output. output.faults };

    ghost rest = { λ output. (None, 0) };

    /// Writes through at once. No byte of a piece that has one is a fault too.
    fn put(&mut self, bytes: &[u8]) -> Result<usize, Failed> {
        match write_some(self.alloc, &self.net, &mut self.writer, bytes) {
            Some(count) => Ok(count),
            None => {
                self.faults = self.faults.saturating_add(1);
                Err(Failed)
            }
        }
    }
}

/// What one read gives, as often as a signal interrupts it, and after a wait where the reader would block. None where it
/// failed.
fn read_some<R: Read + AsRawFd, N: Net>(
    alloc: Global,
    net: &N,
    reader: &mut R,
    into: &mut [u8],
) -> Option<usize>
    ensures { IfSome result (λ n. n ≤ length into.new) }
{
    for _ in 0..u64::MAX {
        match reader.read(into) {
            Ok(count) => return Some(count),
            Err(e) if e.kind() == ErrorKind::Interrupted => {}
            Err(e) if e.kind() == ErrorKind::WouldBlock => {
                until_readable(alloc, net, reader.as_raw_fd()).ok()?
            }
            Err(_) => return None,
        }
    }
    None
}

/// What one write takes, as often as a signal interrupts it, and after a wait where the writer would block. None where it
/// failed, or took no byte of some.
fn write_some<W: Write + AsRawFd, N: Net>(
    alloc: Global,
    net: &N,
    writer: &mut W,
    bytes: &[u8],
) -> Option<usize>
    ensures bound { IfSome result (λ n. n ≤ length bytes.now) }
    ensures some { IfSome result (λ n. n ≡ 0 → 0 < length bytes.now → ⊥) }
{
    for _ in 0..u64::MAX {
        match writer.write(bytes) {
            Ok(0) if !bytes.is_empty() => return None,
            Ok(count) => return Some(count),
            Err(e) if e.kind() == ErrorKind::Interrupted => {}
            Err(e) if e.kind() == ErrorKind::WouldBlock => {
                until_writable(alloc, net, writer.as_raw_fd()).ok()?
            }
            Err(_) => return None,
        }
    }
    None
}
