//! Waiting for a pipe that would block.
use mio::unix::SourceFd;
use mio::{Events, Interest, Poll, Token};
use std::alloc::Global;
use std::io;
use std::io::ErrorKind;
use std::net::Net;
use std::os::fd::RawFd;

/// Waits until there is something to read, or the end. A signal ends the wait too.
pub fn until_readable<N: Net>(alloc: Global, net: &N, fd: RawFd) -> io::Result<()> {
    until(alloc, net, fd, Interest::READABLE)
}

/// Waits until something can be written, or nobody reads any more. A signal ends the wait too.
pub fn until_writable<N: Net>(alloc: Global, net: &N, fd: RawFd) -> io::Result<()> {
    until(alloc, net, fd, Interest::WRITABLE)
}

fn until<N: Net>(alloc: Global, net: &N, fd: RawFd, interest: Interest) -> io::Result<()> {
    let Ok(mut events) = Events::with_capacity(alloc, 1) else {
        return Err(ErrorKind::OutOfMemory.into());
    };
    let mut poll = Poll::new(net)?;
    poll.registry()
        .register(&mut SourceFd(&fd), Token(0), interest)?;
    poll.poll(&mut events, None)
}
