//! Replies into the sink.
ghost use Rattle.std.specs.Prelude.{◌≡◌, ◌≤◌, [], ℕ, List, Option, IfOk};
ghost use Rattle.txn_base.specs.Outside.{HasCause, PutsAll};
ghost use Rattle.txn_base.specs.Room.{capacity};
ghost use Rattle.txn_base.specs.declared.reply.Reply.{Reply};
ghost use Rattle.txn_wire.specs.Replies.{text_of};
ghost use Rattle.txn_wire.specs.Short.{IsShort};
ghost use Rattle.txn_engine.specs.Told.{IsTellable};
ghost use Rattle.txn_run.specs.Told.{IsToldFor};

use std::alloc::{AllocError, Global};
use txn_base::{Bytes, Failed, Refusal, Reply, Sink, put_all};
use txn_wire::{is_long, put_short, reply_text};

/// Room for the text of each reply that isn't long, in bytes.
pub const SHORT: usize = 512;

/// Empty bytes with so much room.
pub fn with_room(alloc: Global, count: usize) -> Result<Bytes, AllocError>
    ensures { IfOk result (λ b. (b.bytes ≡ []) × (count ≤ capacity b)) }
{
    let mut bytes = Bytes::new(alloc);
    bytes.reserve(count)?;
    Ok(bytes)
}

/// Puts the text of a reply, or that there was no memory for it.
pub fn put_reply<O: Sink>(
    alloc: Global,
    reply: &Reply,
    out: &mut Bytes,
    sink: &mut O,
) -> Result<(), Failed>
    requires room { 512 ≤ capacity out.old }
    requires tellable { IsTellable reply.now }
    ensures kept { capacity out.old ≤ capacity out.new }
    ensures bytes { (told : Reply) × IsToldFor reply.now told × PutsAll (O.held sink.old)
        (O.held sink.new) result (text_of told) }
    ensures beside { O.rest sink.new ≡ O.rest sink.old }
    ensures cause { HasCause (O.faults sink.old) (O.faults sink.new) result }
{
    if is_long(reply) {
        match reply_text(alloc, reply) {
            Ok(text) => put_all(sink, text.as_slice()),
            Err(_) => put_from_room(&Reply::No(Refusal::NoMemory), out, sink),
        }
    } else {
        put_from_room(reply, out, sink)
    }
}

/// Puts the text of a short reply by way of room that was taken before.
pub fn put_from_room<O: Sink>(reply: &Reply, out: &mut Bytes, sink: &mut O) -> Result<(), Failed>
    requires room { 512 ≤ capacity out.old }
    requires short { IsShort reply.now }
    ensures kept { capacity out.old ≤ capacity out.new }
    ensures bytes { PutsAll (O.held sink.old) (O.held sink.new) result (text_of reply.now) }
    ensures beside { O.rest sink.new ≡ O.rest sink.old }
    ensures cause { HasCause (O.faults sink.old) (O.faults sink.new) result }
{
    out.clear();
    put_short(reply, out);
    put_all(sink, out.as_slice())
}
