//! The texts of short replies, put into room that is there, without taking memory.
ghost use Rattle.std.specs.Prelude.{◌≡◌, ◌≤◌, ◌+◌, ◌++◌, length};
ghost use Rattle.serde_json.specs.Written.{compact_text};
ghost use Rattle.txn_base.specs.Room.{capacity};
ghost use Rattle.txn_wire.specs.Replies.{reply_data, text_of};
ghost use Rattle.txn_wire.specs.Short.{IsShort, is_long};

use crate::short_pieces::put_str;
use crate::short_refusals::put_refusal;
use crate::short_replies::{put_ended, put_new, put_publish, put_status_reply, put_tick};
use txn_base::{Bytes, Refusal, Reply};

/// The text of the refusal for want of memory, with its newline. It takes no memory to tell.
pub const NO_MEMORY_TEXT: &str = "{\"no\":\"no_memory\"}\n";

/// `NO_MEMORY_TEXT`, which is the text of that refusal.
#[tactic(auto, unfolding(crate::specs::Replies::text_of, json::specs::Print::escape_byte))]
pub fn no_memory_text() -> &'static str
    ensures constant { result.now ≡ NO_MEMORY_TEXT.now }
    ensures text { result.now ≡ text_of (Reply.No Refusal.NoMemory) }
{
    NO_MEMORY_TEXT
}

/// Whether `put_short` can't tell the reply: it tells of messages, or of a name that may be any text.
pub fn is_long(reply: &Reply) -> bool
    ensures { result ≡ is_long reply.now }
{
    match reply {
        Reply::Read { .. } => true,
        Reply::Receive { .. } => true,
        Reply::No(Refusal::UnknownPart { .. }) => true,
        Reply::No(Refusal::WrongKind { .. }) => true,
        _ => false,
    }
}

/// Puts the text of a short reply into the free room, which takes no memory.
#[tactic(auto, unfolding(crate::specs::Replies::text_of))]
pub fn put_short(reply: &Reply, out: &mut Bytes)
    requires room { 512 ≤ out.old.room }
    requires short { IsShort reply.now }
    ensures bytes { out.new.bytes ≡ out.old.bytes ++ text_of reply.now }
    ensures length { length out.new.bytes ≤ length out.old.bytes + 371 }
    ensures kept { capacity out.old ≤ capacity out.new }
{
    put_object(reply, out);
    put_str("\n", out);
}

// A table of the replies.
#[tactic(auto, unfolding(json::specs::Print::escape_byte))]
fn put_object(reply: &Reply, out: &mut Bytes)
    requires room { 370 ≤ out.old.room }
    requires short { IsShort reply.now }
    ensures bytes { out.new.bytes ≡ out.old.bytes ++ compact_text (reply_data reply.now) }
    ensures length { length out.new.bytes ≤ length out.old.bytes + 370 }
    ensures kept { capacity out.old ≤ capacity out.new }
{
    match reply {
        Reply::New { txn } => put_new(*txn, out),
        Reply::Add => put_str("{\"ok\":\"add\"}", out),
        Reply::Publish { place, count } => put_publish(*place, *count, out),
        Reply::Ack => put_str("{\"ok\":\"ack\"}", out),
        Reply::AckUpTo => put_str("{\"ok\":\"ack_upto\"}", out),
        Reply::Ended { decision, outcome } => put_ended(*decision, outcome, out),
        Reply::Status { status } => put_status_reply(*status, out),
        Reply::Read { .. } => {}
        Reply::Receive { .. } => {}
        Reply::Redeliver => put_str("{\"ok\":\"redeliver\"}", out),
        Reply::Tick { now, left, drove } => put_tick(*now, *left, drove, out),
        Reply::Stop => put_str("{\"ok\":\"stop\"}", out),
        Reply::No(refusal) => put_refusal(refusal, out),
    }
}
