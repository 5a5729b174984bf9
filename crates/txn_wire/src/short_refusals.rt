//! The texts of short refusals.
ghost use Rattle.std.specs.Prelude.{◌≡◌, ◌≤◌, ◌+◌, ◌++◌, length};
ghost use Rattle.serde_json.specs.Written.{compact_text};
ghost use Rattle.txn_base.specs.Room.{capacity};
ghost use Rattle.txn_wire.specs.Replies.{refusal_data};
ghost use Rattle.txn_wire.specs.Short.{IsPartName, IsShortRefusal};

use crate::short_pieces::{put_id, put_name, put_number, put_status, put_str, put_what};
use txn_base::{Bytes, Refusal, Status, Text, TxnId, What};

// A table of the refusals.
#[tactic(auto, unfolding(json::specs::Print::escape_byte))]
pub(crate) fn put_refusal(refusal: &Refusal, out: &mut Bytes)
    requires room { 282 ≤ out.old.room }
    requires short { IsShortRefusal refusal.now }
    ensures bytes { out.new.bytes ≡ out.old.bytes ++ compact_text (refusal_data refusal.now) }
    ensures length { length out.new.bytes ≤ length out.old.bytes + 282 }
    ensures kept { capacity out.old ≤ capacity out.new }
{
    match refusal {
        Refusal::TooLong => put_str("{\"no\":\"too_long\"}", out),
        Refusal::BadLine => put_str("{\"no\":\"bad_line\"}", out),
        Refusal::BadTimeout => put_str("{\"no\":\"bad_timeout\"}", out),
        Refusal::BadPlaces => put_str("{\"no\":\"bad_places\"}", out),
        Refusal::TooBig => put_str("{\"no\":\"too_big\"}", out),
        Refusal::NoMemory => put_str("{\"no\":\"no_memory\"}", out),
        Refusal::NotFound => put_str("{\"no\":\"not_found\"}", out),
        Refusal::Empty => put_str("{\"no\":\"empty\"}", out),
        Refusal::UnknownPart { .. } => {}
        Refusal::WrongKind { .. } => {}
        Refusal::UnknownCoordinator { number } => put_unknown_coordinator(*number, out),
        Refusal::NotOpen { status } => put_not_open(*status, out),
        Refusal::NotRegistered { part } => put_not_registered(part, out),
        Refusal::Fault { part } => put_fault(part, out),
        Refusal::Recovering { part, at, total } => put_recovering(part, *at, *total, out),
        Refusal::Damaged { part, place } => put_damaged(part, *place, out),
        Refusal::Unread { place, limit } => put_unread(*place, *limit, out),
        Refusal::AlreadyAcked { place } => put_already_acked(*place, out),
        Refusal::Conflict { place, holder } => put_conflict(*place, *holder, out),
        Refusal::Full { what, count } => put_full(*what, *count, out),
    }
}

#[tactic(auto, unfolding(json::specs::Print::escape_byte))]
fn put_unknown_coordinator(number: u64, out: &mut Bytes)
    requires { 58 ≤ out.old.room }
    ensures bytes { out.new.bytes ≡ out.old.bytes ++ compact_text (refusal_data (Refusal.UnknownCoordinator number)) }
    ensures length { length out.new.bytes ≤ length out.old.bytes + 58 }
    ensures kept { capacity out.old ≤ capacity out.new }
{
    put_str("{\"no\":\"unknown_coordinator\",\"number\":", out);
    put_number(number, out);
    put_str("}", out);
}

#[tactic(auto, unfolding(json::specs::Print::escape_byte))]
fn put_not_open(status: Status, out: &mut Bytes)
    requires { 39 ≤ out.old.room }
    ensures bytes { out.new.bytes ≡ out.old.bytes ++ compact_text (refusal_data (Refusal.NotOpen status)) }
    ensures length { length out.new.bytes ≤ length out.old.bytes + 39 }
    ensures kept { capacity out.old ≤ capacity out.new }
{
    put_str("{\"no\":\"not_open\",\"status\":", out);
    put_status(status, out);
    put_str("}", out);
}

#[tactic(auto, unfolding(json::specs::Print::escape_byte))]
fn put_not_registered(part: &Text, out: &mut Bytes)
    requires room { 234 ≤ out.old.room }
    requires name { IsPartName part.now }
    ensures bytes { out.new.bytes ≡ out.old.bytes ++ compact_text (refusal_data (Refusal.NotRegistered part.now)) }
    ensures length { length out.new.bytes ≤ length out.old.bytes + 234 }
    ensures kept { capacity out.old ≤ capacity out.new }
{
    put_str("{\"no\":\"not_registered\",\"part\":", out);
    put_name(part, out);
    put_str("}", out);
}

#[tactic(auto, unfolding(json::specs::Print::escape_byte))]
fn put_fault(part: &Text, out: &mut Bytes)
    requires room { 225 ≤ out.old.room }
    requires name { IsPartName part.now }
    ensures bytes { out.new.bytes ≡ out.old.bytes ++ compact_text (refusal_data (Refusal.Fault part.now)) }
    ensures length { length out.new.bytes ≤ length out.old.bytes + 225 }
    ensures kept { capacity out.old ≤ capacity out.new }
{
    put_str("{\"no\":\"fault\",\"part\":", out);
    put_name(part, out);
    put_str("}", out);
}

#[tactic(auto, unfolding(json::specs::Print::escape_byte))]
fn put_recovering(part: &Text, at: u64, total: u64, out: &mut Bytes)
    requires room { 282 ≤ out.old.room }
    requires name { IsPartName part.now }
    ensures bytes { out.new.bytes ≡ out.old.bytes ++ compact_text (refusal_data (Refusal.Recovering part.now at total)) }
    ensures length { length out.new.bytes ≤ length out.old.bytes + 282 }
    ensures kept { capacity out.old ≤ capacity out.new }
{
    put_str("{\"at\":", out);
    put_number(at, out);
    put_str(",\"no\":\"recovering\",\"of\":", out);
    put_number(total, out);
    put_str(",\"part\":", out);
    put_name(part, out);
    put_str("}", out);
}

#[tactic(auto, unfolding(json::specs::Print::escape_byte))]
fn put_damaged(part: &Text, place: u64, out: &mut Bytes)
    requires room { 256 ≤ out.old.room }
    requires name { IsPartName part.now }
    ensures bytes { out.new.bytes ≡ out.old.bytes ++ compact_text (refusal_data (Refusal.Damaged part.now place)) }
    ensures length { length out.new.bytes ≤ length out.old.bytes + 256 }
    ensures kept { capacity out.old ≤ capacity out.new }
{
    put_str("{\"no\":\"damaged\",\"part\":", out);
    put_name(part, out);
    put_str(",\"place\":", out);
    put_number(place, out);
    put_str("}", out);
}

#[tactic(auto, unfolding(json::specs::Print::escape_byte))]
fn put_unread(place: u64, limit: u64, out: &mut Bytes)
    requires { 73 ≤ out.old.room }
    ensures bytes { out.new.bytes ≡ out.old.bytes ++ compact_text (refusal_data (Refusal.Unread place limit)) }
    ensures length { length out.new.bytes ≤ length out.old.bytes + 73 }
    ensures kept { capacity out.old ≤ capacity out.new }
{
    put_str("{\"limit\":", out);
    put_number(limit, out);
    put_str(",\"no\":\"unread\",\"place\":", out);
    put_number(place, out);
    put_str("}", out);
}

#[tactic(auto, unfolding(json::specs::Print::escape_byte))]
fn put_already_acked(place: u64, out: &mut Bytes)
    requires { 51 ≤ out.old.room }
    ensures bytes { out.new.bytes ≡ out.old.bytes ++ compact_text (refusal_data (Refusal.AlreadyAcked place)) }
    ensures length { length out.new.bytes ≤ length out.old.bytes + 51 }
    ensures kept { capacity out.old ≤ capacity out.new }
{
    put_str("{\"no\":\"already_acked\",\"place\":", out);
    put_number(place, out);
    put_str("}", out);
}

#[tactic(auto, unfolding(json::specs::Print::escape_byte))]
fn put_conflict(place: u64, holder: TxnId, out: &mut Bytes)
    requires { 95 ≤ out.old.room }
    ensures bytes { out.new.bytes ≡ out.old.bytes ++ compact_text (refusal_data (Refusal.Conflict place holder)) }
    ensures length { length out.new.bytes ≤ length out.old.bytes + 95 }
    ensures kept { capacity out.old ≤ capacity out.new }
{
    put_str("{\"by\":", out);
    put_id(holder, out);
    put_str(",\"no\":\"conflict\",\"place\":", out);
    put_number(place, out);
    put_str("}", out);
}

#[tactic(auto, unfolding(json::specs::Print::escape_byte))]
fn put_full(what: What, count: u64, out: &mut Bytes)
    requires { 64 ≤ out.old.room }
    ensures bytes { out.new.bytes ≡ out.old.bytes ++ compact_text (refusal_data (Refusal.Full what count)) }
    ensures length { length out.new.bytes ≤ length out.old.bytes + 64 }
    ensures kept { capacity out.old ≤ capacity out.new }
{
    put_str("{\"count\":", out);
    put_number(count, out);
    put_str(",\"no\":\"full\",\"what\":", out);
    put_what(what, out);
    put_str("}", out);
}
