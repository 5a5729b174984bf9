//! The texts of short replies, one function for each that has more than a word.
ghost use Rattle.std.specs.Prelude.{◌≡◌, ◌≤◌, ◌+◌, ◌++◌, length, true};
ghost use Rattle.serde_json.specs.Written.{compact_text, members_text};
ghost use Rattle.txn_base.specs.Room.{capacity};
ghost use Rattle.txn_base.specs.declared.reply.Reply.{Reply};
ghost use Rattle.txn_wire.specs.Replies.{reply_data, ended_members, driven_members, drive_and_why_members, drove_members};
ghost use Rattle.txn_wire.specs.Short.{IsPartName, IsShortStuck, IsShortDriven};

use crate::short_pieces::{
    put_decision, put_id, put_name, put_number, put_status, put_str, put_why,
};
use txn_base::{Bytes, Decision, Driven, Outcome, Status, Stuck, TxnId, Why};

#[tactic(auto, unfolding(json::specs::Print::escape_byte))]
pub(crate) fn put_new(txn: TxnId, out: &mut Bytes)
    requires { 62 ≤ out.old.room }
    ensures bytes { out.new.bytes ≡ out.old.bytes ++ compact_text (reply_data (Reply.New txn)) }
    ensures length { length out.new.bytes ≤ length out.old.bytes + 62 }
    ensures kept { capacity out.old ≤ capacity out.new }
{
    put_str("{\"ok\":\"new\",\"txn\":", out);
    put_id(txn, out);
    put_str("}", out);
}

#[tactic(auto, unfolding(json::specs::Print::escape_byte))]
pub(crate) fn put_publish(place: u64, count: u64, out: &mut Bytes)
    requires { 73 ≤ out.old.room }
    ensures bytes { out.new.bytes ≡ out.old.bytes ++ compact_text (reply_data (Reply.Publish place count)) }
    ensures length { length out.new.bytes ≤ length out.old.bytes + 73 }
    ensures kept { capacity out.old ≤ capacity out.new }
{
    put_str("{\"at\":", out);
    put_number(place, out);
    put_str(",\"count\":", out);
    put_number(count, out);
    put_str(",\"ok\":\"publish\"}", out);
}

#[tactic(auto, unfolding(json::specs::Print::escape_byte))]
pub(crate) fn put_status_reply(status: Status, out: &mut Bytes)
    requires { 38 ≤ out.old.room }
    ensures bytes { out.new.bytes ≡ out.old.bytes ++ compact_text (reply_data (Reply.Status status)) }
    ensures length { length out.new.bytes ≤ length out.old.bytes + 38 }
    ensures kept { capacity out.old ≤ capacity out.new }
{
    put_str("{\"ok\":\"status\",\"status\":", out);
    put_status(status, out);
    put_str("}", out);
}

#[tactic(auto, unfolding(json::specs::Print::escape_byte))]
pub(crate) fn put_ended(decision: Decision, outcome: &Outcome, out: &mut Bytes)
    requires room { 267 ≤ out.old.room }
    requires short { IsShortStuck outcome.now.stuck }
    ensures bytes { out.new.bytes ≡ out.old.bytes ++ compact_text (reply_data (Reply.Ended decision outcome.now)) }
    ensures length { length out.new.bytes ≤ length out.old.bytes + 267 }
    ensures kept { capacity out.old ≤ capacity out.new }
{
    put_str("{\"ok\":", out);
    put_decision(decision, out);
    put_end(outcome, out);
}

fn put_end(outcome: &Outcome, out: &mut Bytes)
    requires room { 253 ≤ out.old.room }
    requires short { IsShortStuck outcome.now.stuck }
    ensures bytes { out.new.bytes ≡ out.old.bytes ++ members_text true (ended_members outcome.now.status outcome.now.stuck) }
    ensures length { length out.new.bytes ≤ length out.old.bytes + 253 }
    ensures kept { capacity out.old ≤ capacity out.new }
{
    match &outcome.stuck {
        None => put_closed_end(outcome.status, out),
        Some(stuck) => put_stuck_end(outcome.status, stuck, out),
    }
}

#[tactic(auto, unfolding(json::specs::Print::escape_byte))]
fn put_closed_end(status: Status, out: &mut Bytes)
    requires { 23 ≤ out.old.room }
    ensures bytes { out.new.bytes ≡ out.old.bytes ++ members_text true (ended_members status None) }
    ensures length { length out.new.bytes ≤ length out.old.bytes + 23 }
    ensures kept { capacity out.old ≤ capacity out.new }
{
    put_str(",\"status\":", out);
    put_status(status, out);
    put_str("}", out);
}

#[tactic(auto, unfolding(json::specs::Print::escape_byte))]
fn put_stuck_end(status: Status, stuck: &Stuck, out: &mut Bytes)
    requires room { 253 ≤ out.old.room }
    requires name { IsPartName stuck.now.part }
    ensures bytes { out.new.bytes ≡ out.old.bytes ++ members_text true (ended_members status (Some stuck.now)) }
    ensures length { length out.new.bytes ≤ length out.old.bytes + 253 }
    ensures kept { capacity out.old ≤ capacity out.new }
{
    put_str(",\"part\":", out);
    put_name(&stuck.part, out);
    put_str(",\"status\":", out);
    put_status(status, out);
    put_str(",\"why\":", out);
    put_why(stuck.why, out);
    put_str("}", out);
}

#[tactic(auto, unfolding(json::specs::Print::escape_byte))]
pub(crate) fn put_tick(now: u64, left: u64, drove: &Option<Driven>, out: &mut Bytes)
    requires room { 370 ≤ out.old.room }
    requires short { IsShortDriven drove.now }
    ensures bytes { out.new.bytes ≡ out.old.bytes ++ compact_text (reply_data (Reply.Tick now left drove.now)) }
    ensures length { length out.new.bytes ≤ length out.old.bytes + 370 }
    ensures kept { capacity out.old ≤ capacity out.new }
{
    put_str("{\"left\":", out);
    put_number(left, out);
    put_str(",\"now\":", out);
    put_number(now, out);
    put_str(",\"ok\":\"tick\"", out);
    put_drove(drove, out);
}

fn put_drove(drove: &Option<Driven>, out: &mut Bytes)
    requires room { 303 ≤ out.old.room }
    requires short { IsShortDriven drove.now }
    ensures bytes { out.new.bytes ≡ out.old.bytes ++ members_text true (drove_members drove.now) }
    ensures length { length out.new.bytes ≤ length out.old.bytes + 303 }
    ensures kept { capacity out.old ≤ capacity out.new }
{
    match drove {
        None => put_str("}", out),
        Some(driven) => match &driven.outcome.stuck {
            None => put_closed_drive(driven.txn, driven.outcome.status, out),
            Some(stuck) => put_stuck_drive(driven.txn, driven.outcome.status, stuck, out),
        },
    }
}

#[tactic(auto, unfolding(json::specs::Print::escape_byte))]
fn put_closed_drive(txn: TxnId, status: Status, out: &mut Bytes)
    requires { 73 ≤ out.old.room }
    ensures bytes { out.new.bytes ≡ out.old.bytes ++ members_text true (driven_members txn status None) }
    ensures length { length out.new.bytes ≤ length out.old.bytes + 73 }
    ensures kept { capacity out.old ≤ capacity out.new }
{
    put_str(",\"status\":", out);
    put_status(status, out);
    put_str(",\"txn\":", out);
    put_id(txn, out);
    put_str("}", out);
}

#[tactic(auto, unfolding(json::specs::Print::escape_byte))]
fn put_stuck_drive(txn: TxnId, status: Status, stuck: &Stuck, out: &mut Bytes)
    requires room { 303 ≤ out.old.room }
    requires name { IsPartName stuck.now.part }
    ensures bytes { out.new.bytes
        ≡ out.old.bytes ++ members_text true (driven_members txn status (Some stuck.now)) }
    ensures length { length out.new.bytes ≤ length out.old.bytes + 303 }
    ensures kept { capacity out.old ≤ capacity out.new }
{
    put_str(",\"part\":", out);
    put_name(&stuck.part, out);
    put_drive_and_why(txn, status, stuck.why, out);
}

#[tactic(auto, unfolding(json::specs::Print::escape_byte))]
fn put_drive_and_why(txn: TxnId, status: Status, why: Why, out: &mut Bytes)
    requires { 92 ≤ out.old.room }
    ensures bytes { out.new.bytes
        ≡ out.old.bytes ++ members_text true (drive_and_why_members txn status why) }
    ensures length { length out.new.bytes ≤ length out.old.bytes + 92 }
    ensures kept { capacity out.old ≤ capacity out.new }
{
    put_str(",\"status\":", out);
    put_status(status, out);
    put_str(",\"txn\":", out);
    put_id(txn, out);
    put_str(",\"why\":", out);
    put_why(why, out);
    put_str("}", out);
}
