//! The pieces of short texts: words, numbers, ids and names.
ghost use Rattle.std.specs.Prelude.{◌≡◌, ◌≤◌, ◌+◌, ◌++◌, length, decimal};
ghost use Rattle.json.specs.Print.{quoted};
ghost use Rattle.serde_json.specs.Written.{compact_text};
ghost use Rattle.txn_base.specs.Room.{capacity};
ghost use Rattle.txn_wire.specs.Replies.{id_data, decision_word, status_word, why_word, what_word};
ghost use Rattle.txn_wire.specs.Short.{IsPartName};

use itoa::Buffer;
use txn_base::{Bytes, Decision, Status, Text, TxnId, What, Why};

pub(crate) fn put_str(text: &str, out: &mut Bytes)
    requires { length text.now ≤ out.old.room }
    ensures bytes { out.new.bytes ≡ out.old.bytes ++ text.now }
    ensures length { length out.new.bytes ≤ length out.old.bytes + length text.now }
    ensures kept { capacity out.old ≤ capacity out.new }
{
    out.put(text.as_bytes());
}

pub(crate) fn put_number(number: u64, out: &mut Bytes)
    requires { 20 ≤ out.old.room }
    ensures bytes { out.new.bytes ≡ out.old.bytes ++ decimal number }
    ensures length { length out.new.bytes ≤ length out.old.bytes + 20 }
    ensures kept { capacity out.old ≤ capacity out.new }
{
    let mut buffer = Buffer::new();
    put_str(buffer.format(number), out);
}

pub(crate) fn put_id(txn: TxnId, out: &mut Bytes)
    requires { 43 ≤ out.old.room }
    ensures bytes { out.new.bytes ≡ out.old.bytes ++ compact_text (id_data txn) }
    ensures length { length out.new.bytes ≤ length out.old.bytes + 43 }
    ensures kept { capacity out.old ≤ capacity out.new }
{
    put_str("[", out);
    put_number(txn.most, out);
    put_str(",", out);
    put_number(txn.least, out);
    put_str("]", out);
}

pub(crate) fn put_name(name: &Text, out: &mut Bytes)
    requires room { 203 ≤ out.old.room }
    requires name { IsPartName name.now }
    ensures bytes { out.new.bytes ≡ out.old.bytes ++ quoted name.now }
    ensures length { length out.new.bytes ≤ length out.old.bytes + 203 }
    ensures kept { capacity out.old ≤ capacity out.new }
{
    put_str("\"", out);
    put_str(name.as_str(), out);
    put_str("\"", out);
}

#[tactic(auto, unfolding(json::specs::Print::escape_byte))]
pub(crate) fn put_decision(decision: Decision, out: &mut Bytes)
    requires { 8 ≤ out.old.room }
    ensures bytes { out.new.bytes ≡ out.old.bytes ++ quoted (decision_word decision) }
    ensures length { length out.new.bytes ≤ length out.old.bytes + 8 }
    ensures kept { capacity out.old ≤ capacity out.new }
{
    match decision {
        Decision::Commit => put_str("\"commit\"", out),
        Decision::Abort => put_str("\"abort\"", out),
    }
}

#[tactic(auto, unfolding(json::specs::Print::escape_byte))]
pub(crate) fn put_status(status: Status, out: &mut Bytes)
    requires { 12 ≤ out.old.room }
    ensures bytes { out.new.bytes ≡ out.old.bytes ++ quoted (status_word status) }
    ensures length { length out.new.bytes ≤ length out.old.bytes + 12 }
    ensures kept { capacity out.old ≤ capacity out.new }
{
    match status {
        Status::Open => put_str("\"open\"", out),
        Status::Committing => put_str("\"committing\"", out),
        Status::Committed => put_str("\"committed\"", out),
        Status::Aborting => put_str("\"aborting\"", out),
        Status::Aborted => put_str("\"aborted\"", out),
    }
}

#[tactic(auto, unfolding(json::specs::Print::escape_byte))]
pub(crate) fn put_why(why: Why, out: &mut Bytes)
    requires { 12 ≤ out.old.room }
    ensures bytes { out.new.bytes ≡ out.old.bytes ++ quoted (why_word why) }
    ensures length { length out.new.bytes ≤ length out.old.bytes + 12 }
    ensures kept { capacity out.old ≤ capacity out.new }
{
    match why {
        Why::Fault => put_str("\"fault\"", out),
        Why::Recovering => put_str("\"recovering\"", out),
        Why::Memory => put_str("\"memory\"", out),
    }
}

#[tactic(auto, unfolding(json::specs::Print::escape_byte))]
pub(crate) fn put_what(what: What, out: &mut Bytes)
    requires { 14 ≤ out.old.room }
    ensures bytes { out.new.bytes ≡ out.old.bytes ++ quoted (what_word what) }
    ensures length { length out.new.bytes ≤ length out.old.bytes + 14 }
    ensures kept { capacity out.old ≤ capacity out.new }
{
    match what {
        What::Transactions => put_str("\"transactions\"", out),
        What::Log => put_str("\"log\"", out),
        What::Held => put_str("\"held\"", out),
    }
}
