//! Whether a reply's text is short.
ghost use Rattle.std.specs.Prelude.{◌≡◌, true};
ghost use Rattle.std.specs.List.{list_all};
ghost use Rattle.txn_wire.specs.Short.{is_part_byte, IsPartName, IsShortStuck, IsShortRefusal, IsShort};

use txn_base::{Refusal, Reply, Stuck};

/// It tells no messages and no text of the client's own, and each part has a part's name.
pub fn is_short(reply: &Reply) -> bool
    ensures { result ≡ true → IsShort reply.now }
{
    match reply {
        Reply::New { .. } => true,
        Reply::Add => true,
        Reply::Publish { .. } => true,
        Reply::Ack => true,
        Reply::AckUpTo => true,
        Reply::Ended { outcome, .. } => is_short_stuck(&outcome.stuck),
        Reply::Status { .. } => true,
        Reply::Read { .. } => false,
        Reply::Receive { .. } => false,
        Reply::Redeliver => true,
        Reply::Tick { drove, .. } => match drove {
            Some(driven) => is_short_stuck(&driven.outcome.stuck),
            None => true,
        },
        Reply::Stop => true,
        Reply::No(refusal) => is_short_refusal(refusal),
    }
}

fn is_short_stuck(stuck: &Option<Stuck>) -> bool
    ensures { result ≡ true → IsShortStuck stuck.now }
{
    match stuck {
        Some(stuck) => is_part_name(stuck.part.as_str()),
        None => true,
    }
}

fn is_short_refusal(refusal: &Refusal) -> bool
    ensures { result ≡ true → IsShortRefusal refusal.now }
{
    match refusal {
        Refusal::UnknownPart { .. } => false,
        Refusal::WrongKind { .. } => false,
        Refusal::NotRegistered { part } => is_part_name(part.as_str()),
        Refusal::Fault { part } => is_part_name(part.as_str()),
        Refusal::Recovering { part, .. } => is_part_name(part.as_str()),
        Refusal::Damaged { part, .. } => is_part_name(part.as_str()),
        _ => true,
    }
}

/// At most 201 bytes out of letters, digits and `-._/@`.
fn is_part_name(name: &str) -> bool
    ensures { result ≡ true → IsPartName name.now }
{
    if name.len() > 201 {
        return false;
    }
    are_part_bytes(name.as_bytes())
}

fn are_part_bytes(bytes: &[u8]) -> bool
    ensures { result ≡ list_all is_part_byte bytes.now }
{
    bytes.iter().all(|byte| is_part_byte(*byte))
}

#[tactic(auto, unfolding(txn_wire::specs::Short::is_part_byte))]
fn is_part_byte(byte: u8) -> bool
    ensures { result ≡ is_part_byte byte }
{
    match byte {
        b'0'..=b'9' | b'A'..=b'Z' | b'a'..=b'z' | b'-' | b'.' | b'_' | b'/' | b'@' => true,
        _ => false,
    }
}
