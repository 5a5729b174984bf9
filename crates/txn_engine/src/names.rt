//! The names of the parts, and their numbers.
ghost use Rattle.std.specs.Prelude.{◌≡◌, ◌⊎◌, ◌≤◌, ◌<◌, bytes_eq, length, IfSome};
ghost use Rattle.std.specs.List.{position};
ghost use Rattle.txn_base.specs.declared.reply.Reply.TheVariants as reply;
ghost use Rattle.txn_base.specs.declared.reply.Refusal.TheVariants as no;
ghost use Rattle.txn_model.specs.Names.{part_of};

use txn_base::{Refusal, Reply, Text};

/// The number of the part of this name, from 1 on.
pub fn part_of(names: &[Text], name: &Text) -> Option<usize>
    ensures value { result ≡ part_of names.now name.now }
    ensures within { IfSome result (λ p. (1 ≤ p) × (p ≤ length names.now)) }
{
    match index_of(names, name) {
        Some(at) => Some(at + 1),
        None => None,
    }
}

fn index_of(names: &[Text], name: &Text) -> Option<usize>
    ensures value { result ≡ position (bytes_eq name.now) names.now }
    ensures within { IfSome result (λ i. i < length names.now) }
{
    names
        .iter()
        .position(|known| name.as_str() == known.as_str())
}

/// That there is no part of this name.
pub fn unknown_part(name: &Text) -> Reply
    ensures { (result ≡ reply.No (no.UnknownPart name.now)) ⊎ (result ≡ reply.No no.NoMemory) }
{
    match name.clone() {
        Ok(name) => Reply::No(Refusal::UnknownPart { name }),
        Err(_) => Reply::No(Refusal::NoMemory),
    }
}
