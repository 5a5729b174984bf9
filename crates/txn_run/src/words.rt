//! The words of a command line, read by hand.
ghost use Rattle.std.specs.Prelude.{◌≡◌, ℕ, List, [], ◌∷◌, All, Ok, Err, true, IfOk, IfErr};
ghost use Rattle.std.specs.List.{list_all};
ghost use Rattle.txn_base.specs.Names.{is_name_byte, begins_with_dash, is_topic_name};
ghost use Rattle.txn_model.specs.Names.{NamesLawful};
ghost use Rattle.txn_run.specs.Words.{is_bad, any_bad, command_of};
ghost use Rattle.txn_run.specs.Status.{ReadsWords};

use crate::status::RunStatus;
use std::alloc::Global;
use txn_base::{Text, Usage};

/// The names of the parts, which are the one topic that the words name, or the status that they come to.
pub fn names_of(alloc: Global, words: &[Text]) -> Result<Vec<Text>, RunStatus>
    ensures words { IfOk result (λ names. (name : List ℕ) × (names.items ≡ name ∷ [])
        × (command_of words.now ≡ Ok name)) }
    ensures refused { IfErr result (λ status. ReadsWords (Err status) (command_of words.now)) }
    ensures lawful { IfOk result (λ names. NamesLawful names.items) }
    ensures topics { IfOk result (λ names. All (λ name. is_topic_name name ≡ true) names.items) }
{
    let name = match topic_of(alloc, words) {
        Ok(name) => name,
        Err(status) => return Err(status),
    };
    let mut names = Vec::new(alloc);
    match names.push(name) {
        Ok(()) => Ok(names),
        Err(_) => Err(RunStatus::NoMemory),
    }
}

/// The topic that the words name, or the status that they come to.
#[tactic(auto, unfolding(crate::specs::Words::command_of))]
pub fn topic_of(alloc: Global, words: &[Text]) -> Result<Text, RunStatus>
    ensures words { ReadsWords result (command_of words.now) }
    ensures name { IfOk result (λ name. is_topic_name name ≡ true) }
{
    if any_bad(words) {
        return Err(RunStatus::Usage(Usage::Words));
    }
    match words {
        [command, name] => {
            if command.as_str() != "lines" {
                return Err(RunStatus::Usage(Usage::Words));
            }
            let Ok(word) = name.clone() else {
                return Err(RunStatus::NoMemory);
            };
            if is_topic_name(name.as_bytes()) {
                Ok(word)
            } else {
                Err(RunStatus::Usage(Usage::BadName { word }))
            }
        }
        _ => Err(RunStatus::Usage(Usage::Words)),
    }
}

fn any_bad(words: &[Text]) -> bool
    ensures { result ≡ any_bad words.now }
{
    for word in words {
        if is_bad(word.as_bytes()) {
            return true;
        }
    }
    false
}

fn is_bad(word: &[u8]) -> bool
    ensures { result ≡ is_bad word.now }
{
    match word {
        [] => true,
        [first, ..] => *first == b'-',
    }
}

fn is_topic_name(name: &[u8]) -> bool
    ensures { result ≡ is_topic_name name.now }
{
    if name.len() < 1 || name.len() > 100 {
        return false;
    }
    if begins_with_dash(name) {
        return false;
    }
    all_name_bytes(name)
}

fn all_name_bytes(name: &[u8]) -> bool
    ensures { result ≡ list_all is_name_byte name.now }
{
    name.iter().all(|byte| is_name_byte(*byte))
}

fn begins_with_dash(name: &[u8]) -> bool
    ensures { result ≡ begins_with_dash name.now }
{
    match name {
        [] => false,
        [first, ..] => *first == b'-',
    }
}

fn is_name_byte(byte: u8) -> bool
    ensures { result ≡ is_name_byte byte }
{
    matches!(byte, b'0'..=b'9' | b'A'..=b'Z' | b'a'..=b'z' | b'-' | b'.' | b'_')
}
