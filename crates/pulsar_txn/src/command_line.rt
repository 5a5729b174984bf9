//! The words that the program is given.
ghost use Rattle.std.specs.Prelude.{◌≡◌, MatchOption, true, false, Err};
ghost use Rattle.pulsar_txn.specs.CommandLine.{IsSplit, has_folder, is_folder, given};
ghost use Rattle.txn_base.specs.declared.usage.Usage.TheVariants as usage;
ghost use Rattle.txn_run.specs.Words.{command_of};

use std::alloc::{AllocError, Global};
use std::env;
use std::env::Args;
use std::io::ErrorKind;
use txn_base::{Text, Usage};
use txn_run::RunStatus;

/// The program's name and the words behind it. Those that aren't UTF-8 are no command line.
pub fn words_of(rt: HostRuntime) -> Result<Vec<Text>, RunStatus> {
    let args = match env::args(&rt) {
        Ok(args) => args,
        Err(e) if e.kind() == ErrorKind::OutOfMemory => return Err(RunStatus::NoMemory),
        Err(_) => return Err(RunStatus::Usage(Usage::Words)),
    };
    match texts_of(rt.alloc(), args) {
        Ok(words) => Ok(words),
        Err(_) => Err(RunStatus::NoMemory),
    }
}

fn texts_of(alloc: Global, args: Args) -> Result<Vec<Text>, AllocError> {
    let mut texts = Vec::new(alloc);
    for word in args {
        texts.push(Text::from_string(word))?;
    }
    Ok(texts)
}

/// The folder, which is the first word behind the program's name, and the words after it. None where there is none, or it
/// is empty or begins with -, as an option does.
pub fn split(words: &[Text]) -> Option<(&Text, &[Text])>
    ensures given { MatchOption result (given words.now ≡ Err usage.Words) (λ p. given words.now ≡ command_of p.1.now) }
    ensures parts { MatchOption result (has_folder words.now ≡ false) (λ p. (has_folder words.now ≡ true) × IsSplit words.now p.0.now p.1.now) }
{
    match words {
        [_, folder, words @ ..] if is_folder(folder.as_bytes()) => Some((folder, words)),
        _ => None,
    }
}

fn is_folder(word: &[u8]) -> bool
    ensures { result ≡ is_folder word.now }
{
    match word {
        [] => false,
        [first, ..] => *first != b'-',
    }
}
