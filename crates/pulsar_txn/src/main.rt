//! The program: a topic over the files of a folder, for clients that speak JSON lines.
#![tactic(auto)]

ghost use Rattle.std.specs.Prelude.{◌≡◌, ◌⊎◌, Err};
ghost use Rattle.pulsar_txn.specs.CommandLine.{given};
ghost use Rattle.txn_base.specs.declared.usage.Usage.{Usage};
ghost use Rattle.txn_run.specs.declared.status.RunStatus.TheVariants as status;

mod command_line;

use crate::command_line::{split, words_of};
use std::process::ExitCode;
use txn_base::{Limits, Text, Usage};
use txn_files::{FolderDisk, Input, OPEN_FILES, Output, SystemClock};
use txn_run::{RunStatus, run};

fn main(rt: HostRuntime) -> ExitCode {
    let status = match words_of(rt) {
        Ok(words) => answer(rt, &words),
        Err(status) => status,
    };
    let _ = eprint!(rt; "{status}");
    ExitCode::from(status.number())
}

/// Does what the words ask for, over the files of the folder among them, and standard input and output.
fn answer(rt: HostRuntime, words: &[Text]) -> RunStatus
    ensures usage { (u : Usage) → given words.now ≡ Err u → (result ≡ status.Usage u) ⊎ (result ≡ status.NoMemory) }
    ensures command { (u : Usage) → result ≡ status.Usage u → given words.now ≡ Err u }
{
    let Some((folder, words)) = split(words) else {
        return RunStatus::Usage(Usage::Words);
    };
    let Ok(path) = folder.clone() else {
        return RunStatus::NoMemory;
    };
    let Ok(mut disk) = FolderDisk::new(rt.alloc(), rt, path, OPEN_FILES) else {
        return RunStatus::NoMemory;
    };
    let mut input = Input::new(rt.alloc(), rt, rt.stdin());
    let mut output = Output::new(rt.alloc(), rt, rt.stdout());
    let mut clock = SystemClock::new(rt);
    run(
        rt.alloc(),
        words,
        &Limits::standard(),
        &mut disk,
        &mut input,
        &mut output,
        &mut clock,
    )
}
