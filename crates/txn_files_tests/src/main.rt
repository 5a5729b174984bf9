//! Tries the files of a folder where no clause speaks: over real files, in the folder that it is run in. It answers the lines
//! of standard input with one file open at a time, and then prints a line for each case.
#![tactic(auto)]

mod closing;
mod looking;
mod made;
mod window;

use crate::closing::{many_files, unsynced_file};
use crate::looking::{folder_for_reading, missing_folder};
use crate::made::{failed, folder};
use crate::window::{grown_files, pieces, rewritten_bytes};
use std::io;
use std::process::ExitCode;
use txn_base::{Limits, Text};
use txn_files::{Input, Output, SystemClock};
use txn_run::{RunStatus, run};

fn main(rt: HostRuntime) -> ExitCode {
    match try_all(rt) {
        Ok(()) => ExitCode::SUCCESS,
        Err(_) => ExitCode::from(1),
    }
}

fn try_all(rt: HostRuntime) -> io::Result<()> {
    report(rt, "a run with one open file", lines(rt))?;
    report(rt, "many files, two open at a time", many_files(rt))?;
    report(rt, "a file closed before its sync", unsynced_file(rt))?;
    report(rt, "small reads behind each other", pieces(rt))?;
    report(
        rt,
        "a write inside what was read ahead",
        rewritten_bytes(rt),
    )?;
    report(rt, "a size below what was read ahead", grown_files(rt))?;
    report(rt, "a folder for reading alone", folder_for_reading(rt))?;
    report(rt, "a missing folder for reading alone", missing_folder(rt))
}

fn report(rt: HostRuntime, case: &str, found: io::Result<bool>) -> io::Result<()> {
    match found {
        Ok(true) => println!(rt; "{case}: as it should be"),
        Ok(false) => println!(rt; "{case}: WRONG"),
        Err(_) => println!(rt; "{case}: a call failed"),
    }
}

/// Answers standard input over the coordinator's log and one topic's ledger, of which one is open at a time.
fn lines(rt: HostRuntime) -> io::Result<bool> {
    let mut words = Vec::new(rt.alloc());
    words.push(Text::from_str(rt.alloc(), "lines")?)?;
    words.push(Text::from_str(rt.alloc(), "orders")?)?;
    let mut disk = folder(rt, "lines", 1)?;
    let status = run(
        rt.alloc(),
        &words,
        &Limits::standard(),
        &mut disk,
        &mut Input::new(rt.alloc(), rt, rt.stdin()),
        &mut Output::new(rt.alloc(), rt, rt.stdout()),
        &mut SystemClock::new(rt),
    );
    match status {
        RunStatus::Ok => Ok(true),
        RunStatus::DiskFault => Err(failed()),
        _ => Ok(false),
    }
}
