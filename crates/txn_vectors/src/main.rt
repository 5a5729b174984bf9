//! Tells the vectors in the files that its arguments name: records read and written, lines read, replies told. It prints the
//! name of each case and each line that tells something else than it says, and ends with status 1 where there was one.
#![tactic(auto)]

mod bytes;
mod ends;
mod records;
mod refusals;
mod replies;
mod requests;
mod short;
mod snapshots;
mod text;
mod values;
mod wrong;

use crate::text::first_word;
use crate::wrong::Wrong;
use std::alloc::Global;
use std::process::ExitCode;
use std::{env, fs, io};

fn main(rt: HostRuntime) -> ExitCode {
    match tell_files(rt) {
        Ok(true) => ExitCode::SUCCESS,
        Ok(false) => ExitCode::from(1),
        Err(_) => ExitCode::from(2),
    }
}

/// Tells each file that is named. Whether all of it was as it should be.
fn tell_files(rt: HostRuntime) -> io::Result<bool> {
    let mut all = true;
    for path in env::args(&rt)?.skip(1) {
        match fs::read_to_string(&rt, path.as_str()) {
            Ok(text) => all = tell_file(rt, path.as_str(), text.as_str())? && all,
            Err(_) => {
                println!(rt; "FAILED {path}: it can't be read")?;
                all = false;
            }
        }
    }
    Ok(all)
}

/// Tells the lines of a file.
fn tell_file(rt: HostRuntime, path: &str, text: &str) -> io::Result<bool> {
    let mut told = 0u64;
    let mut failed = 0u64;
    for line in text.lines() {
        if let Some(name) = line.strip_prefix("case ") {
            println!(rt; "{name}")?;
        } else if !line.is_empty() && !line.starts_with("#") {
            let is_right = match line.strip_prefix("wrong ") {
                Some(wrong) => tell_wrong(rt, wrong)?,
                None => tell_line(rt, line)?,
            };
            if is_right {
                told = told.saturating_add(1);
            } else {
                failed = failed.saturating_add(1);
            }
        }
    }
    println!(rt; "{path}: {told} lines as they should be, {failed} otherwise")?;
    Ok(failed == 0)
}

/// Tells one line. Whether what comes is what it says behind its =.
fn tell_line(rt: HostRuntime, line: &str) -> io::Result<bool> {
    let Some((asked, want)) = line.split_once(" = ") else {
        println!(rt; "FAILED {line}\n  it says not what is to come")?;
        return Ok(false);
    };
    match told(rt.alloc(), asked) {
        Ok(came) => {
            if came.as_str() == want {
                return Ok(true);
            }
            println!(rt; "FAILED {asked}\n  want {want}\n  came {came}")?;
        }
        Err(Wrong::NoMemory) => println!(rt; "FAILED {asked}\n  no memory")?,
        Err(Wrong::Line(why)) => println!(rt; "FAILED {asked}\n  {why}")?,
    }
    Ok(false)
}

/// Tells a line that says something wrong. Whether something else comes.
fn tell_wrong(rt: HostRuntime, line: &str) -> io::Result<bool> {
    let Some((asked, want)) = line.split_once(" = ") else {
        println!(rt; "FAILED {line}\n  it says not what is to come")?;
        return Ok(false);
    };
    match told(rt.alloc(), asked) {
        Ok(came) if came.as_str() != want => {
            println!(rt; "wrong as it has to be: {asked}\n  want {want}\n  came {came}")?;
            Ok(true)
        }
        _ => {
            println!(rt; "FAILED {asked}\n  it says something wrong, and nothing else came")?;
            Ok(false)
        }
    }
}

/// What comes of a line.
fn told(alloc: Global, line: &str) -> Result<String, Wrong> {
    let (kind, rest) = first_word(line);
    match kind {
        "request" => requests::told(alloc, rest),
        "reply" => replies::told(alloc, rest),
        "size" => replies::size_told(alloc, rest),
        "constant" => replies::constant_told(alloc),
        "batch" => snapshots::batch_told(alloc, rest),
        "spoiled" => snapshots::spoiled_told(alloc, rest),
        "ends" => snapshots::ends_told(alloc, rest),
        _ => records::told(alloc, kind, rest),
    }
}
