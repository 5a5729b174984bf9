//! Tells the stories in the files that its arguments name: runs over memory, with what is put, how they end and which files
//! they leave. It prints a line for each story, and ends with status 1 where one of them isn't told as it has to be.
#![tactic(auto)]

mod compare;
mod machine;
mod running;
mod sweep;
mod teller;
mod telling;

use crate::telling::{Told, tell};
use std::process::ExitCode;
use std::{env, fs, io};
use txn_story::{Story, Wrong, is_head};

fn main(rt: HostRuntime) -> ExitCode {
    match tell_all(rt) {
        Ok(true) => ExitCode::SUCCESS,
        Ok(false) => ExitCode::from(1),
        Err(_) => ExitCode::from(2),
    }
}

/// Tells the stories of each file that is named, or shows them where the first word is `show`. Whether all were told as they
/// have to be.
fn tell_all(rt: HostRuntime) -> io::Result<bool> {
    let mut all = true;
    let mut is_shown = false;
    for (i, path) in env::args(&rt)?.skip(1).enumerate() {
        if i == 0 && path.as_str() == "show" {
            is_shown = true;
        } else {
            all = tell_path(rt, path.as_str(), is_shown)? && all;
        }
    }
    Ok(all)
}

/// Tells the stories of the file at a path.
fn tell_path(rt: HostRuntime, path: &str, is_shown: bool) -> io::Result<bool> {
    match fs::read_to_string(&rt, path) {
        Ok(text) => tell_text(rt, path, text.as_str(), is_shown),
        Err(_) => {
            println!(rt; "FAILED {path}: it can't be read")?;
            Ok(false)
        }
    }
}

/// Tells the stories of a file's text.
fn tell_text(rt: HostRuntime, path: &str, text: &str, is_shown: bool) -> io::Result<bool> {
    let mut story = Story::new(rt.alloc(), "", 0)?;
    tell_each(rt, path, text, is_shown, &mut story)
}

/// Tells the stories of a text, where the lines before the first one belong to this.
fn tell_each(
    rt: HostRuntime,
    path: &str,
    text: &str,
    is_shown: bool,
    story: &mut Story,
) -> io::Result<bool> {
    let mut all = true;
    for (i, line) in text.lines().enumerate() {
        if is_head(line) {
            all = tell_story(rt, path, story, is_shown)? && all;
            *story = Story::new(rt.alloc(), line, i.saturating_add(1))?;
        } else {
            story.add(line)?;
        }
    }
    Ok(tell_story(rt, path, story, is_shown)? && all)
}

/// Tells a story for each of its cases.
fn tell_story(rt: HostRuntime, path: &str, story: &Story, is_shown: bool) -> io::Result<bool> {
    let mut all = true;
    for i in 0..story.times() {
        let told = tell(rt.alloc(), story, i, is_shown)?;
        all = print_told(rt, path, &told, story.is_wrong, is_shown)? && all;
    }
    Ok(all)
}

/// Prints what there is to print of a story that was told. Whether it was told as it has to be.
fn print_told(
    rt: HostRuntime,
    path: &str,
    told: &Told,
    is_wrong: bool,
    is_shown: bool,
) -> io::Result<bool> {
    if is_shown {
        show(rt, told)
    } else if is_wrong {
        report_wrong(rt, told)
    } else {
        report(rt, path, told)
    }
}

/// Prints a story with what came.
fn show(rt: HostRuntime, told: &Told) -> io::Result<bool> {
    if !told.head.is_empty() {
        let head = told.head.as_str();
        println!(rt; "{head}")?;
    }
    if let Some(page) = &told.teller.page {
        rt.print(page.text.as_str())?;
    }
    Ok(told.end.is_ok())
}

/// Prints how a story ended. Whether it was told to its end.
fn report(rt: HostRuntime, path: &str, told: &Told) -> io::Result<bool> {
    let name = told.name();
    match &told.end {
        Ok(()) => {
            let count = told.teller.failed;
            if count > 0 {
                println!(rt; "ok {name}: {count} calls failed in turn")?;
            } else if !name.is_empty() {
                println!(rt; "ok {name}")?;
            }
            return Ok(true);
        }
        Err(wrong) => print_failed(rt, name, wrong)?,
    }
    let line = told.at;
    println!(rt; "  up to line {line} of {path}")?;
    Ok(false)
}

/// Prints why a story failed.
fn print_failed(rt: HostRuntime, name: &str, wrong: &Wrong) -> io::Result<()> {
    match wrong {
        Wrong::NoMemory => println!(rt; "FAILED {name}: no memory"),
        Wrong::Line(why) => println!(rt; "FAILED {name}: {why}"),
        Wrong::Came { what, want, came } => {
            println!(rt; "FAILED {name}: {what}\n  want {want}\n  came {came}")
        }
    }
}

/// Prints where a story that says something wrong is found to be wrong. Whether it is found so by what came.
fn report_wrong(rt: HostRuntime, told: &Told) -> io::Result<bool> {
    let name = told.name();
    match &told.end {
        Err(Wrong::Came { what, want, came }) => {
            println!(rt; "wrong as it has to be: {name}: {what}\n  want {want}\n  came {came}")?;
            Ok(true)
        }
        Err(wrong) => {
            print_failed(rt, name, wrong)?;
            Ok(false)
        }
        Ok(()) => {
            println!(rt; "FAILED {name}: it says something wrong, and nothing else came")?;
            Ok(false)
        }
    }
}
