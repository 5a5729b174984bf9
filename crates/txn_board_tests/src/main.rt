//! Boards at work: a transaction from its beginning to its markers, and what a reader is told meanwhile and of one that is
//! closed.
#![tactic(auto)]

mod fresh;
mod measure;
mod openings;
mod story;
mod surely;
#[cfg(test)]
mod threads;

use crate::fresh::{Fresh, fresh_seats, turned_answers};
use crate::measure::{Counted, Kind, Work, measure};
use crate::openings::{Found, full_window, low_three, many_lists};
use crate::story::{Told, closed_board, open_board};
use crate::surely::sure_board;
use std::alloc::AllocError;
use std::env;
use std::process::ExitCode;

fn main(rt: HostRuntime) -> ExitCode {
    let told = match asked(rt) {
        Ok(Some(work)) => tell_count(rt, measure(&rt, rt.alloc(), work)),
        Ok(None) => report(rt),
        Err(e) => Err(e),
    };
    match told {
        Ok(()) => ExitCode::SUCCESS,
        Err(_) => ExitCode::FAILURE,
    }
}

/// What is to be measured, where the words are `status`, `steps` or `beside`, a number of threads and one of rounds.
fn asked(rt: HostRuntime) -> Result<Option<Work>, std::io::Error> {
    let mut words = env::args(&rt)?.skip(1);
    let (Some(kind), Some(threads), Some(rounds)) = (words.next(), words.next(), words.next())
    else {
        return Ok(None);
    };
    let (Ok(threads), Ok(rounds)) = (
        threads.as_str().parse::<u64>(),
        rounds.as_str().parse::<u64>(),
    ) else {
        return Ok(None);
    };
    let kind = match kind.as_str() {
        "status" => Kind::Reads,
        "beside" => Kind::Beside,
        _ => Kind::Steps,
    };
    Ok(Some(Work {
        kind,
        threads,
        rounds,
    }))
}

/// How many were counted, and behind it how many reads were made beside.
fn tell_count(rt: HostRuntime, counted: Result<Counted, AllocError>) -> Result<(), std::io::Error> {
    match counted {
        Ok(Counted { count, beside }) => println!(rt; "{count} {beside}"),
        Err(_) => println!(rt; "no memory"),
    }
}

/// Tells the stories.
fn report(rt: HostRuntime) -> Result<(), std::io::Error> {
    match open_board(rt.alloc()) {
        Ok(told) => tell(rt, "a transaction of one part", told)?,
        Err(_) => println!(rt; "a transaction of one part: no memory")?,
    }
    match closed_board(rt.alloc()) {
        Ok(told) => tell(rt, "a board opened behind an aborted one", told)?,
        Err(_) => println!(rt; "a board opened behind an aborted one: no memory")?,
    }
    tell_found(rt, "63 lists", many_lists(rt.alloc()))?;
    tell_found(rt, "three closed below the window", low_three(rt.alloc()))?;
    tell_found(rt, "a window of open ones", full_window(rt.alloc()))?;
    tell_fresh(rt, "first a message", fresh_seats(rt.alloc(), true))?;
    tell_fresh(rt, "first a marker", fresh_seats(rt.alloc(), false))?;
    match turned_answers(rt.alloc()) {
        Ok(turned) => println!(rt; "before an entry settles and after: {:?}", turned)?,
        Err(_) => println!(rt; "before an entry settles and after: no memory")?,
    }
    match sure_board(rt.alloc()) {
        Ok(told) => println!(rt; "a transaction whose conditions are shown: {:?}", told)?,
        Err(_) => println!(rt; "a transaction whose conditions are shown: no memory")?,
    }
    Ok(())
}

fn tell_found(
    rt: HostRuntime,
    name: &str,
    found: Result<Found, AllocError>,
) -> Result<(), std::io::Error> {
    match found {
        Ok(found) => println!(rt; "{name}: {:?}", found),
        Err(_) => println!(rt; "{name}: no memory"),
    }
}

fn tell_fresh(
    rt: HostRuntime,
    name: &str,
    fresh: Result<Fresh, AllocError>,
) -> Result<(), std::io::Error> {
    match fresh {
        Ok(fresh) => println!(rt; "{name}: {:?}", fresh),
        Err(_) => println!(rt; "{name}: no memory"),
    }
}

fn tell(rt: HostRuntime, name: &str, told: Told) -> Result<(), std::io::Error> {
    println!(rt; "{name}: {:?}", told)
}
