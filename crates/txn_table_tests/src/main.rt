//! What the transaction table and the deadlines answer, over every short list of entries and every order of four deadlines.
#![tactic(auto)]

mod digest;
mod entries;
mod logs;
mod orders;

use crate::logs::count_logs;
use crate::orders::{Way, count_orders};
use std::process::ExitCode;

fn main(rt: HostRuntime) -> ExitCode {
    match report(rt) {
        Ok(()) => ExitCode::SUCCESS,
        Err(_) => ExitCode::FAILURE,
    }
}

/// Prints what was tried and a digest of all answers. What finds no memory has a line of its own.
fn report(rt: HostRuntime) -> Result<(), std::io::Error> {
    for length in 0..6_u64 {
        match count_logs(rt.alloc(), length, 0) {
            Ok(counts) => println!(rt;
                "logs of {length} entries: {} tried, {} entries taken, answers {}",
                counts.tried, counts.taken, counts.answers
            )?,
            Err(_) => println!(rt; "logs of {length} entries: no memory")?,
        }
    }
    for length in 0..6_u64 {
        match count_logs(rt.alloc(), length, 2) {
            Ok(counts) => println!(rt;
                "logs of {length} entries, the last two staged: {} tried, {} entries taken, answers {}",
                counts.tried, counts.taken, counts.answers
            )?,
            Err(_) => println!(rt; "logs of {length} entries, the last two staged: no memory")?,
        }
    }
    for (way, name) in [
        (Way::AsDue, "the first due dropped each time"),
        (Way::AsAdded, "dropped as they were added"),
    ] {
        match count_orders(rt.alloc(), way) {
            Ok(counts) => println!(rt;
                "orders of four deadlines, {name}: {} tried, {} dropped, answers {}",
                counts.tried, counts.taken, counts.answers
            )?,
            Err(_) => println!(rt; "orders of four deadlines, {name}: no memory")?,
        }
    }
    Ok(())
}
